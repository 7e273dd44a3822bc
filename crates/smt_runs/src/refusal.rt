// Why a run is refused that reads a job, and what is said of it.
ghost use Rattle.std.specs.Prelude.{◌≡◌};
ghost use Rattle.smt_runs.specs.Refusal.{blast_line, encode_line, input_line, job_line};
ghost use Rattle.smt_runs.specs.Refusal.{session_line};

use smt_pool::SessionFault;
use smt_program::Refused;

/// Why bytes are no job. Of several faults it is the first, as [`JobError`] orders them.
#[derive(Clone, Copy, Debug, PartialEq, Eq, Drop)]
pub enum JobRefusal {
    /// There are more than 16777216 bytes.
    TooLarge,
    /// The bytes are no expression, by a fault of a token or of a bracket.
    Parse,
    /// More than 512 brackets are open at a place.
    TooDeep,
    /// A section, a declaration, a step or a term has no form.
    BadForm,
    /// No variable, function or form of terms has a name that is used.
    UnknownName,
    /// An enum type, a variable, a function or an attribute has a name that was given before.
    DuplicateName,
    /// A type has no form.
    BadType,
    /// A width is no numeral from 1 to 128, or none from 0 to 127 for `zero_extend`.
    BadWidth,
    /// A literal's text has no value.
    BadLiteral,
    /// An operator or a set does not take parts of these types.
    IllTyped,
    /// A whole term is no Boolean.
    NotBool,
    /// A step closes a level where none is open.
    Unbalanced,
}

impl JobRefusal {
    /// The line that a program says of it, with its LF.
    pub fn line(self) -> &'static str
        ensures { result.now ≡ job_line self }
    {
        match self {
            JobRefusal::TooLarge => "job refused: TooLarge\n",
            JobRefusal::Parse => "job refused: Parse\n",
            JobRefusal::TooDeep => "job refused: TooDeep\n",
            JobRefusal::BadForm => "job refused: BadForm\n",
            JobRefusal::UnknownName => "job refused: UnknownName\n",
            JobRefusal::DuplicateName => "job refused: DuplicateName\n",
            JobRefusal::BadType => "job refused: BadType\n",
            JobRefusal::BadWidth => "job refused: BadWidth\n",
            JobRefusal::BadLiteral => "job refused: BadLiteral\n",
            JobRefusal::IllTyped => "job refused: IllTyped\n",
            JobRefusal::NotBool => "job refused: NotBool\n",
            JobRefusal::Unbalanced => "job refused: Unbalanced\n",
        }
    }
}

/// Why a term has no script.
#[derive(Clone, Copy, Debug, PartialEq, Eq, Drop)]
pub enum EncodeRefusal {
    /// An entity of an enum type is no member of it.
    EnumMissingMember,
    /// A string, or the id of an entity, has a character above 196607.
    EncodeStringFailed,
    /// A pattern has a character above 196607.
    EncodePatternFailed,
    /// An enum type has no members.
    EmptyEnum,
    /// An attribute is taken of no term.
    MalformedRecordGet,
    /// An attribute is taken of a value of a type that has no name.
    MissingTypeEncoding,
    /// An attribute is taken of a value of a type that is no record type.
    ExpectRecord,
    /// An attribute is taken of a record that does not have it.
    RecordMissingAttr,
}

impl EncodeRefusal {
    /// The line that a program says of it, with its LF.
    pub fn line(self) -> &'static str
        ensures { result.now ≡ encode_line self }
    {
        match self {
            EncodeRefusal::EnumMissingMember => "encode refused: EnumMissingMember\n",
            EncodeRefusal::EncodeStringFailed => "encode refused: EncodeStringFailed\n",
            EncodeRefusal::EncodePatternFailed => "encode refused: EncodePatternFailed\n",
            EncodeRefusal::EmptyEnum => "encode refused: EmptyEnum\n",
            EncodeRefusal::MalformedRecordGet => "encode refused: MalformedRecordGet\n",
            EncodeRefusal::MissingTypeEncoding => "encode refused: MissingTypeEncoding\n",
            EncodeRefusal::ExpectRecord => "encode refused: ExpectRecord\n",
            EncodeRefusal::RecordMissingAttr => "encode refused: RecordMissingAttr\n",
        }
    }
}

/// Why bytes are no job with an assignment. Of several faults it is the first.
#[derive(Clone, Copy, Debug, PartialEq, Eq, Drop)]
pub enum InputRefusal {
    /// There are more than 16777216 bytes.
    TooLarge,
    /// The bytes are no expression, by a fault of a token or of a bracket.
    Parse,
    /// More than 513 brackets are open at a place.
    TooDeep,
    /// A section or an entry has no form, or what stands for the type of a get is none.
    BadForm,
    /// The job is refused.
    Job,
    /// No variable, function or selector has the name of an entry.
    UnknownName,
    /// A name, a type, or a key in an entry is given twice.
    DuplicateName,
    /// What stands for a value in an entry is none of its type.
    NotValue,
    /// No entry gives what the terms reach.
    Missing,
}

impl InputRefusal {
    /// The line that a program says of it, with its LF.
    pub fn line(self) -> &'static str
        ensures { result.now ≡ input_line self }
    {
        match self {
            InputRefusal::TooLarge => "eval refused: TooLarge\n",
            InputRefusal::Parse => "eval refused: Parse\n",
            InputRefusal::TooDeep => "eval refused: TooDeep\n",
            InputRefusal::BadForm => "eval refused: BadForm\n",
            InputRefusal::Job => "eval refused: Job\n",
            InputRefusal::UnknownName => "eval refused: UnknownName\n",
            InputRefusal::DuplicateName => "eval refused: DuplicateName\n",
            InputRefusal::NotValue => "eval refused: NotValue\n",
            InputRefusal::Missing => "eval refused: Missing\n",
        }
    }
}

/// Why terms have no circuits.
#[derive(Clone, Copy, Debug, PartialEq, Eq, Drop)]
pub enum BlastRefusal {
    /// An operator has no circuit.
    Unsupported,
    /// A type is neither Bool nor a bitvector type.
    UnsupportedType,
}

impl BlastRefusal {
    /// The line that a program says of it, with its LF.
    pub fn line(self) -> &'static str
        ensures { result.now ≡ blast_line self }
    {
        match self {
            BlastRefusal::Unsupported => "blast refused: Unsupported\n",
            BlastRefusal::UnsupportedType => "blast refused: UnsupportedType\n",
        }
    }
}

/// The line that a program says of a session that failed.
fn line_of_session(kind: SessionFault) -> &'static str
    ensures { result.now ≡ session_line kind }
{
    match kind {
        SessionFault::Io => "session fault: Io\n",
        SessionFault::Solver => "session fault: Solver\n",
        SessionFault::UnrecognizedSolverOutput => "session fault: UnrecognizedSolverOutput\n",
        SessionFault::AnswerTooLong => "session fault: AnswerTooLong\n",
    }
}

/// Why a run is refused of a program that reads a job. Words that are no command are refused before it.
#[derive(Clone, Copy, Debug, PartialEq, Eq, Drop)]
pub enum Refusal {
    /// The bytes are no job.
    Job(JobRefusal),
    /// The bytes are no job with an assignment.
    Input(InputRefusal),
    /// The steps of the job are not one assertion of two terms.
    NotTwo,
    /// A term has no script.
    Encode(EncodeRefusal),
    /// A term has no circuit.
    Blast(BlastRefusal),
    /// The source failed.
    Source,
    /// The sink failed.
    Sink,
    /// The solver did not start.
    Start,
    /// The session with the solver failed.
    Session(SessionFault),
    /// There was no memory.
    Memory,
}

impl Refused for Refusal {
    ghost use Rattle.smt_runs.specs.Refusal.{line_of, status_of};

    ghost status_gives = { status_of };

    ghost line_gives = { line_of };

    fn status(&self) -> u8 {
        match self {
            Refusal::Job(_) | Refusal::Input(_) | Refusal::NotTwo => 3,
            Refusal::Encode(_) => 4,
            Refusal::Source => 5,
            Refusal::Sink => 6,
            Refusal::Memory => 7,
            Refusal::Session(_) => 8,
            Refusal::Start => 9,
            Refusal::Blast(_) => 10,
        }
    }

    fn line(&self) -> &'static str {
        match self {
            Refusal::Job(why) => why.line(),
            Refusal::Input(why) => why.line(),
            Refusal::NotTwo => "job refused: NotTwo\n",
            Refusal::Encode(why) => why.line(),
            Refusal::Blast(why) => why.line(),
            Refusal::Source => "source fault\n",
            Refusal::Sink => "sink fault\n",
            Refusal::Start => "no start\n",
            Refusal::Session(kind) => line_of_session(*kind),
            Refusal::Memory => "memory\n",
        }
    }
}
