// Which refusal an error becomes.
ghost use Rattle.std.specs.Prelude.{◌≡◌};
ghost use Rattle.smt_runs.specs.Refusal.{refusal_of};
ghost use Rattle.smt_encode.specs.declared.error.EncodeError.TheVariants as encoding;
ghost use Rattle.smt_bits.specs.declared.error.BitVecError.{BitVecError as Bits};

use crate::refusal::{EncodeRefusal, JobRefusal, Refusal};
use smt_encode::EncodeError;
use smt_job_terms::JobError;
use smt_pool::CheckError;
use smt_script::{InputError, SinkError};
use std::alloc::AllocError;

impl From<InputError> for Refusal {
    ghost use Rattle.std.specs.Prelude.{◌≡◌};
    ghost use Rattle.smt_runs.specs.Refusal.{input_refusal};

    ghost from_gives = { λ error refusal. refusal ≡ input_refusal error };

    fn from(error: InputError) -> Refusal {
        match error {
            InputError::TooLarge => Refusal::Job(JobRefusal::TooLarge),
            InputError::Fault => Refusal::Source,
            InputError::Memory => Refusal::Memory,
        }
    }
}

impl From<JobError> for Refusal {
    ghost use Rattle.std.specs.Prelude.{◌≡◌};
    ghost use Rattle.smt_runs.specs.Refusal.{job_refusal};

    ghost from_gives = { λ error refusal. refusal ≡ job_refusal error };

    fn from(error: JobError) -> Refusal {
        match error {
            JobError::TooLarge => Refusal::Job(JobRefusal::TooLarge),
            JobError::Parse(_) => Refusal::Job(JobRefusal::Parse),
            JobError::TooDeep => Refusal::Job(JobRefusal::TooDeep),
            JobError::BadForm => Refusal::Job(JobRefusal::BadForm),
            JobError::UnknownName(_) => Refusal::Job(JobRefusal::UnknownName),
            JobError::DuplicateName(_) => Refusal::Job(JobRefusal::DuplicateName),
            JobError::BadType => Refusal::Job(JobRefusal::BadType),
            JobError::BadWidth => Refusal::Job(JobRefusal::BadWidth),
            JobError::BadLiteral(_) => Refusal::Job(JobRefusal::BadLiteral),
            JobError::IllTyped => Refusal::Job(JobRefusal::IllTyped),
            JobError::NotBool => Refusal::Job(JobRefusal::NotBool),
            JobError::Unbalanced => Refusal::Job(JobRefusal::Unbalanced),
            JobError::Memory => Refusal::Memory,
        }
    }
}

impl Refusal {
    /// Why no script was printed, by the error of an encoder that was a new one, over bitvectors that are there, whose levels were
    /// closed only where they were open.
    pub fn of(error: EncodeError) -> Refusal
        requires spent { error ≡ encoding.Spent → ⊥ }
        requires scope { error ≡ encoding.NoScope → ⊥ }
        requires bits { (why : Bits) → error ≡ encoding.BitVecError why → ⊥ }
        ensures { result ≡ refusal_of error }
    {
        match error {
            EncodeError::Io => Refusal::Sink,
            EncodeError::EnumMissingMember(_) => Refusal::Encode(EncodeRefusal::EnumMissingMember),
            EncodeError::EncodeStringFailed(_) => Refusal::Encode(
                EncodeRefusal::EncodeStringFailed,
            ),
            EncodeError::EncodePatternFailed(_) => Refusal::Encode(
                EncodeRefusal::EncodePatternFailed,
            ),
            EncodeError::EmptyEnum(_) => Refusal::Encode(EncodeRefusal::EmptyEnum),
            EncodeError::MalformedRecordGet => Refusal::Encode(EncodeRefusal::MalformedRecordGet),
            EncodeError::MissingTypeEncoding(_) => Refusal::Encode(
                EncodeRefusal::MissingTypeEncoding,
            ),
            EncodeError::ExpectRecord(_) => Refusal::Encode(EncodeRefusal::ExpectRecord),
            EncodeError::RecordMissingAttr(_) => Refusal::Encode(EncodeRefusal::RecordMissingAttr),
            EncodeError::Memory => Refusal::Memory,
            EncodeError::Spent | EncodeError::NoScope | EncodeError::BitVecError(_) =>
                unreachable!(),
        }
    }
}

impl From<CheckError> for Refusal {
    ghost use Rattle.std.specs.Prelude.{◌≡◌};
    ghost use Rattle.smt_runs.specs.Refusal.{check_refusal};

    ghost from_gives = { λ why refusal. refusal ≡ check_refusal why };

    fn from(why: CheckError) -> Refusal {
        match why {
            CheckError::Start => Refusal::Start,
            CheckError::Session(fault) => Refusal::Session(fault),
            CheckError::Memory => Refusal::Memory,
        }
    }
}

impl From<SinkError> for Refusal {
    ghost use Rattle.std.specs.Prelude.{◌≡◌};
    ghost use Rattle.smt_runs.specs.Refusal.{sink_refusal};

    ghost from_gives = { λ error refusal. refusal ≡ sink_refusal error };

    fn from(error: SinkError) -> Refusal {
        match error {
            SinkError::Fault => Refusal::Sink,
            SinkError::Memory => Refusal::Memory,
        }
    }
}

impl From<AllocError> for Refusal {
    ghost use Rattle.std.specs.Prelude.{◌≡◌};
    ghost use Rattle.smt_runs.specs.declared.refusal.Refusal.TheVariants.{Memory};

    ghost from_gives = { λ _ refusal. refusal ≡ Memory };

    fn from(_error: AllocError) -> Refusal {
        Refusal::Memory
    }
}
