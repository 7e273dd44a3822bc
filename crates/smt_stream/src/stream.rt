// The stream over bytes.
ghost use Rattle.std.specs.Prelude.{◌≡◌, IfNone, IfOk, IfSome, IsOkUnless, None, OnOk, false};
ghost use Rattle.std.specs.Prelude.{option_map};
ghost use Rattle.law_texts.specs.Reading.{Expression};
ghost use Rattle.law_texts.specs.Tokens.{IsReadWithin};
ghost use Rattle.law_verdicts.specs.Machine.{Machine};
ghost use Rattle.smt_sexpr.specs.View.{plain};
ghost use Rattle.law_verdicts.specs.Streams.{Course, IsAnswered, Standing, Takes, first_course};
ghost use Rattle.law_verdicts.specs.Streams as streams;
ghost use Rattle.smt_stream.specs.Scanning.{plain_scan, plain_stop};
ghost use Rattle.smt_stream.specs.Heard.{IsAt, IsFed, behind_command, course_of, heard_text};

use crate::scanner::{MOST_OPEN, Scanner};
use crate::stop::Stop;
use smt_mini::{Mini, MiniError, Reply};
use smt_sexpr::{SExpr, SExprParseError, parse_sexpr_within};
use std::alloc::Global;

/// No command has more bytes, from its first bracket to its last.
const LONGEST_COMMAND: usize = 16_777_216;

/// No more bytes are taken in all.
const MOST_BYTES: u64 = 1_099_511_627_776;

/// How far a stream has come.
#[derive(Debug, Clone, Copy, PartialEq, Eq)]
pub enum Stage {
    /// It waits for more bytes.
    Waiting,
    /// `exit` came.
    Exited,
    /// It stopped with an error.
    Stopped,
}

/// What is put at a byte.
#[derive(Debug, PartialEq, Eq, Drop)]
pub enum Heard {
    /// The reply to the command that the byte ends, or no reply.
    Reply(Reply),
    /// The line with which the stream stops.
    Stop(Stop),
}

/// A small solver over a stream of bytes. It keeps the bytes of one command at most.
pub struct Stream {
    alloc: Global,
    /// The solver, fed with the commands so far.
    pub mini: Mini,
    /// Where the scan stands.
    pub scanner: Scanner,
    /// The bytes of the command that has not ended.
    pub held: Vec<u8>,
    /// Whether a byte came behind the last command that no script has at its place.
    pub odd: bool,
    /// How many bytes came in all.
    pub total: u64,
    /// How far it has come.
    pub stage: Stage,
}

// By hand, so that what lets a stream go calls this, and has no account of its parts.
impl Drop for Stream {
    fn drop(self) {
        let Stream {
            alloc: _,
            mini: _,
            scanner: _,
            held: _,
            odd: _,
            total: _,
            stage: _,
        } = self;
    }
}

impl Stream {
    /// The stream before the first byte. Takes no memory.
    pub fn new(alloc: Global) -> Stream
        ensures { IsAt result (streams.Waiting first_course) }
    {
        Stream {
            alloc,
            mini: Mini::new(alloc),
            scanner: Scanner::new(),
            held: Vec::new(alloc),
            odd: false,
            total: 0,
            stage: Stage::Waiting,
        }
    }

    /// What is put at the next byte.
    ///
    /// # Errors
    ///
    /// `Memory`, where there is none for the byte or the command that it ends. Then nothing is known of what follows.
    pub fn take(&mut self, byte: u8) -> Result<Heard, MiniError>
        ensures heard { (first : Standing) → IsAt self.old first →
            IfOk result (λ heard.
            (last : Standing) × Takes first byte (heard_text heard) last × IsAt self.new last) }
        ensures refusal { IsOkUnless result MiniError.Memory }
    {
        match self.stage {
            Stage::Waiting => self.go_on(byte),
            Stage::Exited | Stage::Stopped => Ok(Heard::Reply(Reply::Nothing)),
        }
    }

    /// What is put at a byte that is waited for.
    fn go_on(&mut self, byte: u8) -> Result<Heard, MiniError>
        requires { self.old.stage ≡ Stage.Waiting }
        ensures heard { (first : Standing) → IsAt self.old first →
            IfOk result (λ heard.
            (last : Standing) × Takes first byte (heard_text heard) last × IsAt self.new last) }
        ensures refusal { IsOkUnless result MiniError.Memory }
    {
        match self.breach(byte) {
            Some(stop) => {
                self.stage = Stage::Stopped;
                Ok(Heard::Stop(stop))
            }
            None => self.take_in(byte),
        }
    }

    /// What is put at a byte at which the stream does not stop.
    fn take_in(&mut self, byte: u8) -> Result<Heard, MiniError>
        requires waiting { self.old.stage ≡ Stage.Waiting }
        requires unbroken { (m : Machine) → streams.breach (course_of self.old m) byte ≡ None }
        ensures heard { (first : Standing) → IsAt self.old first →
            IfOk result (λ heard.
            (last : Standing) × Takes first byte (heard_text heard) last × IsAt self.new last) }
        ensures refusal { IsOkUnless result MiniError.Memory }
    {
        let ends = self.scanner.ends_command(byte);
        self.keep(byte)?;
        if ends {
            self.answer()
        } else {
            Ok(Heard::Reply(Reply::Nothing))
        }
    }

    /// Why the stream stops at the next byte, if it does.
    fn breach(&self, byte: u8) -> Option<Stop>
        ensures { (m : Machine) →
            option_map plain_stop result ≡ streams.breach (course_of self.now m) byte }
    {
        if self.total >= MOST_BYTES {
            Some(Stop::TooLong)
        } else if self.scanner.is_stray(byte) {
            Some(Stop::NotScript)
        } else if self.scanner.is_too_deep(byte) {
            Some(Stop::TooDeep)
        } else if self.scanner.is_kept(byte) && self.held.len() >= LONGEST_COMMAND {
            Some(Stop::TooLong)
        } else {
            None
        }
    }

    /// Takes in a byte at which the stream does not stop.
    fn keep(&mut self, byte: u8) -> Result<(), MiniError>
        requires { (m : Machine) → streams.breach (course_of self.old m) byte ≡ None }
        ensures kept { OnOk result
            ((m : Machine) → course_of self.new m ≡ streams.with_byte (course_of self.old m) byte) }
        ensures same_mini { OnOk result (self.new.mini ≡ self.old.mini) }
        ensures same_stage { OnOk result (self.new.stage ≡ self.old.stage) }
        ensures refusal { IsOkUnless result MiniError.Memory }
    {
        let scanner = self.scanner.taken(byte);
        let total = self.total + 1;
        if self.scanner.is_kept(byte) {
            self.held.push(byte)?;
        }
        self.odd = self.odd || self.scanner.is_odd(byte);
        self.total = total;
        self.scanner = scanner;
        Ok(())
    }

    /// What is put for the command that is held whole.
    fn answer(&mut self) -> Result<Heard, MiniError>
        ensures heard { (c : Course) → IsAt self.old (streams.Waiting c) →
            IfOk result (λ heard.
            (last : Standing) × IsAnswered c (heard_text heard) last × IsAt self.new last) }
        ensures refusal { IsOkUnless result MiniError.Memory }
    {
        match self.read()? {
            Some(command) => {
                self.prepare();
                self.feed(&command)
            }
            None => {
                self.stage = Stage::Stopped;
                Ok(Heard::Stop(Stop::NotScript))
            }
        }
    }

    /// The expression that is held, None where it is none.
    fn read(&self) -> Result<Option<SExpr>, MiniError>
        ensures found { IfOk result (λ read.
            IfSome read (λ e. IsReadWithin self.now.held.items streams.most_open (plain e))) }
        ensures none { IfOk result (λ read.
            IfNone read
            ((e : Expression) → IsReadWithin self.now.held.items streams.most_open e → ⊥)) }
        ensures refusal { IsOkUnless result MiniError.Memory }
    {
        match parse_sexpr_within(self.alloc, self.held.as_slice(), MOST_OPEN) {
            Ok(command) => Ok(Some(command)),
            Err(SExprParseError::Memory) => Err(MiniError::Memory),
            Err(_) => Ok(None),
        }
    }

    /// Lets go the bytes of a command before it is fed, and takes note if no script has them.
    fn prepare(&mut self)
        ensures { (c : Course) → IsAt self.old (streams.Waiting c) →
            IsAt self.new (streams.Waiting (behind_command c (streams.asked c.odd c.machine))) }
    {
        if self.odd {
            self.mini.mark_outside();
        }
        self.odd = false;
        self.held.clear();
    }

    /// What is put for a command whose bytes were let go.
    fn feed(&mut self, command: &SExpr) -> Result<Heard, MiniError>
        ensures heard { (c : Course) (m : Machine) →
            IsAt self.old (streams.Waiting (behind_command c m)) →
            IfOk result (λ heard. IsFed c m (plain command.now) heard self.new) }
        ensures refusal { IsOkUnless result MiniError.Memory }
    {
        match self.mini.feed(command) {
            Ok(Reply::Ended) => {
                self.stage = Stage::Exited;
                Ok(Heard::Reply(Reply::Ended))
            }
            Ok(reply) => Ok(Heard::Reply(reply)),
            Err(MiniError::Memory) => Err(MiniError::Memory),
            Err(_) => {
                self.stage = Stage::Stopped;
                Ok(Heard::Stop(Stop::NotScript))
            }
        }
    }
}
