// The levels of a script: what is declared and asserted in a level goes with it.
ghost use Rattle.std.specs.Prelude.{ℕ, List, [], ◌∷◌, ◌++◌, ◌≡◌, ◌↔◌, ◌<◌, ◌+◌, false, IsErrOf};
ghost use Rattle.std.specs.Prelude.{IsOkUnless, None, OnErr, OnOk, length};
ghost use Rattle.law_texts.specs.LineTexts.{pop_text};
ghost use Rattle.law_lines.specs.Line.{Push, spelled_lines};
ghost use Rattle.law_lines.specs.Lines.{beginning, Encoding, PopCall, PushCall};
ghost use Rattle.law_lines.specs.NameTables.{Tables};
ghost use Rattle.smt_script.specs.Sink.{AppendsPart, Rose};
ghost use Rattle.smt_encode.specs.Refusals.{HasCause, IsComplete};
ghost use Rattle.smt_encode.specs.declared.error.EncodeError.TheVariants.{Memory as NoMemory};
ghost use Rattle.smt_encode.specs.declared.error.EncodeError.TheVariants.{NoScope as NoLevel};

use crate::encoder::Encoder;
use crate::error::EncodeError;
use smt_script::Sink;

impl<S> Encoder<'_, S> {
    ghost use Rattle.smt_encode.specs.Encoded.{levels_of, HasEncoding};

    /// How many levels are open above the first one, level 0: as many as `push` has opened and `pop` not closed. Takes no
    /// memory.
    pub fn levels(&self) -> usize
        ensures count { result ≡ levels_of self.now }
        ensures stated { (x : Encoding) → HasEncoding self.now x → result ≡ length x.below }
    {
        self.writer.names.level_count()
    }
}

impl<S: Sink> Encoder<'_, S> {
    ghost use Rattle.smt_encode.specs.Encoded.{has_begun, is_spent, levels_of, nodes_in, sink_of};
    ghost use Rattle.smt_encode.specs.Encoded.{CallKeepsFit, CallKeepsWellWritten};
    ghost use Rattle.smt_encode.specs.Encoded.{HasTexts, Keeps, PutsCall, Spends};
    ghost use Rattle.smt_encode.specs.Interrupted.{IsInterrupted};

    /// Opens a level, by `(push 1)` (SMT-LIB 2.7, chapter 4, The Assertion Stack). The declaration of the datatype `Option`
    /// stands before it, if no `push`, `encode` or `encode_nodes` has written it.
    ///
    /// What is asserted and named from here on lives until the `pop` that closes the level.
    ///
    /// # Examples
    ///
    /// ```
    /// use kembura::{Encoder, EnumTable, ListSink, Term};
    ///
    /// let enums = EnumTable::new(alloc);
    /// let mut encoder = Encoder::new(alloc, &enums, ListSink::new(alloc));
    /// encoder.push()?;
    /// encoder.encode(&[Term::from(false)])?;
    /// assert_eq!(rt; encoder.levels(), 1);
    /// encoder.pop()?;
    /// assert_eq!(rt; encoder.levels(), 0);
    /// ```
    ///
    /// # Errors
    ///
    /// `Spent` comes exactly from an encoder of which an earlier call answered an error, and leaves it as it is. `Io` comes
    /// only where the sink's count of faults rose in this call, or stands at its last value; `Memory` where there is no
    /// memory left. Of these two the sink has got a first part of the lines (`part`, `stopped`).
    pub fn push(&mut self) -> Result<(), EncodeError>
        ensures called { PutsCall S.contents self.old self.new PushCall result }
        ensures fits { CallKeepsFit S.contents self.old self.new PushCall result }
        ensures well_written { CallKeepsWellWritten S.contents self.old self.new PushCall result }
        ensures levels { OnOk result (levels_of self.new ≡ levels_of self.old + 1) }
        ensures spent { Spends self.old self.new result }
        ensures refused { HasCause (S.faults (sink_of self.old)) (S.faults (sink_of self.new)) None
            result }
        ensures complete { IsComplete (is_spent self.old) (S.faults (sink_of self.old))
            (S.faults (sink_of self.new)) None result }
        ensures part { OnErr result (AppendsPart (S.contents (sink_of self.old))
            (S.contents (sink_of self.new))
            (spelled_lines (beginning (has_begun self.old) ++ Push ∷ []))) }
        ensures stopped { IsInterrupted S.contents self.old self.new PushCall result }
        ensures names { (s : Tables) → HasTexts self.old s → HasTexts self.new s }
        ensures numbers { nodes_in self.new ≡ nodes_in self.old }
        ensures kept { Keeps S.faults S.place self.old self.new }
    {
        if self.failed {
            return Err(EncodeError::Spent);
        }
        let outcome = self.writer.push(self.begun);
        self.begun = true;
        self.failed = outcome.is_err();
        Ok(outcome?)
    }

    /// Closes the level that was opened last, by `(pop 1)` (SMT-LIB 2.7, chapter 4, The Assertion Stack).
    ///
    /// What got a name since the `push` that opened the level has none again, so that it is written anew where it is asserted
    /// again, and its name is the next one that is given. It takes no memory of its own, and time in what it forgets.
    ///
    /// # Errors
    ///
    /// `Spent` comes exactly from an encoder of which an earlier call answered an error, and leaves it as it is; `NoScope`
    /// exactly from another one that has no level open, and nothing is written then. `Io` comes only where the sink's count of
    /// faults rose in this call, or stands at its last value; `Memory` where the sink has no memory left. Of these two the
    /// sink has got a first part of the line (`part`, `stopped`).
    pub fn pop(&mut self) -> Result<(), EncodeError>
        ensures called { PutsCall S.contents self.old self.new PopCall result }
        ensures fits { CallKeepsFit S.contents self.old self.new PopCall result }
        ensures well_written { CallKeepsWellWritten S.contents self.old self.new PopCall result }
        ensures levels { OnOk result (levels_of self.old ≡ levels_of self.new + 1) }
        ensures spent { Spends self.old self.new result }
        ensures scope { IsErrOf result NoLevel
            ↔ ((is_spent self.old ≡ false) × (levels_of self.old ≡ 0)) }
        ensures unput { IsErrOf result NoLevel → sink_of self.new ≡ sink_of self.old }
        ensures refused { ¬ IsErrOf result NoLevel →
            HasCause (S.faults (sink_of self.old)) (S.faults (sink_of self.new)) None result }
        ensures complete { is_spent self.old ≡ false → 0 < levels_of self.old →
            (Rose (S.faults (sink_of self.old)) (S.faults (sink_of self.new)) → ⊥) →
            IsOkUnless result NoMemory }
        ensures part { OnErr result
            (AppendsPart (S.contents (sink_of self.old)) (S.contents (sink_of self.new)) pop_text) }
        ensures stopped { IsInterrupted S.contents self.old self.new PopCall result }
        ensures names { (s : Tables) → HasTexts self.old s → OnErr result (HasTexts self.new s) }
        ensures numbers { nodes_in self.new ≡ nodes_in self.old }
        ensures kept { Keeps S.faults S.place self.old self.new }
    {
        if self.failed {
            return Err(EncodeError::Spent);
        }
        if self.levels() == 0 {
            self.failed = true;
            return Err(EncodeError::NoScope);
        }
        let outcome = self.writer.pop();
        self.failed = outcome.is_err();
        Ok(outcome?)
    }
}
