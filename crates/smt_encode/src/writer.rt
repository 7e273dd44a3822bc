// The writer: lines that are put to a sink, and the names under which they are put.
ghost use Rattle.std.specs.Prelude.{ℕ, List, [], ◌∷◌, ◌++◌, ◌≡◌, ◌<◌, ◌≤◌, ◌+◌, Bool, false};
ghost use Rattle.std.specs.Prelude.{IsTrue, length, IfErr, OnErr, OnOk, None, map};
ghost use Rattle.std.specs.List.{AllByRecursion};
ghost use Rattle.law_terms.specs.Faults.{first_fault};
ghost use Rattle.law_terms.specs.Plain.{PlainTerm};
ghost use Rattle.law_terms.specs.Typing.{AreTyped};
ghost use Rattle.smt_term.specs.View.{plain_terms};
ghost use Rattle.law_texts.specs.Reading.{Expression};
ghost use Rattle.law_texts.specs.LineTexts.{pop_text};
ghost use Rattle.law_lines.specs.Line.{Assert, Pop, Push, spelled_lines};
ghost use Rattle.law_lines.specs.Lines.{beginning};
ghost use Rattle.law_lines.specs.NameTables.{Tables};
ghost use Rattle.smt_nodes.specs.Interned.{nodes_of, KeepsMeanings};
ghost use Rattle.smt_script.specs.Sink.{AppendsPart};
ghost use Rattle.smt_nodes.specs.View.{places_of};
ghost use Rattle.smt_encode.specs.Complete.{AreWritten};
ghost use Rattle.smt_spelling.specs.LookUps.{look_ups, IsClosed};
ghost use Rattle.smt_spelling.specs.NodeTexts.{kept_below, HasNoTexts, StandFor};
ghost use Rattle.smt_encode.specs.Refusals.{write_fault};
ghost use Rattle.smt_spelling.specs.TextFaults.{Finds};

use crate::error::WriteError;
use smt_nodes::NodeId;
use smt_script::{Sink, SinkError, SmtLibScript};
use smt_spelling::{Names, Steps};
use smt_term::{Term, Text};
use std::alloc::Global;
use std::marker::Brand;
use std::sync::ledger::{Blank, Ledger};

/// The sink of a script, and the nodes whose lines it got, with their texts.
///
/// Each call that puts lines keeps the names of its terms, so that no node is written twice.
#[derive(Drop)]
pub(crate) struct Writer<'a, S> {
    pub(crate) alloc: Global,
    pub(crate) names: Names<'a>,
    pub(crate) script: S,
}

impl<S: Sink> Writer<'_, S> {
    ghost use Rattle.smt_spelling.specs.Names.{enums_under, levels_under, nodes_under, texts_under};
    ghost use Rattle.smt_spelling.specs.Names.{KeepLevels};
    ghost use Rattle.smt_encode.specs.Steps.{FaultCounted, HasTables, PutsLine, Wrote};
    ghost use Rattle.smt_encode.specs.Steps.{WritesScript};
    ghost use Rattle.smt_encode.specs.Stopped.{ScriptStopped};
    ghost use Rattle.smt_spelling.specs.Spelled.{AreSpelled};

    /// Puts the declaration of the datatype `Option`, with which each script begins.
    fn put_option(&mut self) -> Result<(), WriteError>
        ensures lines { PutsLine S.contents self.old self.new (spelled_lines (beginning false))
            result }
        ensures part { OnErr result (AppendsPart (S.contents self.old.script)
            (S.contents self.new.script) (spelled_lines (beginning false))) }
        ensures cause { FaultCounted S.faults S.place (WriteError.Sink SinkError.Fault) self.old
            self.new result }
        ensures fault { Finds write_fault None result }
    {
        let parameter = Text::from_str(self.alloc, "X")?;
        let none = Text::from_str(self.alloc, "(none)")?;
        let some = Text::from_str(self.alloc, "(some (val X))")?;
        self.script
            .declare_datatype("Option", &[parameter], &[none, some])?;
        Ok(())
    }

    /// Begins the script, where it isn't begun.
    fn begin(&mut self, begun: bool) -> Result<(), WriteError>
        ensures lines { PutsLine S.contents self.old self.new (spelled_lines (beginning begun))
            result }
        ensures part { OnErr result (AppendsPart (S.contents self.old.script)
            (S.contents self.new.script) (spelled_lines (beginning begun))) }
        ensures cause { FaultCounted S.faults S.place (WriteError.Sink SinkError.Fault) self.old
            self.new result }
        ensures fault { Finds write_fault None result }
    {
        if begun {
            return Ok(());
        }
        self.put_option()
    }

    /// Opens a level, by its line, behind the beginning of the script where it isn't begun.
    pub(crate) fn push(&mut self, begun: bool) -> Result<(), WriteError>
        ensures lines { (s : Tables) (below : List Tables) → HasTables self.old s →
            KeepLevels self.old.names below →
            OnOk result (Wrote S.contents self.old self.new (beginning begun ++ Push ∷ []) s
            × KeepLevels self.new.names (s ∷ below)) }
        ensures cause { FaultCounted S.faults S.place (WriteError.Sink SinkError.Fault) self.old
            self.new result }
        ensures fault { Finds write_fault None result }
        ensures stopped { OnErr result (AppendsPart (S.contents self.old.script)
            (S.contents self.new.script) (spelled_lines (beginning begun ++ Push ∷ []))) }
        ensures nodes { nodes_under self.new.names ≡ nodes_under self.old.names }
        ensures names { (s : Tables) → HasTables self.old s → HasTables self.new s }
        ensures count { OnOk result
            (levels_under self.new.names ≡ levels_under self.old.names + 1) }
    {
        self.names.push_level()?;
        self.begin(begun)?;
        Ok(self.script.push()?)
    }

    /// Closes the last level, by its line, and forgets the names that it gave.
    pub(crate) fn pop(&mut self) -> Result<(), WriteError>
        requires { 0 < levels_under self.old.names }
        ensures lines { (s : Tables) (below : List Tables) → KeepLevels self.old.names (s ∷ below) →
            OnOk result
            (Wrote S.contents self.old self.new (Pop ∷ []) s × KeepLevels self.new.names below) }
        ensures cause { FaultCounted S.faults S.place (WriteError.Sink SinkError.Fault) self.old
            self.new result }
        ensures fault { Finds write_fault None result }
        ensures stopped { OnErr result
            (AppendsPart (S.contents self.old.script) (S.contents self.new.script) pop_text) }
        ensures nodes { nodes_under self.new.names ≡ nodes_under self.old.names }
        ensures names { OnErr result (self.new.names ≡ self.old.names) }
        ensures count { OnOk result
            (levels_under self.old.names ≡ levels_under self.new.names + 1) }
    {
        self.script.pop()?;
        self.names.pop_level();
        Ok(())
    }

    /// Puts an assertion for each text, in order.
    fn put_assertions(&mut self, texts: &[Text]) -> Result<(), SinkError>
        ensures lines { (s : Tables) (es : List Expression) → HasTables self.old s →
            AreSpelled es texts.now →
            OnOk result (Wrote S.contents self.old self.new (map Assert es) s) }
        ensures part { (s : Tables) (es : List Expression) → HasTables self.old s →
            AreSpelled es texts.now →
            OnErr result (AppendsPart (S.contents self.old.script) (S.contents self.new.script)
            (spelled_lines (map Assert es))) }
        ensures cause { FaultCounted S.faults S.place SinkError.Fault self.old self.new result }
        ensures names { self.new.names ≡ self.old.names }
    {
        for text in texts {
            self.script.assert(text.as_str())?;
        }
        Ok(())
    }

    /// Puts the whole script of these terms, which begins it where it isn't begun.
    pub(crate) fn put_terms(&mut self, terms: &[Term], begun: bool) -> Result<(), WriteError>
        ensures lines { WritesScript S.contents self.old self.new begun (enums_under self.old.names)
            (plain_terms terms.now) result }
        ensures cause { FaultCounted S.faults S.place (WriteError.Sink SinkError.Fault) self.old
            self.new result }
        ensures fault { Finds write_fault
            (first_fault (enums_under self.old.names) (plain_terms terms.now)) result }
        ensures stopped { (s : Tables) → HasTables self.old s →
            IfErr result (ScriptStopped S.contents (enums_under self.old.names) begun s self.old
            self.new (plain_terms terms.now)) }
        ensures written { OnOk result (AreWritten (nodes_under self.new.names)
            (texts_under self.new.names) (plain_terms terms.now)) }
        ensures numbers { KeepsMeanings (nodes_under self.old.names) (nodes_under self.new.names) }
        ensures levels { (below : List Tables) → KeepLevels self.old.names below →
            KeepLevels self.new.names below }
    {
        let ids = self.names.intern(terms)?;
        self.put_uncounted::<Brand>(ids.as_slice(), begun, Blank::new(1))
    }

    /// Puts the whole script of the terms for which these numbers stand, and counts the look-ups by a ledger of its own.
    fn put_uncounted<L: Ledger>(
        &mut self,
        ids: &[NodeId],
        begun: bool,
        blank: Blank,
    ) -> Result<(), WriteError>
        requires name { blank.name ≡ L.name }
        requires parts { blank.parts ≡ L.parts }
        requires some { 0 < blank.parts }
        requires stand { (ts : List PlainTerm) × StandFor (nodes_under self.old.names) ids.now ts }
        ensures lines { (ts : List PlainTerm) → StandFor (nodes_under self.old.names) ids.now ts →
            WritesScript S.contents self.old self.new begun (enums_under self.old.names) ts result }
        ensures cause { FaultCounted S.faults S.place (WriteError.Sink SinkError.Fault) self.old
            self.new result }
        ensures fault { (ts : List PlainTerm) → StandFor (nodes_under self.old.names) ids.now ts →
            Finds write_fault (first_fault (enums_under self.old.names) ts) result }
        ensures stopped { (ts : List PlainTerm) (s : Tables) →
            StandFor (nodes_under self.old.names) ids.now ts → HasTables self.old s →
            IfErr result
            (ScriptStopped S.contents (enums_under self.old.names) begun s self.old self.new ts) }
        ensures written { (ts : List PlainTerm) → StandFor (nodes_under self.old.names) ids.now ts →
            OnOk result (AreWritten (nodes_under self.new.names) (texts_under self.new.names) ts) }
        ensures nodes { nodes_under self.new.names ≡ nodes_under self.old.names }
        ensures levels { kept_below (texts_under self.new.names)
            ≡ kept_below (texts_under self.old.names) }
    {
        let mut steps = Steps::<L>::new(blank);
        self.put_nodes(ids, begun, &mut steps)
    }

    /// Puts the whole script of the terms for which these numbers stand.
    pub(crate) fn put_nodes<L: Ledger>(
        &mut self,
        ids: &[NodeId],
        begun: bool,
        steps: &mut Steps<L>,
    ) -> Result<(), WriteError>
        requires stand { (ts : List PlainTerm) × StandFor (nodes_under self.old.names) ids.now ts }
        ensures lines { (ts : List PlainTerm) → StandFor (nodes_under self.old.names) ids.now ts →
            WritesScript S.contents self.old self.new begun (enums_under self.old.names) ts result }
        ensures cause { FaultCounted S.faults S.place (WriteError.Sink SinkError.Fault) self.old
            self.new result }
        ensures fault { (ts : List PlainTerm) → StandFor (nodes_under self.old.names) ids.now ts →
            Finds write_fault (first_fault (enums_under self.old.names) ts) result }
        ensures stopped { (ts : List PlainTerm) (s : Tables) →
            StandFor (nodes_under self.old.names) ids.now ts → HasTables self.old s →
            IfErr result
            (ScriptStopped S.contents (enums_under self.old.names) begun s self.old self.new ts) }
        ensures written { (ts : List PlainTerm) → StandFor (nodes_under self.old.names) ids.now ts →
            OnOk result (AreWritten (nodes_under self.new.names) (texts_under self.new.names) ts) }
        ensures nodes { nodes_under self.new.names ≡ nodes_under self.old.names }
        ensures levels { kept_below (texts_under self.new.names)
            ≡ kept_below (texts_under self.old.names) }
        ensures steps { (has : ℕ → Bool) → IsClosed (nodes_of (nodes_under self.old.names)) has →
            AllByRecursion (λ place. IsTrue (has place)) (places_of ids.now) →
            OnOk result (steps.new
            ≤ steps.old + length ids.now + look_ups has (nodes_of (nodes_under self.old.names))) }
    {
        self.names.make_room()?;
        self.begin(begun)?;
        let nodes = self.names.nodes().len();
        let texts = self.encode_all(ids, nodes, steps)?;
        Ok(self.put_assertions(texts.as_slice())?)
    }
}
