// The lines that one term, one type or one function needs.
ghost use Rattle.std.specs.Prelude.{ℕ, ◌≡◌, ◌<◌, IsTrue, List, None, Some};
ghost use Rattle.law_terms.specs.Nodes.{Meaning};
ghost use Rattle.law_lines.specs.NameTables.{Tables};
ghost use Rattle.smt_nodes.specs.Interned.{meaning_in, IsMeant, KeepsMeanings};
ghost use Rattle.smt_nodes.specs.Subject.{meaning_of};
ghost use Rattle.smt_nodes.specs.View.{place_of};
ghost use Rattle.smt_spelling.specs.NodeLines.{encode_meaning, meaning_fault};
ghost use Rattle.smt_spelling.specs.Whole.{is_typed};
ghost use Rattle.smt_encode.specs.Refusals.{write_fault};
ghost use Rattle.smt_spelling.specs.TextFaults.{Finds};

use crate::error::WriteError;
use crate::writer::Writer;
use smt_nodes::{NodeId, Subject};
use smt_script::{Sink, SinkError};
use smt_spelling::Steps;
use smt_term::Text;
use std::marker::Brand;
use std::sync::ledger::{Blank, Ledger};

impl<S: Sink> Writer<'_, S> {
    ghost use Rattle.smt_spelling.specs.Names.{enums_under, nodes_under, HasRoom, KeepLevels};
    ghost use Rattle.smt_spelling.specs.Names.{StandsOn};
    ghost use Rattle.smt_encode.specs.Steps.{FaultCounted, HasTables, WritesStated};
    ghost use Rattle.smt_encode.specs.Stopped.{Stops};
    ghost use Rattle.smt_spelling.specs.Spelled.{IsSpelled};

    /// Puts the lines that a subject needs, and keeps their names; its text.
    pub(crate) fn put_subject(&mut self, subject: Subject<'_>) -> Result<Text, WriteError>
        ensures lines { WritesStated S.contents self.old self.new
            (encode_meaning (enums_under self.old.names) (meaning_of subject.entry)) IsSpelled
            result }
        ensures stopped { Stops S.contents (enums_under self.old.names)
            (IsTrue (is_typed (meaning_of subject.entry))) self.old self.new
            (encode_meaning (enums_under self.old.names) (meaning_of subject.entry)) result }
        ensures cause { FaultCounted S.faults S.place (WriteError.Sink SinkError.Fault) self.old
            self.new result }
        ensures fault { Finds write_fault
            (meaning_fault (enums_under self.old.names) (meaning_of subject.entry)) result }
        ensures numbers { KeepsMeanings (nodes_under self.old.names) (nodes_under self.new.names) }
        ensures named { (s : Tables) → HasTables self.old s → (t : Tables) × HasTables self.new t }
        ensures levels { (below : List Tables) → KeepLevels self.old.names below →
            KeepLevels self.new.names below }
    {
        let id = self.names.intern_subject(subject)?;
        self.names.make_room()?;
        self.put_node::<Brand>(id, Blank::new(1))
    }

    /// The same of what a number stands for, with look-ups counted by a ledger of its own.
    fn put_node<L: Ledger>(&mut self, id: NodeId, blank: Blank) -> Result<Text, WriteError>
        requires name { blank.name ≡ L.name }
        requires parts { blank.parts ≡ L.parts }
        requires some { 0 < blank.parts }
        requires meant { IsMeant (nodes_under self.old.names) id }
        requires room { HasRoom self.old.names }
        ensures lines { (m : Meaning) → meaning_in (nodes_under self.old.names) id ≡ Some m →
            WritesStated S.contents self.old self.new
            (encode_meaning (enums_under self.old.names) m) IsSpelled result }
        ensures stopped { (m : Meaning) → meaning_in (nodes_under self.old.names) id ≡ Some m →
            Stops S.contents (enums_under self.old.names) (IsTrue (is_typed m)) self.old self.new
            (encode_meaning (enums_under self.old.names) m) result }
        ensures cause { FaultCounted S.faults S.place (WriteError.Sink SinkError.Fault) self.old
            self.new result }
        ensures fault { (m : Meaning) → meaning_in (nodes_under self.old.names) id ≡ Some m →
            Finds write_fault (meaning_fault (enums_under self.old.names) m) result }
        ensures stands { StandsOn self.old.names self.new.names }
    {
        let mut steps = Steps::<L>::new(blank);
        self.encode_node(id, &mut steps)
    }
}
