// The line of one application, by the texts of its operands as they stand.
ghost use Rattle.std.specs.Prelude.{◌≡◌, List, ◌∷◌, [], IfOk, IsTrue, false, is_some};
ghost use Rattle.std.specs.Rc.{rc_str_bytes};
ghost use Rattle.law_texts.specs.LineTexts.{define_fun_text};
ghost use Rattle.law_texts.specs.SharedTexts.{texts};
ghost use Rattle.smt_encode.specs.Applied.{application_line, begins_with_function};
ghost use Rattle.smt_encode.specs.Applied.{fault_of_application, selection_text};
ghost use Rattle.smt_spelling.specs.SelectorFaults.{fault_of_selection};
ghost use Rattle.smt_spelling.specs.NodeLines.{meaning_fault};
ghost use Rattle.smt_encode.specs.Refusals.{write_fault};
ghost use Rattle.law_terms.specs.Nodes.{FunctionMeaning};
ghost use Rattle.smt_nodes.specs.Interned.{KeepsMeanings};
ghost use Rattle.law_lines.specs.LineForms.{operator_head};
ghost use Rattle.law_lines.specs.Lines.{encode_function, encode_head, next_term};
ghost use Rattle.law_lines.specs.NameTables.{Tables};
ghost use Rattle.law_terms.specs.Plain.{RecordGetOp, UufOp, terms};
ghost use Rattle.smt_spelling.specs.TextFaults.{pattern_fault, Finds};
ghost use Rattle.smt_term.specs.View.{plain_function, plain_op, plain_terms, plain_type};

use crate::error::WriteError;
use crate::writer::Writer;
use smt_nodes::Subject;
use smt_script::{Sink, SinkError};
use smt_spelling::{SelectorError, application_body, call_text};
use smt_term::{Attr, Op, Term, TermType, Text, Uuf};
use std::marker::Brand;
use std::sync::ledger::Blank;

impl<S: Sink> Writer<'_, S> {
    ghost use Rattle.smt_encode.specs.Alone.{PutsAlone, PutUnder};
    ghost use Rattle.smt_encode.specs.Applied.{WroteApplied};
    ghost use Rattle.smt_spelling.specs.Names.{enums_under, nodes_under, AreTables, KeepLevels};
    ghost use Rattle.smt_encode.specs.Steps.{FaultCounted, HasTables};

    /// Puts the definition of an attribute of a value of this type, by the value's text, under the name that is next.
    pub(crate) fn put_record_get(
        &mut self,
        ty_enc: &str,
        attribute: &Attr,
        t_enc: &str,
        ty: &TermType,
    ) -> Result<Text, WriteError>
        ensures lines { (s : Tables) → AreTables self.old.names s →
            IfOk result (PutUnder S.contents self.old.script self.new.script (next_term s)
            (define_fun_text (next_term s) [] ty_enc.now
            (selection_text (rc_str_bytes attribute.now) (plain_type ty.now) (t_enc.now ∷ []) s))) }
        ensures alone { (s : Tables) → AreTables self.old.names s →
            PutsAlone S.faults S.place
            (fault_of_selection s (rc_str_bytes attribute.now) (plain_type ty.now)) self.old
            self.new result }
    {
        let operand = Text::from_str(self.alloc, t_enc)?;
        self.put_selection(ty_enc, attribute, &[operand], ty)
    }

    /// Puts the definition of an application under the name that is next, behind the lines of its function, where it begins
    /// with one.
    pub(crate) fn put_application(
        &mut self,
        ty_enc: &str,
        op: &Op,
        t_encs: &[Text],
        ts: &[Term],
    ) -> Result<Text, WriteError>
        ensures lines { (s : Tables) → HasTables self.old s →
            IfOk result (WroteApplied S.contents self.old self.new
            (encode_head (enums_under self.old.names) (plain_op op.now) (terms (plain_terms ts.now))
            s)
            (plain_op op.now) ty_enc.now (texts t_encs.now)) }
        ensures counted { FaultCounted S.faults S.place (WriteError.Sink SinkError.Fault) self.old
            self.new result }
        ensures finds { (s : Tables) → HasTables self.old s →
            Finds write_fault
            (fault_of_application (enums_under self.old.names) s (plain_op op.now)
            (plain_terms ts.now))
            result }
        ensures unput { (s : Tables) → HasTables self.old s →
            begins_with_function (plain_op op.now) ≡ false →
            IsTrue
            (is_some (fault_of_application (enums_under self.old.names) s (plain_op op.now)
            (plain_terms ts.now)))
            → self.new.script ≡ self.old.script }
        ensures numbers { KeepsMeanings (nodes_under self.old.names) (nodes_under self.new.names) }
        ensures levels { (below : List Tables) → KeepLevels self.old.names below →
            KeepLevels self.new.names below }
    {
        match op {
            Op::RecordGet(attribute) => self.put_first_selection(ty_enc, attribute, t_encs, ts),
            Op::Uuf(function) => self.put_call(ty_enc, function, t_encs),
            _ => self.put_operator(ty_enc, op, t_encs),
        }
    }

    /// Puts the definition of an attribute of a value of this type, by the texts of the operands.
    fn put_selection(
        &mut self,
        ty_enc: &str,
        attribute: &Attr,
        operands: &[Text],
        ty: &TermType,
    ) -> Result<Text, WriteError>
        ensures lines { (s : Tables) → AreTables self.old.names s →
            IfOk result (PutUnder S.contents self.old.script self.new.script (next_term s)
            (define_fun_text (next_term s) [] ty_enc.now (selection_text
            (rc_str_bytes attribute.now) (plain_type ty.now) (texts operands.now) s))) }
        ensures alone { (s : Tables) → AreTables self.old.names s →
            PutsAlone S.faults S.place
            (fault_of_selection s (rc_str_bytes attribute.now) (plain_type ty.now)) self.old
            self.new result }
        ensures names { self.new.names ≡ self.old.names }
        ensures counted { FaultCounted S.faults S.place (WriteError.Sink SinkError.Fault) self.old
            self.new result }
    {
        let selector = self
            .names
            .selector_by::<Brand>(attribute, ty, Blank::new(1))?;
        let body = call_text(self.alloc, selector.as_str(), operands)?;
        self.put_term(ty_enc, body.as_str())
    }

    /// The same by the type of the first of the terms, for which the texts stand.
    fn put_first_selection(
        &mut self,
        ty_enc: &str,
        attribute: &Attr,
        t_encs: &[Text],
        ts: &[Term],
    ) -> Result<Text, WriteError>
        ensures lines { (s : Tables) → HasTables self.old s →
            IfOk result (WroteApplied S.contents self.old self.new
            (encode_head (enums_under self.old.names) (RecordGetOp (rc_str_bytes attribute.now))
            (terms (plain_terms ts.now)) s)
            (RecordGetOp (rc_str_bytes attribute.now)) ty_enc.now (texts t_encs.now)) }
        ensures counted { FaultCounted S.faults S.place (WriteError.Sink SinkError.Fault) self.old
            self.new result }
        ensures finds { (s : Tables) → HasTables self.old s →
            Finds write_fault
            (fault_of_application (enums_under self.old.names) s
            (RecordGetOp (rc_str_bytes attribute.now)) (plain_terms ts.now))
            result }
        ensures unput { (s : Tables) → HasTables self.old s →
            IsTrue
            (is_some (fault_of_application (enums_under self.old.names) s
            (RecordGetOp (rc_str_bytes attribute.now)) (plain_terms ts.now)))
            → self.new.script ≡ self.old.script }
        ensures names { self.new.names ≡ self.old.names }
    {
        match ts {
            [first, ..] => {
                let ty = first.type_of(self.alloc)?;
                self.put_selection(ty_enc, attribute, t_encs, &ty)
            }
            [] => Err(WriteError::from(SelectorError::NoOperand)),
        }
    }

    /// Puts the lines of a function, and behind them the definition of its call.
    fn put_call(
        &mut self,
        ty_enc: &str,
        function: &Uuf,
        t_encs: &[Text],
    ) -> Result<Text, WriteError>
        ensures lines { (s : Tables) → HasTables self.old s →
            IfOk result (WroteApplied S.contents self.old self.new
            (encode_function (enums_under self.old.names) (plain_function function.now) s)
            (UufOp (plain_function function.now)) ty_enc.now (texts t_encs.now)) }
        ensures counted { FaultCounted S.faults S.place (WriteError.Sink SinkError.Fault) self.old
            self.new result }
        ensures finds { Finds write_fault
            (meaning_fault (enums_under self.old.names)
            (FunctionMeaning (plain_function function.now)))
            result }
        ensures numbers { KeepsMeanings (nodes_under self.old.names) (nodes_under self.new.names) }
        ensures levels { (below : List Tables) → KeepLevels self.old.names below →
            KeepLevels self.new.names below }
    {
        let name = self.put_subject(Subject::Function(function))?;
        let body = call_text(self.alloc, name.as_str(), t_encs)?;
        self.put_term(ty_enc, body.as_str())
    }

    /// Puts the definition of an application that begins with the operator's own text.
    fn put_operator(&mut self, ty_enc: &str, op: &Op, t_encs: &[Text]) -> Result<Text, WriteError>
        ensures lines { (s : Tables) → AreTables self.old.names s →
            IfOk result (PutUnder S.contents self.old.script self.new.script (next_term s)
            (application_line (operator_head (plain_op op.now)) (plain_op op.now) ty_enc.now
            (texts t_encs.now) s)) }
        ensures alone { PutsAlone S.faults S.place (pattern_fault (plain_op op.now)) self.old
            self.new result }
    {
        let operands = t_encs.to_vec(self.alloc)?;
        let body = application_body(self.alloc, op, operands)?;
        self.put_term(ty_enc, body.as_str())
    }
}
