// The selectors with which attributes of records are taken.
#![tactic(auto, using(smt_term::specs::View::views))]

ghost use Rattle.std.specs.Prelude.{◌≡◌, ◌<◌, ◌≤◌, ◌+◌, ◌∷◌, [], List, IfOk, IfSome, IsTrue, None};
ghost use Rattle.std.specs.Prelude.{Some, is_some, map, option_map};
ghost use Rattle.std.specs.Rc.{rc_str_bytes};
ghost use Rattle.smt_spelling.specs.NodeEntries.{head_in, selection_fault, selector};
ghost use Rattle.smt_spelling.specs.LookUps.{selections};
ghost use Rattle.smt_spelling.specs.NodeLines.{has_entry};
ghost use Rattle.smt_spelling.specs.NodeTexts.{IsNodeOf};
ghost use Rattle.smt_spelling.specs.SelectorFaults.{fault_of_selection, selector_fault};
ghost use Rattle.smt_spelling.specs.Selections as stated;
ghost use Rattle.smt_spelling.specs.Selections.{IsHead};
ghost use Rattle.law_terms.specs.Meanings.{all_found, meanings};
ghost use Rattle.law_terms.specs.Nodes.{Meaning, TermMeaning, TypeMeaning};
ghost use Rattle.law_lines.specs.Lines.{first_type};
ghost use Rattle.law_lines.specs.EntryNames.{attribute_name};
ghost use Rattle.law_lines.specs.NameTables.{Tables, name_of_type, text_of_name};
ghost use Rattle.law_lines.specs.Spelling.{spelled};
ghost use Rattle.law_terms.specs.Faults.{record_get_fault};
ghost use Rattle.law_terms.specs.Plain.{PlainTerm, PlainType, terms};
ghost use Rattle.law_terms.specs.Types.{types_of};
ghost use Rattle.smt_nodes.specs.Interned.{IsMeant, IsNumber, meaning_in, nodes_of};
ghost use Rattle.smt_nodes.specs.View.{places_of, plain_label};
ghost use Rattle.smt_spelling.specs.TextFaults.{Finds};
ghost use Rattle.smt_term.specs.View.{plain_type};
ghost use Rattle.law_texts.specs.SharedTexts.{GivesText};

use crate::names::Names;
use crate::record::{attribute_name, attribute_place};
use crate::selector_error::SelectorError;
use crate::steps::Steps;
use smt_nodes::{Label, Node, NodeId, Subject};
use smt_term::{Attr, Op, TermType, Text};
use smt_text::share_text;
use std::sync::ledger::{Blank, Ledger};

/// The attribute that a node takes, None where it takes none.
fn selected_by(label: &Label) -> Option<&Attr>
    ensures { option_map (λ a. rc_str_bytes a.now) result
        ≡ stated.selected_by (plain_label label.now) }
{
    match label {
        Label::App(Op::RecordGet(attribute)) => Some(attribute),
        _ => None,
    }
}

impl Names<'_> {
    ghost use Rattle.smt_spelling.specs.Names.{nodes_under, AreTables};

    /// It makes the selector with which a node's line begins, and answers None where the node takes no attribute. It is at
    /// most one look-up.
    ///
    /// # Errors
    ///
    /// `NoOperand`, `Unnamed`, `NoRecord` and `Lacks` come only where this is the fault of the attribute that the node takes;
    /// where there is such a fault, the answer is never Ok. `Memory` comes where there is no memory.
    pub fn selector_of<L: Ledger>(
        &self,
        node: &Node,
        steps: &mut Steps<L>,
    ) -> Result<Option<Text>, SelectorError>
        requires meant { (id : NodeId) × IsNodeOf (nodes_under self.now) id node.now
            × IsMeant (nodes_under self.now) id }
        ensures head { (id : NodeId) (t : PlainTerm) (s : Tables) →
            IsNodeOf (nodes_under self.now) id node.now → IsNumber (nodes_under self.now) id t →
            AreTables self.now s →
            IfOk result (λ found. IsHead (plain_label node.now.label) found (head_in t s)) }
        ensures fault { (id : NodeId) (m : Meaning) → IsNodeOf (nodes_under self.now) id node.now →
            meaning_in (nodes_under self.now) id ≡ Some m →
            Finds selector_fault (selection_fault m) result }
        ensures steps { steps.new ≤ steps.old + selections (plain_label node.now.label) }
    {
        let Some(attribute) = selected_by(&node.label) else {
            return Ok(None);
        };
        let found = self.selector_behind(attribute, node.parts.items(), steps)?;
        Ok(Some(found))
    }

    /// The selector of an attribute, by the numbers of the claimed type and of the operands.
    fn selector_behind<L: Ledger>(
        &self,
        attribute: &Attr,
        parts: &[NodeId],
        steps: &mut Steps<L>,
    ) -> Result<Text, SelectorError>
        requires meant { (type : PlainType) × (ts : List PlainTerm)
            × (all_found (meanings (nodes_of (nodes_under self.now))) (places_of parts.now)
            ≡ Some (TypeMeaning type ∷ map TermMeaning ts)) }
        ensures text { (type : PlainType) (ts : List PlainTerm) (s : Tables) →
            all_found (meanings (nodes_of (nodes_under self.now))) (places_of parts.now) ≡ Some
            (TypeMeaning type ∷ map TermMeaning ts) → AreTables self.now s →
            GivesText result
            (spelled (selector (rc_str_bytes attribute.now) (first_type (terms ts)) s)) }
        ensures fault { (type : PlainType) (ts : List PlainTerm) →
            all_found (meanings (nodes_of (nodes_under self.now))) (places_of parts.now) ≡ Some
            (TypeMeaning type ∷ map TermMeaning ts) →
            Finds selector_fault
            (record_get_fault (rc_str_bytes attribute.now) (types_of (terms ts))) result }
        ensures steps { steps.new ≤ steps.old + 1 }
    {
        let Some(operand) = parts.get(1) else {
            return Err(SelectorError::NoOperand);
        };
        match self.nodes().parts(*operand) {
            [ty, ..] => self.selector_at(attribute, *ty, steps),
            // A term has its type.
            [] => unreachable!(),
        }
    }

    /// The selector of an attribute at the type for which a number stands. It is a look-up of the name of a record type.
    fn selector_at<L: Ledger>(
        &self,
        attribute: &Attr,
        ty: NodeId,
        steps: &mut Steps<L>,
    ) -> Result<Text, SelectorError>
        requires { (t : PlainType) × (meaning_in (nodes_under self.now) ty ≡ Some (TypeMeaning t)) }
        ensures text { (t : PlainType) (s : Tables) →
            meaning_in (nodes_under self.now) ty ≡ Some (TypeMeaning t) → AreTables self.now s →
            GivesText result (spelled (selector (rc_str_bytes attribute.now) t s)) }
        ensures fault { (t : PlainType) →
            meaning_in (nodes_under self.now) ty ≡ Some (TypeMeaning t) →
            Finds selector_fault (record_get_fault (rc_str_bytes attribute.now) (t ∷ [])) result }
        ensures steps { steps.new ≤ steps.old + 1 }
    {
        match self.nodes().label(ty) {
            Some(Label::TRecord(names)) => match attribute_place(names.items(), attribute) {
                Some(place) => self.selector_named(ty, place, steps),
                None => {
                    let attribute = share_text(attribute)?;
                    Err(SelectorError::Lacks(attribute))
                }
            },
            Some(Label::TEntity(_) | Label::TExt(_)) => {
                let ty = self.nodes().type_at(ty)?;
                Err(SelectorError::NoRecord(ty))
            }
            _ => {
                let ty = self.nodes().type_at(ty)?;
                Err(SelectorError::Unnamed(ty))
            }
        }
    }

    /// The selector of the attribute at a place of a record type, by the name that the type has.
    fn selector_named<L: Ledger>(
        &self,
        ty: NodeId,
        place: usize,
        steps: &mut Steps<L>,
    ) -> Result<Text, SelectorError>
        ensures text { (t : PlainType) (s : Tables) →
            meaning_in (nodes_under self.now) ty ≡ Some (TypeMeaning t) →
            IsTrue (has_entry (TypeMeaning t)) → AreTables self.now s →
            GivesText result (attribute_name (text_of_name (name_of_type s t)) place) }
        ensures fault { Finds selector_fault None result }
        ensures steps { steps.new ≡ steps.old + 1 }
    {
        let name = match self.text(ty, steps) {
            Some(name) => name.as_str(),
            None => "",
        };
        Ok(attribute_name(self.alloc, name, place)?)
    }

    /// It makes the selector of an attribute at a type, by the name that the type has. Its look-ups are counted by a ledger of
    /// its own, which is opened from `blank`.
    ///
    /// # Errors
    ///
    /// `Unnamed` comes only where the type has no name, `NoRecord` only where it has one and is no record type, and `Lacks`
    /// only where the record type does not have the attribute; where there is such a fault, the answer is never Ok. `Memory`
    /// comes where there is no memory.
    pub fn selector_by<L: Ledger>(
        &self,
        attribute: &Attr,
        ty: &TermType,
        blank: Blank,
    ) -> Result<Text, SelectorError>
        requires name { blank.name ≡ L.name }
        requires parts { blank.parts ≡ L.parts }
        requires some { 0 < blank.parts }
        ensures text { (s : Tables) → AreTables self.now s →
            GivesText result
            (spelled (selector (rc_str_bytes attribute.now) (plain_type ty.now) s)) }
        ensures fault { (s : Tables) → AreTables self.now s →
            Finds selector_fault
            (fault_of_selection s (rc_str_bytes attribute.now) (plain_type ty.now)) result }
    {
        let mut steps = Steps::<L>::new(blank);
        match self.written_type(ty, &mut steps) {
            Some(id) => self.selector_at(attribute, id, &mut steps),
            None => {
                let ty = ty.share()?;
                Err(SelectorError::Unnamed(ty))
            }
        }
    }

    /// The number of a type that has a text, None where it has none. It compares the type with one node after the other, and
    /// is one look-up at most.
    fn written_type<L: Ledger>(&self, ty: &TermType, steps: &mut Steps<L>) -> Option<NodeId>
        ensures meant { IfSome result
            (λ id. meaning_in (nodes_under self.now) id ≡ Some (TypeMeaning (plain_type ty.now))) }
        ensures named { (s : Tables) → AreTables self.now s →
            IsTrue (has_entry (TypeMeaning (plain_type ty.now))) →
            is_some result ≡ is_some (name_of_type s (plain_type ty.now)) }
    {
        let id = self.nodes().find_subject(Subject::Type(ty))?;
        match self.text(id, steps) {
            Some(_) => Some(id),
            None => None,
        }
    }
}
