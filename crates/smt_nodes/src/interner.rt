// Nodes that stand for different things, by number.
ghost use Rattle.std.specs.Prelude.{ℕ, List, ◌≡◌, ◌↔◌, ◌+◌, ◌<◌, ◌≤◌, ◌^◌, [], Contains, IfNone};
ghost use Rattle.std.specs.Prelude.{IfOk, IfSome, IsTrue, OnOk, Some, is_some};
ghost use Rattle.std.specs.Prelude.{length, map, option_and_then, option_map, slice_get};
ghost use Rattle.std.specs.Option.{ForSome};
ghost use Rattle.std.specs.List.{AllByRecursion, list_all};
ghost use Rattle.law_terms.specs.Fits.{applies_no_function, fits};
ghost use Rattle.law_terms.specs.Nodes.{ApplicationLabel, BitVecLabel, BoolLabel, CallLabel};
ghost use Rattle.law_terms.specs.Nodes.{EntityLabel, ExtensionLabel, FunctionLabel};
ghost use Rattle.law_terms.specs.Nodes.{LiteralLabel, NoneLabel, OptionLabel, RecordLabel};
ghost use Rattle.law_terms.specs.Nodes.{RecordOfLabel, SetLabel, SetOfLabel, SomeLabel};
ghost use Rattle.law_terms.specs.Nodes.{StringLabel, TypeMeaning, VariableLabel};
ghost use Rattle.law_texts.specs.SharedTexts.{texts};
ghost use Rattle.law_terms.specs.Plain.{ExtensionKind, PlainOp, PlainType};
ghost use Rattle.law_terms.specs.Graphs.{IsGraph};
ghost use Rattle.law_terms.specs.Meanings.{all_found, meaning_at, meanings, stands_for};
ghost use Rattle.law_terms.specs.Parts.{label_in, parts_in};
ghost use Rattle.smt_nodes.specs.Index.{first_at, node_of, IsIndex};
ghost use Rattle.smt_nodes.specs.Kinds.{are_called_at, are_typed_at, ascend_at, is_bool_at};
ghost use Rattle.smt_nodes.specs.Kinds.{is_function_at, is_option_at, is_option_of_at};
ghost use Rattle.smt_nodes.specs.Kinds.{is_set_at, is_term_at, is_type_at, is_type_of_at};
ghost use Rattle.smt_nodes.specs.Kinds.{is_typed_at, terms_at, IsRecordAt};
ghost use Rattle.smt_nodes.specs.View.{place_of, places_of, plain_label, plain_node};
ghost use Rattle.smt_term.specs.View.{plain_literal, plain_op};

use crate::attributes::are_in_order;
use crate::table::Table;
use crate::{Label, Node, NodeId};
use smt_term::{Attr, Op, TermError, TermPrim};
use std::alloc::Global;

/// A list of nodes that each fit the nodes before it, and that each stand for something else.
pub struct Interner {
    pub(crate) alloc: Global,
    pub(crate) table: Table,
    // The number of the type of truth values, once it is known. Most terms have this type.
    pub(crate) bool_type: Option<NodeId>,
    ghost graph: { IsGraph (map plain_node table.nodes.items) },
    ghost index: { IsIndex table },
    ghost few: { length table.nodes.items ≤ 2 ^ 32 },
    ghost truths: { ForSome bool_type (λ id.
        IsTrue (is_bool_at (meaning_at (map plain_node table.nodes.items) (place_of id)))) },
}

// By hand, since a derived one is written out in each function that lets an interner go.
impl Drop for Interner {
    fn drop(self) {
        let Interner {
            alloc: _,
            table: _,
            bool_type: _,
        } = self;
    }
}

impl Interner {
    ghost use Rattle.smt_nodes.specs.Interned.{meaning_for, meaning_in, nodes_of, GrowsFor};
    ghost use Rattle.smt_nodes.specs.Interned.{KeepsMeanings};

    /// An interner without nodes. Takes no memory.
    pub fn new(alloc: Global) -> Interner
        ensures { nodes_of result ≡ [] }
    {
        Interner {
            alloc,
            table: Table::new(alloc),
            bool_type: None,
        }
    }

    /// How many nodes it has.
    pub fn len(&self) -> usize
        ensures { result ≡ length (nodes_of self.now) }
    {
        self.table.nodes.len()
    }

    /// Whether it has none.
    pub fn is_empty(&self) -> bool
        ensures { IsTrue result ↔ (nodes_of self.now ≡ []) }
    {
        self.table.nodes.is_empty()
    }

    /// The node of a number, None exactly where its place is not below the length. Takes no memory.
    pub fn node(&self, id: NodeId) -> Option<&Node>
        ensures { option_map (λ node. plain_node node.now) result
            ≡ slice_get (nodes_of self.now) (place_of id) }
    {
        self.table.nodes.get(id.place())
    }

    /// The number that stands for what the node stands for. Where there is none, the node is entered.
    ///
    /// # Errors
    /// `Memory`, where there is none for the node, or no number is left for it.
    pub fn add(&mut self, node: Node) -> Result<NodeId, TermError>
        requires { IsTrue (fits (nodes_of self.old) (plain_node node)) }
        ensures meaning { IfOk result
            (λ id. meaning_in self.new id ≡ meaning_for self.old (plain_node node)) }
        ensures kept { KeepsMeanings self.old self.new }
        ensures grown { OnOk result (GrowsFor self.old self.new (plain_node node)) }
    {
        let first = self.table.first_of(&node.label);
        match self.find_node(first, node.parts.items())? {
            Some(id) => Ok(id),
            None => self.enter_new(first, node),
        }
    }

    // The number of the node that has a label and these parts, by the first node of the label.
    pub(crate) fn find_node(
        &self,
        first: Option<NodeId>,
        parts: &[NodeId],
    ) -> Result<Option<NodeId>, TermError>
        requires { IfSome first (λ id. place_of id < length self.now.table.nodes.items) }
        ensures found { (label : Label) → first ≡ first_at self.now.table label →
            IfOk result (λ found.
            IfSome found
            (λ id. slice_get (nodes_of self.now) (place_of id) ≡ Some (node_of label parts.now))) }
        ensures missing { (label : Label) → first ≡ first_at self.now.table label →
            IfOk result
            (λ found. IfNone found (¬ Contains (nodes_of self.now) (node_of label parts.now))) }
    {
        let Some(first) = first else {
            return Ok(None);
        };
        match parts {
            // A node stands behind its parts, so none has the newest one for a part.
            [.., last] if self.is_newest(*last) => Ok(None),
            _ => self.table.find(self.alloc, first, parts),
        }
    }

    // Whether the number is the last one that was given.
    fn is_newest(&self, id: NodeId) -> bool
        ensures { IsTrue result → place_of id + 1 ≡ length (nodes_of self.now) }
    {
        id.place() < self.len() && self.len() - id.place() == 1
    }

    // Enters a node that fits and that the interner does not have, by the first node of its label.
    pub(crate) fn enter_new(
        &mut self,
        first: Option<NodeId>,
        node: Node,
    ) -> Result<NodeId, TermError>
        requires fits { IsTrue (fits (nodes_of self.old) (plain_node node)) }
        requires first { first ≡ first_at self.old.table node.label }
        requires missing { ¬ Contains (nodes_of self.old) (plain_node node) }
        ensures meaning { IfOk result
            (λ id. meaning_in self.new id ≡ meaning_for self.old (plain_node node)) }
        ensures kept { KeepsMeanings self.old self.new }
        ensures grown { OnOk result (GrowsFor self.old self.new (plain_node node)) }
    {
        self.table.enter(first, node)
    }

    /// Whether the node fits: its parts stand for things of the number and kinds that its label wants, and the first part
    /// of a term is the type that the term has; the elements of a set ascend in the order of terms; and an uninterpreted
    /// function is applied by a call alone. Takes no memory.
    pub fn fits(&self, node: &Node) -> bool
        ensures { result ≡ fits (nodes_of self.now) (plain_node node.now) }
    {
        let parts = node.parts.items();
        match &node.label {
            Label::TOption => self.fits_around_type(parts),
            Label::TBitvec(_) => self.fits_alone(parts),
            Label::TBool => self.fits_alone(parts),
            Label::TEntity(_) => self.fits_alone(parts),
            Label::TExt(_) => self.fits_alone(parts),
            Label::TString => self.fits_alone(parts),
            Label::TRecord(names) => self.fits_record_type(names.items(), parts),
            Label::TSet => self.fits_around_type(parts),
            Label::Fun(_) => self.fits_function(parts),
            Label::App(op) => self.fits_operator(op, parts),
            Label::Call => self.fits_call(parts),
            Label::NoneOf => self.fits_none(parts),
            Label::Prim(literal) => self.fits_literal(literal, parts),
            Label::RecordOf(names) => self.fits_record(names.items(), parts),
            Label::SetOf => self.fits_set(parts),
            Label::SomeOf => self.fits_some(parts),
            Label::Var(_) => self.fits_variable(parts),
        }
    }

    // Whether these are the parts of a type that has none.
    fn fits_alone(&self, parts: &[NodeId]) -> bool
        ensures bits { (n : ℕ) →
            result
            ≡ is_some (option_and_then (stands_for (BitVecLabel n))
            (all_found (meanings (nodes_of self.now)) (places_of parts.now))) }
        ensures truths { result
            ≡ is_some (option_and_then (stands_for BoolLabel)
            (all_found (meanings (nodes_of self.now)) (places_of parts.now))) }
        ensures entities { (name : List ℕ) →
            result
            ≡ is_some (option_and_then (stands_for (EntityLabel name))
            (all_found (meanings (nodes_of self.now)) (places_of parts.now))) }
        ensures extensions { (kind : ExtensionKind) →
            result
            ≡ is_some (option_and_then (stands_for (ExtensionLabel kind))
            (all_found (meanings (nodes_of self.now)) (places_of parts.now))) }
        ensures texts { result
            ≡ is_some (option_and_then (stands_for StringLabel)
            (all_found (meanings (nodes_of self.now)) (places_of parts.now))) }
    {
        match parts {
            [] => true,
            [_, ..] => false,
        }
    }

    // Whether these are the parts of a type that has a type inside it.
    fn fits_around_type(&self, parts: &[NodeId]) -> bool
        ensures option { result
            ≡ is_some (option_and_then (stands_for OptionLabel)
            (all_found (meanings (nodes_of self.now)) (places_of parts.now))) }
        ensures set { result
            ≡ is_some (option_and_then (stands_for SetLabel)
            (all_found (meanings (nodes_of self.now)) (places_of parts.now))) }
    {
        match parts {
            [] => false,
            [inner] => self.is_type(*inner),
            [_, _, ..] => false,
        }
    }

    fn fits_function(&self, parts: &[NodeId]) -> bool
        ensures { (id : List ℕ) →
            result
            ≡ is_some (option_and_then (stands_for (FunctionLabel id))
            (all_found (meanings (nodes_of self.now)) (places_of parts.now))) }
    {
        match parts {
            [] => false,
            [_] => false,
            [arg, out] => self.is_type(*arg) && self.is_type(*out),
            [_, _, _, ..] => false,
        }
    }

    // Whether these are the parts of the operator's application. That of a function is a call, so it fits no parts.
    fn fits_operator(&self, op: &Op, parts: &[NodeId]) -> bool
        ensures { result
            ≡ is_some (option_and_then (stands_for (ApplicationLabel (plain_op op.now)))
            (all_found (meanings (nodes_of self.now)) (places_of parts.now))) }
    {
        match op {
            Op::Uuf(_) => false,
            _ => self.fits_application(parts),
        }
    }

    fn fits_application(&self, parts: &[NodeId]) -> bool
        ensures { (o : PlainOp) → IsTrue (applies_no_function (ApplicationLabel o)) →
            result
            ≡ is_some (option_and_then (stands_for (ApplicationLabel o))
            (all_found (meanings (nodes_of self.now)) (places_of parts.now))) }
    {
        match parts.split_first() {
            Some((ty, args)) => self.is_type(*ty) && self.are_terms(args),
            None => false,
        }
    }

    fn fits_call(&self, parts: &[NodeId]) -> bool
        ensures { result
            ≡ is_some (option_and_then (stands_for CallLabel)
            (all_found (meanings (nodes_of self.now)) (places_of parts.now))) }
    {
        match parts.split_first() {
            Some((ty, called)) => self.is_type(*ty) && self.are_called(called),
            None => false,
        }
    }

    // Whether these are a function and then terms.
    fn are_called(&self, ids: &[NodeId]) -> bool
        ensures { result
            ≡ are_called_at (all_found (meanings (nodes_of self.now)) (places_of ids.now)) }
    {
        match ids.split_first() {
            Some((function, args)) => self.is_function(*function) && self.are_terms(args),
            None => false,
        }
    }

    // Whether these are the parts of a record type of these attributes.
    fn fits_record_type(&self, names: &[Attr], parts: &[NodeId]) -> bool
        ensures { result
            ≡ is_some (option_and_then (stands_for (RecordLabel (texts names.now)))
            (all_found (meanings (nodes_of self.now)) (places_of parts.now))) }
    {
        if names.len() != parts.len() {
            return false;
        }
        are_in_order(names) && self.are_types(parts)
    }

    // Whether these are the parts of a record of these attributes: its type, and then a term for each attribute, of the type
    // that this one has in the record's type. That the attributes ascend is known of the type.
    fn fits_record(&self, names: &[Attr], parts: &[NodeId]) -> bool
        ensures { result
            ≡ is_some (option_and_then (stands_for (RecordOfLabel (texts names.now)))
            (all_found (meanings (nodes_of self.now)) (places_of parts.now))) }
    {
        match parts.split_first() {
            Some((ty, fields)) => {
                self.is_record_type_of(*ty, names) && self.are_typed(fields, self.parts(*ty))
            }
            None => false,
        }
    }

    fn fits_set(&self, parts: &[NodeId]) -> bool
        ensures { result
            ≡ is_some (option_and_then (stands_for SetOfLabel)
            (all_found (meanings (nodes_of self.now)) (places_of parts.now))) }
    {
        match parts.split_first() {
            Some((ty, elements)) => self.is_set(*ty) && self.are_elements(elements),
            None => false,
        }
    }

    fn fits_some(&self, parts: &[NodeId]) -> bool
        ensures { result
            ≡ is_some (option_and_then (stands_for SomeLabel)
            (all_found (meanings (nodes_of self.now)) (places_of parts.now))) }
    {
        match parts {
            [] => false,
            [_] => false,
            [ty, inner] => self.is_option_of(*ty, *inner),
            [_, _, _, ..] => false,
        }
    }

    fn fits_none(&self, parts: &[NodeId]) -> bool
        ensures { result
            ≡ is_some (option_and_then (stands_for NoneLabel)
            (all_found (meanings (nodes_of self.now)) (places_of parts.now))) }
    {
        match parts {
            [] => false,
            [ty] => self.is_option(*ty),
            [_, _, ..] => false,
        }
    }

    fn fits_literal(&self, literal: &TermPrim, parts: &[NodeId]) -> bool
        ensures { result
            ≡ is_some (option_and_then (stands_for (LiteralLabel (plain_literal literal.now)))
            (all_found (meanings (nodes_of self.now)) (places_of parts.now))) }
    {
        match parts {
            [] => false,
            [ty] => self.is_type_of(*ty, literal),
            [_, _, ..] => false,
        }
    }

    fn fits_variable(&self, parts: &[NodeId]) -> bool
        ensures { (id : List ℕ) →
            result
            ≡ is_some (option_and_then (stands_for (VariableLabel id))
            (all_found (meanings (nodes_of self.now)) (places_of parts.now))) }
    {
        match parts {
            [] => false,
            [ty] => self.is_type(*ty),
            [_, _, ..] => false,
        }
    }

    // Whether these are terms in ascending order.
    fn are_elements(&self, ids: &[NodeId]) -> bool
        ensures { result ≡ ascend_at (terms_at (meanings (nodes_of self.now)) (places_of ids.now)) }
    {
        self.are_terms(ids) && self.ascend(ids)
    }

    /// The label of a number's node, None exactly where it has no node. Takes no memory.
    pub fn label(&self, id: NodeId) -> Option<&Label>
        ensures { option_map (λ label. plain_label label.now) result
            ≡ option_map label_in (meaning_in self.now id) }
    {
        match self.node(id) {
            Some(node) => Some(&node.label),
            None => None,
        }
    }

    /// The parts of a number's node, which stand before it; none where it has no node. Takes no memory.
    pub fn parts(&self, id: NodeId) -> &[NodeId]
        ensures found { IfSome (meaning_in self.now id) (λ m.
            all_found (meanings (nodes_of self.now)) (places_of result.now) ≡ Some (parts_in m)) }
        ensures earlier { AllByRecursion (λ part. part < place_of id) (places_of result.now) }
    {
        match self.node(id) {
            Some(node) => node.parts.items(),
            None => &[],
        }
    }

    fn is_type(&self, id: NodeId) -> bool
        ensures { result ≡ is_type_at (meaning_in self.now id) }
    {
        match self.label(id) {
            Some(label) => label.is_type(),
            None => false,
        }
    }

    fn is_function(&self, id: NodeId) -> bool
        ensures { result ≡ is_function_at (meaning_in self.now id) }
    {
        match self.label(id) {
            Some(label) => label.is_function(),
            None => false,
        }
    }

    /// Whether a number stands for a term. Takes no memory.
    pub fn is_term(&self, id: NodeId) -> bool
        ensures { result ≡ is_term_at (meaning_in self.now id) }
    {
        match self.label(id) {
            Some(label) => label.is_term(),
            None => false,
        }
    }

    fn are_terms(&self, ids: &[NodeId]) -> bool
        ensures { result
            ≡ list_all (λ place. is_term_at (meaning_at (nodes_of self.now) place))
            (places_of ids.now) }
    {
        for id in ids {
            if !self.is_term(*id) {
                return false;
            }
        }
        true
    }

    fn are_types(&self, ids: &[NodeId]) -> bool
        ensures { result
            ≡ list_all (λ place. is_type_at (meaning_at (nodes_of self.now) place))
            (places_of ids.now) }
    {
        for id in ids {
            if !self.is_type(*id) {
                return false;
            }
        }
        true
    }

    // Whether it is the type of records of these attributes.
    fn is_record_type_of(&self, ty: NodeId, names: &[Attr]) -> bool
        ensures { IsTrue result ↔ IsRecordAt (texts names.now) (meaning_in self.now ty) }
    {
        match self.label(ty) {
            Some(Label::TRecord(own)) => own.items() == names,
            _ => false,
        }
    }

    // Whether these are terms of these types, in order.
    pub(crate) fn are_typed(&self, terms: &[NodeId], types: &[NodeId]) -> bool
        ensures { (us : List PlainType) →
            all_found (meanings (nodes_of self.now)) (places_of types.now) ≡ Some
            (map TypeMeaning us) →
            result
            ≡ are_typed_at us (all_found (meanings (nodes_of self.now)) (places_of terms.now)) }
    {
        match terms.split_first() {
            Some((term, terms)) => match types.split_first() {
                Some((ty, types)) => self.is_typed(*term, *ty) && self.are_typed(terms, types),
                None => false,
            },
            None => types.is_empty(),
        }
    }

    // Whether it is a term of this type.
    fn is_typed(&self, term: NodeId, ty: NodeId) -> bool
        ensures { (u : PlainType) → meaning_in self.now ty ≡ Some (TypeMeaning u) →
            result ≡ is_typed_at u (meaning_in self.now term) }
    {
        if !self.is_term(term) {
            return false;
        }
        match self.parts(term) {
            [own, ..] => *own == ty,
            [] => false,
        }
    }

    pub(crate) fn is_option(&self, id: NodeId) -> bool
        ensures { result ≡ is_option_at (meaning_in self.now id) }
    {
        match self.label(id) {
            Some(Label::TOption) => true,
            _ => false,
        }
    }

    pub(crate) fn is_set(&self, id: NodeId) -> bool
        ensures { result ≡ is_set_at (meaning_in self.now id) }
    {
        match self.label(id) {
            Some(Label::TSet) => true,
            _ => false,
        }
    }

    // Whether this is the literal's type.
    pub(crate) fn is_type_of(&self, ty: NodeId, literal: &TermPrim) -> bool
        ensures { result ≡ is_type_of_at (plain_literal literal.now) (meaning_in self.now ty) }
    {
        match self.label(ty) {
            Some(label) => label.is_type_of(literal),
            None => false,
        }
    }

    // Whether the type is that of options of the term's.
    pub(crate) fn is_option_of(&self, ty: NodeId, term: NodeId) -> bool
        ensures { result ≡ is_option_of_at (meaning_in self.now ty) (meaning_in self.now term) }
    {
        if !self.is_option(ty) || !self.is_term(term) {
            return false;
        }
        let [inner, ..] = self.parts(ty) else {
            return false;
        };
        let [own, ..] = self.parts(term) else {
            return false;
        };
        *inner == *own
    }
}
