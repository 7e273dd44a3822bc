// The number of a term, a type or a function, found by a look at one node after the other.
ghost use Rattle.std.specs.Prelude.{◌≡◌, ◌∷◌, ◌↔◌, [], IfNone, IfSome, IsTrue, Some, map};
ghost use Rattle.law_terms.specs.Meanings.{all_found, meanings};
ghost use Rattle.law_terms.specs.Nodes.{FunctionMeaning, TermMeaning, TypeMeaning};
ghost use Rattle.law_terms.specs.Parts.{field_terms, parts_in, term_parts, type_parts, types_in};
ghost use Rattle.law_terms.specs.Plain.{Application, OptionType, PlainType, RecordType, SetType};
ghost use Rattle.law_terms.specs.Plain.{terms, attribute_types, record_fields};
ghost use Rattle.law_terms.specs.Types.{field_types};
ghost use Rattle.smt_nodes.specs.View.{places_of};
ghost use Rattle.smt_term.specs.View.{plain_attributes, plain_fields, plain_function, plain_op};
ghost use Rattle.smt_term.specs.View.{plain_term, plain_terms, plain_type};
ghost use Rattle.smt_nodes.specs.Interned.{IsNumber};

use crate::attributes::are_attributes_of;
use crate::interner::Interner;
use crate::{Label, NodeId, Subject};
use smt_term::{Op, Term, TermMap, TermType, TypeMap, Uuf};

impl Interner {
    ghost use Rattle.smt_nodes.specs.Interned.{meaning_in, nodes_of};
    ghost use Rattle.smt_nodes.specs.Subject.{meaning_of};

    /// The number that stands for a term, None exactly where none does. Takes no memory; it compares the term with one node
    /// after the other.
    pub fn find(&self, term: &Term) -> Option<NodeId>
        ensures found { IfSome result (λ id. IsNumber self.now id (plain_term term.now)) }
        ensures none { IfNone result
            ((id : NodeId) → IsNumber self.now id (plain_term term.now) → ⊥) }
    {
        self.find_subject(Subject::Term(term))
    }

    /// The same of a term, a type or a function.
    pub fn find_subject(&self, subject: Subject<'_>) -> Option<NodeId>
        ensures found { IfSome result
            (λ id. meaning_in self.now id ≡ Some (meaning_of subject.entry)) }
        ensures none { IfNone result
            ((id : NodeId) → meaning_in self.now id ≡ Some (meaning_of subject.entry) → ⊥) }
    {
        for place in 0..self.len() {
            let id = NodeId {
                place: place as u32,
            };
            if self.stands_for(id, subject) {
                return Some(id);
            }
        }
        None
    }

    // Whether the number stands for it.
    fn stands_for(&self, id: NodeId, subject: Subject<'_>) -> bool
        ensures { IsTrue result ↔ (meaning_in self.now id ≡ Some (meaning_of subject.entry)) }
    {
        match subject {
            Subject::Term(term) => self.stands_for_term(id, term),
            Subject::Type(ty) => self.stands_for_type(id, ty),
            Subject::Function(function) => self.stands_for_function(id, function),
        }
    }

    // Whether the number stands for the term: it has the term's label, and its parts are those of the term.
    #[cycle(find)]
    fn stands_for_term(&self, id: NodeId, term: &Term) -> bool
        ensures { IsTrue result ↔ (IsNumber self.now id (plain_term term.now)) }
    {
        match self.label(id) {
            Some(label) => label.is_of_term(term) && self.are_parts_of_term(self.parts(id), term),
            None => false,
        }
    }

    // Whether the numbers stand for the parts of the term, the first for its type.
    #[cycle(find)]
    fn are_parts_of_term(&self, parts: &[NodeId], term: &Term) -> bool
        ensures { IsTrue result
            ↔ (all_found (meanings (nodes_of self.now)) (places_of parts.now)
            ≡ Some (parts_in (TermMeaning (plain_term term.now)))) }
    {
        let Some((ty, inner)) = parts.split_first() else {
            return false;
        };
        match term {
            Term::App { op, args, ret_ty } => {
                self.stands_for_type(*ty, ret_ty) && self.are_applied(inner, op, args.items())
            }
            Term::None(held) => self.stands_for_option(*ty, held) && inner.is_empty(),
            Term::Prim(literal) => self.is_type_of(*ty, literal) && inner.is_empty(),
            Term::Record(fields) => {
                self.stand_for_fields(inner, fields) && self.is_type_of_record(*ty, fields, inner)
            }
            Term::Set { elts_ty, elts } => {
                self.stands_for_set(*ty, elts_ty) && self.stand_for_terms(inner, elts.items())
            }
            Term::Some(held) => match inner {
                [] => false,
                [part] => self.stands_for_term(*part, held) && self.is_option_of(*ty, *part),
                [_, _, ..] => false,
            },
            Term::Var(variable) => self.stands_for_type(*ty, &variable.ty) && inner.is_empty(),
        }
    }

    // Whether the numbers stand for the parts of the operator's application that come behind the claimed type: for the
    // function, where the operator is one, and for the arguments.
    #[cycle(find)]
    fn are_applied(&self, ids: &[NodeId], op: &Op, args: &[Term]) -> bool
        ensures { (t : PlainType) →
            IsTrue result
            ↔ (all_found (meanings (nodes_of self.now)) (places_of ids.now)
            ≡ Some (term_parts (Application (plain_op op.now) (terms (plain_terms args.now)) t))) }
    {
        match op {
            Op::Uuf(function) => match ids.split_first() {
                Some((id, inner)) => {
                    self.stands_for_function(*id, function) && self.stand_for_terms(inner, args)
                }
                None => false,
            },
            _ => self.stand_for_terms(ids, args),
        }
    }

    // Whether the numbers stand for the terms, in order.
    #[cycle(find)]
    fn stand_for_terms(&self, ids: &[NodeId], terms: &[Term]) -> bool
        ensures { IsTrue result
            ↔ (all_found (meanings (nodes_of self.now)) (places_of ids.now)
            ≡ Some (map TermMeaning (plain_terms terms.now))) }
    {
        if ids.len() != terms.len() {
            return false;
        }
        for (id, term) in ids.iter().zip(terms) {
            if !self.stands_for_term(*id, term) {
                return false;
            }
        }
        true
    }

    // Whether the numbers stand for the terms of the fields, in order.
    #[cycle(find)]
    fn stand_for_fields(&self, ids: &[NodeId], fields: &TermMap) -> bool
        ensures { IsTrue result
            ↔ (all_found (meanings (nodes_of self.now)) (places_of ids.now)
            ≡ Some (field_terms (record_fields (plain_fields fields.now)))) }
    {
        let fields = fields.items();
        if ids.len() != fields.len() {
            return false;
        }
        for (id, (_, term)) in ids.iter().zip(fields) {
            if !self.stands_for_term(*id, term) {
                return false;
            }
        }
        true
    }

    // Whether the number stands for the type of the record of the fields, for whose terms the others stand.
    fn is_type_of_record(&self, ty: NodeId, fields: &TermMap, inner: &[NodeId]) -> bool
        ensures { all_found (meanings (nodes_of self.now)) (places_of inner.now) ≡ Some
            (field_terms (record_fields (plain_fields fields.now))) →
            IsTrue result
            ↔ (meaning_in self.now ty
            ≡ Some
            (TypeMeaning (RecordType (field_types (record_fields (plain_fields fields.now)))))) }
    {
        match self.label(ty) {
            Some(Label::TRecord(names)) => {
                are_attributes_of(names.items(), fields.items())
                    && self.are_typed(inner, self.parts(ty))
            }
            _ => false,
        }
    }

    // Whether the number stands for the function: it has the function's label, and its parts are those of the function.
    fn stands_for_function(&self, id: NodeId, function: &Uuf) -> bool
        ensures { IsTrue result
            ↔ (meaning_in self.now id ≡ Some (FunctionMeaning (plain_function function.now))) }
    {
        match self.label(id) {
            Some(label) => {
                label.is_of_function(function)
                    && self.are_parts_of_function(self.parts(id), function)
            }
            None => false,
        }
    }

    // Whether the numbers stand for the types of the function.
    fn are_parts_of_function(&self, parts: &[NodeId], function: &Uuf) -> bool
        ensures { IsTrue result
            ↔ (all_found (meanings (nodes_of self.now)) (places_of parts.now)
            ≡ Some (parts_in (FunctionMeaning (plain_function function.now)))) }
    {
        match parts.split_first() {
            Some((arg, others)) => {
                self.stands_for_type(*arg, &function.arg)
                    && self.are_one_type(others, &function.out)
            }
            None => false,
        }
    }

    // Whether the number stands for options of this type.
    fn stands_for_option(&self, id: NodeId, held: &TermType) -> bool
        ensures { IsTrue result
            ↔ (meaning_in self.now id ≡ Some (TypeMeaning (OptionType (plain_type held.now)))) }
    {
        self.is_option(id) && self.are_one_type(self.parts(id), held)
    }

    // Whether the number stands for sets of this type.
    fn stands_for_set(&self, id: NodeId, element: &TermType) -> bool
        ensures { IsTrue result
            ↔ (meaning_in self.now id ≡ Some (TypeMeaning (SetType (plain_type element.now)))) }
    {
        self.is_set(id) && self.are_one_type(self.parts(id), element)
    }

    // Whether the number stands for the type: it has the type's label, and its parts are those of the type.
    #[cycle(types)]
    fn stands_for_type(&self, id: NodeId, ty: &TermType) -> bool
        ensures { IsTrue result
            ↔ (meaning_in self.now id ≡ Some (TypeMeaning (plain_type ty.now))) }
    {
        match self.label(id) {
            Some(label) => label.is_of_type(ty) && self.are_parts_of_type(self.parts(id), ty),
            None => false,
        }
    }

    // Whether the numbers stand for the parts of the type.
    #[cycle(types)]
    fn are_parts_of_type(&self, parts: &[NodeId], ty: &TermType) -> bool
        ensures { IsTrue result
            ↔ (all_found (meanings (nodes_of self.now)) (places_of parts.now)
            ≡ Some (type_parts (plain_type ty.now))) }
    {
        match ty {
            TermType::Option { ty } => self.are_one_type(parts, ty),
            TermType::Bitvec { .. } => parts.is_empty(),
            TermType::Bool => parts.is_empty(),
            TermType::Entity { .. } => parts.is_empty(),
            TermType::Ext { .. } => parts.is_empty(),
            TermType::String => parts.is_empty(),
            TermType::Record { rty } => self.stand_for_types(parts, rty),
            TermType::Set { ty } => self.are_one_type(parts, ty),
        }
    }

    // Whether the numbers stand for the types of the attributes, in order.
    #[cycle(types)]
    fn stand_for_types(&self, ids: &[NodeId], types: &TypeMap) -> bool
        ensures { IsTrue result
            ↔ (all_found (meanings (nodes_of self.now)) (places_of ids.now)
            ≡ Some (types_in (attribute_types (plain_attributes types.now)))) }
    {
        let attributes = types.items();
        if ids.len() != attributes.len() {
            return false;
        }
        for (id, (_, ty)) in ids.iter().zip(attributes) {
            if !self.stands_for_type(*id, ty) {
                return false;
            }
        }
        true
    }

    // Whether there is one number, and it stands for the type.
    #[cycle(types)]
    fn are_one_type(&self, ids: &[NodeId], ty: &TermType) -> bool
        ensures { IsTrue result
            ↔ (all_found (meanings (nodes_of self.now)) (places_of ids.now)
            ≡ Some (TypeMeaning (plain_type ty.now) ∷ [])) }
    {
        match ids {
            [] => false,
            [id] => self.stands_for_type(*id, ty),
            [_, _, ..] => false,
        }
    }
}
