// Terms, functions and types of the program, entered as nodes.
ghost use Rattle.std.specs.Prelude.{◌≡◌, ◌++◌, ◌∷◌, IfOk, List, Some, map};
ghost use Rattle.law_terms.specs.Meanings.{all_found, meanings, stands_for};
ghost use Rattle.law_terms.specs.Nodes.{FunctionMeaning, Meaning, TermMeaning, TypeMeaning};
ghost use Rattle.law_terms.specs.Plain.{Application, BoolType, PlainType, terms, attribute_types};
ghost use Rattle.law_terms.specs.Plain.{record_fields};
ghost use Rattle.law_terms.specs.Types.{type_of};
ghost use Rattle.smt_nodes.specs.View.{places_of, plain_label};
ghost use Rattle.law_terms.specs.Parts.{field_terms, types_in};
ghost use Rattle.smt_term.specs.View.{plain_attributes, plain_fields, plain_function, plain_op};
ghost use Rattle.smt_term.specs.View.{plain_term, plain_terms, plain_type};
ghost use Rattle.smt_nodes.specs.Interned.{IsNumber};

use crate::interner::Interner;
use crate::{AttrList, IdList, Label, Node, NodeId, Subject};
use smt_term::{Op, Term, TermError, TermMap, TermType, TypeMap, Uuf};

impl Interner {
    ghost use Rattle.smt_nodes.specs.Interned.{meaning_in, nodes_of, IsMeant, KeepsMeanings};
    ghost use Rattle.smt_nodes.specs.Interned.{StandFor};
    ghost use Rattle.smt_nodes.specs.Subject.{meaning_of};

    /// The number that stands for a term, a type or a function. What is inside it gets numbers before it.
    ///
    /// # Errors
    /// Those of `intern`.
    pub fn intern_subject(&mut self, subject: Subject<'_>) -> Result<NodeId, TermError>
        ensures meaning { IfOk result
            (λ id. meaning_in self.new id ≡ Some (meaning_of subject.entry)) }
        ensures kept { KeepsMeanings self.old self.new }
    {
        match subject {
            Subject::Term(term) => self.intern(term),
            Subject::Type(ty) => self.intern_type(ty),
            Subject::Function(function) => self.intern_function(function),
        }
    }

    /// The numbers that stand for terms, in order.
    ///
    /// # Errors
    /// Those of `intern`.
    pub fn intern_terms(&mut self, terms: &[Term]) -> Result<Vec<NodeId>, TermError>
        ensures meanings { IfOk result
            (λ ids. StandFor self.new ids.items (plain_terms terms.now)) }
        ensures kept { KeepsMeanings self.old self.new }
    {
        let mut ids = Vec::with_capacity(self.alloc, terms.len())?;
        for term in terms {
            let id = self.intern(term)?;
            ids.push(id)?;
        }
        Ok(ids)
    }

    /// The number that stands for a term. Its type and its parts get numbers before it.
    ///
    /// # Errors
    /// `Memory`, where there is none for the nodes. A set whose elements do not ascend has no number, and gets this answer
    /// too; `TermSet` makes none.
    #[cycle(intern)]
    pub fn intern(&mut self, term: &Term) -> Result<NodeId, TermError>
        ensures meaning { IfOk result (λ id. IsNumber self.new id (plain_term term.now)) }
        ensures kept { KeepsMeanings self.old self.new }
    {
        let ty = self.intern_type_of(term)?;
        match term {
            Term::App { op, args, .. } => self.intern_application(ty, op, args.items()),
            Term::None(_) => self.enter(Label::NoneOf, &[ty]),
            Term::Prim(literal) => self.enter(Label::Prim(literal.share()?), &[ty]),
            Term::Record(fields) => {
                let names = AttrList::of_pairs(self.alloc, fields.items())?;
                let parts = self.intern_fields(ty, fields)?;
                self.enter(Label::RecordOf(names), parts.as_slice())
            }
            Term::Set { elts, .. } => {
                let parts = self.intern_all(&[ty], elts.items())?;
                self.enter(Label::SetOf, parts.as_slice())
            }
            Term::Some(inner) => {
                let part = self.intern(inner)?;
                self.enter(Label::SomeOf, &[ty, part])
            }
            Term::Var(variable) => self.enter(Label::Var(variable.id.clone()?), &[ty]),
        }
    }

    // The number that stands for an operator at its arguments, by that of the claimed type. A function gets a number of its
    // own before it.
    #[cycle(intern)]
    fn intern_application(
        &mut self,
        ty: NodeId,
        op: &Op,
        args: &[Term],
    ) -> Result<NodeId, TermError>
        ensures meaning { (t : PlainType) → meaning_in self.old ty ≡ Some (TypeMeaning t) →
            IfOk result (λ id.
            IsNumber self.new id (Application (plain_op op.now) (terms (plain_terms args.now)) t)) }
        ensures kept { KeepsMeanings self.old self.new }
    {
        match op {
            Op::Uuf(function) => {
                let function = self.intern_function(function)?;
                let parts = self.intern_all(&[ty, function], args)?;
                self.enter(Label::Call, parts.as_slice())
            }
            _ => {
                let parts = self.intern_all(&[ty], args)?;
                self.enter(Label::App(op.share()?), parts.as_slice())
            }
        }
    }

    // The first numbers, and then those of terms in order.
    #[cycle(intern)]
    fn intern_all(&mut self, first: &[NodeId], terms: &[Term]) -> Result<Vec<NodeId>, TermError>
        ensures meanings { (ms : List Meaning) →
            all_found (meanings (nodes_of self.old)) (places_of first.now) ≡ Some ms →
            IfOk result (λ parts.
            all_found (meanings (nodes_of self.new)) (places_of parts.items)
            ≡ Some (ms ++ map TermMeaning (plain_terms terms.now))) }
        ensures kept { KeepsMeanings self.old self.new }
    {
        let mut parts = Vec::new(self.alloc);
        parts.extend_from_slice(first)?;
        for term in terms {
            let part = self.intern(term)?;
            parts.push(part)?;
        }
        Ok(parts)
    }

    // The number of a record's type, and then those of the terms of its fields, in order.
    #[cycle(intern)]
    fn intern_fields(&mut self, ty: NodeId, fields: &TermMap) -> Result<Vec<NodeId>, TermError>
        ensures meanings { (m : Meaning) → meaning_in self.old ty ≡ Some m →
            IfOk result (λ parts.
            all_found (meanings (nodes_of self.new)) (places_of parts.items)
            ≡ Some (m ∷ field_terms (record_fields (plain_fields fields.now)))) }
        ensures kept { KeepsMeanings self.old self.new }
    {
        let fields = fields.items();
        let mut parts = Vec::new(self.alloc);
        parts.push(ty)?;
        for (_, term) in fields {
            let part = self.intern(term)?;
            parts.push(part)?;
        }
        Ok(parts)
    }

    // The number that stands for the type of a term. Where the term holds its type or the inner one, no type is made.
    fn intern_type_of(&mut self, term: &Term) -> Result<NodeId, TermError>
        ensures meaning { IfOk result
            (λ id. meaning_in self.new id ≡ Some (TypeMeaning (type_of (plain_term term.now)))) }
        ensures kept { KeepsMeanings self.old self.new }
    {
        match term {
            Term::App { ret_ty, .. } => self.intern_type(ret_ty),
            Term::None(held) => {
                let inner = self.intern_type(held)?;
                self.enter(Label::TOption, &[inner])
            }
            Term::Prim(literal) => self.intern_type(&literal.type_of()?),
            Term::Set { elts_ty, .. } => {
                let inner = self.intern_type(elts_ty)?;
                self.enter(Label::TSet, &[inner])
            }
            Term::Record(_) | Term::Some(_) => self.intern_type(&term.type_of(self.alloc)?),
            Term::Var(variable) => self.intern_type(&variable.ty),
        }
    }

    // The number that stands for a function. Its types get numbers before it.
    fn intern_function(&mut self, function: &Uuf) -> Result<NodeId, TermError>
        ensures meaning { IfOk result
            (λ id. meaning_in self.new id ≡ Some (FunctionMeaning (plain_function function.now))) }
        ensures kept { KeepsMeanings self.old self.new }
    {
        let arg = self.intern_type(&function.arg)?;
        let out = self.intern_type(&function.out)?;
        self.enter(Label::Fun(function.id.clone()?), &[arg, out])
    }

    // The number that stands for the type of truth values. It is looked for until it is known, and then kept.
    fn intern_bool_type(&mut self) -> Result<NodeId, TermError>
        ensures meaning { IfOk result (λ id. meaning_in self.new id ≡ Some (TypeMeaning BoolType)) }
        ensures kept { KeepsMeanings self.old self.new }
    {
        if let Some(id) = self.bool_type {
            return Ok(id);
        }
        let id = self.enter(Label::TBool, &[])?;
        self.bool_type = Some(id);
        Ok(id)
    }

    // The number that stands for a type.
    #[cycle(intern_types)]
    fn intern_type(&mut self, ty: &TermType) -> Result<NodeId, TermError>
        ensures meaning { IfOk result
            (λ id. meaning_in self.new id ≡ Some (TypeMeaning (plain_type ty.now))) }
        ensures kept { KeepsMeanings self.old self.new }
    {
        match ty {
            TermType::Option { ty } => {
                let inner = self.intern_type(ty)?;
                self.enter(Label::TOption, &[inner])
            }
            TermType::Bitvec { n } => self.enter(Label::TBitvec(*n), &[]),
            TermType::Bool => self.intern_bool_type(),
            TermType::Entity { ety } => self.enter(Label::TEntity(ety.share()?), &[]),
            TermType::Ext { xty } => self.enter(Label::TExt(*xty), &[]),
            TermType::String => self.enter(Label::TString, &[]),
            TermType::Record { rty } => {
                let names = AttrList::of_pairs(self.alloc, rty.items())?;
                let parts = self.intern_types(rty)?;
                self.enter(Label::TRecord(names), parts.as_slice())
            }
            TermType::Set { ty } => {
                let inner = self.intern_type(ty)?;
                self.enter(Label::TSet, &[inner])
            }
        }
    }

    // The numbers of the types of attributes, in order.
    #[cycle(intern_types)]
    fn intern_types(&mut self, types: &TypeMap) -> Result<Vec<NodeId>, TermError>
        ensures meanings { IfOk result (λ parts.
            all_found (meanings (nodes_of self.new)) (places_of parts.items)
            ≡ Some (types_in (attribute_types (plain_attributes types.now)))) }
        ensures kept { KeepsMeanings self.old self.new }
    {
        let attributes = types.items();
        let mut parts = Vec::new(self.alloc);
        for (_, ty) in attributes {
            let part = self.intern_type(ty)?;
            parts.push(part)?;
        }
        Ok(parts)
    }

    // The number of the node of a label and of parts. A node that is not there is entered, where it fits.
    fn enter(&mut self, label: Label, parts: &[NodeId]) -> Result<NodeId, TermError>
        ensures meaning { (ps : List Meaning) →
            all_found (meanings (nodes_of self.old)) (places_of parts.now) ≡ Some ps →
            IfOk result (λ id. meaning_in self.new id ≡ stands_for (plain_label label) ps) }
        ensures meant { IfOk result (IsMeant self.new) }
        ensures kept { KeepsMeanings self.old self.new }
    {
        let first = self.table.first_of(&label);
        if let Some(id) = self.find_node(first, parts)? {
            return Ok(id);
        }
        let node = Node {
            label,
            parts: IdList::new(self.alloc, parts)?,
        };
        if !self.fits(&node) {
            return Err(TermError::Memory);
        }
        self.enter_new(first, node)
    }
}
