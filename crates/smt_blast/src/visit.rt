// The walk over the old terms, which numbers their variables.
ghost use Rattle.std.specs.Prelude.{ℕ, ◌≡◌, ◌<◌, [], ◌∷◌, IfOk, IsTrue, List, None, Some, length};
ghost use Rattle.std.specs.Prelude.{map, replicate, slice_set};
ghost use Rattle.std.specs.List.{AllByRecursion};
ghost use Rattle.law_blasting.specs.Blasted.{Variables};
ghost use Rattle.law_blasting.specs.Numbering.{walked, walked_all};
ghost use Rattle.law_terms.specs.Meanings.{all_found, meanings};
ghost use Rattle.law_terms.specs.Nodes.{FunctionMeaning, TermMeaning, TypeMeaning};
ghost use Rattle.law_terms.specs.Plain.{PlainFunction, PlainTerm, PlainTerms, PlainType, UufOp};
ghost use Rattle.law_terms.specs.Plain.{list_of_terms};
ghost use Rattle.law_terms.specs.Typing.{typed, typed_all};
ghost use Rattle.smt_blast.specs.Marks.{mark_in};
ghost use Rattle.smt_nodes.specs.Interned.{IsNumber, meaning_in, nodes_of};
ghost use Rattle.smt_nodes.specs.View.{place_of, places_of};
ghost use Rattle.smt_term.specs.View.{plain_op};
ghost use Rattle.std.specs.Option.{is_some};
ghost use Rattle.smt_term.specs.TypeView.{BuildsType};

use crate::circuit::circuit_of;
use crate::error::BlastError;
use crate::marks::Seen;
use crate::sort::sort_at;
use smt_nodes::{Interner, Label, NodeId};
use smt_term::{Op, TermError, TermType, Uuf};
use smt_text::share_text;
use std::alloc::Global;
use std::rc::Rc;

/// What a walk has seen: a mark for each old node, and the variables in the order in which they were met.
#[derive(Drop)]
pub(crate) struct Walk {
    alloc: Global,
    pub(crate) marks: Vec<Option<Seen>>,
    pub(crate) variables: Vec<NodeId>,
}

/// The type for which a number stands, made again. A number that stands for none gets the answer of no memory.
pub(crate) fn made_type(old: &Interner, ty: NodeId) -> Result<TermType, TermError>
    ensures { (t : PlainType) → meaning_in old.now ty ≡ Some (TypeMeaning t) → BuildsType result t }
{
    match old.label(ty) {
        Some(label) if label.is_type() => old.type_at(ty),
        _ => Err(TermError::Memory),
    }
}

/// The function for which a number stands, as an operator. A number that stands for none gets the answer of no memory.
fn made_function(alloc: Global, old: &Interner, id: NodeId) -> Result<Op, TermError>
    ensures { (f : PlainFunction) → meaning_in old.now id ≡ Some (FunctionMeaning f) →
        IfOk result (λ op. plain_op op ≡ UufOp f) }
{
    let Some(Label::Fun(name)) = old.label(id) else {
        return Err(TermError::Memory);
    };
    match old.parts(id) {
        [arg, out] => {
            let function = Uuf {
                id: share_text(name)?,
                arg: made_type(old, *arg)?,
                out: made_type(old, *out)?,
            };
            Ok(Op::Uuf(Rc::new(alloc, function)?))
        }
        _ => Err(TermError::Memory),
    }
}

impl Walk {
    ghost use Rattle.smt_blast.specs.Walks.{behind_parts, IsWalk, Walks};

    /// A walk that has seen nothing yet.
    pub(crate) fn new(alloc: Global, old: &Interner) -> Result<Walk, TermError>
        ensures { IfOk result (λ walk. IsWalk old.now walk []) }
    {
        let mut marks = Vec::with_capacity(alloc, old.len())?;
        for place in 0..old.len() {
            marks.push(None)?;
        }
        Ok(Walk {
            alloc,
            marks,
            variables: Vec::new(alloc),
        })
    }

    /// Whether a node has a mark.
    fn is_seen(&self, id: NodeId) -> bool
        ensures { result ≡ is_some (mark_in self.now.marks.items (place_of id)) }
    {
        match self.marks.get(id.place()) {
            Some(mark) => mark.is_some(),
            None => false,
        }
    }

    /// Gives a node a mark.
    fn mark(&mut self, id: NodeId, number: usize)
        ensures marks { self.new.marks.items
            ≡ slice_set self.old.marks.items (place_of id)
            (Some (record { id = id; number = number })) }
        ensures variables { self.new.variables.items ≡ self.old.variables.items }
    {
        if id.place() < self.marks.len() {
            self.marks[id.place()] = Some(Seen { id, number });
        }
    }

    /// Walks over the term of a number: over its type, then its parts, and then itself.
    #[cycle(walk)]
    pub(crate) fn visit(&mut self, old: &Interner, id: NodeId) -> Result<(), BlastError>
        ensures { (t : PlainTerm) (vs : Variables) → IsNumber old.now id t → IsTrue (typed t) →
            IsWalk old.now self.old vs →
            Walks old.now self.old self.new (walked vs t) (id ∷ []) result }
    {
        if self.is_seen(id) {
            Ok(())
        } else {
            self.visit_new(old, id)
        }
    }

    /// The same for a node without a mark.
    #[cycle(walk)]
    fn visit_new(&mut self, old: &Interner, id: NodeId) -> Result<(), BlastError>
        ensures { (t : PlainTerm) (vs : Variables) →
            mark_in self.old.marks.items (place_of id) ≡ None → IsNumber old.now id t →
            IsTrue (typed t) → IsWalk old.now self.old vs →
            Walks old.now self.old self.new (walked vs t) (id ∷ []) result }
    {
        let Some((ty, parts)) = old.parts(id).split_first() else {
            return Err(BlastError::Memory);
        };
        if sort_at(old, *ty).is_none() {
            return Err(BlastError::UnsupportedType(made_type(old, *ty)?));
        }
        let Some(label) = old.label(id) else {
            return Err(BlastError::Memory);
        };
        match label {
            Label::App(op) => {
                self.visit_all(old, parts, id.place())?;
                if circuit_of(op).is_none() {
                    return Err(BlastError::Unsupported(op.share()?));
                }
                self.mark(id, 0);
                Ok(())
            }
            Label::Call => self.refuse_call(old, parts, id.place()),
            Label::Var(_) => {
                let number = self.variables.len();
                self.variables.push(id)?;
                self.mark(id, number);
                Ok(())
            }
            _ => {
                self.mark(id, 0);
                Ok(())
            }
        }
    }

    /// Walks over the terms of numbers in order, all of which stand before a place.
    #[cycle(walk)]
    pub(crate) fn visit_all(
        &mut self,
        old: &Interner,
        ids: &[NodeId],
        before: usize,
    ) -> Result<(), BlastError>
        requires { AllByRecursion (λ place. place < before) (places_of ids.now) }
        ensures { (ts : PlainTerms) (vs : Variables) →
            all_found (meanings (nodes_of old.now)) (places_of ids.now) ≡ Some
            (map TermMeaning (list_of_terms ts)) → IsTrue (typed_all ts) →
            IsWalk old.now self.old vs →
            Walks old.now self.old self.new (walked_all vs ts) ids.now result }
    {
        for id in ids {
            self.visit(old, *id)?;
        }
        Ok(())
    }

    /// Walks over the arguments of a call, and refuses the call.
    #[cycle(walk)]
    fn refuse_call(
        &mut self,
        old: &Interner,
        parts: &[NodeId],
        before: usize,
    ) -> Result<(), BlastError>
        requires { AllByRecursion (λ place. place < before) (places_of parts.now) }
        ensures { (f : PlainFunction) (ts : PlainTerms) (vs : Variables) →
            all_found (meanings (nodes_of old.now)) (places_of parts.now) ≡ Some
            (FunctionMeaning f ∷ map TermMeaning (list_of_terms ts)) → IsTrue (typed_all ts) →
            IsWalk old.now self.old vs →
            Walks old.now self.old self.new (behind_parts (UufOp f) (walked_all vs ts)) [] result }
    {
        let Some((function, arguments)) = parts.split_first() else {
            return Err(BlastError::Memory);
        };
        self.visit_all(old, arguments, before)?;
        Err(BlastError::Unsupported(made_function(self.alloc, old, *function)?))
    }
}
