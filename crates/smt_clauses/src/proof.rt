// The steps of a proof.
ghost use Rattle.std.specs.Prelude.{◌≡◌, ◌++◌, ◌∷◌, [], ◌↔◌, IsTrue, length, slice_get, OnErr};
ghost use Rattle.std.specs.Prelude.{OnOk, false, true};
ghost use Rattle.smt_clauses.specs.View.{plain_clauses};

use crate::clause_list::ClauseList;
use crate::literal::Literal;
use std::alloc::{AllocError, Global};

/// The steps of a proof, in order. Each adds a clause or deletes one.
#[derive(Drop)]
pub struct Proof {
    pub(crate) clauses: ClauseList,
    pub(crate) deletes: Vec<bool>,
    ghost paired: { length deletes.items ≡ length (plain_clauses clauses) },
}

impl Proof {
    ghost use Rattle.smt_clauses.specs.ProofView.{plain_steps};

    /// No step.
    pub fn new(alloc: Global) -> Proof
        ensures { plain_steps result ≡ [] }
    {
        Proof {
            clauses: ClauseList::new(alloc),
            deletes: Vec::new(alloc),
        }
    }

    /// How many steps there are.
    pub fn len(&self) -> usize
        ensures { result ≡ length (plain_steps self.now) }
    {
        self.deletes.len()
    }

    /// Whether there is none.
    pub fn is_empty(&self) -> bool
        ensures { IsTrue result ↔ (length (plain_steps self.now) ≡ 0) }
    {
        self.len() == 0
    }

    /// One more step, at the end, which adds a clause. An error leaves the steps as they were.
    pub fn add(&mut self, clause: &[Literal]) -> Result<(), AllocError>
        ensures ok { OnOk result
            (plain_steps self.new ≡ plain_steps self.old ++ (false, clause.now) ∷ []) }
        ensures err { OnErr result (plain_steps self.new ≡ plain_steps self.old) }
    {
        self.push(false, clause)
    }

    /// One more step, at the end, which deletes a clause. An error leaves the steps as they were.
    ///
    /// The literals may stand in any order. Where no such clause is there, the step changes nothing, and a literal that was found
    /// to be true in all solutions stays so where its clause is deleted.
    pub fn delete(&mut self, clause: &[Literal]) -> Result<(), AllocError>
        ensures ok { OnOk result
            (plain_steps self.new ≡ plain_steps self.old ++ (true, clause.now) ∷ []) }
        ensures err { OnErr result (plain_steps self.new ≡ plain_steps self.old) }
    {
        self.push(true, clause)
    }

    /// Whether the step at a place deletes its clause.
    pub(crate) fn deletes_at(&self, place: usize) -> Option<bool>
        ensures { result ≡ slice_get self.now.deletes.items place }
    {
        self.deletes.get(place).copied()
    }

    /// One more step.
    fn push(&mut self, deletes: bool, clause: &[Literal]) -> Result<(), AllocError>
        ensures ok { OnOk result
            (plain_steps self.new ≡ plain_steps self.old ++ (deletes, clause.now) ∷ []) }
        ensures err { OnErr result (plain_steps self.new ≡ plain_steps self.old) }
    {
        self.deletes.push(deletes)?;
        match self.clauses.push(clause) {
            Ok(()) => Ok(()),
            Err(error) => {
                self.deletes.pop();
                Err(error)
            }
        }
    }
}
