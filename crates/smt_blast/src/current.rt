// The numbers of the terms that are current behind steps.
ghost use Rattle.std.specs.Prelude.{◌≡◌, IfOk, IsTrue, List, OnOk, ◌∷◌};
ghost use Rattle.law_jobs.specs.Steps.{PlainStep, current};
ghost use Rattle.law_terms.specs.Plain.{PlainTerm};
ghost use Rattle.smt_jobs.specs.Numbers.{all_steps_stand, step_by, step_stands, steps_by};
ghost use Rattle.smt_nodes.specs.Interned.{StandFor};
ghost use Rattle.smt_blast.specs.Current.{LeadsTo};

use smt_jobs::NumberedStep;
use smt_nodes::{Interner, NodeId};
use std::alloc::{AllocError, Global};

/// The numbers of the terms that are current behind some steps, and how many there were at the moment of each push whose level
/// is open.
#[derive(Drop)]
pub(crate) struct Current {
    ids: Vec<NodeId>,
    counts: Vec<usize>,
}

impl Current {
    /// What is current behind no steps.
    fn new(alloc: Global) -> Current
        ensures { (nodes : Interner) (steps : List PlainStep) →
            LeadsTo nodes result steps (current steps) }
    {
        Current {
            ids: Vec::new(alloc),
            counts: Vec::new(alloc),
        }
    }

    /// What is current behind one more step.
    fn take(&mut self, step: &NumberedStep) -> Result<(), AllocError>
        ensures { (nodes : Interner) (rest : List PlainStep) (ts : List PlainTerm) →
            IsTrue (step_stands nodes step.now) →
            LeadsTo nodes self.old (step_by nodes step.now ∷ rest) ts →
            OnOk result (LeadsTo nodes self.new rest ts) }
    {
        match step {
            NumberedStep::Assert(ids) => self.ids.extend_from_slice(ids.as_slice())?,
            NumberedStep::Push => self.counts.push(self.ids.len())?,
            NumberedStep::Pop => {
                if let Some(count) = self.counts.pop() {
                    self.ids.truncate(count);
                }
            }
            NumberedStep::Check => {}
        }
        Ok(())
    }
}

/// The numbers of the terms that are current behind all steps, in order.
pub(crate) fn current_ids(alloc: Global, steps: &[NumberedStep]) -> Result<Vec<NodeId>, AllocError>
    ensures { (nodes : Interner) → IsTrue (all_steps_stand nodes steps.now) →
        IfOk result (λ ids. StandFor nodes ids.items (current (steps_by nodes steps.now))) }
{
    let mut current = Current::new(alloc);
    for step in steps {
        current.take(step)?;
    }
    Ok(current.ids)
}
