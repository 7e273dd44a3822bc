// Which literals are taken to be true.
ghost use Rattle.std.specs.Prelude.{◌≡◌, ◌<◌, ◌≤◌, ◌↔◌, ◌⊎◌, ℕ, IfOk, IsTrue, slice_index, vec_len};
ghost use Rattle.std.specs.Prelude.{false};
ghost use Rattle.smt_clauses.specs.Stamps.{AreTakenBack, IsStamp, kept_stamp};

use crate::literal::Literal;
use std::alloc::{AllocError, Global};

/// The stamp of a literal that is marked for good.
const FOR_GOOD: u32 = u32::MAX;

/// A stamp where all marks but those for good are taken back.
fn kept_stamp(stamp: u32) -> u32
    ensures { result ≡ kept_stamp stamp }
{
    if stamp < FOR_GOOD { 0 } else { stamp }
}

/// Takes back the stamps of all literals that are not marked for good.
fn take_back(stamps: &mut Vec<u32>)
    ensures stamps { AreTakenBack stamps.old.items stamps.new.items }
    ensures len { vec_len stamps.new ≡ vec_len stamps.old }
{
    for stamp in stamps.iter_mut() {
        *stamp = kept_stamp(*stamp);
    }
}

/// Literals that are taken to be true: for good, or since the last [`Marks::forget`].
///
/// Each literal has a stamp, which is the epoch in which it was marked. So to forget marks is to begin an epoch.
#[derive(Drop)]
pub struct Marks {
    stamps: Vec<u32>,
    epoch: u32,
    ghost positive: { 0 < epoch },
    ghost below: { epoch < 4294967295 },
    ghost stamped: { (k : ℕ) → IsStamp epoch (slice_index stamps.items k) },
}

impl Marks {
    ghost use Rattle.smt_clauses.specs.Marked.{AddsMark, IsKept, IsMarked, KeepsMarks, KeepsNoMore};
    ghost use Rattle.smt_clauses.specs.Marked.{width_of};

    /// No literal is marked, of so many. A greater one never is.
    pub fn new(alloc: Global, literals: usize) -> Result<Marks, AllocError>
        ensures none { IfOk result (λ m. (k : ℕ) → IsMarked m k → ⊥) }
        ensures width { IfOk result (λ m. width_of m ≡ literals) }
    {
        let stamps = vec![in alloc; 0; literals]?;
        Ok(Marks { stamps, epoch: 1 })
    }

    /// Whether a literal is marked.
    pub fn is_marked(&self, literal: Literal) -> bool
        ensures { IsTrue result ↔ IsMarked self.now literal }
    {
        match self.stamps.get(literal as usize) {
            Some(stamp) => self.epoch <= *stamp,
            None => false,
        }
    }

    /// Marks a literal, for good or until the next [`Marks::forget`].
    pub fn mark(&mut self, literal: Literal, kept: bool)
        ensures marked { AddsMark self.old self.new literal }
        ensures kept { kept ≡ false → KeepsNoMore self.old self.new }
        ensures done { literal < width_of self.old → IsMarked self.new literal }
        ensures stays { KeepsMarks self.old self.new }
        ensures width { width_of self.new ≡ width_of self.old }
    {
        let stamp = if kept { FOR_GOOD } else { self.epoch };
        if let Some(slot) = self.stamps.get_mut(literal as usize) {
            *slot = stamp;
        }
    }

    /// Forgets all marks but those for good.
    pub fn forget(&mut self)
        ensures forgotten { (k : ℕ) → IsMarked self.new k → IsKept self.old k }
        ensures kept { (k : ℕ) → IsKept self.new k ↔ IsKept self.old k }
        ensures width { width_of self.new ≡ width_of self.old }
    {
        if self.epoch < FOR_GOOD - 1 {
            self.epoch += 1;
        } else {
            take_back(&mut self.stamps);
            self.epoch = 1;
        }
    }
}

#[cfg(test)]
mod tests {
    use super::*;

    #[test]
    fn epochs_begin_again(rt: HostRuntime) {
        let mut marks = Marks::new(rt.alloc(), 8).expect(&rt, "memory for a test");
        marks.epoch = u32::MAX - 1;
        marks.mark(0, true);
        marks.mark(1, false);
        assert!(rt; marks.is_marked(0) && marks.is_marked(1), "both are marked");
        marks.forget();
        assert!(rt; marks.epoch == 1, "the first epoch");
        assert!(rt; marks.is_marked(0) && !marks.is_marked(1), "one stays");
        marks.mark(2, false);
        marks.forget();
        assert!(rt;
            marks.is_marked(0) && !marks.is_marked(2),
            "one stays again"
        );
    }
}
