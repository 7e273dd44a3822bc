// Bytes that proofs alone know.
ghost use Rattle.std.specs.Prelude.{◌≡◌, ℕ, List, [], ◌++◌};
ghost use Rattle.std.specs.Borrow.{ftrue};
ghost use Rattle.std.specs.Coded.{coded_list, coded_ℕ};

use std::marker::Model;

/// A list of bytes that exists in proofs alone.
///
/// It is data that nothing holds at run time: a `Told` takes no memory, and its calls do nothing. What the list is, the
/// clauses of these calls say and nothing else does: empty at first, and longer by the bytes of each `append`. By itself it
/// says nothing of what a program does. That the count and the sum agree with it are the two facts of `CountSink`, which each
/// call of a `CountSink` has to keep.
#[derive(Debug, Drop)]
pub(crate) struct Told {
    pub(crate) ghost bytes: { List ℕ } by { coded_list coded_ℕ },
}

impl Model for Told {
    ghost also_owns = { λ _. ftrue };
}

impl Told {
    /// The empty list.
    pub(crate) fn new() -> Told
        ensures { result.bytes ≡ [] }
    {
        Told {}
    }

    /// Adds these bytes at the end.
    pub(crate) fn append(&mut self, _bytes: &[u8])
        ensures { self.new.bytes ≡ self.old.bytes ++ _bytes.now }
    {}
}
