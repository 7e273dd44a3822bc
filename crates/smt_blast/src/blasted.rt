// Blasted terms.
use crate::variable::BitVarList;
use smt_nodes::{IdList, Interner};

/// Boolean terms that stand for the bits of old terms.
pub struct Blasted {
    /// The new terms, by number.
    pub nodes: Interner,
    /// One new term for each old root, in order.
    pub roots: IdList,
    /// The variables of the old terms, in the order of their numbers.
    pub vars: BitVarList,
}

// By hand, since a derived one is written out in each function that lets it go.
impl Drop for Blasted {
    fn drop(self) {
        let Blasted {
            nodes: _,
            roots: _,
            vars: _,
        } = self;
    }
}
