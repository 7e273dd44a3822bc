//! S-expressions and lists of them.
#![tactic(auto, using(crate::specs::View::views))]

ghost use Rattle.std.specs.Prelude.{◌≡◌, [], ◌∷◌, ◌++◌, length, OnOk, OnErr};
ghost use Rattle.smt_sexpr.specs.View.{plain, plains, items_of};

use smt_bits::BitVec;
use smt_text::Text;
use std::alloc::{AllocError, Global};

/// An expression between brackets and spaces (SMT-LIB 2.7, S-expressions).
#[derive(Debug, PartialEq, Eq)]
#[cycle(sexpr)]
pub enum SExpr {
    /// A literal in base 2 or 16: its width is that of its digits.
    BitVec(BitVec),
    /// A number in decimal digits, without a sign.
    Numeral(u128),
    /// The characters between the quotes, a doubled quote counted once.
    String(Text),
    /// A name or a reserved word.
    Symbol(Text),
    /// What stands between two brackets.
    App(SExprs),
}

// By hand, since a derived one is written out in each function that lets an expression go.
impl Drop for SExpr {
    #[cycle(sexpr)]
    fn drop(self) {
        match self {
            SExpr::BitVec(_) | SExpr::Numeral(_) => {}
            SExpr::String(_) | SExpr::Symbol(_) => {}
            SExpr::App(_) => {}
        }
    }
}

/// A list of expressions.
#[derive(Debug, PartialEq, Eq, Drop)]
#[cycle(sexpr)]
pub struct SExprs {
    items: Vec<SExpr>,
}

impl SExprs {
    /// The empty list. It takes no memory.
    pub fn new(alloc: Global) -> SExprs
        ensures { plains result ≡ [] }
    {
        SExprs {
            items: Vec::new(alloc),
        }
    }

    /// Appends an expression. An `Err` changes nothing but that `item` is gone.
    pub fn push(&mut self, item: SExpr) -> Result<(), AllocError>
        ensures ok { OnOk result (plains self.new ≡ plains self.old ++ plain item ∷ []) }
        ensures err { OnErr result (plains self.new ≡ plains self.old) }
    {
        self.items.push(item)?;
        Ok(())
    }

    /// How many expressions there are.
    pub fn len(&self) -> usize
        ensures { result ≡ length (plains self.now) }
    {
        self.items.len()
    }

    /// The expressions in their order.
    pub fn items(&self) -> &[SExpr]
        ensures { result.now ≡ items_of self.now }
    {
        self.items.as_slice()
    }
}
