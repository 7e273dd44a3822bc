// What nodes stand for.
use smt_term::{Term, TermType, Uuf};

/// What a node can stand for.
#[derive(Clone, Copy)]
pub enum Subject<'a> {
    /// A term.
    Term(&'a Term),
    /// A type.
    Type(&'a TermType),
    /// An uninterpreted function.
    Function(&'a Uuf),
}
