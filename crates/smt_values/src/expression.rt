#![tactic(auto, using(crate::specs::ValueView::value_views))]
// Restricted expressions and lists of them.
ghost use Rattle.std.specs.Prelude.{◌≡◌, ◌++◌, ◌∷◌, [], IfOk, OnErr, OnOk, length, map};
ghost use Rattle.smt_values.specs.ValueView.{expressions_held, plain_expression, plain_expressions};

use crate::literal::Literal;
use smt_term::{TermError, Text};
use smt_text::share_text;
use std::alloc::{AllocError, Global};

/// An expression that needs no request to have a value: by such an expression Cedar says an extension value.
#[derive(Debug, PartialEq, Eq)]
#[cycle(expression)]
pub enum RestrictedExpr {
    /// A literal.
    Lit(Literal),
    /// A call of an extension function.
    Call {
        /// The name of the function.
        name: Text,
        /// The arguments, in order.
        args: ExprList,
    },
    /// Any other expression, such as a set or a record.
    Other,
}

// By hand, so that what lets an expression go calls this, and has no account of its parts.
impl Drop for RestrictedExpr {
    #[cycle(expression)]
    fn drop(self) {
        match self {
            RestrictedExpr::Lit(_) => {}
            RestrictedExpr::Call { name: _, args: _ } => {}
            RestrictedExpr::Other => {}
        }
    }
}

/// A list of expressions in the order in which they were given.
#[derive(Debug, PartialEq, Eq, Drop)]
#[cycle(expression)]
pub struct ExprList {
    items: Vec<RestrictedExpr>,
}

impl ExprList {
    /// The empty list. Takes no memory.
    pub fn new(alloc: Global) -> ExprList
        ensures { expressions_held result ≡ [] }
    {
        ExprList {
            items: Vec::new(alloc),
        }
    }

    /// The list of these expressions, in this order. Takes no memory.
    pub fn of_items(items: Vec<RestrictedExpr>) -> ExprList
        ensures { expressions_held result ≡ items.items }
    {
        ExprList { items }
    }

    /// Appends an expression.
    ///
    /// # Errors
    /// Want of memory. The list stays as it is.
    pub fn push(&mut self, item: RestrictedExpr) -> Result<(), AllocError>
        ensures pushed { OnOk result
            (expressions_held self.new ≡ expressions_held self.old ++ item ∷ []) }
        ensures unchanged { OnErr result (expressions_held self.new ≡ expressions_held self.old) }
    {
        self.items.push(item)?;
        Ok(())
    }

    /// How many expressions it has.
    pub fn len(&self) -> usize
        ensures { result ≡ length (expressions_held self.now) }
    {
        self.items.len()
    }

    /// The expressions, in order.
    pub fn items(&self) -> &[RestrictedExpr]
        ensures { result.now ≡ expressions_held self.now }
    {
        self.items.as_slice()
    }

    /// An equal list, whose texts are shared.
    ///
    /// # Errors
    /// `Memory`, where there is none for the list.
    #[cycle(share)]
    pub fn share(&self) -> Result<ExprList, TermError>
        ensures { IfOk result (λ shared. plain_expressions shared ≡ plain_expressions self.now) }
    {
        let mut items: Vec<RestrictedExpr> = Vec::new(*self.items.allocator());
        for item in self.items() {
            items.push(item.share()?)?;
        }
        Ok(ExprList { items })
    }
}

impl RestrictedExpr {
    /// An equal expression, whose texts are shared.
    ///
    /// # Errors
    /// `Memory`, where there is none for the expression.
    #[cycle(share)]
    pub fn share(&self) -> Result<RestrictedExpr, TermError>
        ensures { IfOk result (λ shared. plain_expression shared ≡ plain_expression self.now) }
    {
        match self {
            RestrictedExpr::Lit(literal) => Ok(RestrictedExpr::Lit(literal.share()?)),
            RestrictedExpr::Call { name, args } => Ok(RestrictedExpr::Call {
                name: share_text(name)?,
                args: args.share()?,
            }),
            RestrictedExpr::Other => Ok(RestrictedExpr::Other),
        }
    }
}
