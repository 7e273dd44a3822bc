// Functions of one argument.
#![tactic(auto, using(crate::specs::View::views))]

ghost use Rattle.std.specs.Prelude.{◌≡◌, IfOk, map};
ghost use Rattle.std.specs.List.{list_all};
ghost use Rattle.smt_term.specs.Functions.{plain_definition, plain_unary};
ghost use Rattle.smt_term.specs.Tables.{plain_entry};
ghost use Rattle.law_terms.specs.Functions.{argument_type, is_literal_definition, is_literal_entry};
ghost use Rattle.law_terms.specs.Functions.{is_literal_function, output_type};
ghost use Rattle.smt_term.specs.View.{plain_type};

use crate::table::TermTable;
use crate::{Term, TermError, TermType, Uuf};
use std::rc::Rc;

/// A function that a table defines.
#[derive(Debug, PartialEq, Eq, PartialOrd, Ord)]
pub struct Udf {
    /// The type of its argument.
    pub arg: TermType,
    /// The type of its values.
    pub out: TermType,
    /// Its values at some arguments.
    pub table: TermTable,
    /// Its value at every other argument.
    pub default: Term,
}

// By hand, since a derived one is written out in each function that lets a function go.
impl Drop for Udf {
    fn drop(self) {
        let Udf {
            arg: _,
            out: _,
            table: _,
            default: _,
        } = self;
    }
}

/// A function of one argument.
#[derive(Debug, PartialEq, Eq, PartialOrd, Ord)]
pub enum UnaryFunction {
    /// One that an interpretation gives.
    Uuf(Rc<Uuf>),
    /// One that a table defines.
    Udf(Rc<Udf>),
}

// By hand, since a derived one is written out in each function that lets a function go.
impl Drop for UnaryFunction {
    fn drop(self) {
        match self {
            UnaryFunction::Uuf(_) => {}
            UnaryFunction::Udf(_) => {}
        }
    }
}

impl Udf {
    /// Whether its default, and each argument and value of its table, is a literal.
    pub fn is_literal(&self) -> bool
        ensures { result ≡ is_literal_definition (plain_definition self.now) }
    {
        are_literal(self.table.items()) && self.default.is_literal()
    }

    /// An equal function that shares its types and its terms.
    ///
    /// # Errors
    /// `Memory`, where there is none for the function.
    pub fn share(&self) -> Result<Udf, TermError>
        ensures { IfOk result (λ shared. plain_definition shared ≡ plain_definition self.now) }
    {
        Ok(Udf {
            arg: self.arg.share()?,
            out: self.out.share()?,
            table: self.table.share()?,
            default: self.default.share()?,
        })
    }
}

impl UnaryFunction {
    /// The type of its argument.
    pub fn arg_type(&self) -> &TermType
        ensures { plain_type result.now ≡ argument_type (plain_unary self.now) }
    {
        match self {
            UnaryFunction::Uuf(function) => &function.arg,
            UnaryFunction::Udf(function) => &function.arg,
        }
    }

    /// The type of its values.
    pub fn out_type(&self) -> &TermType
        ensures { plain_type result.now ≡ output_type (plain_unary self.now) }
    {
        match self {
            UnaryFunction::Uuf(function) => &function.out,
            UnaryFunction::Udf(function) => &function.out,
        }
    }

    /// Whether a table of literals defines it, with a literal for every other argument.
    pub fn is_literal(&self) -> bool
        ensures { result ≡ is_literal_function (plain_unary self.now) }
    {
        match self {
            UnaryFunction::Uuf(_) => false,
            UnaryFunction::Udf(function) => function.is_literal(),
        }
    }

    /// An equal function that shares its parts.
    ///
    /// # Errors
    /// `Memory`, where there is none for the function.
    pub fn share(&self) -> Result<UnaryFunction, TermError>
        ensures { IfOk result (λ shared. plain_unary shared ≡ plain_unary self.now) }
    {
        match self {
            UnaryFunction::Uuf(function) => Ok(UnaryFunction::Uuf(function.clone()?)),
            UnaryFunction::Udf(function) => Ok(UnaryFunction::Udf(function.clone()?)),
        }
    }
}

// Whether each of the pairs is of literals.
fn are_literal(entries: &[(Term, Term)]) -> bool
    ensures { result ≡ list_all is_literal_entry (map plain_entry entries.now) }
{
    for (argument, value) in entries {
        if !argument.is_literal() || !value.is_literal() {
            return false;
        }
    }
    true
}
