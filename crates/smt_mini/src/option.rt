// The datatype Option as the first lines of a script declare it.
ghost use Rattle.std.specs.Prelude.{◌≡◌, ◌∷◌, [], codes};
ghost use Rattle.law_texts.specs.Reading.{expressions};
ghost use Rattle.law_scripts.specs.Script.{group, name, operands};
ghost use Rattle.law_scripts.specs.Sorts.{same_sort, same_sorts};
ghost use Rattle.law_scripts.specs.Written.{option_command};
ghost use Rattle.smt_sexpr.specs.View.{plain, plain_list};
ghost use Rattle.smt_mini.specs.OptionLine.{body, constructors, parameters, selector};
ghost use Rattle.smt_mini.specs.OptionLine.{some_constructor};

use crate::within::is_named;
use smt_sexpr::{SExpr, both, first_apart, inside_of, pair_in, sole_in};

/// Whether the expression is one name in brackets.
fn is_alone(expression: &SExpr, word: &str) -> bool
    ensures { result ≡ same_sort (plain expression.now) (group (name word.now ∷ [])) }
{
    match sole_in(expression) {
        Some(item) => is_named(item, word),
        None => false,
    }
}

/// Whether the expression is `(val X)`.
fn is_selector(expression: &SExpr) -> bool
    ensures { result ≡ same_sort (plain expression.now) selector }
{
    match pair_in(expression) {
        Some((selector, sort)) => is_named(selector, "val") && is_named(sort, "X"),
        None => false,
    }
}

/// Whether the expression is `(some (val X))`.
fn is_some_constructor(expression: &SExpr) -> bool
    ensures { result ≡ same_sort (plain expression.now) some_constructor }
{
    match pair_in(expression) {
        Some((constructor, selector)) => is_named(constructor, "some") && is_selector(selector),
        None => false,
    }
}

/// Whether the expression is `((none) (some (val X)))`.
fn are_constructors(expression: &SExpr) -> bool
    ensures { result ≡ same_sort (plain expression.now) constructors }
{
    match pair_in(expression) {
        Some((none, some)) => is_alone(none, "none") && is_some_constructor(some),
        None => false,
    }
}

/// Whether the expressions are `(X) ((none) (some (val X)))`.
fn are_parameters(items: &[SExpr]) -> bool
    ensures { result ≡ same_sorts (plain_list items.now) (expressions parameters) }
{
    match both(items) {
        Some((parameters, constructors)) => is_alone(parameters, "X")
            && are_constructors(constructors),
        None => false,
    }
}

/// Whether the expressions are `par (X) ((none) (some (val X)))`.
fn are_body(items: &[SExpr]) -> bool
    ensures { result
        ≡ same_sorts (plain_list items.now) (expressions (name (codes "par") ∷ parameters)) }
{
    match first_apart(items) {
        Some((par, rest)) => is_named(par, "par") && are_parameters(rest),
        None => false,
    }
}

/// Whether the expression is `(par (X) ((none) (some (val X))))`.
fn is_body(expression: &SExpr) -> bool
    ensures { result ≡ same_sort (plain expression.now) body }
{
    match inside_of(expression) {
        Some(items) => are_body(items),
        None => false,
    }
}

/// Whether these operands of `declare-datatype` declare the datatype Option.
pub fn are_options(items: &[SExpr]) -> bool
    ensures { result ≡ same_sorts (plain_list items.now) (expressions (operands option_command)) }
{
    match both(items) {
        Some((name, body)) => is_named(name, "Option") && is_body(body),
        None => false,
    }
}
