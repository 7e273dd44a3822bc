//! The parts of an expression, and of a list of expressions.
#![tactic(auto, using(crate::specs::View::views))]

ghost use Rattle.std.specs.Prelude.{◌≡◌, option_map};
ghost use Rattle.std.specs.Rc.{rc_str_bytes};
ghost use Rattle.law_texts.specs.Parts as parts;
ghost use Rattle.smt_sexpr.specs.View.{plain, plain_list};

use crate::expression::SExpr;
use smt_text::Text;

/// The name that an expression is, where it is a symbol.
pub fn name_in(expression: &SExpr) -> Option<&Text>
    ensures { option_map (λ name. rc_str_bytes name.now) result
        ≡ parts.name_in (plain expression.now) }
{
    match expression {
        SExpr::Symbol(name) => Some(name),
        SExpr::BitVec(_) | SExpr::Numeral(_) | SExpr::String(_) | SExpr::App(_) => None,
    }
}

/// What stands between the quotes of a string.
pub fn text_in(expression: &SExpr) -> Option<&Text>
    ensures { option_map (λ text. rc_str_bytes text.now) result
        ≡ parts.text_in (plain expression.now) }
{
    match expression {
        SExpr::String(text) => Some(text),
        SExpr::BitVec(_) | SExpr::Numeral(_) | SExpr::Symbol(_) | SExpr::App(_) => None,
    }
}

/// The number that an expression is, where it is a numeral.
pub fn number_in(expression: &SExpr) -> Option<u128>
    ensures { result ≡ parts.number_in (plain expression.now) }
{
    match expression {
        SExpr::Numeral(number) => Some(*number),
        SExpr::BitVec(_) | SExpr::String(_) | SExpr::Symbol(_) | SExpr::App(_) => None,
    }
}

/// What stands in brackets.
pub fn inside_of(expression: &SExpr) -> Option<&[SExpr]>
    ensures { option_map (λ items. plain_list items.now) result
        ≡ parts.inside_of (plain expression.now) }
{
    match expression {
        SExpr::App(inside) => Some(inside.items()),
        SExpr::BitVec(_) | SExpr::Numeral(_) | SExpr::String(_) | SExpr::Symbol(_) => None,
    }
}

/// The one expression of a list that has exactly one.
pub fn sole(items: &[SExpr]) -> Option<&SExpr>
    ensures { option_map (λ item. plain item.now) result ≡ parts.sole (plain_list items.now) }
{
    match items {
        [item] => Some(item),
        _ => None,
    }
}

/// The two expressions of a list that has exactly two.
pub fn both(items: &[SExpr]) -> Option<(&SExpr, &SExpr)>
    ensures { option_map (λ p. (plain p.0.now, plain p.1.now)) result
        ≡ parts.both (plain_list items.now) }
{
    match items {
        [first, second] => Some((first, second)),
        _ => None,
    }
}

/// The three expressions of a list that has exactly three.
pub fn three(items: &[SExpr]) -> Option<(&SExpr, &SExpr, &SExpr)>
    ensures { option_map (λ p. (plain p.0.now, plain p.1.now, plain p.2.now)) result
        ≡ parts.three (plain_list items.now) }
{
    match items {
        [first, second, third] => Some((first, second, third)),
        _ => None,
    }
}

/// The first expression of a list.
pub fn first_in(items: &[SExpr]) -> Option<&SExpr>
    ensures { option_map (λ item. plain item.now) result ≡ parts.first_in (plain_list items.now) }
{
    items.first()
}

/// The first expression of a list, and those behind it.
pub fn first_apart(items: &[SExpr]) -> Option<(&SExpr, &[SExpr])>
    ensures { option_map (λ p. (plain p.0.now, plain_list p.1.now)) result
        ≡ parts.first_apart (plain_list items.now) }
{
    items.split_first()
}

/// The one expression in brackets.
pub fn sole_in(expression: &SExpr) -> Option<&SExpr>
    ensures { option_map (λ item. plain item.now) result ≡ parts.sole_in (plain expression.now) }
{
    sole(inside_of(expression)?)
}

/// The two expressions in brackets.
pub fn pair_in(expression: &SExpr) -> Option<(&SExpr, &SExpr)>
    ensures { option_map (λ p. (plain p.0.now, plain p.1.now)) result
        ≡ parts.pair_in (plain expression.now) }
{
    both(inside_of(expression)?)
}

/// The three expressions in brackets.
pub fn triple_in(expression: &SExpr) -> Option<(&SExpr, &SExpr, &SExpr)>
    ensures { option_map (λ p. (plain p.0.now, plain p.1.now, plain p.2.now)) result
        ≡ parts.triple_in (plain expression.now) }
{
    three(inside_of(expression)?)
}

/// The text of the one expression of a list.
pub fn sole_text(items: &[SExpr]) -> Option<&Text>
    ensures { option_map (λ text. rc_str_bytes text.now) result
        ≡ parts.sole_text (plain_list items.now) }
{
    text_in(sole(items)?)
}

/// What stands behind this head in brackets.
pub fn section<'e>(head: &str, expression: &'e SExpr) -> Option<&'e [SExpr]>
    ensures { option_map (λ items. plain_list items.now) result
        ≡ parts.section head.now (plain expression.now) }
{
    let (first, others) = inside_of(expression)?.split_first()?;
    if head == name_in(first)?.as_str() {
        Some(others)
    } else {
        None
    }
}
