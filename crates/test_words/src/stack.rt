//! What the words of a row take of the stack on which they leave what they make, and pairs and fields of such terms.
ghost use Rattle.std.specs.Prelude.{◌≡◌, ◌+◌, [], ◌∷◌, ◌++◌, IfOk, length};

use crate::spelling::texts;
use anyhow::{Context, Result};
use smt_term::{Attr, Term};
use std::alloc::Global;

/// The last item, which the stack then has no longer.
pub fn one<T: Drop>(stack: &mut Vec<T>) -> Result<T>
    ensures { IfOk result (λ x. stack.old.items ≡ stack.new.items ++ x ∷ []) }
{
    stack.pop().context("the stack has no item left")
}

/// The last two items, which the stack then has no longer.
pub fn two<T: Drop>(stack: &mut Vec<T>) -> Result<(T, T)>
    ensures { IfOk result (λ x. stack.old.items ≡ stack.new.items ++ x.0 ∷ x.1 ∷ []) }
{
    let second = one(stack)?;
    Ok((one(stack)?, second))
}

// How many stand before so many last ones.
fn before(len: usize, count: usize) -> Result<usize>
    ensures { IfOk result (λ left. left + count ≡ len) }
{
    len.checked_sub(count)
        .context("the stack has too few items")
}

/// So many last items, which the stack then has no longer.
pub fn taken<T: Drop>(stack: &mut Vec<T>, count: usize) -> Result<Vec<T>>
    ensures all { IfOk result (λ xs. stack.old.items ≡ stack.new.items ++ xs.items) }
    ensures count { IfOk result (λ xs. length xs.items ≡ count) }
{
    let left = before(stack.len(), count)?;
    Ok(stack.split_off(left)?)
}

/// The items before so many last ones, and these.
pub fn last_of<T>(stack: &[T], count: usize) -> Result<(&[T], &[T])>
    ensures all { IfOk result (λ x. x.0.now ++ x.1.now ≡ stack.now) }
    ensures count { IfOk result (λ x. length x.1.now ≡ count) }
{
    let left = before(stack.len(), count)?;
    Ok(stack.split_at(left))
}

/// A term and the one behind it, and so on.
pub fn pairs(alloc: Global, terms: &[Term]) -> Result<Vec<(Term, Term)>> {
    let mut pairs = Vec::new(alloc);
    for pair in terms.chunks_exact(2) {
        if let [first, second] = pair {
            pairs.push((first.share()?, second.share()?))?;
        }
    }
    Ok(pairs)
}

/// These attributes, each with one of the last terms in order, which the stack then has no longer.
pub fn fields(alloc: Global, terms: &mut Vec<Term>, names: &str) -> Result<Vec<(Attr, Term)>> {
    let names = texts(alloc, names)?;
    let held = taken(terms, names.len())?;
    let mut fields = Vec::new(alloc);
    for (name, term) in names.as_slice().iter().zip(held.as_slice()) {
        fields.push((name.clone()?, term.share()?))?;
    }
    Ok(fields)
}
