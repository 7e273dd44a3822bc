// The variables and the terms of generated jobs.
ghost use Rattle.std.specs.Prelude.{◌≡◌, ◌+◌, ◌%◌, ◌<◌, IfOk};
ghost use Rattle.law_terms.specs.Plain.{PlainTerm};
ghost use Rattle.smt_term.specs.View.{BuildsTerm, plain_variable};
ghost use Rattle.smt_cli.specs.Generated.{comparison, next_number, sum_at, variable_at};
ghost use Rattle.smt_cli.specs.Generated.{variable_id};

use smt_bits::{BitVec, SIXTY_FOUR};
use smt_factory_core::{bvadd, bvslt};
use smt_term::{Term, TermError, TermType, TermVar, Text};
use std::alloc::Global;

/// How many variables a job has.
pub(crate) const VARIABLES: u32 = 8;

/// The number behind a number.
pub(crate) fn next_number(number: u64) -> u64
    ensures { result ≡ next_number number }
{
    number
        .wrapping_mul(6_364_136_223_846_793_005)
        .wrapping_add(1_442_695_040_888_963_407)
}

/// The id of a variable.
fn variable_id(number: u32) -> &'static str
    requires { number < 8 }
    ensures { result.now ≡ variable_id number }
{
    match number {
        0 => "x0",
        1 => "x1",
        2 => "x2",
        3 => "x3",
        4 => "x4",
        5 => "x5",
        6 => "x6",
        _ => "x7",
    }
}

/// A variable, by its number.
pub(crate) fn variable(alloc: Global, number: u32) -> Result<TermVar, TermError>
    requires { number < 8 }
    ensures { IfOk result (λ variable. plain_variable variable ≡ variable_at number) }
{
    Ok(TermVar {
        id: Text::from_str(alloc, variable_id(number))?,
        ty: TermType::Bitvec { n: SIXTY_FOUR },
    })
}

/// The variable of a place.
fn variable_at(alloc: Global, place: u32) -> Result<Term, TermError>
    ensures { BuildsTerm result (variable_at place) }
{
    Ok(Term::from(variable(alloc, place % VARIABLES)?))
}

/// The sum of the variables of a place and the next one.
fn sum_at(alloc: Global, place: u32) -> Result<Term, TermError>
    requires { place < u32.MAX }
    ensures { BuildsTerm result (sum_at place) }
{
    let first = variable_at(alloc, place)?;
    let second = variable_at(alloc, place + 1)?;
    bvadd(alloc, first, second)
}

/// Whether the sum at a place is less than a number.
pub(crate) fn comparison(alloc: Global, place: u32, number: u64) -> Result<Term, TermError>
    requires { place < u32.MAX }
    ensures { BuildsTerm result (comparison place number) }
{
    let sum = sum_at(alloc, place)?;
    let number = Term::from(BitVec::of_nat(SIXTY_FOUR, u128::from(number)));
    bvslt(alloc, sum, number)
}
