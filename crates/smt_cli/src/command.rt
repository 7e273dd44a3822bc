// What the program does by its words, and what it says of itself.
ghost use Rattle.std.specs.Prelude.{◌≡◌, IfOk, IsOkUnless, Some};
ghost use Rattle.std.specs.Rc.{rc_str_bytes};
ghost use Rattle.law_texts.specs.SharedTexts.{texts};
ghost use Rattle.smt_solve.specs.Starter.{command_of as solver_call};
ghost use Rattle.smt_cli.specs.Words.{commanded, count_within, generate_by, generation_in};
ghost use Rattle.smt_cli.specs.Words.{generation_named, number_named, solver_named};

use smt_runs::Texts;
use smt_solve::{SolverCommand, SolverError};
use smt_term::Text;
use smt_text::digits;
use std::alloc::Global;

/// What the program says of itself.
pub(crate) const TEXTS: Texts = Texts {
    help: HELP,
    version: VERSION,
    usage: USAGE,
};

/// What `smtcli --help` prints.
pub(crate) const HELP: &str = "\
usage: smtcli script or check PATH ARGS.. or gen SEED N

script  reads a job from standard input and prints its script in SMT-LIB 2.7
check   reads a job from standard input, asks the solver PATH with these ARGS whether its terms can be true together, and
        prints sat, unsat or unknown for each check; it waits as long as the solver takes, so put a limit in front:
        smtcli check timeout 60 cvc5 --lang smt --incremental --strings-exp < FILE
gen     makes a job of N terms from the number SEED, N from 1 to 100000 and SEED below 2^64, and prints six lines: how many
        terms it has, how many variables, definitions, assertions and bytes its script has, and the sum of these bytes

job:  (job (enums (\"T\" \"member\" ..) ..) (vars (\"id\" TYPE) ..) (funs (\"id\" TYPE TYPE) ..) (terms t ..)), or (steps S ..) for
      the terms; ; begins a comment, and \\u{e9} in a string is the character of this code point
S:    (assert t ..), (push), (pop) or (check); with terms, one check stands behind them
TYPE: Bool, (BitVec N), String, (Entity \"T\"), (Option TYPE), (Set TYPE), (Record (\"a\" TYPE) ..), Decimal, IpAddr, Datetime
      or Duration
t:    true, false, \"text\", #b01, #x2a, (bv N NUMBER), (long \"-5\"), (entity \"T\" \"id\"), (decimal \"-1.5\"),
      (ip \"10.0.0.0/8\"), (datetime \"2024-10-15\"), (duration \"1d2h\"), (none TYPE), (some t), (set TYPE t ..),
      (record (\"a\" t) ..), (var \"id\"), (uuf \"id\" t), (record.get \"a\" t), (string.like (\"text\" * ..) t),
      (zero_extend N t) or (name t ..)
name: not and or eq ite option.get set.member set.subset set.inter bvneg bvadd bvsub bvmul bvudiv bvurem bvsdiv bvsrem bvsmod
      bvshl bvlshr bvult bvule bvslt bvsle bvnego bvsaddo bvssubo bvsmulo decimal.val ipaddr.isV4 ipaddr.addrV4 ipaddr.addrV6
      ipaddr.prefixV4 ipaddr.prefixV6 datetime.val datetime.ofBitVec duration.val duration.ofBitVec

status: 0 done, 2 no such command, 3 job refused, 4 no script for a term, 5 source fault, 6 sink fault, 7 out of memory,
        8 session fault, 9 the solver did not start; what a solver says on its standard error is shown as it comes
";

/// What `smtcli --version` prints.
pub(crate) const VERSION: &str = "smtcli 0.1.0 (rattle-kit-13f logic dac8208d650f15bf)\n";

/// The line that is said of words that are no command.
pub const USAGE: &str = "usage: smtcli script or check PATH ARGS.. or gen SEED N\n";

/// What the program does by its words.
#[derive(Clone, Copy, Debug, PartialEq, Eq, Drop)]
pub enum Command {
    /// `script`: the script of a job.
    Script,
    /// `check PATH ARGS..`: the verdict of a solver on a job.
    Check,
    /// `gen SEED N`: the summary of a generated job.
    Generate,
}

/// The greatest number of terms that a generated job may have.
const GREATEST_COUNT: u64 = 100_000;

/// The number below 2 to the 64 that a word writes in digits alone.
fn number_in(word: &Text) -> Option<u64>
    ensures { result ≡ number_named (rc_str_bytes word.now) }
{
    let digits = word.as_str().as_bytes();
    if digits::are_digits(digits) {
        digits::number(digits)
    } else {
        None
    }
}

/// How many terms a job is to have, where it may have so many.
fn count_of(number: u64) -> Option<u32>
    ensures { result ≡ count_within number }
{
    if 1 <= number && number <= GREATEST_COUNT {
        Some(number as u32)
    } else {
        None
    }
}

/// The seed and the number of terms that two words write.
fn generation_in(seed: &Text, count: &Text) -> Option<(u64, u32)>
    ensures { result ≡ generation_in (rc_str_bytes seed.now) (rc_str_bytes count.now) }
{
    let seed = number_in(seed)?;
    let count = count_of(number_in(count)?)?;
    Some((seed, count))
}

/// The seed and the number of terms that `gen` names, None where the words are others.
fn generation_of(words: &[Text]) -> Option<(u64, u32)>
    ensures { result ≡ generation_named (texts words.now) }
{
    match words {
        [word, seed, count] => match word.as_str() {
            "gen" => generation_in(seed, count),
            _ => None,
        },
        _ => None,
    }
}

/// `Generate`, where the words name a generated job.
fn generate_of(words: &[Text]) -> Option<Command>
    ensures { result ≡ generate_by (generation_named (texts words.now)) }
{
    match generation_of(words) {
        Some(_) => Some(Command::Generate),
        None => None,
    }
}

/// What the words name, None where they are no command of the program's own.
pub(crate) fn command_of(words: &[Text]) -> Option<Command>
    ensures { result ≡ commanded (texts words.now) }
{
    match words {
        [word] => match word.as_str() {
            "script" => Some(Command::Script),
            _ => None,
        },
        [word, _, ..] => match word.as_str() {
            "check" => Some(Command::Check),
            _ => generate_of(words),
        },
        [] => None,
    }
}

/// The solver that the words of `check` name, with its arguments.
pub(crate) fn solver_of(alloc: Global, words: &[Text]) -> Result<SolverCommand, SolverError>
    requires { commanded (texts words.now) ≡ Some Command.Check }
    ensures named { IfOk result (λ solver. solver_call solver ≡ solver_named (texts words.now)) }
    ensures refusal { IsOkUnless result SolverError.Memory }
{
    SolverCommand::new(alloc, words[1].as_str(), &words[2..])
}

/// The seed and the number of terms that the words of `gen` name.
pub(crate) fn seed_and_count(words: &[Text]) -> (u64, u32)
    requires { commanded (texts words.now) ≡ Some Command.Generate }
    ensures { generation_named (texts words.now) ≡ Some result }
{
    match generation_of(words) {
        Some(generation) => generation,
        None => unreachable!(),
    }
}
