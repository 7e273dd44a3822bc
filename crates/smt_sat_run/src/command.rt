// What the words of a command line ask for.
ghost use Rattle.std.specs.Prelude.{◌≡◌, bytes_eq, codes, option_map};
ghost use Rattle.law_texts.specs.SharedTexts.{texts};
ghost use Rattle.std.specs.Rc.{rc_str_bytes};
ghost use Rattle.smt_sat_run.specs.Words.{commanded, file_of, limit_of, option_asks, word_asks};

use smt_text::Text;
use smt_text::digits::{are_digits, number};

/// What `smtsat --help` prints.
pub(crate) const HELP: &str = "\
usage: smtsat [--conflicts N | --proof FILE] < FORMULA

Reads a formula in conjunctive normal form from standard input, in the format DIMACS, and searches for truths of its variables that
make all clauses true. Prints what was found, as solvers print it:

  s SATISFIABLE     and lines that begin with v: the literals that are true, of all variables in order, and a 0 behind them
  s UNSATISFIABLE   no truths of the variables make all clauses true
  s UNKNOWN         neither was found

--conflicts N    searches over at most N conflicts, below 2^64
--proof FILE     checks a proof in place of searching: DRAT as text, as `cadical -q --no-binary FORMULA FILE` writes it; where a
                 step does not follow, or the proof ends before the empty clause, that is said on standard error

The lines that begin with c are comments, wherever they stand. The first line of the others is `p cnf VARIABLES CLAUSES`, and behind it
are the literals of the clauses, each clause ended by 0. A line of % at the end, as some files have it, is refused: take it away first.

example:  printf 'p cnf 2 2\\n1 -2 0\\n2 0\\n' | smtsat
prints    s SATISFIABLE
          v 1 2 0

status: 10 satisfiable; 20 unsatisfiable; 0 unknown; 2 the words are no command; 3 the formula is refused; 5 source fault; 6 sink
        fault; 7 out of memory
";

/// What `smtsat --version` prints.
pub(crate) const VERSION: &str = "smtsat 0.1.0 (rattle-kit-13f logic dac8208d650f15bf)\n";

/// What the words of a command line ask for.
#[derive(Clone, Copy, Debug, PartialEq, Eq, Drop)]
pub enum Command {
    /// To search over at most so many conflicts.
    Search(u64),
    /// `--proof FILE`: to check a proof.
    Check,
    /// `--help` or `-h`.
    Help,
    /// `--version`.
    Version,
}

/// The limit that a word says.
fn limit_from(word: &Text) -> Option<Command>
    ensures { result ≡ limit_of (rc_str_bytes word.now) }
{
    let digits = word.as_str().as_bytes();
    if !are_digits(digits) {
        return None;
    }
    match number(digits) {
        Some(most) => Some(Command::Search(most)),
        None => None,
    }
}

/// What one word asks for, None where it is no command.
fn word_command(word: &Text) -> Option<Command>
    ensures { result ≡ word_asks (rc_str_bytes word.now) }
{
    match word.as_str() {
        "--help" => Some(Command::Help),
        "-h" => Some(Command::Help),
        "--version" => Some(Command::Version),
        _ => None,
    }
}

/// What an option with a value asks for, None where it is no command.
fn option_command(option: &Text, value: &Text) -> Option<Command>
    ensures { result ≡ option_asks (rc_str_bytes option.now) (rc_str_bytes value.now) }
{
    match option.as_str() {
        "--conflicts" => limit_from(value),
        "--proof" => Some(Command::Check),
        _ => None,
    }
}

/// What the words ask for, None where they are no command.
pub(crate) fn command_of(words: &[Text]) -> Option<Command>
    ensures { result ≡ commanded (texts words.now) }
{
    match words {
        [] => Some(Command::Search(u64::MAX)),
        [word] => word_command(word),
        [option, value] => option_command(option, value),
        [_, _, _, ..] => None,
    }
}

/// Whether a word is `--proof`.
fn is_proof_option(option: &Text) -> bool
    ensures { result ≡ bytes_eq (rc_str_bytes option.now) (codes "--proof") }
{
    option.as_str() == "--proof"
}

/// The file of the proof that is to be checked, where the words ask for that.
pub fn proof_file(words: &[Text]) -> Option<&Text>
    ensures { option_map (λ file. rc_str_bytes file.now) result ≡ file_of (texts words.now) }
{
    match words {
        [option, file] => {
            if is_proof_option(option) {
                Some(file)
            } else {
                None
            }
        }
        _ => None,
    }
}
