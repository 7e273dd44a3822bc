// What the words of a command line ask for.
ghost use Rattle.std.specs.Prelude.{◌≡◌};
ghost use Rattle.law_texts.specs.SharedTexts.{texts};
ghost use Rattle.std.specs.Rc.{rc_str_bytes};
ghost use Rattle.smt_stream.specs.Words.{commanded, word_asks};

use smt_text::Text;

/// What `smtmini --help` prints.
pub(crate) const HELP: &str = "\
usage: smtmini < FILE

Reads a script in SMT-LIB 2.7 from standard input, command by command, and prints its replies: sat, unsat or unknown for each
check-sat, and the first model for a get-model behind sat. It decides scripts of at most 20 Boolean constants, and tells the truth.

commands: declare-const of sort Bool, define-fun of sort Bool without parameters, assert, push 1, pop 1, check-sat, get-model,
          reset, set-logic, set-option and exit, and the datatype Option as smtcli writes it
terms:    true, false, names, not of one, and, or and = of two, and ite of three of these
          Behind any other command or term each check-sat is unknown.

example:  (declare-const x Bool) (assert (not x)) (check-sat) (get-model)
prints    sat and a model in which x is false

status: 0 the end of the script, or exit; 2 there are words; 3 the script broke a rule, and the last line tells which:
        not a script, too long (a command of more than 16777216 bytes, or 2^40 in all) or too deep (more than 1024 brackets);
        5 source fault, 6 sink fault, 7 out of memory
";

/// What `smtmini --version` prints.
pub(crate) const VERSION: &str = "smtmini 0.1.0 (rattle-kit-13f logic dac8208d650f15bf)\n";

/// What the words of a command line ask for.
#[derive(Clone, Copy, Debug, PartialEq, Eq, Drop)]
pub enum Command {
    /// Without words: the replies to a script.
    Solve,
    /// `--help`.
    Help,
    /// `--version`.
    Version,
}

/// What one word asks for, None where it is no command.
fn word_command(word: &Text) -> Option<Command>
    ensures { result ≡ word_asks (rc_str_bytes word.now) }
{
    match word.as_str() {
        "--help" => Some(Command::Help),
        "--version" => Some(Command::Version),
        _ => None,
    }
}

/// What the words ask for, None where they are no command.
pub(crate) fn command_of(words: &[Text]) -> Option<Command>
    ensures { result ≡ commanded (texts words.now) }
{
    match words {
        [] => Some(Command::Solve),
        [word] => word_command(word),
        [_, _, ..] => None,
    }
}
