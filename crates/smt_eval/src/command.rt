// What the program does by its words, and what it says of itself.
use smt_runs::Texts;

/// What the program says of itself.
pub(crate) const TEXTS: Texts = Texts {
    help: HELP,
    version: VERSION,
    usage: USAGE,
};

/// What `smteval --help` prints.
pub(crate) const HELP: &str = "\
usage: smteval < INPUT

Reads a job with an assignment from standard input, and prints a line for each term of the job that is current at its end: true or
false, as it is in the assignment. Then it prints holds where all of them are true, and fails where one is not. No solver is asked.

input:    (eval JOB (vars (\"ID\" V) ..) (funs (\"F\" V (V V) ..) ..) (gets (TYPE V) ..) (selectors (\"NAME\" V (V V) ..) ..))
          JOB is a job as smtcli reads it, and each V a term that is built to a literal. A function or a selector has its value
          elsewhere first, and then pairs of an argument and a value. A get says what option.get of none is at a type, and a
          selector what it is at IP ranges of the other family. What the terms do not reach may be left out.

example:  echo '(eval (job (enums) (vars (\"b\" Bool)) (funs) (terms (not (var \"b\")))) (vars (\"b\" false)) (funs) (gets) (selectors))' > input
          smteval < input
prints    true
          holds

worth:    holds says that the assignment makes all terms true, as they are written, and, where smtcli prints a script for the job,
          that what it gives to them is a model of this script. Both are proved.

status: 0 done; 2 there are words; 3 the input is refused; 5 source fault; 6 sink fault; 7 out of memory
";

/// What `smteval --version` prints.
pub(crate) const VERSION: &str = "smteval 0.1.0 (rattle-kit-13f logic dac8208d650f15bf)\n";

/// The line that is said where there are words that are no command.
pub const USAGE: &str = "usage: smteval\n";

/// What the program does by its words.
#[derive(Clone, Copy, Debug, PartialEq, Eq, Drop)]
pub enum Command {
    /// Without words: the truths of the terms of a job in an assignment.
    Evaluate,
}
