// What the program does by its words, and what it says of itself.
ghost use Rattle.std.specs.Prelude.{◌≡◌, true, is_some, option_map, IfOk, IsOkUnless};
ghost use Rattle.std.specs.Rc.{rc_str_bytes};
ghost use Rattle.law_texts.specs.SharedTexts.{texts};
ghost use Rattle.smt_solve.specs.Starter.{command_of as solver_call};
ghost use Rattle.smt_review.specs.Words.{commanded, relation_named, solver_named};
ghost use Rattle.smt_review.specs.declared.command.Command.TheVariants.{Review};

use crate::relation::Relation;
use smt_runs::Texts;
use smt_solve::{SolverCommand, SolverError};
use smt_text::Text;
use std::alloc::Global;

/// What the program says of itself.
pub(crate) const TEXTS: Texts = Texts {
    help: HELP,
    version: VERSION,
    usage: USAGE,
};

/// What `smtreview --help` prints.
pub(crate) const HELP: &str = "\
usage: smtreview equivalent or implies or disjoint PATH ARGS..

Reads a job of two Boolean terms from standard input, asks the solver PATH with these ARGS where they differ, and prints one word.

equivalent  are both terms true in the same interpretations?
implies     is the second term true wherever the first is?
disjoint    are the terms nowhere true together?

The job has one assertion of two terms, before and after a change, as smtcli --help says what jobs are. For example, the job
  (job (enums) (vars (\"a\" Bool) (\"b\" Bool)) (funs) (terms (not (and (var \"a\") (var \"b\"))) (or (not (var \"a\")) (not (var \"b\")))))
in a file FILE and the command
  smtreview equivalent timeout 60 cvc5 --lang smt --incremental --strings-exp < FILE
print holds. It waits as long as the solver takes, here for a minute at most.

holds    the solver found no interpretation in which the terms differ so: the relation holds in all, if the solver is right
fails    the solver says that there is an interpretation in which it fails
unknown  the solver does not say

status: 0 done, 2 no such command, 3 job refused, 4 no script for the difference, 5 source fault, 6 sink fault, 7 out of memory,
        8 session fault, 9 the solver did not start
";

/// What `smtreview --version` prints.
pub(crate) const VERSION: &str = "smtreview 0.1.0 (rattle-kit-13f logic dac8208d650f15bf)\n";

/// The line that is said of words that are no command.
pub const USAGE: &str = "usage: smtreview equivalent or implies or disjoint PATH ARGS..\n";

/// What the program does by its words.
#[derive(Clone, Copy, Debug, PartialEq, Eq, Drop)]
pub enum Command {
    /// `equivalent PATH ARGS..`, `implies PATH ARGS..` or `disjoint PATH ARGS..`: whether the relation holds of the job's two terms.
    Review(Relation),
}

/// The relation of this name.
fn relation_of(word: &Text) -> Option<Relation>
    ensures { result ≡ relation_named (rc_str_bytes word.now) }
{
    match word.as_str() {
        "equivalent" => Some(Relation::Equivalent),
        "implies" => Some(Relation::Implies),
        "disjoint" => Some(Relation::Disjoint),
        _ => None,
    }
}

/// The review by a relation that was named.
fn review_of(relation: Option<Relation>) -> Option<Command>
    ensures { result ≡ option_map Review relation }
{
    match relation {
        Some(relation) => Some(Command::Review(relation)),
        None => None,
    }
}

/// What the words name, None where they are no command.
pub(crate) fn command_of(words: &[Text]) -> Option<Command>
    ensures { result ≡ commanded (texts words.now) }
{
    match words {
        [] => None,
        [_] => None,
        [word, _, ..] => review_of(relation_of(word)),
    }
}

/// The solver that stands behind the first word, with its arguments.
pub(crate) fn solver_of(alloc: Global, words: &[Text]) -> Result<SolverCommand, SolverError>
    requires { is_some (commanded (texts words.now)) ≡ true }
    ensures named { IfOk result (λ solver. solver_call solver ≡ solver_named (texts words.now)) }
    ensures refusal { IsOkUnless result SolverError.Memory }
{
    SolverCommand::new(alloc, words[1].as_str(), &words[2..])
}
