// What the program does by its words, and what it says of itself.
use smt_runs::Texts;

/// What the program says of itself.
pub(crate) const TEXTS: Texts = Texts {
    help: HELP,
    version: VERSION,
    usage: USAGE,
};

/// What `smtblast --help` prints.
pub(crate) const HELP: &str = "\
usage: smtblast < JOB

Reads a job from standard input, and prints a script in SMT-LIB 2.7 over Booleans alone that has a model exactly where the terms
of the job that are current at its end can be true together. Each Boolean variable of the job becomes one constant, and each
bitvector variable one for each bit: v0 and v1_0, v1_1 and so on, from the lowest, by the order in which the terms first name the
variables once they are folded. These names stand in the comments of the script.

terms:    literals and variables of type Bool and of bitvectors, not, and, or, eq and ite on these, bvneg, bvadd, bvsub, bvshl,
          bvlshr, bvslt, bvsle, bvult, bvule, bvnego, bvsaddo, bvssubo and zero_extend

example:  echo '(job (enums) (vars (\"b\" Bool)) (funs) (terms (not (var \"b\"))))' > job; smtblast < job
prints    (declare-datatype Option (par (X) (
            (none)
            (some (val X)))))
          ; \"v0\"
          (declare-const t0 Bool)
          (define-fun t1 () Bool (not t0))
          (assert t1)

pipe:     (smtblast < job; echo \"(check-sat)\") | smtmini

status: 0 done; 2 there are words; 3 the job is refused; 5 source fault; 6 sink fault; 7 out of memory; 10 a term is not blasted,
        for an operator without a circuit (Unsupported) or a type that is neither Bool nor bitvectors (UnsupportedType)
";

/// What `smtblast --version` prints.
pub(crate) const VERSION: &str = "smtblast 0.1.0 (rattle-kit-13f logic dac8208d650f15bf)\n";

/// The line that is said where there are words that are no command.
pub const USAGE: &str = "usage: smtblast\n";

/// What the program does by its words.
#[derive(Clone, Copy, Debug, PartialEq, Eq, Drop)]
pub enum Command {
    /// Without words: the script of the blasted terms of a job.
    Blast,
}
