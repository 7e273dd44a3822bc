//! Kembura under one name: a crate that names `kembura` reaches every public call, and by `Rattle.kembura.specs` each word of
//! their contracts.
//!
//! | Name | What it has |
//! |---|---|
//! | `terms`, `texts`, `bits`, `extensions` | terms and their types, texts, bitvectors, values of the extension types |
//! | `factory` | the calls that build terms and fold constants |
//! | `encode`, `script`, `expressions`, `nodes` | the encoder to SMT-LIB 2.7, sinks and lines of scripts, the reader of S-expressions,
//! numbered nodes |
//! | `solve`, `pool` | links to solvers, sessions, processes; pools of sessions, and the check of a script |
//! | `mini`, `stream` | a small solver; the run of `smtmini`, and links to small solvers in memory |
//! | `jobs`, `runs`, `program` | the reader of jobs, and operators at numbered nodes; scripts and checks of a job's steps; the run of
//! `smtcli` |
//! | `processes` | the words and the streams of a process, and how a run ends |
//! | `blast`, `blast_run` | terms over bitvectors as Boolean terms over their bits; the run of `smtblast` |
//! | `eval`, `eval_run` | what terms are worth in an assignment that is given; the run of `smteval` |
//! | `clauses`, `search`, `dimacs` | clauses and a checker of proofs, a search for truths that make them true, their texts |
//! | `review` | the question whether two conditions are equivalent, one implies the other, or both never hold; the run of `smtreview` |
//! | `values`, `symbolizer` | Cedar's types and values, their terms, and the tables of a schema, a request and a store |
//! | `laws` | the laws of the definitions, by subject |
//!
//! The main types stand here too. Where two definitions' files have one name, the later one's name here begins with its crate's,
//! as `TermView`, the plain form of terms, does (`specs/Lib.antt`).
#![tactic(auto)]

pub mod laws;

pub use smt_bits as bits;
pub use smt_bits::{BitVec, Width};
pub use smt_blast as blast;
pub use smt_blast::blast_run;
pub use smt_clauses as clauses;
pub use smt_clauses::{ClauseList, Proof, refutes};
pub use smt_cli as program;
pub use smt_cli::run;
pub use smt_dimacs as dimacs;
pub use smt_encode as encode;
pub use smt_encode::{EncodeError, Encoder};
pub use smt_eval as eval;
pub use smt_eval::{Assignment, EvalError, EvalInput, eval_run, read_eval};
pub use smt_ext as extensions;
pub use smt_ext::{Datetime, Decimal, Duration, Ext, IPNet};
pub use smt_factory as factory;
pub use smt_jobs as jobs;
pub use smt_jobs::{Job, Section, Step, StepList, read_job};
pub use smt_mini as mini;
pub use smt_nodes as nodes;
pub use smt_pool as pool;
pub use smt_pool::{SolverPool, check_script};
pub use smt_program as processes;
pub use smt_review as review;
pub use smt_review::{Finding, Relation, ReviewError, review_run};
pub use smt_runs as runs;
pub use smt_sat_run::sat_run;
pub use smt_script as script;
pub use smt_script::{ListSink, Sink, SinkError, SmtLibScript};
pub use smt_search as search;
pub use smt_search::solve as solve_clauses;
pub use smt_sexpr as expressions;
pub use smt_solve as solve;
pub use smt_solve::{ChildStarter, Decision, Link, LocalSolver, Solver, SolverCommand, Starter};
pub use smt_stream as stream;
pub use smt_stream::{MiniLink, MiniStarter, mini_run};
pub use smt_symbolizer as symbolizer;
pub use smt_symbolizer::SymEnv;
pub use smt_term as terms;
pub use smt_term::{
    EntityID, EntityType, EntityUID, EnumTable, Op, Term, TermError, TermList, TermMap, TermPrim,
    TermSet, TermType, TermVar, Text, TypeMap, UnaryFunction, Uuf,
};
pub use smt_text as texts;
pub use smt_values as values;
