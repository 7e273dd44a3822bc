//! Scripts for the small solver, and its replies to each of their commands.

use crate::expected::expect_text;
use smt_mini::{Mini, MiniError, Reply};
use smt_sexpr::{SExpr, parse_sexpr};
use std::alloc::Global;
use std::process::Abort;
use test_words::AMPLE;

/// A script, and what is replied to its commands, in order.
struct Row {
    script: &'static str,
    /// A dash and a space for each command to which nothing is replied. Lines, models and words for what ends the replies each
    /// have their line feeds.
    replies: &'static str,
}

/// Scripts, with what SMT-LIB says of them where the solver decides.
const ROWS: &[Row] = &[
    Row {
        script: "(declare-const t0 Bool) (assert t0) (check-sat) (get-model)",
        replies: "\
- - sat
(
  (define-fun t0 () Bool true)
)
",
    },
    // What is defined is no part of a model.
    Row {
        script: "(declare-const t0 Bool) (define-fun t1 () Bool (not t0)) (assert t1) (check-sat) (get-model)",
        replies: "\
- - - sat
(
  (define-fun t0 () Bool false)
)
",
    },
    Row {
        script: "(assert false) (check-sat) (get-model)",
        replies: "- unsat\n(error \"no model\")\n",
    },
    // One definition under two assertions. In the first model the constant that was declared first is false.
    Row {
        script: "\
(declare-const x Bool)
(declare-const y Bool)
(define-fun d () Bool (or x y))
(assert d)
(assert (not (and d x)))
(check-sat)
(get-model)
(assert (= x d))
(check-sat)
",
        replies: "\
- - - - - sat
(
  (define-fun x () Bool false)
  (define-fun y () Bool true)
)
- unsat
",
    },
    Row {
        script: "\
(declare-const a Bool)
(declare-const b Bool)
(declare-const c Bool)
(assert (= a (ite b c (not c))))
(assert (and b (not c)))
(check-sat)
(get-model)
",
        replies: "\
- - - - - sat
(
  (define-fun a () Bool false)
  (define-fun b () Bool true)
  (define-fun c () Bool false)
)
",
    },
    // The law of De Morgan.
    Row {
        script: "\
(declare-const p Bool)
(declare-const q Bool)
(assert (not (= (and p q) (not (or (not p) (not q))))))
(check-sat)
",
        replies: "- - - unsat\n",
    },
    // What a level declared and asserted goes with it, and its name can be declared again, as something else.
    Row {
        script: "\
(declare-const x Bool)
(push 1)
(declare-const y Bool)
(assert (and x (not y)))
(check-sat)
(get-model)
(assert y)
(check-sat)
(pop 1)
(define-fun y () Bool (not x))
(assert y)
(check-sat)
(get-model)
",
        replies: "\
- - - - sat
(
  (define-fun x () Bool true)
  (define-fun y () Bool false)
)
- unsat
- - - sat
(
  (define-fun x () Bool false)
)
",
    },
    // A script of twenty constants is decided, and one of twenty-one is not, even where an assertion is false.
    Row {
        script: "\
(declare-const a Bool) (declare-const b Bool) (declare-const c Bool) (declare-const d Bool) (declare-const e Bool)
(declare-const f Bool) (declare-const g Bool) (declare-const h Bool) (declare-const i Bool) (declare-const j Bool)
(declare-const k Bool) (declare-const l Bool) (declare-const m Bool) (declare-const n Bool) (declare-const o Bool)
(declare-const p Bool) (declare-const q Bool) (declare-const r Bool) (declare-const s Bool) (declare-const t Bool)
(assert t)
(check-sat)
(push 1)
(declare-const u Bool)
(assert false)
(check-sat)
(get-model)
(pop 1)
(check-sat)
",
        replies: "\
- - - - - - - - - - - - - - - - - - - - - sat
- - - unknown
(error \"no model\")
- sat
",
    },
    // A model is shown directly behind `sat` alone: not before a check, not a second time, and not behind another command.
    Row {
        script: "(get-model) (check-sat) (get-model) (get-model) (check-sat) (assert true) (get-model)",
        replies: "\
(error \"no model\")
sat
(
)
(error \"no model\")
sat
- (error \"no model\")
",
    },
    // As an encoder writes it.
    Row {
        script: "\
(set-logic ALL)
(declare-datatype Option (par (X) (
  (none)
  (some (val X)))))
; \"b\"
(declare-const t0 Bool)
(define-fun t1 () Bool (not t0))
(assert t0)
(check-sat)
(assert t1)
(check-sat)
",
        replies: "- - - - - sat\n- unsat\n",
    },
    // A constructor can't be declared again.
    Row {
        script: "\
(set-option :produce-models true)
(declare-datatype Option (par (X) ((none) (some (val X)))))
(declare-const none Bool)
(check-sat)
",
        replies: "- - NotScript\nSpent\n",
    },
    // Functions are not taken. Behind one no check is decided, and a reset does not help.
    Row {
        script: "(declare-fun f (Bool) Bool) (assert false) (check-sat) (get-model) (reset) (check-sat)",
        replies: "\
- - unknown
(error \"no model\")
- unknown
",
    },
    // Nor are connectives of other numbers of arguments. Behind one nothing but `exit` ends the replies.
    Row {
        script: "(assert (and true true false)) (assert x) (pop 1) (check-sat) (exit) (check-sat) (check-sat)",
        replies: "- - - unknown\nended\nNotScript\nSpent\n",
    },
    Row {
        script: "(assert x) (check-sat) (reset)",
        replies: "NotScript\nSpent\nSpent\n",
    },
    // A definition does not reach itself.
    Row {
        script: "(declare-const c Bool) (define-fun d () Bool (or c d)) (exit)",
        replies: "- NotScript\nSpent\n",
    },
    // A name of an open level can't be declared again, and the last level stays.
    Row {
        script: "(declare-const x Bool) (push 1) (declare-const x Bool)",
        replies: "- - NotScript\n",
    },
    Row {
        script: "(push 1) (pop 1) (check-sat) (pop 1) (check-sat)",
        replies: "- - sat\nNotScript\nSpent\n",
    },
    Row {
        script: "(assert true) (exit) (check-sat) (exit)",
        replies: "- ended\nNotScript\nSpent\n",
    },
    // A reset leaves no level, name or assertion.
    Row {
        script: "\
(declare-const x Bool)
(push 1)
(assert (not x))
(check-sat)
(reset)
(get-model)
(declare-const x Bool)
(assert x)
(check-sat)
(get-model)
(reset)
(pop 1)
",
        replies: "\
- - - sat
- (error \"no model\")
- - sat
(
  (define-fun x () Bool true)
)
- NotScript
",
    },
];

/// Scripts between whose two parts the solver is told that a command was outside.
const MARKED: &[(Row, Row)] = &[
    (
        Row {
            script: "(assert false) (check-sat)",
            replies: "- unsat\n",
        },
        Row {
            script: "(check-sat) (assert x) (reset) (check-sat) (exit) (check-sat)",
            replies: "unknown\n- - unknown\nended\nNotScript\n",
        },
    ),
    // No model is shown then.
    (
        Row {
            script: "(check-sat)",
            replies: "sat\n",
        },
        Row {
            script: "(get-model)",
            replies: "(error \"no model\")\n",
        },
    ),
    // What has ended stays so, and what is refused.
    (
        Row {
            script: "(exit)",
            replies: "ended\n",
        },
        Row {
            script: "(check-sat) (check-sat)",
            replies: "NotScript\nSpent\n",
        },
    ),
    (
        Row {
            script: "(pop 1)",
            replies: "NotScript\n",
        },
        Row {
            script: "(check-sat)",
            replies: "Spent\n",
        },
    ),
];

/// What a row says of a reply: its text, and what stands behind it.
fn told(reply: &Result<Reply, MiniError>) -> (&str, &str) {
    match reply {
        Ok(Reply::Nothing) => ("-", " "),
        Ok(Reply::Line(line)) => (line.as_str(), "\n"),
        Ok(Reply::Model(lines)) => (lines.as_str(), ""),
        Ok(Reply::Ended) => ("ended", "\n"),
        Err(MiniError::NotScript) => ("NotScript", "\n"),
        Err(MiniError::Spent) => ("Spent", "\n"),
        Err(MiniError::Memory) => ("Memory", "\n"),
    }
}

/// Feeds the solver a command, and puts down its reply as a row has it.
fn put_reply(rt: &impl Abort, mini: &mut Mini, command: &SExpr, replies: &mut String) {
    let reply = mini.feed(command);
    let (text, end) = told(&reply);
    replies.push_str(text).expect(rt, AMPLE);
    replies.push_str(end).expect(rt, AMPLE);
}

/// The replies to the commands of a list.
fn replies_to(rt: &impl Abort, alloc: Global, mini: &mut Mini, commands: &SExpr) -> String {
    let mut replies = String::new(alloc);
    if let SExpr::App(commands) = commands {
        for command in commands.items() {
            put_reply(rt, mini, command, &mut replies);
        }
    }
    replies
}

/// Feeds the solver the commands of a row, and stops the test where the replies are others.
fn expect_replies(rt: &impl Abort, alloc: Global, mini: &mut Mini, row: &Row) {
    let list = format!(in alloc; "({})", row.script).expect(rt, AMPLE);
    let commands = parse_sexpr(alloc, list.as_bytes()).expect(rt, "a script is read");
    let replies = replies_to(rt, alloc, mini, &commands);
    expect_text(rt, row.script, replies.as_str(), row.replies);
}

#[test]
fn commands_are_replied_to(rt: HostRuntime) {
    let alloc = rt.alloc();
    for row in ROWS {
        let mut mini = Mini::new(alloc);
        expect_replies(&rt, alloc, &mut mini, row);
    }
}

#[test]
fn a_marked_solver_decides_nothing(rt: HostRuntime) {
    let alloc = rt.alloc();
    for (before, behind) in MARKED {
        let mut mini = Mini::new(alloc);
        expect_replies(&rt, alloc, &mut mini, before);
        mini.mark_outside();
        expect_replies(&rt, alloc, &mut mini, behind);
    }
}
