//! Jobs that are not one line of printable text.

/// A job, and what a run on it leaves.
pub(crate) struct Job {
    pub(crate) bytes: &'static [u8],
    pub(crate) stated: &'static str,
}

/// The jobs.
pub(crate) const JOBS: &[Job] = &[
    Job {
        bytes: b"",
        stated: r#"status 3, 19 bytes on diag, 0 on out
job refused: Parse
"#,
    },
    Job {
        bytes: b"(job (enums) (vars (\"\xf0\x9d\x90\x80\" Bool)) (funs) (terms (var \"\xf0\x9d\x90\x80\")))",
        stated: "status 0, 0 bytes on diag, 114 on out\n(declare-datatype Option (par (X) (\n  (none)\n  (some (val X)))))\n; \"ð\u{9d}\u{90}\u{80}\"\n(declare-const t0 Bool)\n(assert t0)\n",
    },
    Job {
        bytes: b" \n\t( job\r\n\t( enums )\n ( vars\t(\n\"b\"\t \nBool ) )\n\n(\tfuns\n) (terms\t( not\n( var \t\"b\"\n)\t)\r\n)\n)\t \n",
        stated: r#"status 0, 0 bytes on diag, 140 on out
(declare-datatype Option (par (X) (
  (none)
  (some (val X)))))
; "b"
(declare-const t0 Bool)
(define-fun t1 () Bool (not t0))
(assert t1)
"#,
    },
    Job {
        bytes: b"(job (enums) (vars (\"x\" (BitVec 8)) (\"y\" (BitVec 8)) (\"b\" Bool)) (funs) (terms\n (bvslt (bvadd (var \"x\") (var \"y\")) (bv 8 200))\n (ite (var \"b\") (eq (bvudiv (var \"x\") (bv 8 0)) (bv 8 255)) (not (bvnego (var \"y\"))))\n (or (var \"b\") (bvsaddo (zero_extend 56 (var \"x\")) (long \"-9223372036854775808\")))))",
        stated: r#"status 0, 0 bytes on diag, 676 on out
(declare-datatype Option (par (X) (
  (none)
  (some (val X)))))
; "x"
(declare-const t0 (_ BitVec 8))
; "y"
(declare-const t1 (_ BitVec 8))
(define-fun t2 () (_ BitVec 8) (bvadd t0 t1))
(define-fun t3 () Bool (bvslt t2 (_ bv200 8)))
; "b"
(declare-const t4 Bool)
(define-fun t5 () (_ BitVec 8) (bvudiv t0 (_ bv0 8)))
(define-fun t6 () Bool (= t5 (_ bv255 8)))
(define-fun t7 () Bool (= t1 (_ bv128 8)))
(define-fun t8 () Bool (not t7))
(define-fun t9 () Bool (ite t4 t6 t8))
(define-fun t10 () (_ BitVec 64) ((_ zero_extend 56) t0))
(define-fun t11 () Bool (bvsaddo t10 (_ bv9223372036854775808 64)))
(define-fun t12 () Bool (or t4 t11))
(assert t3)
(assert t9)
(assert t12)
"#,
    },
    Job {
        bytes: b"(job (enums) (vars (\"x\" (BitVec 8)) (\"y\" (BitVec 8))) (funs) (terms\n (bvult (bvneg (var \"x\")) (bvsub (var \"x\") (var \"y\")))\n (bvule (bvmul (var \"x\") (var \"y\")) (bvurem (var \"x\") (var \"y\")))\n (bvsle (bvsdiv (var \"x\") (var \"y\")) (bvsrem (var \"x\") (var \"y\")))\n (and (bvssubo (var \"x\") (var \"y\")) (bvsmulo (var \"x\") (var \"y\")))\n (eq (bvlshr (var \"x\") (var \"y\")) (bvsmod (var \"x\") (bvshl (var \"x\") (var \"y\"))))))",
        stated: r#"status 0, 0 bytes on diag, 897 on out
(declare-datatype Option (par (X) (
  (none)
  (some (val X)))))
; "x"
(declare-const t0 (_ BitVec 8))
(define-fun t1 () (_ BitVec 8) (bvneg t0))
; "y"
(declare-const t2 (_ BitVec 8))
(define-fun t3 () (_ BitVec 8) (bvsub t0 t2))
(define-fun t4 () Bool (bvult t1 t3))
(define-fun t5 () (_ BitVec 8) (bvmul t0 t2))
(define-fun t6 () (_ BitVec 8) (bvurem t0 t2))
(define-fun t7 () Bool (bvule t5 t6))
(define-fun t8 () (_ BitVec 8) (bvsdiv t0 t2))
(define-fun t9 () (_ BitVec 8) (bvsrem t0 t2))
(define-fun t10 () Bool (bvsle t8 t9))
(define-fun t11 () Bool (bvssubo t0 t2))
(define-fun t12 () Bool (bvsmulo t0 t2))
(define-fun t13 () Bool (and t11 t12))
(define-fun t14 () (_ BitVec 8) (bvlshr t0 t2))
(define-fun t15 () (_ BitVec 8) (bvshl t0 t2))
(define-fun t16 () (_ BitVec 8) (bvsmod t0 t15))
(define-fun t17 () Bool (= t14 t16))
(assert t4)
(assert t7)
(assert t10)
(assert t13)
(assert t17)
"#,
    },
    Job {
        bytes: b"(job (enums) (vars (\"b\" Bool)) (funs) (terms (and (var \"b\") (not (var \"b\")))\n (eq (bvsrem (bv 8 249) (bv 8 2)) (bv 8 255)) (eq (bvsmod (bv 8 249) (bv 8 2)) (bv 8 1))\n (eq (long \"-5\") (bv 64 18446744073709551611)) (ite (var \"b\") true false) (eq true (var \"b\"))))",
        stated: r#"status 0, 0 bytes on diag, 176 on out
(declare-datatype Option (par (X) (
  (none)
  (some (val X)))))
; "b"
(declare-const t0 Bool)
(assert false)
(assert true)
(assert true)
(assert true)
(assert t0)
(assert t0)
"#,
    },
    Job {
        bytes: b"(job (enums) (vars (\"b\" Bool)) (funs) (terms (not (var \"b\"))))\n",
        stated: r#"status 0, 0 bytes on diag, 140 on out
(declare-datatype Option (par (X) (
  (none)
  (some (val X)))))
; "b"
(declare-const t0 Bool)
(define-fun t1 () Bool (not t0))
(assert t1)
"#,
    },
    Job {
        bytes: b"(job\n  (enums)\n  (vars (\"x\" (BitVec 8)) (\"y\" (BitVec 8)))\n  (funs)\n  (terms\n    (bvslt (bv 8 0) (var \"x\"))\n    (bvslt (bv 8 0) (var \"y\"))\n    (bvslt (bvadd (var \"x\") (var \"y\")) (bv 8 0))))\n",
        stated: r#"status 0, 0 bytes on diag, 358 on out
(declare-datatype Option (par (X) (
  (none)
  (some (val X)))))
; "x"
(declare-const t0 (_ BitVec 8))
(define-fun t1 () Bool (bvslt (_ bv0 8) t0))
; "y"
(declare-const t2 (_ BitVec 8))
(define-fun t3 () Bool (bvslt (_ bv0 8) t2))
(define-fun t4 () (_ BitVec 8) (bvadd t0 t2))
(define-fun t5 () Bool (bvslt t4 (_ bv0 8)))
(assert t1)
(assert t3)
(assert t5)
"#,
    },
    Job {
        bytes: b"  \n ",
        stated: r#"status 3, 19 bytes on diag, 0 on out
job refused: Parse
"#,
    },
    Job {
        bytes: b"(job (enums) (vars) (funs) ; x\n (terms))",
        stated: r#"status 0, 0 bytes on diag, 65 on out
(declare-datatype Option (par (X) (
  (none)
  (some (val X)))))
"#,
    },
    Job {
        bytes: b"(job (enums) (vars (\"\xff\" Bool)) (funs) (terms))",
        stated: r#"status 0, 0 bytes on diag, 65 on out
(declare-datatype Option (par (X) (
  (none)
  (some (val X)))))
"#,
    },
    Job {
        bytes: b"(job (enums) (vars (\"a\nb\" Bool)) (funs) (terms (var \"a\nb\")))",
        stated: r#"status 0, 0 bytes on diag, 110 on out
(declare-datatype Option (par (X) (
  (none)
  (some (val X)))))
; "a\nb"
(declare-const t0 Bool)
(assert t0)
"#,
    },
    Job {
        bytes: b"(job (enums) (vars (\"\r\n\t\" Bool)) (funs) (terms (var \"\r\n\t\")))",
        stated: r#"status 0, 0 bytes on diag, 112 on out
(declare-datatype Option (par (X) (
  (none)
  (some (val X)))))
; "\r\n\t"
(declare-const t0 Bool)
(assert t0)
"#,
    },
    Job {
        bytes: b"(job (enums) (vars (\"\x7f\" Bool)) (funs) (terms (var \"\x7f\")))",
        stated: r#"status 0, 0 bytes on diag, 112 on out
(declare-datatype Option (par (X) (
  (none)
  (some (val X)))))
; "\u{7f}"
(declare-const t0 Bool)
(assert t0)
"#,
    },
    Job {
        bytes: b"(job (enums) (vars (\"\x0c\" Bool)) (funs) (terms (var \"\x0c\")))",
        stated: r#"status 0, 0 bytes on diag, 111 on out
(declare-datatype Option (par (X) (
  (none)
  (some (val X)))))
; "\u{c}"
(declare-const t0 Bool)
(assert t0)
"#,
    },
    Job {
        bytes: b"(job (enums) (vars (\"\x00\" Bool)) (funs) (terms (var \"\x00\")))",
        stated: r#"status 0, 0 bytes on diag, 108 on out
(declare-datatype Option (par (X) (
  (none)
  (some (val X)))))
; "\0"
(declare-const t0 Bool)
(assert t0)
"#,
    },
    Job {
        bytes: b"(job (enums) (vars (\"\x80\" Bool)) (funs) (terms (var \"\x80\")))",
        stated: "status 0, 0 bytes on diag, 108 on out\n(declare-datatype Option (par (X) (\n  (none)\n  (some (val X)))))\n; \"\u{80}\"\n(declare-const t0 Bool)\n(assert t0)\n",
    },
    Job {
        bytes: b"(job (enums) (vars (\"\xc8\" Bool)) (funs) (terms (var \"\xc8\")))",
        stated: r#"status 0, 0 bytes on diag, 108 on out
(declare-datatype Option (par (X) (
  (none)
  (some (val X)))))
; "È"
(declare-const t0 Bool)
(assert t0)
"#,
    },
];
