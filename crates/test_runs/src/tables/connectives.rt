//! Truth: connectives, equality and choices, some of which fold.

/// The rows.
pub(crate) const ROWS: &str = r##"> (job (enums) (vars) (funs) (terms))
status 0, 0 bytes on diag, 65 on out
(declare-datatype Option (par (X) (
  (none)
  (some (val X)))))
> (job (enums) (vars) (funs) (terms true))
status 0, 0 bytes on diag, 79 on out
(declare-datatype Option (par (X) (
  (none)
  (some (val X)))))
(assert true)
> (job (enums) (vars) (funs) (terms false))
status 0, 0 bytes on diag, 80 on out
(declare-datatype Option (par (X) (
  (none)
  (some (val X)))))
(assert false)
> (job (enums) (vars ("b" Bool)) (funs) (terms (not (var "b"))))
status 0, 0 bytes on diag, 140 on out
(declare-datatype Option (par (X) (
  (none)
  (some (val X)))))
; "b"
(declare-const t0 Bool)
(define-fun t1 () Bool (not t0))
(assert t1)
> (job (enums) (vars ("b" Bool)) (funs) (terms (not (var "b")) (not (var "b"))))
status 0, 0 bytes on diag, 152 on out
(declare-datatype Option (par (X) (
  (none)
  (some (val X)))))
; "b"
(declare-const t0 Bool)
(define-fun t1 () Bool (not t0))
(assert t1)
(assert t1)
> (job (enums) (vars ("b" Bool)) (funs) (terms (not (not (var "b")))))
status 0, 0 bytes on diag, 107 on out
(declare-datatype Option (par (X) (
  (none)
  (some (val X)))))
; "b"
(declare-const t0 Bool)
(assert t0)
> (job (enums) (vars ("a" Bool) ("b" Bool)) (funs) (terms (not (var "b"))))
status 0, 0 bytes on diag, 140 on out
(declare-datatype Option (par (X) (
  (none)
  (some (val X)))))
; "b"
(declare-const t0 Bool)
(define-fun t1 () Bool (not t0))
(assert t1)
> (job (enums) (vars ("b" Bool) ("x" (BitVec 8))) (funs) (terms (var "b")))
status 0, 0 bytes on diag, 107 on out
(declare-datatype Option (par (X) (
  (none)
  (some (val X)))))
; "b"
(declare-const t0 Bool)
(assert t0)
> (job (enums) (vars ("b" Bool) ("x" (BitVec 8))) (funs) (terms (not (not (var "b")))))
status 0, 0 bytes on diag, 107 on out
(declare-datatype Option (par (X) (
  (none)
  (some (val X)))))
; "b"
(declare-const t0 Bool)
(assert t0)
> (job (enums) (vars ("b" Bool) ("x" (BitVec 8))) (funs) (terms (eq true (var "b"))))
status 0, 0 bytes on diag, 107 on out
(declare-datatype Option (par (X) (
  (none)
  (some (val X)))))
; "b"
(declare-const t0 Bool)
(assert t0)
> (job (enums) (vars ("b" Bool) ("x" (BitVec 8))) (funs) (terms (ite (bvult (bv 8 1) (bv 8 2)) (var "b") false)))
status 0, 0 bytes on diag, 107 on out
(declare-datatype Option (par (X) (
  (none)
  (some (val X)))))
; "b"
(declare-const t0 Bool)
(assert t0)
> (job (enums) (vars ("b" Bool) ("x" (BitVec 8))) (funs) (terms (not (var "b"))))
status 0, 0 bytes on diag, 140 on out
(declare-datatype Option (par (X) (
  (none)
  (some (val X)))))
; "b"
(declare-const t0 Bool)
(define-fun t1 () Bool (not t0))
(assert t1)
> (job (enums) (vars ("b" Bool) ("x" (BitVec 8))) (funs) (terms (not (not (not (var "b"))))))
status 0, 0 bytes on diag, 140 on out
(declare-datatype Option (par (X) (
  (none)
  (some (val X)))))
; "b"
(declare-const t0 Bool)
(define-fun t1 () Bool (not t0))
(assert t1)
> (job (enums) (vars ("b" Bool) ("x" (BitVec 8))) (funs) (terms (and (not (var "b")) true)))
status 0, 0 bytes on diag, 140 on out
(declare-datatype Option (par (X) (
  (none)
  (some (val X)))))
; "b"
(declare-const t0 Bool)
(define-fun t1 () Bool (not t0))
(assert t1)
> (job (enums) (vars ("b" Bool) ("x" (BitVec 8))) (funs) (terms true))
status 0, 0 bytes on diag, 79 on out
(declare-datatype Option (par (X) (
  (none)
  (some (val X)))))
(assert true)
> (job (enums) (vars ("b" Bool) ("x" (BitVec 8))) (funs) (terms (or (var "b") (not (var "b")))))
status 0, 0 bytes on diag, 79 on out
(declare-datatype Option (par (X) (
  (none)
  (some (val X)))))
(assert true)
> (job (enums) (vars ("b" Bool) ("x" (BitVec 8))) (funs) (terms false (var "b") false))
status 0, 0 bytes on diag, 137 on out
(declare-datatype Option (par (X) (
  (none)
  (some (val X)))))
; "b"
(declare-const t0 Bool)
(assert false)
(assert t0)
(assert false)
> (job (enums) (vars ("b" Bool) ("c" Bool)) (funs) (terms (not (var "b"))))
status 0, 0 bytes on diag, 140 on out
(declare-datatype Option (par (X) (
  (none)
  (some (val X)))))
; "b"
(declare-const t0 Bool)
(define-fun t1 () Bool (not t0))
(assert t1)
> (job (enums) (vars ("b" Bool) ("c" Bool)) (funs) (terms (not (not (var "b")))))
status 0, 0 bytes on diag, 107 on out
(declare-datatype Option (par (X) (
  (none)
  (some (val X)))))
; "b"
(declare-const t0 Bool)
(assert t0)
> (job (enums) (vars ("b" Bool) ("c" Bool)) (funs) (terms (and (var "b") (not (var "b")))))
status 0, 0 bytes on diag, 80 on out
(declare-datatype Option (par (X) (
  (none)
  (some (val X)))))
(assert false)
> (job (enums) (vars ("b" Bool) ("c" Bool)) (funs) (terms (and (var "b") (var "c"))))
status 0, 0 bytes on diag, 173 on out
(declare-datatype Option (par (X) (
  (none)
  (some (val X)))))
; "b"
(declare-const t0 Bool)
; "c"
(declare-const t1 Bool)
(define-fun t2 () Bool (and t0 t1))
(assert t2)
> (job (enums) (vars ("b" Bool) ("c" Bool)) (funs) (terms (or (var "b") (not (var "b")))))
status 0, 0 bytes on diag, 79 on out
(declare-datatype Option (par (X) (
  (none)
  (some (val X)))))
(assert true)
> (job (enums) (vars ("b" Bool) ("c" Bool)) (funs) (terms (eq true (var "b"))))
status 0, 0 bytes on diag, 107 on out
(declare-datatype Option (par (X) (
  (none)
  (some (val X)))))
; "b"
(declare-const t0 Bool)
(assert t0)
> (job (enums) (vars ("b" Bool) ("c" Bool)) (funs) (terms (ite (var "b") true false)))
status 0, 0 bytes on diag, 107 on out
(declare-datatype Option (par (X) (
  (none)
  (some (val X)))))
; "b"
(declare-const t0 Bool)
(assert t0)
> (job (enums) (vars ("b" Bool) ("c" Bool)) (funs) (terms (ite (var "b") (var "c") false)))
status 0, 0 bytes on diag, 173 on out
(declare-datatype Option (par (X) (
  (none)
  (some (val X)))))
; "b"
(declare-const t0 Bool)
; "c"
(declare-const t1 Bool)
(define-fun t2 () Bool (and t0 t1))
(assert t2)
"##;
