//! Entities, options, records, sets and functions.

/// The rows.
pub(crate) const ROWS: &str = r##"> (job (enums) (vars) (funs ("f" Bool Bool)) (terms))
status 0, 0 bytes on diag, 65 on out
(declare-datatype Option (par (X) (
  (none)
  (some (val X)))))
> (job (enums) (vars ("p" (Entity "User"))) (funs ("in" (Entity "User") (Set (Entity "Group")))) (terms (set.member (entity "Group" "admins") (uuf "in" (var "p")))))
status 0, 0 bytes on diag, 367 on out
(declare-datatype Option (par (X) (
  (none)
  (some (val X)))))
; Group
(declare-datatype E0 (
  (E0 (E0_eid String))))
(define-fun t0 () E0 (E0 "admins"))
; User
(declare-datatype E1 (
  (E1 (E1_eid String))))
; "p"
(declare-const t1 E1)
; in
(declare-fun f0 (E1) (Set E0))
(define-fun t2 () (Set E0) (f0 t1))
(define-fun t3 () Bool (set.member t0 t2))
(assert t3)
> (job (enums) (vars ("p" (Entity "User"))) (funs) (terms (eq (var "p") (entity "User" "alice")) (eq (entity "User" "alice") (entity "User" "alice"))))
status 0, 0 bytes on diag, 243 on out
(declare-datatype Option (par (X) (
  (none)
  (some (val X)))))
; User
(declare-datatype E0 (
  (E0 (E0_eid String))))
; "p"
(declare-const t0 E0)
(define-fun t1 () E0 (E0 "alice"))
(define-fun t2 () Bool (= t0 t1))
(assert t2)
(assert true)
> (job (enums) (vars ("o" (Option (BitVec 64)))) (funs) (terms (not (eq (var "o") (none (BitVec 64)))) (bvslt (option.get (var "o")) (long "-5"))))
status 0, 0 bytes on diag, 386 on out
(declare-datatype Option (par (X) (
  (none)
  (some (val X)))))
; "o"
(declare-const t0 (Option (_ BitVec 64)))
(define-fun t1 () (Option (_ BitVec 64)) (as none (Option (_ BitVec 64))))
(define-fun t2 () Bool (= t0 t1))
(define-fun t3 () Bool (not t2))
(define-fun t4 () (_ BitVec 64) (val t0))
(define-fun t5 () Bool (bvslt t4 (_ bv18446744073709551611 64)))
(assert t3)
(assert t5)
> (job (enums) (vars ("o" (Option Bool))) (funs) (terms (eq (var "o") (some true)) (option.get (some false))))
status 0, 0 bytes on diag, 210 on out
(declare-datatype Option (par (X) (
  (none)
  (some (val X)))))
; "o"
(declare-const t0 (Option Bool))
(define-fun t1 () (Option Bool) (some true))
(define-fun t2 () Bool (= t0 t1))
(assert t2)
(assert false)
> (job (enums) (vars ("r" (Record ("b" Bool) ("a" (BitVec 8))))) (funs) (terms (record.get "b" (var "r")) (eq (var "r") (record ("b" true) ("a" (bv 8 3))))))
status 0, 0 bytes on diag, 303 on out
(declare-datatype Option (par (X) (
  (none)
  (some (val X)))))
; {a, b}
(declare-datatype R0 (
  (R0 (R0_a0 (_ BitVec 8)) (R0_a1 Bool))))
; "r"
(declare-const t0 R0)
(define-fun t1 () Bool (R0_a1 t0))
(define-fun t2 () R0 (R0 (_ bv3 8) true))
(define-fun t3 () Bool (= t0 t2))
(assert t1)
(assert t3)
> (job (enums) (vars ("r" (Record))) (funs) (terms (eq (var "r") (record))))
status 0, 0 bytes on diag, 202 on out
(declare-datatype Option (par (X) (
  (none)
  (some (val X)))))
; {}
(declare-datatype R0 (
  (R0 )))
; "r"
(declare-const t0 R0)
(define-fun t1 () R0 R0)
(define-fun t2 () Bool (= t0 t1))
(assert t2)
> (job (enums) (vars ("x" (Set String)) ("y" (Set String))) (funs) (terms (set.subset (set.inter (var "x") (var "y")) (set String "b" "a" "b"))))
status 0, 0 bytes on diag, 327 on out
(declare-datatype Option (par (X) (
  (none)
  (some (val X)))))
; "x"
(declare-const t0 (Set String))
; "y"
(declare-const t1 (Set String))
(define-fun t2 () (Set String) (set.inter t0 t1))
(define-fun t3 () (Set String) (set.insert "a" "b" (as set.empty (Set String))))
(define-fun t4 () Bool (set.subset t2 t3))
(assert t4)
> (job (enums) (vars) (funs) (terms (set.member (bv 8 1) (set (BitVec 8))) (eq (set Bool true false) (set Bool false true true))))
status 0, 0 bytes on diag, 94 on out
(declare-datatype Option (par (X) (
  (none)
  (some (val X)))))
(assert false)
(assert true)
"##;
