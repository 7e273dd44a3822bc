//! Jobs of steps: levels, checks, and what is wrong with some.

/// The rows.
pub(crate) const ROWS: &str = r##"> (job (enums) (vars ("b" Bool)) (funs) (steps))
status 0, 0 bytes on diag, 0 on out
> (job (enums) (vars) (funs) (steps (check)))
status 0, 0 bytes on diag, 12 on out
(check-sat)
> (job (enums) (vars) (funs) (steps (assert)))
status 0, 0 bytes on diag, 65 on out
(declare-datatype Option (par (X) (
  (none)
  (some (val X)))))
> (job (enums) (vars) (funs) (steps (push) (pop)))
status 0, 0 bytes on diag, 82 on out
(declare-datatype Option (par (X) (
  (none)
  (some (val X)))))
(push 1)
(pop 1)
> (job (enums) (vars) (funs) (steps (check) (push) (check) (assert true)))
status 0, 0 bytes on diag, 112 on out
(check-sat)
(declare-datatype Option (par (X) (
  (none)
  (some (val X)))))
(push 1)
(check-sat)
(assert true)
> (job (enums) (vars ("b" Bool)) (funs) (steps (assert (var "b")) (check) (push) (assert (not (var "b"))) (check) (pop)))
status 0, 0 bytes on diag, 193 on out
(declare-datatype Option (par (X) (
  (none)
  (some (val X)))))
; "b"
(declare-const t0 Bool)
(assert t0)
(check-sat)
(push 1)
(define-fun t1 () Bool (not t0))
(assert t1)
(check-sat)
(pop 1)
> (job (enums) (vars ("b" Bool) ("c" Bool)) (funs) (steps (assert (var "b")) (push) (assert (not (var "b"))) (pop) (assert (var "c"))))
status 0, 0 bytes on diag, 211 on out
(declare-datatype Option (par (X) (
  (none)
  (some (val X)))))
; "b"
(declare-const t0 Bool)
(assert t0)
(push 1)
(define-fun t1 () Bool (not t0))
(assert t1)
(pop 1)
; "c"
(declare-const t1 Bool)
(assert t1)
> (job (enums) (vars ("b" Bool) ("c" Bool)) (funs) (steps (assert (not (var "b")) (var "b")) (assert (or (var "c") (not (var "b")))) (check) (check)))
status 0, 0 bytes on diag, 253 on out
(declare-datatype Option (par (X) (
  (none)
  (some (val X)))))
; "b"
(declare-const t0 Bool)
(define-fun t1 () Bool (not t0))
(assert t1)
(assert t0)
; "c"
(declare-const t2 Bool)
(define-fun t3 () Bool (or t2 t1))
(assert t3)
(check-sat)
(check-sat)
> (job (enums) (vars ("b" Bool)) (funs) (steps (push) (assert (not (var "b"))) (check) (pop) (push) (assert (not (var "b"))) (check) (pop) (assert (not (var "b")))))
status 0, 0 bytes on diag, 348 on out
(declare-datatype Option (par (X) (
  (none)
  (some (val X)))))
(push 1)
; "b"
(declare-const t0 Bool)
(define-fun t1 () Bool (not t0))
(assert t1)
(check-sat)
(pop 1)
(push 1)
; "b"
(declare-const t0 Bool)
(define-fun t1 () Bool (not t0))
(assert t1)
(check-sat)
(pop 1)
; "b"
(declare-const t0 Bool)
(define-fun t1 () Bool (not t0))
(assert t1)
> (job (enums) (vars ("b" Bool) ("c" Bool)) (funs) (steps (push) (assert (var "b")) (push) (assert (and (var "b") (var "c"))) (push) (pop) (pop) (push) (assert (var "c") (and (var "b") (var "c"))) (check)))
status 0, 0 bytes on diag, 339 on out
(declare-datatype Option (par (X) (
  (none)
  (some (val X)))))
(push 1)
; "b"
(declare-const t0 Bool)
(assert t0)
(push 1)
; "c"
(declare-const t1 Bool)
(define-fun t2 () Bool (and t0 t1))
(assert t2)
(push 1)
(pop 1)
(pop 1)
(push 1)
; "c"
(declare-const t1 Bool)
(define-fun t2 () Bool (and t0 t1))
(assert t1)
(assert t2)
(check-sat)
> (job (enums ("T" "b" "a")) (vars ("c" (Entity "T")) ("u" (Entity "U"))) (funs ("f" (Entity "U") (Entity "T"))) (steps (push) (assert (eq (var "c") (entity "T" "b"))) (pop) (push) (assert (eq (uuf "f" (var "u")) (entity "T" "a"))) (check) (pop) (assert (eq (var "u") (entity "U" "x")) (eq (uuf "f" (var "u")) (var "c")))))
status 0, 0 bytes on diag, 837 on out
(declare-datatype Option (par (X) (
  (none)
  (some (val X)))))
(push 1)
; T::[a, b]
(declare-datatype E0 (
  (E0_m0)
  (E0_m1)))
; "c"
(declare-const t0 E0)
(define-fun t2 () Bool (= t0 E0_m1))
(assert t2)
(pop 1)
(push 1)
; T::[a, b]
(declare-datatype E0 (
  (E0_m0)
  (E0_m1)))
; U
(declare-datatype E1 (
  (E1 (E1_eid String))))
; "u"
(declare-const t0 E1)
; f
(declare-fun f0 (E1) E0)
(define-fun t1 () E0 (f0 t0))
(define-fun t3 () Bool (= t1 E0_m0))
(assert t3)
(check-sat)
(pop 1)
; U
(declare-datatype E0 (
  (E0 (E0_eid String))))
; "u"
(declare-const t0 E0)
(define-fun t1 () E0 (E0 "x"))
(define-fun t2 () Bool (= t0 t1))
; T::[a, b]
(declare-datatype E1 (
  (E1_m0)
  (E1_m1)))
; f
(declare-fun f0 (E0) E1)
(define-fun t3 () E1 (f0 t0))
; "c"
(declare-const t4 E1)
(define-fun t5 () Bool (= t3 t4))
(assert t2)
(assert t5)
> (job (enums ("T" "a")) (vars ("c" (Entity "T"))) (funs) (steps (assert true) (check) (push) (assert (eq (var "c") (entity "T" "a"))) (check) (assert (eq (var "c") (entity "T" "b"))) (check)))
status 4, 34 bytes on diag, 233 on out
encode refused: EnumMissingMember
(declare-datatype Option (par (X) (
  (none)
  (some (val X)))))
(assert true)
(check-sat)
(push 1)
; T::[a]
(declare-datatype E0 (
  (E0_m0)))
; "c"
(declare-const t0 E0)
(define-fun t2 () Bool (= t0 E0_m0))
(assert t2)
(check-sat)
> (job (enums ("T" "a")) (vars ("c" (Entity "T"))) (funs) (steps (push) (assert (not (eq (var "c") (entity "T" "b")))) (pop) (assert true)))
status 4, 34 bytes on diag, 146 on out
encode refused: EnumMissingMember
(declare-datatype Option (par (X) (
  (none)
  (some (val X)))))
(push 1)
; T::[a]
(declare-datatype E0 (
  (E0_m0)))
; "c"
(declare-const t0 E0)
> (job (enums ("T")) (vars ("c" (Entity "T"))) (funs) (steps (check) (push) (assert true (eq (var "c") (entity "T" "b")))))
status 4, 26 bytes on diag, 86 on out
encode refused: EmptyEnum
(check-sat)
(declare-datatype Option (par (X) (
  (none)
  (some (val X)))))
(push 1)
> (job (enums) (vars ("b" Bool)) (funs) (steps (pop)))
status 3, 24 bytes on diag, 0 on out
job refused: Unbalanced
> (job (enums) (vars ("b" Bool)) (funs) (steps (push) (pop) (pop) (push)))
status 3, 24 bytes on diag, 0 on out
job refused: Unbalanced
> (job (enums) (vars ("b" Bool)) (funs) (steps (check) (pop) (foo)))
status 3, 24 bytes on diag, 0 on out
job refused: Unbalanced
> (job (enums) (vars ("b" Bool)) (funs) (steps (assert (bv 8 0)) (pop)))
status 3, 21 bytes on diag, 0 on out
job refused: NotBool
> (job (enums) (vars ("b" Bool)) (funs) (steps (push) (assert true (bv 8 0))))
status 3, 21 bytes on diag, 0 on out
job refused: NotBool
> (job (enums) (vars ("b" Bool)) (funs) (steps (assert (foo)) (pop)))
status 3, 25 bytes on diag, 0 on out
job refused: UnknownName
> (job (enums) (vars ("b" Bool)) (funs) (steps (pop 1)))
status 3, 21 bytes on diag, 0 on out
job refused: BadForm
> (job (enums) (vars ("b" Bool)) (funs) (steps (push 1)))
status 3, 21 bytes on diag, 0 on out
job refused: BadForm
> (job (enums) (vars ("b" Bool)) (funs) (steps (check true)))
status 3, 21 bytes on diag, 0 on out
job refused: BadForm
> (job (enums) (vars ("b" Bool)) (funs) (steps (pop ())))
status 3, 21 bytes on diag, 0 on out
job refused: BadForm
> (job (enums) (vars ("b" Bool)) (funs) (steps (asserts true)))
status 3, 21 bytes on diag, 0 on out
job refused: BadForm
> (job (enums) (vars ("b" Bool)) (funs) (steps (reset)))
status 3, 21 bytes on diag, 0 on out
job refused: BadForm
> (job (enums) (vars ("b" Bool)) (funs) (steps (not (var "b"))))
status 3, 21 bytes on diag, 0 on out
job refused: BadForm
> (job (enums) (vars ("b" Bool)) (funs) (steps true))
status 3, 21 bytes on diag, 0 on out
job refused: BadForm
> (job (enums) (vars ("b" Bool)) (funs) (steps push))
status 3, 21 bytes on diag, 0 on out
job refused: BadForm
> (job (enums) (vars ("b" Bool)) (funs) (steps ()))
status 3, 21 bytes on diag, 0 on out
job refused: BadForm
> (job (enums) (vars ("b" Bool)) (funs) (steps ("push")))
status 3, 21 bytes on diag, 0 on out
job refused: BadForm
> (job (enums) (vars ("b" Bool)) (funs) (steps ((push))))
status 3, 21 bytes on diag, 0 on out
job refused: BadForm
> (job (enums) (vars ("b" Bool)) (funs) (step (push)))
status 3, 21 bytes on diag, 0 on out
job refused: BadForm
> (job (enums) (vars ("b" Bool)) (funs) (steps (pop)) (terms))
status 3, 24 bytes on diag, 0 on out
job refused: Unbalanced
> (job (enums) (vars ("b" Bool)) (funs) (steps (push)) (terms))
status 3, 21 bytes on diag, 0 on out
job refused: BadForm
> (job (enums) (vars ("b" Bool)) (funs) (terms) (steps (pop)))
status 3, 21 bytes on diag, 0 on out
job refused: BadForm
> (job (enums) (vars ("b" Bool)) (funs) (steps (pop) (assert #b)))
status 3, 19 bytes on diag, 0 on out
job refused: Parse
"##;
