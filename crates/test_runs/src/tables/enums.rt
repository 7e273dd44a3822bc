//! Enum types, and what is wrong with some.

/// The rows.
pub(crate) const ROWS: &str = r##"> (job (enums ("C" "r")) (vars) (funs) (terms))
status 0, 0 bytes on diag, 65 on out
(declare-datatype Option (par (X) (
  (none)
  (some (val X)))))
> (job (enums ("Color" "red" "green" "red")) (vars ("x" (Entity "Color"))) (funs) (terms (eq (var "x") (entity "Color" "red"))))
status 0, 0 bytes on diag, 209 on out
(declare-datatype Option (par (X) (
  (none)
  (some (val X)))))
; Color::[green, red]
(declare-datatype E0 (
  (E0_m0)
  (E0_m1)))
; "x"
(declare-const t0 E0)
(define-fun t2 () Bool (= t0 E0_m1))
(assert t2)
> (job (enums ("B" "1") ("A" "b" "a")) (vars ("x" (Entity "A")) ("y" (Entity "B"))) (funs) (terms (not (eq (var "x") (entity "A" "b"))) (eq (var "y") (entity "B" "1"))))
status 0, 0 bytes on diag, 353 on out
(declare-datatype Option (par (X) (
  (none)
  (some (val X)))))
; A::[a, b]
(declare-datatype E0 (
  (E0_m0)
  (E0_m1)))
; "x"
(declare-const t0 E0)
(define-fun t2 () Bool (= t0 E0_m1))
(define-fun t3 () Bool (not t2))
; B::[1]
(declare-datatype E1 (
  (E1_m0)))
; "y"
(declare-const t4 E1)
(define-fun t6 () Bool (= t4 E1_m0))
(assert t3)
(assert t6)
> (job (enums ("Color" "red")) (vars ("x" (Entity "Color"))) (funs) (terms (eq (var "x") (entity "Color" "blue"))))
status 4, 34 bytes on diag, 143 on out
encode refused: EnumMissingMember
(declare-datatype Option (par (X) (
  (none)
  (some (val X)))))
; Color::[red]
(declare-datatype E0 (
  (E0_m0)))
; "x"
(declare-const t0 E0)
> (job (enums ("Color")) (vars ("x" (Entity "Color"))) (funs) (terms (eq (var "x") (var "x")) (not (eq (var "x") (entity "Color" "red")))))
status 4, 26 bytes on diag, 65 on out
encode refused: EmptyEnum
(declare-datatype Option (par (X) (
  (none)
  (some (val X)))))
> (job (enums ("Color")) (vars) (funs) (terms true))
status 0, 0 bytes on diag, 79 on out
(declare-datatype Option (par (X) (
  (none)
  (some (val X)))))
(assert true)
> (job (enums ("T\u{a}\u{22}" "a\u{a};\u{5c}u" "")) (vars ("x" (Entity "T\u{a}\u{22}"))) (funs) (terms (not (eq (var "x") (entity "T\u{a}\u{22}" "")))))
status 0, 0 bytes on diag, 237 on out
(declare-datatype Option (par (X) (
  (none)
  (some (val X)))))
; T "::[, a ;\u]
(declare-datatype E0 (
  (E0_m0)
  (E0_m1)))
; "x"
(declare-const t0 E0)
(define-fun t2 () Bool (= t0 E0_m0))
(define-fun t3 () Bool (not t2))
(assert t3)
> (job (enums ("T" "a") ("T" "b")) (vars ("x" Foo)) (funs) (terms))
status 3, 27 bytes on diag, 0 on out
job refused: DuplicateName
> (job (enums ("T" "a") ("T" 5)) (vars) (funs) (terms))
status 3, 21 bytes on diag, 0 on out
job refused: BadForm
> (job (enums ("T" T)) (vars) (funs) (terms))
status 3, 21 bytes on diag, 0 on out
job refused: BadForm
> (job (enums ()) (vars) (funs) (terms))
status 3, 21 bytes on diag, 0 on out
job refused: BadForm
> (job (enums "T") (vars) (funs) (terms))
status 3, 21 bytes on diag, 0 on out
job refused: BadForm
> (job (enums (T "a")) (vars ("x" Foo)) (funs) (terms))
status 3, 21 bytes on diag, 0 on out
job refused: BadForm
> (job (enum ("T" "a")) (vars) (funs) (terms))
status 3, 21 bytes on diag, 0 on out
job refused: BadForm
"##;
