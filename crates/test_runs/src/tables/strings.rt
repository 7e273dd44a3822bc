//! Strings, their escapes, and patterns.

/// The rows.
pub(crate) const ROWS: &str =
    r##"> (job (enums) (vars ("s" String)) (funs) (terms (string.like ("a" * "b") (var "s")) (eq (var "s") "k")))
status 0, 0 bytes on diag, 253 on out
(declare-datatype Option (par (X) (
  (none)
  (some (val X)))))
; "s"
(declare-const t0 String)
(define-fun t1 () Bool (str.in_re t0 (re.++ (str.to_re "a") (re.* re.allchar) (str.to_re "b"))))
(define-fun t2 () Bool (= t0 "k"))
(assert t1)
(assert t2)
> (job (enums) (vars ("s" String)) (funs) (terms (eq (var "s") "\u{41}\u{22}")))
status 0, 0 bytes on diag, 146 on out
(declare-datatype Option (par (X) (
  (none)
  (some (val X)))))
; "s"
(declare-const t0 String)
(define-fun t1 () Bool (= t0 "A"""))
(assert t1)
> (job (enums) (vars ("s" String)) (funs) (terms (eq (var "s") "a""b")))
status 0, 0 bytes on diag, 147 on out
(declare-datatype Option (par (X) (
  (none)
  (some (val X)))))
; "s"
(declare-const t0 String)
(define-fun t1 () Bool (= t0 "a""b"))
(assert t1)
> (job (enums) (vars ("s" String)) (funs) (terms (eq (var "s") "\u{2ffff}")))
status 0, 0 bytes on diag, 152 on out
(declare-datatype Option (par (X) (
  (none)
  (some (val X)))))
; "s"
(declare-const t0 String)
(define-fun t1 () Bool (= t0 "\u{2ffff}"))
(assert t1)
> (job (enums) (vars ("s" String)) (funs) (terms (string.like ("\u{2ffff}" *) (var "s"))))
status 0, 0 bytes on diag, 198 on out
(declare-datatype Option (par (X) (
  (none)
  (some (val X)))))
; "s"
(declare-const t0 String)
(define-fun t1 () Bool (str.in_re t0 (re.++ (str.to_re "\u{2ffff}") (re.* re.allchar))))
(assert t1)
> (job (enums) (vars) (funs) (terms (string.like ("a" "b" *) "abc") (string.like (*) "") (string.like () "a")))
status 0, 0 bytes on diag, 108 on out
(declare-datatype Option (par (X) (
  (none)
  (some (val X)))))
(assert true)
(assert true)
(assert false)
> (job (enums) (vars ("s" String)) (funs) (terms (eq (var "s") "a;b""c") (string.like ("\u00e9" * ";") (var "s"))))
status 0, 0 bytes on diag, 263 on out
(declare-datatype Option (par (X) (
  (none)
  (some (val X)))))
; "s"
(declare-const t0 String)
(define-fun t1 () Bool (= t0 "a;b""c"))
(define-fun t2 () Bool (str.in_re t0 (re.++ (str.to_re "\u{e9}") (re.* re.allchar) (str.to_re ";"))))
(assert t1)
(assert t2)
> (job (enums) (vars ("s" String)) (funs) (terms (eq (var "s") "\u{e9}\u03bb\u{1f600}\u{2ffff}") (not (eq (var "s") "\\u{30000}\u{}\u{d8000}\uD7F\q"))))
status 0, 0 bytes on diag, 313 on out
(declare-datatype Option (par (X) (
  (none)
  (some (val X)))))
; "s"
(declare-const t0 String)
(define-fun t1 () Bool (= t0 "\u{e9}\u{3bb}\u{1f600}\u{2ffff}"))
(define-fun t2 () Bool (= t0 "\u{5c}\u{5c}u{30000}\u{5c}u{}\u{5c}u{d8000}\u{5c}uD7F\u{5c}q"))
(define-fun t3 () Bool (not t2))
(assert t1)
(assert t3)
"##;
