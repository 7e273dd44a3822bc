//! Ids of variables and functions that stand in comments alone.

/// The rows.
pub(crate) const ROWS: &str = r##"> (job (enums) (vars ("a""b" Bool)) (funs) (terms (var "a""b")))
status 0, 0 bytes on diag, 110 on out
(declare-datatype Option (par (X) (
  (none)
  (some (val X)))))
; "a\"b"
(declare-const t0 Bool)
(assert t0)
> (job (enums) (vars ("" Bool)) (funs) (terms (var "")))
status 0, 0 bytes on diag, 106 on out
(declare-datatype Option (par (X) (
  (none)
  (some (val X)))))
; ""
(declare-const t0 Bool)
(assert t0)
> (job (enums) (vars (" a:b)(|c|, " Bool)) (funs) (terms (var " a:b)(|c|, ")))
status 0, 0 bytes on diag, 117 on out
(declare-datatype Option (par (X) (
  (none)
  (some (val X)))))
; " a:b)(|c|, "
(declare-const t0 Bool)
(assert t0)
> (job (enums) (vars ("x\u{d}(assert false)" Bool)) (funs) (terms (var "x\u{d}(assert false)")))
status 0, 0 bytes on diag, 123 on out
(declare-datatype Option (par (X) (
  (none)
  (some (val X)))))
; "x\r(assert false)"
(declare-const t0 Bool)
(assert t0)
> (job (enums) (vars) (funs ("f\u{a}(check-sat)" Bool Bool)) (terms (uuf "f\u{a}(check-sat)" true)))
status 0, 0 bytes on diag, 156 on out
(declare-datatype Option (par (X) (
  (none)
  (some (val X)))))
; f (check-sat)
(declare-fun f0 (Bool) Bool)
(define-fun t0 () Bool (f0 true))
(assert t0)
> (job (enums) (vars ("12" Bool)) (funs) (terms (var "12")))
status 0, 0 bytes on diag, 108 on out
(declare-datatype Option (par (X) (
  (none)
  (some (val X)))))
; "12"
(declare-const t0 Bool)
(assert t0)
> (job (enums) (vars ("it's" Bool)) (funs) (terms (var "it's")))
status 0, 0 bytes on diag, 110 on out
(declare-datatype Option (par (X) (
  (none)
  (some (val X)))))
; "it's"
(declare-const t0 Bool)
(assert t0)
> (job (enums) (vars ("a;b" Bool)) (funs) (terms (var "a;b")))
status 0, 0 bytes on diag, 109 on out
(declare-datatype Option (par (X) (
  (none)
  (some (val X)))))
; "a;b"
(declare-const t0 Bool)
(assert t0)
> (job (enums) (vars ("#b" Bool)) (funs) (terms (var "#b")))
status 0, 0 bytes on diag, 108 on out
(declare-datatype Option (par (X) (
  (none)
  (some (val X)))))
; "#b"
(declare-const t0 Bool)
(assert t0)
> (job (enums) (vars ("a\b" Bool)) (funs) (terms (var "a\b")))
status 0, 0 bytes on diag, 110 on out
(declare-datatype Option (par (X) (
  (none)
  (some (val X)))))
; "a\\b"
(declare-const t0 Bool)
(assert t0)
> (job (enums) (vars ("\u{5c}" Bool)) (funs) (terms (var "\u{5c}")))
status 0, 0 bytes on diag, 108 on out
(declare-datatype Option (par (X) (
  (none)
  (some (val X)))))
; "\\"
(declare-const t0 Bool)
(assert t0)
> (job (enums) (vars ("é" Bool)) (funs) (terms (var "é")))
status 0, 0 bytes on diag, 110 on out
(declare-datatype Option (par (X) (
  (none)
  (some (val X)))))
; "Ã©"
(declare-const t0 Bool)
(assert t0)
> (job (enums) (vars ("caf\u{e9} \u{5c}\u{a}" Bool)) (funs) (terms (not (var "caf\u{e9} \u{5c}\u{a}"))))
status 0, 0 bytes on diag, 149 on out
(declare-datatype Option (par (X) (
  (none)
  (some (val X)))))
; "café \\\n"
(declare-const t0 Bool)
(define-fun t1 () Bool (not t0))
(assert t1)
"##;
