//! Boolean operators.

/// The rows.
pub(crate) const ROWS: &str = r#"> 
(declare-datatype Option (par (X) (
  (none)
  (some (val X)))))
> var:b:bool not
(declare-datatype Option (par (X) (
  (none)
  (some (val X)))))
; "b"
(declare-const t0 Bool)
(define-fun t1 () Bool (not t0))
(assert t1)
> true
(declare-datatype Option (par (X) (
  (none)
  (some (val X)))))
(assert true)
> var:b:bool var:b:bool var:b:bool not
(declare-datatype Option (par (X) (
  (none)
  (some (val X)))))
; "b"
(declare-const t0 Bool)
(define-fun t1 () Bool (not t0))
(assert t0)
(assert t0)
(assert t1)
> var:a\"b\\c\nd\u{7f}\u{e9}\u{4e2d}:bool
(declare-datatype Option (par (X) (
  (none)
  (some (val X)))))
; "a\"b\\c\nd\u{7f}é中"
(declare-const t0 Bool)
(assert t0)
> var:b:bool var:b:bool var:c:bool and var:c:bool or var:b:bool var:c:bool and ite
(declare-datatype Option (par (X) (
  (none)
  (some (val X)))))
; "b"
(declare-const t0 Bool)
; "c"
(declare-const t1 Bool)
(define-fun t2 () Bool (and t0 t1))
(define-fun t3 () Bool (or t2 t1))
(define-fun t4 () Bool (ite t0 t3 t2))
(assert t4)
"#;
