//! Strings.

/// The rows.
pub(crate) const ROWS: &str = r#"> text:\"\\\\u{5c}\n\r\u{0}\u{7f}\u{2ffff}\u{20}~ text: eq
(declare-datatype Option (par (X) (
  (none)
  (some (val X)))))
(define-fun t0 () Bool (= """\u{5c}\u{5c}u{5c}\u{a}\u{d}\u{0}\u{7f}\u{2ffff} ~" ""))
(assert t0)
> var:s:string string.like= var:s:string string.like=a var:s:string string.like=* var:s:string string.like=\"*\u{2ffff}
(declare-datatype Option (par (X) (
  (none)
  (some (val X)))))
; "s"
(declare-const t0 String)
(define-fun t1 () Bool (str.in_re t0 (str.to_re "")))
(define-fun t2 () Bool (str.in_re t0 (str.to_re "a")))
(define-fun t3 () Bool (str.in_re t0 (re.* re.allchar)))
(define-fun t4 () Bool (str.in_re t0 (re.++ (str.to_re """") (re.* re.allchar) (str.to_re "\u{2ffff}"))))
(assert t1)
(assert t2)
(assert t3)
(assert t4)
"#;
