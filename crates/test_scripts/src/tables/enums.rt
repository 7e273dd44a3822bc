//! Enum types.

/// The rows.
pub(crate) const ROWS: &str =
    r#"> enum:Color:b:a:b entity:Color:b var:c:@Color eq var:c:@Color entity:Color:a eq not
(declare-datatype Option (par (X) (
  (none)
  (some (val X)))))
; Color::[a, b]
(declare-datatype E0 (
  (E0_m0)
  (E0_m1)))
; "c"
(declare-const t1 E0)
(define-fun t2 () Bool (= E0_m1 t1))
(define-fun t4 () Bool (= t1 E0_m0))
(define-fun t5 () Bool (not t4))
(assert t2)
(assert t5)
> enum:Color:b:a:b var:c:@Color entity:Color:b eq entity:Color:b entity:Color:a eq
(declare-datatype Option (par (X) (
  (none)
  (some (val X)))))
; Color::[a, b]
(declare-datatype E0 (
  (E0_m0)
  (E0_m1)))
; "c"
(declare-const t0 E0)
(define-fun t2 () Bool (= t0 E0_m1))
(define-fun t4 () Bool (= E0_m1 E0_m0))
(assert t2)
(assert t4)
> enum:One:only var:x:@One var:y:@One eq
(declare-datatype Option (par (X) (
  (none)
  (some (val X)))))
; One::[only]
(declare-datatype E0 (
  (E0_m0)))
; "x"
(declare-const t0 E0)
; "y"
(declare-const t1 E0)
(define-fun t2 () Bool (= t0 t1))
(assert t2)
> enum:Letter:aa:\u{e9}:a:B var:l:@Letter entity:Letter:B eq var:l:@Letter entity:Letter:a eq var:l:@Letter entity:Letter:aa eq var:l:@Letter entity:Letter:\u{e9} eq
(declare-datatype Option (par (X) (
  (none)
  (some (val X)))))
; Letter::[B, a, aa, é]
(declare-datatype E0 (
  (E0_m0)
  (E0_m1)
  (E0_m2)
  (E0_m3)))
; "l"
(declare-const t0 E0)
(define-fun t2 () Bool (= t0 E0_m0))
(define-fun t4 () Bool (= t0 E0_m1))
(define-fun t6 () Bool (= t0 E0_m2))
(define-fun t8 () Bool (= t0 E0_m3))
(assert t2)
(assert t4)
(assert t6)
(assert t8)
> enum:Twelve:a:b:c:d:e:f:g:h:i:j:k:l var:x:@Twelve entity:Twelve:k eq var:x:@Twelve entity:Twelve:b eq
(declare-datatype Option (par (X) (
  (none)
  (some (val X)))))
; Twelve::[a, b, c, d, e, f, g, h, i, j, k, l]
(declare-datatype E0 (
  (E0_m0)
  (E0_m1)
  (E0_m2)
  (E0_m3)
  (E0_m4)
  (E0_m5)
  (E0_m6)
  (E0_m7)
  (E0_m8)
  (E0_m9)
  (E0_m10)
  (E0_m11)))
; "x"
(declare-const t0 E0)
(define-fun t2 () Bool (= t0 E0_m10))
(define-fun t4 () Bool (= t0 E0_m1))
(assert t2)
(assert t4)
> enum:Blank:a: entity:Blank: var:x:@Blank eq
(declare-datatype Option (par (X) (
  (none)
  (some (val X)))))
; Blank::[, a]
(declare-datatype E0 (
  (E0_m0)
  (E0_m1)))
; "x"
(declare-const t1 E0)
(define-fun t2 () Bool (= E0_m0 t1))
(assert t2)
> enum:Color:a var:c:@Color entity:Color:a eq var:d:@Colors entity:Colors:a eq var:e:@color entity:color:a eq
(declare-datatype Option (par (X) (
  (none)
  (some (val X)))))
; Color::[a]
(declare-datatype E0 (
  (E0_m0)))
; "c"
(declare-const t0 E0)
(define-fun t2 () Bool (= t0 E0_m0))
; Colors
(declare-datatype E1 (
  (E1 (E1_eid String))))
; "d"
(declare-const t3 E1)
(define-fun t4 () E1 (E1 "a"))
(define-fun t5 () Bool (= t3 t4))
; color
(declare-datatype E2 (
  (E2 (E2_eid String))))
; "e"
(declare-const t6 E2)
(define-fun t7 () E2 (E2 "a"))
(define-fun t8 () Bool (= t6 t7))
(assert t2)
(assert t5)
(assert t8)
> enum:Color:a:b enum:Colour:b:c var:c:@Color entity:Color:b eq var:d:@Colour entity:Colour:b eq
(declare-datatype Option (par (X) (
  (none)
  (some (val X)))))
; Color::[a, b]
(declare-datatype E0 (
  (E0_m0)
  (E0_m1)))
; "c"
(declare-const t0 E0)
(define-fun t2 () Bool (= t0 E0_m1))
; Colour::[b, c]
(declare-datatype E1 (
  (E1_m0)
  (E1_m1)))
; "d"
(declare-const t3 E1)
(define-fun t5 () Bool (= t3 E1_m0))
(assert t2)
(assert t5)
> enum:Color:a:b enum:Void var:u:@User entity:User:a eq
(declare-datatype Option (par (X) (
  (none)
  (some (val X)))))
; User
(declare-datatype E0 (
  (E0 (E0_eid String))))
; "u"
(declare-const t0 E0)
(define-fun t1 () E0 (E0 "a"))
(define-fun t2 () Bool (= t0 t1))
(assert t2)
> enum:Ns\u{3a}\u{3a}Color:a var:c:@Ns\u{3a}\u{3a}Color entity:Ns\u{3a}\u{3a}Color:a eq var:d:@Color entity:Color:a eq
(declare-datatype Option (par (X) (
  (none)
  (some (val X)))))
; Ns::Color::[a]
(declare-datatype E0 (
  (E0_m0)))
; "c"
(declare-const t0 E0)
(define-fun t2 () Bool (= t0 E0_m0))
; Color
(declare-datatype E1 (
  (E1 (E1_eid String))))
; "d"
(declare-const t3 E1)
(define-fun t4 () E1 (E1 "a"))
(define-fun t5 () Bool (= t3 t4))
(assert t2)
(assert t5)
> enum:Color:a:b var:u:@User entity:User:a eq var:c:@Color entity:Color:b eq var:v:@User entity:User:b eq
(declare-datatype Option (par (X) (
  (none)
  (some (val X)))))
; User
(declare-datatype E0 (
  (E0 (E0_eid String))))
; "u"
(declare-const t0 E0)
(define-fun t1 () E0 (E0 "a"))
(define-fun t2 () Bool (= t0 t1))
; Color::[a, b]
(declare-datatype E1 (
  (E1_m0)
  (E1_m1)))
; "c"
(declare-const t3 E1)
(define-fun t5 () Bool (= t3 E1_m1))
; "v"
(declare-const t6 E0)
(define-fun t7 () E0 (E0 "b"))
(define-fun t8 () Bool (= t6 t7))
(assert t2)
(assert t5)
(assert t8)
> enum:Color:a
(declare-datatype Option (par (X) (
  (none)
  (some (val X)))))
> enum:Color:a:b var:c:@Color entity:Color:a eq var:c:@Color entity:Color:a eq
(declare-datatype Option (par (X) (
  (none)
  (some (val X)))))
; Color::[a, b]
(declare-datatype E0 (
  (E0_m0)
  (E0_m1)))
; "c"
(declare-const t0 E0)
(define-fun t2 () Bool (= t0 E0_m0))
(assert t2)
(assert t2)
> enum:Color:a:b var:b:bool entity:Color:b entity:Color:a ite var:c:@Color eq
(declare-datatype Option (par (X) (
  (none)
  (some (val X)))))
; Color::[a, b]
(declare-datatype E0 (
  (E0_m0)
  (E0_m1)))
; "b"
(declare-const t0 Bool)
(define-fun t3 () E0 (ite t0 E0_m1 E0_m0))
; "c"
(declare-const t4 E0)
(define-fun t5 () Bool (= t3 t4))
(assert t5)
> enum:Option:some:none enum:E1:E0_m0 var:o:@Option entity:Option:none eq var:e:@E1 entity:E1:E0_m0 eq
(declare-datatype Option (par (X) (
  (none)
  (some (val X)))))
; Option::[none, some]
(declare-datatype E0 (
  (E0_m0)
  (E0_m1)))
; "o"
(declare-const t0 E0)
(define-fun t2 () Bool (= t0 E0_m0))
; E1::[E0_m0]
(declare-datatype E1 (
  (E1_m0)))
; "e"
(declare-const t3 E1)
(define-fun t5 () Bool (= t3 E1_m0))
(assert t2)
(assert t5)
"#;
