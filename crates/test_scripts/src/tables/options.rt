//! Options.

/// The rows.
pub(crate) const ROWS: &str = r#"> none:@User var:o:?@User eq
(declare-datatype Option (par (X) (
  (none)
  (some (val X)))))
; User
(declare-datatype E0 (
  (E0 (E0_eid String))))
(define-fun t0 () (Option E0) (as none (Option E0)))
; "o"
(declare-const t1 (Option E0))
(define-fun t2 () Bool (= t0 t1))
(assert t2)
> var:o:?@User entity:User:alice some eq
(declare-datatype Option (par (X) (
  (none)
  (some (val X)))))
; User
(declare-datatype E0 (
  (E0 (E0_eid String))))
; "o"
(declare-const t0 (Option E0))
(define-fun t1 () E0 (E0 "alice"))
(define-fun t2 () (Option E0) (some t1))
(define-fun t3 () Bool (= t0 t2))
(assert t3)
> var:o:?@User option.get entity:User:alice eq
(declare-datatype Option (par (X) (
  (none)
  (some (val X)))))
; User
(declare-datatype E0 (
  (E0 (E0_eid String))))
; "o"
(declare-const t0 (Option E0))
(define-fun t1 () E0 (val t0))
(define-fun t2 () E0 (E0 "alice"))
(define-fun t3 () Bool (= t1 t2))
(assert t3)
> var:u:@User some some var:o:??@User eq none:?@User none:@User some eq
(declare-datatype Option (par (X) (
  (none)
  (some (val X)))))
; User
(declare-datatype E0 (
  (E0 (E0_eid String))))
; "u"
(declare-const t0 E0)
(define-fun t1 () (Option E0) (some t0))
(define-fun t2 () (Option (Option E0)) (some t1))
; "o"
(declare-const t3 (Option (Option E0)))
(define-fun t4 () Bool (= t2 t3))
(define-fun t5 () (Option (Option E0)) (as none (Option (Option E0))))
(define-fun t6 () (Option E0) (as none (Option E0)))
(define-fun t7 () (Option (Option E0)) (some t6))
(define-fun t8 () Bool (= t5 t7))
(assert t4)
(assert t8)
> enum:Color:b:a:b none:@Color var:o:?@Color eq entity:Color:b some var:o:?@Color eq
(declare-datatype Option (par (X) (
  (none)
  (some (val X)))))
; Color::[a, b]
(declare-datatype E0 (
  (E0_m0)
  (E0_m1)))
(define-fun t0 () (Option E0) (as none (Option E0)))
; "o"
(declare-const t1 (Option E0))
(define-fun t2 () Bool (= t0 t1))
(define-fun t4 () (Option E0) (some E0_m1))
(define-fun t5 () Bool (= t4 t1))
(assert t2)
(assert t5)
> enum:Color:a:b var:o:?@Color option.get entity:Color:a eq
(declare-datatype Option (par (X) (
  (none)
  (some (val X)))))
; Color::[a, b]
(declare-datatype E0 (
  (E0_m0)
  (E0_m1)))
; "o"
(declare-const t0 (Option E0))
(define-fun t1 () E0 (val t0))
(define-fun t3 () Bool (= t1 E0_m0))
(assert t3)
> none:@User none:@User eq none:@Group none:@Group eq
(declare-datatype Option (par (X) (
  (none)
  (some (val X)))))
; User
(declare-datatype E0 (
  (E0 (E0_eid String))))
(define-fun t0 () (Option E0) (as none (Option E0)))
(define-fun t1 () Bool (= t0 t0))
; Group
(declare-datatype E1 (
  (E1 (E1_eid String))))
(define-fun t2 () (Option E1) (as none (Option E1)))
(define-fun t3 () Bool (= t2 t2))
(assert t1)
(assert t3)
> var:o:?8 byte:7 some eq var:p:?@User none:@User eq
(declare-datatype Option (par (X) (
  (none)
  (some (val X)))))
; "o"
(declare-const t0 (Option (_ BitVec 8)))
(define-fun t1 () (Option (_ BitVec 8)) (some (_ bv7 8)))
(define-fun t2 () Bool (= t0 t1))
; User
(declare-datatype E0 (
  (E0 (E0_eid String))))
; "p"
(declare-const t3 (Option E0))
(define-fun t4 () (Option E0) (as none (Option E0)))
(define-fun t5 () Bool (= t3 t4))
(assert t2)
(assert t5)
> byte:7 some none:8 eq none:8 option.get byte:7 eq none:8 some none:?8 eq
(declare-datatype Option (par (X) (
  (none)
  (some (val X)))))
(define-fun t0 () (Option (_ BitVec 8)) (some (_ bv7 8)))
(define-fun t1 () (Option (_ BitVec 8)) (as none (Option (_ BitVec 8))))
(define-fun t2 () Bool (= t0 t1))
(define-fun t3 () (_ BitVec 8) (val t1))
(define-fun t4 () Bool (= t3 (_ bv7 8)))
(define-fun t5 () (Option (Option (_ BitVec 8))) (some t1))
(define-fun t6 () (Option (Option (_ BitVec 8))) (as none (Option (Option (_ BitVec 8)))))
(define-fun t7 () Bool (= t5 t6))
(assert t2)
(assert t4)
(assert t7)
"#;
