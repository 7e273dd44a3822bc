//! Sets.

/// The rows.
pub(crate) const ROWS: &str = r#"> set:0:@User var:s:*@User eq
(declare-datatype Option (par (X) (
  (none)
  (some (val X)))))
; User
(declare-datatype E0 (
  (E0 (E0_eid String))))
(define-fun t0 () (Set E0) (as set.empty (Set E0)))
; "s"
(declare-const t1 (Set E0))
(define-fun t2 () Bool (= t0 t1))
(assert t2)
> var:u:@User entity:User:bob entity:User:alice entity:User:bob set:3:@User set.member
(declare-datatype Option (par (X) (
  (none)
  (some (val X)))))
; User
(declare-datatype E0 (
  (E0 (E0_eid String))))
; "u"
(declare-const t0 E0)
(define-fun t1 () E0 (E0 "alice"))
(define-fun t2 () E0 (E0 "bob"))
(define-fun t3 () (Set E0) (set.insert t1 t2 (as set.empty (Set E0))))
(define-fun t4 () Bool (set.member t0 t3))
(assert t4)
> entity:User:aa entity:User:\u{e9} entity:User:a entity:User:B set:4:@User var:s:*@User set.subset
(declare-datatype Option (par (X) (
  (none)
  (some (val X)))))
; User
(declare-datatype E0 (
  (E0 (E0_eid String))))
(define-fun t0 () E0 (E0 "B"))
(define-fun t1 () E0 (E0 "a"))
(define-fun t2 () E0 (E0 "aa"))
(define-fun t3 () E0 (E0 "\u{e9}"))
(define-fun t4 () (Set E0) (set.insert t0 t1 t2 t3 (as set.empty (Set E0))))
; "s"
(declare-const t5 (Set E0))
(define-fun t6 () Bool (set.subset t4 t5))
(assert t6)
> var:u:@User entity:User:alice set:2:@User var:s:*@User eq
(declare-datatype Option (par (X) (
  (none)
  (some (val X)))))
; User
(declare-datatype E0 (
  (E0 (E0_eid String))))
(define-fun t0 () E0 (E0 "alice"))
; "u"
(declare-const t1 E0)
(define-fun t2 () (Set E0) (set.insert t0 t1 (as set.empty (Set E0))))
; "s"
(declare-const t3 (Set E0))
(define-fun t4 () Bool (= t2 t3))
(assert t4)
> enum:Color:b:a:b entity:Color:b entity:Color:a set:2:@Color var:s:*@Color set.inter set:0:@Color eq
(declare-datatype Option (par (X) (
  (none)
  (some (val X)))))
; Color::[a, b]
(declare-datatype E0 (
  (E0_m0)
  (E0_m1)))
(define-fun t2 () (Set E0) (set.insert E0_m0 E0_m1 (as set.empty (Set E0))))
; "s"
(declare-const t3 (Set E0))
(define-fun t4 () (Set E0) (set.inter t2 t3))
(define-fun t5 () (Set E0) (as set.empty (Set E0)))
(define-fun t6 () Bool (= t4 t5))
(assert t6)
> enum:Color:b:a:b entity:Color:b entity:Color:a entity:Color:b set:3:@Color entity:Color:b entity:Color:a set:2:@Color eq
(declare-datatype Option (par (X) (
  (none)
  (some (val X)))))
; Color::[a, b]
(declare-datatype E0 (
  (E0_m0)
  (E0_m1)))
(define-fun t2 () (Set E0) (set.insert E0_m0 E0_m1 (as set.empty (Set E0))))
(define-fun t3 () Bool (= t2 t2))
(assert t3)
> entity:User:a some none:@User set:2:?@User var:s:*?@User eq
(declare-datatype Option (par (X) (
  (none)
  (some (val X)))))
; User
(declare-datatype E0 (
  (E0 (E0_eid String))))
(define-fun t0 () (Option E0) (as none (Option E0)))
(define-fun t1 () E0 (E0 "a"))
(define-fun t2 () (Option E0) (some t1))
(define-fun t3 () (Set (Option E0)) (set.insert t0 t2 (as set.empty (Set (Option E0)))))
; "s"
(declare-const t4 (Set (Option E0)))
(define-fun t5 () Bool (= t3 t4))
(assert t5)
> entity:User:b set:1:@User entity:User:a set:1:@User set:2:*@User var:s:**@User set.subset
(declare-datatype Option (par (X) (
  (none)
  (some (val X)))))
; User
(declare-datatype E0 (
  (E0 (E0_eid String))))
(define-fun t0 () E0 (E0 "a"))
(define-fun t1 () (Set E0) (set.insert t0 (as set.empty (Set E0))))
(define-fun t2 () E0 (E0 "b"))
(define-fun t3 () (Set E0) (set.insert t2 (as set.empty (Set E0))))
(define-fun t4 () (Set (Set E0)) (set.insert t1 t3 (as set.empty (Set (Set E0)))))
; "s"
(declare-const t5 (Set (Set E0)))
(define-fun t6 () Bool (set.subset t4 t5))
(assert t6)
> var:s:?*@User set:0:@User some eq
(declare-datatype Option (par (X) (
  (none)
  (some (val X)))))
; User
(declare-datatype E0 (
  (E0 (E0_eid String))))
; "s"
(declare-const t0 (Option (Set E0)))
(define-fun t1 () (Set E0) (as set.empty (Set E0)))
(define-fun t2 () (Option (Set E0)) (some t1))
(define-fun t3 () Bool (= t0 t2))
(assert t3)
> var:o:?@User option.get var:s:*@User set.member
(declare-datatype Option (par (X) (
  (none)
  (some (val X)))))
; User
(declare-datatype E0 (
  (E0 (E0_eid String))))
; "o"
(declare-const t0 (Option E0))
(define-fun t1 () E0 (val t0))
; "s"
(declare-const t2 (Set E0))
(define-fun t3 () Bool (set.member t1 t2))
(assert t3)
> byte:7 byte:7 byte:2 byte:7 set:3:8 set.member set:0:8 byte:7 byte:2 byte:7 set:3:8 set.subset byte:7 byte:2 byte:7 set:3:8 set:0:8 set.inter set:0:8 eq
(declare-datatype Option (par (X) (
  (none)
  (some (val X)))))
(define-fun t0 () (Set (_ BitVec 8)) (set.insert (_ bv2 8) (_ bv7 8) (as set.empty (Set (_ BitVec 8)))))
(define-fun t1 () Bool (set.member (_ bv7 8) t0))
(define-fun t2 () (Set (_ BitVec 8)) (as set.empty (Set (_ BitVec 8))))
(define-fun t3 () Bool (set.subset t2 t0))
(define-fun t4 () (Set (_ BitVec 8)) (set.inter t0 t2))
(define-fun t5 () Bool (= t4 t2))
(assert t1)
(assert t3)
(assert t5)
"#;
