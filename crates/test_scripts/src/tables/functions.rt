//! Uninterpreted functions.

/// The rows.
pub(crate) const ROWS: &str = r#"> var:x:8 call:f:8:bool
(declare-datatype Option (par (X) (
  (none)
  (some (val X)))))
; "x"
(declare-const t0 (_ BitVec 8))
; f
(declare-fun f0 ((_ BitVec 8)) Bool)
(define-fun t1 () Bool (f0 t0))
(assert t1)
> var:b:bool call:flag:bool:8 byte:7 eq
(declare-datatype Option (par (X) (
  (none)
  (some (val X)))))
; "b"
(declare-const t0 Bool)
; flag
(declare-fun f0 (Bool) (_ BitVec 8))
(define-fun t1 () (_ BitVec 8) (f0 t0))
(define-fun t2 () Bool (= t1 (_ bv7 8)))
(assert t2)
> var:x:8 call:f:8:bool var:y:8 call:f:8:bool not
(declare-datatype Option (par (X) (
  (none)
  (some (val X)))))
; "x"
(declare-const t0 (_ BitVec 8))
; f
(declare-fun f0 ((_ BitVec 8)) Bool)
(define-fun t1 () Bool (f0 t0))
; "y"
(declare-const t2 (_ BitVec 8))
(define-fun t3 () Bool (f0 t2))
(define-fun t4 () Bool (not t3))
(assert t1)
(assert t4)
> var:x:8 call:f:8:bool var:x:8 call:f:8:bool not var:x:8 call:f:8:bool
(declare-datatype Option (par (X) (
  (none)
  (some (val X)))))
; "x"
(declare-const t0 (_ BitVec 8))
; f
(declare-fun f0 ((_ BitVec 8)) Bool)
(define-fun t1 () Bool (f0 t0))
(define-fun t2 () Bool (not t1))
(assert t1)
(assert t2)
(assert t1)
> var:x:8 call:f:8:bool var:b:bool call:f:bool:bool var:x:8 call:f:8:string text:a eq
(declare-datatype Option (par (X) (
  (none)
  (some (val X)))))
; "x"
(declare-const t0 (_ BitVec 8))
; f
(declare-fun f0 ((_ BitVec 8)) Bool)
(define-fun t1 () Bool (f0 t0))
; "b"
(declare-const t2 Bool)
; f
(declare-fun f1 (Bool) Bool)
(define-fun t3 () Bool (f1 t2))
; f
(declare-fun f2 ((_ BitVec 8)) String)
(define-fun t4 () String (f2 t0))
(define-fun t5 () Bool (= t4 "a"))
(assert t1)
(assert t3)
(assert t5)
> var:x:8 call:g:8:bool var:x:8 call:f:8:bool var:y:8 call:g:8:bool
(declare-datatype Option (par (X) (
  (none)
  (some (val X)))))
; "x"
(declare-const t0 (_ BitVec 8))
; g
(declare-fun f0 ((_ BitVec 8)) Bool)
(define-fun t1 () Bool (f0 t0))
; f
(declare-fun f1 ((_ BitVec 8)) Bool)
(define-fun t2 () Bool (f1 t0))
; "y"
(declare-const t3 (_ BitVec 8))
(define-fun t4 () Bool (f0 t3))
(assert t1)
(assert t2)
(assert t4)
> var:x:8 call:f:8:8 call:f:8:8 call:g:8:bool
(declare-datatype Option (par (X) (
  (none)
  (some (val X)))))
; "x"
(declare-const t0 (_ BitVec 8))
; f
(declare-fun f0 ((_ BitVec 8)) (_ BitVec 8))
(define-fun t1 () (_ BitVec 8) (f0 t0))
(define-fun t2 () (_ BitVec 8) (f0 t1))
; g
(declare-fun f1 ((_ BitVec 8)) Bool)
(define-fun t3 () Bool (f1 t2))
(assert t3)
> var:x:8 call:f:8:8 var:x:8 eq var:x:8 var:x:8 call:f:8:8 call:f:8:8 eq
(declare-datatype Option (par (X) (
  (none)
  (some (val X)))))
; "x"
(declare-const t0 (_ BitVec 8))
; f
(declare-fun f0 ((_ BitVec 8)) (_ BitVec 8))
(define-fun t1 () (_ BitVec 8) (f0 t0))
(define-fun t2 () Bool (= t1 t0))
(define-fun t3 () (_ BitVec 8) (f0 t1))
(define-fun t4 () Bool (= t0 t3))
(assert t2)
(assert t4)
> byte:7 call:f:8:bool true call:p:bool:bool text:a\"\\ call:q:string:bool
(declare-datatype Option (par (X) (
  (none)
  (some (val X)))))
; f
(declare-fun f0 ((_ BitVec 8)) Bool)
(define-fun t0 () Bool (f0 (_ bv7 8)))
; p
(declare-fun f1 (Bool) Bool)
(define-fun t1 () Bool (f1 true))
; q
(declare-fun f2 (String) Bool)
(define-fun t2 () Bool (f2 "a""\u{5c}"))
(assert t0)
(assert t1)
(assert t2)
> var:u:@User call:boss:@User:@User entity:User:alice eq
(declare-datatype Option (par (X) (
  (none)
  (some (val X)))))
; User
(declare-datatype E0 (
  (E0 (E0_eid String))))
; "u"
(declare-const t0 E0)
; boss
(declare-fun f0 (E0) E0)
(define-fun t1 () E0 (f0 t0))
(define-fun t2 () E0 (E0 "alice"))
(define-fun t3 () Bool (= t1 t2))
(assert t3)
> entity:User:alice call:group:@User:@Group entity:Group:staff eq
(declare-datatype Option (par (X) (
  (none)
  (some (val X)))))
; Group
(declare-datatype E0 (
  (E0 (E0_eid String))))
; User
(declare-datatype E1 (
  (E1 (E1_eid String))))
(define-fun t0 () E1 (E1 "alice"))
; group
(declare-fun f0 (E1) E0)
(define-fun t1 () E0 (f0 t0))
(define-fun t2 () E0 (E0 "staff"))
(define-fun t3 () Bool (= t1 t2))
(assert t3)
> var:u:@User call:active:@User:bool var:g:@Group call:active:@Group:bool
(declare-datatype Option (par (X) (
  (none)
  (some (val X)))))
; User
(declare-datatype E0 (
  (E0 (E0_eid String))))
; "u"
(declare-const t0 E0)
; active
(declare-fun f0 (E0) Bool)
(define-fun t1 () Bool (f0 t0))
; Group
(declare-datatype E1 (
  (E1 (E1_eid String))))
; "g"
(declare-const t2 E1)
; active
(declare-fun f1 (E1) Bool)
(define-fun t3 () Bool (f1 t2))
(assert t1)
(assert t3)
> entity:User:a call:boss:@User:?@User option.get call:teams:@User:*@Group entity:Group:a set:1:@Group set.subset
(declare-datatype Option (par (X) (
  (none)
  (some (val X)))))
; Group
(declare-datatype E0 (
  (E0 (E0_eid String))))
; User
(declare-datatype E1 (
  (E1 (E1_eid String))))
(define-fun t0 () E1 (E1 "a"))
; boss
(declare-fun f0 (E1) (Option E1))
(define-fun t1 () (Option E1) (f0 t0))
(define-fun t2 () E1 (val t1))
; teams
(declare-fun f1 (E1) (Set E0))
(define-fun t3 () (Set E0) (f1 t2))
(define-fun t4 () E0 (E0 "a"))
(define-fun t5 () (Set E0) (set.insert t4 (as set.empty (Set E0))))
(define-fun t6 () Bool (set.subset t3 t5))
(assert t6)
> entity:Group:staff var:u:@User call:teams:@User:*@Group set.member
(declare-datatype Option (par (X) (
  (none)
  (some (val X)))))
; Group
(declare-datatype E0 (
  (E0 (E0_eid String))))
(define-fun t0 () E0 (E0 "staff"))
; User
(declare-datatype E1 (
  (E1 (E1_eid String))))
; "u"
(declare-const t1 E1)
; teams
(declare-fun f0 (E1) (Set E0))
(define-fun t2 () (Set E0) (f0 t1))
(define-fun t3 () Bool (set.member t0 t2))
(assert t3)
> none:@User call:known:?@User:bool set:0:@Group call:small:*@Group:bool
(declare-datatype Option (par (X) (
  (none)
  (some (val X)))))
; User
(declare-datatype E0 (
  (E0 (E0_eid String))))
(define-fun t0 () (Option E0) (as none (Option E0)))
; known
(declare-fun f0 ((Option E0)) Bool)
(define-fun t1 () Bool (f0 t0))
; Group
(declare-datatype E1 (
  (E1 (E1_eid String))))
(define-fun t2 () (Set E1) (as set.empty (Set E1)))
; small
(declare-fun f1 ((Set E1)) Bool)
(define-fun t3 () Bool (f1 t2))
(assert t1)
(assert t3)
> enum:Color:b:a:b entity:Color:b call:next:@Color:@Color var:c:@Color eq
(declare-datatype Option (par (X) (
  (none)
  (some (val X)))))
; Color::[a, b]
(declare-datatype E0 (
  (E0_m0)
  (E0_m1)))
; next
(declare-fun f0 (E0) E0)
(define-fun t1 () E0 (f0 E0_m1))
; "c"
(declare-const t2 E0)
(define-fun t3 () Bool (= t1 t2))
(assert t3)
> enum:Color:b:a var:c:@Color call:mix:@Color:*@Color entity:Color:a set:1:@Color eq
(declare-datatype Option (par (X) (
  (none)
  (some (val X)))))
; Color::[a, b]
(declare-datatype E0 (
  (E0_m0)
  (E0_m1)))
; "c"
(declare-const t0 E0)
; mix
(declare-fun f0 (E0) (Set E0))
(define-fun t1 () (Set E0) (f0 t0))
(define-fun t3 () (Set E0) (set.insert E0_m0 (as set.empty (Set E0))))
(define-fun t4 () Bool (= t1 t3))
(assert t4)
> var:b:bool var:x:8 byte:1 ite call:f:8:bool
(declare-datatype Option (par (X) (
  (none)
  (some (val X)))))
; "b"
(declare-const t0 Bool)
; "x"
(declare-const t1 (_ BitVec 8))
(define-fun t2 () (_ BitVec 8) (ite t0 t1 (_ bv1 8)))
; f
(declare-fun f0 ((_ BitVec 8)) Bool)
(define-fun t3 () Bool (f0 t2))
(assert t3)
> var:f:8 call:f:8:bool var:f:bool call:f:bool:bool
(declare-datatype Option (par (X) (
  (none)
  (some (val X)))))
; "f"
(declare-const t0 (_ BitVec 8))
; f
(declare-fun f0 ((_ BitVec 8)) Bool)
(define-fun t1 () Bool (f0 t0))
; "f"
(declare-const t2 Bool)
; f
(declare-fun f1 (Bool) Bool)
(define-fun t3 () Bool (f1 t2))
(assert t1)
(assert t3)
"#;
