//! Entities.

/// The rows.
pub(crate) const ROWS: &str = r#"> var:u:@User entity:User:alice eq
(declare-datatype Option (par (X) (
  (none)
  (some (val X)))))
; User
(declare-datatype E0 (
  (E0 (E0_eid String))))
; "u"
(declare-const t0 E0)
(define-fun t1 () E0 (E0 "alice"))
(define-fun t2 () Bool (= t0 t1))
(assert t2)
> entity:User:alice var:u:@User eq
(declare-datatype Option (par (X) (
  (none)
  (some (val X)))))
; User
(declare-datatype E0 (
  (E0 (E0_eid String))))
(define-fun t0 () E0 (E0 "alice"))
; "u"
(declare-const t1 E0)
(define-fun t2 () Bool (= t0 t1))
(assert t2)
> var:u:@User entity:User:alice eq var:g:@Group entity:Group:staff eq
(declare-datatype Option (par (X) (
  (none)
  (some (val X)))))
; User
(declare-datatype E0 (
  (E0 (E0_eid String))))
; "u"
(declare-const t0 E0)
(define-fun t1 () E0 (E0 "alice"))
(define-fun t2 () Bool (= t0 t1))
; Group
(declare-datatype E1 (
  (E1 (E1_eid String))))
; "g"
(declare-const t3 E1)
(define-fun t4 () E1 (E1 "staff"))
(define-fun t5 () Bool (= t3 t4))
(assert t2)
(assert t5)
> var:u:@User entity:User:alice eq entity:User:alice var:v:@User eq
(declare-datatype Option (par (X) (
  (none)
  (some (val X)))))
; User
(declare-datatype E0 (
  (E0 (E0_eid String))))
; "u"
(declare-const t0 E0)
(define-fun t1 () E0 (E0 "alice"))
(define-fun t2 () Bool (= t0 t1))
; "v"
(declare-const t3 E0)
(define-fun t4 () Bool (= t1 t3))
(assert t2)
(assert t4)
> entity:User:alice entity:User:alice eq
(declare-datatype Option (par (X) (
  (none)
  (some (val X)))))
; User
(declare-datatype E0 (
  (E0 (E0_eid String))))
(define-fun t0 () E0 (E0 "alice"))
(define-fun t1 () Bool (= t0 t0))
(assert t1)
> entity:User:alice entity:User:bob eq entity:User:alice entity:User:bob eq
(declare-datatype Option (par (X) (
  (none)
  (some (val X)))))
; User
(declare-datatype E0 (
  (E0 (E0_eid String))))
(define-fun t0 () E0 (E0 "alice"))
(define-fun t1 () E0 (E0 "bob"))
(define-fun t2 () Bool (= t0 t1))
(assert t2)
(assert t2)
> var:u:@User entity:User:a eq var:g:@Group entity:Group:a eq var:u:@User entity:User:a eq not
(declare-datatype Option (par (X) (
  (none)
  (some (val X)))))
; User
(declare-datatype E0 (
  (E0 (E0_eid String))))
; "u"
(declare-const t0 E0)
(define-fun t1 () E0 (E0 "a"))
(define-fun t2 () Bool (= t0 t1))
; Group
(declare-datatype E1 (
  (E1 (E1_eid String))))
; "g"
(declare-const t3 E1)
(define-fun t4 () E1 (E1 "a"))
(define-fun t5 () Bool (= t3 t4))
(define-fun t6 () Bool (not t2))
(assert t2)
(assert t5)
(assert t6)
> var:x:@User entity:User:a eq var:x:@Group entity:Group:a eq or
(declare-datatype Option (par (X) (
  (none)
  (some (val X)))))
; User
(declare-datatype E0 (
  (E0 (E0_eid String))))
; "x"
(declare-const t0 E0)
(define-fun t1 () E0 (E0 "a"))
(define-fun t2 () Bool (= t0 t1))
; Group
(declare-datatype E1 (
  (E1 (E1_eid String))))
; "x"
(declare-const t3 E1)
(define-fun t4 () E1 (E1 "a"))
(define-fun t5 () Bool (= t3 t4))
(define-fun t6 () Bool (or t2 t5))
(assert t6)
> var:b:bool entity:User:a entity:User:b ite var:u:@User eq
(declare-datatype Option (par (X) (
  (none)
  (some (val X)))))
; User
(declare-datatype E0 (
  (E0 (E0_eid String))))
; "b"
(declare-const t0 Bool)
(define-fun t1 () E0 (E0 "a"))
(define-fun t2 () E0 (E0 "b"))
(define-fun t3 () E0 (ite t0 t1 t2))
; "u"
(declare-const t4 E0)
(define-fun t5 () Bool (= t3 t4))
(assert t5)
> var:s:string text:alice eq var:u:@User entity:User:alice eq and
(declare-datatype Option (par (X) (
  (none)
  (some (val X)))))
; "s"
(declare-const t0 String)
(define-fun t1 () Bool (= t0 "alice"))
; User
(declare-datatype E0 (
  (E0 (E0_eid String))))
; "u"
(declare-const t2 E0)
(define-fun t3 () E0 (E0 "alice"))
(define-fun t4 () Bool (= t2 t3))
(define-fun t5 () Bool (and t1 t4))
(assert t5)
> true var:u:@User entity:User:alice eq
(declare-datatype Option (par (X) (
  (none)
  (some (val X)))))
; User
(declare-datatype E0 (
  (E0 (E0_eid String))))
; "u"
(declare-const t0 E0)
(define-fun t1 () E0 (E0 "alice"))
(define-fun t2 () Bool (= t0 t1))
(assert true)
(assert t2)
> entity:: var::@ eq
(declare-datatype Option (par (X) (
  (none)
  (some (val X)))))
; 
(declare-datatype E0 (
  (E0 (E0_eid String))))
(define-fun t0 () E0 (E0 ""))
; ""
(declare-const t1 E0)
(define-fun t2 () Bool (= t0 t1))
(assert t2)
> var:o:@Option entity:Option:none eq var:b:@Bool entity:Bool:true eq var:e:@E0 entity:E0:E0 eq
(declare-datatype Option (par (X) (
  (none)
  (some (val X)))))
; Option
(declare-datatype E0 (
  (E0 (E0_eid String))))
; "o"
(declare-const t0 E0)
(define-fun t1 () E0 (E0 "none"))
(define-fun t2 () Bool (= t0 t1))
; Bool
(declare-datatype E1 (
  (E1 (E1_eid String))))
; "b"
(declare-const t3 E1)
(define-fun t4 () E1 (E1 "true"))
(define-fun t5 () Bool (= t3 t4))
; E0
(declare-datatype E2 (
  (E2 (E2_eid String))))
; "e"
(declare-const t6 E2)
(define-fun t7 () E2 (E2 "E0"))
(define-fun t8 () Bool (= t6 t7))
(assert t2)
(assert t5)
(assert t8)
"#;
