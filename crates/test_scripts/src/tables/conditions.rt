//! Conditions of policies.

/// The rows.
pub(crate) const ROWS: &str =
    r#"> var:principal:@User made:app:attrs[User]:@User:%src=32,joined=64,dept=string made:record_get:dept made:string_like:eng* text:vpn var:principal:@User made:app:tags[User]:@User:*string made:set_member var:principal:@User made:app:attrs[User]:@User:%src=32,joined=64,dept=string made:record_get:src bits:32:24 made:bvlshr bits:32:10 made:eq var:principal:@User made:app:attrs[User]:@User:%src=32,joined=64,dept=string made:record_get:joined bits:64:1728950400000 made:bvslt
(declare-datatype Option (par (X) (
  (none)
  (some (val X)))))
; {dept, joined, src}
(declare-datatype R0 (
  (R0 (R0_a0 String) (R0_a1 (_ BitVec 64)) (R0_a2 (_ BitVec 32)))))
; User
(declare-datatype E1 (
  (E1 (E1_eid String))))
; "principal"
(declare-const t0 E1)
; attrs[User]
(declare-fun f0 (E1) R0)
(define-fun t1 () R0 (f0 t0))
(define-fun t2 () String (R0_a0 t1))
(define-fun t3 () Bool (str.in_re t2 (re.++ (str.to_re "e") (str.to_re "n") (str.to_re "g") (re.* re.allchar))))
; tags[User]
(declare-fun f1 (E1) (Set String))
(define-fun t4 () (Set String) (f1 t0))
(define-fun t5 () Bool (set.member "vpn" t4))
(define-fun t6 () (_ BitVec 32) (R0_a2 t1))
(define-fun t7 () (_ BitVec 32) (bvlshr t6 (_ bv24 32)))
(define-fun t8 () Bool (= t7 (_ bv10 32)))
(define-fun t9 () (_ BitVec 64) (R0_a1 t1))
(define-fun t10 () Bool (bvslt t9 (_ bv1728950400000 64)))
(assert t3)
(assert t5)
(assert t8)
(assert t10)
> var:principal:@User made:app:attrs[User]:@User:%dept=string,joined=datetime,src=ip made:record_get:dept made:string_like:eng* text:vpn var:principal:@User made:app:tags[User]:@User:*string made:set_member var:principal:@User made:app:attrs[User]:@User:%dept=string,joined=datetime,src=ip made:record_get:src made:extension:ipaddr.isV4 var:principal:@User made:app:attrs[User]:@User:%dept=string,joined=datetime,src=ip made:record_get:src made:extension:ipaddr.addrV4 bits:32:24 made:bvlshr bits:32:10 made:eq made:and var:principal:@User made:app:attrs[User]:@User:%dept=string,joined=datetime,src=ip made:record_get:joined made:extension:datetime.val datetime:2024-10-15 made:extension:datetime.val made:bvslt
(declare-datatype Option (par (X) (
  (none)
  (some (val X)))))
(declare-datatype Datetime (
  (Datetime (datetimeVal (_ BitVec 64)))))
(declare-datatype IPAddr (
  (V4 (addrV4 (_ BitVec 32)) (prefixV4 (Option (_ BitVec 5))))
  (V6 (addrV6 (_ BitVec 128)) (prefixV6 (Option (_ BitVec 7))))))
; {dept, joined, src}
(declare-datatype R2 (
  (R2 (R2_a0 String) (R2_a1 Datetime) (R2_a2 IPAddr))))
; User
(declare-datatype E3 (
  (E3 (E3_eid String))))
; "principal"
(declare-const t0 E3)
; attrs[User]
(declare-fun f0 (E3) R2)
(define-fun t1 () R2 (f0 t0))
(define-fun t2 () String (R2_a0 t1))
(define-fun t3 () Bool (str.in_re t2 (re.++ (str.to_re "e") (str.to_re "n") (str.to_re "g") (re.* re.allchar))))
; tags[User]
(declare-fun f1 (E3) (Set String))
(define-fun t4 () (Set String) (f1 t0))
(define-fun t5 () Bool (set.member "vpn" t4))
(define-fun t6 () IPAddr (R2_a2 t1))
(define-fun t7 () Bool ((_ is V4) t6))
(define-fun t8 () (_ BitVec 32) (addrV4 t6))
(define-fun t9 () (_ BitVec 32) (bvlshr t8 (_ bv24 32)))
(define-fun t10 () Bool (= t9 (_ bv10 32)))
(define-fun t11 () Bool (and t7 t10))
(define-fun t12 () Datetime (R2_a1 t1))
(define-fun t13 () (_ BitVec 64) (datetimeVal t12))
(define-fun t14 () Bool (bvslt t13 (_ bv1728950400000 64)))
(assert t3)
(assert t5)
(assert t11)
(assert t14)
"#;
