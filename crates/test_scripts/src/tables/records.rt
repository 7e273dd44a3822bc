//! Records.

/// The rows.
pub(crate) const ROWS: &str = r#"> var:r:%a\rb=bool record.get=a\rb
(declare-datatype Option (par (X) (
  (none)
  (some (val X)))))
; {a b}
(declare-datatype R0 (
  (R0 (R0_a0 Bool))))
; "r"
(declare-const t0 R0)
(define-fun t1 () Bool (R0_a0 t0))
(assert t1)
> var:r:% record: eq
(declare-datatype Option (par (X) (
  (none)
  (some (val X)))))
; {}
(declare-datatype R0 (
  (R0 )))
; "r"
(declare-const t0 R0)
(define-fun t1 () R0 R0)
(define-fun t2 () Bool (= t0 t1))
(assert t2)
> var:x:bool var:y:8 record:b,a record.get=b
(declare-datatype Option (par (X) (
  (none)
  (some (val X)))))
; {a, b}
(declare-datatype R0 (
  (R0 (R0_a0 (_ BitVec 8)) (R0_a1 Bool))))
; "y"
(declare-const t0 (_ BitVec 8))
; "x"
(declare-const t1 Bool)
(define-fun t2 () R0 (R0 t0 t1))
(define-fun t3 () Bool (R0_a1 t2))
(assert t3)
> var:x:8 var:y:bool var:z:8 record:a,b,a var:z:8 var:y:bool record:a,b eq
(declare-datatype Option (par (X) (
  (none)
  (some (val X)))))
; {a, b}
(declare-datatype R0 (
  (R0 (R0_a0 (_ BitVec 8)) (R0_a1 Bool))))
; "z"
(declare-const t0 (_ BitVec 8))
; "y"
(declare-const t1 Bool)
(define-fun t2 () R0 (R0 t0 t1))
(define-fun t3 () Bool (= t2 t2))
(assert t3)
> var:x:bool record:c var:y:8 record:a,ab record.get=a record.get=c var:p:%b=bool,c=?@User,a=*string record.get=c entity:User:alice some eq
(declare-datatype Option (par (X) (
  (none)
  (some (val X)))))
; {c}
(declare-datatype R0 (
  (R0 (R0_a0 Bool))))
; {a, ab}
(declare-datatype R1 (
  (R1 (R1_a0 R0) (R1_a1 (_ BitVec 8)))))
; "x"
(declare-const t0 Bool)
(define-fun t1 () R0 (R0 t0))
; "y"
(declare-const t2 (_ BitVec 8))
(define-fun t3 () R1 (R1 t1 t2))
(define-fun t4 () R0 (R1_a0 t3))
(define-fun t5 () Bool (R0_a0 t4))
; User
(declare-datatype E2 (
  (E2 (E2_eid String))))
; {a, b, c}
(declare-datatype R3 (
  (R3 (R3_a0 (Set String)) (R3_a1 Bool) (R3_a2 (Option E2)))))
; "p"
(declare-const t6 R3)
(define-fun t7 () (Option E2) (R3_a2 t6))
(define-fun t8 () E2 (E2 "alice"))
(define-fun t9 () (Option E2) (some t8))
(define-fun t10 () Bool (= t7 t9))
(assert t5)
(assert t10)
> var:r:%a=bool var:s:%a=bool eq var:t:%a=8,b=bool record.get=b
(declare-datatype Option (par (X) (
  (none)
  (some (val X)))))
; {a}
(declare-datatype R0 (
  (R0 (R0_a0 Bool))))
; "r"
(declare-const t0 R0)
; "s"
(declare-const t1 R0)
(define-fun t2 () Bool (= t0 t1))
; {a, b}
(declare-datatype R1 (
  (R1 (R1_a0 (_ BitVec 8)) (R1_a1 Bool))))
; "t"
(declare-const t3 R1)
(define-fun t4 () Bool (R1_a1 t3))
(assert t2)
(assert t4)
> var:x:bool record:c record:b var:y:8 some record:a,b record.get=a record.get=b record.get=c
(declare-datatype Option (par (X) (
  (none)
  (some (val X)))))
; {c}
(declare-datatype R0 (
  (R0 (R0_a0 Bool))))
; {b}
(declare-datatype R1 (
  (R1 (R1_a0 R0))))
; {a, b}
(declare-datatype R2 (
  (R2 (R2_a0 R1) (R2_a1 (Option (_ BitVec 8))))))
; "x"
(declare-const t0 Bool)
(define-fun t1 () R0 (R0 t0))
(define-fun t2 () R1 (R1 t1))
; "y"
(declare-const t3 (_ BitVec 8))
(define-fun t4 () (Option (_ BitVec 8)) (some t3))
(define-fun t5 () R2 (R2 t2 t4))
(define-fun t6 () R1 (R2_a0 t5))
(define-fun t7 () R0 (R1_a0 t6))
(define-fun t8 () Bool (R0_a0 t7))
(assert t8)
> var:r:?%a=bool option.get record.get=a var:r:%a=bool var:m:*%a=bool set.member
(declare-datatype Option (par (X) (
  (none)
  (some (val X)))))
; {a}
(declare-datatype R0 (
  (R0 (R0_a0 Bool))))
; "r"
(declare-const t0 (Option R0))
(define-fun t1 () R0 (val t0))
(define-fun t2 () Bool (R0_a0 t1))
; "r"
(declare-const t3 R0)
; "m"
(declare-const t4 (Set R0))
(define-fun t5 () Bool (set.member t3 t4))
(assert t2)
(assert t5)
> entity:User:a var:u:@User record:tag,entity record.get=entity var:u:@User eq
(declare-datatype Option (par (X) (
  (none)
  (some (val X)))))
; User
(declare-datatype E0 (
  (E0 (E0_eid String))))
; {entity, tag}
(declare-datatype R1 (
  (R1 (R1_a0 E0) (R1_a1 E0))))
; "u"
(declare-const t0 E0)
(define-fun t1 () E0 (E0 "a"))
(define-fun t2 () R1 (R1 t0 t1))
(define-fun t3 () E0 (R1_a0 t2))
(define-fun t4 () Bool (= t3 t0))
(assert t4)
> var:r:%=bool,\n=bool,"=bool,\\=bool,|=bool,;=bool,{=bool,}=bool,\u{e9}=bool,a.b=bool record.get=
(declare-datatype Option (par (X) (
  (none)
  (some (val X)))))
; {,  , ", ;, \, a.b, {, |, }, é}
(declare-datatype R0 (
  (R0 (R0_a0 Bool) (R0_a1 Bool) (R0_a2 Bool) (R0_a3 Bool) (R0_a4 Bool) (R0_a5 Bool) (R0_a6 Bool) (R0_a7 Bool) (R0_a8 Bool) (R0_a9 Bool))))
; "r"
(declare-const t0 R0)
(define-fun t1 () Bool (R0_a0 t0))
(assert t1)
> enum:Color:a,b var:r:%c=@Color record.get=c entity:Color:a,b eq
(declare-datatype Option (par (X) (
  (none)
  (some (val X)))))
; Color::[a,b]
(declare-datatype E0 (
  (E0_m0)))
; {c}
(declare-datatype R1 (
  (R1 (R1_a0 E0))))
; "r"
(declare-const t0 R1)
(define-fun t1 () E0 (R1_a0 t0))
(define-fun t3 () Bool (= t1 E0_m0))
(assert t3)
> enum:Void var:r:%a=bool,v=@Void record.get=a
(declare-datatype Option (par (X) (
  (none)
  (some (val X)))))
refused: EmptyEnum Void
> enum:Void var:x:bool record.get=a
(declare-datatype Option (par (X) (
  (none)
  (some (val X)))))
; "x"
(declare-const t0 Bool)
refused: an attribute is taken of a type that has no name
> var:x:bool record.get=a
(declare-datatype Option (par (X) (
  (none)
  (some (val X)))))
; "x"
(declare-const t0 Bool)
refused: an attribute is taken of a type that has no name
> entity:User:a record.get=a
(declare-datatype Option (par (X) (
  (none)
  (some (val X)))))
; User
(declare-datatype E0 (
  (E0 (E0_eid String))))
(define-fun t0 () E0 (E0 "a"))
refused: ExpectRecord User
> var:r:%a=bool record.get=b
(declare-datatype Option (par (X) (
  (none)
  (some (val X)))))
; {a}
(declare-datatype R0 (
  (R0 (R0_a0 Bool))))
; "r"
(declare-const t0 R0)
refused: RecordMissingAttr "b"
> var:r:%a=bool record.get=A\n
(declare-datatype Option (par (X) (
  (none)
  (some (val X)))))
; {a}
(declare-datatype R0 (
  (R0 (R0_a0 Bool))))
; "r"
(declare-const t0 R0)
refused: RecordMissingAttr "A\n"
> app:record.get=a:0:bool
(declare-datatype Option (par (X) (
  (none)
  (some (val X)))))
refused: an attribute is taken of no term
> text:\u{30000} record:a record.get=b
(declare-datatype Option (par (X) (
  (none)
  (some (val X)))))
; {a}
(declare-datatype R0 (
  (R0 (R0_a0 String))))
refused: EncodeStringFailed "𰀀"
> var:r:%a=bool call:f:%a=bool:%a=8,b=bool record.get=b
(declare-datatype Option (par (X) (
  (none)
  (some (val X)))))
; {a, b}
(declare-datatype R0 (
  (R0 (R0_a0 (_ BitVec 8)) (R0_a1 Bool))))
; {a}
(declare-datatype R1 (
  (R1 (R1_a0 Bool))))
; "r"
(declare-const t0 R1)
; f
(declare-fun f0 (R1) R0)
(define-fun t1 () R0 (f0 t0))
(define-fun t2 () Bool (R0_a1 t1))
(assert t2)
"#;
