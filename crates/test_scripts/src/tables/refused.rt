//! Terms with faults.

/// The rows.
pub(crate) const ROWS: &str = r#"> enum:Color:b:a var:c:@Color entity:Color:z eq
(declare-datatype Option (par (X) (
  (none)
  (some (val X)))))
; Color::[a, b]
(declare-datatype E0 (
  (E0_m0)
  (E0_m1)))
; "c"
(declare-const t0 E0)
refused: EnumMissingMember Color::"z"
> enum:Color:b:a entity:Color:z var:c:@Color eq
(declare-datatype Option (par (X) (
  (none)
  (some (val X)))))
; Color::[a, b]
(declare-datatype E0 (
  (E0_m0)
  (E0_m1)))
refused: EnumMissingMember Color::"z"
> enum:Color:ab var:c:@Color entity:Color:a eq
(declare-datatype Option (par (X) (
  (none)
  (some (val X)))))
; Color::[ab]
(declare-datatype E0 (
  (E0_m0)))
; "c"
(declare-const t0 E0)
refused: EnumMissingMember Color::"a"
> enum:Color:a var:c:@Color entity:Color:A eq
(declare-datatype Option (par (X) (
  (none)
  (some (val X)))))
; Color::[a]
(declare-datatype E0 (
  (E0_m0)))
; "c"
(declare-const t0 E0)
refused: EnumMissingMember Color::"A"
> enum:Color:a var:c:@Color entity:Color:a eq entity:Color:\"\\\r\n var:c:@Color eq
(declare-datatype Option (par (X) (
  (none)
  (some (val X)))))
; Color::[a]
(declare-datatype E0 (
  (E0_m0)))
; "c"
(declare-const t0 E0)
(define-fun t2 () Bool (= t0 E0_m0))
refused: EnumMissingMember Color::"\"\\\r\n"
> enum:Color:a var:o:?@Color entity:Color:z some eq
(declare-datatype Option (par (X) (
  (none)
  (some (val X)))))
; Color::[a]
(declare-datatype E0 (
  (E0_m0)))
; "o"
(declare-const t0 (Option E0))
refused: EnumMissingMember Color::"z"
> enum:Color:a var:s:*@Color entity:Color:z entity:Color:a set:2:@Color eq
(declare-datatype Option (par (X) (
  (none)
  (some (val X)))))
; Color::[a]
(declare-datatype E0 (
  (E0_m0)))
; "s"
(declare-const t0 (Set E0))
refused: EnumMissingMember Color::"z"
> enum:Void none:@Void var:o:?@Void eq
(declare-datatype Option (par (X) (
  (none)
  (some (val X)))))
refused: EmptyEnum Void
> enum:Void var:v:@Void entity:Void:a eq
(declare-datatype Option (par (X) (
  (none)
  (some (val X)))))
refused: EmptyEnum Void
> enum:Void entity:Void:a var:v:@Void eq
(declare-datatype Option (par (X) (
  (none)
  (some (val X)))))
refused: EmptyEnum Void
> enum:Void var:u:@User entity:User:a eq set:0:@Void var:s:*@Void eq
(declare-datatype Option (par (X) (
  (none)
  (some (val X)))))
; User
(declare-datatype E0 (
  (E0 (E0_eid String))))
; "u"
(declare-const t0 E0)
(define-fun t1 () E0 (E0 "a"))
(define-fun t2 () Bool (= t0 t1))
refused: EmptyEnum Void
> enum:Void enum:Color:a none:@Void var:o:?@Void eq var:c:@Color entity:Color:z eq
(declare-datatype Option (par (X) (
  (none)
  (some (val X)))))
refused: EmptyEnum Void
> enum:Void enum:Color:a var:c:@Color entity:Color:z eq none:@Void var:o:?@Void eq
(declare-datatype Option (par (X) (
  (none)
  (some (val X)))))
; Color::[a]
(declare-datatype E0 (
  (E0_m0)))
; "c"
(declare-const t0 E0)
refused: EnumMissingMember Color::"z"
> var:u:@User entity:User:a\u{30000} eq
(declare-datatype Option (par (X) (
  (none)
  (some (val X)))))
; User
(declare-datatype E0 (
  (E0 (E0_eid String))))
; "u"
(declare-const t0 E0)
refused: EncodeStringFailed "a𰀀"
> var:u:@User entity:User:\u{2ffff} eq entity:User:\u{10ffff}\"\n var:u:@User eq
(declare-datatype Option (par (X) (
  (none)
  (some (val X)))))
; User
(declare-datatype E0 (
  (E0 (E0_eid String))))
; "u"
(declare-const t0 E0)
(define-fun t1 () E0 (E0 "\u{2ffff}"))
(define-fun t2 () Bool (= t0 t1))
refused: EncodeStringFailed "􏿿\"\n"
> enum:Color:\u{30000} var:c:@Color entity:Color:\u{30000} eq entity:User:\u{30000} var:u:@User eq
(declare-datatype Option (par (X) (
  (none)
  (some (val X)))))
; Color::[𰀀]
(declare-datatype E0 (
  (E0_m0)))
; "c"
(declare-const t0 E0)
(define-fun t2 () Bool (= t0 E0_m0))
; User
(declare-datatype E1 (
  (E1 (E1_eid String))))
refused: EncodeStringFailed "𰀀"
> enum:Color:a var:u:@User entity:User:\u{30000} eq entity:Color:z var:c:@Color eq
(declare-datatype Option (par (X) (
  (none)
  (some (val X)))))
; User
(declare-datatype E0 (
  (E0 (E0_eid String))))
; "u"
(declare-const t0 E0)
refused: EncodeStringFailed "𰀀"
> enum:Color:a entity:Color:z call:f:@Color:bool
(declare-datatype Option (par (X) (
  (none)
  (some (val X)))))
; Color::[a]
(declare-datatype E0 (
  (E0_m0)))
refused: EnumMissingMember Color::"z"
> enum:Void var:x:bool call:f:bool:@Void var:v:@Void eq
(declare-datatype Option (par (X) (
  (none)
  (some (val X)))))
refused: EmptyEnum Void
> text:\u{30000} call:f:string:bool
(declare-datatype Option (par (X) (
  (none)
  (some (val X)))))
refused: EncodeStringFailed "𰀀"
> var:x:bool call:f:bool:bool enum:Color:a var:x:bool call:g:bool:@Color entity:Color:z eq
(declare-datatype Option (par (X) (
  (none)
  (some (val X)))))
; "x"
(declare-const t0 Bool)
; f
(declare-fun f0 (Bool) Bool)
(define-fun t1 () Bool (f0 t0))
; Color::[a]
(declare-datatype E0 (
  (E0_m0)))
; g
(declare-fun f1 (Bool) E0)
(define-fun t2 () E0 (f1 t0))
refused: EnumMissingMember Color::"z"
> text:a\u{30000} text:a eq
(declare-datatype Option (par (X) (
  (none)
  (some (val X)))))
refused: EncodeStringFailed "a𰀀"
> var:s:string string.like=*\u{30000}
(declare-datatype Option (par (X) (
  (none)
  (some (val X)))))
; "s"
(declare-const t0 String)
refused: EncodePatternFailed "*𰀀"
"#;
