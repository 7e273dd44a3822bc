//! Names, ids and strings of any characters.

/// The rows.
pub(crate) const ROWS: &str = "> var:u:@User entity:User:\\\"\\\\\\r\\n\\u{2ffff} eq
(declare-datatype Option (par (X) (
  (none)
  (some (val X)))))
; User
(declare-datatype E0 (
  (E0 (E0_eid String))))
; \"u\"
(declare-const t0 E0)
(define-fun t1 () E0 (E0 \"\"\"\\u{5c}\\u{d}\\u{a}\\u{2ffff}\"))
(define-fun t2 () Bool (= t0 t1))
(assert t2)
> var:u:@User entity:User:\\u{0}\\u{7f}\\u{20}~\\u{3a}\\u{e9} eq
(declare-datatype Option (par (X) (
  (none)
  (some (val X)))))
; User
(declare-datatype E0 (
  (E0 (E0_eid String))))
; \"u\"
(declare-const t0 E0)
(define-fun t1 () E0 (E0 \"\\u{0}\\u{7f} ~:\\u{e9}\"))
(define-fun t2 () Bool (= t0 t1))
(assert t2)
> var:u:@User entity:User:\\\\u{41} eq
(declare-datatype Option (par (X) (
  (none)
  (some (val X)))))
; User
(declare-datatype E0 (
  (E0 (E0_eid String))))
; \"u\"
(declare-const t0 E0)
(define-fun t1 () E0 (E0 \"\\u{5c}u{41}\"))
(define-fun t2 () Bool (= t0 t1))
(assert t2)
> var:u:@User entity:User:\\\"\\\"\\\\\\\" eq
(declare-datatype Option (par (X) (
  (none)
  (some (val X)))))
; User
(declare-datatype E0 (
  (E0 (E0_eid String))))
; \"u\"
(declare-const t0 E0)
(define-fun t1 () E0 (E0 \"\"\"\"\"\\u{5c}\"\"\"))
(define-fun t2 () Bool (= t0 t1))
(assert t2)
> var:\\\"\\\\\\r\\nu:@User entity:User:u eq
(declare-datatype Option (par (X) (
  (none)
  (some (val X)))))
; User
(declare-datatype E0 (
  (E0 (E0_eid String))))
; \"\\\"\\\\\\r\\nu\"
(declare-const t0 E0)
(define-fun t1 () E0 (E0 \"u\"))
(define-fun t2 () Bool (= t0 t1))
(assert t2)
> var:\\u{e9}\\u{10ffff}:@User entity:User:u eq
(declare-datatype Option (par (X) (
  (none)
  (some (val X)))))
; User
(declare-datatype E0 (
  (E0 (E0_eid String))))
; \"é􏿿\"
(declare-const t0 E0)
(define-fun t1 () E0 (E0 \"u\"))
(define-fun t2 () Bool (= t0 t1))
(assert t2)
> enum:Color:\\\"\\\\\\r\\n\\u{2ffff}:\\u{30000} var:c:@Color entity:Color:\\u{30000} eq var:c:@Color entity:Color:\\\"\\\\\\r\\n\\u{2ffff} eq
(declare-datatype Option (par (X) (
  (none)
  (some (val X)))))
; Color::[\"\\  𯿿, 𰀀]
(declare-datatype E0 (
  (E0_m0)
  (E0_m1)))
; \"c\"
(declare-const t0 E0)
(define-fun t2 () Bool (= t0 E0_m1))
(define-fun t4 () Bool (= t0 E0_m0))
(assert t2)
(assert t4)
> var:u:@Us\\r\\ner[(\\u{20});\\u{7c}] entity:Us\\r\\ner[(\\u{20});\\u{7c}]:a eq
(declare-datatype Option (par (X) (
  (none)
  (some (val X)))))
; Us  er[( );|]
(declare-datatype E0 (
  (E0 (E0_eid String))))
; \"u\"
(declare-const t0 E0)
(define-fun t1 () E0 (E0 \"a\"))
(define-fun t2 () Bool (= t0 t1))
(assert t2)
> enum:Co\\n[lor\\r:a]\\r\\nb:(c,\\u{20}d\\n var:c:@Co\\n[lor\\r entity:Co\\n[lor\\r:a]\\r\\nb eq
(declare-datatype Option (par (X) (
  (none)
  (some (val X)))))
; Co [lor ::[(c, d , a]  b]
(declare-datatype E0 (
  (E0_m0)
  (E0_m1)))
; \"c\"
(declare-const t0 E0)
(define-fun t2 () Bool (= t0 E0_m1))
(assert t2)
> enum:Co\\nlor:a enum:Co\\rlor:a var:c:@Co\\nlor entity:Co\\nlor:a eq var:d:@Co\\rlor entity:Co\\rlor:a eq
(declare-datatype Option (par (X) (
  (none)
  (some (val X)))))
; Co lor::[a]
(declare-datatype E0 (
  (E0_m0)))
; \"c\"
(declare-const t0 E0)
(define-fun t2 () Bool (= t0 E0_m0))
; Co lor::[a]
(declare-datatype E1 (
  (E1_m0)))
; \"d\"
(declare-const t3 E1)
(define-fun t5 () Bool (= t3 E1_m0))
(assert t2)
(assert t5)
> enum:Color:a\\r:a:a\\n var:c:@Color entity:Color:a\\n eq var:c:@Color entity:Color:a\\r eq
(declare-datatype Option (par (X) (
  (none)
  (some (val X)))))
; Color::[a, a , a ]
(declare-datatype E0 (
  (E0_m0)
  (E0_m1)
  (E0_m2)))
; \"c\"
(declare-const t0 E0)
(define-fun t2 () Bool (= t0 E0_m1))
(define-fun t4 () Bool (= t0 E0_m2))
(assert t2)
(assert t4)
> var:x:bool call:|:bool:bool
(declare-datatype Option (par (X) (
  (none)
  (some (val X)))))
; \"x\"
(declare-const t0 Bool)
; |
(declare-fun f0 (Bool) Bool)
(define-fun t1 () Bool (f0 t0))
(assert t1)
> var:x:bool call:\\\\:bool:bool
(declare-datatype Option (par (X) (
  (none)
  (some (val X)))))
; \"x\"
(declare-const t0 Bool)
; \\
(declare-fun f0 (Bool) Bool)
(define-fun t1 () Bool (f0 t0))
(assert t1)
> var:x:bool call:a\\rb\\nc\\r\\nd:bool:bool
(declare-datatype Option (par (X) (
  (none)
  (some (val X)))))
; \"x\"
(declare-const t0 Bool)
; a b c  d
(declare-fun f0 (Bool) Bool)
(define-fun t1 () Bool (f0 t0))
(assert t1)
> var:x:bool call:\\n(assert\\u{20}false)\\r:bool:bool
(declare-datatype Option (par (X) (
  (none)
  (some (val X)))))
; \"x\"
(declare-const t0 Bool)
;  (assert false) 
(declare-fun f0 (Bool) Bool)
(define-fun t1 () Bool (f0 t0))
(assert t1)
> var:x:bool call:\\\"\\\"\\\"\\\\\\\":bool:bool
(declare-datatype Option (par (X) (
  (none)
  (some (val X)))))
; \"x\"
(declare-const t0 Bool)
; \"\"\"\\\"
(declare-fun f0 (Bool) Bool)
(define-fun t1 () Bool (f0 t0))
(assert t1)
> var:x:bool call:\\u{e9}\\u{2028}\\u{10ffff}\\u{30000}:bool:bool
(declare-datatype Option (par (X) (
  (none)
  (some (val X)))))
; \"x\"
(declare-const t0 Bool)
; é\u{2028}􏿿𰀀
(declare-fun f0 (Bool) Bool)
(define-fun t1 () Bool (f0 t0))
(assert t1)
> var:x:bool call::bool:bool
(declare-datatype Option (par (X) (
  (none)
  (some (val X)))))
; \"x\"
(declare-const t0 Bool)
; 
(declare-fun f0 (Bool) Bool)
(define-fun t1 () Bool (f0 t0))
(assert t1)
> var:x:bool call:f1:bool:bool var:x:bool call:f0:bool:bool var:x:bool call:t0:bool:bool var:x:bool call:declare-fun:bool:bool
(declare-datatype Option (par (X) (
  (none)
  (some (val X)))))
; \"x\"
(declare-const t0 Bool)
; f1
(declare-fun f0 (Bool) Bool)
(define-fun t1 () Bool (f0 t0))
; f0
(declare-fun f1 (Bool) Bool)
(define-fun t2 () Bool (f1 t0))
; t0
(declare-fun f2 (Bool) Bool)
(define-fun t3 () Bool (f2 t0))
; declare-fun
(declare-fun f3 (Bool) Bool)
(define-fun t4 () Bool (f3 t0))
(assert t1)
(assert t2)
(assert t3)
(assert t4)
> var:x:bool call:a\\n:bool:bool var:x:bool call:a\\r:bool:bool var:x:bool call:a\\u{20}:bool:bool
(declare-datatype Option (par (X) (
  (none)
  (some (val X)))))
; \"x\"
(declare-const t0 Bool)
; a 
(declare-fun f0 (Bool) Bool)
(define-fun t1 () Bool (f0 t0))
; a 
(declare-fun f1 (Bool) Bool)
(define-fun t2 () Bool (f1 t0))
; a 
(declare-fun f2 (Bool) Bool)
(define-fun t3 () Bool (f2 t0))
(assert t1)
(assert t2)
(assert t3)
> var:u:@Us\\r\\ner call:;\\u{20}(\\u{3a})\\u{7c}:@Us\\r\\ner:bool
(declare-datatype Option (par (X) (
  (none)
  (some (val X)))))
; Us  er
(declare-datatype E0 (
  (E0 (E0_eid String))))
; \"u\"
(declare-const t0 E0)
; ; (:)|
(declare-fun f0 (E0) Bool)
(define-fun t1 () Bool (f0 t0))
(assert t1)
";
