//! The extension types.

/// The rows.
pub(crate) const ROWS: &str = r#"> var:d:decimal decimal:1.0 eq
(declare-datatype Option (par (X) (
  (none)
  (some (val X)))))
(declare-datatype Decimal (
  (Decimal (decimalVal (_ BitVec 64)))))
; "d"
(declare-const t0 Decimal)
(define-fun t1 () Decimal (Decimal (_ bv10000 64)))
(define-fun t2 () Bool (= t0 t1))
(assert t2)
> var:d:decimal decimal.val decimal:-0.0001 decimal.val bvslt
(declare-datatype Option (par (X) (
  (none)
  (some (val X)))))
(declare-datatype Decimal (
  (Decimal (decimalVal (_ BitVec 64)))))
; "d"
(declare-const t0 Decimal)
(define-fun t1 () (_ BitVec 64) (decimalVal t0))
(define-fun t2 () Decimal (Decimal (_ bv18446744073709551615 64)))
(define-fun t3 () (_ BitVec 64) (decimalVal t2))
(define-fun t4 () Bool (bvslt t1 t3))
(assert t4)
> var:t:datetime datetime:2024-10-15T11:38:02.101-1134 eq
(declare-datatype Option (par (X) (
  (none)
  (some (val X)))))
(declare-datatype Datetime (
  (Datetime (datetimeVal (_ BitVec 64)))))
; "t"
(declare-const t0 Datetime)
(define-fun t1 () Datetime (Datetime (_ bv1729033922101 64)))
(define-fun t2 () Bool (= t0 t1))
(assert t2)
> var:t:datetime datetime.val datetime.ofBitVec var:t:datetime eq
(declare-datatype Option (par (X) (
  (none)
  (some (val X)))))
(declare-datatype Datetime (
  (Datetime (datetimeVal (_ BitVec 64)))))
; "t"
(declare-const t0 Datetime)
(define-fun t1 () (_ BitVec 64) (datetimeVal t0))
(define-fun t2 () Datetime (Datetime t1))
(define-fun t3 () Bool (= t2 t0))
(assert t3)
> var:u:duration duration:-0h2s1ms eq
(declare-datatype Option (par (X) (
  (none)
  (some (val X)))))
(declare-datatype Duration (
  (Duration (durationVal (_ BitVec 64)))))
; "u"
(declare-const t0 Duration)
(define-fun t1 () Duration (Duration (_ bv18446744073709549615 64)))
(define-fun t2 () Bool (= t0 t1))
(assert t2)
> var:u:duration duration.val duration.ofBitVec var:u:duration eq
(declare-datatype Option (par (X) (
  (none)
  (some (val X)))))
(declare-datatype Duration (
  (Duration (durationVal (_ BitVec 64)))))
; "u"
(declare-const t0 Duration)
(define-fun t1 () (_ BitVec 64) (durationVal t0))
(define-fun t2 () Duration (Duration t1))
(define-fun t3 () Bool (= t2 t0))
(assert t3)
> var:i:ip ip:10.0.0.0/8 eq
(declare-datatype Option (par (X) (
  (none)
  (some (val X)))))
(declare-datatype IPAddr (
  (V4 (addrV4 (_ BitVec 32)) (prefixV4 (Option (_ BitVec 5))))
  (V6 (addrV6 (_ BitVec 128)) (prefixV6 (Option (_ BitVec 7))))))
; "i"
(declare-const t0 IPAddr)
(define-fun t1 () IPAddr (V4 (_ bv167772160 32) (some (_ bv8 5))))
(define-fun t2 () Bool (= t0 t1))
(assert t2)
> var:i:ip ip:1.2.3.4/32 eq
(declare-datatype Option (par (X) (
  (none)
  (some (val X)))))
(declare-datatype IPAddr (
  (V4 (addrV4 (_ BitVec 32)) (prefixV4 (Option (_ BitVec 5))))
  (V6 (addrV6 (_ BitVec 128)) (prefixV6 (Option (_ BitVec 7))))))
; "i"
(declare-const t0 IPAddr)
(define-fun t1 () IPAddr (V4 (_ bv16909060 32) (as none (Option (_ BitVec 5)))))
(define-fun t2 () Bool (= t0 t1))
(assert t2)
> var:i:ip ip:::1 eq
(declare-datatype Option (par (X) (
  (none)
  (some (val X)))))
(declare-datatype IPAddr (
  (V4 (addrV4 (_ BitVec 32)) (prefixV4 (Option (_ BitVec 5))))
  (V6 (addrV6 (_ BitVec 128)) (prefixV6 (Option (_ BitVec 7))))))
; "i"
(declare-const t0 IPAddr)
(define-fun t1 () IPAddr (V6 (_ bv1 128) (as none (Option (_ BitVec 7)))))
(define-fun t2 () Bool (= t0 t1))
(assert t2)
> var:i:ip ip:ff00::/8 eq
(declare-datatype Option (par (X) (
  (none)
  (some (val X)))))
(declare-datatype IPAddr (
  (V4 (addrV4 (_ BitVec 32)) (prefixV4 (Option (_ BitVec 5))))
  (V6 (addrV6 (_ BitVec 128)) (prefixV6 (Option (_ BitVec 7))))))
; "i"
(declare-const t0 IPAddr)
(define-fun t1 () IPAddr (V6 (_ bv338953138925153547590470800371487866880 128) (some (_ bv8 7))))
(define-fun t2 () Bool (= t0 t1))
(assert t2)
> var:i:ip ipaddr.isV4 var:i:ip ipaddr.addrV4 bits:32:0 eq var:i:ip ipaddr.prefixV4 bits:5:8 some eq
(declare-datatype Option (par (X) (
  (none)
  (some (val X)))))
(declare-datatype IPAddr (
  (V4 (addrV4 (_ BitVec 32)) (prefixV4 (Option (_ BitVec 5))))
  (V6 (addrV6 (_ BitVec 128)) (prefixV6 (Option (_ BitVec 7))))))
; "i"
(declare-const t0 IPAddr)
(define-fun t1 () Bool ((_ is V4) t0))
(define-fun t2 () (_ BitVec 32) (addrV4 t0))
(define-fun t3 () Bool (= t2 (_ bv0 32)))
(define-fun t4 () (Option (_ BitVec 5)) (prefixV4 t0))
(define-fun t5 () (Option (_ BitVec 5)) (some (_ bv8 5)))
(define-fun t6 () Bool (= t4 t5))
(assert t1)
(assert t3)
(assert t6)
> var:i:ip ipaddr.addrV6 bits:128:1 eq var:i:ip ipaddr.prefixV6 none:7 eq
(declare-datatype Option (par (X) (
  (none)
  (some (val X)))))
(declare-datatype IPAddr (
  (V4 (addrV4 (_ BitVec 32)) (prefixV4 (Option (_ BitVec 5))))
  (V6 (addrV6 (_ BitVec 128)) (prefixV6 (Option (_ BitVec 7))))))
; "i"
(declare-const t0 IPAddr)
(define-fun t1 () (_ BitVec 128) (addrV6 t0))
(define-fun t2 () Bool (= t1 (_ bv1 128)))
(define-fun t3 () (Option (_ BitVec 7)) (prefixV6 t0))
(define-fun t4 () (Option (_ BitVec 7)) (as none (Option (_ BitVec 7))))
(define-fun t5 () Bool (= t3 t4))
(assert t2)
(assert t5)
> ip:::1 ipaddr.addrV4 bits:32:7 eq
(declare-datatype Option (par (X) (
  (none)
  (some (val X)))))
(declare-datatype IPAddr (
  (V4 (addrV4 (_ BitVec 32)) (prefixV4 (Option (_ BitVec 5))))
  (V6 (addrV6 (_ BitVec 128)) (prefixV6 (Option (_ BitVec 7))))))
(define-fun t0 () IPAddr (V6 (_ bv1 128) (as none (Option (_ BitVec 7)))))
(define-fun t1 () (_ BitVec 32) (addrV4 t0))
(define-fun t2 () Bool (= t1 (_ bv7 32)))
(assert t2)
> decimal:1.0 decimal:2.0 set:2:decimal var:s:*decimal eq
(declare-datatype Option (par (X) (
  (none)
  (some (val X)))))
(declare-datatype Decimal (
  (Decimal (decimalVal (_ BitVec 64)))))
(define-fun t0 () Decimal (Decimal (_ bv10000 64)))
(define-fun t1 () Decimal (Decimal (_ bv20000 64)))
(define-fun t2 () (Set Decimal) (set.insert t0 t1 (as set.empty (Set Decimal))))
; "s"
(declare-const t3 (Set Decimal))
(define-fun t4 () Bool (= t2 t3))
(assert t4)
> datetime:1970-01-01 some var:o:?datetime eq
(declare-datatype Option (par (X) (
  (none)
  (some (val X)))))
(declare-datatype Datetime (
  (Datetime (datetimeVal (_ BitVec 64)))))
(define-fun t0 () Datetime (Datetime (_ bv0 64)))
(define-fun t1 () (Option Datetime) (some t0))
; "o"
(declare-const t2 (Option Datetime))
(define-fun t3 () Bool (= t1 t2))
(assert t3)
> duration:1ms ip:0.0.0.0 decimal:0.0 record:c,a,b var:r:%a=ip,b=decimal,c=duration eq
(declare-datatype Option (par (X) (
  (none)
  (some (val X)))))
(declare-datatype IPAddr (
  (V4 (addrV4 (_ BitVec 32)) (prefixV4 (Option (_ BitVec 5))))
  (V6 (addrV6 (_ BitVec 128)) (prefixV6 (Option (_ BitVec 7))))))
(declare-datatype Decimal (
  (Decimal (decimalVal (_ BitVec 64)))))
(declare-datatype Duration (
  (Duration (durationVal (_ BitVec 64)))))
; {a, b, c}
(declare-datatype R3 (
  (R3 (R3_a0 IPAddr) (R3_a1 Decimal) (R3_a2 Duration))))
(define-fun t0 () IPAddr (V4 (_ bv0 32) (as none (Option (_ BitVec 5)))))
(define-fun t1 () Decimal (Decimal (_ bv0 64)))
(define-fun t2 () Duration (Duration (_ bv1 64)))
(define-fun t3 () R3 (R3 t0 t1 t2))
; "r"
(declare-const t4 R3)
(define-fun t5 () Bool (= t3 t4))
(assert t5)
> var:x:ip call:f:ip:decimal decimal:0.0 eq
(declare-datatype Option (par (X) (
  (none)
  (some (val X)))))
(declare-datatype Decimal (
  (Decimal (decimalVal (_ BitVec 64)))))
(declare-datatype IPAddr (
  (V4 (addrV4 (_ BitVec 32)) (prefixV4 (Option (_ BitVec 5))))
  (V6 (addrV6 (_ BitVec 128)) (prefixV6 (Option (_ BitVec 7))))))
; "x"
(declare-const t0 IPAddr)
; f
(declare-fun f0 (IPAddr) Decimal)
(define-fun t1 () Decimal (f0 t0))
(define-fun t2 () Decimal (Decimal (_ bv0 64)))
(define-fun t3 () Bool (= t1 t2))
(assert t3)
"#;
