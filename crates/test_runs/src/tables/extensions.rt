//! Values of the extension types, from their texts and by their operators.

/// The rows.
pub(crate) const ROWS: &str =
    r##"> (job (enums) (vars ("d" Decimal) ("i" IpAddr) ("t" Datetime) ("u" Duration)) (funs) (terms (bvsle (decimal.val (var "d")) (long "15000")) (ipaddr.isV4 (var "i")) (eq (datetime.val (var "t")) (duration.val (var "u")))))
status 0, 0 bytes on diag, 875 on out
(declare-datatype Option (par (X) (
  (none)
  (some (val X)))))
(declare-datatype Decimal (
  (Decimal (decimalVal (_ BitVec 64)))))
; "d"
(declare-const t0 Decimal)
(define-fun t1 () (_ BitVec 64) (decimalVal t0))
(define-fun t2 () Bool (bvsle t1 (_ bv15000 64)))
(declare-datatype IPAddr (
  (V4 (addrV4 (_ BitVec 32)) (prefixV4 (Option (_ BitVec 5))))
  (V6 (addrV6 (_ BitVec 128)) (prefixV6 (Option (_ BitVec 7))))))
; "i"
(declare-const t3 IPAddr)
(define-fun t4 () Bool ((_ is V4) t3))
(declare-datatype Datetime (
  (Datetime (datetimeVal (_ BitVec 64)))))
; "t"
(declare-const t5 Datetime)
(define-fun t6 () (_ BitVec 64) (datetimeVal t5))
(declare-datatype Duration (
  (Duration (durationVal (_ BitVec 64)))))
; "u"
(declare-const t7 Duration)
(define-fun t8 () (_ BitVec 64) (durationVal t7))
(define-fun t9 () Bool (= t6 t8))
(assert t2)
(assert t4)
(assert t9)
> (job (enums) (vars ("i" IpAddr)) (funs) (terms (eq (ipaddr.addrV4 (var "i")) (bv 32 1)) (eq (ipaddr.prefixV6 (var "i")) (none (BitVec 7)))))
status 0, 0 bytes on diag, 526 on out
(declare-datatype Option (par (X) (
  (none)
  (some (val X)))))
(declare-datatype IPAddr (
  (V4 (addrV4 (_ BitVec 32)) (prefixV4 (Option (_ BitVec 5))))
  (V6 (addrV6 (_ BitVec 128)) (prefixV6 (Option (_ BitVec 7))))))
; "i"
(declare-const t0 IPAddr)
(define-fun t1 () (_ BitVec 32) (addrV4 t0))
(define-fun t2 () Bool (= t1 (_ bv1 32)))
(define-fun t3 () (Option (_ BitVec 7)) (prefixV6 t0))
(define-fun t4 () (Option (_ BitVec 7)) (as none (Option (_ BitVec 7))))
(define-fun t5 () Bool (= t3 t4))
(assert t2)
(assert t5)
> (job (enums) (vars ("t" (BitVec 64))) (funs) (terms (eq (datetime.val (datetime.ofBitVec (var "t"))) (var "t"))))
status 0, 0 bytes on diag, 314 on out
(declare-datatype Option (par (X) (
  (none)
  (some (val X)))))
(declare-datatype Datetime (
  (Datetime (datetimeVal (_ BitVec 64)))))
; "t"
(declare-const t0 (_ BitVec 64))
(define-fun t1 () Datetime (Datetime t0))
(define-fun t2 () (_ BitVec 64) (datetimeVal t1))
(define-fun t3 () Bool (= t2 t0))
(assert t3)
> (job (enums) (vars ("i" IpAddr)) (funs) (terms (eq (ipaddr.addrV6 (var "i")) (bv 128 1)) (eq (ipaddr.prefixV4 (var "i")) (none (BitVec 5)))))
status 0, 0 bytes on diag, 528 on out
(declare-datatype Option (par (X) (
  (none)
  (some (val X)))))
(declare-datatype IPAddr (
  (V4 (addrV4 (_ BitVec 32)) (prefixV4 (Option (_ BitVec 5))))
  (V6 (addrV6 (_ BitVec 128)) (prefixV6 (Option (_ BitVec 7))))))
; "i"
(declare-const t0 IPAddr)
(define-fun t1 () (_ BitVec 128) (addrV6 t0))
(define-fun t2 () Bool (= t1 (_ bv1 128)))
(define-fun t3 () (Option (_ BitVec 5)) (prefixV4 t0))
(define-fun t4 () (Option (_ BitVec 5)) (as none (Option (_ BitVec 5))))
(define-fun t5 () Bool (= t3 t4))
(assert t2)
(assert t5)
> (job (enums) (vars ("t" (BitVec 64))) (funs) (terms (eq (duration.val (duration.ofBitVec (var "t"))) (var "t"))))
status 0, 0 bytes on diag, 314 on out
(declare-datatype Option (par (X) (
  (none)
  (some (val X)))))
(declare-datatype Duration (
  (Duration (durationVal (_ BitVec 64)))))
; "t"
(declare-const t0 (_ BitVec 64))
(define-fun t1 () Duration (Duration t0))
(define-fun t2 () (_ BitVec 64) (durationVal t1))
(define-fun t3 () Bool (= t2 t0))
(assert t3)
> (job (enums) (vars ("d" Decimal)) (funs) (terms (eq (var "d") (decimal "-922337203685477.5808")) (not (eq (var "d") (decimal "0.1")))))
status 0, 0 bytes on diag, 409 on out
(declare-datatype Option (par (X) (
  (none)
  (some (val X)))))
(declare-datatype Decimal (
  (Decimal (decimalVal (_ BitVec 64)))))
; "d"
(declare-const t0 Decimal)
(define-fun t1 () Decimal (Decimal (_ bv9223372036854775808 64)))
(define-fun t2 () Bool (= t0 t1))
(define-fun t3 () Decimal (Decimal (_ bv1000 64)))
(define-fun t4 () Bool (= t0 t3))
(define-fun t5 () Bool (not t4))
(assert t2)
(assert t5)
> (job (enums) (vars ("i" IpAddr)) (funs) (terms (eq (var "i") (ip "10.0.0.0/8")) (not (eq (var "i") (ip "::1")))))
status 0, 0 bytes on diag, 520 on out
(declare-datatype Option (par (X) (
  (none)
  (some (val X)))))
(declare-datatype IPAddr (
  (V4 (addrV4 (_ BitVec 32)) (prefixV4 (Option (_ BitVec 5))))
  (V6 (addrV6 (_ BitVec 128)) (prefixV6 (Option (_ BitVec 7))))))
; "i"
(declare-const t0 IPAddr)
(define-fun t1 () IPAddr (V4 (_ bv167772160 32) (some (_ bv8 5))))
(define-fun t2 () Bool (= t0 t1))
(define-fun t3 () IPAddr (V6 (_ bv1 128) (as none (Option (_ BitVec 7)))))
(define-fun t4 () Bool (= t0 t3))
(define-fun t5 () Bool (not t4))
(assert t2)
(assert t5)
> (job (enums) (vars ("t" Datetime)) (funs) (terms (eq (var "t") (datetime "2024-10-15T11:38:02.101+0130"))))
status 0, 0 bytes on diag, 279 on out
(declare-datatype Option (par (X) (
  (none)
  (some (val X)))))
(declare-datatype Datetime (
  (Datetime (datetimeVal (_ BitVec 64)))))
; "t"
(declare-const t0 Datetime)
(define-fun t1 () Datetime (Datetime (_ bv1728986882101 64)))
(define-fun t2 () Bool (= t0 t1))
(assert t2)
> (job (enums) (vars ("u" Duration)) (funs) (terms (eq (var "u") (duration "-1d2h3m4s5ms"))))
status 0, 0 bytes on diag, 286 on out
(declare-datatype Option (par (X) (
  (none)
  (some (val X)))))
(declare-datatype Duration (
  (Duration (durationVal (_ BitVec 64)))))
; "u"
(declare-const t0 Duration)
(define-fun t1 () Duration (Duration (_ bv18446744073615767611 64)))
(define-fun t2 () Bool (= t0 t1))
(assert t2)
> (job (enums) (vars) (funs) (terms (bvslt (datetime.val (datetime "2024-10-15")) (datetime.val (datetime "2024-10-15T00:00:00.001Z")))))
status 0, 0 bytes on diag, 79 on out
(declare-datatype Option (par (X) (
  (none)
  (some (val X)))))
(assert true)
> (job (enums) (vars) (funs) (terms (eq (decimal "1.5") (decimal "922337203685477.5808"))))
status 3, 24 bytes on diag, 0 on out
job refused: BadLiteral
> (job (enums) (vars) (funs) (terms (eq (ip "10.0.0.0/33") (foo))))
status 3, 24 bytes on diag, 0 on out
job refused: BadLiteral
> (job (enums) (vars) (funs) (terms (eq (datetime "2023-02-29") (foo))))
status 3, 24 bytes on diag, 0 on out
job refused: BadLiteral
> (job (enums) (vars) (funs) (terms (eq (duration "2h1d") (foo))))
status 3, 24 bytes on diag, 0 on out
job refused: BadLiteral
> (job (enums) (vars) (funs) (terms (decimal 5)))
status 3, 21 bytes on diag, 0 on out
job refused: BadForm
> (job (enums) (vars) (funs) (terms (decimal "1.0" "2.0")))
status 3, 21 bytes on diag, 0 on out
job refused: BadForm
> (job (enums) (vars) (funs) (terms (eq (decimal "1.0") (duration "1ms"))))
status 3, 22 bytes on diag, 0 on out
job refused: IllTyped
> (job (enums) (vars ("d" Decimal)) (funs) (terms (eq (var "d") (decimal "1.5")) (bvslt (decimal.val (decimal "-0.0001")) (decimal.val (var "d")))))
status 0, 0 bytes on diag, 391 on out
(declare-datatype Option (par (X) (
  (none)
  (some (val X)))))
(declare-datatype Decimal (
  (Decimal (decimalVal (_ BitVec 64)))))
; "d"
(declare-const t0 Decimal)
(define-fun t1 () Decimal (Decimal (_ bv15000 64)))
(define-fun t2 () Bool (= t0 t1))
(define-fun t3 () (_ BitVec 64) (decimalVal t0))
(define-fun t4 () Bool (bvslt (_ bv18446744073709551615 64) t3))
(assert t2)
(assert t4)
> (job (enums) (vars) (funs) (terms (eq (decimal.val (decimal "-922337203685477.5808")) (bv 64 9223372036854775808)) (eq (decimal.val (decimal "922337203685477.5807")) (long "9223372036854775807"))))
status 0, 0 bytes on diag, 93 on out
(declare-datatype Option (par (X) (
  (none)
  (some (val X)))))
(assert true)
(assert true)
> (job (enums) (vars) (funs) (terms (eq (decimal "922337203685477.5808") (decimal "0.0"))))
status 3, 24 bytes on diag, 0 on out
job refused: BadLiteral
> (job (enums) (vars) (funs) (terms (eq (decimal 5) (decimal "5.0"))))
status 3, 21 bytes on diag, 0 on out
job refused: BadForm
> (job (enums) (vars ("i" IpAddr)) (funs) (terms (eq (var "i") (ip "10.0.0.0/8")) (eq (var "i") (ip "1:2::FF/64")) (eq (var "i") (ip "::1")) (ipaddr.isV4 (ip "::1"))))
status 0, 0 bytes on diag, 642 on out
(declare-datatype Option (par (X) (
  (none)
  (some (val X)))))
(declare-datatype IPAddr (
  (V4 (addrV4 (_ BitVec 32)) (prefixV4 (Option (_ BitVec 5))))
  (V6 (addrV6 (_ BitVec 128)) (prefixV6 (Option (_ BitVec 7))))))
; "i"
(declare-const t0 IPAddr)
(define-fun t1 () IPAddr (V4 (_ bv167772160 32) (some (_ bv8 5))))
(define-fun t2 () Bool (= t0 t1))
(define-fun t3 () IPAddr (V6 (_ bv5192455314859856157205683417121023 128) (some (_ bv64 7))))
(define-fun t4 () Bool (= t0 t3))
(define-fun t5 () IPAddr (V6 (_ bv1 128) (as none (Option (_ BitVec 7)))))
(define-fun t6 () Bool (= t0 t5))
(assert t2)
(assert t4)
(assert t6)
(assert false)
> (job (enums) (vars) (funs) (terms (ipaddr.isV4 (ip "010.0.0.0"))))
status 3, 24 bytes on diag, 0 on out
job refused: BadLiteral
> (job (enums) (vars ("t" Datetime)) (funs) (terms (eq (var "t") (datetime "2024-10-15T11:38:02.101-1134")) (eq (datetime.val (datetime "1970-01-01T01:00:00+0100")) (bv 64 0))))
status 0, 0 bytes on diag, 293 on out
(declare-datatype Option (par (X) (
  (none)
  (some (val X)))))
(declare-datatype Datetime (
  (Datetime (datetimeVal (_ BitVec 64)))))
; "t"
(declare-const t0 Datetime)
(define-fun t1 () Datetime (Datetime (_ bv1729033922101 64)))
(define-fun t2 () Bool (= t0 t1))
(assert t2)
(assert true)
> (job (enums) (vars) (funs) (terms (eq (datetime "2023-02-29") (datetime "2023-02-28"))))
status 3, 24 bytes on diag, 0 on out
job refused: BadLiteral
> (job (enums) (vars ("u" Duration)) (funs) (terms (eq (var "u") (duration "-1d2h3m4s5ms")) (eq (duration "24h") (duration "1d"))))
status 0, 0 bytes on diag, 300 on out
(declare-datatype Option (par (X) (
  (none)
  (some (val X)))))
(declare-datatype Duration (
  (Duration (durationVal (_ BitVec 64)))))
; "u"
(declare-const t0 Duration)
(define-fun t1 () Duration (Duration (_ bv18446744073615767611 64)))
(define-fun t2 () Bool (= t0 t1))
(assert t2)
(assert true)
> (job (enums) (vars) (funs) (terms (eq (duration "2h1d") (duration "1d2h"))))
status 3, 24 bytes on diag, 0 on out
job refused: BadLiteral
> (job (enums) (vars) (funs) (terms (eq (decimal "1.0") (duration "1d"))))
status 3, 22 bytes on diag, 0 on out
job refused: IllTyped
> (job (enums) (vars) (funs) (terms (eq (decimal "5") (var "x"))))
status 3, 24 bytes on diag, 0 on out
job refused: BadLiteral
"##;
