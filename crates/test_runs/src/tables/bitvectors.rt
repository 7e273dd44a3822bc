//! Operators on bitvectors, most of them at literals, which fold.

/// The rows.
pub(crate) const ROWS: &str =
    r##"> (job (enums) (vars) (funs) (terms (eq (bvshl (bv 64 1) (bv 64 4294967296)) (bv 64 0))))
status 0, 0 bytes on diag, 191 on out
(declare-datatype Option (par (X) (
  (none)
  (some (val X)))))
(define-fun t0 () (_ BitVec 64) (bvshl (_ bv1 64) (_ bv4294967296 64)))
(define-fun t1 () Bool (= t0 (_ bv0 64)))
(assert t1)
> (job (enums) (vars) (funs) (terms (eq (bvshl (bv 64 1) (bv 64 64)) (bv 64 0))))
status 0, 0 bytes on diag, 79 on out
(declare-datatype Option (par (X) (
  (none)
  (some (val X)))))
(assert true)
> (job (enums) (vars) (funs) (terms (eq (zero_extend 8 (bv 120 5)) (bv 128 5))))
status 0, 0 bytes on diag, 79 on out
(declare-datatype Option (par (X) (
  (none)
  (some (val X)))))
(assert true)
> (job (enums) (vars ("b" Bool) ("x" (BitVec 8))) (funs) (terms (eq (long "-1") (bv 64 18446744073709551615))))
status 0, 0 bytes on diag, 79 on out
(declare-datatype Option (par (X) (
  (none)
  (some (val X)))))
(assert true)
> (job (enums) (vars ("b" Bool) ("x" (BitVec 8))) (funs) (terms (eq (zero_extend 4 (bv 4 5)) (bv 8 5))))
status 0, 0 bytes on diag, 79 on out
(declare-datatype Option (par (X) (
  (none)
  (some (val X)))))
(assert true)
> (job (enums) (vars ("b" Bool) ("c" Bool)) (funs) (terms (eq (bvneg (bv 8 1)) (bv 8 255))))
status 0, 0 bytes on diag, 79 on out
(declare-datatype Option (par (X) (
  (none)
  (some (val X)))))
(assert true)
> (job (enums) (vars ("b" Bool) ("c" Bool)) (funs) (terms (eq (bvadd (bv 8 255) (bv 8 1)) (bv 8 0))))
status 0, 0 bytes on diag, 79 on out
(declare-datatype Option (par (X) (
  (none)
  (some (val X)))))
(assert true)
> (job (enums) (vars ("b" Bool) ("c" Bool)) (funs) (terms (eq (bvsub (bv 8 0) (bv 8 1)) (bv 8 255))))
status 0, 0 bytes on diag, 79 on out
(declare-datatype Option (par (X) (
  (none)
  (some (val X)))))
(assert true)
> (job (enums) (vars ("b" Bool) ("c" Bool)) (funs) (terms (eq (bvmul (bv 8 16) (bv 8 17)) (bv 8 16))))
status 0, 0 bytes on diag, 79 on out
(declare-datatype Option (par (X) (
  (none)
  (some (val X)))))
(assert true)
> (job (enums) (vars ("b" Bool) ("c" Bool)) (funs) (terms (eq (bvsdiv (bv 8 249) (bv 8 2)) (bv 8 253))))
status 0, 0 bytes on diag, 79 on out
(declare-datatype Option (par (X) (
  (none)
  (some (val X)))))
(assert true)
> (job (enums) (vars ("b" Bool) ("c" Bool)) (funs) (terms (eq (bvudiv (bv 8 249) (bv 8 2)) (bv 8 124))))
status 0, 0 bytes on diag, 79 on out
(declare-datatype Option (par (X) (
  (none)
  (some (val X)))))
(assert true)
> (job (enums) (vars ("b" Bool) ("c" Bool)) (funs) (terms (eq (bvsrem (bv 8 249) (bv 8 2)) (bv 8 255))))
status 0, 0 bytes on diag, 79 on out
(declare-datatype Option (par (X) (
  (none)
  (some (val X)))))
(assert true)
> (job (enums) (vars ("b" Bool) ("c" Bool)) (funs) (terms (eq (bvsmod (bv 8 249) (bv 8 2)) (bv 8 1))))
status 0, 0 bytes on diag, 79 on out
(declare-datatype Option (par (X) (
  (none)
  (some (val X)))))
(assert true)
> (job (enums) (vars ("b" Bool) ("c" Bool)) (funs) (terms (eq (bvurem (bv 8 249) (bv 8 2)) (bv 8 1))))
status 0, 0 bytes on diag, 79 on out
(declare-datatype Option (par (X) (
  (none)
  (some (val X)))))
(assert true)
> (job (enums) (vars ("b" Bool) ("c" Bool)) (funs) (terms (eq (bvshl (bv 8 3) (bv 8 7)) (bv 8 128))))
status 0, 0 bytes on diag, 79 on out
(declare-datatype Option (par (X) (
  (none)
  (some (val X)))))
(assert true)
> (job (enums) (vars ("b" Bool) ("c" Bool)) (funs) (terms (eq (bvlshr (bv 8 128) (bv 8 7)) (bv 8 1))))
status 0, 0 bytes on diag, 79 on out
(declare-datatype Option (par (X) (
  (none)
  (some (val X)))))
(assert true)
> (job (enums) (vars ("b" Bool) ("c" Bool)) (funs) (terms (bvslt (bv 8 255) (bv 8 0))))
status 0, 0 bytes on diag, 79 on out
(declare-datatype Option (par (X) (
  (none)
  (some (val X)))))
(assert true)
> (job (enums) (vars ("b" Bool) ("c" Bool)) (funs) (terms (bvsle (bv 8 0) (bv 8 255))))
status 0, 0 bytes on diag, 80 on out
(declare-datatype Option (par (X) (
  (none)
  (some (val X)))))
(assert false)
> (job (enums) (vars ("b" Bool) ("c" Bool)) (funs) (terms (bvult (bv 8 255) (bv 8 0))))
status 0, 0 bytes on diag, 80 on out
(declare-datatype Option (par (X) (
  (none)
  (some (val X)))))
(assert false)
> (job (enums) (vars ("b" Bool) ("c" Bool)) (funs) (terms (bvule (bv 8 0) (bv 8 255))))
status 0, 0 bytes on diag, 79 on out
(declare-datatype Option (par (X) (
  (none)
  (some (val X)))))
(assert true)
> (job (enums) (vars ("b" Bool) ("c" Bool)) (funs) (terms (bvnego (bv 8 128))))
status 0, 0 bytes on diag, 79 on out
(declare-datatype Option (par (X) (
  (none)
  (some (val X)))))
(assert true)
> (job (enums) (vars ("b" Bool) ("c" Bool)) (funs) (terms (bvnego (bv 8 127))))
status 0, 0 bytes on diag, 80 on out
(declare-datatype Option (par (X) (
  (none)
  (some (val X)))))
(assert false)
> (job (enums) (vars ("b" Bool) ("c" Bool)) (funs) (terms (bvsaddo (bv 8 127) (bv 8 1))))
status 0, 0 bytes on diag, 79 on out
(declare-datatype Option (par (X) (
  (none)
  (some (val X)))))
(assert true)
> (job (enums) (vars ("b" Bool) ("c" Bool)) (funs) (terms (bvssubo (bv 8 128) (bv 8 1))))
status 0, 0 bytes on diag, 79 on out
(declare-datatype Option (par (X) (
  (none)
  (some (val X)))))
(assert true)
> (job (enums) (vars ("b" Bool) ("c" Bool)) (funs) (terms (bvsmulo (bv 8 16) (bv 8 8))))
status 0, 0 bytes on diag, 79 on out
(declare-datatype Option (par (X) (
  (none)
  (some (val X)))))
(assert true)
> (job (enums) (vars ("b" Bool) ("c" Bool)) (funs) (terms (bvsmulo (bv 8 240) (bv 8 8))))
status 0, 0 bytes on diag, 80 on out
(declare-datatype Option (par (X) (
  (none)
  (some (val X)))))
(assert false)
> (job (enums) (vars ("b" Bool) ("c" Bool)) (funs) (terms (eq (zero_extend 8 (bv 8 5)) (bv 16 5))))
status 0, 0 bytes on diag, 79 on out
(declare-datatype Option (par (X) (
  (none)
  (some (val X)))))
(assert true)
> (job (enums) (vars ("x" (BitVec 4))) (funs) (terms (bvult (var "x") #b0101) (bvult #xf (var "x")))) ; the end
status 0, 0 bytes on diag, 218 on out
(declare-datatype Option (par (X) (
  (none)
  (some (val X)))))
; "x"
(declare-const t0 (_ BitVec 4))
(define-fun t1 () Bool (bvult t0 (_ bv5 4)))
(define-fun t2 () Bool (bvult (_ bv15 4) t0))
(assert t1)
(assert t2)
> (job (enums) (vars) (funs) (terms (eq #x00000000000000000000000000000001 (bv 128 1))))
status 0, 0 bytes on diag, 79 on out
(declare-datatype Option (par (X) (
  (none)
  (some (val X)))))
(assert true)
"##;
