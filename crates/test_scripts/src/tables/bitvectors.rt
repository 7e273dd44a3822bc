//! Bitvectors.

/// The rows.
pub(crate) const ROWS: &str = r#"> var:x:bool var:x:8 byte:0 eq
(declare-datatype Option (par (X) (
  (none)
  (some (val X)))))
; "x"
(declare-const t0 Bool)
; "x"
(declare-const t1 (_ BitVec 8))
(define-fun t2 () Bool (= t1 (_ bv0 8)))
(assert t0)
(assert t2)
> bits:64:1 bits:64:4294967296 bvshl bits:64:0 eq
(declare-datatype Option (par (X) (
  (none)
  (some (val X)))))
(define-fun t0 () (_ BitVec 64) (bvshl (_ bv1 64) (_ bv4294967296 64)))
(define-fun t1 () Bool (= t0 (_ bv0 64)))
(assert t1)
> var:x:8 var:y:8 bvadd var:x:8 eq var:x:8 var:y:8 bvsub var:x:8 eq var:x:8 var:y:8 bvmul var:x:8 eq var:x:8 var:y:8 bvudiv var:x:8 eq var:x:8 var:y:8 bvurem var:x:8 eq var:x:8 var:y:8 bvsdiv var:x:8 eq var:x:8 var:y:8 bvsrem var:x:8 eq var:x:8 var:y:8 bvsmod var:x:8 eq var:x:8 var:y:8 bvshl var:x:8 eq var:x:8 var:y:8 bvlshr var:x:8 eq var:x:8 var:y:8 bvult var:x:8 var:y:8 bvule var:x:8 var:y:8 bvslt var:x:8 var:y:8 bvsle var:x:8 var:y:8 bvsaddo var:x:8 var:y:8 bvssubo var:x:8 var:y:8 bvsmulo
(declare-datatype Option (par (X) (
  (none)
  (some (val X)))))
; "x"
(declare-const t0 (_ BitVec 8))
; "y"
(declare-const t1 (_ BitVec 8))
(define-fun t2 () (_ BitVec 8) (bvadd t0 t1))
(define-fun t3 () Bool (= t2 t0))
(define-fun t4 () (_ BitVec 8) (bvsub t0 t1))
(define-fun t5 () Bool (= t4 t0))
(define-fun t6 () (_ BitVec 8) (bvmul t0 t1))
(define-fun t7 () Bool (= t6 t0))
(define-fun t8 () (_ BitVec 8) (bvudiv t0 t1))
(define-fun t9 () Bool (= t8 t0))
(define-fun t10 () (_ BitVec 8) (bvurem t0 t1))
(define-fun t11 () Bool (= t10 t0))
(define-fun t12 () (_ BitVec 8) (bvsdiv t0 t1))
(define-fun t13 () Bool (= t12 t0))
(define-fun t14 () (_ BitVec 8) (bvsrem t0 t1))
(define-fun t15 () Bool (= t14 t0))
(define-fun t16 () (_ BitVec 8) (bvsmod t0 t1))
(define-fun t17 () Bool (= t16 t0))
(define-fun t18 () (_ BitVec 8) (bvshl t0 t1))
(define-fun t19 () Bool (= t18 t0))
(define-fun t20 () (_ BitVec 8) (bvlshr t0 t1))
(define-fun t21 () Bool (= t20 t0))
(define-fun t22 () Bool (bvult t0 t1))
(define-fun t23 () Bool (bvule t0 t1))
(define-fun t24 () Bool (bvslt t0 t1))
(define-fun t25 () Bool (bvsle t0 t1))
(define-fun t26 () Bool (bvsaddo t0 t1))
(define-fun t27 () Bool (bvssubo t0 t1))
(define-fun t28 () Bool (bvsmulo t0 t1))
(assert t3)
(assert t5)
(assert t7)
(assert t9)
(assert t11)
(assert t13)
(assert t15)
(assert t17)
(assert t19)
(assert t21)
(assert t22)
(assert t23)
(assert t24)
(assert t25)
(assert t26)
(assert t27)
(assert t28)
> var:x:8 bvneg var:x:8 eq var:x:8 bvnego var:x:8 zero_extend=120 bits:128:340282366920938463463374607431768211455 eq
(declare-datatype Option (par (X) (
  (none)
  (some (val X)))))
; "x"
(declare-const t0 (_ BitVec 8))
(define-fun t1 () (_ BitVec 8) (bvneg t0))
(define-fun t2 () Bool (= t1 t0))
(define-fun t3 () Bool (= t0 (_ bv128 8)))
(define-fun t4 () (_ BitVec 128) ((_ zero_extend 120) t0))
(define-fun t5 () Bool (= t4 (_ bv340282366920938463463374607431768211455 128)))
(assert t2)
(assert t3)
(assert t5)
> var:b:bool bvnego
(declare-datatype Option (par (X) (
  (none)
  (some (val X)))))
(assert false)
> var:x:64 var:x:64 bvadd var:x:64 var:x:64 bvadd bvadd var:x:64 eq
(declare-datatype Option (par (X) (
  (none)
  (some (val X)))))
; "x"
(declare-const t0 (_ BitVec 64))
(define-fun t1 () (_ BitVec 64) (bvadd t0 t0))
(define-fun t2 () (_ BitVec 64) (bvadd t1 t1))
(define-fun t3 () Bool (= t2 t0))
(assert t3)
"#;
