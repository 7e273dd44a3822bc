//! Texts that are no job, and jobs with a fault.

/// The rows.
pub(crate) const ROWS: &str =
    r##"> (job (enums) (vars ("x" (BitVec 8))) (funs) (terms (bvult (var "x"))))
status 3, 22 bytes on diag, 0 on out
job refused: IllTyped
> (job (enums) (vars ("x" (BitVec 8))) (funs) (terms (bvult (var "x") (var "x") (var "x"))))
status 3, 22 bytes on diag, 0 on out
job refused: IllTyped
> (job (enums) (vars ("x" (BitVec 8))) (funs) (terms (bvult (var "x") true)))
status 3, 22 bytes on diag, 0 on out
job refused: IllTyped
> (job (enums) (vars ("x" (BitVec 8))) (funs) (terms (not (var "x"))))
status 3, 22 bytes on diag, 0 on out
job refused: IllTyped
> (job (enums) (vars ("x" (BitVec 8))) (funs) (terms (eq (var "x") (bv 16 1))))
status 3, 22 bytes on diag, 0 on out
job refused: IllTyped
> (job (enums) (vars ("x" (BitVec 8))) (funs) (terms (bvneg (var "x"))))
status 3, 21 bytes on diag, 0 on out
job refused: NotBool
> (job (enums) (vars ("x" (BitVec 8))) (funs) (terms (bvult (var "y") (bv 8 1))))
status 3, 25 bytes on diag, 0 on out
job refused: UnknownName
> (job (enums) (vars ("x" (BitVec 8)) ("x" (BitVec 8))) (funs) (terms true))
status 3, 27 bytes on diag, 0 on out
job refused: DuplicateName
> (job (enums) (vars ("x" (BitVec 0))) (funs) (terms true))
status 3, 22 bytes on diag, 0 on out
job refused: BadWidth
> (job (enums) (vars ("x" (BitVec 129))) (funs) (terms true))
status 3, 22 bytes on diag, 0 on out
job refused: BadWidth
> (job (enums) (vars) (funs) (terms (eq (bv 0 0) (bv 0 0))))
status 3, 22 bytes on diag, 0 on out
job refused: BadWidth
> (job (enums) (vars) (funs) (terms (eq (bv 129 0) (bv 129 0))))
status 3, 22 bytes on diag, 0 on out
job refused: BadWidth
> (job (enums) (vars ("x" (BitVec 8))) (funs) (terms (bvult (var "x") (bv 8 256))))
status 3, 24 bytes on diag, 0 on out
job refused: BadLiteral
> (job (enums) (vars) (funs) (terms (eq (bv 128 340282366920938463463374607431768211456) (bv 128 0))))
status 3, 19 bytes on diag, 0 on out
job refused: Parse
> (job (enums) (vars) (funs) (terms (eq (long "9223372036854775808") (bv 64 0))))
status 3, 24 bytes on diag, 0 on out
job refused: BadLiteral
> (job (enums) (vars ("x" (BitVec 8))) (funs) (terms (bvxor (var "x") (var "x"))))
status 3, 25 bytes on diag, 0 on out
job refused: UnknownName
> (job (enums) (vars ("x" (BitVec 8))) (funs) (terms (= (var "x") (var "x"))))
status 3, 25 bytes on diag, 0 on out
job refused: UnknownName
> (job (enums) (vars ("x" (BitVec 8))) (funs) (terms true)
status 3, 19 bytes on diag, 0 on out
job refused: Parse
> (job (enums) (vars ("x" (BitVec 8))) (funs) (terms true)))
status 3, 19 bytes on diag, 0 on out
job refused: Parse
> (job (enums) (vars ("x" (BitVec 8))) (funs) (terms (bvult (bv 0 0) (bv 0 0))))
status 3, 22 bytes on diag, 0 on out
job refused: BadWidth
> (job (enums) (vars ("x" (BitVec 8))) (funs) (terms (bvult (bv 129 0) (bv 129 0))))
status 3, 22 bytes on diag, 0 on out
job refused: BadWidth
> (job (enums) (vars ("x" (BitVec 8))) (funs) (terms (bvult (bv 8 256) (bv 8 0))))
status 3, 24 bytes on diag, 0 on out
job refused: BadLiteral
> (job (enums) (vars ("x" (BitVec 8))) (funs) (terms (bvult (bv 8 0 0) (bv 8 0))))
status 3, 21 bytes on diag, 0 on out
job refused: BadForm
> (job (enums) (vars ("x" (BitVec 8))) (funs) (terms (bvult (bv "8" 0) (bv 8 0))))
status 3, 22 bytes on diag, 0 on out
job refused: BadWidth
> (job (enums) (vars ("x" (BitVec 8))) (funs) (terms (bvult (zero_extend 121 (bv 8 0)) (bv 129 0))))
status 3, 22 bytes on diag, 0 on out
job refused: IllTyped
> (job (enums) (vars ("x" (BitVec 8))) (funs) (terms (eq (zero_extend 128 true) true)))
status 3, 22 bytes on diag, 0 on out
job refused: BadWidth
> (job (enums) (vars ("x" (BitVec 8))) (funs) (terms (eq (zero_extend (bv 8 0)) (bv 8 0))))
status 3, 21 bytes on diag, 0 on out
job refused: BadForm
> (job (enums) (vars ("x" (BitVec 8))) (funs) (terms (eq (long "+5") (bv 64 5))))
status 3, 24 bytes on diag, 0 on out
job refused: BadLiteral
> (job (enums) (vars ("x" (BitVec 8))) (funs) (terms (eq (long "") (bv 64 0))))
status 3, 24 bytes on diag, 0 on out
job refused: BadLiteral
> (job (enums) (vars ("x" (BitVec 8))) (funs) (terms (eq (long "-") (bv 64 0))))
status 3, 24 bytes on diag, 0 on out
job refused: BadLiteral
> (job (enums) (vars ("x" (BitVec 8))) (funs) (terms (eq (long "9223372036854775808") (bv 64 0))))
status 3, 24 bytes on diag, 0 on out
job refused: BadLiteral
> (job (enums) (vars ("x" (BitVec 8))) (funs) (terms (eq (long "5 ") (bv 64 5))))
status 3, 24 bytes on diag, 0 on out
job refused: BadLiteral
> (job (enums) (vars ("x" (BitVec 8))) (funs) (terms (eq (long 5) (bv 64 5))))
status 3, 21 bytes on diag, 0 on out
job refused: BadForm
> (job (enums) (vars ("x" (BitVec 8))) (funs) (terms (bv 8 1)))
status 3, 21 bytes on diag, 0 on out
job refused: NotBool
> (job (enums) (vars ("x" (BitVec 8))) (funs) (terms (var "x")))
status 3, 21 bytes on diag, 0 on out
job refused: NotBool
> (job (enums) (vars ("x" (BitVec 8))) (funs) (terms (eq (bv 8 1) (bv 16 1))))
status 3, 22 bytes on diag, 0 on out
job refused: IllTyped
> (job (enums) (vars ("x" (BitVec 8))) (funs) (terms (eq (var "x") true)))
status 3, 22 bytes on diag, 0 on out
job refused: IllTyped
> (job (enums) (vars ("x" (BitVec 8))) (funs) (terms (and true (var "x"))))
status 3, 22 bytes on diag, 0 on out
job refused: IllTyped
> (job (enums) (vars ("x" (BitVec 8))) (funs) (terms (ite (var "x") true false)))
status 3, 22 bytes on diag, 0 on out
job refused: IllTyped
> (job (enums) (vars ("x" (BitVec 8))) (funs) (terms (ite true true)))
status 3, 22 bytes on diag, 0 on out
job refused: IllTyped
> (job (enums) (vars ("x" (BitVec 8))) (funs) (terms (bvult (bv 8 1) (bv 16 1))))
status 3, 22 bytes on diag, 0 on out
job refused: IllTyped
> (job (enums) (vars ("x" (BitVec 8))) (funs) (terms (bvnego true)))
status 3, 22 bytes on diag, 0 on out
job refused: IllTyped
> (job (enums) (vars ("x" (BitVec 8))) (funs) (terms (bvadd (bv 8 1) (bv 8 1))))
status 3, 21 bytes on diag, 0 on out
job refused: NotBool
> (job (enums) (vars ("x" (BitVec 8))) (funs) (terms (not (bvneg (bv 8 1)))))
status 3, 22 bytes on diag, 0 on out
job refused: IllTyped
> (job (enums) (vars ("x" (BitVec 8))) (funs) (terms (bvxor (bv 8 1) (bv 8 1))))
status 3, 25 bytes on diag, 0 on out
job refused: UnknownName
> (job (enums) (vars ("x" (BitVec 0))) (funs) (terms))
status 3, 22 bytes on diag, 0 on out
job refused: BadWidth
> (job (enums) (vars ("x" (BitVec 129))) (funs) (terms))
status 3, 22 bytes on diag, 0 on out
job refused: BadWidth
> (job (enums) (vars ("x" (BitVec))) (funs) (terms))
status 3, 21 bytes on diag, 0 on out
job refused: BadType
> (job (enums) (vars ("x" (BitVec 8 8))) (funs) (terms))
status 3, 21 bytes on diag, 0 on out
job refused: BadType
> (job (enums) (vars ("x" (BitVec "8"))) (funs) (terms))
status 3, 22 bytes on diag, 0 on out
job refused: BadWidth
> (job (enums) (vars ("x" BitVec)) (funs) (terms))
status 3, 21 bytes on diag, 0 on out
job refused: BadType
> (job (enums) (vars) (funs) (terms true)
status 3, 19 bytes on diag, 0 on out
job refused: Parse
> (job (enums) (vars) (funs) (terms true)))
status 3, 19 bytes on diag, 0 on out
job refused: Parse
> (job)
status 3, 21 bytes on diag, 0 on out
job refused: BadForm
> (job (vars) (enums) (funs) (terms))
status 3, 21 bytes on diag, 0 on out
job refused: BadForm
> (job (enums) (vars) (terms))
status 3, 21 bytes on diag, 0 on out
job refused: BadForm
> (job (enums ("T" "a") ("T" "b")))
status 3, 27 bytes on diag, 0 on out
job refused: DuplicateName
> (job (enums ("T" "a")))
status 3, 21 bytes on diag, 0 on out
job refused: BadForm
> (job (vars ("x" (BitVec 0))))
status 3, 21 bytes on diag, 0 on out
job refused: BadForm
> (job (enums) (vars ("x" (BitVec 0))))
status 3, 22 bytes on diag, 0 on out
job refused: BadWidth
> (job (enums) (vars ("x" (BitVec 8))))
status 3, 21 bytes on diag, 0 on out
job refused: BadForm
> (job (enums (T)) (vars ("x" (BitVec 0))))
status 3, 21 bytes on diag, 0 on out
job refused: BadForm
> (job (enums) (vars ("x" Foo)) (terms))
status 3, 21 bytes on diag, 0 on out
job refused: BadType
> (job (enums) (vars) (funs ("f" Bool (BitVec 129))))
status 3, 22 bytes on diag, 0 on out
job refused: BadWidth
> (job (enums) (vars ("x" Foo)) (funs (f Bool Bool)))
status 3, 21 bytes on diag, 0 on out
job refused: BadType
> (job (enums) (vars) (funs) (terms)) (job (enums) (vars) (funs) (terms))
status 3, 19 bytes on diag, 0 on out
job refused: Parse
> (job (enums) (vars ("b" Bool)) (funs) (terms (var "c")))
status 3, 25 bytes on diag, 0 on out
job refused: UnknownName
> (job (enums) (vars ("b" Bool) ("b" Bool)) (funs) (terms))
status 3, 27 bytes on diag, 0 on out
job refused: DuplicateName
> (job (enums) (vars ("b" Int)) (funs) (terms))
status 3, 21 bytes on diag, 0 on out
job refused: BadType
> (job (enums) (vars (b Bool)) (funs) (terms))
status 3, 21 bytes on diag, 0 on out
job refused: BadForm
> (job (enums) (vars) (funs) (terms (and true)))
status 3, 22 bytes on diag, 0 on out
job refused: IllTyped
> (job (enums) (vars) (funs) (terms (not)))
status 3, 22 bytes on diag, 0 on out
job refused: IllTyped
> (job (enums) (vars) (funs) (terms (not true true)))
status 3, 22 bytes on diag, 0 on out
job refused: IllTyped
> (job (enums) (vars ("b" Bool)) (funs) (terms "b"))
status 3, 21 bytes on diag, 0 on out
job refused: NotBool
> (job (enums) (vars) (funs) (terms 1))
status 3, 21 bytes on diag, 0 on out
job refused: BadForm
> (job (enums) (vars ("b" Bool)) (funs) (terms (var b)))
status 3, 21 bytes on diag, 0 on out
job refused: BadForm
> (job (enums) (vars) (funs))
status 3, 21 bytes on diag, 0 on out
job refused: BadForm
> (job (enums) (vars) (funs) (terms)) true
status 3, 19 bytes on diag, 0 on out
job refused: Parse
> (job (enums) (vars ("b" Bool) ("b" (BitVec 8))) (funs) (terms))
status 3, 27 bytes on diag, 0 on out
job refused: DuplicateName
> (job (enums) (vars) (funs) (terms (var "b")))
status 3, 25 bytes on diag, 0 on out
job refused: UnknownName
> (job (enums) (vars) (funs) (terms (bv 8 1)))
status 3, 21 bytes on diag, 0 on out
job refused: NotBool
> (job (enums) (vars) (funs) (terms (eq (bv 8 256) (bv 8 1))))
status 3, 24 bytes on diag, 0 on out
job refused: BadLiteral
> (job (enums) (vars ("x" Bool) ("x" (BitVec 0))) (funs) (terms))
status 3, 27 bytes on diag, 0 on out
job refused: DuplicateName
> (job (enums) (vars ("x" (BitVec 0)) ("x" Bool)) (funs) (terms))
status 3, 22 bytes on diag, 0 on out
job refused: BadWidth
> (job (enums) (vars ("x" Foo) ("x" Foo)) (funs) (terms))
status 3, 21 bytes on diag, 0 on out
job refused: BadType
> (job (enums) (vars ("x" (Record ("a" Bool) ("a" Foo)))) (funs) (terms))
status 3, 27 bytes on diag, 0 on out
job refused: DuplicateName
> (job (enums) (vars ("x" (Record ("a" Foo) ("a" Bool)))) (funs) (terms))
status 3, 21 bytes on diag, 0 on out
job refused: BadType
> (job (enums) (vars) (funs ("f" Bool (BitVec 129)) ("f" Bool Bool)) (terms))
status 3, 22 bytes on diag, 0 on out
job refused: BadWidth
> (job (enums) (vars) (funs ("f" Bool Bool) ("f" Foo Bool)) (terms))
status 3, 27 bytes on diag, 0 on out
job refused: DuplicateName
> (job (enums) (vars) (funs) (terms (var "x")))
status 3, 25 bytes on diag, 0 on out
job refused: UnknownName
> (job (enums) (vars) (funs) (terms (uuf "f" (var "x"))))
status 3, 25 bytes on diag, 0 on out
job refused: UnknownName
> (job (enums) (vars) (funs) (terms (foo (var "x"))))
status 3, 25 bytes on diag, 0 on out
job refused: UnknownName
> (job (enums) (vars) (funs) (terms (not (foo (var "x")))))
status 3, 25 bytes on diag, 0 on out
job refused: UnknownName
> (job (enums) (vars) (funs) (terms (bv 8 256)))
status 3, 24 bytes on diag, 0 on out
job refused: BadLiteral
> (job (enums) (vars) (funs) (terms (bv 129 0)))
status 3, 22 bytes on diag, 0 on out
job refused: BadWidth
> (job (enums) (vars) (funs) (terms (long "9223372036854775808")))
status 3, 24 bytes on diag, 0 on out
job refused: BadLiteral
> (job (enums) (vars) (funs) (terms (not (bv 8 1))))
status 3, 22 bytes on diag, 0 on out
job refused: IllTyped
> (job (enums) (vars) (funs) (terms (set Bool (bv 8 1))))
status 3, 22 bytes on diag, 0 on out
job refused: IllTyped
> (job (enums) (vars) (funs) (terms (bv 8 1) (var "x")))
status 3, 21 bytes on diag, 0 on out
job refused: NotBool
> (job (enums) (vars) (funs) (terms (record.get "a" (record ("b" true)))))
status 3, 22 bytes on diag, 0 on out
job refused: IllTyped
> (job (enums) (vars) (funs) (terms (record ("a" (foo)) ("a" true))))
status 3, 27 bytes on diag, 0 on out
job refused: DuplicateName
> (job (enums) (vars) (funs) (terms (zero_extend 128 (bv 8 1))))
status 3, 22 bytes on diag, 0 on out
job refused: BadWidth
> (job (enums) (vars ("x" (BitVec 8))) (funs) (terms (zero_extend 127 (var "x"))))
status 3, 22 bytes on diag, 0 on out
job refused: IllTyped
> (job (enums) (vars) (funs) (terms (some)))
status 3, 21 bytes on diag, 0 on out
job refused: BadForm
> (job (enums) (vars) (funs) (terms "text"))
status 3, 21 bytes on diag, 0 on out
job refused: NotBool
> (job (enums) (vars) (funs) (terms (eq #x100000000000000000000000000000001 (foo))))
status 3, 19 bytes on diag, 0 on out
job refused: Parse
> (job (enums) (vars) (funs) (terms (eq #x000000000000000000000000000000001 (foo))))
status 3, 19 bytes on diag, 0 on out
job refused: Parse
> (job (enums) (vars) (funs) (terms (foo) #b2))
status 3, 19 bytes on diag, 0 on out
job refused: Parse
> (job (enums) (vars) (funs) (terms (foo) #))
status 3, 19 bytes on diag, 0 on out
job refused: Parse
> (job (enums) (vars) (funs) (terms (foo) "\ud800"))
status 3, 19 bytes on diag, 0 on out
job refused: Parse
> (job (enums) (vars) (funs) (terms (foo) "a))
status 3, 19 bytes on diag, 0 on out
job refused: Parse
> (job (enums) (vars) (funs) (terms (bv 8 340282366920938463463374607431768211456)))
status 3, 19 bytes on diag, 0 on out
job refused: Parse
> (job (enums) (vars) (funs) (terms (foo)))) (
status 3, 19 bytes on diag, 0 on out
job refused: Parse
> (job (enums) (vars) (funs) (terms (foo))
status 3, 19 bytes on diag, 0 on out
job refused: Parse
> (job (enums) (vars) (funs) (terms true)) 5
status 3, 19 bytes on diag, 0 on out
job refused: Parse
> )
status 3, 19 bytes on diag, 0 on out
job refused: Parse
> ; nothing but a comment
status 3, 19 bytes on diag, 0 on out
job refused: Parse
> foo
status 3, 21 bytes on diag, 0 on out
job refused: BadForm
"##;
