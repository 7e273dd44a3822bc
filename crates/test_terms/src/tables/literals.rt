//! Literals.

/// The rows.
pub(crate) const ROWS: &str =
    r#"int:7 shared type_of type_of_literal is_literal well_typed has_type:64 has_types = true (BitVec 64) (BitVec 64) true true true (types 64)
int:-5 shared type_of type_of_literal is_literal well_typed has_type:64 has_types = true (BitVec 64) (BitVec 64) true true true (types 64)
false shared type_of type_of_literal is_literal well_typed has_type:bool has_types = true Bool Bool true true true (types bool)
true shared type_of type_of_literal is_literal well_typed has_type:bool has_types = true Bool Bool true true true (types bool)
entity:a:b shared type_of type_of_literal is_literal well_typed has_type:@a has_types = true (Entity "a") (Entity "a") true true true (types @a)
entity:b: shared type_of type_of_literal is_literal well_typed has_type:@b has_types = true (Entity "b") (Entity "b") true true true (types @b)
bits:1:1 shared type_of type_of_literal is_literal well_typed has_type:1 has_types = true (BitVec 1) (BitVec 1) true true true (types 1)
bits:128:340282366920938463463374607431768211455 shared type_of type_of_literal is_literal well_typed has_type:128 has_types = true (BitVec 128) (BitVec 128) true true true (types 128)
int:7 = (bits 64 7)
int:-5 = (bits 64 18446744073709551611)
int:-9223372036854775808 = (bits 64 9223372036854775808)
bits:128:340282366920938463463374607431768211455 = (bits 128 340282366920938463463374607431768211455)
entity:a:b = (entity "a" "b")
entity:é: = (entity "é" "")
entity:: = (entity "" "")
true some shared type_of is_literal well_typed has_type:?bool has_types = true (Option Bool) true true true (types)
int:2 int:1 int:2 set:3:64 shared type_of is_literal well_typed has_type:*64 has_types = true (Set (BitVec 64)) true true true (types)
"#;
