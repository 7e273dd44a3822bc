//! Connectives, and bitvectors by rules.

/// The rows.
pub(crate) const ROWS: &str = r#"var:b:bool var:b:bool not opposites = true
var:b:bool var:c:bool opposites = false
false var:b:bool implies = true
any_negated:0 = false
var:b:bool var:c:bool any_negated:2 = (or (not (var "c" Bool) : Bool) (not (var "b" Bool) : Bool) : Bool)
var:c:bool not var:b:bool not or = (or (not (var "c" Bool) : Bool) (not (var "b" Bool) : Bool) : Bool)
byte:255 byte:1 bvapp_by = (bits 8 0)
byte:3 byte:1 bvapp = (bits 8 2)
byte:1 byte:1 bvso = true
"#;
