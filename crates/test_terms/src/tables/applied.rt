//! Functions and tables at terms.

/// The rows.
pub(crate) const ROWS: &str =
    r#"var:x:8 app_of:f:8:bool = ((uuf "f" (BitVec 8) Bool) (var "x" (BitVec 8)) : Bool)
byte:0 byte:2 byte:20 byte:1 byte:10 byte:1 app_of_table:2:8:8 = (bits 8 10)
byte:0 byte:2 byte:20 byte:1 byte:10 byte:2 app_of_table:2:8:8 = (bits 8 20)
byte:0 byte:2 byte:20 byte:1 byte:10 byte:0 app_of_table:2:8:8 = (bits 8 0)
byte:0 byte:2 byte:20 byte:1 byte:10 byte:20 app_of_table:2:8:8 = (bits 8 0)
byte:0 byte:2 byte:20 byte:1 byte:10 var:x:8 app_of_table:2:8:8 = (ite (eq (var "x" (BitVec 8)) (bits 8 1) : Bool) (bits 8 10) (ite (eq (var "x" (BitVec 8)) (bits 8 2) : Bool) (bits 8 20) (bits 8 0) : (BitVec 8)) : (BitVec 8))
"#;
