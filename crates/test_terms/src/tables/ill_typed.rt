//! Terms that are ill typed inside.

/// The rows.
pub(crate) const ROWS: &str = r#"var:x:8 app:not:1:bool var:b:bool takes:and:2 = true
var:x:8 app:not:1:bool var:b:bool app:and:2:bool well_typed has_type:bool = false false
var:b:bool var:x:8 app:not:1:bool takes:and:2 = true
var:b:bool var:x:8 app:not:1:bool app:and:2:bool well_typed has_type:bool = false false
app:not:0:bool some well_typed is_literal = false false
int:2 int:1 int:2 set:3:bool well_typed = false
entity:a:b entity:a:b app:eq:2:bool has_type:bool = true
entity:a:b entity:a:c app:eq:2:bool has_type:bool = true
entity:a:b entity:b:b app:eq:2:bool has_type:bool = false
entity:a:b entity:ab:b app:eq:2:bool has_type:bool = false
entity:a:b text:b app:eq:2:bool has_type:bool = false
"#;
