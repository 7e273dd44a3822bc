//! Records.

/// The rows.
pub(crate) const ROWS: &str = r#"record_of: = (record)
byte:2 byte:1 record_of:b,a = (record ("a" (bits 8 1)) ("b" (bits 8 2)))
byte:1 byte:2 byte:3 record_of:a,b,a = (record ("a" (bits 8 3)) ("b" (bits 8 2)))
byte:2 byte:1 record_of:ab,a = (record ("a" (bits 8 1)) ("ab" (bits 8 2)))
byte:1 byte:2 tag_of = (record ("entity" (bits 8 1)) ("tag" (bits 8 2)))
byte:1 byte:2 record_of:a,b record_get:a = (bits 8 1)
byte:1 byte:2 record_of:a,b record_get:b = (bits 8 2)
byte:1 byte:2 record_of:a,b record_get:c = (record ("a" (bits 8 1)) ("b" (bits 8 2)))
var:r:%a=8 record_get:a = ((record.get "a") (var "r" (Record ("a" (BitVec 8)))) : (BitVec 8))
var:r:%a=8 record_get:b = (var "r" (Record ("a" (BitVec 8))))
var:b:bool record_get:a = (var "b" Bool)
"#;
