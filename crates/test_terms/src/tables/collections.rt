//! Sets.

/// The rows.
pub(crate) const ROWS: &str = r#"text:abz string_like:a*z = true
text:abzy string_like:a*z = false
var:y:string string_like:a*z has_type:bool = true
var:y:string string_like:a*z = ((string.like 'a' * 'z') (var "y" String) : Bool)
byte:2 byte:1 byte:2 set_of:3:8 = (set (BitVec 8) (bits 8 1) (bits 8 2))
byte:1 set_of:0:8 set_member = false
byte:2 byte:2 byte:1 set_of:2:8 set_member = true
byte:1 var:s:*8 set_member has_type:bool = true
byte:1 var:s:*8 set_member = (set.member (bits 8 1) (var "s" (Set (BitVec 8))) : Bool)
set_of:0:8 var:s:*8 set_subset = true
byte:1 byte:2 set_of:2:8 byte:1 set_of:1:8 set_subset = false
var:s:*8 byte:1 set_of:1:8 set_subset has_type:bool = true
var:s:*8 byte:1 set_of:1:8 set_subset = (set.subset (var "s" (Set (BitVec 8))) (set (BitVec 8) (bits 8 1)) : Bool)
byte:1 set_of:1:8 byte:1 byte:2 set_of:2:8 set_inter = (set (BitVec 8) (bits 8 1))
var:s:*8 set_of:0:8 set_inter = (set (BitVec 8))
var:s:*8 byte:1 set_of:1:8 set_inter has_type:*8 = true
var:s:*8 byte:1 set_of:1:8 set_inter = (set.inter (var "s" (Set (BitVec 8))) (set (BitVec 8) (bits 8 1)) : (Set (BitVec 8)))
byte:1 set_of:1:8 byte:1 set_of:1:8 set_intersects = true
set_of:0:8 set_is_empty = true
byte:1 set_is_empty = false
var:s:*8 set_is_empty = (eq (var "s" (Set (BitVec 8))) (set (BitVec 8)) : Bool)
var:s:*8 set_is_empty var:s:*8 set_of:0:8 eq same = true
"#;
