//! Options.

/// The rows.
pub(crate) const ROWS: &str = r#"byte:1 some_of = (some (bits 8 1))
var:b:bool some_of = (some (var "b" Bool))
none_of:bool some_of = (some (none Bool))
var:o:?bool some_of has_type:??bool = true
byte:1 some_of option_get = (bits 8 1)
var:o:?bool option_get has_type:bool = true
var:o:?bool option_get = (option.get (var "o" (Option Bool)) : Bool)
var:b:bool some_of is_none = false
none_of:bool is_none = true
var:b:bool some_of is_some = true
var:o:?bool is_none = (eq (var "o" (Option Bool)) (none Bool) : Bool)
var:o:?bool is_none var:o:?bool none_of:bool eq same = true
var:c:bool var:b:bool if_true is_none = (not (var "c" Bool) : Bool)
var:c:bool not = (not (var "c" Bool) : Bool)
var:c:bool var:b:bool if_false is_none = (var "c" Bool)
true var:b:bool if_true = (some (var "b" Bool))
var:b:bool some_of var:c:bool if_some = (some (var "c" Bool))
var:b:bool some_of var:o:?bool if_some = (var "o" (Option Bool))
var:b:bool if_all_some:0 = (some (var "b" Bool))
none_of:bool var:b:bool if_all_some:1 = (none Bool)
var:b:bool some_of any_none:1 = false
true some_of var:b:bool some_of eq = (var "b" Bool)
none_of:bool var:b:bool some_of eq = false
var:b:bool true some_of false some_of ite = (some (var "b" Bool))
"#;
