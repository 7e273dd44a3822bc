//! Parts of terms.

/// The rows.
pub(crate) const ROWS: &str = r#"var:x:bool record:a = (record ("a" (var "x" Bool)))
var:x:bool record:a shared size at:a,ab = true 1 false (found (var "x" Bool) nothing)
var:x:bool var:x:8 record:b,a = (record ("a" (var "x" (BitVec 8))) ("b" (var "x" Bool)))
var:x:bool var:x:8 record:b,a shared size at:a,b,ab = true 2 false (found (var "x" (BitVec 8)) (var "x" Bool) nothing)
var:x:bool var:x:8 var:x:?string record:a,b,a = (record ("a" (var "x" (Option String))) ("b" (var "x" (BitVec 8))))
var:x:bool var:x:8 var:x:?string record:a,b,a shared size at:a,b,ab = true 2 false (found (var "x" (Option String)) (var "x" (BitVec 8)) nothing)
var:x:bool var:x:8 var:x:bool record:a,a,a = (record ("a" (var "x" Bool)))
var:x:bool var:x:8 var:x:bool record:a,a,a shared size at:a,ab = true 1 false (found (var "x" Bool) nothing)
record: size = 0 true
int:1 int:3 int:1 true table:1 = (table ((bits 64 1) true)) 1 false true (found true nothing)
int:2 int:-1 var:b:bool int:3 var:b:bool int:1 int:-1 int:2 int:2 int:3 table:3 = (table ((bits 64 2) (bits 64 3)) ((bits 64 18446744073709551615) (bits 64 2)) ((var "b" Bool) (bits 64 1))) 3 false true (found (bits 64 3) (bits 64 2) (bits 64 1) nothing)
int:1 int:2 int:3 int:2 int:1 int:1 int:5 int:2 int:7 table:3 = (table ((bits 64 1) (bits 64 5)) ((bits 64 2) (bits 64 7))) 2 false true (found (bits 64 5) (bits 64 7) nothing)
var:b:8 var:b:bool int:3 var:b:8 int:1 var:b:bool int:2 table:2 = (table ((var "b" (BitVec 8)) (bits 64 1)) ((var "b" Bool) (bits 64 2))) 2 false true (found (bits 64 1) (bits 64 2) nothing)
table:0 = (table) 0 true true (found)
int:2 int:1 int:2 set:3:64 = (set (BitVec 64) (bits 64 1) (bits 64 2))
int:2 int:1 int:2 set:3:64 shared size = true 2 false
set:0:64 = (set (BitVec 64))
set:0:64 shared size = true 0 true
int:-1240 int:36 set:2:64 = (set (BitVec 64) (bits 64 36) (bits 64 18446744073709550376))
int:-1240 int:36 set:2:64 shared size = true 2 false
app:and:0:bool = (and : Bool)
app:and:0:bool shared size = true 0 true
var:b:bool int:7 true app:and:3:bool = (and (var "b" Bool) (bits 64 7) true : Bool)
var:b:bool int:7 true app:and:3:bool shared size = true 3 false
"#;
