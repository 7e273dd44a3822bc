//! Printed texts.

/// The rows.
pub(crate) const ROWS: &str = r#"true print = true
false print = false
bits:64:12 print = (bv64 12)
int:-5 print = (bv64 18446744073709551611)
text:a"b\\c print = "a"b\c"
text:a\nb print = "a
b"
entity:T:a print = T::"a"
entity:ns\u{3a}\u{3a}T:it's\u{20}\"\\\n\r\u{9}\u{0}\u{1}\u{7f}é print = ns::T::"it\'s \"\\\n\r\t\0\u{1}\u{7f}é"
decimal:0.1 print = decimal("0.1000")
decimal:-12.034 print = decimal("-12.0340")
ip:10.0.0.0/8 print = ip("10.0.0.0/8")
ip:::1 print = ip("0000:0000:0000:0000:0000:0000:0000:0001/128")
duration:5ms print = duration("5ms")
duration:-1s print = duration("-1000ms")
datetime:1970-01-01T00:00:00.005Z print = datetime("1970-01-01").offset(duration("5ms"))
datetime:1969-12-31 print = datetime("1970-01-01").offset(duration("-86400000ms"))
var:x\u{20}'y:bool print = x 'y
none:8 print = None
true some print = Some(true)
set:0:8 print = []
byte:2 byte:1 byte:2 set:3:8 print = [(bv8 1), (bv8 2)]
record: print = {}
var:x:bool byte:1 record:b,a print = { a: (bv8 1), b: x }
var:x:bool var:y:bool app:and:2:bool print = and(x, y)
app:and:0:bool print = and()
var:x:8 app:not:1:bool var:b:bool app:or:2:bool print = or(not(x), b)
var:r:%a=8 app:record.get=a:1:8 print = getattr["a"](r)
var:s:string app:string.like=a*'\\"\n\u{1f}é:1:bool print = like["a*\'\\\"\n\u{1f}é"](s)
var:d:decimal ext_decimal_val print = decimal.val(d)
var:x:8 call:f:8:bool print = f(x)
var:x:8 app:zero_extend=8:1:16 print = zero_extend(x)
var:o:?bool app:option.get:1:bool some print = Some(option.get(o))
datetime:2001-07-07 print = datetime("1970-01-01").offset(duration("994464000000ms"))
int:36 int:-1240 set:2:64 some print = Some([(bv64 36), (bv64 18446744073709550376)])
"#;
