//! Rows of nodes and terms and the numbers that they get, a table for each interner.

/// A sum whose two parts are one node, each above the other.
const SUMS: &str = r#"bits:8 = 0 of 1
var:x 0 = 1 of 2
app:bvadd 0 1 1 = 2 of 3
app:bvadd 0 2 2 = 3 of 4
app:bvadd 0 3 3 = 4 of 5
app:bvadd 0 4 4 = 5 of 6
app:bvadd 0 5 5 = 6 of 7
app:bvadd 0 6 6 = 7 of 8
app:bvadd 0 7 7 = 8 of 9
app:bvadd 0 8 8 = 9 of 10
app:bvadd 0 9 9 = 10 of 11
app:bvadd 0 10 10 = 11 of 12
app:bvadd 0 11 11 = 12 of 13
app:bvadd 0 12 12 = 13 of 14
app:bvadd 0 13 13 = 14 of 15
app:bvadd 0 14 14 = 15 of 16
app:bvadd 0 15 15 = 16 of 17
app:bvadd 0 16 16 = 17 of 18
app:bvadd 0 17 17 = 18 of 19
app:bvadd 0 18 18 = 19 of 20
app:bvadd 0 19 19 = 20 of 21
app:bvadd 0 20 20 = 21 of 22
app:bvadd 0 21 21 = 22 of 23
app:bvadd 0 22 22 = 23 of 24
app:bvadd 0 23 23 = 24 of 25
app:bvadd 0 24 24 = 25 of 26
app:bvadd 0 25 25 = 26 of 27
app:bvadd 0 26 26 = 27 of 28
app:bvadd 0 27 27 = 28 of 29
app:bvadd 0 28 28 = 29 of 30
app:bvadd 0 29 29 = 30 of 31
app:bvadd 0 30 30 = 31 of 32
app:bvadd 0 31 31 = 32 of 33
app:bvadd 0 32 32 = 33 of 34
app:bvadd 0 33 33 = 34 of 35
app:bvadd 0 34 34 = 35 of 36
app:bvadd 0 35 35 = 36 of 37
app:bvadd 0 36 36 = 37 of 38
app:bvadd 0 37 37 = 38 of 39
app:bvadd 0 38 38 = 39 of 40
app:bvadd 0 39 39 = 40 of 41
app:bvadd 0 40 40 = 41 of 42
bits:8 = 0 of 42
var:x 0 = 1 of 42
app:bvadd 0 1 1 = 2 of 42
app:bvadd 0 40 40 = 41 of 42
"#;

/// Terms that are entered.
const TERMS: &str = r#"term var:x:8 var:x:8 app:bvadd:2:8 = 2 of 3, 3 parts
term var:x:8 var:x:8 app:bvadd:2:8 = 2 of 3, 3 parts
term var:x:8 = 1 of 3, 1 parts
"#;

/// Terms that are looked for.
const FOUND: &str = r#"find var:x:8 = not found
term var:x:8 var:y:8 app:bvadd:2:8 = 3 of 4, 3 parts
find var:x:8 = 1 of 4
find var:x:8 var:y:8 app:bvadd:2:8 = 3 of 4
find var:y:8 var:x:8 app:bvadd:2:8 = not found
find var:x:8 var:x:8 app:bvadd:2:8 = not found
find var:x:8 var:y:8 app:bvadd:2:8 set:1:8 = not found
term var:x:8 var:y:8 app:bvadd:2:8 set:1:8 = 5 of 6, 2 parts
find var:x:8 var:y:8 app:bvadd:2:8 set:1:8 = 5 of 6
find var:x:8 var:y:8 set:2:8 = not found
"#;

/// Sets.
const SETS: &str =
    r#"term var:y:8 var:x:8 var:y:8 app:bvadd:2:8 var:x:8 var:x:8 var:x:8 app:bvadd:2:8 set:4:8 = 6 of 7, 5 parts
"#;

/// Nodes that fit and that do not.
const NODES: &str = r#"option 0 = does not fit
bits:8 = 0 of 1
var:x 0 = 1 of 2
var:y 0 = 2 of 3
set 0 = 3 of 4
option 1 = does not fit
bool 0 = does not fit
app:bvneg 1 0 = does not fit
some 3 1 = does not fit
set_of 3 1 2 = 4 of 5
set_of 3 2 1 = does not fit
set_of 3 1 1 = does not fit
bits:8 = 0 of 5
bits:9 = 5 of 6
bool = 6 of 7
string = 7 of 8
option 0 = 8 of 9
some 8 1 = 9 of 10
none 8 = 10 of 11
none 0 = does not fit
none = does not fit
prim:byte:7 0 = 11 of 12
prim:byte:7 5 = does not fit
prim:byte:7 = does not fit
prim:true 6 = 12 of 13
prim:true 0 = does not fit
prim:text:a 7 = 13 of 14
prim:text:a 6 = does not fit
var:z 1 = does not fit
var:z = does not fit
var:z 0 0 = does not fit
option = does not fit
option 0 0 = does not fit
set 63 = does not fit
app:bvadd 0 1 63 = does not fit
app:bvadd 0 = 14 of 15
set_of 3 = 15 of 16
set_of 0 = does not fit
set_of 3 0 = does not fit
"#;

/// Uninterpreted functions.
const FUNCTIONS: &str = r#"bits:8 = 0 of 1
bool = 1 of 2
var:x 0 = 2 of 3
fun:f 0 1 = 3 of 4
fun:f 1 0 = 4 of 5
fun:f 0 0 = 5 of 6
fun:g 0 1 = 6 of 7
fun:f 0 1 = 3 of 7
fun: 0 1 = 7 of 8
fun:f 0 = does not fit
fun:f 0 1 0 = does not fit
fun:f 0 2 = does not fit
fun:f 0 3 = does not fit
call 1 3 2 = 8 of 9
call 1 6 2 = 9 of 10
call 1 3 2 = 8 of 10
call 0 3 2 = 10 of 11
call 1 3 = 11 of 12
call 1 3 2 2 = 12 of 13
call 1 2 2 = does not fit
call 3 2 = does not fit
call 1 3 3 = does not fit
call 1 3 0 = does not fit
call 1 3 63 = does not fit
call 1 = does not fit
call = does not fit
app:call=f=8=8 0 2 = does not fit
option 3 = does not fit
var:y 3 = does not fit
app:bvadd 0 3 2 = does not fit
set 0 = 13 of 14
app:bvadd 0 2 2 = 14 of 15
call 0 5 2 = 15 of 16
app:zero_extend=4 0 2 = 16 of 17
set_of 13 14 15 16 = 17 of 18
set_of 13 14 15 = 18 of 19
set_of 13 15 14 = does not fit
set_of 13 16 15 = does not fit
set_of 13 15 3 = does not fit
term var:x:8 call:f:8:8 = 15 of 19, 3 parts
find var:x:8 call:f:8:8 = 15 of 19
term var:x:8 call:f:8:8 var:x:8 var:x:8 app:bvadd:2:8 set:2:8 = 18 of 19, 3 parts
find var:x:8 call:g:8:8 = not found
term var:x:8 call:g:8:8 = 20 of 21, 3 parts
term var:x:8 call:f:8:8 call:f:8:8 = 21 of 22, 3 parts
find var:x:8 call:f:8:8 call:f:8:8 = 21 of 22
find var:y:8 call:f:8:8 = not found
find var:x:8 call:f:8:8 call:g:8:8 = not found
"#;

/// Records.
const RECORDS: &str = r#"bool = 0 of 1
bits:8 = 1 of 2
var:x 1 = 2 of 3
var:b 0 = 3 of 4
record:a,b 0 1 = 4 of 5
record:a,b 1 0 = 5 of 6
record:b,a 0 1 = does not fit
record:a,a 0 1 = does not fit
record:a,b 0 = does not fit
record:a,b 0 1 1 = does not fit
record:a,b 0 2 = does not fit
record: = 6 of 7
record = 6 of 7
record_of:a,b 4 3 2 = 7 of 8
record_of:a,b 4 2 3 = does not fit
record_of:b,a 4 2 3 = does not fit
record_of:a,b 5 3 2 = does not fit
record_of:a,b 5 2 3 = 8 of 9
record_of:a,b 4 3 = does not fit
record_of:a,b 4 3 2 2 = does not fit
record_of:a,c 4 3 2 = does not fit
record_of:a,b 0 3 2 = does not fit
record_of:a,b 3 2 = does not fit
record_of:a,b 4 4 4 = does not fit
record_of 6 = 9 of 10
record_of 4 = does not fit
set 4 = 10 of 11
set 5 = 11 of 12
option 5 = 12 of 13
var:r 4 = 13 of 14
set_of 10 7 = 14 of 15
set_of 10 7 13 = 15 of 16
set_of 10 13 7 = does not fit
set_of 10 8 = 16 of 17
set_of 11 8 = 17 of 18
none 12 = 18 of 19
term var:x:8 var:y:8 record:a,b = 21 of 22, 3 parts
term var:x:8 var:y:8 record:b,a = 22 of 23, 3 parts
term var:y:8 var:x:8 record:a,b = 22 of 23, 3 parts
find var:x:8 var:x:8 record:a,b = not found
find var:x:8 record:a = not found
term var:x:8 record:a, = 24 of 25, 2 parts
term var:x:8 var:x:8 record:a,a = 24 of 25, 2 parts
"#;

/// Extension values.
const EXTENSIONS: &str = r#"ext:decimal = 0 of 1
ext:ip = 1 of 2
ext:decimal = 0 of 2
ext:datetime 0 = does not fit
ext:datetime = 2 of 3
bits:64 = 3 of 4
bool = 4 of 5
prim:decimal:1.0 0 = 5 of 6
prim:decimal:1.00 0 = 5 of 6
prim:decimal:1.0 1 = does not fit
prim:ip:10.0.0.0/8 1 = 6 of 7
prim:ip:10.0.0.0/8 0 = does not fit
var:i 1 = 7 of 8
app:ipaddr.isV4 4 7 = 8 of 9
app:ipaddr.isV4 4 5 = 9 of 10
app:decimal.val 3 5 = 10 of 11
app:datetime.ofBitVec 2 10 = 11 of 12
term var:i:ip app:ipaddr.isV4:1:bool = 8 of 12, 2 parts
find decimal:1.0 = 5 of 12
find decimal:1.5 = not found
find ip:10.0.0.0/8 = 6 of 12
find datetime:1970-01-01 = not found
term datetime:1970-01-01 = 12 of 13, 1 parts
"#;

/// The tables.
pub(crate) const TABLES: &[&str] = &[
    SUMS, TERMS, FOUND, SETS, NODES, FUNCTIONS, RECORDS, EXTENSIONS,
];
