//! Applications that are ill typed.

/// The rows.
pub(crate) const ROWS: &str = r#"takes:not:0 = false
var:x:1 takes:not:1 = false
var:x:bool var:x:bool takes:not:2 = false
var:x:bool takes:and:1 = false
var:x:bool var:x:8 takes:and:2 = false
var:x:8 var:x:bool takes:or:2 = false
var:x:8 var:x:64 takes:eq:2 = false
var:x:bool var:x:1 takes:eq:2 = false
var:x:?8 var:x:*8 takes:eq:2 = false
var:x:?8 var:x:8 set:1:8 takes:eq:2 = false
none:8 var:x:*8 takes:eq:2 = false
none:8 var:x:8 set:1:8 takes:eq:2 = false
var:x:8 some var:x:*8 takes:eq:2 = false
var:x:8 some var:x:8 set:1:8 takes:eq:2 = false
var:x:?string var:x:?8 takes:eq:2 = false
var:x:?string none:8 takes:eq:2 = false
var:x:?string var:x:8 some takes:eq:2 = false
none:string var:x:?8 takes:eq:2 = false
none:string none:8 takes:eq:2 = false
none:string var:x:8 some takes:eq:2 = false
var:x:string some var:x:?8 takes:eq:2 = false
var:x:string some none:8 takes:eq:2 = false
var:x:string some var:x:8 some takes:eq:2 = false
var:x:??8 var:x:?8 takes:eq:2 = false
var:x:??8 none:8 takes:eq:2 = false
var:x:??8 var:x:8 some takes:eq:2 = false
none:?8 var:x:?8 takes:eq:2 = false
none:?8 none:8 takes:eq:2 = false
none:?8 var:x:8 some takes:eq:2 = false
var:x:?8 some var:x:?8 takes:eq:2 = false
var:x:?8 some none:8 takes:eq:2 = false
var:x:?8 some var:x:8 some takes:eq:2 = false
var:x:*string var:x:*8 takes:eq:2 = false
var:x:*string var:x:8 set:1:8 takes:eq:2 = false
var:x:string set:1:string var:x:*8 takes:eq:2 = false
var:x:string set:1:string var:x:8 set:1:8 takes:eq:2 = false
var:x:string var:x:bool takes:eq:2 = false
text:a var:x:bool takes:eq:2 = false
var:x:@a var:x:@b takes:eq:2 = false
var:x:@a entity:b: takes:eq:2 = false
entity:a: var:x:@b takes:eq:2 = false
entity:a: entity:b: takes:eq:2 = false
var:x:@a var:x:string takes:eq:2 = false
var:x:@a text:a takes:eq:2 = false
entity:a: var:x:string takes:eq:2 = false
entity:a: text:a takes:eq:2 = false
var:x:1 var:x:8 var:x:8 takes:ite:3 = false
var:x:bool var:x:8 var:x:64 takes:ite:3 = false
var:x:*8 var:x:*8 takes:ite:2 = false
var:x:*8 var:x:8 set:1:8 takes:ite:2 = false
var:x:8 set:1:8 var:x:*8 takes:ite:2 = false
var:x:8 set:1:8 var:x:8 set:1:8 takes:ite:2 = false
var:x:8 var:x:64 takes:bvadd:2 = false
var:x:bool var:x:bool takes:bvult:2 = false
var:x:8 var:x:8 var:x:8 takes:bvsmod:3 = false
var:x:bool takes:bvneg:1 = false
var:x:bool takes:bvnego:1 = false
var:x:8 takes:option.get:1 = false
var:x:*8 takes:option.get:1 = false
var:x:8 set:1:8 takes:option.get:1 = false
var:x:?8 var:x:?8 takes:option.get:2 = false
var:x:?8 none:8 takes:option.get:2 = false
var:x:?8 var:x:8 some takes:option.get:2 = false
none:8 var:x:?8 takes:option.get:2 = false
none:8 none:8 takes:option.get:2 = false
none:8 var:x:8 some takes:option.get:2 = false
var:x:8 some var:x:?8 takes:option.get:2 = false
var:x:8 some none:8 takes:option.get:2 = false
var:x:8 some var:x:8 some takes:option.get:2 = false
takes:record.get=a:0 = false
var:x:bool takes:record.get=a:1 = false
var:x:@a takes:record.get=a:1 = false
entity:a: takes:record.get=a:1 = false
var:x:?.bool takes:record.get=a:1 = false
none:.bool takes:record.get=a:1 = false
var:x:.bool some takes:record.get=a:1 = false
var:x:.bool var:x:.bool takes:record.get=a:2 = false
var:x:.bool var:x:bool record:a takes:record.get=a:2 = false
var:x:bool record:a var:x:.bool takes:record.get=a:2 = false
var:x:bool record:a var:x:bool record:a takes:record.get=a:2 = false
var:x:.bool takes:record.get=b:1 = false
var:x:bool record:a takes:record.get=b:1 = false
var:x:*8 takes:set.inter:1 = false
var:x:8 set:1:8 takes:set.inter:1 = false
var:x:*8 var:x:*string takes:set.inter:2 = false
var:x:*8 var:x:string set:1:string takes:set.inter:2 = false
var:x:8 set:1:8 var:x:*string takes:set.inter:2 = false
var:x:8 set:1:8 var:x:string set:1:string takes:set.inter:2 = false
var:x:8 var:x:8 takes:set.inter:2 = false
var:x:?8 var:x:?8 takes:set.inter:2 = false
var:x:?8 none:8 takes:set.inter:2 = false
var:x:?8 var:x:8 some takes:set.inter:2 = false
none:8 var:x:?8 takes:set.inter:2 = false
none:8 none:8 takes:set.inter:2 = false
none:8 var:x:8 some takes:set.inter:2 = false
var:x:8 some var:x:?8 takes:set.inter:2 = false
var:x:8 some none:8 takes:set.inter:2 = false
var:x:8 some var:x:8 some takes:set.inter:2 = false
var:x:*8 var:x:8 takes:set.member:2 = false
var:x:8 set:1:8 var:x:8 takes:set.member:2 = false
var:x:8 var:x:*string takes:set.member:2 = false
var:x:8 var:x:string set:1:string takes:set.member:2 = false
var:x:8 var:x:8 takes:set.member:2 = false
var:x:8 var:x:?8 takes:set.member:2 = false
var:x:8 none:8 takes:set.member:2 = false
var:x:8 var:x:8 some takes:set.member:2 = false
var:x:?string var:x:*string takes:set.member:2 = false
var:x:?string var:x:string set:1:string takes:set.member:2 = false
none:string var:x:*string takes:set.member:2 = false
none:string var:x:string set:1:string takes:set.member:2 = false
var:x:string some var:x:*string takes:set.member:2 = false
var:x:string some var:x:string set:1:string takes:set.member:2 = false
var:x:8 var:x:*8 takes:set.subset:2 = false
var:x:8 var:x:8 set:1:8 takes:set.subset:2 = false
var:x:string var:x:string takes:set.subset:2 = false
var:x:string text:a takes:set.subset:2 = false
text:a var:x:string takes:set.subset:2 = false
text:a text:a takes:set.subset:2 = false
var:x:8 takes:string.like=*:1 = false
var:x:?string takes:string.like=*:1 = false
none:string takes:string.like=*:1 = false
var:x:string some takes:string.like=*:1 = false
var:x:string var:x:string takes:string.like=*:2 = false
var:x:string text:a takes:string.like=*:2 = false
text:a var:x:string takes:string.like=*:2 = false
text:a text:a takes:string.like=*:2 = false
var:x:bool takes:zero_extend=0:1 = false
var:x:8 takes:zero_extend=121:1 = false
var:x:128 takes:zero_extend=4294967295:1 = false
"#;
