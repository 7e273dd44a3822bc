//! Operators, and what they take.

/// The rows.
pub(crate) const ROWS: &str = r#"operator:and = and true
operator:bvadd = bvadd true
operator:bvlshr = bvlshr true
operator:bvmul = bvmul true
operator:bvneg = bvneg true
operator:bvnego = bvnego true
operator:bvsaddo = bvsaddo true
operator:bvsdiv = bvsdiv true
operator:bvshl = bvshl true
operator:bvsle = bvsle true
operator:bvslt = bvslt true
operator:bvsmod = bvsmod true
operator:bvsmulo = bvsmulo true
operator:bvsrem = bvsrem true
operator:bvssubo = bvssubo true
operator:bvsub = bvsub true
operator:bvudiv = bvudiv true
operator:bvule = bvule true
operator:bvult = bvult true
operator:bvurem = bvurem true
operator:eq = eq true
operator:ite = ite true
operator:not = not true
operator:option.get = option.get true
operator:or = or true
operator:record.get=a = record.get true
operator:set.inter = set.inter true
operator:set.member = set.member true
operator:set.subset = set.subset true
operator:string.like=* = string.like true
operator:zero_extend=0 = zero_extend true
operator:zero_extend=56 = zero_extend true
operator:zero_extend=120 = zero_extend true
var:x:bool var:x:bool takes:and:2 typed_as:and:2 = true (types bool)
var:x:8 var:x:8 takes:bvadd:2 typed_as:bvadd:2 = true (types 8)
var:x:64 var:x:64 takes:bvlshr:2 typed_as:bvlshr:2 = true (types 64)
var:x:128 var:x:128 takes:bvmul:2 typed_as:bvmul:2 = true (types 128)
var:x:8 takes:bvneg:1 typed_as:bvneg:1 = true (types 8)
var:x:8 takes:bvnego:1 typed_as:bvnego:1 = true (types bool)
var:x:8 var:x:8 takes:bvsaddo:2 typed_as:bvsaddo:2 = true (types bool)
var:x:8 var:x:8 takes:bvsdiv:2 typed_as:bvsdiv:2 = true (types 8)
var:x:8 var:x:8 takes:bvshl:2 typed_as:bvshl:2 = true (types 8)
var:x:8 var:x:8 takes:bvsle:2 typed_as:bvsle:2 = true (types bool)
var:x:8 var:x:8 takes:bvslt:2 typed_as:bvslt:2 = true (types bool)
var:x:8 var:x:8 takes:bvsmod:2 typed_as:bvsmod:2 = true (types 8)
var:x:8 var:x:8 takes:bvsmulo:2 typed_as:bvsmulo:2 = true (types bool)
var:x:8 var:x:8 takes:bvsrem:2 typed_as:bvsrem:2 = true (types 8)
var:x:8 var:x:8 takes:bvssubo:2 typed_as:bvssubo:2 = true (types bool)
var:x:1 var:x:1 takes:bvsub:2 typed_as:bvsub:2 = true (types 1)
var:x:8 var:x:8 takes:bvudiv:2 typed_as:bvudiv:2 = true (types 8)
var:x:8 var:x:8 takes:bvule:2 typed_as:bvule:2 = true (types bool)
var:x:8 var:x:8 takes:bvult:2 typed_as:bvult:2 = true (types bool)
var:x:8 var:x:8 takes:bvurem:2 typed_as:bvurem:2 = true (types 8)
var:x:64 var:x:64 takes:eq:2 typed_as:eq:2 = true (types bool)
var:x:?8 var:x:?8 takes:eq:2 typed_as:eq:2 = true (types bool)
var:x:?8 none:8 takes:eq:2 typed_as:eq:2 = true (types bool)
var:x:?8 var:x:8 some takes:eq:2 typed_as:eq:2 = true (types bool)
none:8 var:x:?8 takes:eq:2 typed_as:eq:2 = true (types bool)
none:8 none:8 takes:eq:2 typed_as:eq:2 = true (types bool)
none:8 var:x:8 some takes:eq:2 typed_as:eq:2 = true (types bool)
var:x:8 some var:x:?8 takes:eq:2 typed_as:eq:2 = true (types bool)
var:x:8 some none:8 takes:eq:2 typed_as:eq:2 = true (types bool)
var:x:8 some var:x:8 some takes:eq:2 typed_as:eq:2 = true (types bool)
var:x:??8 var:x:??8 takes:eq:2 typed_as:eq:2 = true (types bool)
var:x:??8 none:?8 takes:eq:2 typed_as:eq:2 = true (types bool)
var:x:??8 var:x:?8 some takes:eq:2 typed_as:eq:2 = true (types bool)
none:?8 var:x:??8 takes:eq:2 typed_as:eq:2 = true (types bool)
none:?8 none:?8 takes:eq:2 typed_as:eq:2 = true (types bool)
none:?8 var:x:?8 some takes:eq:2 typed_as:eq:2 = true (types bool)
var:x:?8 some var:x:??8 takes:eq:2 typed_as:eq:2 = true (types bool)
var:x:?8 some none:?8 takes:eq:2 typed_as:eq:2 = true (types bool)
var:x:?8 some var:x:?8 some takes:eq:2 typed_as:eq:2 = true (types bool)
var:x:*string var:x:*string takes:eq:2 typed_as:eq:2 = true (types bool)
var:x:*string var:x:string set:1:string takes:eq:2 typed_as:eq:2 = true (types bool)
var:x:string set:1:string var:x:*string takes:eq:2 typed_as:eq:2 = true (types bool)
var:x:string set:1:string var:x:string set:1:string takes:eq:2 typed_as:eq:2 = true (types bool)
var:x:string var:x:string takes:eq:2 typed_as:eq:2 = true (types bool)
var:x:string text:a takes:eq:2 typed_as:eq:2 = true (types bool)
text:a var:x:string takes:eq:2 typed_as:eq:2 = true (types bool)
text:a text:a takes:eq:2 typed_as:eq:2 = true (types bool)
var:x:@a var:x:@a takes:eq:2 typed_as:eq:2 = true (types bool)
var:x:@a entity:a: takes:eq:2 typed_as:eq:2 = true (types bool)
entity:a: var:x:@a takes:eq:2 typed_as:eq:2 = true (types bool)
entity:a: entity:a: takes:eq:2 typed_as:eq:2 = true (types bool)
var:x:bool var:x:8 var:x:8 takes:ite:3 typed_as:ite:3 = true (types 8)
var:x:bool takes:not:1 typed_as:not:1 = true (types bool)
var:x:?8 takes:option.get:1 typed_as:option.get:1 = true (types 8)
none:8 takes:option.get:1 typed_as:option.get:1 = true (types 8)
var:x:8 some takes:option.get:1 typed_as:option.get:1 = true (types 8)
var:x:?*string takes:option.get:1 typed_as:option.get:1 = true (types *string)
none:*string takes:option.get:1 typed_as:option.get:1 = true (types *string)
var:x:*string some takes:option.get:1 typed_as:option.get:1 = true (types *string)
var:x:bool var:x:bool takes:or:2 typed_as:or:2 = true (types bool)
var:x:.bool takes:record.get=a:1 typed_as:record.get=a:1 = true (types bool)
var:x:bool record:a takes:record.get=a:1 typed_as:record.get=a:1 = true (types bool)
var:x:.*string takes:record.get=a:1 typed_as:record.get=a:1 = true (types *string)
var:x:*string record:a takes:record.get=a:1 typed_as:record.get=a:1 = true (types *string)
var:x:*8 var:x:*8 takes:set.inter:2 typed_as:set.inter:2 = true (types *8)
var:x:*8 var:x:8 set:1:8 takes:set.inter:2 typed_as:set.inter:2 = true (types *8)
var:x:8 set:1:8 var:x:*8 takes:set.inter:2 typed_as:set.inter:2 = true (types *8)
var:x:8 set:1:8 var:x:8 set:1:8 takes:set.inter:2 typed_as:set.inter:2 = true (types *8)
var:x:*?string var:x:*?string takes:set.inter:2 typed_as:set.inter:2 = true (types *?string)
var:x:*?string var:x:?string set:1:?string takes:set.inter:2 typed_as:set.inter:2 = true (types *?string)
var:x:?string set:1:?string var:x:*?string takes:set.inter:2 typed_as:set.inter:2 = true (types *?string)
var:x:?string set:1:?string var:x:?string set:1:?string takes:set.inter:2 typed_as:set.inter:2 = true (types *?string)
var:x:8 var:x:*8 takes:set.member:2 typed_as:set.member:2 = true (types bool)
var:x:8 var:x:8 set:1:8 takes:set.member:2 typed_as:set.member:2 = true (types bool)
var:x:?bool var:x:*?bool takes:set.member:2 typed_as:set.member:2 = true (types bool)
var:x:?bool var:x:?bool set:1:?bool takes:set.member:2 typed_as:set.member:2 = true (types bool)
none:bool var:x:*?bool takes:set.member:2 typed_as:set.member:2 = true (types bool)
none:bool var:x:?bool set:1:?bool takes:set.member:2 typed_as:set.member:2 = true (types bool)
var:x:bool some var:x:*?bool takes:set.member:2 typed_as:set.member:2 = true (types bool)
var:x:bool some var:x:?bool set:1:?bool takes:set.member:2 typed_as:set.member:2 = true (types bool)
var:x:*8 var:x:**8 takes:set.member:2 typed_as:set.member:2 = true (types bool)
var:x:*8 var:x:*8 set:1:*8 takes:set.member:2 typed_as:set.member:2 = true (types bool)
var:x:8 set:1:8 var:x:**8 takes:set.member:2 typed_as:set.member:2 = true (types bool)
var:x:8 set:1:8 var:x:*8 set:1:*8 takes:set.member:2 typed_as:set.member:2 = true (types bool)
var:x:*string var:x:*string takes:set.subset:2 typed_as:set.subset:2 = true (types bool)
var:x:*string var:x:string set:1:string takes:set.subset:2 typed_as:set.subset:2 = true (types bool)
var:x:string set:1:string var:x:*string takes:set.subset:2 typed_as:set.subset:2 = true (types bool)
var:x:string set:1:string var:x:string set:1:string takes:set.subset:2 typed_as:set.subset:2 = true (types bool)
var:x:string takes:string.like=*:1 typed_as:string.like=*:1 = true (types bool)
text:a takes:string.like=*:1 typed_as:string.like=*:1 = true (types bool)
var:x:8 takes:zero_extend=0:1 typed_as:zero_extend=0:1 = true (types 8)
var:x:8 takes:zero_extend=56:1 typed_as:zero_extend=56:1 = true (types 64)
var:x:8 takes:zero_extend=120:1 typed_as:zero_extend=120:1 = true (types 128)
"#;
