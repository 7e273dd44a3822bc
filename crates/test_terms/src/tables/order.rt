//! The order of terms, types and operators.

/// The rows.
pub(crate) const ROWS: &str = r#"compare_types:??8:?8 = less
compare_types:?8:?bool = less
compare_types:?bool:?@a = less
compare_types:?@a:1 = less
compare_types:1:8 = less
compare_types:8:128 = less
compare_types:128:bool = less
compare_types:bool:@a = less
compare_types:@a:@ab = less
compare_types:@ab:@b = less
compare_types:@b:string = less
compare_types:string:.?8 = less
compare_types:.?8:.8 = less
compare_types:.8:.bool = less
compare_types:.bool:.@a = less
compare_types:.@a:.string = less
compare_types:.string:..bool = less
compare_types:..bool:*8 = less
compare_types:*8:*bool = less
compare_types:*bool:*@a = less
compare_types:*@a:*string = less
compare_types:*string:**8 = less
compare_operators:and:bvadd = less
compare_operators:bvadd:bvlshr = less
compare_operators:bvlshr:bvmul = less
compare_operators:bvmul:bvneg = less
compare_operators:bvneg:bvnego = less
compare_operators:bvnego:bvsaddo = less
compare_operators:bvsaddo:bvsdiv = less
compare_operators:bvsdiv:bvshl = less
compare_operators:bvshl:bvsle = less
compare_operators:bvsle:bvslt = less
compare_operators:bvslt:bvsmod = less
compare_operators:bvsmod:bvsmulo = less
compare_operators:bvsmulo:bvsrem = less
compare_operators:bvsrem:bvssubo = less
compare_operators:bvssubo:bvsub = less
compare_operators:bvsub:bvudiv = less
compare_operators:bvudiv:bvule = less
compare_operators:bvule:bvult = less
compare_operators:bvult:bvurem = less
compare_operators:bvurem:eq = less
compare_operators:eq:ite = less
compare_operators:ite:not = less
compare_operators:not:option.get = less
compare_operators:option.get:or = less
compare_operators:or:set.inter = less
compare_operators:set.inter:set.member = less
compare_operators:set.member:set.subset = less
compare_operators:set.subset:zero_extend=0 = less
compare_operators:zero_extend=0:zero_extend=56 = less
compare_operators:zero_extend=56:zero_extend=120 = less
var:x:bool var:x:bool app:and:2:bool var:x:bool app:not:1:bool compare = less
var:x:bool app:not:1:bool none:bool compare = less
none:bool byte:255 compare = less
byte:255 int:7 compare = less
int:7 int:-5 compare = less
int:-5 false compare = less
false true compare = less
true entity:a:b compare = less
entity:a:b entity:a:ba compare = less
entity:a:ba entity:ab: compare = less
entity:ab: entity:ab:a compare = less
entity:ab:a entity:b:a compare = less
entity:b:a text: compare = less
text: text:a compare = less
text:a text:aa compare = less
text:aa text:b compare = less
text:b text:é compare = less
text:é text:𯿿 compare = less
text:𯿿 int:7 record:a compare = less
int:7 record:a true record:a compare = less
true record:a set:0:bool compare = less
set:0:bool true false set:2:bool compare = less
true false set:2:bool int:7 some compare = less
int:7 some true some compare = less
true some var:a:bool compare = less
var:a:bool var:b:64 compare = less
var:b:64 var:b:bool compare = less
"#;
