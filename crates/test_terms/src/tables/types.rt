//! Types.

/// The rows.
pub(crate) const ROWS: &str = r#"kinds:bool = true false false false false
kinds:8 = true false false false false
kinds:string = true false false false false
kinds:@a = true true false false false
kinds:?bool = false false false true false
kinds:?string = false false false true false
kinds:?@a = false false false true true
kinds:??@a = false false false true false
kinds:?*@a = false false false true false
kinds:*8 = false false false false false
kinds:.bool = false false true false false
kinds:?.bool = false false false true false
kinds:*@a = false false false false false
shared_type:bool = true
type:bool = Bool
shared_type:1 = true
type:1 = (BitVec 1)
shared_type:8 = true
type:8 = (BitVec 8)
shared_type:128 = true
type:128 = (BitVec 128)
shared_type:string = true
type:string = String
shared_type:@a = true
type:@a = (Entity "a")
shared_type:?8 = true
type:?8 = (Option (BitVec 8))
shared_type:?string = true
type:?string = (Option String)
shared_type:?@a = true
type:?@a = (Option (Entity "a"))
shared_type:??bool = true
type:??bool = (Option (Option Bool))
shared_type:*8 = true
type:*8 = (Set (BitVec 8))
shared_type:*?string = true
type:*?string = (Set (Option String))
shared_type:*@a = true
type:*@a = (Set (Entity "a"))
shared_type:?**bool = true
type:?**bool = (Option (Set (Set Bool)))
type:%a=bool = (Record ("a" Bool))
size_of_type:%a=bool = 1 false true
type_at:a,ab:%a=bool = (found Bool nothing)
type:%b=bool,a=8 = (Record ("a" (BitVec 8)) ("b" Bool))
size_of_type:%b=bool,a=8 = 2 false true
type_at:a,b,ab:%b=bool,a=8 = (found (BitVec 8) Bool nothing)
type:%a=bool,b=8,a=?string = (Record ("a" (Option String)) ("b" (BitVec 8)))
size_of_type:%a=bool,b=8,a=?string = 2 false true
type_at:a,b,ab:%a=bool,b=8,a=?string = (found (Option String) (BitVec 8) nothing)
type:%a=bool,a=8,a=bool = (Record ("a" Bool))
size_of_type:%a=bool,a=8,a=bool = 1 false true
type_at:a,ab:%a=bool,a=8,a=bool = (found Bool nothing)
size_of_type:% = 0 true true
tag_for:User = (Record ("entity" (Entity "User")) ("tag" String))
"#;
