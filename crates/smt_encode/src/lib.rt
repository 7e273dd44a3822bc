//! The encoder: terms written as lines of an SMT-LIB 2.7 script.
//!
//! What the lines for terms are is stated apart from this code, in the crate `law_lines`, and what they mean in `law_theorem`:
//! this code is shown to put exactly the stated lines to its sink. Read `specs/Encoded.antt` first, which says what a call
//! leaves of an encoder and its sink, then `Refusals`, which says when a call refuses.
//!
//! | Type | Sort |
//! |---|---|
//! | Boolean | `Bool` (theory Core) |
//! | bitvector | `(_ BitVec n)` (theory FixedSizeBitVectors) |
//! | string | `String` (theory UnicodeStrings) |
//! | option | `(Option S)`, of the datatype that each script declares first |
//! | set | `(Set S)`, of finite sets, which are no theory of the standard |
//! | entity | the name of a datatype, with one constructor that holds the id, or with one for each member of an enum type |
//! | record | the name of a datatype, with one constructor that has a selector for each attribute |
//! | decimal | `Decimal`, a datatype with one constructor, which holds the number of ten-thousandths as 64 bits (selector `decimalVal`) |
//! | datetime | `Datetime`, a datatype with one constructor, which holds the number of milliseconds since 1970 as 64 bits (selector
//! `datetimeVal`) |
//! | duration | `Duration`, a datatype with one constructor, which holds the number of milliseconds as 64 bits (selector `durationVal`) |
//! | ipaddr | `IPAddr`, a datatype with the constructors `V4` and `V6`, which hold an address (`addrV4` of 32 bits, `addrV6` of 128) and an
//! option of a prefix (`prefixV4` of 5 bits, `prefixV6` of 7) |
//!
//! | Term | Text |
//! |---|---|
//! | literal | inline: `true` or `false`, `(_ bvN n)` (logic QF_BV), or the string between quotes |
//! | entity | its name, defined as `(E0 "id")`, or the constructor of a member of an enum type |
//! | decimal, datetime, duration | its name, defined as `(Decimal x)`, `(Datetime x)` or `(Duration x)`, where `x` is `(_ bvN 64)` |
//! | ipaddr | its name, defined as `(V4 x p)` or `(V6 x p)`, where `x` is the address and `p` is `(some y)` of the prefix, or `(as none S)`
//! |
//! | variable | its name, declared as a constant of its sort |
//! | none, some | its name, defined as `(as none S)` or `(some x)` |
//! | record | its name, defined as `(R0 x y)`, or as `R0` where it has no attribute |
//! | set | its name, defined as `(set.insert x y (as set.empty S))`, or as `(as set.empty S)` |
//! | application | its name, defined as `(HEAD x y)` |
//! | attribute of a record | its name, defined as `(R0_ai x)`, by the selector of the record's type |
//! | value inside an option | its name, defined as `(val x)` |
//! | uninterpreted function | its name, declared as a function from the sort of its argument to that of its values |
//! | application of such a function | its name, defined as `(f0 x)`, by the name of the function |
//! | part of a value of an extension type | its name, defined as `(decimalVal x)`, or so by another of these selectors |
//! | datetime or duration of 64 bits | its name, defined as `(Datetime x)` or `(Duration x)` |
//! | test for an ipaddr of version 4 | its name, defined as `((_ is V4) x)` |
//! | match of a pattern | its name, defined as `(str.in_re x r)`, where `r` is the regular expression of the pattern (theory
//! UnicodeStrings) |
//! | overflow test of a negation | its name, defined as the equality with the least number, or `false` in its place |
#![tactic(auto, using(smt_term::specs::View::views))]

mod alone;
mod application;
mod attach;
mod encoder;
mod error;
mod levels;
mod one_name;
mod subject;
mod walk;
mod writer;

pub use encoder::Encoder;
pub use error::EncodeError;
pub use smt_spelling::{NodeNames, SMT_LIB_MAX_CODE_POINT, Steps, laws};
