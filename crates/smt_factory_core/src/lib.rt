//! The calls of the folding factory: for the connectives, equality and choice of the theory Core, for bitvectors, and for
//! options, records, strings, sets, functions of one argument and the operators of the extension types; and the applications,
//! as they are asked for, of which every call is made, with what foldings look for in a term.
//!
//! What a call gives is said by a function of plain terms, which the files of `law_folding` have whose names begin with `Fold`:
//! `FoldBits`, `FoldConnectives`, `FoldEquality`, `FoldOptions`, `FoldRecords`, `FoldStrings`, `FoldSets`, `FoldFunctions` and
//! `FoldExtensions`. Read these first. `specs/FoldBy.antt` and `specs/AnyOf.antt` say it of a call that is handed in,
//! `specs/Results.antt` has the words of the calls' contracts, and `specs/Given.antt` what an operator of the extension types
//! gives at a literal.
//!
//! Operators of two bitvectors stand in three classes: from bits to bits, comparisons, and tests whether a signed result leaves
//! its range. Each class has one call that takes the operator and the call that answers its values at two literals (`bvapp`,
//! `test` and `bvso`), and each operator is a line over that of its class.
#![tactic(auto)]

mod any;
mod applications;
mod bit_literals;
mod bits;
mod choice;
mod comparisons;
mod connectives;
mod equality;
mod extensions;
mod functions;
mod guarded;
mod inside;
pub mod laws;
mod literals;
mod options;
mod overflows;
mod pairs;
mod parts;
mod presence;
mod records;
mod rule;
mod sets;
mod strings;

pub use any::any_true;
pub use applications::{
    binary_application, binary_test, ternary_application, unary_application, unary_test,
};
pub use bits::{
    bvadd, bvapp, bvlshr, bvmul, bvneg, bvsdiv, bvshl, bvsmod, bvsrem, bvsub, bvudiv, bvurem,
    zero_extend,
};
pub use choice::ite;
pub use comparisons::{bvsle, bvslt, bvule, bvult};
pub use connectives::{and, implies, not, opposites, or};
pub use equality::eq;
pub use extensions::{
    ext_datetime_of_bitvec, ext_datetime_val, ext_decimal_val, ext_duration_of_bitvec,
    ext_duration_val, ext_ipaddr_addr_v4, ext_ipaddr_addr_v6, ext_ipaddr_is_v4,
    ext_ipaddr_prefix_v4, ext_ipaddr_prefix_v6, extension,
};
pub use functions::app;
pub use guarded::{if_all_some, if_false, if_some, if_true};
pub use inside::option_get;
pub use options::{held, is_none_term, none_of, some_of};
pub use overflows::{bvnego, bvsaddo, bvsmulo, bvso, bvssubo};
pub use parts::{are_equal, is_truth_value, only_one};
pub use presence::{any_none, is_none, is_some};
pub use records::{record_get, record_of, tag_of};
pub use rule::{BvRule, bvapp_by};
pub use sets::{set_inter, set_intersects, set_is_empty, set_member, set_of, set_subset};
pub use strings::string_like;
