//! The folding factory: what a call that builds a term for an operator gives, where it folds constants.
//!
//! A call does not always build the application that it is asked for: `and(b, not b)` is `false`. What it gives is said by a
//! function of plain terms (the files of `law_folding` whose names begin with `Fold`), and that the result may take the
//! application's place by one word, `Refines`. A call that is made of other calls is defined once (`Composites`), over who
//! builds: `folding` gives the term, `applied` the application.
//!
//! The calls for operators come from `smt_factory_core` and are passed on. Here stand the functions on values of the extension types:
//! comparisons of decimals, families and containment of
//! IP ranges, and the arithmetic of datetimes and durations. Read `ExtensionFunctions` of `law_extensions` first, which says
//! what each is built of.
#![tactic(auto)]

mod containment;
mod decimals;
mod ranges;
mod rule;
mod times;

pub use containment::{in_range, in_range_lit, in_range_v, is_in_range, is_loopback, is_multicast};
pub use decimals::{greater_than, greater_than_or_equal, less_than, less_than_or_equal};
pub use ranges::{ip_term, is_ipv4, is_ipv6, range_v4, range_v6, subnet_width};
pub use rule::RangeRule;
pub use smt_factory_core::{
    BvRule, and, any_none, any_true, app, bvadd, bvapp, bvapp_by, bvlshr, bvmul, bvneg, bvnego,
    bvsaddo, bvsdiv, bvshl, bvsle, bvslt, bvsmod, bvsmulo, bvso, bvsrem, bvssubo, bvsub, bvudiv,
    bvule, bvult, bvurem, eq, ext_datetime_of_bitvec, ext_datetime_val, ext_decimal_val,
    ext_duration_of_bitvec, ext_duration_val, ext_ipaddr_addr_v4, ext_ipaddr_addr_v6,
    ext_ipaddr_is_v4, ext_ipaddr_prefix_v4, ext_ipaddr_prefix_v6, extension, if_all_some, if_false,
    if_some, if_true, implies, is_none, is_some, ite, laws, none_of, not, opposites, option_get,
    or, record_get, record_of, set_inter, set_intersects, set_is_empty, set_member, set_of,
    set_subset, some_of, string_like, tag_of, zero_extend,
};
pub use times::{
    duration_since, offset, to_date, to_days, to_hours, to_milliseconds, to_minutes, to_seconds,
    to_time,
};
