//! Tests of what stands without scripts: bitvectors, values of the extension types, entities, patterns, tables of enum types,
//! texts between quotes and S-expressions; what the factory's calls give, and what terms, types and operators answer. They stand
//! outside the crates that they call: a crate with tests is proved twice, with them and without, and here they are proved alone.
//! The words for terms, and how names, ids, texts, types and operators are spelled, are those of `test_words`.
//!
//! # Values
//!
//! The calls on bitvectors and on extension values are tested for each row of the tables, which have answers from outside. A
//! row is a call's name and its operands, and its answer stands behind ` = `.
//!
//! # Terms
//!
//! A row stands before ` =`, and its answer behind it, up to the next line with ` =`. A row is words with a space between two.
//! A word leaves a term on a stack, or asks about what is there. Of a row that asks nothing the terms that it leaves are
//! printed, so that no two terms are printed alike.
//!
//! These words call the factory, which folds:
//!
//! | Word | What it calls |
//! |---|---|
//! | `not`, `or`, `implies`, `eq`, `ite`, `some_of`, `option_get`, `is_none`, `is_some`, `if_true`, `if_false`, `if_some`, `set_member`,
//! `set_subset`, `set_inter`, `set_intersects`, `set_is_empty`, `tag_of` | the call of this name, at the last terms in order |
//! | `ext_decimal_val`, `ext_datetime_val`, `ext_duration_val`, `ext_ipaddr_is_v4`, `ext_ipaddr_addr_v4`, `ext_ipaddr_addr_v6`,
//! `ext_ipaddr_prefix_v4`, `ext_ipaddr_prefix_v6`, `ext_datetime_of_bitvec`, `ext_duration_of_bitvec` | the call of this name, at the last
//! term |
//! | `none_of:TYPE`, `set_of:COUNT:TYPE`, `record_of:NAME,NAME`, `record_get:NAME`, `string_like:PATTERN` | the call of this name, at the
//! last terms too |
//! | `any_none:COUNT`, `if_all_some:COUNT` | the call of this name at so many last terms, of `if_all_some` those before the last one |
//! | `any_negated:COUNT` | `any_true` of `not`, at so many last terms |
//! | `bvapp_by`, `bvapp`, `bvso` | the sum by the rule of `BitVec::add`, the difference by `BitVec::sub`, and the overflow test of the sum
//! by a call that always answers none |
//! | `app_of:ID:TYPE:TYPE` | `app` of an uninterpreted function at the last term, by its id, the type of its argument and that of its
//! values |
//! | `app_of_table:COUNT:TYPE:TYPE` | `app` of a function that a table defines: before the last term so many keys, each with its value
//! behind it, and before these what the function gives elsewhere |
//!
//! These words call the functions on values of the extension types, which fold too:
//!
//! | Word | What it calls |
//! |---|---|
//! | `less_than`, `less_than_or_equal`, `greater_than`, `greater_than_or_equal`, `to_milliseconds`, `to_seconds`, `to_minutes`, `to_hours`,
//! `to_days`, `to_date`, `to_time`, `offset`, `duration_since`, `is_ipv4`, `is_ipv6`, `is_loopback`, `is_multicast` | the call of this
//! name, at the last terms in order |
//! | `range_v4`, `range_v6` | the call of this name, which leaves the lowest and the highest address of the last term |
//! | `in_range_v4` | `in_range` by `range_v4`, at the last two terms |
//! | `subnet_width_v4`, `subnet_width_v6` | `subnet_width` of the last term, a prefix of 5 and of 7 bits |
//! | `in_groups:COUNT` | `in_range_v` of the term before so many last terms, at these, by the rule of `is_multicast` and of the address of
//! version 4, which is both the lowest and the highest |
//! | `is_in_range:COUNT` | `is_in_range` of the term before so many last terms, at these |
//! | `in_range_lit:RANGE,RANGE` | `in_range_lit` of the last term, at these two ranges |
//!
//! These words ask. What they ask about stays on the stack:
//!
//! | Word | What it asks |
//! |---|---|
//! | `type_of`, `is_literal`, `well_typed`, `has_type:TYPE` | this, of the last term |
//! | `type_of_literal`, `has_types` | the type of the literal that the last term is, and those of thirteen types that the last term has |
//! | `shared` | whether the last term and its parts are equal to what they share |
//! | `size` | how many arguments, attributes or elements the last term has, and whether it has none |
//! | `at:NAME,NAME` | what the last term, which is a record, has at these attributes |
//! | `print` | the text that the last term prints |
//! | `compare`, `same`, `opposites` | the order of the last two terms, whether they are equal, and whether they are opposites |
//! | `takes:OPERATOR:COUNT`, `typed_as:OPERATOR:COUNT` | whether the operator takes so many last terms, and as which of thirteen types its
//! application is well typed; `but:` stands before a type where the answers of the application contradict one another |
//! | `table:COUNT` | the table of so many keys, each with its value behind it: its entries, how many they are, whether there are none,
//! whether it is equal to what it shares, and what it has at each term before them |
//! | `type:TYPE`, `tag_for:NAME` | this type, and that of the tags of entities of this type |
//! | `kinds:TYPE` | whether it is primitive, one of entities, of records, of options, and of options of entities |
//! | `shared_type:TYPE` | whether the type is equal to what it shares |
//! | `size_of_type:TYPE`, `type_at:NAME,NAME:TYPE` | of a record type how many attributes it has, whether none, and whether these are equal
//! to what they share; its types at these attributes |
//! | `operator:OPERATOR` | the name of the operator, and whether it is equal to what it shares |
//! | `compare_types:TYPE:TYPE`, `compare_operators:OPERATOR:OPERATOR` | the order of the two |
#![tactic(auto)]

#[cfg(test)]
mod asked;
#[cfg(test)]
mod asked_types;
#[cfg(test)]
mod bit_calls;
#[cfg(test)]
mod bitvectors;
#[cfg(test)]
mod data;
#[cfg(test)]
mod expected;
#[cfg(test)]
mod extension_calls;
#[cfg(test)]
mod extensions;
#[cfg(test)]
mod folded;
#[cfg(test)]
mod functions;
#[cfg(test)]
mod rows;
#[cfg(test)]
mod tables;
#[cfg(test)]
mod texts;
#[cfg(test)]
mod value_rows;
