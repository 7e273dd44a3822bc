//! Tests of the scripts of terms, of the calls of an encoder that write the lines of one name alone, and of the numbers of nodes
//! and of terms, for each row of the tables, which have scripts, answers and lines from outside. The words for terms as they are, types,
//! functions, operators,
//! patterns, texts and enum types are those of `test_words`. The lines of a script over each sink, and sinks that fail, are in
//! `script_lines`.
//!
//! # Scripts
//!
//! A row stands behind a `>`, and below it the script that `Encoder::encode` gives for its terms, byte for byte. Where it
//! refuses, that is what the sink has then, and a line such as `refused: EnumMissingMember Color::"z"`. `Encoder::encode_nodes`
//! is to answer the same for numbers that stand for the terms; where it does not, its answer is printed too. Each encoder is then
//! to answer a call of no terms, and to write nothing more: by Ok, and where it refused by `Spent`; where one does not, this is
//! printed too.
//!
//! A row is words with a space between two. They enter enum types, and leave terms that claim to be Boolean on a stack, of
//! which the first one is asserted first.
//!
//! | Word | What it says |
//! |---|---|
//! | `enum:NAME:MEMBER:MEMBER` | an enum type, with any number of members |
//! | an operator, as `eq` or `record.get=NAME` | the operator at the last terms, which claims the type that its arguments say; of an
//! attribute that the last term does not have, a truth value |
//! | `made:app:ID:TYPE:TYPE`, `made:record_get:NAME`, `made:string_like:PATTERN`, `made:extension:NAME`, `made:and`, `made:eq`,
//! `made:bvslt`, `made:bvlshr`, `made:set_member` | what this call of the factory makes of the last terms |
//!
//! # Calls
//!
//! A row is a call of an encoder that writes the lines of one name, one type, one function, one term or one application alone.
//! It stands behind a `>`, and the rows up to the next `encoder` are calls of one encoder, one after the other; `encoder` has
//! the enum types. Below a row stands its answer: a name, or a line such as
//! `refused: EmptyEnum Void: an enum type has no members`, so that an encoder that is spent shows it at the next row. Behind
//! the rows of an encoder stands all that its sink then has.
//!
//! | Row | The call |
//! |---|---|
//! | `encoder TYPE:MEMBER:MEMBER ..` | a new encoder, over these enum types |
//! | `declare_type:NAME:TEXTS` | `declare_type`, with these constructors |
//! | `declare_entity_type:NAME` | `declare_entity_type` |
//! | `declare_ext_type:NAME` | `declare_ext_type`, of `decimal`, `datetime`, `duration` or `ip` |
//! | `declare_record_type:NAME=SORT,NAME=SORT` | `declare_record_type` |
//! | `declare_var:ID:TYPE:SORT` | `declare_var` |
//! | `define_term:SORT:TEXT` | `define_term` |
//! | `define_set:SORT:TEXTS`, `define_record:SORT:TEXTS` | `define_set`, `define_record` |
//! | `define_entity:SORT:NAME:ID` | `define_entity`, of an entity of the type of this name |
//! | `define_record_get:SORT:NAME:TEXT:TYPE` | `define_record_get` |
//! | `define_app:SORT:OPERATOR:TEXTS TERMS` | `define_app` |
//! | `encode_type:TYPE`, `encode_uuf:FUNCTION`, `encode_term TERMS` | `encode_type`, `encode_uuf`, and `encode_term` of the last term |
//! | `encode TERMS` | `encode`, which is answered by `written` |
//! | `push`, `pop` | `push` and `pop`, which are answered by the level that is then the last one |
//! | `name_of_type:TYPE`, `name_of_uuf:FUNCTION`, `name_of_term TERMS` | the name that the encoder has, or `no name` |
//! | `term_count` | how many terms have names |
//!
//! `TERMS` are words with a space between two, as `test_words` has them, and so are a `TYPE`, a `FUNCTION`, an `OPERATOR` and
//! `TEXTS`, which stand with a comma behind each; names, ids, sorts and texts have the escapes of a text there.
//!
//! # Numbers of nodes
//!
//! Each table stands over an interner of its own. A row is a node's label and the places of its parts, or the words of a term
//! behind the word `term`, or behind `find` where it is to be found alone. Of the terms that the words leave the last one is
//! meant. The number that it gets stands behind ` = `.
//!
//! | Label | What it is |
//! |---|---|
//! | `bits:WIDTH`, `bool`, `string`, `ext:NAME`, `option`, `set`, `record:NAME,NAME` | that of a type |
//! | `fun:ID`, `call` | that of an uninterpreted function, and of its application |
//! | `app:OPERATOR` | that of an application of the operator |
//! | `prim:WORD`, `var:ID` | that of a literal, by its word, and of a variable |
//! | `none`, `some`, `set_of`, `record_of:NAME,NAME` | that of none of an option, of some, of a set and of a record of terms |
#![tactic(auto)]

#[cfg(test)]
mod answers;
#[cfg(test)]
mod call_rows;
#[cfg(test)]
mod call_tables;
#[cfg(test)]
mod calls;
#[cfg(test)]
mod expected;
#[cfg(test)]
mod faults;
#[cfg(test)]
mod hostile;
#[cfg(test)]
mod labels;
#[cfg(test)]
mod levels;
#[cfg(test)]
mod lines;
#[cfg(test)]
mod made;
#[cfg(test)]
mod node_rows;
#[cfg(test)]
mod node_tables;
#[cfg(test)]
mod operators;
#[cfg(test)]
mod rows;
#[cfg(test)]
mod script_lines;
#[cfg(test)]
mod scripts;
#[cfg(test)]
mod tables;
#[cfg(test)]
mod words;
