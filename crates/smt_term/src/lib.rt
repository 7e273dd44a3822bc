//! Typed terms of policies: their types, operators, literals, lists, sets and records, uninterpreted functions, functions of one
//! argument that a table of terms defines, and how terms and literals are printed; what terms are made of that holds no term,
//! as entities, tables of enum types, sets of texts, patterns, extension types and the operators on their values; and the one
//! refusal of the calls that make terms.
//!
//! Contracts speak of types and terms by their plain form (`Plain` of `law_terms`), which says what a value says and not where
//! it lies in memory. Read `specs/TypeView.antt` and `specs/View.antt` first: `plain_type`, `plain_term` and their kin give it.
//! Entities and sets are said by their texts (`Entities`, `TextSets`, `Enums`), patterns by their parts (`PatternView`),
//! extension types and operators by their plain form (`ExtensionView`), and pairs by the list of them (`Pairs`). Tables are said
//! by the pairs of plain terms that they hold (`plain_entries` of `Tables`), and functions by `plain_definition` and
//! `plain_unary` of `Functions`. The kinds for which types are tested are in `TypeKinds`.
//!
//! What a plain term means stands beside the plain form, in `law_terms`: its type in `Types`, its value in `Meaning`, what it
//! reaches in `Reached`, its interpretations in `Interpretations`, and what a function means in `Functions`.
#![tactic(auto)]

mod entity;
mod enums;
mod error;
mod extension;
mod function;
pub mod laws;
mod maps;
mod op;
mod pairs;
mod pattern;
mod printed;
mod table;
mod term;
mod texts;
pub mod type_laws;
mod type_maps;
mod types;
mod typing;
mod unary_function;

pub use entity::{EntityID, EntityType, EntityUID};
pub use enums::EnumTable;
pub use error::TermError;
pub use extension::{ExtOp, ExtType};
pub use function::Uuf;
pub use maps::TermMap;
pub use op::Op;
pub use pairs::{Attr, AttributePairs};
pub use pattern::{OrdPattern, Pattern, PatternElem};
pub use smt_ext::Ext;
pub use smt_text::Text;
pub use table::TermTable;
pub use term::{Term, TermList, TermPrim, TermSet, TermVar};
pub use texts::TextSet;
pub use type_maps::TypeMap;
pub use types::TermType;
pub use unary_function::{Udf, UnaryFunction};
