//! Cedar's types and values, the types of terms that stand for Cedar's types, and the steps between Cedar's values, the values
//! of its extension types and the terms that stand for them; schemas, requests and stores of entities; and the default term of
//! each type.
//!
//! Read `cedar_type.rt`, `expression.rt` and `value.rt` first, which declare types and values, then `of_type.rt`, `reading.rt`
//! and `constructed.rt`, which have the steps, then `schema.rt`, `request.rt` and `store.rt`, and then `from_cedar.rt` and
//! `defaults.rt`.
//!
//! Contracts speak of all of these by their plain forms, which say what they say and not where they lie in memory: `Cedar`,
//! `PlainValues` and `Plain` of `specs/` define these, and `TypeView`, `ValueView` and `View` give them. Which type of terms
//! stands for a Cedar type, or why none does, is defined in `TypeOfCedar`; which calls say which extension values in
//! `Constructors`; which call is made of a value in `Constructed`; the term that stands for a value at a Cedar type, or the first
//! fault, in `TermOfValue`; what an error says of that fault in `Refused`; the defaults in `DefaultTerm`; and what a store is
//! after an entity was put into it, which action a uid names, and which request environments are a schema's in `Stores`.
#![tactic(auto)]

mod actions;
mod attribute_map;
mod attributes;
mod cedar_type;
mod compile_error;
mod constructed;
mod defaults;
mod entity;
mod entity_types;
mod entries;
mod entry_map;
mod error;
mod expression;
mod ext_error;
mod from_cedar;
pub mod laws;
mod literal;
mod of_type;
mod placing;
mod reading;
mod request;
mod schema;
mod store;
pub mod type_laws;
mod uids;
mod value;

pub use actions::{ActionEntry, ActionList};
pub use attribute_map::AttributeMap;
pub use attributes::{AttributeType, Attributes};
pub use cedar_type::{BoolType, CedarType, EntityKind, OpenTag};
pub use compile_error::CompileError;
pub use constructed::value_of_ext;
pub use defaults::default_literal;
pub use entity::Entity;
pub use entity_types::EntityTypeList;
pub use entries::EntityEntry;
pub use entry_map::EntryMap;
pub use error::SymbolizeError;
pub use expression::{ExprList, RestrictedExpr};
pub use ext_error::ExtError;
pub use from_cedar::{FromCedar, from_record};
pub use literal::Literal;
pub use of_type::{OfType, of_record_type};
pub use placing::put;
pub use reading::ExtFromCedar;
pub use request::{Env, Request, RequestEnv};
pub use schema::Schema;
pub use store::Entities;
pub use uids::UidList;
pub use value::{PartialMap, PartialValue, Value, ValueList, ValueMap};
