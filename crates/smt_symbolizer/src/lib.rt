//! The step from a schema, a request and a store of entities to a symbolic environment: terms for the request, and for each
//! entity type functions whose tables have what is stored of the type's entities, or what the schema says of its actions.
//!
//! Read `environment.rt` first, which has the step, and then `entity_data.rt` and `entities.rt`, which have the functions. The
//! crate passes on Cedar's types, values and stores, and the terms of values, so that its user names one crate.
//!
//! Contracts speak of symbolic environments by their plain forms, which `specs/View.antt` and `specs/EntityView.antt` give. The
//! symbolic environment of a schema, a request and a store, or the first fault, is defined in `specs/Symbolized.antt` and
//! `specs/Tables.antt` of the crate `law_cedar`.
#![tactic(auto, using(smt_values::specs::TypeView::cedar_views, smt_values::specs::ValueView::value_views, smt_term::specs::View::views))]

mod by_type;
mod entities;
mod entity_data;
mod entries;
mod environment;
mod names;
mod request;
mod schema_types;
mod tables;
mod values;

pub use by_type::ByType;
pub use entity_data::{AncestorMap, SymEntities, SymEntityData, SymTags};
pub use environment::{SymEnv, SymRequest};
pub use names::{core_entity_type_into_entity_type, core_uid_into_uid};
pub use schema_types::listed;
pub use smt_values::{
    ActionEntry, ActionList, AttributeType, Attributes, BoolType, CedarType, CompileError,
    Entities, Entity, EntityEntry, EntityKind, EntityTypeList, EntryMap, Env, ExprList, ExtError,
    ExtFromCedar, FromCedar, Literal, OfType, OpenTag, PartialMap, PartialValue, Request,
    RequestEnv, RestrictedExpr, Schema, SymbolizeError, UidList, Value, ValueList, ValueMap,
    default_literal, from_record, of_record_type, value_of_ext,
};
