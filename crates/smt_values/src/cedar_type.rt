// The types of Cedar.
#![tactic(auto, using(crate::specs::TypeView::cedar_views, smt_term::specs::View::views))]

ghost use Rattle.std.specs.Prelude.{◌≡◌, IfOk};
ghost use Rattle.smt_values.specs.TypeView.{plain_cedar, plain_entity, set_with};

use crate::attributes::Attributes;
use crate::entity_types::EntityTypeList;
use smt_term::{TermError, Text};
use smt_text::share_text;
use std::rc::Rc;

/// Which truth values a Cedar type has.
#[derive(Clone, Copy, Debug, PartialEq, Eq)]
pub enum BoolType {
    /// Both.
    AnyBool,
    /// `true` alone.
    True,
    /// `false` alone.
    False,
}

/// Whether records of a type may have more attributes than it names.
#[derive(Clone, Copy, Debug, PartialEq, Eq)]
pub enum OpenTag {
    /// They may.
    OpenAttributes,
    /// They may not.
    ClosedAttributes,
}

/// Which entities a Cedar type has.
#[derive(Debug, PartialEq, Eq, Drop)]
pub enum EntityKind {
    /// All.
    AnyEntity,
    /// Those of the types of a list.
    Entity(EntityTypeList),
}

/// A type of Cedar values.
#[derive(Debug, PartialEq, Eq)]
#[cycle(types)]
pub enum CedarType {
    /// No values.
    Never,
    /// Truth values.
    Bool(BoolType),
    /// Signed integers of 64 bits.
    Long,
    /// Texts.
    String,
    /// Finite sets of values of a type; the empty set alone, where there is no type.
    Set {
        /// The type of the elements.
        element_type: Option<Rc<CedarType>>,
    },
    /// Records that have values of these attributes, and of others too where their type is open.
    Record {
        /// The attributes that the type names.
        attrs: Attributes,
        /// Whether a record may have others.
        open_attributes: OpenTag,
    },
    /// Entities.
    Entity(EntityKind),
    /// Values of an extension type.
    ExtensionType {
        /// The whole name of the type, with the namespaces that it stands in.
        name: Text,
    },
}

// By hand, so that what lets a type go calls this, and has no account of its parts.
impl Drop for CedarType {
    #[cycle(types)]
    fn drop(self) {
        match self {
            CedarType::Never | CedarType::Long | CedarType::String => {}
            CedarType::Bool(_) => {}
            CedarType::Set { element_type: _ } => {}
            CedarType::Record {
                attrs: _,
                open_attributes: _,
            } => {}
            CedarType::Entity(_) => {}
            CedarType::ExtensionType { name: _ } => {}
        }
    }
}

impl EntityKind {
    /// The same entities, by names that are shared.
    ///
    /// # Errors
    /// `Memory`, where there is none for the list of types.
    pub fn share(&self) -> Result<EntityKind, TermError>
        ensures { IfOk result (λ shared. plain_entity shared ≡ plain_entity self.now) }
    {
        match self {
            EntityKind::AnyEntity => Ok(EntityKind::AnyEntity),
            EntityKind::Entity(types) => Ok(EntityKind::Entity(types.share()?)),
        }
    }
}

impl CedarType {
    /// An equal type, whose texts and types of elements are shared.
    ///
    /// # Errors
    /// `Memory`, where there is none for the type.
    #[cycle(share)]
    #[tactic(auto, using(crate::proofs::TypePairs::record_shared))]
    pub fn share(&self) -> Result<CedarType, TermError>
        ensures { IfOk result (λ shared. plain_cedar shared ≡ plain_cedar self.now) }
    {
        match self {
            CedarType::Never => Ok(CedarType::Never),
            CedarType::Bool(kind) => Ok(CedarType::Bool(*kind)),
            CedarType::Long => Ok(CedarType::Long),
            CedarType::String => Ok(CedarType::String),
            CedarType::Set { element_type } => Ok(CedarType::Set {
                element_type: shared_element(element_type)?,
            }),
            CedarType::Record {
                attrs,
                open_attributes,
            } => Ok(CedarType::Record {
                attrs: attrs.share()?,
                open_attributes: *open_attributes,
            }),
            CedarType::Entity(kind) => Ok(CedarType::Entity(kind.share()?)),
            CedarType::ExtensionType { name } => Ok(CedarType::ExtensionType {
                name: share_text(name)?,
            }),
        }
    }
}

// The same type of elements, shared.
fn shared_element(element: &Option<Rc<CedarType>>) -> Result<Option<Rc<CedarType>>, TermError>
    ensures { IfOk result (λ shared. set_with shared ≡ set_with element.now) }
{
    match element {
        Some(ty) => Ok(Some(ty.clone()?)),
        None => Ok(None),
    }
}
