// The types of terms.
#![tactic(auto, using(crate::specs::TypeView::views), unfolding(crate::specs::TypeView::plain_type))]

ghost use Rattle.std.specs.Prelude.{◌≡◌, is_some, option_map};
ghost use Rattle.std.specs.Rc.{rc_str_bytes};
ghost use Rattle.smt_bits.specs.Width.{bits_in};
ghost use Rattle.law_terms.specs.Plain.{EntityType as EntityTypeOf, OptionType, SetType};
ghost use Rattle.law_terms.specs.Types.{attribute_type, inner_type, is_set, is_type, type_eq};
ghost use Rattle.law_terms.specs.Types.{width_in};
ghost use Rattle.smt_term.specs.Entities.{bytes_of_type};
ghost use Rattle.smt_term.specs.TypeKinds.{is_entity, is_entity_option, is_primitive, is_record};
ghost use Rattle.smt_term.specs.TypeKinds.{tag_type};
ghost use Rattle.smt_term.specs.TypeView.{BuildsType, plain_type};

use crate::type_maps::TypeMap;
use crate::{Attr, EntityType, ExtType, TermError};
use smt_bits::Width;
use smt_text::Text;
use std::alloc::Global;
use std::rc::Rc;

/// The type of a term: a sort of the theories Core, FixedSizeBitVectors and UnicodeStrings, an entity type, an extension
/// type, an option, a record, or a finite set. Types order by the variants and fields as declared.
#[derive(Debug, PartialEq, Eq, PartialOrd, Ord)]
#[cycle(types)]
pub enum TermType {
    /// None, or a value of a type.
    Option { ty: Rc<TermType> },
    /// Bitvectors of a width.
    Bitvec { n: Width },
    /// Truth values.
    Bool,
    /// Entities of a type.
    Entity { ety: EntityType },
    /// Values of an extension type.
    Ext { xty: ExtType },
    /// Texts: lists of the characters from 0 to 196607.
    String,
    /// Records that have for each attribute a value of its type.
    Record { rty: TypeMap },
    /// Finite sets of values of a type.
    Set { ty: Rc<TermType> },
}

// By hand, so that what lets a type go calls this, and has no account of its parts.
impl Drop for TermType {
    #[cycle(types)]
    fn drop(self) {
        match self {
            TermType::Option { ty: _ } | TermType::Set { ty: _ } => {}
            TermType::Bitvec { n: _ } => {}
            TermType::Entity { ety: _ } => {}
            TermType::Ext { xty: _ } => {}
            TermType::Record { rty: _ } => {}
            TermType::Bool | TermType::String => {}
        }
    }
}

impl TermType {
    /// The type of sets of values of this type.
    ///
    /// # Errors
    /// `Memory`, where there is none for the type.
    pub fn set_of(alloc: Global, ty: TermType) -> Result<TermType, TermError>
        ensures { BuildsType result (SetType (plain_type ty)) }
    {
        Ok(TermType::Set {
            ty: Rc::new(alloc, ty)?,
        })
    }

    /// The type of options of values of this type.
    ///
    /// # Errors
    /// `Memory`, where there is none for the type.
    pub fn option_of(alloc: Global, ty: TermType) -> Result<TermType, TermError>
        ensures { BuildsType result (OptionType (plain_type ty)) }
    {
        Ok(TermType::Option {
            ty: Rc::new(alloc, ty)?,
        })
    }

    /// The type of the tags of entities of a type: records of an entity and of the text of its tag.
    ///
    /// # Errors
    /// `Memory`, where there is none for the type.
    pub fn tag_for(alloc: Global, ety: EntityType) -> Result<TermType, TermError>
        ensures { BuildsType result (tag_type (bytes_of_type ety)) }
    {
        let entity = Text::from_str(alloc, "entity")?;
        let tag = Text::from_str(alloc, "tag")?;
        let items = [(entity, TermType::Entity { ety }), (tag, TermType::String)];
        let rty = TypeMap::new(alloc, &items)?;
        Ok(TermType::Record { rty })
    }

    /// Whether it is the type of truth values, bitvectors, texts, entities, or values of an extension type.
    pub fn is_prim_type(&self) -> bool
        ensures { result ≡ is_primitive (plain_type self.now) }
    {
        match self {
            TermType::Bitvec { .. }
            | TermType::Bool
            | TermType::Entity { .. }
            | TermType::Ext { .. }
            | TermType::String => true,
            TermType::Option { .. } | TermType::Record { .. } | TermType::Set { .. } => false,
        }
    }

    /// Whether it is that of entities of a type.
    pub fn is_entity_type(&self) -> bool
        ensures { result ≡ is_entity (plain_type self.now) }
    {
        match self {
            TermType::Entity { .. } => true,
            TermType::Option { .. }
            | TermType::Bitvec { .. }
            | TermType::Bool
            | TermType::Ext { .. }
            | TermType::String
            | TermType::Record { .. }
            | TermType::Set { .. } => false,
        }
    }

    /// Whether it is that of records.
    pub fn is_record_type(&self) -> bool
        ensures { result ≡ is_record (plain_type self.now) }
    {
        match self {
            TermType::Record { .. } => true,
            TermType::Option { .. }
            | TermType::Bitvec { .. }
            | TermType::Bool
            | TermType::Entity { .. }
            | TermType::Ext { .. }
            | TermType::String
            | TermType::Set { .. } => false,
        }
    }

    /// Whether it is that of options.
    pub fn is_option_type(&self) -> bool
        ensures { result ≡ is_some (inner_type (plain_type self.now)) }
    {
        match self {
            TermType::Option { .. } => true,
            TermType::Bitvec { .. }
            | TermType::Bool
            | TermType::Entity { .. }
            | TermType::Ext { .. }
            | TermType::String
            | TermType::Record { .. }
            | TermType::Set { .. } => false,
        }
    }

    /// Whether it is that of options of entities.
    pub fn is_option_entity_type(&self) -> bool
        ensures { result ≡ is_entity_option (plain_type self.now) }
    {
        match self {
            TermType::Option { ty } => ty.is_entity_type(),
            TermType::Bitvec { .. }
            | TermType::Bool
            | TermType::Entity { .. }
            | TermType::Ext { .. }
            | TermType::String
            | TermType::Record { .. }
            | TermType::Set { .. } => false,
        }
    }

    /// An equal type that shares its parts.
    ///
    /// # Errors
    /// `Memory`, where there is none for the type.
    pub fn share(&self) -> Result<TermType, TermError>
        ensures { BuildsType result (plain_type self.now) }
    {
        match self {
            TermType::Option { ty } => Ok(TermType::Option { ty: ty.clone()? }),
            TermType::Bitvec { n } => Ok(TermType::Bitvec { n: *n }),
            TermType::Bool => Ok(TermType::Bool),
            TermType::Entity { ety } => Ok(TermType::Entity { ety: ety.share()? }),
            TermType::Ext { xty } => Ok(TermType::Ext { xty: *xty }),
            TermType::String => Ok(TermType::String),
            TermType::Record { rty } => Ok(TermType::Record { rty: rty.share()? }),
            TermType::Set { ty } => Ok(TermType::Set { ty: ty.clone()? }),
        }
    }

    /// Whether the other type is the same.
    pub fn is_same_as(&self, other: &TermType) -> bool
        ensures same { result ≡ type_eq (plain_type self.now) (plain_type other.now) }
        ensures turned { result ≡ type_eq (plain_type other.now) (plain_type self.now) }
    {
        *self == *other
    }

    /// Whether it is that of entities of this entity type.
    pub fn is_of_entities(&self, ety: &EntityType) -> bool
        ensures same { result
            ≡ type_eq (EntityTypeOf (bytes_of_type ety.now)) (plain_type self.now) }
        ensures turned { result
            ≡ type_eq (plain_type self.now) (EntityTypeOf (bytes_of_type ety.now)) }
    {
        match self {
            TermType::Entity { ety: own } => *ety == *own,
            TermType::Option { .. }
            | TermType::Bitvec { .. }
            | TermType::Bool
            | TermType::Ext { .. }
            | TermType::String
            | TermType::Record { .. }
            | TermType::Set { .. } => false,
        }
    }

    /// How many bits its values have, or `None` where they are no bitvectors.
    pub fn width(&self) -> Option<Width>
        ensures { option_map bits_in result ≡ width_in (plain_type self.now) }
    {
        match self {
            TermType::Bitvec { n } => Some(*n),
            TermType::Option { .. }
            | TermType::Bool
            | TermType::Entity { .. }
            | TermType::Ext { .. }
            | TermType::String
            | TermType::Record { .. }
            | TermType::Set { .. } => { None }
        }
    }

    /// Whether it is that of sets.
    pub fn is_set(&self) -> bool
        ensures { result ≡ is_set (plain_type self.now) }
    {
        match self {
            TermType::Set { .. } => true,
            TermType::Option { .. }
            | TermType::Bitvec { .. }
            | TermType::Bool
            | TermType::Entity { .. }
            | TermType::Ext { .. }
            | TermType::String
            | TermType::Record { .. } => false,
        }
    }

    /// Whether it is that of options of values of the inner type.
    pub fn is_option_of(&self, inner: &TermType) -> bool
        ensures { result ≡ is_type (inner_type (plain_type self.now)) (plain_type inner.now) }
    {
        match self {
            TermType::Option { ty } => ty.is_same_as(inner),
            TermType::Bitvec { .. }
            | TermType::Bool
            | TermType::Entity { .. }
            | TermType::Ext { .. }
            | TermType::String
            | TermType::Record { .. }
            | TermType::Set { .. } => { false }
        }
    }

    /// Whether it is that of records that have this attribute.
    pub fn has_attribute(&self, name: &Attr) -> bool
        ensures { result ≡ is_some (attribute_type (rc_str_bytes name.now) (plain_type self.now)) }
    {
        match self {
            TermType::Record { rty } => rty.get(name).is_some(),
            TermType::Option { .. }
            | TermType::Bitvec { .. }
            | TermType::Bool
            | TermType::Entity { .. }
            | TermType::Ext { .. }
            | TermType::String
            | TermType::Set { .. } => false,
        }
    }

    /// Whether it is that of records that have this attribute, with a value of this type.
    pub fn has_attribute_of(&self, name: &Attr, ty: &TermType) -> bool
        ensures { result
            ≡ is_type (attribute_type (rc_str_bytes name.now) (plain_type self.now))
            (plain_type ty.now) }
    {
        match self {
            TermType::Record { rty } => match rty.get(name) {
                Some(own) => own.is_same_as(ty),
                None => false,
            },
            TermType::Option { .. }
            | TermType::Bitvec { .. }
            | TermType::Bool
            | TermType::Entity { .. }
            | TermType::Ext { .. }
            | TermType::String
            | TermType::Set { .. } => false,
        }
    }

    /// Whether the other type is that of options of values of this one.
    pub fn is_inside(&self, option: &TermType) -> bool
        ensures same { result ≡ type_eq (OptionType (plain_type self.now)) (plain_type option.now) }
        ensures turned { result
            ≡ type_eq (plain_type option.now) (OptionType (plain_type self.now)) }
    {
        match option {
            TermType::Option { ty } => self.is_same_as(ty),
            TermType::Bitvec { .. }
            | TermType::Bool
            | TermType::Entity { .. }
            | TermType::Ext { .. }
            | TermType::String
            | TermType::Record { .. }
            | TermType::Set { .. } => { false }
        }
    }

    /// Whether the other type is that of sets of values of this one.
    pub fn is_element_in(&self, set: &TermType) -> bool
        ensures same { result ≡ type_eq (SetType (plain_type self.now)) (plain_type set.now) }
        ensures turned { result ≡ type_eq (plain_type set.now) (SetType (plain_type self.now)) }
    {
        match set {
            TermType::Set { ty } => self.is_same_as(ty),
            TermType::Option { .. }
            | TermType::Bitvec { .. }
            | TermType::Bool
            | TermType::Entity { .. }
            | TermType::Ext { .. }
            | TermType::String
            | TermType::Record { .. } => false,
        }
    }
}
