// The types of terms that stand for Cedar types.
#![tactic(auto, using(crate::specs::TypeView::cedar_views, smt_term::specs::View::views))]

ghost use Rattle.std.specs.Prelude.{◌≡◌, IfErr, IfOk, Ok, map, option_map};
ghost use Rattle.std.specs.Rc.{rc_str_bytes};
ghost use Rattle.smt_term.specs.Entities.{bytes_of_type};
ghost use Rattle.smt_term.specs.Pairs.{attributes_in};
ghost use Rattle.smt_term.specs.ExtensionView.{plain_kind};
ghost use Rattle.smt_term.specs.View.{plain_type};
ghost use Rattle.smt_values.specs.RefusedTypes.{IsGiven, IsRefusal};
ghost use Rattle.smt_values.specs.TypeOfCedar as stated;
ghost use Rattle.smt_values.specs.TypeOfCedar.{type_of_cedar};
ghost use Rattle.smt_values.specs.TypeView.{pairs_held, plain_bool, plain_cedar};
ghost use Rattle.smt_values.specs.TypeView.{plain_cedar_attributes, plain_entity, record_with};
ghost use Rattle.smt_values.specs.TypeView.{set_with, types_held, types_in_order};

use crate::attributes::{AttributeType, Attributes};
use crate::cedar_type::{BoolType, CedarType, EntityKind, OpenTag};
use crate::compile_error::{CompileError, unsupported, unsupported_extension};
use smt_bits::SIXTY_FOUR;
use smt_term::{Attr, EntityType, ExtType, TermType, Text, TypeMap};
use smt_text::share_text;
use std::alloc::Global;
use std::rc::Rc;

/// A type of terms that stands for a Cedar type.
pub trait OfType {
    /// The type of the terms that stand for values of a Cedar type.
    ///
    /// # Errors
    /// `UnsupportedFeature` exactly where the type, or a type in it, is not supported, with the reason of the first such type
    /// from the left; `Memory`, where there is none for the type.
    fn of_type(alloc: Global, ty: &CedarType) -> Result<TermType, CompileError>
        ensures typed { IfOk result (λ t. type_of_cedar (plain_cedar ty.now) ≡ Ok (plain_type t)) }
        ensures refused { IfErr result (λ e. IsRefusal e (type_of_cedar (plain_cedar ty.now))) };
}

impl OfType for TermType {
    fn of_type(alloc: Global, ty: &CedarType) -> Result<TermType, CompileError> {
        type_of(alloc, ty)
    }
}

/// What follows the last `::` of a name; the whole name, where it has none.
fn last_name(name: &str) -> &str
    ensures { result.now ≡ stated.last_name name.now }
{
    match name.rsplit_once("::") {
        Some((_, last)) => last,
        None => name,
    }
}

/// The extension type of a name.
fn extension_named(name: &str) -> Option<ExtType>
    ensures { option_map plain_kind result ≡ stated.extension_named name.now }
{
    match name {
        "ipaddr" => Some(ExtType::IpAddr),
        "decimal" => Some(ExtType::Decimal),
        "datetime" => Some(ExtType::DateTime),
        "duration" => Some(ExtType::Duration),
        _ => None,
    }
}

/// The type of terms of an extension type.
fn extension_type(alloc: Global, name: &Text) -> Result<TermType, CompileError>
    ensures { IsGiven plain_type result (stated.type_of_extension (rc_str_bytes name.now)) }
{
    let last = last_name(name.as_str());
    match extension_named(last) {
        Some(xty) => Ok(TermType::Ext { xty }),
        None => Err(unsupported_extension(alloc, last)),
    }
}

/// The type of terms of entities that are of one of these types.
fn entity_type(alloc: Global, types: &[EntityType]) -> Result<TermType, CompileError>
    ensures { IsGiven plain_type result (stated.type_of_entities (map bytes_of_type types.now)) }
{
    match types {
        [sole] => Ok(TermType::Entity { ety: sole.share()? }),
        _ => Err(unsupported(alloc, "EntityLUB has multiple elements")),
    }
}

/// The type of terms of truth values.
fn bool_type(alloc: Global, kind: BoolType) -> Result<TermType, CompileError>
    ensures { IsGiven plain_type result (type_of_cedar (plain_bool kind)) }
{
    match kind {
        BoolType::AnyBool => Ok(TermType::Bool),
        BoolType::True | BoolType::False => Err(unsupported(
            alloc,
            "singleton Bool type is not supported",
        )),
    }
}

/// The type of terms of entities.
fn entities_type(alloc: Global, kind: &EntityKind) -> Result<TermType, CompileError>
    ensures { IsGiven plain_type result (type_of_cedar (plain_entity kind.now)) }
{
    match kind {
        EntityKind::AnyEntity => Err(unsupported(alloc, "AnyEntity is not supported")),
        EntityKind::Entity(types) => entity_type(alloc, types.items()),
    }
}

/// The type of terms of an attribute: an option, where records need not have it.
#[cycle(of_type)]
fn attribute_type(alloc: Global, ty: &AttributeType) -> Result<TermType, CompileError>
    ensures { IsGiven plain_type result
        (stated.type_held ty.now.is_required (type_of_cedar (plain_cedar ty.now.attr_type))) }
{
    let inner = type_of(alloc, &ty.attr_type)?;
    if ty.is_required {
        Ok(inner)
    } else {
        Ok(TermType::option_of(alloc, inner)?)
    }
}

/// The attributes and their types of terms, in the order in which they stand.
#[cycle(of_type)]
fn attribute_types(alloc: Global, attrs: &Attributes) -> Result<Vec<(Attr, TermType)>, CompileError>
    ensures typed { IsGiven (λ pairs. types_in_order pairs.items) result
        (stated.types_of_attributes (plain_cedar_attributes attrs.now)) }
    ensures named { IfOk result
        (λ pairs. attributes_in pairs.items ≡ attributes_in (pairs_held attrs.now)) }
{
    let items = attrs.items();
    let mut pairs: Vec<(Attr, TermType)> = Vec::new(alloc);
    for (name, ty) in items {
        let ty = attribute_type(alloc, ty)?;
        pairs.push((share_text(name)?, ty))?;
    }
    Ok(pairs)
}

/// The types of terms of the attributes of a record type.
///
/// # Errors
/// `UnsupportedFeature` exactly where a type is not supported, with the reason of the first such type; `Memory`, where
/// there is none for the types.
#[cycle(of_type)]
pub fn of_record_type(alloc: Global, attrs: &Attributes) -> Result<TypeMap, CompileError>
    ensures { IsGiven types_held result
        (stated.types_of_attributes (plain_cedar_attributes attrs.now)) }
{
    let pairs = attribute_types(alloc, attrs)?;
    Ok(TypeMap::of_ascending(alloc, pairs)?)
}

/// The type of terms of records.
#[cycle(of_type)]
fn record_type(
    alloc: Global,
    attrs: &Attributes,
    open_attributes: OpenTag,
) -> Result<TermType, CompileError>
    ensures { IsGiven plain_type result
        (type_of_cedar (record_with open_attributes (plain_cedar_attributes attrs.now))) }
{
    match open_attributes {
        OpenTag::OpenAttributes => Err(unsupported(alloc, "unsupported open attributes")),
        OpenTag::ClosedAttributes => Ok(TermType::Record {
            rty: of_record_type(alloc, attrs)?,
        }),
    }
}

/// The type of terms of sets.
#[cycle(of_type)]
fn set_type(alloc: Global, element: &Option<Rc<CedarType>>) -> Result<TermType, CompileError>
    ensures { IsGiven plain_type result (type_of_cedar (set_with element.now)) }
{
    match element {
        Some(element) => Ok(TermType::set_of(alloc, type_of(alloc, element)?)?),
        None => Err(unsupported(alloc, "empty set type is unsupported")),
    }
}

/// The type of terms of a Cedar type.
#[cycle(of_type)]
fn type_of(alloc: Global, ty: &CedarType) -> Result<TermType, CompileError>
    ensures { IsGiven plain_type result (type_of_cedar (plain_cedar ty.now)) }
{
    match ty {
        CedarType::Never => Err(unsupported(alloc, "never type is not supported")),
        CedarType::Bool(kind) => bool_type(alloc, *kind),
        CedarType::Long => Ok(TermType::Bitvec { n: SIXTY_FOUR }),
        CedarType::String => Ok(TermType::String),
        CedarType::Set { element_type } => set_type(alloc, element_type),
        CedarType::Record {
            attrs,
            open_attributes,
        } => record_type(alloc, attrs, *open_attributes),
        CedarType::Entity(kind) => entities_type(alloc, kind),
        CedarType::ExtensionType { name } => extension_type(alloc, name),
    }
}
