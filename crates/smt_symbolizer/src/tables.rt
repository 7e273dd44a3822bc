// Tables of what is stored of the entities of a type.
ghost use Rattle.std.specs.Prelude.{◌≡◌, IfOk, map};
ghost use Rattle.smt_values.specs.View.{plain_stored, plain_types};
ghost use Rattle.smt_values.specs.Cedar.{ClosedRecordType};
ghost use Rattle.smt_values.specs.TypeOfCedar.{type_of_cedar};
ghost use Rattle.smt_values.specs.TypeView.{plain_cedar, plain_cedar_attributes};
ghost use Rattle.smt_term.specs.Functions.{plain_unary};
ghost use Rattle.smt_term.specs.Tables.{plain_entry};
ghost use Rattle.smt_term.specs.Entities.{bytes_of_type};
ghost use Rattle.smt_term.specs.Enums.{enums_of};
ghost use Rattle.law_terms.specs.Plain.{EntityType as EntityTypeOf, SetType};
ghost use Rattle.law_cedar.specs.Tables as stated;
ghost use Rattle.smt_symbolizer.specs.ByType.{said_by};
ghost use Rattle.smt_symbolizer.specs.Named.{said};
ghost use Rattle.smt_symbolizer.specs.Stored as held;
ghost use Rattle.smt_symbolizer.specs.EntityView.{plain_tags};
ghost use Rattle.smt_term.specs.TypeKinds.{tag_type};
ghost use Rattle.smt_term.specs.View.{plain_type};
ghost use Rattle.smt_values.specs.DefaultTerm.{default_term};
ghost use Rattle.smt_values.specs.Outcomes.{converted};
ghost use Rattle.smt_values.specs.Refused.{IsGiven};
ghost use Rattle.smt_term.specs.TypeView.{BuildsType};

use crate::entity_data::{AncestorMap, SymTags};
use crate::entries::{all_tag_entries, ancestors_entries, attributes_entries, keys_entries};
use smt_term::{EntityType, EnumTable, Term, TermError, TermTable, TermType, Udf, UnaryFunction};
use smt_values::{
    Attributes, CedarType, Entity, EntityTypeList, OfType, SymbolizeError, default_literal,
    of_record_type,
};
use std::alloc::Global;
use std::rc::Rc;

/// The type of terms of the entities of a type.
fn type_of_entities(ety: &EntityType) -> Result<TermType, TermError>
    ensures { BuildsType result (EntityTypeOf (bytes_of_type ety.now)) }
{
    Ok(TermType::Entity { ety: ety.share()? })
}

/// The type of terms of sets of the entities of a type.
fn type_of_entity_sets(alloc: Global, kind: &EntityType) -> Result<TermType, TermError>
    ensures { BuildsType result (SetType (EntityTypeOf (bytes_of_type kind.now))) }
{
    TermType::set_of(alloc, type_of_entities(kind)?)
}

/// The function that a table of these pairs defines, with the default of the output's type elsewhere.
fn function_of(
    alloc: Global,
    argument: TermType,
    output: TermType,
    pairs: &[(Term, Term)],
    enums: &EnumTable,
) -> Result<UnaryFunction, TermError>
    ensures { IfOk result (λ f.
        plain_unary f
        ≡ stated.table_of (default_term (enums_of enums.now)) (plain_type argument)
        (plain_type output) (map plain_entry pairs.now)) }
{
    let table = TermTable::new(alloc, pairs)?;
    let default = default_literal(alloc, &output, enums)?;
    let function = Udf {
        arg: argument,
        out: output,
        table,
        default,
    };
    Ok(UnaryFunction::Udf(Rc::new(alloc, function)?))
}

/// The function that a table of pairs of the entities of a type defines.
pub(crate) fn table_of(
    alloc: Global,
    ety: &EntityType,
    output: TermType,
    pairs: &[(Term, Term)],
    enums: &EnumTable,
) -> Result<UnaryFunction, TermError>
    ensures { IfOk result (λ f.
        plain_unary f
        ≡ stated.table_of (default_term (enums_of enums.now)) (EntityTypeOf (bytes_of_type ety.now))
        (plain_type output) (map plain_entry pairs.now)) }
{
    function_of(alloc, type_of_entities(ety)?, output, pairs, enums)
}

/// The function that a table of pairs of the entities of a type, and of sets of those of another, defines.
pub(crate) fn table_of_sets(
    alloc: Global,
    ety: &EntityType,
    kind: &EntityType,
    pairs: &[(Term, Term)],
    enums: &EnumTable,
) -> Result<UnaryFunction, TermError>
    ensures { IfOk result (λ f.
        plain_unary f
        ≡ stated.table_of (default_term (enums_of enums.now)) (EntityTypeOf (bytes_of_type ety.now))
        (SetType (EntityTypeOf (bytes_of_type kind.now))) (map plain_entry pairs.now)) }
{
    table_of(alloc, ety, type_of_entity_sets(alloc, kind)?, pairs, enums)
}

// ---- attributes

/// The type of terms of records of these attributes.
fn type_of_attributes(alloc: Global, attrs: &Attributes) -> Result<TermType, SymbolizeError>
    ensures { IsGiven plain_type result
        (converted (type_of_cedar (ClosedRecordType (plain_cedar_attributes attrs.now)))) }
{
    let rty = of_record_type(alloc, attrs)?;
    Ok(TermType::Record { rty })
}

/// The attributes of these entities, which are of a type.
pub(crate) fn attributes_table(
    alloc: Global,
    ety: &EntityType,
    attrs: &Attributes,
    stored: &[&Entity],
    enums: &EnumTable,
) -> Result<UnaryFunction, SymbolizeError>
    ensures { IsGiven plain_unary result (held.attributes_of (default_term (enums_of enums.now))
        (bytes_of_type ety.now) (plain_cedar_attributes attrs.now)
        (map (λ entity. plain_stored entity.now) stored.now)) }
{
    let output = type_of_attributes(alloc, attrs)?;
    let pairs = attributes_entries(alloc, attrs, stored)?;
    Ok(table_of(alloc, ety, output, pairs.as_slice(), enums)?)
}

// ---- ancestors

/// The sets of ancestors of these entities, which are of a type, that are of another.
fn ancestors_table(
    alloc: Global,
    ety: &EntityType,
    kind: &EntityType,
    stored: &[&Entity],
    enums: &EnumTable,
) -> Result<UnaryFunction, TermError>
    ensures { IfOk result (λ f.
        plain_unary f
        ≡ held.ancestors_of (default_term (enums_of enums.now)) (bytes_of_type ety.now)
        (bytes_of_type kind.now) (map (λ entity. plain_stored entity.now) stored.now)) }
{
    let pairs = ancestors_entries(alloc, kind, stored)?;
    table_of_sets(alloc, ety, kind, pairs.as_slice(), enums)
}

/// A type of ancestors, with the sets of the ancestors of these entities that are of it.
fn ancestors_of(
    alloc: Global,
    ety: &EntityType,
    kind: &EntityType,
    stored: &[&Entity],
    enums: &EnumTable,
) -> Result<(EntityType, UnaryFunction), TermError>
    ensures { IfOk result (λ pair.
        said plain_unary pair
        ≡ (
          bytes_of_type kind.now,
          held.ancestors_of (default_term (enums_of enums.now)) (bytes_of_type ety.now)
              (bytes_of_type kind.now) (map (λ entity. plain_stored entity.now) stored.now),
        )) }
{
    let name = kind.share()?;
    Ok((name, ancestors_table(alloc, ety, kind, stored, enums)?))
}

/// Each of these types of ancestors, with the sets of the ancestors of these entities that are of it.
fn ancestors_pairs(
    alloc: Global,
    ety: &EntityType,
    kinds: &[EntityType],
    stored: &[&Entity],
    enums: &EnumTable,
) -> Result<Vec<(EntityType, UnaryFunction)>, TermError>
    ensures { IfOk result (λ pairs.
        map (said plain_unary) pairs.items
        ≡ map (λ kind. (
          kind,
          held.ancestors_of (default_term (enums_of enums.now)) (bytes_of_type ety.now) kind
              (map (λ entity. plain_stored entity.now) stored.now),
        ))
        (map bytes_of_type kinds.now)) }
{
    let mut pairs: Vec<(EntityType, UnaryFunction)> = Vec::new(alloc);
    for kind in kinds {
        pairs.push(ancestors_of(alloc, ety, kind, stored, enums)?)?;
    }
    Ok(pairs)
}

/// The ancestors of these entities, which are of a type, by the types of ancestors that the type may have.
pub(crate) fn ancestors_tables(
    alloc: Global,
    ety: &EntityType,
    kinds: &EntityTypeList,
    stored: &[&Entity],
    enums: &EnumTable,
) -> Result<AncestorMap, TermError>
    ensures { IfOk result (λ tables.
        said_by plain_unary tables
        ≡ held.all_ancestors_of (default_term (enums_of enums.now)) (bytes_of_type ety.now)
        (plain_types kinds.now) (map (λ entity. plain_stored entity.now) stored.now)) }
{
    let pairs = ancestors_pairs(alloc, ety, kinds.items(), stored, enums)?;
    AncestorMap::of_pairs(alloc, pairs)
}

// ---- tags

/// The sets of the keys of the tags of these entities, which are of a type.
fn keys_table(
    alloc: Global,
    ety: &EntityType,
    stored: &[&Entity],
    enums: &EnumTable,
) -> Result<UnaryFunction, TermError>
    ensures { IfOk result (λ f.
        plain_unary f
        ≡ held.keys_of_tags (default_term (enums_of enums.now)) (bytes_of_type ety.now)
        (map (λ entity. plain_stored entity.now) stored.now)) }
{
    let pairs = keys_entries(alloc, stored)?;
    let output = TermType::set_of(alloc, TermType::String)?;
    table_of(alloc, ety, output, pairs.as_slice(), enums)
}

/// The function that a table of the tags of the entities of a type defines.
fn table_of_tags(
    alloc: Global,
    ety: &EntityType,
    output: TermType,
    pairs: &[(Term, Term)],
    enums: &EnumTable,
) -> Result<UnaryFunction, TermError>
    ensures { IfOk result (λ f.
        plain_unary f
        ≡ stated.table_of (default_term (enums_of enums.now)) (tag_type (bytes_of_type ety.now))
        (plain_type output) (map plain_entry pairs.now)) }
{
    let argument = TermType::tag_for(alloc, ety.share()?)?;
    function_of(alloc, argument, output, pairs, enums)
}

/// The values of the tags of these entities, which are of a type.
fn values_table(
    alloc: Global,
    ety: &EntityType,
    ty: &CedarType,
    stored: &[&Entity],
    enums: &EnumTable,
) -> Result<UnaryFunction, SymbolizeError>
    ensures { IsGiven plain_unary result (held.values_of_tags (default_term (enums_of enums.now))
        (bytes_of_type ety.now) (plain_cedar ty.now)
        (map (λ entity. plain_stored entity.now) stored.now)) }
{
    let output = TermType::of_type(alloc, ty)?;
    let pairs = all_tag_entries(alloc, ty, stored)?;
    Ok(table_of_tags(alloc, ety, output, pairs.as_slice(), enums)?)
}

/// The tags of these entities, which are of a type.
pub(crate) fn tags_tables(
    alloc: Global,
    ety: &EntityType,
    ty: &CedarType,
    stored: &[&Entity],
    enums: &EnumTable,
) -> Result<SymTags, SymbolizeError>
    ensures { IsGiven plain_tags result (held.tags_of (default_term (enums_of enums.now))
        (bytes_of_type ety.now) (plain_cedar ty.now)
        (map (λ entity. plain_stored entity.now) stored.now)) }
{
    let vals = values_table(alloc, ety, ty, stored, enums)?;
    let keys = keys_table(alloc, ety, stored, enums)?;
    Ok(SymTags { keys, vals })
}
