// The defaults of types.
#![tactic(auto, using(crate::specs::TypeView::cedar_views, crate::specs::ValueView::value_views, smt_term::specs::View::views))]

ghost use Rattle.std.specs.Prelude.{◌≡◌, IfOk, map};
ghost use Rattle.std.specs.Rc.{rc_str_bytes};
ghost use Rattle.smt_ext.specs.ExtOrder.{plain_value};
ghost use Rattle.smt_term.specs.Entities.{bytes_of_id, bytes_of_type};
ghost use Rattle.smt_term.specs.Enums.{enums_of};
ghost use Rattle.law_folding.specs.FoldRecords.{record_of_pairs};
ghost use Rattle.smt_term.specs.ExtensionView.{plain_kind};
ghost use Rattle.law_terms.specs.Defaults.{default_extension};
ghost use Rattle.law_terms.specs.TypeValues.{members_of};
ghost use Rattle.smt_term.specs.View.{BuildsTerm, plain_attributes, plain_field, plain_type};
ghost use Rattle.law_terms.specs.Plain.{attribute_types};
ghost use Rattle.smt_values.specs.DefaultTerm as stated;
ghost use Rattle.smt_values.specs.DefaultTerm.{default_term};
ghost use Rattle.law_texts.specs.SharedTexts.{GivesText};

use smt_bits::BitVec;
use smt_ext::{Datetime, Decimal, Duration, Ext, IPNet};
use smt_factory_core::{none_of, record_of, set_of};
use smt_term::{
    Attr, EntityID, EntityType, EntityUID, EnumTable, ExtType, Term, TermError, TermType, Text,
    TypeMap,
};
use smt_text::share_text;
use std::alloc::{AllocError, Global};

/// The default of a type: false, 0, the empty text, the entity of the empty id or of an enum type's first member, none, the
/// empty set, the record of defaults, the decimal 0, `0.0.0.0` without a prefix, the datetime 0 and the duration 0.
///
/// # Errors
/// `Memory`, where there is none for the term.
#[cycle(default_literal)]
pub fn default_literal(alloc: Global, ty: &TermType, enums: &EnumTable) -> Result<Term, TermError>
    ensures { BuildsTerm result (default_term (enums_of enums.now) (plain_type ty.now)) }
{
    match ty {
        TermType::Option { ty } => Ok(none_of(ty.share()?)),
        TermType::Bitvec { n } => Ok(Term::from(BitVec::of_u128(*n, 0))),
        TermType::Bool => Ok(Term::from(false)),
        TermType::Entity { ety } => Ok(Term::from(default_entity(alloc, ety, enums)?)),
        TermType::Ext { xty } => Ok(Term::from(default_value(*xty))),
        TermType::String => Ok(Term::from(Text::from_str(alloc, "")?)),
        TermType::Record { rty } => default_record(alloc, rty, enums),
        TermType::Set { ty } => set_of(alloc, &[], ty.share()?),
    }
}

/// The first of some texts, or the empty text.
fn first_text(alloc: Global, texts: &[Text]) -> Result<Text, AllocError>
    ensures { GivesText result (stated.first_text (map rc_str_bytes texts.now)) }
{
    match texts {
        [] => Text::from_str(alloc, ""),
        [first, ..] => share_text(first),
    }
}

/// The id of the default of an entity type.
fn default_id(alloc: Global, ety: &EntityType, enums: &EnumTable) -> Result<Text, AllocError>
    ensures { GivesText result
        (stated.default_id (members_of (enums_of enums.now) (bytes_of_type ety.now))) }
{
    match enums.members_of(ety) {
        Some(members) => first_text(alloc, members.items()),
        None => Text::from_str(alloc, ""),
    }
}

/// The default of an entity type.
fn default_entity(
    alloc: Global,
    ety: &EntityType,
    enums: &EnumTable,
) -> Result<EntityUID, TermError>
    ensures typed { IfOk result (λ e. bytes_of_type e.ety ≡ bytes_of_type ety.now) }
    ensures named { IfOk result (λ e.
        bytes_of_id e.id
        ≡ stated.default_id (members_of (enums_of enums.now) (bytes_of_type ety.now))) }
{
    Ok(EntityUID {
        ety: ety.share()?,
        id: EntityID(default_id(alloc, ety, enums)?),
    })
}

/// The default of an extension type.
fn default_value(kind: ExtType) -> Ext
    ensures { plain_value result ≡ default_extension (plain_kind kind) }
{
    match kind {
        ExtType::Decimal => Ext::Decimal {
            d: Decimal { ten_thousandths: 0 },
        },
        ExtType::IpAddr => Ext::Ipaddr {
            ip: IPNet::default(),
        },
        ExtType::DateTime => Ext::Datetime {
            dt: Datetime::default(),
        },
        ExtType::Duration => Ext::Duration {
            d: Duration::default(),
        },
    }
}

/// The attributes of a record type, each with the default of its type.
#[cycle(default_literal)]
fn default_pairs(
    alloc: Global,
    rty: &TypeMap,
    enums: &EnumTable,
) -> Result<Vec<(Attr, Term)>, TermError>
    ensures { IfOk result (λ pairs.
        map plain_field pairs.items
        ≡ stated.default_fields (enums_of enums.now) (attribute_types (plain_attributes rty.now))) }
{
    let mut pairs: Vec<(Attr, Term)> = Vec::new(alloc);
    for (name, ty) in rty.items() {
        let term = default_literal(alloc, ty, enums)?;
        pairs.push((share_text(name)?, term))?;
    }
    Ok(pairs)
}

/// The default of a record type.
#[cycle(default_literal)]
fn default_record(alloc: Global, rty: &TypeMap, enums: &EnumTable) -> Result<Term, TermError>
    ensures { BuildsTerm result (record_of_pairs
        (stated.default_fields (enums_of enums.now) (attribute_types (plain_attributes rty.now)))) }
{
    let pairs = default_pairs(alloc, rty, enums)?;
    record_of(alloc, pairs.as_slice())
}
