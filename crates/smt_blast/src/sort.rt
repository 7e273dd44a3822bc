// The types that are blasted.
ghost use Rattle.std.specs.Prelude.{◌≡◌, IfNone, IfSome, Some};
ghost use Rattle.law_blasting.specs.Refusals.{UnsupportedType, type_refusal};
ghost use Rattle.law_terms.specs.Nodes.{TypeMeaning};
ghost use Rattle.law_terms.specs.Plain.{PlainType};
ghost use Rattle.smt_blast.specs.Sorts.{plain_sort};
ghost use Rattle.smt_nodes.specs.Interned.{meaning_in};

use smt_bits::Width;
use smt_nodes::{Interner, Label, NodeId};

/// A type that is blasted.
#[derive(Clone, Copy)]
pub(crate) enum Sort {
    /// Bool.
    Truth,
    /// Bitvectors of a width.
    Bits(Width),
}

/// The type for which a number stands, where it is blasted. Takes no memory.
pub(crate) fn sort_at(old: &Interner, ty: NodeId) -> Option<Sort>
    ensures found { (t : PlainType) → meaning_in old.now ty ≡ Some (TypeMeaning t) →
        IfSome result (λ sort. t ≡ plain_sort sort) }
    ensures none { (t : PlainType) → meaning_in old.now ty ≡ Some (TypeMeaning t) →
        IfNone result (type_refusal t ≡ Some (UnsupportedType t)) }
{
    match old.label(ty) {
        Some(Label::TBool) => Some(Sort::Truth),
        Some(Label::TBitvec(width)) => Some(Sort::Bits(*width)),
        _ => None,
    }
}
