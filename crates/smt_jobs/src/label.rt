// What labels tell of the terms that have them.
ghost use Rattle.std.specs.Prelude.{◌≡◌};
ghost use Rattle.smt_jobs.specs.Labels.{is_bits_type_label, is_negation_label, is_open_label};
ghost use Rattle.smt_jobs.specs.Labels.{is_bits_negation_label, is_truth_label};
ghost use Rattle.smt_nodes.specs.View.{plain_label};

use smt_nodes::Label;
use smt_term::{Op, TermPrim};

/// Whether it is that of a variable or of an application.
pub(crate) fn is_open_label(label: &Label) -> bool
    ensures { result ≡ is_open_label (plain_label label.now) }
{
    matches!(label, Label::App(_) | Label::Call | Label::Var(_))
}

/// Whether it is that of `true` or of `false`.
pub(crate) fn is_truth_label(label: &Label) -> bool
    ensures { result ≡ is_truth_label (plain_label label.now) }
{
    matches!(label, Label::Prim(TermPrim::Bool(_)))
}

/// Whether it is that of negations of truth values.
pub(crate) fn is_negation_label(label: &Label) -> bool
    ensures { result ≡ is_negation_label (plain_label label.now) }
{
    matches!(label, Label::App(Op::Not))
}

/// Whether it is that of negations of bitvectors.
pub(crate) fn is_bits_negation_label(label: &Label) -> bool
    ensures { result ≡ is_bits_negation_label (plain_label label.now) }
{
    matches!(label, Label::App(Op::Bvneg))
}

/// Whether it is that of a type of bitvectors.
pub(crate) fn is_bits_type_label(label: &Label) -> bool
    ensures { result ≡ is_bits_type_label (plain_label label.now) }
{
    matches!(label, Label::TBitvec(_))
}
