// The order of labels, and where the parts of two nodes first differ.
ghost use Rattle.std.specs.Prelude.{◌≡◌};
ghost use Rattle.std.specs.Ordering.{nat_cmp};
ghost use Rattle.law_terms.specs.Nodes.{RecordOfLabel, SomeLabel};
ghost use Rattle.law_terms.specs.TermOrder.{op_place};
ghost use Rattle.smt_nodes.specs.LabelOrder.{attributes_apart, difference_of, first_cmp};
ghost use Rattle.smt_nodes.specs.LabelOrder.{function_place, parts_apart};
ghost use Rattle.smt_nodes.specs.View.{plain_label};
ghost use Rattle.law_texts.specs.SharedTexts.{texts};
ghost use Rattle.smt_term.specs.View.{plain_op};

use crate::id::NodeId;
use crate::node::Label;
use smt_term::{Attr, Op};
use std::cmp::Ordering;

/// Where two lists of numbers differ.
#[derive(Clone, Copy)]
pub(crate) enum Difference {
    /// Nowhere.
    Nowhere,
    /// First at these two numbers.
    At(NodeId, NodeId),
    /// One of them goes on.
    Length(Ordering),
}

// The first difference of two lists of numbers.
fn first_difference(xs: &[NodeId], ys: &[NodeId]) -> Difference
    ensures { result ≡ difference_of xs.now ys.now }
{
    match xs {
        [] => match ys {
            [] => Difference::Nowhere,
            [_, ..] => Difference::Length(Ordering::Less),
        },
        [x, xs @ ..] => match ys {
            [] => Difference::Length(Ordering::Greater),
            [y, ys @ ..] => {
                if x.place == y.place {
                    first_difference(xs, ys)
                } else {
                    Difference::At(*x, *y)
                }
            }
        },
    }
}

/// The first difference of the parts of two nodes whose labels leave them level, in the order in which terms compare them.
pub(crate) fn parts_difference(
    first: &Label,
    second: &Label,
    xs: &[NodeId],
    ys: &[NodeId],
) -> Difference
    ensures { result ≡ parts_apart (plain_label first.now) (plain_label second.now) xs.now ys.now }
{
    match first {
        Label::TRecord(names) => match second {
            Label::TRecord(others) => {
                attributes_difference(names.items(), others.items(), xs, ys)
            }
            _ => first_difference(xs, ys),
        },
        Label::RecordOf(names) => match second {
            Label::RecordOf(others) => behind_type(names.items(), others.items(), xs, ys),
            _ => first_difference(xs, ys),
        },
        Label::App(_) | Label::Call | Label::SomeOf => type_last(xs, ys),
        Label::TOption
        | Label::TBitvec(_)
        | Label::TBool
        | Label::TEntity(_)
        | Label::TExt(_)
        | Label::TString
        | Label::TSet
        | Label::Fun(_)
        | Label::NoneOf
        | Label::Prim(_)
        | Label::SetOf
        | Label::Var(_) => first_difference(xs, ys),
    }
}

// The first difference of two records: of their attributes and of what stands for each, the attribute first.
fn attributes_difference(
    names: &[Attr],
    others: &[Attr],
    xs: &[NodeId],
    ys: &[NodeId],
) -> Difference
    ensures { result ≡ attributes_apart (texts names.now) (texts others.now) xs.now ys.now }
{
    match names {
        [] => match others {
            [] => Difference::Nowhere,
            [_, ..] => Difference::Length(Ordering::Less),
        },
        [name, names @ ..] => match others {
            [] => Difference::Length(Ordering::Greater),
            [other, others @ ..] => match xs {
                [] => first_difference(xs, ys),
                [x, later @ ..] => match ys {
                    [] => first_difference(xs, ys),
                    [y, ys @ ..] => match name.cmp(other) {
                        Ordering::Less => Difference::Length(Ordering::Less),
                        Ordering::Equal => {
                            if x.place == y.place {
                                attributes_difference(names, others, later, ys)
                            } else {
                                Difference::At(*x, *y)
                            }
                        }
                        Ordering::Greater => Difference::Length(Ordering::Greater),
                    },
                },
            },
        },
    }
}

// The same of two records, whose types go with their terms.
fn behind_type(names: &[Attr], others: &[Attr], xs: &[NodeId], ys: &[NodeId]) -> Difference
    ensures { result
        ≡ parts_apart (RecordOfLabel (texts names.now)) (RecordOfLabel (texts others.now)) xs.now
        ys.now }
{
    match xs {
        [] => first_difference(xs, ys),
        [_, fields @ ..] => match ys {
            [] => first_difference(xs, ys),
            [_, ys @ ..] => attributes_difference(names, others, fields, ys),
        },
    }
}

// The first difference of parts of which the first come last.
fn type_last(xs: &[NodeId], ys: &[NodeId]) -> Difference
    ensures { result ≡ parts_apart SomeLabel SomeLabel xs.now ys.now }
{
    match xs {
        [] => first_difference(xs, ys),
        [ty, args @ ..] => match ys {
            [] => first_difference(xs, ys),
            [other, others @ ..] => match first_difference(args, others) {
                Difference::Nowhere => first_difference(&[*ty], &[*other]),
                apart => apart,
            },
        },
    }
}

/// How the labels of two nodes compare before their parts do. A call compares with an application by their operators, since
/// terms do, and so not by the order of labels.
pub(crate) fn compare_labels(first: &Label, second: &Label) -> Ordering
    ensures { result ≡ first_cmp (plain_label first.now) (plain_label second.now) }
{
    match first {
        Label::App(op) => match second {
            Label::Call => beside_functions(op),
            _ => first.cmp(second),
        },
        Label::Call => match second {
            Label::App(op) => beside_functions(op).reverse(),
            _ => first.cmp(second),
        },
        Label::TRecord(_) => match second {
            Label::TRecord(_) => Ordering::Equal,
            _ => first.cmp(second),
        },
        Label::RecordOf(_) => match second {
            Label::RecordOf(_) => Ordering::Equal,
            _ => first.cmp(second),
        },
        Label::TOption
        | Label::TBitvec(_)
        | Label::TBool
        | Label::TEntity(_)
        | Label::TExt(_)
        | Label::TString
        | Label::TSet
        | Label::Fun(_)
        | Label::NoneOf
        | Label::Prim(_)
        | Label::SetOf
        | Label::SomeOf
        | Label::Var(_) => first.cmp(second),
    }
}

// How an operator stands to the uninterpreted functions in the order of operators.
fn beside_functions(op: &Op) -> Ordering
    ensures { result ≡ nat_cmp (op_place (plain_op op.now)) function_place }
{
    match op {
        Op::And
        | Op::Bvadd
        | Op::Bvlshr
        | Op::Bvmul
        | Op::Bvneg
        | Op::Bvnego
        | Op::Bvsaddo
        | Op::Bvsdiv
        | Op::Bvshl
        | Op::Bvsle
        | Op::Bvslt
        | Op::Bvsmod
        | Op::Bvsmulo
        | Op::Bvsrem
        | Op::Bvssubo
        | Op::Bvsub
        | Op::Bvudiv
        | Op::Bvule
        | Op::Bvult
        | Op::Bvurem
        | Op::Eq
        | Op::Ext(_)
        | Op::Ite
        | Op::Not
        | Op::OptionGet
        | Op::Or
        | Op::RecordGet(_)
        | Op::SetInter
        | Op::SetMember
        | Op::SetSubset
        | Op::StringLike(_) => Ordering::Less,
        Op::Uuf(_) => Ordering::Equal,
        Op::ZeroExtend(_) => Ordering::Greater,
    }
}
