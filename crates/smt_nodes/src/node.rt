// Nodes and their labels.
ghost use Rattle.std.specs.Prelude.{◌≡◌, ◌↔◌, IfOk, IsTrue};
ghost use Rattle.law_terms.specs.Nodes.{FunctionMeaning};
ghost use Rattle.law_terms.specs.Parts.{label_in, term_label, type_label};
ghost use Rattle.law_terms.specs.Plain.{Application, PlainTerms, PlainType};
ghost use Rattle.smt_nodes.specs.View.{plain_label, plain_node};
ghost use Rattle.smt_term.specs.View.{plain_function, plain_literal, plain_op, plain_term};
ghost use Rattle.smt_term.specs.View.{plain_type};

use crate::attributes::{AttrList, are_attributes_of};
use crate::id::IdList;
use smt_bits::Width;
use smt_term::{EntityType, ExtType, Op, Term, TermError, TermPrim, TermType, Text, Uuf};

/// What a type, a function or a term is, apart from its parts. The types come first, and then the functions.
#[derive(Debug, PartialEq, Eq, PartialOrd, Ord)]
pub enum Label {
    /// The type of options; its part is the inner type.
    TOption,
    /// The type of bitvectors of a width.
    TBitvec(Width),
    /// The type of truth values.
    TBool,
    /// The type of entities of a type.
    TEntity(EntityType),
    /// An extension type.
    TExt(ExtType),
    /// The type of texts.
    TString,
    /// The type of records of these attributes; its parts are their types, in the order of the attributes.
    TRecord(AttrList),
    /// The type of finite sets; its part is the element type.
    TSet,
    /// An uninterpreted function of this id; its parts are its argument type and its output type.
    Fun(Text),
    /// An operator at its arguments; its parts are the claimed type and the arguments. The operator is no uninterpreted
    /// function: that at its arguments is a call.
    App(Op),
    /// A function at its arguments; its parts are the claimed type, the function and the arguments.
    Call,
    /// None of an option; its part is its type.
    NoneOf,
    /// A literal; its part is its type.
    Prim(TermPrim),
    /// A record of these attributes; its parts are its type and the attributes' terms, in the order of the attributes.
    RecordOf(AttrList),
    /// A set; its parts are its type and its elements, in the order of terms.
    SetOf,
    /// An option that holds a term; its parts are its type and the term.
    SomeOf,
    /// A variable of this id; its part is its type.
    Var(Text),
}

// By hand, since a derived one is written out, with all its variants, in each function that lets a label go.
impl Drop for Label {
    fn drop(self) {
        match self {
            Label::TEntity(_) => {}
            Label::TRecord(_) | Label::RecordOf(_) => {}
            Label::Fun(_) | Label::Var(_) => {}
            Label::App(_) => {}
            Label::Prim(_) => {}
            Label::TOption
            | Label::TBitvec(_)
            | Label::TBool
            | Label::TExt(_)
            | Label::TString
            | Label::TSet
            | Label::Call
            | Label::NoneOf
            | Label::SetOf
            | Label::SomeOf => {}
        }
    }
}

/// A type, a function or a term by its label and the numbers of its parts. A term has first its type.
#[derive(Debug, PartialEq, Eq, PartialOrd, Ord, Drop)]
pub struct Node {
    /// What it is.
    pub label: Label,
    /// What its parts are.
    pub parts: IdList,
}

impl Label {
    ghost use Rattle.smt_nodes.specs.LabelKinds.{is_function_label, is_literal_label};
    ghost use Rattle.smt_nodes.specs.LabelKinds.{is_term_label, is_type_label};

    /// Whether it is that of a type.
    pub fn is_type(&self) -> bool
        ensures { result ≡ is_type_label (plain_label self.now) }
    {
        match self {
            Label::TOption
            | Label::TBitvec(_)
            | Label::TBool
            | Label::TEntity(_)
            | Label::TExt(_)
            | Label::TString
            | Label::TRecord(_)
            | Label::TSet => true,
            Label::Fun(_)
            | Label::App(_)
            | Label::Call
            | Label::NoneOf
            | Label::Prim(_)
            | Label::RecordOf(_)
            | Label::SetOf
            | Label::SomeOf
            | Label::Var(_) => false,
        }
    }

    /// Whether it is that of a function.
    pub fn is_function(&self) -> bool
        ensures { result ≡ is_function_label (plain_label self.now) }
    {
        match self {
            Label::Fun(_) => true,
            Label::TOption
            | Label::TBitvec(_)
            | Label::TBool
            | Label::TEntity(_)
            | Label::TExt(_)
            | Label::TString
            | Label::TRecord(_)
            | Label::TSet
            | Label::App(_)
            | Label::Call
            | Label::NoneOf
            | Label::Prim(_)
            | Label::RecordOf(_)
            | Label::SetOf
            | Label::SomeOf
            | Label::Var(_) => false,
        }
    }

    /// Whether it is that of a term.
    pub fn is_term(&self) -> bool
        ensures { result ≡ is_term_label (plain_label self.now) }
    {
        match self {
            Label::App(_)
            | Label::Call
            | Label::NoneOf
            | Label::Prim(_)
            | Label::RecordOf(_)
            | Label::SetOf
            | Label::SomeOf
            | Label::Var(_) => true,
            Label::TOption
            | Label::TBitvec(_)
            | Label::TBool
            | Label::TEntity(_)
            | Label::TExt(_)
            | Label::TString
            | Label::TRecord(_)
            | Label::TSet
            | Label::Fun(_) => false,
        }
    }

    /// Whether it is that of the literal's type.
    pub fn is_type_of(&self, literal: &TermPrim) -> bool
        ensures { result ≡ is_literal_label (plain_literal literal.now) (plain_label self.now) }
    {
        match literal {
            TermPrim::Bitvec(bits) => match self {
                Label::TBitvec(width) => bits.width() == *width,
                _ => false,
            },
            TermPrim::Bool(_) => match self {
                Label::TBool => true,
                _ => false,
            },
            TermPrim::Entity(entity) => match self {
                Label::TEntity(ety) => entity.ety == *ety,
                _ => false,
            },
            TermPrim::Ext(value) => match self {
                Label::TExt(xty) => ExtType::of(value) == *xty,
                _ => false,
            },
            TermPrim::String(_) => match self {
                Label::TString => true,
                _ => false,
            },
        }
    }

    /// Whether it is that of the term.
    pub fn is_of_term(&self, term: &Term) -> bool
        ensures { IsTrue result ↔ (plain_label self.now ≡ term_label (plain_term term.now)) }
    {
        match term {
            Term::App { op, .. } => self.is_of_operator(op),
            Term::None(_) => *self == Label::NoneOf,
            Term::Prim(literal) => match self {
                Label::Prim(own) => own == literal,
                _ => false,
            },
            Term::Record(fields) => match self {
                Label::RecordOf(own) => are_attributes_of(own.items(), fields.items()),
                _ => false,
            },
            Term::Set { .. } => *self == Label::SetOf,
            Term::Some(_) => *self == Label::SomeOf,
            Term::Var(variable) => match self {
                Label::Var(own) => *own == variable.id,
                _ => false,
            },
        }
    }

    // Whether it is that of the operator's applications.
    fn is_of_operator(&self, op: &Op) -> bool
        ensures { (ts : PlainTerms) (t : PlainType) →
            IsTrue result
            ↔ (plain_label self.now ≡ term_label (Application (plain_op op.now) ts t)) }
    {
        match op {
            Op::Uuf(_) => *self == Label::Call,
            _ => match self {
                Label::App(own) => own == op,
                _ => false,
            },
        }
    }

    /// Whether it is that of the function.
    pub fn is_of_function(&self, function: &Uuf) -> bool
        ensures { IsTrue result
            ↔ (plain_label self.now ≡ label_in (FunctionMeaning (plain_function function.now))) }
    {
        match self {
            Label::Fun(own) => *own == function.id,
            _ => false,
        }
    }

    /// Whether it is that of the type.
    pub fn is_of_type(&self, ty: &TermType) -> bool
        ensures { IsTrue result ↔ (plain_label self.now ≡ type_label (plain_type ty.now)) }
    {
        match ty {
            TermType::Option { .. } => *self == Label::TOption,
            TermType::Bitvec { n } => *self == Label::TBitvec(*n),
            TermType::Bool => *self == Label::TBool,
            TermType::Entity { ety } => match self {
                Label::TEntity(own) => own == ety,
                _ => false,
            },
            TermType::Ext { xty } => *self == Label::TExt(*xty),
            TermType::String => *self == Label::TString,
            TermType::Record { rty } => match self {
                Label::TRecord(own) => are_attributes_of(own.items(), rty.items()),
                _ => false,
            },
            TermType::Set { .. } => *self == Label::TSet,
        }
    }

    /// An equal label that shares its texts.
    ///
    /// # Errors
    /// `Memory`, where there is none for the label.
    pub fn share(&self) -> Result<Label, TermError>
        ensures { IfOk result (λ label. plain_label label ≡ plain_label self.now) }
    {
        Ok(match self {
            Label::TOption => Label::TOption,
            Label::TBitvec(width) => Label::TBitvec(*width),
            Label::TBool => Label::TBool,
            Label::TEntity(ety) => Label::TEntity(ety.share()?),
            Label::TExt(xty) => Label::TExt(*xty),
            Label::TString => Label::TString,
            Label::TRecord(names) => Label::TRecord(names.share()?),
            Label::TSet => Label::TSet,
            Label::Fun(id) => Label::Fun(id.clone()?),
            Label::App(op) => Label::App(op.share()?),
            Label::Call => Label::Call,
            Label::NoneOf => Label::NoneOf,
            Label::Prim(literal) => Label::Prim(literal.share()?),
            Label::RecordOf(names) => Label::RecordOf(names.share()?),
            Label::SetOf => Label::SetOf,
            Label::SomeOf => Label::SomeOf,
            Label::Var(id) => Label::Var(id.clone()?),
        })
    }
}

impl Node {
    /// An equal node that shares its parts.
    ///
    /// # Errors
    /// `Memory`, where there is none for the node.
    pub fn share(&self) -> Result<Node, TermError>
        ensures { IfOk result (λ node. plain_node node ≡ plain_node self.now) }
    {
        Ok(Node {
            label: self.label.share()?,
            parts: self.parts.share()?,
        })
    }
}
