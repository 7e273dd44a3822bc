#![tactic(auto, using(crate::specs::View::views), unfolding(crate::specs::TypeView::plain_type, crate::specs::View::plain_term))]
// Terms and lists of terms.
ghost use Rattle.std.specs.Prelude.{◌≡◌, ◌↔◌, [], IfOk, IsTrue, length, map};
ghost use Rattle.law_terms.specs.TermSets.{sorted_terms};
ghost use Rattle.smt_term.specs.View.{BuildsTerm, elements_of, items_of, plain_elements};
ghost use Rattle.smt_term.specs.View.{plain_items, plain_literal, plain_term};
ghost use Rattle.smt_term.specs.View.{plain_terms, plain_variable};

use crate::maps::TermMap;
use crate::op::Op;
use crate::{EntityUID, TermError, TermType};
use smt_bits::{BitVec, SIXTY_FOUR};
use smt_ext::Ext;
use smt_text::{Text, share_text};
use std::alloc::Global;
use std::collections::BTreeSet;
use std::rc::Rc;

/// A variable: its id and its type. Two variables of one id and different types are different.
///
/// # Examples
///
/// ```
/// use kembura::bits::SIXTY_FOUR;
/// use kembura::{Term, TermType, TermVar, Text};
///
/// let id = Text::from_str(alloc, "context.hour")?;
/// let ty = TermType::Bitvec { n: SIXTY_FOUR };
/// let hour = Term::from(TermVar { id, ty });
/// ```
#[derive(Debug, PartialEq, Eq, PartialOrd, Ord, Drop)]
pub struct TermVar {
    /// The name by which it is known.
    pub id: Text,
    /// The type of its values.
    pub ty: TermType,
}

/// A literal.
#[derive(Debug, PartialEq, Eq, PartialOrd, Ord)]
pub enum TermPrim {
    /// A bitvector.
    Bitvec(BitVec),
    /// A truth value.
    Bool(bool),
    /// An entity.
    Entity(EntityUID),
    /// A value of an extension type.
    Ext(Ext),
    /// A text.
    String(Text),
}

// By hand, since a derived one is written out, with all its variants, in each function that lets a literal go.
impl Drop for TermPrim {
    fn drop(self) {
        match self {
            TermPrim::Bitvec(_) => {}
            TermPrim::Bool(_) => {}
            TermPrim::Entity(_) => {}
            TermPrim::Ext(_) => {}
            TermPrim::String(_) => {}
        }
    }
}

/// A term. Terms order by the variants and fields as declared, lists by their first difference.
#[derive(Debug, PartialEq, Eq, PartialOrd, Ord)]
#[cycle(term)]
pub enum Term {
    /// An operator at its arguments; `ret_ty` is the type of the result, as it is claimed.
    App {
        op: Op,
        args: TermList,
        ret_ty: TermType,
    },
    /// None of an option, by the type of what it could hold.
    None(TermType),
    /// A literal.
    Prim(TermPrim),
    /// A record that has for each attribute the value of its term.
    Record(TermMap),
    /// A set of the values of terms of one type.
    Set {
        elts_ty: TermType,
        elts: TermSet,
    },
    /// An option that holds the value of a term.
    Some(Rc<Term>),
    /// A variable.
    Var(TermVar),
}

// By hand, so that what lets a term go calls this, and has no account of its parts.
impl Drop for Term {
    #[cycle(term)]
    fn drop(self) {
        match self {
            Term::App {
                op: _,
                args: _,
                ret_ty: _,
            } => {}
            Term::None(_) => {}
            Term::Prim(_) => {}
            Term::Record(_) => {}
            Term::Set {
                elts_ty: _,
                elts: _,
            } => {}
            Term::Some(_) => {}
            Term::Var(_) => {}
        }
    }
}

/// A list of terms in the order in which they were given; its holders share it.
#[derive(Debug, PartialEq, Eq, PartialOrd, Ord, Drop)]
#[cycle(term)]
pub struct TermList {
    items: Rc<Vec<Term>>,
}

impl TermList {
    /// The list of these terms, in this order.
    ///
    /// # Errors
    /// `Memory`, where there is none for the list.
    pub fn new(alloc: Global, items: &[Term]) -> Result<TermList, TermError>
        ensures { IfOk result (λ list. plain_items list ≡ plain_terms items.now) }
    {
        let mut all = Vec::with_capacity(alloc, items.len())?;
        for item in items {
            all.push(item.share()?)?;
        }
        Ok(TermList {
            items: Rc::new(alloc, all)?,
        })
    }

    /// The list of the terms behind these references, in this order.
    ///
    /// # Errors
    /// `Memory`, where there is none for the list.
    pub fn of_references(alloc: Global, items: &[&Term]) -> Result<TermList, TermError>
        ensures { IfOk result
            (λ list. plain_items list ≡ map (λ item. plain_term item.now) items.now) }
    {
        let mut all = Vec::with_capacity(alloc, items.len())?;
        for item in items {
            all.push(item.share()?)?;
        }
        Ok(TermList {
            items: Rc::new(alloc, all)?,
        })
    }

    /// How many terms it has.
    pub fn len(&self) -> usize
        ensures { result ≡ length (plain_items self.now) }
    {
        self.items.len()
    }

    /// Whether it has none.
    pub fn is_empty(&self) -> bool
        ensures { IsTrue result ↔ (plain_items self.now ≡ []) }
    {
        self.items.is_empty()
    }

    /// The terms, in order.
    pub fn items(&self) -> &[Term]
        ensures same { result.now ≡ items_of self.now }
        ensures plain { plain_terms result.now ≡ plain_items self.now }
    {
        self.items.as_slice()
    }

    /// An equal list that shares the terms.
    ///
    /// # Errors
    /// `Memory`, where there is none for the list.
    pub fn share(&self) -> Result<TermList, TermError>
        ensures { IfOk result (λ list. plain_items list ≡ plain_items self.now) }
    {
        Ok(TermList {
            items: self.items.clone()?,
        })
    }
}

/// The elements of a set: terms in their order, each once; its holders share them.
#[derive(Debug, PartialEq, Eq, PartialOrd, Ord, Drop)]
#[cycle(term)]
pub struct TermSet {
    items: Rc<Vec<Term>>,
}

impl TermSet {
    /// The set of these terms, which it sorts; of equal ones it keeps one.
    ///
    /// # Errors
    /// `Memory`, where there is none for the set.
    pub fn new(alloc: Global, items: &[Term]) -> Result<TermSet, TermError>
        ensures { IfOk result (λ set. plain_elements set ≡ sorted_terms (plain_terms items.now)) }
    {
        let mut found = BTreeSet::new(alloc);
        for item in items {
            found.insert(item.share()?)?;
        }
        let elements = found.into_iter().collect(alloc)?;
        Ok(TermSet {
            items: Rc::new(alloc, elements)?,
        })
    }

    /// How many elements it has.
    pub fn len(&self) -> usize
        ensures { result ≡ length (plain_elements self.now) }
    {
        self.items.len()
    }

    /// Whether it has none.
    pub fn is_empty(&self) -> bool
        ensures { IsTrue result ↔ (plain_elements self.now ≡ []) }
    {
        self.items.is_empty()
    }

    /// The elements, in order.
    pub fn items(&self) -> &[Term]
        ensures same { result.now ≡ elements_of self.now }
        ensures plain { plain_terms result.now ≡ plain_elements self.now }
    {
        self.items.as_slice()
    }

    /// An equal set that shares the elements.
    ///
    /// # Errors
    /// `Memory`, where there is none for the set.
    pub fn share(&self) -> Result<TermSet, TermError>
        ensures { IfOk result (λ set. plain_elements set ≡ plain_elements self.now) }
    {
        Ok(TermSet {
            items: self.items.clone()?,
        })
    }
}

impl TermPrim {
    /// An equal literal that shares its texts.
    ///
    /// # Errors
    /// `Memory`, where there is none for the literal.
    pub fn share(&self) -> Result<TermPrim, TermError>
        ensures { IfOk result (λ literal. plain_literal literal ≡ plain_literal self.now) }
    {
        match self {
            TermPrim::Bitvec(bits) => Ok(TermPrim::Bitvec(*bits)),
            TermPrim::Bool(truth) => Ok(TermPrim::Bool(*truth)),
            TermPrim::Entity(entity) => Ok(TermPrim::Entity(entity.share()?)),
            TermPrim::Ext(value) => Ok(TermPrim::Ext(*value)),
            TermPrim::String(text) => Ok(TermPrim::String(share_text(text)?)),
        }
    }
}

impl TermVar {
    /// An equal variable that shares its id and its type.
    ///
    /// # Errors
    /// `Memory`, where there is none for the variable.
    pub fn share(&self) -> Result<TermVar, TermError>
        ensures { IfOk result (λ variable. plain_variable variable ≡ plain_variable self.now) }
    {
        Ok(TermVar {
            id: share_text(&self.id)?,
            ty: self.ty.share()?,
        })
    }
}

impl Term {
    /// An equal term that shares its parts.
    ///
    /// # Examples
    ///
    /// ```
    /// use kembura::Term;
    /// use kembura::factory::eq;
    ///
    /// let seven = Term::from(7i64);
    /// let same = eq(alloc, seven.share()?, seven)?;
    /// assert_eq!(rt; same, Term::from(true));
    /// ```
    ///
    /// # Errors
    /// `Memory`, where there is none for the term.
    #[tactic(auto, using(crate::specs::View::views))]
    pub fn share(&self) -> Result<Term, TermError>
        ensures { BuildsTerm result (plain_term self.now) }
    {
        match self {
            Term::App { op, args, ret_ty } => Ok(Term::App {
                op: op.share()?,
                args: args.share()?,
                ret_ty: ret_ty.share()?,
            }),
            Term::None(ty) => Ok(Term::None(ty.share()?)),
            Term::Prim(literal) => Ok(Term::Prim(literal.share()?)),
            Term::Record(fields) => Ok(Term::Record(fields.share()?)),
            Term::Set { elts_ty, elts } => Ok(Term::Set {
                elts_ty: elts_ty.share()?,
                elts: elts.share()?,
            }),
            Term::Some(inner) => Ok(Term::Some(inner.clone()?)),
            Term::Var(variable) => Ok(Term::Var(variable.share()?)),
        }
    }
}

impl From<bool> for Term {
    ghost use Rattle.std.specs.Prelude.{◌≡◌};
    ghost use Rattle.law_terms.specs.Plain.{BoolLiteral, LiteralTerm};
    ghost use Rattle.smt_term.specs.View.{plain_term};

    ghost from_gives = { λ truth term. plain_term term ≡ LiteralTerm (BoolLiteral truth) };

    fn from(truth: bool) -> Term {
        Term::Prim(TermPrim::Bool(truth))
    }
}

impl From<i64> for Term {
    ghost use Rattle.std.specs.Prelude.{◌≡◌};
    ghost use Rattle.law_numbers.specs.BitVectors.{bits_of};
    ghost use Rattle.law_terms.specs.Plain.{BitVecLiteral, LiteralTerm};
    ghost use Rattle.smt_term.specs.View.{plain_term};

    ghost from_gives = { λ number term.
        plain_term term ≡ LiteralTerm (BitVecLiteral 64 (bits_of 64 number)) };

    fn from(number: i64) -> Term {
        Term::from(BitVec::of_int(SIXTY_FOUR, i128::from(number)))
    }
}

impl From<BitVec> for Term {
    ghost use Rattle.std.specs.Prelude.{◌≡◌};
    ghost use Rattle.smt_bits.specs.BitVec.{number_of, width_of};
    ghost use Rattle.law_terms.specs.Plain.{BitVecLiteral, LiteralTerm};
    ghost use Rattle.smt_term.specs.View.{plain_term};

    ghost from_gives = { λ bits term.
        plain_term term ≡ LiteralTerm (BitVecLiteral (width_of bits) (number_of bits)) };

    fn from(bits: BitVec) -> Term {
        Term::Prim(TermPrim::Bitvec(bits))
    }
}

impl From<EntityUID> for Term {
    ghost use Rattle.std.specs.Prelude.{◌≡◌};
    ghost use Rattle.law_terms.specs.Plain.{EntityLiteral, LiteralTerm};
    ghost use Rattle.smt_term.specs.Entities.{bytes_of_id, bytes_of_type};
    ghost use Rattle.smt_term.specs.View.{plain_term};

    ghost from_gives = { λ entity term.
        plain_term term
        ≡ LiteralTerm (EntityLiteral (bytes_of_type entity.ety) (bytes_of_id entity.id)) };

    fn from(entity: EntityUID) -> Term {
        Term::Prim(TermPrim::Entity(entity))
    }
}

impl From<Ext> for Term {
    ghost use Rattle.std.specs.Prelude.{◌≡◌};
    ghost use Rattle.smt_ext.specs.ExtOrder.{plain_value};
    ghost use Rattle.law_terms.specs.Plain.{ExtensionLiteral, LiteralTerm};
    ghost use Rattle.smt_term.specs.View.{plain_term};

    ghost from_gives = { λ value term.
        plain_term term ≡ LiteralTerm (ExtensionLiteral (plain_value value)) };

    fn from(value: Ext) -> Term {
        Term::Prim(TermPrim::Ext(value))
    }
}

impl From<Text> for Term {
    ghost use Rattle.std.specs.Prelude.{◌≡◌};
    ghost use Rattle.std.specs.Rc.{rc_str_bytes};
    ghost use Rattle.law_terms.specs.Plain.{LiteralTerm, StringLiteral};
    ghost use Rattle.smt_term.specs.View.{plain_term};

    ghost from_gives = { λ text term.
        plain_term term ≡ LiteralTerm (StringLiteral (rc_str_bytes text)) };

    fn from(text: Text) -> Term {
        Term::Prim(TermPrim::String(text))
    }
}

impl From<TermVar> for Term {
    ghost use Rattle.std.specs.Prelude.{◌≡◌};
    ghost use Rattle.smt_term.specs.View.{plain_term, plain_variable};

    ghost from_gives = { λ variable term. plain_term term ≡ plain_variable variable };

    fn from(variable: TermVar) -> Term {
        Term::Var(variable)
    }
}
