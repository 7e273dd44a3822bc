#![tactic(auto, using(crate::specs::View::views), unfolding(crate::specs::TypeView::plain_type, crate::specs::View::plain_term))]
// The types of terms, and which terms are typed.
ghost use Rattle.std.specs.Prelude.{◌≡◌, ◌↔◌, ◌∷◌, [], IsTrue, bytes_eq, is_some, map, option_map};
ghost use Rattle.std.specs.List.{list_all};
ghost use Rattle.std.specs.Rc.{rc_str_bytes};
ghost use Rattle.smt_bits.specs.Width.{bits_in};
ghost use Rattle.law_terms.specs.Literals.{is_literal};
ghost use Rattle.law_terms.specs.Plain.{EntityType as EntityTypeOf, OptionType, RecordType};
ghost use Rattle.law_terms.specs.Plain.{SetType, attribute_types, record_fields};
ghost use Rattle.law_terms.specs.TermOrder.{term_cmp};
ghost use Rattle.law_terms.specs.Types.{attribute_type, extended_type, extension_signature};
ghost use Rattle.law_terms.specs.Types.{field_types, inner_type, is_set, is_type};
ghost use Rattle.law_terms.specs.Types.{literal_type, result_type, type_eq, type_of, width_in};
ghost use Rattle.law_terms.specs.Typing.{Typed, typed};
ghost use Rattle.law_terms.specs.ValueOrder.{ascends, is_below};
ghost use Rattle.smt_term.specs.Entities.{bytes_of_type};
ghost use Rattle.smt_term.specs.ExtensionView.{plain_extension_op};
ghost use Rattle.smt_term.specs.View.{plain_attributes, plain_fields, plain_literal, plain_op};
ghost use Rattle.smt_term.specs.View.{plain_term, plain_terms, plain_type};
ghost use Rattle.smt_term.specs.TypeView.{BuildsType};

use crate::maps::TermMap;
use crate::op::{Op, OpClass};
use crate::term::{Term, TermPrim};
use crate::{Attr, EntityType, ExtOp, ExtType, TermError, TermType, TypeMap};
use smt_bits::{FIVE, HUNDRED_TWENTY_EIGHT, SEVEN, SIXTY_FOUR, THIRTY_TWO, Width};
use smt_text::share_text;
use std::alloc::Global;

impl TermPrim {
    /// The type of the literal.
    ///
    /// # Errors
    /// `Memory`, where there is none for the type.
    pub fn type_of(&self) -> Result<TermType, TermError>
        ensures { BuildsType result (literal_type (plain_literal self.now)) }
    {
        match self {
            TermPrim::Bitvec(bits) => Ok(TermType::Bitvec { n: bits.width() }),
            TermPrim::Bool(_) => Ok(TermType::Bool),
            TermPrim::Entity(entity) => Ok(TermType::Entity {
                ety: entity.ety.share()?,
            }),
            TermPrim::Ext(value) => Ok(TermType::Ext {
                xty: ExtType::of(value),
            }),
            TermPrim::String(_) => Ok(TermType::String),
        }
    }

    // How many bits it has, where it is a bitvector.
    fn width(&self) -> Option<Width>
        ensures { option_map bits_in result ≡ width_in (literal_type (plain_literal self.now)) }
    {
        match self {
            TermPrim::Bitvec(bits) => Some(bits.width()),
            TermPrim::Bool(_) | TermPrim::Entity(_) | TermPrim::Ext(_) | TermPrim::String(_) =>
                None,
        }
    }

    // Whether this is the literal's type.
    fn is_of_type(&self, ty: &TermType) -> bool
        ensures same { result
            ≡ type_eq (literal_type (plain_literal self.now)) (plain_type ty.now) }
        ensures turned { result
            ≡ type_eq (plain_type ty.now) (literal_type (plain_literal self.now)) }
    {
        match self {
            TermPrim::Bitvec(bits) => TermType::Bitvec { n: bits.width() }.is_same_as(ty),
            TermPrim::Bool(_) => TermType::Bool.is_same_as(ty),
            TermPrim::Entity(entity) => ty.is_of_entities(&entity.ety),
            TermPrim::Ext(value) => {
                let xty = ExtType::of(value);
                TermType::Ext { xty }.is_same_as(ty)
            }
            TermPrim::String(_) => TermType::String.is_same_as(ty),
        }
    }

    // Whether it is an entity of this type.
    fn is_entity_of(&self, ety: &EntityType) -> bool
        ensures { result
            ≡ type_eq (EntityTypeOf (bytes_of_type ety.now))
            (literal_type (plain_literal self.now)) }
    {
        match self {
            TermPrim::Entity(entity) => *ety == entity.ety,
            TermPrim::Bitvec(_) | TermPrim::Bool(_) | TermPrim::Ext(_) | TermPrim::String(_) =>
                false,
        }
    }
}

impl Term {
    /// The type of the term: of an application the one that it claims, of none and of a set by the type that they name, and
    /// of some and of a record by the terms that they hold.
    ///
    /// # Examples
    ///
    /// ```
    /// use kembura::{Term, TermType};
    ///
    /// let ty = Term::from(true).type_of(alloc)?;
    /// assert_eq!(rt; ty, TermType::Bool);
    /// ```
    ///
    /// # Errors
    /// `Memory`, where there is none for the type.
    pub fn type_of(&self, alloc: Global) -> Result<TermType, TermError>
        ensures { BuildsType result (type_of (plain_term self.now)) }
    {
        match self {
            Term::App { ret_ty, .. } => Ok(ret_ty.share()?),
            Term::None(inner) => TermType::option_of(alloc, inner.share()?),
            Term::Prim(literal) => Ok(literal.type_of()?),
            Term::Record(fields) => {
                let fields = fields.items();
                let mut types = Vec::with_capacity(alloc, fields.len())?;
                for (name, field) in fields {
                    types.push((share_text(name)?, field.type_of(alloc)?))?;
                }
                Ok(TermType::Record {
                    rty: TypeMap::of_ascending(alloc, types)?,
                })
            }
            Term::Set { elts_ty, .. } => TermType::set_of(alloc, elts_ty.share()?),
            Term::Some(inner) => TermType::option_of(alloc, inner.type_of(alloc)?),
            Term::Var(variable) => Ok(variable.ty.share()?),
        }
    }

    /// Whether there is no variable and no application in it.
    pub fn is_literal(&self) -> bool
        ensures { result ≡ is_literal (plain_term self.now) }
    {
        match self {
            Term::App { .. } | Term::Var(_) => false,
            Term::None(_) | Term::Prim(_) => true,
            Term::Record(fields) => {
                let fields = fields.items();
                for (_, field) in fields {
                    if !field.is_literal() {
                        return false;
                    }
                }
                true
            }
            Term::Set { elts, .. } => {
                for element in elts.items() {
                    if !element.is_literal() {
                        return false;
                    }
                }
                true
            }
            Term::Some(inner) => inner.is_literal(),
        }
    }

    /// Whether each application in it has the argument types of its operator and its result type, and each set elements of
    /// its type, in order. Takes no memory.
    ///
    /// # Examples
    ///
    /// ```
    /// use kembura::{Op, Term, TermList, TermType};
    ///
    /// let args = TermList::new(alloc, &[Term::from(7i64)])?;
    /// let (op, ret_ty) = (Op::Not, TermType::Bool);
    /// let no_negation = Term::App { op, args, ret_ty };
    /// assert!(rt; !no_negation.well_typed());
    /// ```
    pub fn well_typed(&self) -> bool
        ensures { result ≡ typed (plain_term self.now) }
    {
        match self {
            Term::App { op, args, ret_ty } => {
                let args = args.items();
                for arg in args {
                    if !arg.well_typed() {
                        return false;
                    }
                }
                op.takes(args) && op.gives(args, ret_ty)
            }
            Term::None(_) | Term::Prim(_) | Term::Var(_) => true,
            Term::Record(fields) => {
                let fields = fields.items();
                for (_, field) in fields {
                    if !field.well_typed() {
                        return false;
                    }
                }
                true
            }
            Term::Set { elts_ty, elts } => {
                let elements = elts.items();
                for element in elements {
                    if !element.well_typed() {
                        return false;
                    }
                }
                are_of_type(elements, elts_ty) && ascend(elements)
            }
            Term::Some(inner) => inner.well_typed(),
        }
    }

    /// Whether it is well typed and of this type. Takes no memory.
    pub fn has_type(&self, ty: &TermType) -> bool
        ensures { IsTrue result ↔ Typed (plain_term self.now) (plain_type ty.now) }
    {
        self.well_typed() && self.is_of_type(ty)
    }

    // How many bits it has, where it is a bitvector.
    fn width(&self) -> Option<Width>
        ensures { option_map bits_in result ≡ width_in (type_of (plain_term self.now)) }
    {
        match self {
            Term::App { ret_ty, .. } => ret_ty.width(),
            Term::None(_) | Term::Record(_) | Term::Set { .. } | Term::Some(_) => None,
            Term::Prim(literal) => literal.width(),
            Term::Var(variable) => variable.ty.width(),
        }
    }

    // Whether it is a set.
    fn is_set(&self) -> bool
        ensures { result ≡ is_set (type_of (plain_term self.now)) }
    {
        match self {
            Term::App { ret_ty, .. } => ret_ty.is_set(),
            Term::None(_) | Term::Prim(_) | Term::Record(_) | Term::Some(_) => false,
            Term::Set { .. } => true,
            Term::Var(variable) => variable.ty.is_set(),
        }
    }

    // Whether it is an option.
    fn is_option(&self) -> bool
        ensures { result ≡ is_some (inner_type (type_of (plain_term self.now))) }
    {
        match self {
            Term::App { ret_ty, .. } => ret_ty.is_option_type(),
            Term::None(_) | Term::Some(_) => true,
            Term::Prim(_) | Term::Record(_) | Term::Set { .. } => false,
            Term::Var(variable) => variable.ty.is_option_type(),
        }
    }

    // Whether this is the term's type.
    #[cycle(of_type)]
    fn is_of_type(&self, ty: &TermType) -> bool
        ensures same { result ≡ type_eq (type_of (plain_term self.now)) (plain_type ty.now) }
        ensures turned { result ≡ type_eq (plain_type ty.now) (type_of (plain_term self.now)) }
    {
        match self {
            Term::App { ret_ty, .. } => ret_ty.is_same_as(ty),
            Term::None(inner) => inner.is_inside(ty),
            Term::Prim(literal) => literal.is_of_type(ty),
            Term::Record(fields) => match ty {
                TermType::Record { rty } => fields.is_of_types(rty),
                TermType::Option { .. }
                | TermType::Bitvec { .. }
                | TermType::Bool
                | TermType::Entity { .. }
                | TermType::Ext { .. }
                | TermType::String
                | TermType::Set { .. } => false,
            },
            Term::Set { elts_ty, .. } => elts_ty.is_element_in(ty),
            Term::Some(inner) => match ty {
                TermType::Option { ty } => inner.is_of_type(ty),
                TermType::Bitvec { .. }
                | TermType::Bool
                | TermType::Entity { .. }
                | TermType::Ext { .. }
                | TermType::String
                | TermType::Record { .. }
                | TermType::Set { .. } => false,
            },
            Term::Var(variable) => variable.ty.is_same_as(ty),
        }
    }

    // Whether the type is that of options of the term's type.
    fn is_inside(&self, option: &TermType) -> bool
        ensures { result
            ≡ type_eq (OptionType (type_of (plain_term self.now))) (plain_type option.now) }
    {
        match option {
            TermType::Option { ty } => self.is_of_type(ty),
            TermType::Bitvec { .. }
            | TermType::Bool
            | TermType::Entity { .. }
            | TermType::Ext { .. }
            | TermType::String
            | TermType::Record { .. }
            | TermType::Set { .. } => { false }
        }
    }

    // Whether it is an option of values of this type.
    fn is_option_of(&self, inner: &TermType) -> bool
        ensures { result
            ≡ is_type (inner_type (type_of (plain_term self.now))) (plain_type inner.now) }
    {
        match self {
            Term::App { ret_ty, .. } => ret_ty.is_option_of(inner),
            Term::None(own) => own.is_same_as(inner),
            Term::Prim(_) | Term::Record(_) | Term::Set { .. } => false,
            Term::Some(own) => own.is_of_type(inner),
            Term::Var(variable) => variable.ty.is_option_of(inner),
        }
    }

    // Whether it is a record with this attribute.
    fn has_attribute(&self, name: &Attr) -> bool
        ensures { result
            ≡ is_some (attribute_type (rc_str_bytes name.now) (type_of (plain_term self.now))) }
    {
        match self {
            Term::App { ret_ty, .. } => ret_ty.has_attribute(name),
            Term::Record(fields) => fields.get(name).is_some(),
            Term::None(_) | Term::Prim(_) | Term::Set { .. } | Term::Some(_) => false,
            Term::Var(variable) => variable.ty.has_attribute(name),
        }
    }

    // Whether it is a record with this attribute, of this type.
    fn has_attribute_of(&self, name: &Attr, ty: &TermType) -> bool
        ensures { result
            ≡ is_type (attribute_type (rc_str_bytes name.now) (type_of (plain_term self.now)))
            (plain_type ty.now) }
    {
        match self {
            Term::App { ret_ty, .. } => ret_ty.has_attribute_of(name, ty),
            Term::Record(fields) => match fields.get(name) {
                Some(own) => own.is_of_type(ty),
                None => false,
            },
            Term::None(_) | Term::Prim(_) | Term::Set { .. } | Term::Some(_) => false,
            Term::Var(variable) => variable.ty.has_attribute_of(name, ty),
        }
    }

    // Whether the term is a set of values of this one's type.
    fn is_element_of(&self, set: &Term) -> bool
        ensures { result
            ≡ type_eq (type_of (plain_term set.now)) (SetType (type_of (plain_term self.now))) }
    {
        match set {
            Term::App { ret_ty, .. } => self.is_element_in(ret_ty),
            Term::None(_) | Term::Prim(_) | Term::Record(_) | Term::Some(_) => false,
            Term::Set { elts_ty, .. } => self.is_of_type(elts_ty),
            Term::Var(variable) => self.is_element_in(&variable.ty),
        }
    }

    fn is_element_in(&self, set: &TermType) -> bool
        ensures { result ≡ type_eq (plain_type set.now) (SetType (type_of (plain_term self.now))) }
    {
        match set {
            TermType::Set { ty } => self.is_of_type(ty),
            TermType::Option { .. }
            | TermType::Bitvec { .. }
            | TermType::Bool
            | TermType::Entity { .. }
            | TermType::Ext { .. }
            | TermType::String
            | TermType::Record { .. } => false,
        }
    }

    // Whether it is a bitvector that has at most 128 bits when it gets this many more.
    fn can_grow_by(&self, bits: u32) -> bool
        ensures { result ≡ is_some (extended_type bits (type_of (plain_term self.now))) }
    {
        match self.width() {
            Some(width) => bits <= 128 - width.get(),
            None => false,
        }
    }

    // Whether the type is that of bitvectors of this many bits more.
    fn is_shorter_by(&self, bits: u32, ty: &TermType) -> bool
        ensures { IsTrue (is_some (extended_type bits (type_of (plain_term self.now)))) →
            result
            ≡ is_type (extended_type bits (type_of (plain_term self.now))) (plain_type ty.now) }
    {
        let Some(short) = self.width() else {
            return false;
        };
        let Some(long) = ty.width() else {
            return false;
        };
        short.get() <= long.get() && long.get() - short.get() == bits
    }

    // Whether both terms have one type.
    #[cycle(typed_as)]
    fn is_typed_as(&self, other: &Term) -> bool
        ensures { result
            ≡ type_eq (type_of (plain_term self.now)) (type_of (plain_term other.now)) }
    {
        match self {
            Term::App { ret_ty, .. } => other.is_of_type(ret_ty),
            Term::None(inner) => other.is_option_beside(inner),
            Term::Prim(literal) => other.is_typed_as_literal(literal),
            Term::Record(fields) => match other {
                Term::App { ret_ty, .. } => self.is_of_type(ret_ty),
                Term::Record(own) => fields.is_typed_as(own),
                Term::None(_) | Term::Prim(_) | Term::Set { .. } | Term::Some(_) => false,
                Term::Var(variable) => self.is_of_type(&variable.ty),
            },
            Term::Set { elts_ty, .. } => other.is_set_beside(elts_ty),
            Term::Some(inner) => match other {
                Term::App { ret_ty, .. } => inner.is_inside(ret_ty),
                Term::None(ty) => inner.is_of_type(ty),
                Term::Prim(_) | Term::Record(_) | Term::Set { .. } => false,
                Term::Some(own) => inner.is_typed_as(own),
                Term::Var(variable) => inner.is_inside(&variable.ty),
            },
            Term::Var(variable) => other.is_of_type(&variable.ty),
        }
    }

    // Whether its type is that of options of values of this one.
    fn is_option_beside(&self, inner: &TermType) -> bool
        ensures { result
            ≡ type_eq (OptionType (plain_type inner.now)) (type_of (plain_term self.now)) }
    {
        match self {
            Term::App { ret_ty, .. } => inner.is_inside(ret_ty),
            Term::None(own) => inner.is_same_as(own),
            Term::Prim(_) | Term::Record(_) | Term::Set { .. } => false,
            Term::Some(own) => own.is_of_type(inner),
            Term::Var(variable) => inner.is_inside(&variable.ty),
        }
    }

    // Whether its type is that of sets of values of this one.
    fn is_set_beside(&self, element: &TermType) -> bool
        ensures { result
            ≡ type_eq (SetType (plain_type element.now)) (type_of (plain_term self.now)) }
    {
        match self {
            Term::App { ret_ty, .. } => element.is_element_in(ret_ty),
            Term::None(_) | Term::Prim(_) | Term::Record(_) | Term::Some(_) => false,
            Term::Set { elts_ty, .. } => element.is_same_as(elts_ty),
            Term::Var(variable) => element.is_element_in(&variable.ty),
        }
    }

    fn is_typed_as_literal(&self, literal: &TermPrim) -> bool
        ensures { result
            ≡ type_eq (literal_type (plain_literal literal.now)) (type_of (plain_term self.now)) }
    {
        match literal {
            TermPrim::Bitvec(bits) => self.is_of_type(&TermType::Bitvec { n: bits.width() }),
            TermPrim::Bool(_) => self.is_of_type(&TermType::Bool),
            TermPrim::Entity(entity) => self.is_entity_of(&entity.ety),
            TermPrim::Ext(value) => {
                let xty = ExtType::of(value);
                self.is_of_type(&TermType::Ext { xty })
            }
            TermPrim::String(_) => self.is_of_type(&TermType::String),
        }
    }

    // Whether it is an entity of this type.
    fn is_entity_of(&self, ety: &EntityType) -> bool
        ensures { result
            ≡ type_eq (EntityTypeOf (bytes_of_type ety.now)) (type_of (plain_term self.now)) }
    {
        match self {
            Term::App { ret_ty, .. } => ret_ty.is_of_entities(ety),
            Term::None(_) | Term::Record(_) | Term::Set { .. } | Term::Some(_) => false,
            Term::Prim(literal) => literal.is_entity_of(ety),
            Term::Var(variable) => variable.ty.is_of_entities(ety),
        }
    }
}

impl TermMap {
    // Whether the attributes are those of the terms, each with its term's type.
    #[cycle(of_type)]
    fn is_of_types(&self, types: &TypeMap) -> bool
        ensures same { result
            ≡ type_eq (RecordType (field_types (record_fields (plain_fields self.now))))
            (RecordType (attribute_types (plain_attributes types.now))) }
        ensures turned { result
            ≡ type_eq (RecordType (attribute_types (plain_attributes types.now)))
            (RecordType (field_types (record_fields (plain_fields self.now)))) }
    {
        let fields = self.items();
        let types = types.items();
        if fields.len() != types.len() {
            return false;
        }
        for i in 0..fields.len() {
            let (name, field) = &fields[i];
            let (own, ty) = &types[i];
            if !is_same_attribute(name, own) {
                return false;
            }
            if !field.is_of_type(ty) {
                return false;
            }
        }
        true
    }

    // Whether the attributes of both are the same, and each has in both one type.
    #[cycle(typed_as)]
    fn is_typed_as(&self, others: &TermMap) -> bool
        ensures { result
            ≡ type_eq (RecordType (field_types (record_fields (plain_fields self.now))))
            (RecordType (field_types (record_fields (plain_fields others.now)))) }
    {
        let fields = self.items();
        let others = others.items();
        if fields.len() != others.len() {
            return false;
        }
        for i in 0..fields.len() {
            let (name, field) = &fields[i];
            let (own, other) = &others[i];
            if !is_same_attribute(name, own) {
                return false;
            }
            if !field.is_typed_as(other) {
                return false;
            }
        }
        true
    }
}

// The type that an operator of the extension types takes.
fn taken_by(op: ExtOp) -> TermType
    ensures { plain_type result ≡ (extension_signature (plain_extension_op op)).0 }
{
    match op {
        ExtOp::DatetimeOfBitVec | ExtOp::DurationOfBitVec => TermType::Bitvec { n: SIXTY_FOUR },
        ExtOp::DatetimeVal => TermType::Ext {
            xty: ExtType::DateTime,
        },
        ExtOp::DecimalVal => TermType::Ext {
            xty: ExtType::Decimal,
        },
        ExtOp::DurationVal => TermType::Ext {
            xty: ExtType::Duration,
        },
        ExtOp::IpaddrAddrV4
        | ExtOp::IpaddrAddrV6
        | ExtOp::IpaddrIsV4
        | ExtOp::IpaddrPrefixV4
        | ExtOp::IpaddrPrefixV6 => TermType::Ext {
            xty: ExtType::IpAddr,
        },
    }
}

// Whether an operator of the extension types gives this type.
fn is_given_by(op: ExtOp, ty: &TermType) -> bool
    ensures { result ≡ type_eq (extension_signature (plain_extension_op op)).1 (plain_type ty.now) }
{
    match op {
        ExtOp::DatetimeOfBitVec => TermType::Ext {
            xty: ExtType::DateTime,
        }
        .is_same_as(ty),
        ExtOp::DurationOfBitVec => TermType::Ext {
            xty: ExtType::Duration,
        }
        .is_same_as(ty),
        ExtOp::DatetimeVal | ExtOp::DecimalVal | ExtOp::DurationVal => {
            TermType::Bitvec { n: SIXTY_FOUR }.is_same_as(ty)
        }
        ExtOp::IpaddrAddrV4 => TermType::Bitvec { n: THIRTY_TWO }.is_same_as(ty),
        ExtOp::IpaddrAddrV6 => TermType::Bitvec {
            n: HUNDRED_TWENTY_EIGHT,
        }
        .is_same_as(ty),
        ExtOp::IpaddrIsV4 => TermType::Bool.is_same_as(ty),
        ExtOp::IpaddrPrefixV4 => TermType::Bitvec { n: FIVE }.is_inside(ty),
        ExtOp::IpaddrPrefixV6 => TermType::Bitvec { n: SEVEN }.is_inside(ty),
    }
}

// Whether both are one attribute.
fn is_same_attribute(name: &Attr, other: &Attr) -> bool
    ensures { result ≡ bytes_eq (rc_str_bytes name.now) (rc_str_bytes other.now) }
{
    name == other
}

// Whether each of the terms has this type.
fn are_of_type(terms: &[Term], ty: &TermType) -> bool
    ensures { result
        ≡ list_all (type_eq (plain_type ty.now)) (map type_of (plain_terms terms.now)) }
{
    for term in terms {
        if !term.is_of_type(ty) {
            return false;
        }
    }
    true
}

// Whether each of the terms is less than the next one.
fn ascend(terms: &[Term]) -> bool
    ensures { result ≡ ascends term_cmp (plain_terms terms.now) }
{
    let mut left = terms;
    while let Some((first, rest)) = left.split_first() {
        if !is_below(first, rest) {
            return false;
        }
        left = rest;
    }
    true
}

// Whether the term is less than the first of the others, where there is one.
fn is_below(term: &Term, others: &[Term]) -> bool
    ensures { result ≡ is_below term_cmp (plain_term term.now) (plain_terms others.now) }
{
    match others {
        [] => true,
        [next, ..] => term.cmp(next).is_lt(),
    }
}

impl Op {
    /// Whether the operator takes as many arguments, and of these types. Takes no memory.
    pub fn takes(&self, args: &[Term]) -> bool
        ensures { result
            ≡ is_some (result_type (plain_op self.now) (map type_of (plain_terms args.now))) }
    {
        match args {
            [a] => self.takes_one(a),
            [a, b] => self.takes_two(a, b),
            [condition, a, b] => self.takes_three(condition, a, b),
            _ => false,
        }
    }

    fn takes_one(&self, a: &Term) -> bool
        ensures { result
            ≡ is_some (result_type (plain_op self.now) (type_of (plain_term a.now) ∷ [])) }
    {
        match self {
            Op::Ext(op) => a.is_of_type(&taken_by(*op)),
            Op::Not => a.is_of_type(&TermType::Bool),
            Op::OptionGet => a.is_option(),
            Op::RecordGet(name) => a.has_attribute(name),
            Op::StringLike(_) => a.is_of_type(&TermType::String),
            Op::Uuf(function) => a.is_of_type(&function.arg),
            Op::Bvneg | Op::Bvnego => a.width().is_some(),
            Op::ZeroExtend(bits) => a.can_grow_by(*bits),
            _ => false,
        }
    }

    fn takes_two(&self, a: &Term, b: &Term) -> bool
        ensures { result
            ≡ is_some (result_type (plain_op self.now)
            (type_of (plain_term a.now) ∷ type_of (plain_term b.now) ∷ [])) }
    {
        match self.class() {
            OpClass::Bits | OpClass::Test => a.width().is_some() && a.is_typed_as(b),
            OpClass::Other => match self {
                Op::And | Op::Or => a.is_of_type(&TermType::Bool) && b.is_of_type(&TermType::Bool),
                Op::Eq => a.is_typed_as(b),
                Op::SetInter | Op::SetSubset => a.is_set() && a.is_typed_as(b),
                Op::SetMember => a.is_element_of(b),
                _ => false,
            },
        }
    }

    fn takes_three(&self, condition: &Term, a: &Term, b: &Term) -> bool
        ensures { result
            ≡ is_some (result_type (plain_op self.now) (type_of (plain_term condition.now)
            ∷ type_of (plain_term a.now) ∷ type_of (plain_term b.now) ∷ [])) }
    {
        match self {
            Op::Ite => condition.is_of_type(&TermType::Bool) && a.is_typed_as(b),
            _ => false,
        }
    }

    // Whether the operator gives this type to arguments that it takes.
    fn gives(&self, args: &[Term], ty: &TermType) -> bool
        ensures { IsTrue
            (is_some (result_type (plain_op self.now) (map type_of (plain_terms args.now)))) →
            result
            ≡ is_type (result_type (plain_op self.now) (map type_of (plain_terms args.now)))
            (plain_type ty.now) }
    {
        match args {
            [a] => self.gives_one(a, ty),
            [a, b] => self.gives_two(a, b, ty),
            [condition, a, b] => self.gives_three(condition, a, b, ty),
            _ => false,
        }
    }

    fn gives_one(&self, a: &Term, ty: &TermType) -> bool
        ensures { IsTrue
            (is_some (result_type (plain_op self.now) (type_of (plain_term a.now) ∷ []))) →
            result
            ≡ is_type (result_type (plain_op self.now) (type_of (plain_term a.now) ∷ []))
            (plain_type ty.now) }
    {
        match self {
            Op::Bvneg => a.is_of_type(ty),
            Op::Ext(op) => is_given_by(*op, ty),
            Op::OptionGet => a.is_option_of(ty),
            Op::RecordGet(name) => a.has_attribute_of(name, ty),
            Op::Uuf(function) => function.out.is_same_as(ty),
            Op::ZeroExtend(bits) => a.is_shorter_by(*bits, ty),
            _ => TermType::Bool.is_same_as(ty),
        }
    }

    fn gives_two(&self, a: &Term, b: &Term, ty: &TermType) -> bool
        ensures { IsTrue
            (is_some (result_type (plain_op self.now)
            (type_of (plain_term a.now) ∷ type_of (plain_term b.now) ∷ [])))
            →
            result
            ≡ is_type
            (result_type (plain_op self.now)
            (type_of (plain_term a.now) ∷ type_of (plain_term b.now) ∷ []))
            (plain_type ty.now) }
    {
        match self.class() {
            OpClass::Bits => a.is_of_type(ty),
            OpClass::Test => TermType::Bool.is_same_as(ty),
            OpClass::Other => match self {
                Op::SetInter => a.is_of_type(ty),
                _ => TermType::Bool.is_same_as(ty),
            },
        }
    }

    fn gives_three(&self, condition: &Term, a: &Term, b: &Term, ty: &TermType) -> bool
        ensures { IsTrue
            (is_some (result_type (plain_op self.now) (type_of (plain_term condition.now)
            ∷ type_of (plain_term a.now) ∷ type_of (plain_term b.now) ∷ [])))
            →
            result
            ≡ is_type
            (result_type (plain_op self.now) (type_of (plain_term condition.now)
            ∷ type_of (plain_term a.now) ∷ type_of (plain_term b.now) ∷ []))
            (plain_type ty.now) }
    {
        match self {
            Op::Ite => a.is_of_type(ty),
            _ => TermType::Bool.is_same_as(ty),
        }
    }
}
