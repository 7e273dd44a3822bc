// Values and tables of values, read from the expressions that stand for them.
ghost use Rattle.std.specs.Prelude.{◌≡◌, ◌↔◌, ◌++◌, ◌∷◌, [], List, IfOk, IsOkUnless, IsTrue, map};
ghost use Rattle.std.specs.Prelude.{option_map};
ghost use Rattle.std.specs.List.{list_all};
ghost use Rattle.std.specs.Map.{lookup};
ghost use Rattle.std.specs.Rc.{rc_str_bytes};
ghost use Rattle.std.specs.Result.{result_ok};
ghost use Rattle.law_assignments.specs.Entries as stated;
ghost use Rattle.law_assignments.specs.Outcomes.{DuplicateEntry, NoValue, UnknownEntry};
ghost use Rattle.law_assignments.specs.Outcomes.{unless_given};
ghost use Rattle.law_folding.specs.Built.{built};
ghost use Rattle.law_jobs.specs.Declarations.{Declared as Stated};
ghost use Rattle.law_jobs.specs.Terms.{term_of};
ghost use Rattle.law_terms.specs.Faults.{is_string};
ghost use Rattle.law_terms.specs.Plain.{EntityLiteral, LiteralTerm, PlainTerm, RecordTerm};
ghost use Rattle.law_terms.specs.Plain.{record_fields, terms as in_order};
ghost use Rattle.law_terms.specs.Reached.{subterms, subterms_of_all, subterms_of_fields};
ghost use Rattle.law_terms.specs.TermOrder.{term_eq};
ghost use Rattle.law_texts.specs.Outcomes.{demanded};
ghost use Rattle.smt_jobs.specs.JobView.{plain_job};
ghost use Rattle.law_jobs.specs.Jobs.{declarations_of};
ghost use Rattle.smt_sexpr.specs.View.{plain};
ghost use Rattle.smt_term.specs.Functions.{plain_definition};
ghost use Rattle.smt_term.specs.Tables.{plain_entry};
ghost use Rattle.smt_term.specs.View.{plain_fields, plain_literal, plain_term, plain_terms};
ghost use Rattle.smt_term.specs.View.{plain_type};
ghost use Rattle.smt_term.specs.Entities.{bytes_of_id, bytes_of_type};
ghost use Rattle.smt_term.specs.Enums.{enums_of};
ghost use Rattle.smt_term.specs.ExtensionView.{plain_extension_op};
ghost use Rattle.smt_eval.specs.InputRefused.{IsInputReadAs};
ghost use Rattle.smt_eval.specs.ReaderView.{ComesToBe, HasKeys, IsInputFault, ReadsFor, takes_key};
ghost use Rattle.smt_eval.specs.WrittenView.{plain_pair, plain_written_table};

use crate::error::EvalError;
use crate::evaluation::is_of_other_family;
use crate::written::WrittenTable;
use smt_job_terms::{Declared, JobError, term_from};
use smt_jobs::Job;
use smt_sexpr::SExpr;
use smt_term::{
    EntityUID, EnumTable, ExtOp, Term, TermMap, TermPrim, TermTable, TermType, Text, Udf,
};
use std::alloc::Global;
use std::collections::BTreeSet;

/// The greatest code point of a character in a string of SMT-LIB 2.7 (theory UnicodeStrings).
const GREATEST_CHARACTER: u32 = 196_607;

/// The refusal of a name that nothing has.
pub(crate) fn unknown(name: &Text) -> EvalError
    ensures { IsInputFault result (UnknownEntry (rc_str_bytes name.now)) }
{
    match name.clone() {
        Ok(name) => EvalError::UnknownName(name),
        Err(_) => EvalError::Memory,
    }
}

/// The refusal of what is given twice in the entry of a name, or by two.
pub(crate) fn duplicate(name: &Text) -> EvalError
    ensures { IsInputFault result (DuplicateEntry (rc_str_bytes name.now)) }
{
    match name.clone() {
        Ok(name) => EvalError::DuplicateName(name),
        Err(_) => EvalError::Memory,
    }
}

/// The refusal of what is no value in the entry of a name.
fn not_value(name: &Text) -> EvalError
    ensures { IsInputFault result (NoValue (rc_str_bytes name.now)) }
{
    match name.clone() {
        Ok(name) => EvalError::NotValue(name),
        Err(_) => EvalError::Memory,
    }
}

/// Whether an error is a want of memory, and no fault.
pub(crate) fn is_want(error: &JobError) -> bool
    ensures { IsTrue result ↔ (error.now ≡ JobError.Memory) }
{
    match error {
        JobError::Memory => true,
        _ => false,
    }
}

/// Whether a string of SMT-LIB may hold each character.
fn is_string(text: &Text) -> bool
    ensures { result ≡ is_string (rc_str_bytes text.now) }
{
    text.as_str()
        .chars()
        .all(|c| u32::from(c) <= GREATEST_CHARACTER)
}

/// Whether an entity of an enum type is a member, and one of no enum type has an id that strings can have.
fn is_faultless_entity(enums: &EnumTable, entity: &EntityUID) -> bool
    ensures { result
        ≡ stated.is_faultless_leaf (enums_of enums.now)
        (LiteralTerm (EntityLiteral (bytes_of_type entity.now.ety) (bytes_of_id entity.now.id))) }
{
    match enums.members_of(&entity.ety) {
        Some(members) => members.contains(&entity.id.0),
        None => is_string(&entity.id.0),
    }
}

/// Whether a literal is faultless by itself.
fn is_faultless_literal(enums: &EnumTable, literal: &TermPrim) -> bool
    ensures { result
        ≡ stated.is_faultless_leaf (enums_of enums.now) (LiteralTerm (plain_literal literal.now)) }
{
    match literal {
        TermPrim::Entity(entity) => is_faultless_entity(enums, entity),
        TermPrim::String(text) => is_string(text),
        TermPrim::Bitvec(_) | TermPrim::Bool(_) | TermPrim::Ext(_) => true,
    }
}

/// Whether all parts of the terms are faultless.
#[cycle(leaves)]
fn are_faultless(enums: &EnumTable, terms: &[Term]) -> bool
    ensures { result
        ≡ list_all (stated.is_faultless_leaf (enums_of enums.now))
        (subterms_of_all (in_order (plain_terms terms.now))) }
{
    for term in terms {
        if !is_faultless(enums, term) {
            return false;
        }
    }
    true
}

/// Whether all parts of the terms of attributes are faultless.
#[cycle(leaves)]
fn are_faultless_fields(enums: &EnumTable, fields: &TermMap) -> bool
    ensures { result
        ≡ list_all (stated.is_faultless_leaf (enums_of enums.now))
        (subterms_of_fields (record_fields (plain_fields fields.now))) }
{
    for (_, term) in fields.items() {
        if !is_faultless(enums, term) {
            return false;
        }
    }
    true
}

/// Whether all parts of a term are faultless: entities of enum types are members, and texts are such as strings can have.
#[cycle(leaves)]
fn is_faultless(enums: &EnumTable, term: &Term) -> bool
    ensures { result
        ≡ list_all (stated.is_faultless_leaf (enums_of enums.now))
        (subterms (plain_term term.now)) }
{
    match term {
        Term::App { args, .. } => are_faultless(enums, args.items()),
        Term::None(_) | Term::Var(_) => true,
        Term::Prim(literal) => is_faultless_literal(enums, literal),
        Term::Record(fields) => are_faultless_fields(enums, fields),
        Term::Set { elts, .. } => are_faultless(enums, elts.items()),
        Term::Some(inside) => is_faultless(enums, inside),
    }
}

/// Whether a term is a value of a type: a literal of it whose parts are faultless.
fn is_value(alloc: Global, enums: &EnumTable, ty: &TermType, term: &Term) -> Result<bool, EvalError>
    ensures value { IfOk result (λ value.
        value ≡ stated.is_value (enums_of enums.now) (plain_type ty.now) (plain_term term.now)) }
    ensures refusal { IsOkUnless result EvalError.Memory }
{
    if !term.is_literal() {
        return Ok(false);
    }
    let own = term.type_of(alloc)?;
    Ok(own.is_same_as(ty) && is_faultless(enums, term))
}

/// Whether a table takes a key: that of a selector takes ranges of the other family, and every other table all keys.
fn takes_key(selector: Option<ExtOp>, key: &Term) -> bool
    ensures { result ≡ takes_key (option_map plain_extension_op selector) (plain_term key.now) }
{
    match selector {
        Some(op) => is_of_other_family(op, key),
        None => true,
    }
}

/// The types of a table's keys and of its values, and the selector whose table it is, if it is one's.
#[derive(Clone, Copy)]
pub(crate) struct TableForm<'f> {
    pub arg: &'f TermType,
    pub out: &'f TermType,
    pub selector: Option<ExtOp>,
}

/// What values are read by: what the job declares, and its enum types.
#[derive(Drop)]
pub(crate) struct Reader<'j> {
    pub alloc: Global,
    pub declared: Declared,
    pub enums: &'j EnumTable,
}

impl<'j> Reader<'j> {
    /// The reader of values of what a job declares.
    pub fn new(alloc: Global, job: &'j Job) -> Result<Reader<'j>, EvalError>
        ensures reads { IfOk result
            (λ reader. ReadsFor reader (declarations_of (plain_job job.now))) }
        ensures refusal { IsOkUnless result EvalError.Memory }
    {
        match job.declared(alloc) {
            Ok(declared) => Ok(Reader {
                alloc,
                declared,
                enums: &job.enums,
            }),
            Err(_) => Err(EvalError::Memory),
        }
    }

    /// The term that an expression states, as it is built, where it states one.
    fn term(&self, expression: &SExpr) -> Result<Option<Term>, EvalError>
        ensures stated { (ds : Stated) → ReadsFor self.now ds →
            IfOk result (λ term.
            option_map plain_term term
            ≡ option_map built (result_ok (term_of ds (plain expression.now)))) }
        ensures refusal { IsOkUnless result EvalError.Memory }
    {
        match term_from(self.alloc, &self.declared, expression) {
            Ok(term) => Ok(Some(term)),
            Err(error) => {
                if is_want(&error) {
                    Err(EvalError::Memory)
                } else {
                    Ok(None)
                }
            }
        }
    }

    /// The value of a type that an expression states, where it states one that the table of a selector takes as a key.
    fn value_for(
        &self,
        ty: &TermType,
        selector: Option<ExtOp>,
        expression: &SExpr,
    ) -> Result<Option<Term>, EvalError>
        ensures stated { (ds : Stated) → ReadsFor self.now ds →
            IfOk result (λ value.
            option_map plain_term value
            ≡ stated.value_in ds (plain_type ty.now)
            (takes_key (option_map plain_extension_op selector)) (plain expression.now)) }
        ensures refusal { IsOkUnless result EvalError.Memory }
    {
        let Some(term) = self.term(expression)? else {
            return Ok(None);
        };
        if is_value(self.alloc, self.enums, ty, &term)? && takes_key(selector, &term) {
            Ok(Some(term))
        } else {
            Ok(None)
        }
    }

    /// The value of a type that an expression states in the entry of a name.
    pub fn value(&self, name: &Text, ty: &TermType, expression: &SExpr) -> Result<Term, EvalError>
        ensures { (ds : Stated) → ReadsFor self.now ds →
            IsInputReadAs plain_term result (stated.value_of ds (rc_str_bytes name.now)
            (plain_type ty.now) (plain expression.now)) }
    {
        match self.value_for(ty, None, expression)? {
            Some(value) => Ok(value),
            None => Err(not_value(name)),
        }
    }

    /// A key of a table that it takes.
    fn key(&self, name: &Text, form: &TableForm<'_>, expression: &SExpr) -> Result<Term, EvalError>
        ensures { (ds : Stated) → ReadsFor self.now ds →
            IsInputReadAs plain_term result (demanded (NoValue (rc_str_bytes name.now))
            (stated.value_in ds (plain_type form.now.arg.now)
            (takes_key (option_map plain_extension_op form.now.selector)) (plain expression.now))) }
    {
        match self.value_for(form.arg, form.selector, expression)? {
            Some(key) => Ok(key),
            None => Err(not_value(name)),
        }
    }

    /// The pairs of key and value of a table, in the order in which they stand.
    fn pairs(
        &self,
        name: &Text,
        form: &TableForm<'_>,
        entries: &[(&SExpr, &SExpr)],
    ) -> Result<Vec<(Term, Term)>, EvalError>
        ensures { (ds : Stated) → ReadsFor self.now ds →
            IsInputReadAs (λ pairs. map plain_entry pairs.items) result
            (stated.given_by
            (stated.pair_of ds (rc_str_bytes name.now) (plain_type form.now.arg.now)
            (plain_type form.now.out.now)
            (takes_key (option_map plain_extension_op form.now.selector)))
            [] (map plain_pair entries.now)) }
    {
        let mut keys = BTreeSet::new(self.alloc);
        let mut pairs = Vec::new(self.alloc);
        for &(key, value) in entries {
            let key = self.key(name, form, key)?;
            enter_key(&mut keys, name, &key)?;
            let value = self.value(name, form.out, value)?;
            pairs.push((key, value))?;
        }
        Ok(pairs)
    }

    /// The table that is written, its entries in the order of their keys.
    pub fn table(&self, form: &TableForm<'_>, written: &WrittenTable<'_>) -> Result<Udf, EvalError>
        ensures { (ds : Stated) → ReadsFor self.now ds →
            IsInputReadAs plain_definition result (stated.table_of ds (plain_type form.now.arg.now)
            (plain_type form.now.out.now)
            (takes_key (option_map plain_extension_op form.now.selector))
            (plain_written_table written.now)) }
    {
        let default = self.value(written.name, form.out, written.elsewhere)?;
        let pairs = self.pairs(written.name, form, written.entries.as_slice())?;
        Ok(Udf {
            arg: form.arg.share()?,
            out: form.out.share()?,
            table: TermTable::new(self.alloc, pairs.as_slice())?,
            default,
        })
    }
}

/// Enters a key that no pair has yet.
fn enter_key(keys: &mut BTreeSet<Term>, name: &Text, key: &Term) -> Result<(), EvalError>
    ensures { (pairs : List (PlainTerm × PlainTerm)) → HasKeys keys.old pairs →
        ComesToBe (λ n. (v : PlainTerm) → HasKeys keys.new (pairs ++ (plain_term key.now, v) ∷ []))
        result
        (unless_given (lookup (term_eq (plain_term key.now)) pairs) (rc_str_bytes name.now)) }
{
    if keys.insert(key.share()?)? {
        Ok(())
    } else {
        Err(duplicate(name))
    }
}
