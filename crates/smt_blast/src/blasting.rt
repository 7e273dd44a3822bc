// Old terms to new ones.
ghost use Rattle.std.specs.Prelude.{◌≡◌, ◌+◌, ◌*◌, ◌≤◌, ℕ, IfOk, List, OnOk, length};
ghost use Rattle.law_blasting.specs.Blasted.{Variables};
ghost use Rattle.law_blasting.specs.Numbering.{variables_of};
ghost use Rattle.law_blasting.specs.Passing.{Related};
ghost use Rattle.law_blasting.specs.Refusals.{first_refusal};
ghost use Rattle.law_blasting.specs.Theorem.{new_roots, AreFaithful};
ghost use Rattle.law_terms.specs.Plain.{PlainTerm, PlainType};
ghost use Rattle.law_terms.specs.Typing.{AreBoolean};
ghost use Rattle.law_terms.specs.TypeValues.{Enums};
ghost use Rattle.smt_blast.specs.Answers.{Answers};
ghost use Rattle.smt_blast.specs.Marks.{IsVariable};
ghost use Rattle.smt_blast.specs.View.{numbered_from, plain_bit_var, plain_bit_vars};
ghost use Rattle.smt_nodes.specs.Interned.{nodes_of, StandFor};
ghost use Rattle.smt_nodes.specs.View.{ids_of};

use crate::blasted::Blasted;
use crate::error::BlastError;
use crate::table::new_nodes;
use crate::variable::{BitVar, BitVarList};
use crate::visit::{Walk, made_type};
use smt_nodes::{IdList, Interner, Label, NodeId};
use smt_term::TermError;
use smt_text::share_text;
use std::alloc::Global;

/// The variable for which a number stands, with its number among the variables.
fn variable_at(old: &Interner, id: NodeId, number: usize) -> Result<BitVar, TermError>
    ensures { (v : List ℕ × PlainType) → IsVariable old.now id v →
        IfOk result (λ var. plain_bit_var var ≡ record { variable = v; number = number }) }
{
    let Some((ty, _)) = old.parts(id).split_first() else {
        return Err(TermError::Memory);
    };
    let Some(Label::Var(name)) = old.label(id) else {
        return Err(TermError::Memory);
    };
    Ok(BitVar {
        id: share_text(name)?,
        ty: made_type(old, *ty)?,
        number,
    })
}

/// The variables for which numbers stand, in order.
fn variables_at(alloc: Global, old: &Interner, ids: &[NodeId]) -> Result<BitVarList, TermError>
    ensures { (vs : Variables) → Related (IsVariable old.now) ids.now vs →
        IfOk result (λ list. plain_bit_vars list ≡ numbered_from 0 vs) }
{
    let mut vars = BitVarList::new(alloc);
    for id in ids {
        let var = variable_at(old, *id, vars.len())?;
        vars.push(var)?;
    }
    Ok(vars)
}

/// Boolean terms that stand for Boolean old ones, which may have bitvectors in them: one for each root, over new variables
/// that stand for the bits of the old ones. The old variables get numbers from 0, in the order in which a walk over the roots
/// first meets them: a term's type, its parts from the left, and then itself.
///
/// Taken are Boolean and bitvector literals and variables, `not`, `and`, `or`, `=` and `ite` on these types, and of
/// bitvectors (theory FixedSizeBitVectors) negation, sum, difference, shifts by zeros, the comparisons, the overflows of
/// negation, sum and difference, and extension by zeros.
///
/// # Errors
/// `Unsupported` with the first operator without a circuit, and `UnsupportedType` with the first type that is neither Bool nor
/// a bitvector type, whichever the walk meets first; `Memory`, where there is none for the new terms.
pub fn blast(alloc: Global, old: &Interner, roots: &[NodeId]) -> Result<Blasted, BlastError>
    requires { (ts : List PlainTerm) × StandFor old.now roots.now ts × AreBoolean ts }
    ensures roots { (ts : List PlainTerm) → StandFor old.now roots.now ts → AreBoolean ts →
        IfOk result (λ b. StandFor b.nodes (ids_of b.roots) (new_roots ts)) }
    ensures vars { (ts : List PlainTerm) → StandFor old.now roots.now ts → AreBoolean ts →
        IfOk result (λ b. plain_bit_vars b.vars ≡ numbered_from 0 (variables_of ts)) }
    ensures faithful { (enums : Enums) (ts : List PlainTerm) → StandFor old.now roots.now ts →
        AreBoolean ts → OnOk result (AreFaithful enums ts) }
    ensures few { IfOk result
        (λ b. length (nodes_of b.nodes) ≤ 1 + 4096 * length (nodes_of old.now)) }
    ensures refused { (ts : List PlainTerm) → StandFor old.now roots.now ts → AreBoolean ts →
        Answers (first_refusal ts) result }
{
    if roots.is_empty() {
        return Ok(Blasted {
            nodes: Interner::new(alloc),
            roots: IdList::new(alloc, &[])?,
            vars: BitVarList::new(alloc),
        });
    }
    let mut walk = Walk::new(alloc, old)?;
    walk.visit_all(old, roots, old.len())?;
    let vars = variables_at(alloc, old, walk.variables.as_slice())?;
    let (nodes, roots) = new_nodes(alloc, old, walk.marks.as_slice(), roots)?;
    Ok(Blasted { nodes, roots, vars })
}
