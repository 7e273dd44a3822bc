// The entries of an input into the assignment, section by section from the left.
ghost use Rattle.std.specs.Prelude.{◌≡◌, map, option_map};
ghost use Rattle.std.specs.Rc.{rc_str_bytes};
ghost use Rattle.law_assignments.specs.Entries as stated;
ghost use Rattle.law_jobs.specs.Declarations.{Declared as Stated};
ghost use Rattle.smt_sexpr.specs.View.{plain};
ghost use Rattle.smt_term.specs.Functions.{plain_definition};
ghost use Rattle.smt_term.specs.View.{plain_term, plain_type};
ghost use Rattle.smt_term.specs.ExtensionView.{plain_extension_op};
ghost use Rattle.smt_eval.specs.AssignmentView.{plain_assignment, plain_selector};
ghost use Rattle.smt_eval.specs.InputRefused.{IsInputReadAs};
ghost use Rattle.smt_eval.specs.ReaderView.{ComesToBe, ReadsFor};
ghost use Rattle.smt_eval.specs.WrittenView.{plain_named, plain_typed, plain_written};
ghost use Rattle.smt_eval.specs.WrittenView.{plain_written_table};

use crate::assignment::Assignment;
use crate::error::EvalError;
use crate::values::{Reader, TableForm, duplicate, unknown};
use crate::written::{WrittenInput, WrittenTable};
use smt_sexpr::SExpr;
use smt_term::{ExtOp, ExtType, Op, Term, TermType, Text, Udf};
use std::alloc::Global;

/// The selector of a name.
fn selector_named(name: &str) -> Option<ExtOp>
    ensures { option_map plain_extension_op result ≡ stated.selector_named name.now }
{
    match name {
        "ipaddr.addrV4" => Some(ExtOp::IpaddrAddrV4),
        "ipaddr.addrV6" => Some(ExtOp::IpaddrAddrV6),
        "ipaddr.prefixV4" => Some(ExtOp::IpaddrPrefixV4),
        "ipaddr.prefixV6" => Some(ExtOp::IpaddrPrefixV6),
        _ => None,
    }
}

impl Reader<'_> {
    /// The value that the entry of a variable states.
    fn variable_value(
        &self,
        given: &Assignment,
        id: &Text,
        value: &SExpr,
    ) -> Result<Term, EvalError>
        ensures { (ds : Stated) → ReadsFor self.now ds →
            IsInputReadAs (λ term. (rc_str_bytes id.now, plain_term term)) result
            (stated.assigned_variable ds (plain_assignment given.now).variables
            (rc_str_bytes id.now, plain value.now)) }
    {
        let Some(ty) = self.declared.variables.type_of(id) else {
            return Err(unknown(id));
        };
        if given.variable(id).is_some() {
            return Err(duplicate(id));
        }
        self.value(id, ty, value)
    }

    /// Enters the values of variables.
    fn enter_variables(
        &self,
        given: &mut Assignment,
        entries: &[(&Text, &SExpr)],
    ) -> Result<(), EvalError>
        ensures { (ds : Stated) → ReadsFor self.now ds →
            ComesToBe (λ vs.
            plain_assignment given.new ≡ record (plain_assignment given.old) { variables = vs })
            result (stated.given_by (stated.assigned_variable ds)
            (plain_assignment given.old).variables (map plain_named entries.now)) }
    {
        for &(id, value) in entries {
            let value = self.variable_value(given, id, value)?;
            given.give_variable(id.clone()?, value)?;
        }
        Ok(())
    }

    /// The table that the entry of a function states.
    fn function_table(
        &self,
        given: &Assignment,
        written: &WrittenTable<'_>,
    ) -> Result<Udf, EvalError>
        ensures { (ds : Stated) → ReadsFor self.now ds →
            IsInputReadAs (λ table. (rc_str_bytes written.now.name.now, plain_definition table))
            result (stated.assigned_function ds (plain_assignment given.now).functions
            (plain_written_table written.now)) }
    {
        let Some(function) = self.declared.functions.function_of(written.name) else {
            return Err(unknown(written.name));
        };
        if given.function(written.name).is_some() {
            return Err(duplicate(written.name));
        }
        let form = TableForm {
            arg: &function.arg,
            out: &function.out,
            selector: None,
        };
        self.table(&form, written)
    }

    /// Enters the tables of functions.
    fn enter_functions(
        &self,
        given: &mut Assignment,
        entries: &[WrittenTable<'_>],
    ) -> Result<(), EvalError>
        ensures { (ds : Stated) → ReadsFor self.now ds →
            ComesToBe (λ fs.
            plain_assignment given.new ≡ record (plain_assignment given.old) { functions = fs })
            result (stated.given_by (stated.assigned_function ds)
            (plain_assignment given.old).functions (map plain_written_table entries.now)) }
    {
        for written in entries {
            let table = self.function_table(given, written)?;
            given.give_function(written.name.clone()?, table)?;
        }
        Ok(())
    }

    /// The value that the entry of `option.get` of none states at an inner type.
    fn get_value(
        &self,
        given: &Assignment,
        inside: &TermType,
        value: &SExpr,
    ) -> Result<Term, EvalError>
        ensures { (ds : Stated) → ReadsFor self.now ds →
            IsInputReadAs (λ term. (plain_type inside.now, plain_term term)) result
            (stated.get_of ds (plain_assignment given.now).gets
            (plain_type inside.now, plain value.now)) }
    {
        let name = Text::from_str(self.alloc, Op::OptionGet.mk_name())?;
        if given.get(inside).is_some() {
            return Err(EvalError::DuplicateName(name));
        }
        self.value(&name, inside, value)
    }

    /// Enters what `option.get` of none gives.
    fn enter_gets(
        &self,
        given: &mut Assignment,
        entries: &[(TermType, &SExpr)],
    ) -> Result<(), EvalError>
        ensures { (ds : Stated) → ReadsFor self.now ds →
            ComesToBe
            (λ gs. plain_assignment given.new ≡ record (plain_assignment given.old) { gets = gs })
            result (stated.given_by (stated.get_of ds) (plain_assignment given.old).gets
            (map plain_typed entries.now)) }
    {
        for (inside, value) in entries {
            let value = self.get_value(given, inside, value)?;
            given.give_get(inside.share()?, value)?;
        }
        Ok(())
    }

    /// The table that the entry of a selector states, and the selector.
    fn selector_table(
        &self,
        given: &Assignment,
        written: &WrittenTable<'_>,
    ) -> Result<(ExtOp, Udf), EvalError>
        ensures { (ds : Stated) → ReadsFor self.now ds →
            IsInputReadAs plain_selector result (stated.selector_of ds
            (plain_assignment given.now).selectors (plain_written_table written.now)) }
    {
        let Some(op) = selector_named(written.name.as_str()) else {
            return Err(unknown(written.name));
        };
        if given.selector(op).is_some() {
            return Err(duplicate(written.name));
        }
        let arg = TermType::Ext {
            xty: ExtType::IpAddr,
        };
        let out = op.result_type(self.alloc)?;
        let form = TableForm {
            arg: &arg,
            out: &out,
            selector: Some(op),
        };
        Ok((op, self.table(&form, written)?))
    }

    /// Enters the tables of selectors.
    fn enter_selectors(
        &self,
        given: &mut Assignment,
        entries: &[WrittenTable<'_>],
    ) -> Result<(), EvalError>
        ensures { (ds : Stated) → ReadsFor self.now ds →
            ComesToBe (λ ss.
            plain_assignment given.new ≡ record (plain_assignment given.old) { selectors = ss })
            result (stated.given_by (stated.selector_of ds) (plain_assignment given.old).selectors
            (map plain_written_table entries.now)) }
    {
        for written in entries {
            let (op, table) = self.selector_table(given, written)?;
            given.give_selector(op, table)?;
        }
        Ok(())
    }

    /// The assignment that an input states, from the left.
    pub fn assignment(&self, written: &WrittenInput<'_>) -> Result<Assignment, EvalError>
        ensures { (ds : Stated) → ReadsFor self.now ds →
            IsInputReadAs plain_assignment result
            (stated.assignment_of ds (plain_written written.now)) }
    {
        let mut given = Assignment::new(self.alloc);
        self.enter_variables(&mut given, written.variables.as_slice())?;
        self.enter_functions(&mut given, written.functions.as_slice())?;
        self.enter_gets(&mut given, written.gets.as_slice())?;
        self.enter_selectors(&mut given, written.selectors.as_slice())?;
        Ok(given)
    }
}
