// Declarations of variables and of functions.
ghost use Rattle.std.specs.Prelude.{◌≡◌, ◌++◌, ◌∷◌, ◌<◌, [], None, Some, IfOk, IfSome, OnOk};
ghost use Rattle.std.specs.Prelude.{IsOkUnless, length, option_map, slice_get};
ghost use Rattle.std.specs.Rc.{rc_str_bytes};
ghost use Rattle.law_terms.specs.Plain.{PlainFunction, PlainType};
ghost use Rattle.smt_sexpr.specs.View.{plain, plain_list};
ghost use Rattle.smt_term.specs.View.{plain_function, plain_type};
ghost use Rattle.law_jobs.specs.Declarations as stated;
ghost use Rattle.law_jobs.specs.Declarations.{Declarations, declared};
ghost use Rattle.smt_job_terms.specs.DeclarationView as view;
ghost use Rattle.smt_job_terms.specs.DeclarationView.{DeclaresNext, HasFunctions, HasVariables};
ghost use Rattle.smt_job_terms.specs.ReadAs.{IsReadAs};

use crate::error::{JobError, duplicate};
use crate::lists::{UufList, VarList};
use crate::types::type_from;
use smt_sexpr::{SExpr, pair_in, text_in, triple_in};
use smt_term::{EnumTable, TermType, TermVar, Text, Uuf};
use std::alloc::Global;
use std::collections::BTreeMap;
use std::rc::Rc;

/// The variables that are declared so far.
#[derive(Drop)]
pub struct Variables {
    /// The variables, in order.
    pub vars: VarList,
    // The place of the first variable of each id, which is the one that counts.
    places: BTreeMap<Text, usize>,
}

impl Variables {
    /// No variable. Takes no memory.
    fn new(alloc: Global) -> Variables
        ensures { HasVariables result [] }
    {
        Variables {
            vars: VarList::new(alloc),
            places: BTreeMap::new(alloc),
        }
    }

    /// The variable of an id, with its place among the declared ones, None exactly where the id is not declared. One look-up;
    /// takes no memory.
    pub fn find(&self, id: &str) -> Option<(usize, &TermVar)>
        ensures found { (vs : Declarations PlainType) → HasVariables self.now vs →
            option_map (λ x. plain_type x.1.now.ty) result ≡ declared vs id.now }
        ensures id { (vs : Declarations PlainType) → HasVariables self.now vs →
            IfSome result (λ x. rc_str_bytes x.1.now.id ≡ id.now) }
        ensures place { (vs : Declarations PlainType) → HasVariables self.now vs →
            option_map (λ x. x.0) result ≡ view.place_of vs id.now }
        ensures there { IfSome result (λ x.
            slice_get (view.declarations self.now.vars) x.0
            ≡ Some (view.plain_declaration x.1.now)) }
        ensures within { IfSome result (λ x. x.0 < length (view.declarations self.now.vars)) }
    {
        let place = *self.places.get(id)?;
        Some((place, self.vars.items().get(place)?))
    }

    /// The type of an id, None exactly where it is not declared.
    pub fn type_of(&self, id: &Text) -> Option<&TermType>
        ensures { (vs : Declarations PlainType) → HasVariables self.now vs →
            option_map (λ ty. plain_type ty.now) result ≡ declared vs (rc_str_bytes id.now) }
    {
        let (_, var) = self.find(id.as_str())?;
        Some(&var.ty)
    }

    /// Declares an id that is not declared yet.
    fn enter(&mut self, id: &Text, ty: TermType) -> Result<(), JobError>
        ensures entered { (vs : Declarations PlainType) → HasVariables self.old vs →
            declared vs (rc_str_bytes id.now) ≡ None →
            OnOk result (HasVariables self.new (vs ++ (rc_str_bytes id.now, plain_type ty) ∷ [])) }
        ensures refusal { IsOkUnless result JobError.Memory }
    {
        self.places.insert(id.clone()?, self.vars.len())?;
        self.vars.push(TermVar {
            id: id.clone()?,
            ty,
        })?;
        Ok(())
    }

    /// Declares an id behind those that are there, of which one may have it already: then that one counts.
    fn list(&mut self, id: &Text, ty: TermType) -> Result<(), JobError>
        ensures listed { (vs : Declarations PlainType) → HasVariables self.old vs →
            OnOk result (HasVariables self.new (vs ++ (rc_str_bytes id.now, plain_type ty) ∷ [])) }
        ensures refusal { IsOkUnless result JobError.Memory }
    {
        if self.type_of(id).is_none() {
            self.enter(id, ty)
        } else {
            Ok(
                self.vars.push(TermVar {
                    id: id.clone()?,
                    ty,
                })?,
            )
        }
    }

    /// The variables of a list, of which several may have one id: of these the first counts.
    ///
    /// # Errors
    ///
    /// `Memory`, where there is none for the variables.
    pub fn of(alloc: Global, vars: &VarList) -> Result<Variables, JobError>
        ensures has { IfOk result
            (λ variables. HasVariables variables (view.declarations vars.now)) }
        ensures refusal { IsOkUnless result JobError.Memory }
    {
        let mut variables = Variables::new(alloc);
        for var in vars.items() {
            variables.list(&var.id, var.ty.share()?)?;
        }
        Ok(variables)
    }

    /// An id that is not declared yet.
    fn new_id<'e>(&self, expression: &'e SExpr) -> Result<&'e Text, JobError>
        ensures stated { (vs : Declarations PlainType) → HasVariables self.now vs →
            IsReadAs (λ id. rc_str_bytes id.now) result (stated.new_id vs (plain expression.now)) }
        ensures undeclared { (vs : Declarations PlainType) → HasVariables self.now vs →
            IfOk result (λ id. declared vs (rc_str_bytes id.now) ≡ None) }
    {
        let id = text_in(expression).ok_or(JobError::BadForm)?;
        match self.type_of(id) {
            Some(_) => Err(duplicate(id)),
            None => Ok(id),
        }
    }

    /// The id and the type that an expression states.
    fn stated<'e>(
        &self,
        alloc: Global,
        expression: &'e SExpr,
    ) -> Result<(&'e Text, TermType), JobError>
        ensures stated { (vs : Declarations PlainType) → HasVariables self.now vs →
            IsReadAs (λ v. (rc_str_bytes v.0.now, plain_type v.1)) result
            (stated.declared_variable vs (plain expression.now)) }
        ensures undeclared { (vs : Declarations PlainType) → HasVariables self.now vs →
            IfOk result (λ v. declared vs (rc_str_bytes v.0.now) ≡ None) }
    {
        let (id, ty) = pair_in(expression).ok_or(JobError::BadForm)?;
        let id = self.new_id(id)?;
        let ty = type_from(alloc, ty)?;
        Ok((id, ty))
    }

    /// Declares the variable that an expression states.
    fn declare(&mut self, alloc: Global, expression: &SExpr) -> Result<(), JobError>
        ensures { (vs : Declarations PlainType) → HasVariables self.old vs →
            DeclaresNext (HasVariables self.new) vs
            (stated.declared_variable vs (plain expression.now)) result }
    {
        let (id, ty) = self.stated(alloc, expression)?;
        self.enter(id, ty)
    }
}

/// The functions that are declared so far.
#[derive(Drop)]
pub struct Functions {
    /// The functions, in order.
    pub funs: UufList,
    found: BTreeMap<Text, Rc<Uuf>>,
}

impl Functions {
    /// No function. Takes no memory.
    fn new(alloc: Global) -> Functions
        ensures { HasFunctions result [] }
    {
        Functions {
            funs: UufList::new(alloc),
            found: BTreeMap::new(alloc),
        }
    }

    /// The function of an id, None exactly where it is not declared.
    pub fn function_of(&self, id: &Text) -> Option<&Rc<Uuf>>
        ensures { (fs : Declarations PlainFunction) → HasFunctions self.now fs →
            option_map (λ f. plain_function f.now.value) result
            ≡ declared fs (rc_str_bytes id.now) }
    {
        self.found.get(id)
    }

    /// Declares a function whose id is not declared yet.
    fn enter(&mut self, alloc: Global, function: Uuf) -> Result<(), JobError>
        ensures entered { (fs : Declarations PlainFunction) → HasFunctions self.old fs →
            declared fs (rc_str_bytes function.id) ≡ None →
            OnOk result (HasFunctions self.new
            (fs ++ (rc_str_bytes function.id, plain_function function) ∷ [])) }
        ensures refusal { IsOkUnless result JobError.Memory }
    {
        self.found
            .insert(function.id.clone()?, Rc::new(alloc, function.share()?)?)?;
        Ok(self.funs.push(function)?)
    }

    /// Declares a function behind those that are there, of which one may have its id already: then that one counts.
    fn list(&mut self, alloc: Global, function: Uuf) -> Result<(), JobError>
        ensures listed { (fs : Declarations PlainFunction) → HasFunctions self.old fs →
            OnOk result (HasFunctions self.new
            (fs ++ (rc_str_bytes function.id, plain_function function) ∷ [])) }
        ensures refusal { IsOkUnless result JobError.Memory }
    {
        if self.function_of(&function.id).is_none() {
            self.enter(alloc, function)
        } else {
            Ok(self.funs.push(function)?)
        }
    }

    /// The functions of a list, of which several may have one id: of these the first counts.
    ///
    /// # Errors
    ///
    /// `Memory`, where there is none for the functions.
    pub fn of(alloc: Global, funs: &UufList) -> Result<Functions, JobError>
        ensures has { IfOk result (λ functions. HasFunctions functions (view.functions funs.now)) }
        ensures refusal { IsOkUnless result JobError.Memory }
    {
        let mut functions = Functions::new(alloc);
        for function in funs.items() {
            functions.list(alloc, function.share()?)?;
        }
        Ok(functions)
    }

    /// An id that is not declared yet.
    fn new_id<'e>(&self, expression: &'e SExpr) -> Result<&'e Text, JobError>
        ensures stated { (fs : Declarations PlainFunction) → HasFunctions self.now fs →
            IsReadAs (λ id. rc_str_bytes id.now) result (stated.new_id fs (plain expression.now)) }
        ensures undeclared { (fs : Declarations PlainFunction) → HasFunctions self.now fs →
            IfOk result (λ id. declared fs (rc_str_bytes id.now) ≡ None) }
    {
        let id = text_in(expression).ok_or(JobError::BadForm)?;
        match self.function_of(id) {
            Some(_) => Err(duplicate(id)),
            None => Ok(id),
        }
    }

    /// The function that an expression states.
    fn stated(&self, alloc: Global, expression: &SExpr) -> Result<Uuf, JobError>
        ensures stated { (fs : Declarations PlainFunction) → HasFunctions self.now fs →
            IsReadAs (λ f. (rc_str_bytes f.id, plain_function f)) result
            (stated.declared_function fs (plain expression.now)) }
        ensures undeclared { (fs : Declarations PlainFunction) → HasFunctions self.now fs →
            IfOk result (λ f. declared fs (rc_str_bytes f.id) ≡ None) }
    {
        let (id, arg, out) = triple_in(expression).ok_or(JobError::BadForm)?;
        let id = self.new_id(id)?;
        let arg = type_from(alloc, arg)?;
        let out = type_from(alloc, out)?;
        Ok(Uuf {
            id: id.clone()?,
            arg,
            out,
        })
    }

    /// Declares the function that an expression states.
    fn declare(&mut self, alloc: Global, expression: &SExpr) -> Result<(), JobError>
        ensures { (fs : Declarations PlainFunction) → HasFunctions self.old fs →
            DeclaresNext (HasFunctions self.new) fs
            (stated.declared_function fs (plain expression.now)) result }
    {
        let function = self.stated(alloc, expression)?;
        self.enter(alloc, function)
    }
}

/// The variables that these expressions state: each is `("ID" TYPE)`.
///
/// # Errors
///
/// The first fault from the left: `BadForm`, `DuplicateName` of an id, or that of the type. `Memory`, where there is none for the
/// variables.
pub fn variables_from(alloc: Global, items: &[SExpr]) -> Result<Variables, JobError>
    ensures stated { IsReadAs (λ v. view.declarations v.vars) result
        (stated.variables_of (plain_list items.now)) }
    ensures declares { IfOk result (λ v. HasVariables v (view.declarations v.vars)) }
{
    let mut variables = Variables::new(alloc);
    for item in items {
        variables.declare(alloc, item)?;
    }
    Ok(variables)
}

/// The functions that these expressions state: each is `("ID" TYPE TYPE)`, with the type of its argument first.
///
/// # Errors
///
/// The first fault from the left: `BadForm`, `DuplicateName` of an id, or that of a type. `Memory`, where there is none for the functions.
pub fn functions_from(alloc: Global, items: &[SExpr]) -> Result<Functions, JobError>
    ensures stated { IsReadAs (λ f. view.functions f.funs) result
        (stated.functions_of (plain_list items.now)) }
    ensures declares { IfOk result (λ f. HasFunctions f (view.functions f.funs)) }
{
    let mut functions = Functions::new(alloc);
    for item in items {
        functions.declare(alloc, item)?;
    }
    Ok(functions)
}

/// The enum types of a job, and the variables and functions that its terms may name.
#[derive(Drop)]
pub struct Declared {
    /// The enum types, in the order of their names.
    pub enums: EnumTable,
    /// The variables.
    pub variables: Variables,
    /// The functions.
    pub functions: Functions,
}
