// Symbolic environments.
ghost use Rattle.std.specs.Prelude.{◌≡◌, ℕ, List, IfErr, IfOk, Ok, map};
ghost use Rattle.smt_values.specs.View.{plain_env, plain_request_env, plain_schema, plain_stored};
ghost use Rattle.smt_term.specs.Enums.{enums_of};
ghost use Rattle.smt_term.specs.TextSets.{texts_of};
ghost use Rattle.law_terms.specs.TypeValues.{members_of};
ghost use Rattle.law_cedar.specs.Laws.{IsSymbolicOf};
ghost use Rattle.law_cedar.specs.Symbolized.{entities_of, environment_with, symbolized};
ghost use Rattle.smt_symbolizer.specs.Listed.{listed_in};
ghost use Rattle.smt_symbolizer.specs.Named.{said};
ghost use Rattle.smt_symbolizer.specs.Requests.{with_request};
ghost use Rattle.smt_symbolizer.specs.View.{plain_environment, plain_request};
ghost use Rattle.smt_symbolizer.specs.EntityView.{plain_data, plain_entities};
ghost use Rattle.smt_values.specs.DefaultTerm.{default_term};
ghost use Rattle.smt_values.specs.Refused.{IsGiven, IsRefusal};

use crate::entities::entities_of;
use crate::request::{asked_action, request_of};
use crate::schema_types::{listed_types, table_of_members};
use crate::{SymEntities, SymEntityData, listed};
use smt_term::{EntityType, EnumTable, Term, TermError, TextSet};
use smt_values::{Entity, Env, RequestEnv, Schema, SymbolizeError};
use std::alloc::Global;

/// The terms of a request.
#[derive(Debug, PartialEq, Eq)]
pub struct SymRequest {
    /// Who asks.
    pub principal: Term,
    /// What it asks to do.
    pub action: Term,
    /// What it asks to do that to.
    pub resource: Term,
    /// What else is the case: a record.
    pub context: Term,
}

// By hand, since a derived one is written out in each function that lets a request go.
impl Drop for SymRequest {
    fn drop(self) {
        let SymRequest {
            principal: _,
            action: _,
            resource: _,
            context: _,
        } = self;
    }
}

/// What a schema, a request and a store are symbolized to.
#[derive(Debug, PartialEq, Eq)]
pub struct SymEnv {
    /// The request.
    pub request: SymRequest,
    /// The entities.
    pub entities: SymEntities,
}

// By hand, since a derived one is written out in each function that lets an environment go.
impl Drop for SymEnv {
    fn drop(self) {
        let SymEnv {
            request: _,
            entities: _,
        } = self;
    }
}

impl SymEnv {
    /// The symbolic environment of a schema, of a request in an environment of the schema, and of stored entities.
    ///
    /// The request's principal, action and resource are their literals. Its context is the record of it at the attributes
    /// that the action's last entry in the schema lists. Each entity type of the schema has functions that tables define:
    /// they have for each stored entity of the type its attributes, its ancestors of each of the types that the schema lists,
    /// and its tags, and elsewhere the default of their type. A type of actions has the ids of the actions and their
    /// ancestors, whatever the schema says of it beside that, and an enum type its members.
    ///
    /// So the functions fold at a stored entity of a type that no action has, and at an action, to what is stored of it.
    ///
    /// # Examples
    ///
    /// ```
    /// use kembura::SymEnv;
    /// use kembura::factory::eq;
    ///
    /// let made = SymEnv::from_concrete_env(alloc, &req_env, &schema, &env)?;
    /// let enums = made.enum_table(alloc)?;
    /// let (who, what) = (&made.request.principal, &made.request.resource);
    /// let is_self = eq(alloc, who.share()?, what.share()?)?;
    /// ```
    ///
    /// # Errors
    /// The first of these:
    /// `IllFormedTypeEnv`, where the environment is not the schema's;
    /// `PartialRequest`, where a part of the request is missing;
    /// the refusal of the context, as `from_value` of `FromCedar` has it;
    /// and then, by entity types in the order of their bytes, `CompileError` of the type of attributes, and the first refusal
    /// of the stored entities' attributes, `PartialValue` where one of them is not known; of the type of the tags, and of the
    /// tags.
    /// `Memory`, where there is none for the terms or the refusal.
    pub fn from_concrete_env(
        alloc: Global,
        req_env: &RequestEnv,
        schema: &Schema,
        env: &Env,
    ) -> Result<SymEnv, SymbolizeError>
        ensures given { IfOk result (λ made.
            symbolized (plain_request_env req_env.now) (plain_schema schema.now) (plain_env env.now)
            ≡ Ok (plain_environment made)) }
        ensures stored { IfOk result (λ made.
            IsSymbolicOf (plain_request_env req_env.now) (plain_schema schema.now)
            (plain_env env.now) (plain_environment made)) }
        ensures refused { IfErr result (λ e.
            IsRefusal e (symbolized (plain_request_env req_env.now) (plain_schema schema.now)
            (plain_env env.now))) }
    {
        let enums = listed_types(alloc, schema)?;
        environment_with(alloc, req_env, schema, env, &enums)
    }

    /// The table of the types whose entities are listed, each with its members.
    ///
    /// # Errors
    /// `Memory`, where there is none for the table.
    pub fn enum_table(&self, alloc: Global) -> Result<EnumTable, TermError>
        ensures { IfOk result (λ table.
            (t : List ℕ) →
            members_of (enums_of table) t
            ≡ members_of (listed_in (plain_entities self.now.entities)) t) }
    {
        let found = listed_entries(alloc, self.entities.items())?;
        table_of_members(alloc, found.as_slice())
    }
}

/// The types among these whose entities are listed, each with its members.
fn listed_entries(
    alloc: Global,
    entities: &[(EntityType, SymEntityData)],
) -> Result<Vec<(EntityType, TextSet)>, TermError>
    ensures { IfOk result (λ found.
        map (said texts_of) found.items ≡ listed_in (map (said plain_data) entities.now)) }
{
    let mut found: Vec<(EntityType, TextSet)> = Vec::new(alloc);
    for (ety, own) in entities {
        if let Some(members) = &own.members {
            found.push(listed(ety, members)?)?;
        }
    }
    Ok(found)
}

/// The symbolic environment with the defaults of types that these enum types give.
fn environment_with(
    alloc: Global,
    req_env: &RequestEnv,
    schema: &Schema,
    env: &Env,
    enums: &EnumTable,
) -> Result<SymEnv, SymbolizeError>
    ensures { IsGiven plain_environment result (environment_with (default_term (enums_of enums.now))
        (plain_request_env req_env.now) (plain_schema schema.now) (plain_env env.now)) }
{
    let action = asked_action(schema, req_env)?;
    let request = request_of(alloc, &action.context, &env.request)?;
    with_entities(alloc, request, schema, env.entities.items(), enums)
}

/// The symbolic environment of these terms of a request, and of stored entities.
fn with_entities(
    alloc: Global,
    request: SymRequest,
    schema: &Schema,
    entities: &[Entity],
    enums: &EnumTable,
) -> Result<SymEnv, SymbolizeError>
    ensures { IsGiven plain_environment result (with_request (plain_request request)
        (entities_of (default_term (enums_of enums.now)) (plain_schema schema.now)
        (map plain_stored entities.now))) }
{
    let entities = entities_of(alloc, schema, entities, enums)?;
    Ok(SymEnv { request, entities })
}
