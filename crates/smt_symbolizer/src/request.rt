// The terms of a request.
ghost use Rattle.std.specs.Prelude.{◌≡◌, IfOk, option_map};
ghost use Rattle.smt_values.specs.View.{plain_action, plain_request as request_said};
ghost use Rattle.smt_values.specs.View.{plain_request_env, plain_schema};
ghost use Rattle.smt_values.specs.TypeView.{plain_cedar_attributes};
ghost use Rattle.smt_values.specs.ValueView.{named_fields};
ghost use Rattle.smt_term.specs.Entities.{texts_of_entity};
ghost use Rattle.law_cedar.specs.Symbolized as stated;
ghost use Rattle.smt_symbolizer.specs.Requests.{request_with};
ghost use Rattle.smt_symbolizer.specs.View.{plain_request};
ghost use Rattle.smt_term.specs.View.{plain_term};
ghost use Rattle.smt_values.specs.Refused.{IsGiven};

use crate::entries::entity_term;
use crate::environment::SymRequest;
use smt_term::{EntityUID, Term, TermError};
use smt_values::{
    ActionEntry, Attributes, Request, RequestEnv, Schema, SymbolizeError, ValueMap, from_record,
};
use std::alloc::Global;

/// The action of a request environment of the schema: its last entry.
pub(crate) fn asked_action<'a>(
    schema: &'a Schema,
    req_env: &RequestEnv,
) -> Result<&'a ActionEntry, SymbolizeError>
    ensures { IsGiven (λ action. plain_action action.now) result
        (stated.action_asked (plain_schema schema.now) (plain_request_env req_env.now)) }
{
    if !req_env.is_of(schema) {
        return Err(SymbolizeError::IllFormedTypeEnv);
    }
    match schema.actions.get(&req_env.action) {
        Some(action) => Ok(action),
        None => Err(SymbolizeError::IllFormedTypeEnv),
    }
}

/// An entity of a request, where it is known.
fn known_uid(part: &Option<EntityUID>) -> Result<&EntityUID, SymbolizeError>
    ensures { IsGiven (λ uid. texts_of_entity uid.now) result
        (stated.known_part (option_map texts_of_entity part.now)) }
{
    match part {
        Some(uid) => Ok(uid),
        None => Err(SymbolizeError::PartialRequest),
    }
}

/// The attributes of a context, where it is known.
fn known_context(part: &Option<ValueMap>) -> Result<&ValueMap, SymbolizeError>
    ensures { IsGiven (λ fields. named_fields fields.now) result
        (stated.known_part (option_map named_fields part.now)) }
{
    match part {
        Some(fields) => Ok(fields),
        None => Err(SymbolizeError::PartialRequest),
    }
}

/// The terms of these entities, and the term of a context.
fn terms_of_request(
    principal: &EntityUID,
    action: &EntityUID,
    resource: &EntityUID,
    context: Term,
) -> Result<SymRequest, TermError>
    ensures { IfOk result (λ made.
        plain_request made
        ≡ request_with (texts_of_entity principal.now) (texts_of_entity action.now)
        (texts_of_entity resource.now) (plain_term context)) }
{
    let principal = entity_term(principal)?;
    let action = entity_term(action)?;
    let resource = entity_term(resource)?;
    Ok(SymRequest {
        principal,
        action,
        resource,
        context,
    })
}

/// The terms of a request, whose context has these attributes.
pub(crate) fn request_of(
    alloc: Global,
    attrs: &Attributes,
    request: &Request,
) -> Result<SymRequest, SymbolizeError>
    ensures { IsGiven plain_request result
        (stated.request_of (plain_cedar_attributes attrs.now) (request_said request.now)) }
{
    let principal = known_uid(&request.principal)?;
    let action = known_uid(&request.action)?;
    let resource = known_uid(&request.resource)?;
    let fields = known_context(&request.context)?;
    let context = from_record(alloc, fields, attrs)?;
    Ok(terms_of_request(principal, action, resource, context)?)
}
