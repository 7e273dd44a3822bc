// Requests, the types that they are of, and the environments in which they are decided.
ghost use Rattle.std.specs.Prelude.{◌≡◌};
ghost use Rattle.smt_term.specs.Entities.{bytes_of_type};
ghost use Rattle.smt_values.specs.Stores.{has_type, is_of_schema};
ghost use Rattle.smt_values.specs.View.{plain_request_env, plain_schema, plain_types};

use crate::schema::Schema;
use crate::store::Entities;
use crate::{EntityTypeList, ValueMap};
use smt_term::{EntityType, EntityUID};

/// The types of a request's principal and resource, and its action.
#[derive(Debug, PartialEq, Eq, Drop)]
pub struct RequestEnv {
    /// The type of the principal.
    pub principal: EntityType,
    /// The action.
    pub action: EntityUID,
    /// The type of the resource.
    pub resource: EntityType,
}

/// A request, of which any part may not be known.
#[derive(Debug, PartialEq, Eq)]
pub struct Request {
    /// Who asks, where that is known.
    pub principal: Option<EntityUID>,
    /// What it asks to do, where that is known.
    pub action: Option<EntityUID>,
    /// What it asks to do that to, where that is known.
    pub resource: Option<EntityUID>,
    /// What else is the case, where that is known.
    pub context: Option<ValueMap>,
}

// By hand, since a derived one is written out in each function that lets a request go.
impl Drop for Request {
    fn drop(self) {
        let Request {
            principal: _,
            action: _,
            resource: _,
            context: _,
        } = self;
    }
}

/// A request, and the entities that are stored when it is decided.
#[derive(Debug, PartialEq, Eq)]
pub struct Env {
    /// The request.
    pub request: Request,
    /// The stored entities.
    pub entities: Entities,
}

// By hand, since a derived one is written out in each function that lets an environment go.
impl Drop for Env {
    fn drop(self) {
        let Env {
            request: _,
            entities: _,
        } = self;
    }
}

impl RequestEnv {
    /// Whether it is the schema's: the schema's entry of this action, the last one where there are more, lists both types.
    pub fn is_of(&self, schema: &Schema) -> bool
        ensures { result ≡ is_of_schema (plain_schema schema.now) (plain_request_env self.now) }
    {
        match schema.actions.get(&self.action) {
            None => false,
            Some(action) => {
                lists(&action.principals, &self.principal)
                    && lists(&action.resources, &self.resource)
            }
        }
    }
}

// Whether a type is among these.
fn lists(types: &EntityTypeList, ety: &EntityType) -> bool
    ensures { result ≡ has_type (bytes_of_type ety.now) (plain_types types.now) }
{
    for item in types.items() {
        if ety == item {
            return true;
        }
    }
    false
}
