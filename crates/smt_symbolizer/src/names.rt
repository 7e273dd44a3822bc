// Types and names of entities, which are the same in terms as in Cedar's schemas and stores.
ghost use Rattle.std.specs.Prelude.{◌≡◌};

use smt_term::{EntityType, EntityUID};

/// The type of terms' entities that stands for an entity type: the type itself.
pub fn core_entity_type_into_entity_type(entity_type: &EntityType) -> &EntityType
    ensures { result.now ≡ entity_type.now }
{
    entity_type
}

/// The entity of terms that stands for an entity: the entity itself.
pub fn core_uid_into_uid(uid: &EntityUID) -> &EntityUID
    ensures { result.now ≡ uid.now }
{
    uid
}
