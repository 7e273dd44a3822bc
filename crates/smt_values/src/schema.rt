// Schemas.
use crate::actions::ActionList;
use crate::entry_map::EntryMap;

/// What the entities, the actions and the requests of an application may be.
#[derive(Debug, PartialEq, Eq, Drop)]
pub struct Schema {
    /// The entity types.
    pub entity_types: EntryMap,
    /// The actions.
    pub actions: ActionList,
}
