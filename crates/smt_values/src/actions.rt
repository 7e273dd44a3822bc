// What a schema says of actions.
ghost use Rattle.std.specs.Prelude.{◌≡◌, ◌++◌, ◌∷◌, [], IfOk, OnErr, OnOk, length, map, option_map};
ghost use Rattle.smt_term.specs.Entities.{texts_of_entity};
ghost use Rattle.smt_values.specs.Stores.{action_of};
ghost use Rattle.smt_values.specs.View.{actions_held, plain_action, plain_actions};

use crate::uids::UidList;
use crate::{Attributes, EntityTypeList};
use smt_term::{EntityUID, TermError};
use std::alloc::{AllocError, Global};

/// What a schema says of an action.
#[derive(Debug, PartialEq, Eq)]
pub struct ActionEntry {
    /// The action.
    pub uid: EntityUID,
    /// The actions that are its ancestors.
    pub ancestors: UidList,
    /// The types of the principals that it applies to.
    pub principals: EntityTypeList,
    /// The types of the resources that it applies to.
    pub resources: EntityTypeList,
    /// The attributes of its requests' contexts.
    pub context: Attributes,
}

// By hand, since a derived one is written out in each function that lets an entry go.
impl Drop for ActionEntry {
    fn drop(self) {
        let ActionEntry {
            uid: _,
            ancestors: _,
            principals: _,
            resources: _,
            context: _,
        } = self;
    }
}

/// The actions of a schema, in the order in which they were given. Of two entries of one action the last counts.
#[derive(Debug, PartialEq, Eq, Drop)]
pub struct ActionList {
    items: Vec<ActionEntry>,
}

impl ActionList {
    /// The list without actions. Takes no memory.
    pub fn new(alloc: Global) -> ActionList
        ensures { plain_actions result ≡ [] }
    {
        ActionList {
            items: Vec::new(alloc),
        }
    }

    /// Appends what is said of an action.
    ///
    /// # Errors
    /// Want of memory. The list stays as it is.
    pub fn push(&mut self, item: ActionEntry) -> Result<(), AllocError>
        ensures pushed { OnOk result
            (plain_actions self.new ≡ plain_actions self.old ++ plain_action item ∷ []) }
        ensures unchanged { OnErr result (plain_actions self.new ≡ plain_actions self.old) }
    {
        self.items.push(item)?;
        Ok(())
    }

    /// How many entries it has.
    pub fn len(&self) -> usize
        ensures { result ≡ length (plain_actions self.now) }
    {
        self.items.len()
    }

    /// The entries, in order.
    pub fn items(&self) -> &[ActionEntry]
        ensures same { result.now ≡ actions_held self.now }
        ensures named { map plain_action result.now ≡ plain_actions self.now }
    {
        self.items.as_slice()
    }

    /// The entry that counts of an action, or `None` exactly where the list has none.
    pub fn get(&self, uid: &EntityUID) -> Option<&ActionEntry>
        ensures { option_map (λ action. plain_action action.now) result
            ≡ action_of (plain_actions self.now) (texts_of_entity uid.now) }
    {
        let mut found = None;
        for action in self.items.as_slice() {
            if action.uid == *uid {
                found = Some(action);
            }
        }
        found
    }

    /// An equal list, whose texts are shared.
    ///
    /// # Errors
    /// `Memory`, where there is none for the list.
    pub fn share(&self) -> Result<ActionList, TermError>
        ensures { IfOk result (λ shared. plain_actions shared ≡ plain_actions self.now) }
    {
        let mut items: Vec<ActionEntry> = Vec::new(*self.items.allocator());
        for item in self.items.as_slice() {
            items.push(item.share()?)?;
        }
        Ok(ActionList { items })
    }
}

impl ActionEntry {
    /// An equal entry, whose texts are shared.
    ///
    /// # Errors
    /// `Memory`, where there is none for the entry.
    #[tactic(auto, using(crate::proofs::Shared::attributes_alike))]
    pub fn share(&self) -> Result<ActionEntry, TermError>
        ensures { IfOk result (λ shared. plain_action shared ≡ plain_action self.now) }
    {
        Ok(ActionEntry {
            uid: self.uid.share()?,
            ancestors: self.ancestors.share()?,
            principals: self.principals.share()?,
            resources: self.resources.share()?,
            context: self.context.share()?,
        })
    }
}
