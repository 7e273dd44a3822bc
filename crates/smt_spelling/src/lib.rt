//! The texts of what a script has for terms and types, and of nodes: names, sorts, literals, patterns, bodies of definitions,
//! datatypes, and the entries by which terms are declared or defined.
//!
//! What each text spells is stated as an expression of a script in `law_lines`, apart from this code. No sink is known here:
//! the encoder, which stands above, puts the lines.
//!
//! `Names` has the nodes that stand for terms, and keeps for each node that was written the text that stands for it, its name
//! or what stands inline. A push opens a level, and the matching pop forgets the texts that came since. Over these
//! `selector_of` finds the selector with which an attribute of a record is taken. How a node is written is its `Rendering`;
//! `inline_text` makes the text of what gets no name, and `entry_from` what is entered under a name. Read `specs/Names.antt`
//! and `specs/NodeTexts.antt` first.
#![tactic(auto)]

mod body;
mod datatype;
mod entity;
mod entry;
mod error;
mod extension;
pub mod laws;
mod literal;
mod names;
mod node_entry;
mod node_names;
mod pattern;
mod pieces;
mod record;
mod rendering;
mod selection;
mod selector_error;
mod spell;
mod steps;

pub use body::application_body;
pub use datatype::Datatype;
pub use entity::{entity_datatype, entity_entry};
pub use entry::Entry;
pub use error::TextError;
pub use extension::{extension_constructors, extension_name};
pub use names::Names;
pub use node_entry::{Shape, entry_from, inline_text};
pub use node_names::NodeNames;
pub use record::record_datatype;
pub use rendering::{Rendering, WrittenParts, rendering_of};
pub use selector_error::SelectorError;
pub use smt_text::SMT_LIB_MAX_CODE_POINT;
pub use spell::{call_text, set_text};
pub use steps::Steps;
