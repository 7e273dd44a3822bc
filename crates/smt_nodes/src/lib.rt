//! Terms, their types and their functions as numbered nodes: one number for each.
//!
//! A node says by its label what it is, and by numbers of earlier nodes what its parts are. So a node is found by its label, or
//! else by numbers, that of the first node of its label and those of its parts, and terms that share their parts share their
//! nodes.
//!
//! What a node stands for is `law_terms`'s to say (`Nodes`, `Meanings` and `Fits`), and an interner keeps its nodes by it. Read
//! `specs/View.antt` first, which gives the plain form of nodes, then `Interned`, which says what the nodes of an interner
//! stand for. `LabelOrder` and `Order` have the order in which terms compare.
#![tactic(auto)]

mod attributes;
mod find;
mod id;
mod intern;
mod interner;
mod label_order;
pub mod laws;
mod node;
mod order;
mod rebuild;
mod subject;
mod table;

pub use attributes::AttrList;
pub use id::{IdList, NodeId};
pub use interner::Interner;
pub use node::{Label, Node};
pub use subject::Subject;
