//! Nodes of rings in one raw block, each with its own links.
#![tactic(auto)]

mod node;
mod nodes;

pub use node::{Load, Node, SlotBucket};
pub use nodes::Nodes;
