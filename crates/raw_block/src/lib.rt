//! Raw blocks: rows of places for values of one type, each place empty or full.
#![tactic(auto)]

mod block;
mod cells;

pub use block::Block;
