//! Abstract states of a filter instance, their order, and the rules by which each instruction leads from one to the next.
#![tactic(auto)]

mod build;
mod clears;
mod compared;
mod contents;
mod cursors;
mod facts;
mod form;
mod handlers;
mod homes;
mod joins;
pub mod laws;
mod motions;
mod needs;
mod order;
mod parts;
mod pools;
mod rules;
mod state;
mod steps;
mod successors;

pub use compared::leq;
pub use handlers::{at_end_of_request, at_main, at_open, at_return};
pub use joins::join;
pub use module_code::{Module, PoolRef};
pub use parts::{BrigadeState, Classes, Contents, CursorState, HomeSet, PoolSet, PoolState};
pub use rules::after;
pub use run_model::FaultKind;
pub use state::State;
pub use successors::Successors;
