//! The code generator of the language for authors: from a filter to the text of a module, and what its certificate says.
#![tactic(auto)]

mod buffer;
mod code;
mod conditions;
mod cost;
mod error;
mod generator;
mod handlers;
mod known;
mod limits;
mod listing;
mod loops;
mod math;
mod messages;
mod plan;
mod puts;
mod range;
mod ranges;
mod statements;
mod states;
mod survey;
mod tables;
mod written;

pub use author_text::place::Place;
pub use author_text::tree::Filter;
pub use cost::{PerByte, per_byte};
pub use error::{CodeError, CompileFault, Need};
pub use life_state::State;
pub use messages::fault_text;
pub use module_code::Module;
pub use written::{Written, write_module};
