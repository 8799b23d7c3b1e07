//! Help for the author of a module that is refused: what stands in the way, where it comes from, and what to write instead.
#![tactic(auto)]

mod capitals;
mod certificate;
mod flow;
mod help;
mod needs;
mod play;
mod remedy;
mod rules;
mod session;
mod told;
mod trail;

pub use help::{explain_certify, explain_check, explain_upgrade};
pub use play::explain_play;
pub use script_text::fault_name;
