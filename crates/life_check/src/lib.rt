//! The checker of certificates: it accepts a module whose states, handed in with it, follow from one another by the rules.
#![tactic(auto)]

mod cert;
mod chain;
mod checked;
mod entries;
pub mod laws;
mod lines;
mod refusal;
mod shape;
mod slim;
mod version;

pub use cert::Cert;
pub use chain::{CheckedChain, accept_chain};
pub use checked::check;
pub use life_state::State;
pub use module_code::Module;
pub use refusal::{ChainRefusal, CheckRefusal, Rule};
pub use run_model::FaultKind;
pub use slim::leaders;
pub use version::CertVersion;
