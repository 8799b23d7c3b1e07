//! Certificates: their maker, and their text.
#![tactic(auto)]

mod draft;
mod due;
mod fixpoint;
mod handing;
pub mod laws;
mod maker;
mod print;
mod print_state;
mod read;
mod refusal;
mod repeats;
mod slimming;
mod state_sum;
mod state_text;
mod unread;
mod upgrading;

pub use byte_text::{TextWriter, WriteFault};
pub use fixpoint::{Arrival, Fixpoint, StatePlace};
pub use life_check::{Cert, Rule};
pub use life_state::State;
pub use maker::{least_fixpoint, make, round_count};
pub use module_code::Module;
pub use print::print_cert;
pub use read::read_cert;
pub use refusal::{CertCode, CertRefusal, MakeRefusal, UpgradeRefusal};
pub use slimming::slim;
pub use upgrading::upgrade;
