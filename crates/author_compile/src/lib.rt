//! Filters of authors are compiled: to modules with certificates, which the check accepted.
#![tactic(auto)]

mod compilation;
mod error;

pub use author_code::{CompileFault, PerByte};
pub use author_text::place::Place;
pub use author_text::tree::Filter;
pub use compilation::{Compiled, compile};
pub use error::CompileError;
pub use life_check::{Cert, CheckRefusal};
pub use module_code::Module;
pub use module_lang::AsmRefusal;
