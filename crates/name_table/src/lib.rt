//! Values by names that are given out one after the other.
#![tactic(auto)]

mod hashing;
mod table;

pub use hashing::NameHasher;
pub use table::NameTable;
