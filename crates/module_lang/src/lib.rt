//! The module language: module texts, and the modules that they spell.
#![tactic(auto)]

mod assembler;
mod draft;
mod entry;
mod handler;
mod lines;
mod operand;
mod print;
mod refusal;
pub mod text;

pub use assembler::assemble;
pub use byte_text::{
    Measured, TextWriter, WriteFault, measure, print_text, push_spelling, put_all, unquote,
};
pub use module_code::{Instr, KindTest, Module, PoolRef, Seq, Status, Value, VarRef, is_name};
pub use print::print_module;
pub use refusal::{AsmRefusal, Code};
