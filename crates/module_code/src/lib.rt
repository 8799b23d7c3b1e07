//! A module as a value: its instructions, their operands and words, its declarations and texts.
#![tactic(auto)]

mod arg;
mod instr;
mod module;
mod name;
mod operand;
mod part;
pub mod parts;
mod seq;
mod word;

pub use arg::{Arg, Args};
pub use instr::{Instr, KindTest, PoolRef, Status, Value, VarRef};
pub use module::Module;
pub use name::{Name, is_name, name_of};
pub use operand::{Operand, Operands};
pub use part::Part;
pub use seq::Seq;
pub use word::{Op, OperandKind, OperandKinds, WORDS, Word, word_of};
