//! The reading of scripts: their texts, their commands, and the lines that are answered.
#![tactic(auto)]

mod command;
mod file_line;
mod lines;
mod names;
mod operands;
mod part;
mod pieces;
mod reply;
mod script;
mod texts;
mod words;

pub use byte_text::BlockBytes;
pub use command::{COMMAND_WORDS, Command, CommandForm, CommandWord, command_of};
pub use file_line::{FileLine, file_line_of};
pub use life_check::{Cert, CheckRefusal, CheckedChain, Rule};
pub use lines::{begins_cert, is_end};
pub use module_code::Module;
pub use names::{fault_name, fault_named, rule_name};
pub use operands::{CommandOperands, operands_of};
pub use part::{Refused, ScriptModule, accept_parts, modules_of};
pub use pieces::{MemoryKind, PieceRead, ScriptPiece, pieces_of};
pub use reply::{
    CommandReply, put_asm_fault, put_cert_fault, put_refused_at, put_refused_module, put_reply,
    put_script_fault,
};
pub use run_model::{FaultKind, Piece, Refusal, Seq, Stepped};
pub use script::{DEFAULT_BUDGET, LINE_BYTES, budget_at, command_at, is_checked};
pub use texts::{LineTaken, MODULES, Texts, begins_module, is_skipped};
pub use words::{after_number, copied, is_parted, number_at};
