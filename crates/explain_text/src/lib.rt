//! Help with a line that is of no module text, of no certificate text or no command, and with a command that is refused; the lines of a
//! module text, and the words for what may be so in a state.
#![tactic(auto)]

mod answers;
mod doubt;
mod faulty;
mod forms;
mod page;
mod patterns;
mod script;
mod source;
mod state_words;
mod words;

pub use answers::{AnsweredCommand, is_told, write_refused};
pub use doubt::{Doubt, Sort, SortRow, Topic, brigade_name, cursor_name, cursor_text, pool_text};
pub use faulty::{shown, write_asm_fault, write_cert_fault, write_script_fault};
pub use life_cert::CertCode;
pub use life_state::State;
pub use module_code::PoolRef;
pub use module_lang::Code;
pub use page::Page;
pub use patterns::{Pattern, fault_of};
pub use run_model::FaultKind;
pub use script::{Script, ScriptLine, ScriptText, lines_of};
pub use source::{Edit, ModuleLine, ModuleText, NO_LINE, cut};
pub use state_words::{put_known, put_rule};
pub use words::{last_word, number, stands_in, text_of, word};
