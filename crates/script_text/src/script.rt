//! What the lines of a script say behind its texts.

ghost use Rattle.std.specs.Prelude.{◌≡◌, IfOk};
ghost use Rattle.script_text.specs.Scripts.{budget_at, is_checked, command_at};

use crate::command::{Command, command_of};
use byte_text::{decimal_u64, is_text};
use std::alloc::{AllocError, Global};

/// How many bytes a command line has at most, without its LF.
pub const LINE_BYTES: usize = 65_536;

/// How many instructions a call may take where a script says nothing of it.
pub const DEFAULT_BUDGET: u64 = 1_000_000;

/// The number of a line `budget N`. `None` where it is no such line.
#[tactic(auto, unfolding(crate::specs::Scripts::budget_at))]
pub fn budget_at(text: &[u8], ended: bool) -> Option<u64>
    ensures { result ≡ budget_at (record { text = text.now; ended = ended }) }
{
    if !ended || !text.starts_with(b"budget ") {
        return None;
    }
    decimal_u64(&text[7..])
}

/// Whether a line is `checked`.
pub fn is_checked(text: &[u8], ended: bool) -> bool
    ensures { result ≡ is_checked (record { text = text.now; ended = ended }) }
{
    ended && is_text(text, b"checked")
}

/// The command of a line. `None` where it says none, is longer than `LINE_BYTES`, or has no LF.
#[tactic(auto, unfolding(crate::specs::Scripts::command_at))]
pub fn command_at(alloc: Global, text: &[u8], ended: bool) -> Result<Option<Command>, AllocError>
    ensures { IfOk result (λ c. c ≡ command_at (record { text = text.now; ended = ended })) }
{
    if !ended || text.len() > LINE_BYTES {
        return Ok(None);
    }
    command_of(alloc, text)
}
