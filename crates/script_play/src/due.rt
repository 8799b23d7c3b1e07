//! The commands of a script, where they may stand there.

ghost use Rattle.std.specs.Prelude.{◌≡◌, IfOk};
ghost use Rattle.bucket_kinds.specs.MemDevice.{mem_device};
ghost use Rattle.script_play.specs.Plays.{is_due, due_at};

use filter_chain::MemFiles;
use script_text::{Command, command_at};
use std::alloc::{AllocError, Global};

/// Whether a command may stand here: no name is given to a second file.
fn is_due(command: &Command, files: &MemFiles) -> bool
    ensures { result ≡ is_due (mem_device files.now) command.now }
{
    match command {
        Command::File(line) => !files.has(line.name.as_slice()),
        _ => true,
    }
}

/// The command of a line, where it may stand there, with these files.
// Apart from what is done with commands: the frame of a function, and of all that are inlined into it, is set to zero at each call.
#[inline(never)]
pub fn due_command(
    alloc: Global,
    text: &[u8],
    ended: bool,
    files: &MemFiles,
) -> Result<Option<Command>, AllocError>
    ensures { IfOk result (λ c. c ≡ due_at (mem_device files.now) (record { text = text.now; ended = ended })) }
{
    let Some(command) = command_at(alloc, text, ended)? else {
        return Ok(None);
    };
    if is_due(&command, files) {
        Ok(Some(command))
    } else {
        Ok(None)
    }
}
