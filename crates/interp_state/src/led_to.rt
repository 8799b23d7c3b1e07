//! Which instruction comes next.

ghost use Rattle.std.specs.Prelude.{◌≡◌, ◌<◌, ◌^◌};
ghost use Rattle.run_model.specs.Chains.{led_to};

use run_model::{Exit, Instr};

/// The number of the instruction to which an instruction leads that has this number.
pub fn led_to(exit: Exit, instr: Instr, pc: usize) -> usize
    requires { pc < 1024 }
    ensures { result ≡ led_to exit instr pc }
{
    match exit {
        Exit::GoOn => pc + 1,
        Exit::Jump => instr.target(),
        Exit::Return => pc,
    }
}
