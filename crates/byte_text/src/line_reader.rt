//! Texts that are read line by line.

ghost use Rattle.std.specs.Prelude.{◌≡◌, ℕ, ◌+◌, ◌-◌, ◌<◌, ◌≤◌, ◌^◌, [], List, Result, drop, length, IfOk, OnOk, IfErr};
ghost use Rattle.byte_text.specs.LineReading.{AreTaken, IsFirstRefused};
ghost use Rattle.byte_text.specs.TextLines.{lines_from, rest_from};

use std::alloc::Global;

/// What takes the lines of a text one after another.
pub trait TakesLines: Drop {
    /// Why a line is refused.
    type Refusal;

    /// Whether the next line may be taken.
    ghost can_take: { Self → Type 0 };

    /// What a line does: the state before it, its number, the line, the answer, and the state that it leaves.
    ghost takes: { Self → ℕ → List ℕ → Result (Unit {0}) Self.Refusal → Self → Type 0 };

    /// Takes the next line, without its LF, by its number, which counts from 1.
    fn take_line(&mut self, alloc: Global, number: usize, line: &[u8]) -> Result<(), Self::Refusal>
        requires { can_take self.old }
        ensures takes { takes self.old number line.now result self.new }
        ensures next { OnOk result (can_take self.new) };
}

/// What stands behind the last LF of a text.
#[derive(Clone, Copy)]
pub struct LastLine {
    /// Its number as a line, counted from 1.
    pub number: usize,
    /// Where it begins in the text.
    pub start: usize,
}

/// Takes the lines of a text that end with an LF, and tells what stands behind them; or refuses the first that is refused.
pub fn take_lines<R: TakesLines>(
    alloc: Global,
    reader: &mut R,
    text: &[u8],
) -> Result<LastLine, R::Refusal>
    requires small { length text.now < 2 ^ 64 - 1 }
    requires ready { R.can_take reader.old }
    ensures taken { OnOk result (AreTaken R.takes reader.old 1 (lines_from [] text.now) reader.new) }
    ensures ready { OnOk result (R.can_take reader.new) }
    ensures last { IfOk result (λ l. (l.number ≡ length (lines_from [] text.now) + 1) × (drop l.start text.now ≡ rest_from [] text.now) × (l.start ≤ length text.now)) }
    ensures refused { IfErr result (λ e. IsFirstRefused R.takes reader.old (lines_from [] text.now) e reader.new) }
{
    let mut number = 1;
    let mut start = 0;
    for (i, byte) in text.iter().enumerate() {
        if *byte == b'\n' {
            reader.take_line(alloc, number, &text[start..i])?;
            number += 1;
            start = i + 1;
        }
    }
    Ok(LastLine { number, start })
}
