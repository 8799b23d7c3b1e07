//! The operands of an instruction as they are written.

use crate::instr::{KindTest, PoolRef, Status, Value};
use crate::name::Name;

/// An operand of a line.
#[derive(Clone, Copy)]
pub enum Operand {
    /// None.
    Nothing,
    /// The version.
    One,
    /// A pool.
    Place(PoolRef),
    /// A brigade variable, or 8 for `in`.
    Brigade(u8),
    /// How a call ends.
    Ending(Status),
    /// A label.
    Label(Name),
    /// A text of so many bytes.
    Text(usize),
    /// A number variable or a constant.
    Value(Value),
    /// A cursor.
    Cursor(u8),
    /// What is asked of a bucket's kind.
    KindTest(KindTest),
}

/// The operands of a line, `Nothing` behind the last.
#[derive(Clone, Copy)]
pub struct Operands {
    pub first: Operand,
    pub second: Operand,
    pub third: Operand,
    pub fourth: Operand,
}
