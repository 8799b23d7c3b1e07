//! The operands of an instruction, by their kinds.

ghost use Rattle.std.specs.Prelude.{◌≡◌};
ghost use Rattle.module_code.specs.Args.{arg_aim, arg_index, arg_kind_test, arg_place, arg_status, arg_text, arg_value, arg_variable, no_arg};
ghost use Rattle.module_code.specs.Args.{one_arg, four_args, three_args, two_args};

use crate::instr::{KindTest, PoolRef, Status, Value, VarRef};

/// An operand of an instruction.
#[derive(Clone, Copy)]
pub enum Arg {
    /// None.
    Nothing,
    /// `conn`, `req` or a pool variable.
    Place(PoolRef),
    /// A pool variable.
    Pool(u8),
    /// A brigade variable.
    Brigade(u8),
    /// A brigade variable, or 8 for `in`.
    Source(u8),
    /// How a call ends.
    Ending(Status),
    /// The number of the instruction behind a label.
    Target(u16),
    /// The number of a text.
    Text(u8),
    /// A pool variable or a brigade variable.
    Variable(VarRef),
    /// A number variable.
    Number(u8),
    /// A number variable or a constant.
    Value(Value),
    /// A cursor.
    Cursor(u8),
    /// What is asked of a bucket's kind.
    KindTest(KindTest),
}

/// The operands of an instruction, `Nothing` behind the last.
#[derive(Clone, Copy)]
pub struct Args {
    pub first: Arg,
    pub second: Arg,
    pub third: Arg,
    pub fourth: Arg,
}

impl Args {
    pub fn none() -> Self
        ensures { result ≡ no_arg }
    {
        Args::one(Arg::Nothing)
    }

    pub fn one(first: Arg) -> Self
        ensures { result ≡ one_arg first }
    {
        Args::two(first, Arg::Nothing)
    }

    pub fn two(first: Arg, second: Arg) -> Self
        ensures { result ≡ two_args first second }
    {
        Args::three(first, second, Arg::Nothing)
    }

    pub fn three(first: Arg, second: Arg, third: Arg) -> Self
        ensures { result ≡ three_args first second third }
    {
        Args::four(first, second, third, Arg::Nothing)
    }

    pub fn four(first: Arg, second: Arg, third: Arg, fourth: Arg) -> Self
        ensures { result ≡ four_args first second third fourth }
    {
        Args {
            first,
            second,
            third,
            fourth,
        }
    }
}

impl Arg {
    /// The number of the variable or cursor that it names.
    pub fn index(self) -> u8
        ensures { result ≡ arg_index self }
    {
        match self {
            Arg::Pool(i) | Arg::Brigade(i) | Arg::Source(i) | Arg::Number(i) | Arg::Cursor(i) => i,
            _ => 0,
        }
    }

    pub fn place(self) -> PoolRef
        ensures { result ≡ arg_place self }
    {
        match self {
            Arg::Place(place) => place,
            _ => PoolRef::Conn,
        }
    }

    pub fn status(self) -> Status
        ensures { result ≡ arg_status self }
    {
        match self {
            Arg::Ending(status) => status,
            _ => Status::Success,
        }
    }

    pub fn variable(self) -> VarRef
        ensures { result ≡ arg_variable self }
    {
        match self {
            Arg::Variable(variable) => variable,
            _ => VarRef::Pool(0),
        }
    }

    pub fn value(self) -> Value
        ensures { result ≡ arg_value self }
    {
        match self {
            Arg::Value(value) => value,
            _ => Value::Constant(0),
        }
    }

    pub fn kind_test(self) -> KindTest
        ensures { result ≡ arg_kind_test self }
    {
        match self {
            Arg::KindTest(kind) => kind,
            _ => KindTest::Data,
        }
    }

    /// The number of the instruction that it names, of one that names none 0.
    pub fn aim(self) -> u16
        ensures { result ≡ arg_aim self }
    {
        match self {
            Arg::Target(number) => number,
            _ => 0,
        }
    }

    /// The number of the text that it names, of one that names none 0.
    pub fn text(self) -> u8
        ensures { result ≡ arg_text self }
    {
        match self {
            Arg::Text(number) => number,
            _ => 0,
        }
    }
}
