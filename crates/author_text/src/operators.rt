//! The operators, and how closely they bind.

ghost use Rattle.std.specs.Prelude.{◌≡◌};
ghost use Rattle.author_text.specs.Printed.{closer, left_level, operator_text, operator_level, rank};

use crate::source::BinaryOp;

/// How closely an operator binds.
#[derive(Clone, Copy, PartialEq, Eq)]
pub enum Level {
    Or,
    And,
    Compare,
    Sum,
    Product,
    Unit,
}

/// The operators.
pub const OPERATORS: [BinaryOp; 15] = [
    BinaryOp::Or,
    BinaryOp::And,
    BinaryOp::Less,
    BinaryOp::LessOrEqual,
    BinaryOp::Greater,
    BinaryOp::GreaterOrEqual,
    BinaryOp::Equal,
    BinaryOp::NotEqual,
    BinaryOp::Add,
    BinaryOp::Sub,
    BinaryOp::Times,
    BinaryOp::Over,
    BinaryOp::Modulo,
    BinaryOp::ShiftLeft,
    BinaryOp::ShiftRight,
];

/// The level that binds more closely.
pub fn closer(level: Level) -> Level
    ensures { result ≡ closer level }
{
    match level {
        Level::Or => Level::And,
        Level::And => Level::Compare,
        Level::Compare => Level::Sum,
        Level::Sum => Level::Product,
        Level::Product | Level::Unit => Level::Unit,
    }
}

/// How closely the left operand of an operator of this level binds at least: comparisons are not chained.
pub fn left_level(level: Level) -> Level
    ensures { result ≡ left_level level }
{
    match level {
        Level::Compare => Level::Sum,
        Level::Or | Level::And | Level::Sum | Level::Product | Level::Unit => level,
    }
}

/// The place of a level among all, from the loosest.
pub fn rank(level: Level) -> u8
    ensures { result ≡ rank level }
{
    match level {
        Level::Or => 0,
        Level::And => 1,
        Level::Compare => 2,
        Level::Sum => 3,
        Level::Product => 4,
        Level::Unit => 5,
    }
}

/// How an operator is written.
pub fn operator_text(op: BinaryOp) -> &'static str
    ensures { result.now ≡ operator_text op }
{
    match op {
        BinaryOp::Or => "or",
        BinaryOp::And => "and",
        BinaryOp::Less => "<",
        BinaryOp::LessOrEqual => "<=",
        BinaryOp::Greater => ">",
        BinaryOp::GreaterOrEqual => ">=",
        BinaryOp::Equal => "==",
        BinaryOp::NotEqual => "!=",
        BinaryOp::Add => "+",
        BinaryOp::Sub => "-",
        BinaryOp::Times => "*",
        BinaryOp::Over => "/",
        BinaryOp::Modulo => "%",
        BinaryOp::ShiftLeft => "<<",
        BinaryOp::ShiftRight => ">>",
    }
}

/// How closely an operator binds.
pub fn operator_level(op: BinaryOp) -> Level
    ensures { result ≡ operator_level op }
{
    match op {
        BinaryOp::Or => Level::Or,
        BinaryOp::And => Level::And,
        BinaryOp::Less
        | BinaryOp::LessOrEqual
        | BinaryOp::Greater
        | BinaryOp::GreaterOrEqual
        | BinaryOp::Equal
        | BinaryOp::NotEqual => Level::Compare,
        BinaryOp::Add | BinaryOp::Sub => Level::Sum,
        BinaryOp::Times
        | BinaryOp::Over
        | BinaryOp::Modulo
        | BinaryOp::ShiftLeft
        | BinaryOp::ShiftRight => Level::Product,
    }
}
