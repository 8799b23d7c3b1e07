//! The operands of a line.

ghost use Rattle.std.specs.Prelude.{◌≡◌, ◌<◌, ◌≤◌, length, IsTrue};
ghost use Rattle.module_lang.specs.Prelude.{begins, tail, numbered, is_one, place_in, pool_in, brigade_in, source_in, ending_in, label_in, variable_in, number_in, constant_in, value_in, cursor_in};
ghost use Rattle.module_lang.specs.Prelude.{kind_test_at, kind_test_in, operand_place, operand_in, text_operand, operand_at, after_text, after_operand, operands_at};

use crate::refusal::Code;
use byte_text::{after_token, begins, constant_of, is_text, measure, tail, token};
use module_code::{
    KindTest, Name, Operand, OperandKind, OperandKinds, Operands, PoolRef, Status, Value, name_of,
};

/// The number of the variable that is written by this letter and a digit from 0 to 7.
fn numbered(letter: u8, token: &[u8]) -> Option<u8>
    ensures { result ≡ numbered letter token.now }
{
    if token.len() == 2 && token[0] == letter && b'0' <= token[1] && token[1] <= b'7' {
        Some(token[1] - b'0')
    } else {
        None
    }
}

fn one_in(token: &[u8]) -> Option<Operand>
    ensures { result ≡ is_one token.now }
{
    if is_text(token, b"1") {
        Some(Operand::One)
    } else {
        None
    }
}

fn pool_in(token: &[u8]) -> Option<Operand>
    ensures { result ≡ pool_in token.now }
{
    Some(Operand::Place(PoolRef::Own(numbered(b'p', token)?)))
}

fn place_in(token: &[u8]) -> Option<Operand>
    ensures { result ≡ place_in token.now }
{
    if is_text(token, b"conn") {
        return Some(Operand::Place(PoolRef::Conn));
    }
    if is_text(token, b"req") {
        return Some(Operand::Place(PoolRef::Req));
    }
    pool_in(token)
}

fn brigade_in(token: &[u8]) -> Option<Operand>
    ensures { result ≡ brigade_in token.now }
{
    Some(Operand::Brigade(numbered(b'b', token)?))
}

fn source_in(token: &[u8]) -> Option<Operand>
    ensures { result ≡ source_in token.now }
{
    if is_text(token, b"in") {
        return Some(Operand::Brigade(8));
    }
    brigade_in(token)
}

fn ending_in(token: &[u8]) -> Option<Operand>
    ensures { result ≡ ending_in token.now }
{
    if is_text(token, b"ok") {
        return Some(Operand::Ending(Status::Success));
    }
    if is_text(token, b"fail") {
        return Some(Operand::Ending(Status::Fail));
    }
    None
}

fn label_in(token: &[u8]) -> Option<Operand>
    ensures { result ≡ label_in token.now }
{
    Some(Operand::Label(name_of(token)?))
}

fn variable_in(token: &[u8]) -> Option<Operand>
    ensures { result ≡ variable_in token.now }
{
    if begins(token, b'p') {
        return pool_in(token);
    }
    brigade_in(token)
}

fn number_in(token: &[u8]) -> Option<Operand>
    ensures { result ≡ number_in token.now }
{
    Some(Operand::Value(Value::Number(numbered(b'n', token)?)))
}

fn constant_in(token: &[u8]) -> Option<Operand>
    ensures { result ≡ constant_in token.now }
{
    Some(Operand::Value(Value::Constant(constant_of(token)?)))
}

fn value_in(token: &[u8]) -> Option<Operand>
    ensures { result ≡ value_in token.now }
{
    if begins(token, b'n') {
        return number_in(token);
    }
    constant_in(token)
}

fn cursor_in(token: &[u8]) -> Option<Operand>
    ensures { result ≡ cursor_in token.now }
{
    Some(Operand::Cursor(numbered(b'c', token)?))
}

const KIND_TESTS: [KindTest; 8] = [
    KindTest::Heap,
    KindTest::Transient,
    KindTest::Immortal,
    KindTest::Pool,
    KindTest::File,
    KindTest::Flush,
    KindTest::Eos,
    KindTest::Data,
];

fn kind_test_of(token: &[u8]) -> Option<KindTest>
    ensures { result ≡ kind_test_at token.now }
{
    KIND_TESTS.iter().copied().find(|kind| kind.text() == token)
}

fn kind_test_in(token: &[u8]) -> Option<Operand>
    ensures { result ≡ kind_test_in token.now }
{
    Some(Operand::KindTest(kind_test_of(token)?))
}

/// The operand of a kind that a token without spaces spells.
#[tactic(auto, unfolding(crate::specs::Operands::operand_in))]
fn operand_in(kind: OperandKind, token: &[u8]) -> Option<Operand>
    ensures { result ≡ operand_in kind token.now }
{
    match kind {
        OperandKind::Nothing => None,
        OperandKind::One => one_in(token),
        OperandKind::Place => place_in(token),
        OperandKind::Pool => pool_in(token),
        OperandKind::Brigade => brigade_in(token),
        OperandKind::Source => source_in(token),
        OperandKind::Ending => ending_in(token),
        OperandKind::Label => label_in(token),
        OperandKind::Text => None,
        OperandKind::Variable => variable_in(token),
        OperandKind::Number => number_in(token),
        OperandKind::Value => value_in(token),
        OperandKind::Cursor => cursor_in(token),
        OperandKind::KindTest => kind_test_in(token),
    }
}

/// The pool that an operand names, of one that names none the connection's.
pub fn operand_place(operand: Operand) -> PoolRef
    ensures { result ≡ operand_place operand }
{
    match operand {
        Operand::Place(place) => place,
        _ => PoolRef::Conn,
    }
}

fn text_operand(bytes: &[u8]) -> Result<Operand, Code>
    ensures { result ≡ text_operand bytes.now }
{
    if !begins(bytes, b'"') {
        return Err(Code::WrongOperands);
    }
    match measure(bytes) {
        Some(measured) => Ok(Operand::Text(measured.len)),
        None => Err(Code::FaultyText),
    }
}

/// The operand of a kind that these bytes begin with, after one space.
#[tactic(auto, unfolding(crate::specs::Operands::operand_at))]
fn operand_at(kind: OperandKind, rest: &[u8]) -> Result<Operand, Code>
    ensures { result ≡ operand_at kind rest.now }
{
    if matches!(kind, OperandKind::Nothing) {
        return Ok(Operand::Nothing);
    }
    if !begins(rest, b' ') {
        return Err(Code::WrongOperands);
    }
    if matches!(kind, OperandKind::Text) {
        return text_operand(tail(rest));
    }
    match operand_in(kind, token(tail(rest))) {
        Some(operand) => Ok(operand),
        None => Err(Code::WrongOperands),
    }
}

fn after_text(bytes: &[u8]) -> &[u8]
    ensures { result.now ≡ after_text bytes.now }
{
    match measure(bytes) {
        Some(measured) => &bytes[measured.used..],
        None => bytes,
    }
}

/// What follows the operand of a kind.
#[tactic(auto, unfolding(crate::specs::Operands::after_operand))]
fn after_operand(kind: OperandKind, rest: &[u8]) -> &[u8]
    ensures { result.now ≡ after_operand kind rest.now }
{
    match kind {
        OperandKind::Nothing => rest,
        OperandKind::Text => after_text(tail(rest)),
        _ => after_token(tail(rest)),
    }
}

/// The operands that follow a word. They are wrong where one is not of its kind, where no single space stands before
/// one, and where more follows the last; a text in quotes may be faulty.
#[tactic(auto, unfolding(crate::specs::Operands::operands_at))]
pub fn operands_at(kinds: OperandKinds, rest: &[u8]) -> Result<Operands, Code>
    ensures { result ≡ operands_at kinds rest.now }
{
    let first = operand_at(kinds.first, rest)?;
    let rest = after_operand(kinds.first, rest);
    let second = operand_at(kinds.second, rest)?;
    let rest = after_operand(kinds.second, rest);
    let third = operand_at(kinds.third, rest)?;
    let rest = after_operand(kinds.third, rest);
    let fourth = operand_at(kinds.fourth, rest)?;
    let rest = after_operand(kinds.fourth, rest);
    if !rest.is_empty() {
        return Err(Code::WrongOperands);
    }
    Ok(Operands {
        first,
        second,
        third,
        fourth,
    })
}
