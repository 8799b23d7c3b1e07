//! What a line says, and whether it may say so there.

ghost use Rattle.std.specs.Prelude.{◌≡◌, ◌≤◌, ◌+◌, length, not, slice_index_or, Ok};
ghost use Rattle.module_lang.specs.Prelude.{unless, is_due, is_handler, is_main, is_open, known_word, same_brigade, has_equal_brigades, is_long_text, has_long_text, is_text_operand, has_text};
ghost use Rattle.module_lang.specs.Prelude.{place_is_declared, is_declared, are_declared, under_req, is_main_only, has_main_only, touches_req, any_touches_req, is_misplaced, instruction_count};
ghost use Rattle.module_lang.specs.Prelude.{has_room, is_next, declaration_judged, op_judged, judged, label_read, item_read, line_read};

use crate::draft::Draft;
use crate::operand::operands_at;
use crate::refusal::Code;
use byte_text::{after_token, all_printable, begins, tail, token, unindented};
use module_code::{Name, Op, Operand, Operands, Part, PoolRef, Status, Word, name_of, word_of};

/// What a line says.
#[derive(Clone, Copy)]
pub enum Line {
    /// Nothing: it is empty or a comment.
    Skipped,
    /// A label.
    Label(Name),
    /// A word and its operands.
    Item(Word, Operands),
}

fn is_due(part: Part, word: Word) -> bool
    ensures { result ≡ is_due part word }
{
    match part {
        Part::Start => matches!(word, Word::Module),
        Part::Pools => matches!(word, Word::Pool | Word::Brigade | Word::Open),
        Part::Brigades => matches!(word, Word::Brigade | Word::Open),
        Part::Open => matches!(word, Word::Op(_) | Word::Init),
        Part::Init => matches!(word, Word::Op(_) | Word::Main),
        Part::Main => matches!(word, Word::Op(_) | Word::End),
        Part::End => false,
    }
}

fn is_handler(part: Part) -> bool
    ensures { result ≡ is_handler part }
{
    matches!(part, Part::Open | Part::Init | Part::Main)
}

fn is_main(part: Part) -> bool
    ensures { result ≡ is_main part }
{
    matches!(part, Part::Main)
}

fn is_open(part: Part) -> bool
    ensures { result ≡ is_open part }
{
    matches!(part, Part::Open)
}

fn unless(fault: bool, code: Code) -> Result<(), Code>
    ensures { result ≡ unless fault code }
{
    if fault { Err(code) } else { Ok(()) }
}

fn same_brigade(a: Operand, b: Operand) -> bool
    ensures { result ≡ same_brigade a b }
{
    match a {
        Operand::Brigade(x) => match b {
            Operand::Brigade(y) => x == y,
            _ => false,
        },
        _ => false,
    }
}

fn has_equal_brigades(operands: Operands) -> bool
    ensures { result ≡ has_equal_brigades operands }
{
    same_brigade(operands.first, operands.second)
        || same_brigade(operands.first, operands.third)
        || same_brigade(operands.second, operands.third)
}

fn is_long_text(operand: Operand) -> bool
    ensures { result ≡ is_long_text operand }
{
    match operand {
        Operand::Text(len) => 255 < len,
        _ => false,
    }
}

fn has_long_text(operands: Operands) -> bool
    ensures { result ≡ has_long_text operands }
{
    is_long_text(operands.first)
        || is_long_text(operands.second)
        || is_long_text(operands.third)
        || is_long_text(operands.fourth)
}

fn is_text_operand(operand: Operand) -> bool
    ensures { result ≡ is_text_operand operand }
{
    matches!(operand, Operand::Text(_))
}

/// Whether one of the operands is a text.
pub fn has_text(operands: Operands) -> bool
    ensures { result ≡ has_text operands }
{
    is_text_operand(operands.first)
        || is_text_operand(operands.second)
        || is_text_operand(operands.third)
        || is_text_operand(operands.fourth)
}

fn place_is_declared(pools: usize, place: PoolRef) -> bool
    ensures { result ≡ place_is_declared pools place }
{
    match place {
        PoolRef::Conn => true,
        PoolRef::Req => true,
        PoolRef::Own(i) => usize::from(i) < pools,
    }
}

fn is_declared(pools: usize, brigades: usize, operand: Operand) -> bool
    ensures { result ≡ is_declared pools brigades operand }
{
    match operand {
        Operand::Place(place) => place_is_declared(pools, place),
        Operand::Brigade(b) => usize::from(b) < brigades || b == 8,
        _ => true,
    }
}

fn are_declared(pools: usize, brigades: usize, operands: Operands) -> bool
    ensures { result ≡ are_declared pools brigades operands }
{
    is_declared(pools, brigades, operands.first)
        && is_declared(pools, brigades, operands.second)
        && is_declared(pools, brigades, operands.third)
        && is_declared(pools, brigades, operands.fourth)
}

fn parent_of(pools: &[PoolRef], i: u8) -> PoolRef
    ensures { result ≡ slice_index_or pools.now i PoolRef.Conn }
{
    let i = usize::from(i);
    if i < pools.len() {
        pools[i]
    } else {
        PoolRef::Conn
    }
}

/// Whether a pool is `req` or lies under it.
fn under_req(pools: &[PoolRef], pool: PoolRef) -> bool
    ensures { result ≡ under_req 9 pools.now pool }
{
    let mut at = pool;
    for _ in 0..9u8 {
        match at {
            PoolRef::Conn => return false,
            PoolRef::Req => return true,
            PoolRef::Own(i) => at = parent_of(pools, i),
        }
    }
    false
}

fn is_main_only(operand: Operand) -> bool
    ensures { result ≡ is_main_only operand }
{
    match operand {
        Operand::Brigade(b) => b == 8,
        Operand::Ending(Status::Fail) => true,
        _ => false,
    }
}

fn has_main_only(op: Op, operands: Operands) -> bool
    ensures { result ≡ has_main_only op operands }
{
    matches!(op, Op::Pass | Op::Leave)
        || is_main_only(operands.first)
        || is_main_only(operands.second)
        || is_main_only(operands.third)
        || is_main_only(operands.fourth)
}

fn touches_req(pools: &[PoolRef], brigades: &[PoolRef], operand: Operand) -> bool
    ensures { result ≡ touches_req pools.now brigades.now operand }
{
    match operand {
        Operand::Place(place) => under_req(pools, place),
        Operand::Brigade(b) => under_req(pools, parent_of(brigades, b)),
        _ => false,
    }
}

fn any_touches_req(pools: &[PoolRef], brigades: &[PoolRef], operands: Operands) -> bool
    ensures { result ≡ any_touches_req pools.now brigades.now operands }
{
    touches_req(pools, brigades, operands.first)
        || touches_req(pools, brigades, operands.second)
        || touches_req(pools, brigades, operands.third)
        || touches_req(pools, brigades, operands.fourth)
}

/// Whether an instruction may not stand in this handler.
fn is_misplaced(draft: &Draft, op: Op, operands: Operands) -> bool
    ensures { result ≡ is_misplaced draft.now op operands }
{
    (!is_main(draft.part) && has_main_only(op, operands))
        || (is_open(draft.part)
            && any_touches_req(draft.pools.as_slice(), draft.brigades.as_slice(), operands))
}

fn instruction_count(draft: &Draft) -> usize
    requires { instruction_count draft.now ≤ 1024 }
    ensures { result ≡ instruction_count draft.now }
{
    draft.open.steps.len() + draft.init.steps.len() + draft.main.steps.len()
}

fn has_room(draft: &Draft, operands: Operands) -> bool
    requires { instruction_count draft.now ≤ 1024 }
    ensures { result ≡ has_room draft.now operands }
{
    instruction_count(draft) < 1024 && (!has_text(operands) || draft.texts.len() < 64)
}

fn is_next(count: usize, operand: Operand) -> bool
    ensures { result ≡ is_next count operand }
{
    match operand {
        Operand::Place(PoolRef::Own(i)) => usize::from(i) == count,
        Operand::Brigade(i) => usize::from(i) == count,
        _ => false,
    }
}

fn judge_declaration(count: usize, pools: usize, operands: Operands) -> Result<(), Code>
    ensures { result ≡ declaration_judged count pools operands }
{
    unless(!is_next(count, operands.first), Code::WrongOperands)?;
    unless(!is_declared(pools, 0, operands.second), Code::Undeclared)
}

fn judge_op(draft: &Draft, op: Op, operands: Operands) -> Result<(), Code>
    requires { instruction_count draft.now ≤ 1024 }
    ensures { result ≡ op_judged draft.now op operands }
{
    unless(has_equal_brigades(operands), Code::WrongOperands)?;
    unless(has_long_text(operands), Code::FaultyText)?;
    let declared = are_declared(draft.pools.len(), draft.brigades.len(), operands);
    unless(!declared, Code::Undeclared)?;
    unless(is_misplaced(draft, op, operands), Code::Misplaced)?;
    unless(!has_room(draft, operands), Code::TooMany)
}

#[tactic(auto, unfolding(crate::specs::Lines::judged))]
fn judge(draft: &Draft, word: Word, operands: Operands) -> Result<(), Code>
    requires { instruction_count draft.now ≤ 1024 }
    ensures { result ≡ judged draft.now word operands }
{
    match word {
        Word::Pool => judge_declaration(draft.pools.len(), draft.pools.len(), operands),
        Word::Brigade => judge_declaration(draft.brigades.len(), draft.pools.len(), operands),
        Word::Op(op) => judge_op(draft, op, operands),
        _ => Ok(()),
    }
}

fn read_label(draft: &Draft, name: &[u8]) -> Result<Line, Code>
    ensures { result ≡ label_read draft.now name.now }
{
    unless(!is_handler(draft.part), Code::NotDue)?;
    match name_of(name) {
        Some(name) => Ok(Line::Label(name)),
        None => Err(Code::WrongOperands),
    }
}

fn known_word(token: &[u8]) -> Result<Word, Code>
    ensures { result ≡ known_word token.now }
{
    match word_of(token) {
        Some(word) => Ok(word),
        None => Err(Code::UnknownWord),
    }
}

#[tactic(auto, unfolding(crate::specs::Lines::item_read))]
fn read_item(draft: &Draft, bytes: &[u8]) -> Result<Line, Code>
    requires { instruction_count draft.now ≤ 1024 }
    ensures { result ≡ item_read draft.now bytes.now }
{
    let word = known_word(token(bytes))?;
    unless(!is_due(draft.part, word), Code::NotDue)?;
    let operands = operands_at(word.kinds(), after_token(bytes))?;
    judge(draft, word, operands)?;
    Ok(Line::Item(word, operands))
}

/// What a line says where these lines came before it, or the lowest code of those that fit it.
#[tactic(auto, unfolding(crate::specs::Lines::line_read))]
pub fn read_line(draft: &Draft, line: &[u8]) -> Result<Line, Code>
    requires { instruction_count draft.now ≤ 1024 }
    ensures { result ≡ line_read draft.now line.now }
{
    if !all_printable(line) {
        return Err(Code::BadByte);
    }
    let bytes = unindented(line);
    if bytes.is_empty() || begins(bytes, b'#') {
        return Ok(Line::Skipped);
    }
    if begins(bytes, b':') {
        return read_label(draft, tail(bytes));
    }
    read_item(draft, bytes)
}
