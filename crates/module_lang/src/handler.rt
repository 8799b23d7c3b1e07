//! The handlers of a draft: their labels, and where they end.

ghost use Rattle.std.specs.Prelude.{◌≡◌, ℕ, ◌++◌, ◌+◌, ◌≤◌, ◌<◌, [], List, All, None, IfOk, IfSome, IfErr, OnOk, OnErr, length, map, is_some};
ghost use Rattle.std.specs.BTreeMap.{get};
ghost use Rattle.std.specs.Cmp.Lexicographic.{slice_cmp};
ghost use Rattle.std.specs.Ordering.{nat_cmp};
ghost use Rattle.module_lang.specs.declared.draft.Label.{Label};
ghost use Rattle.module_lang.specs.Prelude.{Tells, IsPlaces, IsSeen, label_fault, operand_label, label_of, is_lost, jump_fault, ends_open, sooner, place_of, handler_fault, operand_index};
ghost use Rattle.module_lang.specs.Prelude.{operand_kind_test, operand_status, operand_variable, operand_value, arg_in, args_in, instr_of, target_place, step_code, handler_resolved, HasPlacesBelow};

use crate::draft::{DraftStep, HandlerLines, Label};
use crate::operand::operand_place;
use crate::refusal::{AsmRefusal, Code};
use module_code::parts::made;
use module_code::{
    Arg, Args, Instr, KindTest, Name, Operand, OperandKind, OperandKinds, Operands, PoolRef, Seq,
    Status, Value, VarRef,
};
use std::alloc::{AllocError, Global};
use std::collections::{BTreeMap, BTreeSet};

/// A line and what is wrong with it.
#[derive(Clone, Copy)]
pub struct LineFault {
    pub line: usize,
    pub code: Code,
}

/// Where the labels of a handler stand, by name.
fn places(alloc: Global, labels: &[Label]) -> Result<BTreeMap<Name, usize>, AllocError>
    ensures { IfOk result (λ m. IsPlaces m labels.now) }
{
    let mut places = BTreeMap::new(alloc);
    for label in labels {
        places.insert(label.name, label.place)?;
    }
    Ok(places)
}

/// The first label that stands before in the module, or that no instruction follows.
fn label_fault(
    seen: &mut BTreeSet<Name>,
    labels: &[Label],
    count: usize,
) -> Result<Option<LineFault>, AllocError>
    ensures fault { IfOk result
        (λ f. (before : List Label) → IsSeen seen.old before → f ≡ label_fault before count labels.now) }
    ensures seen { IfOk result
        (λ f. f ≡ None → (before : List Label) → IsSeen seen.old before → IsSeen seen.new (before ++ labels.now)) }
    ensures below { IfOk result (λ f. f ≡ None → All (λ l. l.place < count) labels.now) }
{
    for label in labels {
        let line = label.line;
        if !seen.insert(label.name)? {
            return Ok(Some(LineFault {
                line,
                code: Code::DoubledLabel,
            }));
        }
        if count <= label.place {
            return Ok(Some(LineFault {
                line,
                code: Code::LostLabel,
            }));
        }
    }
    Ok(None)
}

fn operand_label(operand: Operand) -> Option<Name>
    ensures { result ≡ operand_label operand }
{
    match operand {
        Operand::Label(name) => Some(name),
        _ => None,
    }
}

/// The label that an instruction names.
fn label_of(operands: Operands) -> Option<Name>
    ensures { result ≡ label_of operands }
{
    operand_label(operands.first)
        .or(operand_label(operands.second))
        .or(operand_label(operands.third))
        .or(operand_label(operands.fourth))
}

fn place_at(places: &BTreeMap<Name, usize>, name: Name) -> Option<usize>
    ensures found { result ≡ get (slice_cmp nat_cmp) places.now name }
    ensures place { (labels : List Label) → IsPlaces places.now labels → result ≡ place_of name labels }
{
    places.get(&name).copied()
}

fn is_lost(places: &BTreeMap<Name, usize>, operands: Operands) -> bool
    ensures { (labels : List Label) → IsPlaces places.now labels → result ≡ is_lost labels operands }
{
    match label_of(operands) {
        Some(name) => place_at(places, name).is_none(),
        None => false,
    }
}

/// The first instruction that names a label which is not in the handler.
fn jump_fault(places: &BTreeMap<Name, usize>, steps: &[DraftStep]) -> Option<LineFault>
    ensures { (labels : List Label) → IsPlaces places.now labels → result ≡ jump_fault labels steps.now }
{
    for step in steps {
        if is_lost(places, step.operands) {
            return Some(LineFault {
                line: step.line,
                code: Code::LostLabel,
            });
        }
    }
    None
}

/// Whether a handler is empty, or its last instruction is neither `jump` nor `ret`.
fn ends_open(steps: &[DraftStep]) -> bool
    ensures { result ≡ ends_open steps.now }
{
    match steps.last() {
        Some(step) => step.op.goes_on(),
        None => true,
    }
}

fn sooner(a: Option<LineFault>, b: Option<LineFault>) -> Option<LineFault>
    ensures { result ≡ sooner a b }
{
    match a {
        None => b,
        Some(x) => match b {
            None => a,
            Some(y) => if x.line <= y.line { a } else { b },
        },
    }
}

/// The first fault of a handler.
#[tactic(auto, unfolding(crate::specs::Handlers::handler_fault))]
fn handler_fault(
    seen: &mut BTreeSet<Name>,
    handler: &HandlerLines,
    places: &BTreeMap<Name, usize>,
) -> Result<Option<LineFault>, AllocError>
    ensures fault { IfOk result
        (λ f. (before : List Label) → IsSeen seen.old before → IsPlaces places.now handler.now.labels → f ≡ handler_fault before handler.now) }
    ensures seen { IfOk result
        (λ f. f ≡ None → (before : List Label) → IsSeen seen.old before → IsSeen seen.new (before ++ handler.now.labels)) }
    ensures below { IfOk result
        (λ f. f ≡ None → All (λ l. l.place < length handler.now.steps) handler.now.labels) }
{
    let steps = handler.steps.as_slice();
    if ends_open(steps) {
        return Ok(Some(LineFault {
            line: handler.line,
            code: Code::OpenEnd,
        }));
    }
    let label = label_fault(seen, handler.labels.as_slice(), steps.len())?;
    Ok(sooner(label, jump_fault(places, steps)))
}

fn operand_index(operand: Operand) -> u8
    ensures { result ≡ operand_index operand }
{
    match operand {
        Operand::Place(PoolRef::Own(i)) => i,
        Operand::Brigade(b) => b,
        Operand::Value(Value::Number(i)) => i,
        Operand::Cursor(i) => i,
        _ => 0,
    }
}

fn operand_value(operand: Operand) -> Value
    ensures { result ≡ operand_value operand }
{
    match operand {
        Operand::Value(value) => value,
        _ => Value::Constant(0),
    }
}

fn operand_variable(operand: Operand) -> VarRef
    ensures { result ≡ operand_variable operand }
{
    match operand {
        Operand::Brigade(b) => VarRef::Brigade(b),
        _ => VarRef::Pool(operand_index(operand)),
    }
}

fn operand_status(operand: Operand) -> Status
    ensures { result ≡ operand_status operand }
{
    match operand {
        Operand::Ending(status) => status,
        _ => Status::Success,
    }
}

fn operand_kind_test(operand: Operand) -> KindTest
    ensures { result ≡ operand_kind_test operand }
{
    match operand {
        Operand::KindTest(kind) => kind,
        _ => KindTest::Data,
    }
}

/// An operand of an instruction, of a kind, that is written so: a text has this number, and so has a target.
fn arg_in(kind: OperandKind, operand: Operand, text: u8, target: u16) -> Arg
    ensures { result ≡ arg_in kind operand text target }
{
    match kind {
        OperandKind::Nothing | OperandKind::One => Arg::Nothing,
        OperandKind::Place => Arg::Place(operand_place(operand)),
        OperandKind::Pool => Arg::Pool(operand_index(operand)),
        OperandKind::Brigade => Arg::Brigade(operand_index(operand)),
        OperandKind::Source => Arg::Source(operand_index(operand)),
        OperandKind::Ending => Arg::Ending(operand_status(operand)),
        OperandKind::Label => Arg::Target(target),
        OperandKind::Text => Arg::Text(text),
        OperandKind::Variable => Arg::Variable(operand_variable(operand)),
        OperandKind::Number => Arg::Number(operand_index(operand)),
        OperandKind::Value => Arg::Value(operand_value(operand)),
        OperandKind::Cursor => Arg::Cursor(operand_index(operand)),
        OperandKind::KindTest => Arg::KindTest(operand_kind_test(operand)),
    }
}

fn args_in(kinds: OperandKinds, operands: Operands, text: u8, target: u16) -> Args
    ensures { result ≡ args_in kinds operands text target }
{
    Args {
        first: arg_in(kinds.first, operands.first, text, target),
        second: arg_in(kinds.second, operands.second, text, target),
        third: arg_in(kinds.third, operands.third, text, target),
        fourth: arg_in(kinds.fourth, operands.fourth, text, target),
    }
}

/// The instruction that is written so, with the number of its target.
fn instr_of(step: &DraftStep, target: u16) -> Instr
    ensures { result ≡ instr_of step.now target }
{
    let args = args_in(step.op.kinds(), step.operands, step.text, target);
    made(step.op, args)
}

/// The place of the label that an instruction names, where it names none, 0.
fn target_place(places: &BTreeMap<Name, usize>, operands: Operands) -> usize
    requires { HasPlacesBelow places.now 1024 }
    ensures value { (labels : List Label) → IsPlaces places.now labels → result ≡ target_place labels (label_of operands) }
    ensures below { result < 1024 }
{
    match label_of(operands) {
        Some(name) => place_at(places, name).unwrap_or(0),
        None => 0,
    }
}

/// Adds the instructions of a handler, the first of which has the number `base`.
#[tactic(auto, unfolding(crate::specs::Handlers::step_code))]
fn add_code(
    code: &mut Seq<Instr>,
    base: usize,
    places: &BTreeMap<Name, usize>,
    steps: &[DraftStep],
) -> Result<(), AllocError>
    requires base { base ≤ 1024 }
    requires below { HasPlacesBelow places.now 1024 }
    ensures { OnOk result
        ((labels : List Label) → IsPlaces places.now labels → code.new ≡ code.old ++ map (step_code base labels) steps.now) }
{
    for step in steps {
        let target = (base + target_place(places, step.operands)) as u16;
        code.push(instr_of(step, target))?;
    }
    Ok(())
}

/// Adds the code of a handler, unless it has a fault.
#[tactic(auto, unfolding(crate::specs::Handlers::handler_resolved))]
pub fn resolve_handler(
    alloc: Global,
    seen: &mut BTreeSet<Name>,
    handler: &HandlerLines,
    code: &mut Seq<Instr>,
) -> Result<(), AsmRefusal>
    requires { length code.old + length handler.now.steps ≤ 1024 }
    ensures code { OnOk result
        ((before : List Label) → IsSeen seen.old before → handler_resolved before handler.now code.old ≡ Ok code.new) }
    ensures fault { IfErr result
        (λ e. (before : List Label) → IsSeen seen.old before → Tells e (handler_resolved before handler.now code.old)) }
    ensures seen { OnOk result
        ((before : List Label) → IsSeen seen.old before → IsSeen seen.new (before ++ handler.now.labels)) }
    ensures len { OnOk result (length code.new ≡ length code.old + length handler.now.steps) }
{
    let places = places(alloc, handler.labels.as_slice())?;
    if let Some(fault) = handler_fault(seen, handler, &places)? {
        return Err(AsmRefusal::Fault {
            line: fault.line,
            code: fault.code,
        });
    }
    let base = code.len();
    add_code(code, base, &places, handler.steps.as_slice())?;
    Ok(())
}
