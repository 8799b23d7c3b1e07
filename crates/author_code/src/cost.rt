//! How many instructions a filter executes for one byte at most.

use module_code::{Instr, Module, Value};
use std::alloc::{AllocError, Global};

/// How many instructions are executed for one byte at most. What empties a full buffer is not counted.
#[derive(Clone, Copy)]
pub enum PerByte {
    /// The filter has no loop over the bytes of each bucket.
    NoLoop,
    /// So many.
    Most(usize),
    /// There is no bound: a loop of the author's stands within.
    Unbounded,
}

fn instr_at(code: &Module, pc: usize) -> Instr {
    if pc < code.len() {
        code.at(pc)
    } else {
        Instr::ClearBuf
    }
}

/// Where an instruction leads by its jump, if it counts.
fn jump_of(code: &Module, pc: usize) -> Option<usize> {
    let instr = instr_at(code, pc);
    let target = usize::from(instr.named_target()?);
    match (instr, instr_at(code, target)) {
        (Instr::Put(_, _), Instr::FromBuf(_)) => None,
        _ => Some(target),
    }
}

/// Where an instruction leads by going on.
fn next_of(code: &Module, pc: usize) -> Option<usize> {
    match instr_at(code, pc) {
        Instr::Ret(_) | Instr::Jump(_) => None,
        _ => pc.checked_add(1),
    }
}

/// There is a way of this length from a loop's head to an instruction. Whether it is longer than those so far, and does not end at the head.
fn reach(longest: &mut [Option<usize>], head: usize, pc: Option<usize>, length: usize) -> bool {
    let Some(pc) = pc else {
        return false;
    };
    let Some(place) = longest.get_mut(pc) else {
        return false;
    };
    let old = place.unwrap_or(0);
    *place = Some(old.max(length));
    old < length && pc != head
}

/// Goes on by one instruction from each but the head. Whether a way became longer, other than to the head.
fn go_on(code: &Module, head: usize, longest: &mut [Option<usize>]) -> bool {
    let mut is_news = false;
    for pc in 0..longest.len() {
        if pc != head
            && let Some(length) = longest[pc]
        {
            let length = length.saturating_add(1);
            let goes = reach(longest, head, next_of(code, pc), length);
            let jumps = reach(longest, head, jump_of(code, pc), length);
            is_news = is_news || goes || jumps;
        }
    }
    is_news
}

/// Whether a byte may come again.
fn comes_again(code: &Module, index: Value) -> bool {
    for instr in code.code() {
        if let (Instr::Sub(number, Value::Constant(1)), Value::Number(index)) = (*instr, index)
            && number == index
        {
            return true;
        }
    }
    false
}

/// The bound for a loop that reads a byte at `head`.
fn bound(alloc: Global, code: &Module, head: usize, index: Value) -> Result<PerByte, AllocError> {
    let mut longest = vec![in alloc; None; code.len()]?;
    let _news = reach(longest.as_mut_slice(), head, next_of(code, head), 1);
    for _ in 0..1026u16 {
        if !go_on(code, head, longest.as_mut_slice()) {
            let most = match longest.get(head) {
                Some(Some(length)) => *length,
                _ => 1,
            };
            let times = if comes_again(code, index) { 2 } else { 1 };
            return Ok(PerByte::Most(most.saturating_mul(times)));
        }
    }
    Ok(PerByte::Unbounded)
}

/// How many instructions a byte takes at most, in the loop over the bytes of a bucket that begins where data is treated, if one does.
/// Without memory there is no answer.
pub fn per_byte(alloc: Global, code: &Module, data: Option<usize>) -> Result<PerByte, AllocError> {
    let Some(data) = data else {
        return Ok(PerByte::NoLoop);
    };
    let head = data.saturating_add(2);
    match (instr_at(code, data), instr_at(code, head)) {
        (Instr::Read(_, _), Instr::Get(_, index, _)) => bound(alloc, code, head, index),
        _ => Ok(PerByte::NoLoop),
    }
}
