//! Where instructions lead that are no pass and no read.

ghost use Rattle.std.specs.Prelude.{◌≡◌, ◌≤◌, None, true, false, length};
ghost use Rattle.interp_state.specs.Prelude.{fits, fault, Choice, holds, jumps_if, step, ContextView, is_answered, IsAskable, asks_store, instr_by, is_told, IsHeld, seen};

use crate::machine::{Call, Instance};
use crate::{asks, bytes, values};
use brigade_ops::{Brigades, Rings, Stored};
use run_model::{Branch, Condition, Exit, Instr, Module, branch_of};

pub fn jumps_if(test: bool) -> Exit
    ensures { result ≡ jumps_if test }
{
    if test { Exit::Jump } else { Exit::GoOn }
}

/// Whether a condition of the buckets in the store holds, where there is no fault.
#[inline(always)]
pub fn holds_in_store<R: Rings<Stored> + Drop>(
    code: &Module,
    instance: &Instance,
    call: &Call,
    store: &Brigades<R>,
    condition: Condition,
) -> bool
    requires fit { fits code.now (instr_by condition) ≡ true }
    requires few { length code.now.brigades ≤ 8 }
    requires kind { asks_store condition ≡ true }
    requires held { IsHeld store.now instance.now call.now }
    requires askable { (view : ContextView) × IsAskable code.now store.now view instance.now call.now condition }
    ensures { (view : ContextView) (choice : Choice) → result ≡ holds choice condition (seen store.now view instance.now call.now) }
{
    match condition {
        Condition::NoBucket(b) => asks::is_empty(instance, store, b),
        Condition::AtEnd(c) => asks::is_end(instance, call, store, c),
        Condition::OfKind(c, kind) => asks::kind_is(instance, call, store, kind, c),
        _ => unreachable!(),
    }
}

/// Whether a condition holds that the state tells, where there is no fault.
#[inline(always)]
fn holds<R: Rings<Stored> + Drop>(
    code: &Module,
    instance: &Instance,
    call: &Call,
    store: &Brigades<R>,
    condition: Condition,
) -> bool
    requires fit { fits code.now (instr_by condition) ≡ true }
    requires few { length code.now.brigades ≤ 8 }
    requires told { is_told condition ≡ true }
    requires held { IsHeld store.now instance.now call.now }
    requires askable { (view : ContextView) × IsAskable code.now store.now view instance.now call.now condition }
    ensures { (view : ContextView) (choice : Choice) → result ≡ holds choice condition (seen store.now view instance.now call.now) }
{
    match condition {
        Condition::TooShort(b, x, _) => asks::is_incomplete(instance, store, b, x),
        Condition::NoBucket(_) | Condition::AtEnd(_) | Condition::OfKind(_, _) => {
            holds_in_store(code, instance, call, store, condition)
        }
        Condition::NoSplit(c, x) => asks::is_unsplit(instance, call, store, x, c),
        Condition::NoByte(x) => bytes::byte_read(instance, call, store, x).is_none(),
        Condition::NoRoom(x) => bytes::is_full(instance, call, x),
        Condition::Less(n, x) => values::is_below(instance, n, x),
        Condition::Equal(n, x) => values::is_equal(instance, n, x),
        Condition::IsNull(var) => asks::is_null(code, instance, store, var),
        Condition::WasSent => instance.sent,
        Condition::PassFailed | Condition::ReadFailed(_) => unreachable!(),
    }
}

/// Where an instruction leads that has no fault, and is no pass and no read.
pub fn exit<R: Rings<Stored> + Drop>(
    code: &Module,
    instance: &Instance,
    call: &Call,
    store: &Brigades<R>,
    instr: Instr,
) -> Exit
    requires fit { fits code.now instr ≡ true }
    requires few { length code.now.brigades ≤ 8 }
    requires other { is_answered instr ≡ false }
    requires held { IsHeld store.now instance.now call.now }
    requires faultless { (view : ContextView) × (fault code.now (seen store.now view instance.now call.now) instr ≡ None) }
    ensures { (view : ContextView) (choice : Choice) → result ≡ (step code.now choice instr (seen store.now view instance.now call.now)).exit }
{
    match branch_of(instr) {
        Branch::ToNext => Exit::GoOn,
        Branch::JumpIf(condition) => jumps_if(holds(code, instance, call, store, condition)),
        Branch::JumpAlways => Exit::Jump,
        Branch::EndCall => Exit::Return,
    }
}
