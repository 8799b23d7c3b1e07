//! Calls begin and return.

ghost use Rattle.std.specs.Prelude.{◌≡◌, ◌==◌, ◌↔◌, ℕ, ◌<◌, ◌+◌, false, None, Some, [], is_ok, if◌then◌else◌, OnOk, OnErr, IsErrOf};
ghost use Rattle.interp_calls.specs.Prelude.{begun_as, upd, NoneRevived, do_return, lists, brigade_of, pool_of, references, next_name, ContextView, IsHeld, seen, cursor_at, slot_at, SameButSlots};
ghost use Rattle.std.specs.List.{list_any};

use brigade_ops::{BrigadeId, Brigades, RingRefusal, Rings, Stored};
use interp_state::machine::{Call, CursorValue, Instance, Slot};

/// A call begins at an instruction. Its name is new, and that of the brigade of its loose buckets. `NamesSpent`: the next name is `u64::MAX`.
/// Refused, nothing is changed.
pub fn begin_call<R: Rings<Stored> + Drop>(
    instance: &Instance,
    call: &mut Call,
    store: &mut Brigades<R>,
    pc: usize,
) -> Result<(), RingRefusal>
    requires held { IsHeld store.old instance.now call.old }
    requires idle { call.old.name ≡ 0 }
    requires free { pool_of store.old (next_name store.old) ≡ None }
    ensures seen { OnOk result ((view : ContextView) → seen store.new view instance.now call.new ≡ begun_as pc (seen store.old view instance.now call.old)) }
    ensures out { OnOk result ((n : ℕ) → lists store.new n ≡ upd (lists store.old) (next_name store.old) (Some []) n) }
    ensures name { OnOk result (call.new.name ≡ next_name store.old) }
    ensures next { next_name store.new ≡ (if is_ok result then next_name store.old + 1 else next_name store.old) }
    ensures names { NoneRevived (brigade_of store.old) (brigade_of store.new) (next_name store.old) }
    ensures pools { pool_of store.new ≡ pool_of store.old }
    ensures references { references store.new ≡ references store.old }
    ensures spent { IsErrOf result RingRefusal.NamesSpent ↔ (next_name store.old ≡ u64.MAX) }
    ensures err { OnErr result ((n : ℕ) → lists store.new n ≡ lists store.old n) }
    ensures same { OnErr result (call.new ≡ call.old) }
    ensures held { OnOk result (IsHeld store.new instance.now call.new) }
    ensures unasked { store.new.asked ≡ store.old.asked }
{
    let name = store.loose()?;
    call.start(name, pc);
    Ok(())
}

/// A call returns: its loose buckets are destroyed, `in` is null, and homes that are this call have ended. What stands in the brigade of `in`
/// stays there.
pub fn end_call<R: Rings<Stored> + Drop>(
    instance: &mut Instance,
    call: &mut Call,
    store: &mut Brigades<R>,
)
    requires held { IsHeld store.old instance.old call.old }
    requires runs { 0 < call.old.name }
    requires none { lists store.old 0 ≡ None }
    requires free { pool_of store.old 0 ≡ None }
    ensures seen { (view : ContextView) → list_any (λ w. call.old.name == w) view.waits ≡ false
        → seen store.new view instance.new call.new ≡ do_return (seen store.old view instance.old call.old) }
    ensures out { (n : ℕ) → lists store.new n ≡ upd (lists store.old) call.old.name None n }
    ensures next { next_name store.new ≡ next_name store.old }
    ensures names { NoneRevived (brigade_of store.old) (brigade_of store.new) (next_name store.old) }
    ensures pools { pool_of store.new ≡ pool_of store.old }
    ensures references { references store.new ≡ references store.old }
    ensures held { IsHeld store.new instance.new call.new }
    ensures slots { (a : ℕ) → slot_at instance.new a ≡ (if a == 8 then Slot.Null else slot_at instance.old a) }
    ensures rest { SameButSlots instance.old instance.new }
    ensures name { call.new.name ≡ 0 }
    ensures cursors { (c : ℕ) → cursor_at call.new c ≡ CursorValue.Unset }
    ensures buffer { call.new.buffer ≡ [] }
    ensures pc { call.new.pc ≡ call.old.pc }
    ensures unasked { store.new.asked ≡ store.old.asked }
{
    store.end_loose(call.name);
    instance.set_slot(8, Slot::Null);
    call.end();
}
