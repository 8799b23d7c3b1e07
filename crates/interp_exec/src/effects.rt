//! What instructions do to whole brigades.

ghost use Rattle.std.specs.Prelude.{◌≡◌, ◌≢◌, ◌<◌, ℕ, true, is_some};
ghost use Rattle.interp_exec.specs.Prelude.{do_clean, do_concat, lists, Call, ContextView, VariablesApart, IsHeld, LeavesForeign, live_in, name_in, slot_at, seen};

use brigade_ops::{Brigades, Rings, Stored};
use interp_state::machine::Instance;
use run_model::Mark;

/// Moves the buckets of a brigade to the tail of another. It takes no memory.
#[tactic(auto, using(interp_state::proofs::Slots::made_in))]
pub(crate) fn concat<R: Rings<Stored> + Drop>(
    instance: &Instance,
    store: &mut Brigades<R>,
    a: u8,
    b: u8,
)
    requires first { a < 9 }
    requires second { b < 9 }
    requires apart { a ≢ b }
    requires live_first { is_some (live_in (lists store.old) (slot_at instance.now a)) ≡ true }
    requires live_second { is_some (live_in (lists store.old) (slot_at instance.now b)) ≡ true }
    requires held { VariablesApart instance.now }
    ensures new { (view : ContextView) (call : Call) → IsHeld store.old instance.now call
        → seen store.new view instance.now call ≡ do_concat a b (seen store.old view instance.now call) }
    ensures held { (call : Call) → IsHeld store.old instance.now call → IsHeld store.new instance.now call }
    ensures left { (call : Call) → LeavesForeign store.old store.new instance.now call }
{
    let from = instance.brigade(b);
    let to = instance.brigade(a);
    store.concat(to, from);
}

/// Destroys the buckets of a brigade, which is usable then.
#[tactic(auto, using(interp_state::proofs::Slots::made_in))]
pub(crate) fn clean<R: Rings<Stored> + Drop>(
    instance: &mut Instance,
    store: &mut Brigades<R>,
    b: u8,
)
    requires slot { b < 9 }
    requires live { is_some (live_in (lists store.old) (slot_at instance.old b)) ≡ true }
    ensures new { (view : ContextView) (call : Call) → IsHeld store.old instance.old call → seen store.new view instance.new call ≡ do_clean b (seen store.old view instance.old call) }
    ensures held { (call : Call) → IsHeld store.old instance.old call → IsHeld store.new instance.new call }
    ensures left { (call : Call) → LeavesForeign store.old store.new instance.old call }
    ensures slots { (a : ℕ) → name_in (slot_at instance.new a) ≡ name_in (slot_at instance.old a) }
{
    let name = instance.brigade(b);
    instance.set_mark(b, Mark::Usable);
    store.clean(name);
}
