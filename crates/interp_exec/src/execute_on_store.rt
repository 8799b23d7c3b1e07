//! What an effect does that changes no pools and no files.

ghost use Rattle.std.specs.Prelude.{◌≡◌, ◌<◌, ◌≤◌, ℕ, None, true, false, length, IsOk, OnOk, OnErr};
ghost use Rattle.interp_exec.specs.Prelude.{fits, got, Choice, do_effect, number_of, changes_pools_by, keeps_files_by, HasNoFault, instr_with, grows_by, ContextView, EndInFiles, FitKinds, IsHeld};
ghost use Rattle.interp_exec.specs.Prelude.{LeavesForeign, map_of, in_context, seen, name_in, slot_at};
ghost use Rattle.run_model.specs.declared.effect.Effect.TheVariants as effect;

use crate::execute_in_store::move_buckets;
use crate::{effects, makers, part_steps, split_steps};
use brigade_ops::{Brigades, PoolTree, Rings, Stored};
use interp_state::context::Context;
use interp_state::machine::{Call, Instance};
use interp_state::values::value_of;
use interp_state::{bytes, values};
use run_model::{Effect, Module, NewNumber, Payload};
use std::alloc::{AllocError, Global};

/// Changes a number.
#[tactic(auto, using(interp_state::proofs::HeldAlike::held_slots))]
fn change_number<R: Rings<Stored> + Drop>(
    code: &Module,
    instance: &mut Instance,
    call: &Call,
    store: &Brigades<R>,
    n: u8,
    number: NewNumber,
)
    requires fit { fits code.now (instr_with (effect.Number n number)) ≡ true }
    requires held { IsHeld store.now instance.old call.now }
    requires faultless { (view : ContextView) × HasNoFault code.now store.now view instance.old call.now (effect.Number n number) }
    ensures new { (view : ContextView) → let r = seen store.now view instance.old call.now in seen store.now view instance.new call.now ≡ got n (number_of r n number) r }
    ensures held { IsHeld store.now instance.new call.now }
    ensures slots { (b : ℕ) → slot_at instance.new b ≡ slot_at instance.old b }
{
    match number {
        NewNumber::LengthAt(c) => bytes::len(instance, call, store, n, c),
        NewNumber::ByteRead(x) => bytes::get(instance, call, store, n, x),
        NewNumber::ValueGiven(x) => values::set(instance, n, x),
        NewNumber::Plus(x) => values::add(instance, n, x),
        NewNumber::Minus(x) => values::sub(instance, n, x),
    }
}

/// What an effect does that changes no pools and no files, where there is no fault. Without memory, and where the names are spent, nothing is
/// changed.
#[inline(always)]
pub(crate) fn execute_on_store<R: Rings<Stored> + Drop>(
    alloc: Global,
    code: &Module,
    instance: &mut Instance,
    call: &mut Call,
    context: &Context<'_>,
    tree: &PoolTree<Payload>,
    store: &mut Brigades<R>,
    effect: Effect,
) -> Result<(), AllocError>
    requires fit { fits code.now (instr_with effect) ≡ true }
    requires few { length code.now.brigades ≤ 8 }
    requires kind { keeps_files_by effect ≡ true }
    requires other { changes_pools_by effect ≡ false }
    requires held { IsHeld store.old instance.old call.old }
    requires runs { 0 < call.old.name }
    requires fits { FitKinds store.old instance.old }
    requires ends { EndInFiles store.old instance.old }
    requires faultless { (view : ContextView) → HasNoFault code.now store.old (in_context context.now (map_of tree.now) view) instance.old call.old effect }
    ensures ok { OnOk result ((view : ContextView) (choice : Choice) → let r = seen store.old (in_context context.now (map_of tree.now) view) instance.old call.old in
        seen store.new (in_context context.now (map_of tree.now) view) instance.new call.new ≡ do_effect code.now choice effect r) }
    ensures err { OnErr result ((view : ContextView) → seen store.new view instance.new call.new ≡ seen store.old view instance.old call.old) }
    ensures sure { (view : ContextView) → let r = seen store.old (in_context context.now (map_of tree.now) view) instance.old call.old in grows_by r effect ≡ false → IsOk result }
    ensures held { IsHeld store.new instance.new call.new }
    ensures name { call.new.name ≡ call.old.name }
    ensures slots { (b : ℕ) → name_in (slot_at instance.new b) ≡ name_in (slot_at instance.old b) }
    ensures left { LeavesForeign store.old store.new instance.old call.old }
{
    match effect {
        Effect::Nothing => Ok(()),
        Effect::Number(n, number) => Ok(change_number(code, instance, call, store, n, number)),
        Effect::Put(x) => bytes::put(instance, call, x),
        Effect::ClearBuffer => Ok(call.clear_buffer()),
        Effect::Leave => Ok(instance.leave()),
        Effect::Make(c, source) => {
            makers::make_bucket(alloc, code, instance, call, context, tree, store, c, source)
        }
        Effect::Split(c, x) => {
            let n = u64::from(value_of(instance, x));
            split_steps::split(instance, call, store, c, n)
        }
        Effect::Concat(a, b) => Ok(effects::concat(instance, store, a, b)),
        Effect::SplitBrigade(b, c, a) => Ok(part_steps::bsplit(instance, call, store, b, c, a)),
        Effect::PartBrigade(b, x, c) => {
            let point = u64::from(value_of(instance, x));
            part_steps::bpart(instance, call, store, b, point, c)
        }
        Effect::Clean(_)
        | Effect::First(_, _)
        | Effect::Next(_, _)
        | Effect::Unlink(_)
        | Effect::Delete(_)
        | Effect::Insert(_, _, _)
        | Effect::Before(_, _) => Ok(move_buckets(code, instance, call, store, effect)),
        _ => unreachable!(),
    }
}
