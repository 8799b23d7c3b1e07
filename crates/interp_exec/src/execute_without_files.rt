//! What an effect does that neither clears a pool nor reads.

ghost use Rattle.std.specs.Prelude.{◌≡◌, ◌≤◌, ◌<◌, true, false, length, IsOk, OnOk, OnErr};
ghost use Rattle.interp_exec.specs.Prelude.{fits, Device, Choice, do_effect, map_of, IsHouse, AreOpen, references, next_name, keeps_files_by, ContextView, KeepNames, HasNoFault, instr_with, grows_by};
ghost use Rattle.interp_exec.specs.Prelude.{EndInFiles, FitKinds, RangesOpen, IsHeld, LeavesRest, seen, in_context};

use crate::aside_steps::aside;
use crate::creates::create;
use crate::execute_on_store::execute_on_store;
use crate::live_pools::live_pool;
use crate::pool_steps::{create_pool, label, unlabel};
use crate::saves::save;
use brigade_ops::{Brigades, PoolTree, Rings, Stored};
use interp_state::context::Context;
use interp_state::machine::{Call, Instance};
use run_model::{Effect, Module, Payload};
use std::alloc::{AllocError, Global};

/// What an effect does that neither clears a pool nor reads, where there is no fault. Without memory, and where the names are spent, nothing
/// is changed.
#[inline(always)]
pub(crate) fn execute_without_files<R: Rings<Stored> + Drop>(
    alloc: Global,
    code: &Module,
    instance: &mut Instance,
    call: &mut Call,
    context: &Context<'_>,
    tree: &mut PoolTree<Payload>,
    store: &mut Brigades<R>,
    effect: Effect,
) -> Result<(), AllocError>
    requires fit { fits code.now (instr_with effect) ≡ true }
    requires few { length code.now.brigades ≤ 8 }
    requires pools { length code.now.pools ≤ 8 }
    requires kind { keeps_files_by effect ≡ true }
    requires held { IsHeld store.old instance.old call.old }
    requires runs { 0 < call.old.name }
    requires house { IsHouse store.old (map_of tree.old) }
    requires fits { FitKinds store.old instance.old }
    requires ends { EndInFiles store.old instance.old }
    requires faultless { (view : ContextView) → HasNoFault code.now store.old (in_context context.now (map_of tree.old) view) instance.old call.old effect }
    ensures ok { OnOk result ((view : ContextView) (choice : Choice) → let r = seen store.old (in_context context.now (map_of tree.old) view) instance.old call.old in
        seen store.new (in_context context.now (map_of tree.new) view) instance.new call.new ≡ do_effect code.now choice effect r) }
    ensures err { OnErr result ((view : ContextView)
        → seen store.new (record view { pools = map_of tree.new }) instance.new call.new
        ≡ seen store.old (record view { pools = map_of tree.old }) instance.old call.old) }
    ensures sure { (view : ContextView) → let r = seen store.old (in_context context.now (map_of tree.old) view) instance.old call.old in grows_by r effect ≡ false → IsOk result }
    ensures held { IsHeld store.new instance.new call.new }
    ensures house { IsHouse store.new (map_of tree.new) }
    ensures open { (d : Device) → ((view : ContextView) → RangesOpen d (seen store.old (in_context context.now (map_of tree.old) view) instance.old call.old))
        → AreOpen (references store.old) d → AreOpen (references store.new) d }
    ensures name { call.new.name ≡ call.old.name }
    ensures slots { KeepNames (next_name store.old) (next_name store.new) instance.old instance.new }
    ensures left { LeavesRest store.old store.new instance.old call.old }
    ensures tree_unasked { tree.new.asked ≡ tree.old.asked }
{
    match effect {
        Effect::MakePool(q) => {
            let parent = live_pool(instance, tree, context, code.pool_parent(q));
            create_pool(instance, tree, q, parent)
        }
        Effect::Register(kind, pool, text) => {
            let on = live_pool(instance, tree, context, pool);
            label(alloc, code, tree, kind, on, text)
        }
        Effect::Kill(pool, text) => {
            let on = live_pool(instance, tree, context, pool);
            Ok(unlabel(code, tree, on, text))
        }
        Effect::MakeBrigade(o) => {
            let on = live_pool(instance, tree, context, code.brigade_pool(o));
            create(instance, tree, store, o, on)
        }
        Effect::Save(o, b) => save(instance, tree, store, o, b),
        Effect::Aside(c, pool) => {
            let to = live_pool(instance, tree, context, pool);
            aside(instance, call, tree, store, c, to)
        }
        _ => { execute_on_store(alloc, code, instance, call, context, tree, store, effect) }
    }
}
