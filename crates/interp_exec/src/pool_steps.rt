//! What instructions do to pools that stay: they are made, and labels are registered with them and taken out.

ghost use Rattle.std.specs.Prelude.{◌≡◌, ◌<◌, ℕ, Option, Some, length, IsTrue, OnOk, OnErr};
ghost use Rattle.interp_exec.specs.Prelude.{Program, pool_of_pool, is_live, pool_named, do_pcreate, label_killed, label_registered, on_pool, text_of, map_of, AreHoused, Items, Call, Instance};
ghost use Rattle.interp_exec.specs.Prelude.{ContextView, seen_over, slot_at};

use crate::labels::newest_label;
use crate::makers::text;
use brigade_ops::{PoolId, PoolTree};
use interp_state::machine::Instance;
use run_model::{CleanupKind, Module, Payload, PoolVar};
use std::alloc::{AllocError, Global};

/// Makes a pool under its declared parent. Without memory, and where the names of pools are spent, nothing is changed.
#[tactic(auto, unfolding(interp_state::specs::Seen::seen_over, interp_state::specs::Slots::slot_at, run_model::specs::State::set_pool, run_model::specs::State::with_pools, run_model::specs::Indexed::upd))]
pub(crate) fn create_pool(
    instance: &mut Instance,
    tree: &mut PoolTree<Payload>,
    q: u8,
    parent: PoolId,
) -> Result<(), AllocError>
    requires slot { q < 8 }
    requires live { IsTrue (is_live (map_of tree.old) parent) }
    ensures ok { OnOk result ((code : Program) (rings : ℕ → Option Items) (next : ℕ) (view : ContextView) (call : Call)
        → let r = seen_over rings next (record view { pools = map_of tree.old }) instance.old call in pool_named r (pool_of_pool code q) ≡ Some parent
        → seen_over rings next (record view { pools = map_of tree.new }) instance.new call ≡ do_pcreate code q r) }
    ensures err { OnErr result ((rings : ℕ → Option Items) (next : ℕ) (view : ContextView) (call : Call)
        → seen_over rings next (record view { pools = map_of tree.new }) instance.new call ≡ seen_over rings next (record view { pools = map_of tree.old }) instance.old call) }
    ensures slots { (b : ℕ) → slot_at instance.new b ≡ slot_at instance.old b }
    ensures house { (rings : ℕ → Option Items) (pools : ℕ → Option ℕ) (references : ℕ → ℕ) → AreHoused rings pools references (map_of tree.old) → AreHoused rings pools references (map_of tree.new) }
    ensures tree_unasked { tree.new.asked ≡ tree.old.asked }
{
    let Ok(name) = tree.create(parent) else {
        return Err(AllocError);
    };
    instance.pools[usize::from(q)] = PoolVar::Made(name);
    Ok(())
}

/// Registers a label with a pool, as its newest of a kind. Without memory nothing is changed.
#[tactic(auto, unfolding(interp_state::specs::Seen::seen_over, run_model::specs::State::with_pools))]
pub(crate) fn label(
    alloc: Global,
    code: &Module,
    tree: &mut PoolTree<Payload>,
    kind: CleanupKind,
    pool: PoolId,
    t: u8,
) -> Result<(), AllocError>
    requires declared { t < length code.now.texts }
    requires live { IsTrue (is_live (map_of tree.old) pool) }
    ensures ok { OnOk result ((rings : ℕ → Option Items) (next : ℕ) (view : ContextView) (i : Instance) (call : Call)
        → seen_over rings next (record view { pools = map_of tree.new }) i call
        ≡ on_pool (label_registered kind (text_of code.now t)) (Some pool) (seen_over rings next (record view { pools = map_of tree.old }) i call)) }
    ensures err { OnErr result ((rings : ℕ → Option Items) (next : ℕ) (view : ContextView) (i : Instance) (call : Call)
        → seen_over rings next (record view { pools = map_of tree.new }) i call ≡ seen_over rings next (record view { pools = map_of tree.old }) i call) }
    ensures house { (rings : ℕ → Option Items) (pools : ℕ → Option ℕ) (references : ℕ → ℕ) → AreHoused rings pools references (map_of tree.old) → AreHoused rings pools references (map_of tree.new) }
    ensures tree_unasked { tree.new.asked ≡ tree.old.asked }
{
    let label = text(alloc, code, t)?;
    let Ok(()) = tree.register_as(kind, pool, Payload::Label(label)) else {
        return Err(AllocError);
    };
    Ok(())
}

/// Takes out the label of this text that was registered last with a pool, if there is one.
pub(crate) fn unlabel(code: &Module, tree: &mut PoolTree<Payload>, pool: PoolId, t: u8)
    requires declared { t < length code.now.texts }
    requires live { IsTrue (is_live (map_of tree.old) pool) }
    ensures new { (rings : ℕ → Option Items) (next : ℕ) (view : ContextView) (i : Instance) (call : Call)
        → seen_over rings next (record view { pools = map_of tree.new }) i call
        ≡ on_pool (label_killed (text_of code.now t)) (Some pool) (seen_over rings next (record view { pools = map_of tree.old }) i call) }
    ensures house { (rings : ℕ → Option Items) (pools : ℕ → Option ℕ) (references : ℕ → ℕ) → AreHoused rings pools references (map_of tree.old) → AreHoused rings pools references (map_of tree.new) }
    ensures tree_unasked { tree.new.asked ≡ tree.old.asked }
{
    if let Some(index) = newest_label(tree.payloads(pool), code.text(t)) {
        tree.take_out(pool, index);
    }
}
