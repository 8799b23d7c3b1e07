//! What is asked of the state before an instruction runs: the tests that decide where it leads, and whether there are names enough.

ghost use Rattle.std.specs.Prelude.{◌≡◌, ◌<◌, ◌≤◌, ℕ, None, Some, true, is_some, length};
ghost use Rattle.interp_state.specs.Prelude.{fits, is_variable, is_short, split_refusal, has_rest, is_of_kind, is_unsplit, items_at, kind_is, names_if, is_end, at_cursor};
ghost use Rattle.interp_state.specs.Prelude.{Anywhere, InBrigade, OnBucket, fault, is_empty, items_of, is_null, is_spent, lacks_names, names_for, pool_names_for, value_of, NamedBucket, map_of, lists};
ghost use Rattle.interp_state.specs.Prelude.{next_name, content_of, ContextView, IsHeld, HasNoFault, instr_with, StandsAs, in_context, seen, live_in, slot_at};
ghost use Rattle.run_model.specs.Cursors.{bucket_at as model_bucket_at};
ghost use Rattle.interp_state.specs.declared.machine.Call.{Call};

use crate::across::bucket_across;
use crate::context::Context;
use crate::machine::{Call, CursorValue, Instance, Slot};
use crate::pool_names;
use crate::values::value_of;
use brigade_ops::{Brigades, ContentView, Kind, PoolTree, Rings, Stored, View};
use run_model::{Effect, Instr, KindTest, Module, Payload, PoolVar, Value, VarRef, effect_of};

/// How many bytes a read takes from a file, at most.
const READ_LIMIT: u64 = 8000;

/// Whether a cursor stands at the end of a brigade.
pub(crate) fn is_end<R: Rings<Stored> + Drop>(
    instance: &Instance,
    call: &Call,
    store: &Brigades<R>,
    c: u8,
) -> bool
    requires cursor { c < 9 }
    requires held { IsHeld store.now instance.now call.now }
    requires stands { StandsAs store.now instance.now call.now c Anywhere }
    ensures { (view : ContextView) → result ≡ is_end (at_cursor (seen store.now view instance.now call.now) c) }
{
    match call.cursor(c) {
        CursorValue::End(_) => true,
        CursorValue::At(_) => false,
        CursorValue::Unset => false,
    }
}

/// The bucket at which a cursor stands, as it is seen.
pub(crate) fn view_at<'a, R: Rings<Stored> + Drop>(
    instance: &Instance,
    call: &Call,
    store: &'a Brigades<R>,
    c: u8,
) -> View<'a>
    requires cursor { c < 9 }
    requires held { IsHeld store.now instance.now call.now }
    requires stands { StandsAs store.now instance.now call.now c OnBucket }
    ensures { (view : ContextView) → (y : NamedBucket)
        × ((model_bucket_at (at_cursor (seen store.now view instance.now call.now) c) ≡ Some y) × (y.bucket.kind ≡ result.kind)
        × (y.bucket.content ≡ content_of result.content)) }
{
    store.payload(call.bucket(c))
}

fn is_of_kind(test: KindTest, kind: Kind) -> bool
    ensures { result ≡ is_of_kind test kind }
{
    match test {
        KindTest::Heap => matches!(kind, Kind::Heap),
        KindTest::Transient => matches!(kind, Kind::Transient),
        KindTest::Immortal => matches!(kind, Kind::Immortal),
        KindTest::Pool => matches!(kind, Kind::Pool(_)),
        KindTest::File => matches!(kind, Kind::File),
        KindTest::Flush => matches!(kind, Kind::Flush),
        KindTest::Eos => matches!(kind, Kind::Eos),
        KindTest::Data => !matches!(kind, Kind::Flush | Kind::Eos),
    }
}

/// Whether the bucket at a cursor is of a kind.
pub(crate) fn kind_is<R: Rings<Stored> + Drop>(
    instance: &Instance,
    call: &Call,
    store: &Brigades<R>,
    test: KindTest,
    c: u8,
) -> bool
    requires cursor { c < 9 }
    requires held { IsHeld store.now instance.now call.now }
    requires stands { StandsAs store.now instance.now call.now c OnBucket }
    ensures { (view : ContextView) → result ≡ kind_is test (model_bucket_at (at_cursor (seen store.now view instance.now call.now) c)) }
{
    is_of_kind(test, view_at(instance, call, store, c).kind)
}

/// Whether a split of a bucket at a place is refused: metadata is not split, nor is a bucket that is shorter.
fn is_refused(bucket: View<'_>, n: u32) -> bool
    ensures { (y : NamedBucket) → y.bucket.kind ≡ bucket.entry.kind → y.bucket.content ≡ content_of bucket.entry.content → result ≡ is_some (split_refusal n y) }
{
    matches!(bucket.kind, Kind::Flush | Kind::Eos) || bucket.content.len() < u64::from(n)
}

/// Whether a split at a cursor is refused.
#[tactic(auto, using(crate::proofs::Standing::on_bucket))]
pub(crate) fn is_unsplit<R: Rings<Stored> + Drop>(
    instance: &Instance,
    call: &Call,
    store: &Brigades<R>,
    x: Value,
    c: u8,
) -> bool
    requires cursor { c < 9 }
    requires held { IsHeld store.now instance.now call.now }
    requires stands { StandsAs store.now instance.now call.now c InBrigade }
    ensures { (view : ContextView) → let r = seen store.now view instance.now call.now in result ≡ is_unsplit (value_of r x) (at_cursor r c) }
{
    is_refused(view_at(instance, call, store, c), value_of(instance, x))
}

/// One name where something is so, and else none.
fn names_if(wanted: bool) -> u64
    ensures { result ≡ names_if wanted }
{
    if wanted { 1 } else { 0 }
}

/// Whether a read leaves a rest.
fn has_rest(content: ContentView<'_>) -> bool
    ensures { result ≡ has_rest (content_of content.entry) }
{
    match content {
        ContentView::Range { len, .. } => len > READ_LIMIT,
        ContentView::Bytes(_) | ContentView::Nothing => false,
    }
}

/// Whether a brigade has fewer bytes than a partition wants.
#[tactic(auto, using(crate::proofs::Slots::made_in))]
pub(crate) fn is_incomplete<R: Rings<Stored> + Drop>(
    instance: &Instance,
    store: &Brigades<R>,
    b: u8,
    x: Value,
) -> bool
    requires slot { b < 9 }
    requires live { is_some (live_in (lists store.now) (slot_at instance.now b)) ≡ true }
    ensures { (view : ContextView) (call : Call) → let r = seen store.now view instance.now call in result ≡ is_short (value_of r x) (items_at r b) }
{
    let point = u128::from(value_of(instance, x));
    store.length(instance.brigade(b)) < point
}

/// Whether a brigade has no buckets.
#[tactic(auto, using(crate::proofs::Slots::made_in))]
pub(crate) fn is_empty<R: Rings<Stored> + Drop>(
    instance: &Instance,
    store: &Brigades<R>,
    b: u8,
) -> bool
    requires slot { b < 9 }
    requires live { is_some (live_in (lists store.now) (slot_at instance.now b)) ≡ true }
    ensures { (view : ContextView) (call : Call) → result ≡ is_empty (items_of ((seen store.now view instance.now call).instance.brigades b)) }
{
    store.start(instance.brigade(b)).is_none()
}

/// Whether nothing was made in a variable.
pub fn is_null<R: Rings<Stored> + Drop>(
    code: &Module,
    instance: &Instance,
    store: &Brigades<R>,
    var: VarRef,
) -> bool
    requires fit { is_variable code.now var ≡ true }
    requires few { length code.now.brigades ≤ 8 }
    ensures { (view : ContextView) (call : Call) → result ≡ is_null (seen store.now view instance.now call) var }
{
    match var {
        VarRef::Pool(q) => matches!(pool_names::variable(instance, q), PoolVar::Null),
        VarRef::Brigade(b) => matches!(instance.slot(b), Slot::Null),
    }
}

/// How many names of buckets and brigades an effect gives out.
#[tactic(auto, using(crate::proofs::Slots::made_in, crate::proofs::Standing::on_bucket))]
#[inline(always)]
fn names<R: Rings<Stored> + Drop>(
    code: &Module,
    instance: &Instance,
    call: &Call,
    store: &Brigades<R>,
    effect: Effect,
) -> u64
    requires fit { fits code.now (instr_with effect) ≡ true }
    requires few { length code.now.brigades ≤ 8 }
    requires held { IsHeld store.now instance.now call.now }
    requires faultless { (view : ContextView) × HasNoFault code.now store.now view instance.now call.now effect }
    ensures { (view : ContextView) → result ≡ names_for (seen store.now view instance.now call.now) effect }
{
    match effect {
        Effect::MakeBrigade(_) | Effect::Make(_, _) => 1,
        Effect::PartBrigade(b, x, _) => {
            let point = u64::from(value_of(instance, x));
            names_if(bucket_across(store, instance.brigade(b), point).is_some())
        }
        Effect::Split(c, x) => names_if(!is_unsplit(instance, call, store, x, c)),
        Effect::Read(c) => names_if(has_rest(view_at(instance, call, store, c).content)),
        _ => 0,
    }
}

/// How many names of pools an effect gives out.
#[inline(always)]
fn pool_names(effect: Effect) -> u64
    ensures { result ≡ pool_names_for effect }
{
    if let Effect::MakePool(_) = effect {
        1
    } else {
        0
    }
}

/// Whether so many names are not left, where this one is the next.
#[tactic(auto, unfolding(run_model::specs::Steps::is_spent))]
pub fn is_spent(next: u64, names: u64) -> bool
    ensures { result ≡ is_spent next names }
{
    names > u64::MAX - next
}

/// Whether a name that an instruction that has no fault would have to give out is not there.
pub fn lacks_names<R: Rings<Stored> + Drop>(
    code: &Module,
    instance: &Instance,
    call: &Call,
    context: &Context<'_>,
    tree: &PoolTree<Payload>,
    store: &Brigades<R>,
    instr: Instr,
) -> bool
    requires fit { fits code.now instr ≡ true }
    requires few { length code.now.brigades ≤ 8 }
    requires held { IsHeld store.now instance.now call.now }
    requires faultless { (view : ContextView) × (fault code.now (seen store.now view instance.now call.now) instr ≡ None) }
    ensures { (view : ContextView) → result ≡ lacks_names (seen store.now (in_context context.now (map_of tree.now) view) instance.now call.now) instr }
{
    let effect = effect_of(instr);
    let names = names(code, instance, call, store, effect);
    is_spent(store.next_name(), names) || is_spent(tree.next_name(), pool_names(effect))
}
