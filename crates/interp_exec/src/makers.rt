//! What makes buckets, which are loose (apr_buckets.h, apr_bucket_heap_create and its like, apr_bucket_copy).

ghost use Rattle.std.specs.Prelude.{◌≡◌, ◌<◌, ℕ, Some, length, true, IfOk, OnOk, OnErr};
ghost use Rattle.interp_exec.specs.Prelude.{Program, fits, NoneRevived, Bucket, Choice, do_effect, made_of, text_of, lists, brigade_of, pool_of, references, next_name, WasAdded};
ghost use Rattle.interp_exec.specs.Prelude.{HasNoFault, instr_with, map_of, in_context, ContextView, IsHeld, LeavesForeign, seen, bucket_in, calls_in};
ghost use Rattle.run_model.specs.declared.bucket.Home.TheVariants as home;
ghost use Rattle.run_model.specs.declared.effect.Effect.TheVariants as effect;

use crate::live_pools::live_pool;
use brigade_ops::{Brigades, BucketId, PoolTree, Rings, Stored};
use interp_state::context::Context;
use interp_state::machine::{Call, CursorValue, Instance};
use run_model::{Bucket, Content, Home, Kind, MadeFrom, Module, Payload, Seq};
use std::alloc::{AllocError, Global};

/// The bytes of a text operand, or where there is no memory none.
#[tactic(auto, unfolding(run_model::specs::Steps::text_of, module_code::specs::Program::text_at))]
pub(crate) fn text(alloc: Global, code: &Module, text: u8) -> Result<Seq<u8>, AllocError>
    requires { text < length code.now.texts }
    ensures { IfOk result (λ bytes. bytes ≡ text_of code.now text) }
{
    let mut bytes = Seq::new(alloc);
    bytes.extend(code.text(text))?;
    Ok(bytes)
}

/// The bytes of the call's buffer, or where there is no memory none.
fn buffered(alloc: Global, call: &Call) -> Result<Seq<u8>, AllocError>
    ensures { IfOk result (λ bytes. bytes ≡ call.now.buffer) }
{
    let mut bytes = Seq::new(alloc);
    bytes.extend(call.buffer.as_slice())?;
    Ok(bytes)
}

/// A bucket with a free home.
fn free_bucket(kind: Kind, content: Content) -> Bucket
    ensures { result ≡ record { kind = kind; content = content; home = home.Free } }
{
    Bucket {
        kind,
        content,
        home: Home::Free,
    }
}

/// Puts a bucket that is made of a text, of the buffer's bytes or of nothing, or is copied, behind the loose ones. Without memory, and where
/// the names are spent, nothing is changed.
fn add_made<R: Rings<Stored> + Drop>(
    alloc: Global,
    code: &Module,
    instance: &Instance,
    call: &Call,
    context: &Context<'_>,
    tree: &PoolTree<Payload>,
    store: &mut Brigades<R>,
    source: MadeFrom,
) -> Result<BucketId, AllocError>
    requires fit { (c : ℕ) × (fits code.now (instr_with (effect.Make c source)) ≡ true) }
    requires runs { 0 < call.now.name }
    requires held { IsHeld store.old instance.now call.now }
    requires faultless { (c : ℕ) × ((view : ContextView) → HasNoFault code.now store.old (in_context context.now (map_of tree.now) view) instance.now call.now (effect.Make c source)) }
    ensures ok { IfOk result (λ id. (x : Bucket) × (WasAdded store.old store.new call.now.name id x
        × ((view : ContextView) → let over = in_context context.now (map_of tree.now) view in
        made_of code.now (seen store.old over instance.now call.now) source ≡ Some (bucket_in (calls_in over call.now) (next_name store.old) x)))) }
    ensures err { OnErr result ((n : ℕ) → lists store.new n ≡ lists store.old n) }
    ensures next { OnErr result (next_name store.new ≡ next_name store.old) }
    ensures names { NoneRevived (brigade_of store.old) (brigade_of store.new) (next_name store.old) }
    ensures pools { pool_of store.new ≡ pool_of store.old }
    ensures references { references store.new ≡ references store.old }
    ensures unasked { store.new.asked ≡ store.old.asked }
{
    let bucket = match source {
        MadeFrom::HeapText(t) => free_bucket(Kind::Heap, Content::Bytes(text(alloc, code, t)?)),
        MadeFrom::ImmortalText(t) => {
            free_bucket(Kind::Immortal, Content::Bytes(text(alloc, code, t)?))
        }
        MadeFrom::HeapBuffer => free_bucket(Kind::Heap, Content::Bytes(buffered(alloc, call)?)),
        MadeFrom::TransientBuffer => Bucket {
            kind: Kind::Transient,
            content: Content::Bytes(buffered(alloc, call)?),
            home: Home::Call(call.name),
        },
        MadeFrom::PoolBuffer(pool) => free_bucket(
            Kind::Pool(live_pool(instance, tree, context, pool)),
            Content::Bytes(buffered(alloc, call)?),
        ),
        MadeFrom::FlushBucket => free_bucket(Kind::Flush, Content::Nothing),
        MadeFrom::EosBucket => free_bucket(Kind::Eos, Content::Nothing),
        MadeFrom::CopyAt(d) => return store.copy(call.bucket(d), call.name).or(Err(AllocError)),
    };
    store.add_tail(call.name, bucket).or(Err(AllocError))
}

/// Makes or copies a bucket, which is loose, and puts a cursor there. Without memory, and where the names are spent, nothing is changed.
pub(crate) fn make_bucket<R: Rings<Stored> + Drop>(
    alloc: Global,
    code: &Module,
    instance: &Instance,
    call: &mut Call,
    context: &Context<'_>,
    tree: &PoolTree<Payload>,
    store: &mut Brigades<R>,
    c: u8,
    source: MadeFrom,
) -> Result<(), AllocError>
    requires fit { fits code.now (instr_with (effect.Make c source)) ≡ true }
    requires cursor { c < 9 }
    requires runs { 0 < call.old.name }
    requires held { IsHeld store.old instance.now call.old }
    requires faultless { (view : ContextView) → HasNoFault code.now store.old (in_context context.now (map_of tree.now) view) instance.now call.old (effect.Make c source) }
    ensures ok { OnOk result ((view : ContextView) (choice : Choice) → let over = in_context context.now (map_of tree.now) view in
        seen store.new over instance.now call.new ≡ do_effect code.now choice (effect.Make c source) (seen store.old over instance.now call.old)) }
    ensures err { OnErr result ((view : ContextView) → seen store.new view instance.now call.new ≡ seen store.old view instance.now call.old) }
    ensures held { IsHeld store.new instance.now call.new }
    ensures name { call.new.name ≡ call.old.name }
    ensures left { LeavesForeign store.old store.new instance.now call.old }
{
    let id = add_made(alloc, code, instance, call, context, tree, store, source)?;
    call.set_cursor(c, CursorValue::At(id));
    Ok(())
}
