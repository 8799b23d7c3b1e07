//! What instructions do with the bytes of buckets and of a call's buffer.

ghost use Rattle.std.specs.Prelude.{◌≡◌, ◌<◌, ◌||◌, ℕ, Option, nat_lt, nat_le, true, IsOk, OnOk, OnErr};
ghost use Rattle.interp_state.specs.Prelude.{BucketId, byte_of, content_at, got, LengthAt, at_cursor, read_cursor, length_of, OnBucket, buffer_limit, do_put, is_full, number_of, value_of, Items};
ghost use Rattle.interp_state.specs.Prelude.{content_of, ContextView, HeldOver, IsHeld, StandsAs, seen, seen_over, cursor_at, slot_at};
ghost use Rattle.interp_state.specs.declared.machine.Instance.{Instance};

use crate::asks::view_at;
use crate::machine::{Call, Instance};
use crate::values::value_of;
use brigade_ops::{Brigades, ContentView, Rings, Stored};
use run_model::Value;
use std::alloc::AllocError;

/// How many bytes a call's buffer holds at most.
const BUFFER_LIMIT: usize = 8000;

/// The number of the read cursor `rd`.
pub const RD: u8 = 8;

/// Whether a number is no byte, or a buffer of this length is full.
fn has_no_room(number: u32, len: usize) -> bool
    ensures { result ≡ (nat_lt 255 number || nat_le buffer_limit len) }
{
    number > 255 || len >= BUFFER_LIMIT
}

/// Whether a number is no byte, or the buffer is full.
pub fn is_full(instance: &Instance, call: &Call, x: Value) -> bool
    ensures { (rings : ℕ → Option Items) (next : ℕ) (view : ContextView) → result ≡ is_full (seen_over rings next view instance.now call.now) x }
{
    has_no_room(value_of(instance, x), call.buffer.len())
}

/// Appends a byte to the buffer, where it is one and fits: only then it takes memory. Without it nothing is changed.
pub fn put(instance: &Instance, call: &mut Call, x: Value) -> Result<(), AllocError>
    ensures ok { OnOk result ((rings : ℕ → Option Items) (next : ℕ) (view : ContextView)
        → seen_over rings next view instance.now call.new ≡ do_put x (seen_over rings next view instance.now call.old)) }
    ensures sure { (rings : ℕ → Option Items) (next : ℕ) (view : ContextView) → is_full (seen_over rings next view instance.now call.old) x ≡ true → IsOk result }
    ensures err { OnErr result ((rings : ℕ → Option Items) (next : ℕ) (view : ContextView) → seen_over rings next view instance.now call.new ≡ seen_over rings next view instance.now call.old) }
    ensures cursors { (c : ℕ) → cursor_at call.new c ≡ cursor_at call.old c }
    ensures same { OnErr result (call.new ≡ call.old) }
    ensures pc { call.new.pc ≡ call.old.pc }
    ensures name { call.new.name ≡ call.old.name }
    ensures held { (at : BucketId → Option ℕ) (rings : ℕ → Option Items) (pools : ℕ → Option ℕ) (next : ℕ)
        → HeldOver at rings pools next instance.now call.old → HeldOver at rings pools next instance.now call.new }
{
    let number = value_of(instance, x);
    if has_no_room(number, call.buffer.len()) {
        return Ok(());
    }
    call.buffer_byte(number as u8)
}

/// The length of the bucket at a cursor.
fn length_at<R: Rings<Stored> + Drop>(
    instance: &Instance,
    call: &Call,
    store: &Brigades<R>,
    c: u8,
) -> u64
    requires cursor { c < 9 }
    requires held { IsHeld store.now instance.now call.now }
    requires stands { StandsAs store.now instance.now call.now c OnBucket }
    ensures { (view : ContextView) → result ≡ length_of (content_at (at_cursor (seen store.now view instance.now call.now) c)) }
{
    view_at(instance, call, store, c).content.len()
}

/// Sets a number to the length of the bucket at a cursor, at most 4294967295.
pub fn len<R: Rings<Stored> + Drop>(
    instance: &mut Instance,
    call: &Call,
    store: &Brigades<R>,
    n: u8,
    c: u8,
)
    requires number { n < 8 }
    requires cursor { c < 9 }
    requires held { IsHeld store.now instance.old call.now }
    requires stands { StandsAs store.now instance.old call.now c OnBucket }
    ensures new { (view : ContextView) → let r = seen store.now view instance.old call.now in seen store.now view instance.new call.now ≡ got n (number_of r n (LengthAt c)) r }
    ensures slots { (b : ℕ) → slot_at instance.new b ≡ slot_at instance.old b }
    ensures held { IsHeld store.now instance.new call.now }
{
    let len = length_at(instance, call, store, c).min(u64::from(u32::MAX));
    instance.set_number(n, len as u32);
}

/// A byte of a content in memory.
pub fn byte_of(content: ContentView<'_>, k: u32) -> Option<u8>
    ensures { result ≡ byte_of k (content_of content.entry) }
{
    match content {
        ContentView::Bytes(bytes) => bytes.get(k as usize).copied(),
        ContentView::Range { .. } | ContentView::Nothing => None,
    }
}

/// A byte of the bucket at the read cursor.
pub(crate) fn byte_read<R: Rings<Stored> + Drop>(
    instance: &Instance,
    call: &Call,
    store: &Brigades<R>,
    x: Value,
) -> Option<u8>
    requires held { IsHeld store.now instance.now call.now }
    requires stands { StandsAs store.now instance.now call.now read_cursor OnBucket }
    ensures { (view : ContextView) → let r = seen store.now view instance.now call.now in result ≡ byte_of (value_of r x) (content_at (at_cursor r read_cursor)) }
{
    byte_of(
        view_at(instance, call, store, RD).content,
        value_of(instance, x),
    )
}

/// Sets a number to a byte of the bucket at the read cursor, where there is that byte.
pub fn get<R: Rings<Stored> + Drop>(
    instance: &mut Instance,
    call: &Call,
    store: &Brigades<R>,
    n: u8,
    x: Value,
)
    requires number { n < 8 }
    requires held { IsHeld store.now instance.old call.now }
    requires stands { StandsAs store.now instance.old call.now read_cursor OnBucket }
    ensures new { (view : ContextView) → let r = seen store.now view instance.old call.now in
        seen store.now view instance.new call.now ≡ got n (byte_of (value_of r x) (content_at (at_cursor r read_cursor))) r }
    ensures slots { (b : ℕ) → slot_at instance.new b ≡ slot_at instance.old b }
    ensures held { IsHeld store.now instance.new call.now }
{
    if let Some(byte) = byte_read(instance, call, store, x) {
        instance.set_number(n, u32::from(byte));
    }
}
