//! What the instruction that reads does (apr_buckets.h, apr_bucket_read).

ghost use Rattle.std.specs.Prelude.{◌≡◌, ◌<◌, ℕ, None, Some, IsOk, IfOk, OnErr};
ghost use Rattle.interp_exec.specs.Prelude.{IsOpenFor, content_at, Within, at_cursor, wanted, InBrigade, home_fault, NamedBucket, ContextView, EndInFiles, WasRead, IsHeld, LeavesForeign, StandsAs, seen};

use brigade_ops::{Brigades, Files, ReadRefusal, Rings, Stored};
use interp_state::machine::{Call, CursorValue, Instance};
use std::alloc::AllocError;

/// The read cursor `rd`.
const READ_CURSOR: u8 = 8;

/// Reads the bucket of a cursor, a longer range up to its first 8000 bytes, and tells whether that went well. The read cursor is at the
/// bucket then; where the read failed it is unset. Only bytes of a file take memory. Without it, and where the names are spent, nothing is
/// changed, and nothing is read.
pub(crate) fn read<R: Rings<Stored> + Drop, F: Files>(
    instance: &Instance,
    call: &mut Call,
    store: &mut Brigades<R>,
    files: &mut F,
    c: u8,
) -> Result<bool, AllocError>
    requires cursor { c < 9 }
    requires held { IsHeld store.old instance.now call.old }
    requires stands { StandsAs store.old instance.now call.old c InBrigade }
    requires ends { EndInFiles store.old instance.now }
    requires open { (view : ContextView) × IsOpenFor (F.device files.old) (content_at (at_cursor (seen store.old view instance.now call.old) c)) }
    ensures ok { IfOk result (λ well. (view : ContextView) (b : ℕ) (x : NamedBucket) → let r = seen store.old view instance.now call.old in at_cursor r c ≡ Within b x → home_fault (Some x) ≡ None
        → WasRead (F.device files.old) (F.device files.new) (at_cursor r c) r (seen store.new view instance.now call.new) well) }
    ensures left { LeavesForeign store.old store.new instance.now call.old }
    ensures sure { (view : ContextView) → wanted (content_at (at_cursor (seen store.old view instance.now call.old) c)) ≡ 0 → IsOk result }
    ensures err { OnErr result ((view : ContextView) → seen store.new view instance.now call.new ≡ seen store.old view instance.now call.old) }
    ensures unread { OnErr result (F.device files.new ≡ F.device files.old) }
    ensures open_files { (F.device files.new).numbered ≡ (F.device files.old).numbered }
    ensures held { IsHeld store.new instance.now call.new }
    ensures name { call.new.name ≡ call.old.name }
{
    let id = call.bucket(c);
    match store.read(files, id) {
        Ok(_) => {
            call.set_cursor(READ_CURSOR, CursorValue::At(id));
            Ok(true)
        }
        Err(ReadRefusal::ReadFault) => {
            call.set_cursor(READ_CURSOR, CursorValue::Unset);
            Ok(false)
        }
        Err(_) => Err(AllocError),
    }
}
