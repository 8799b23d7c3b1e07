//! A bucket is split (apr_buckets.h, apr_bucket_split).

ghost use Rattle.std.specs.Prelude.{◌≡◌, ◌⊎◌, ◌<◌, None, IsOk, OnOk, OnErr};
ghost use Rattle.interp_exec.specs.Prelude.{do_split, names_to_split, bucket_at, at_cursor, InBrigade, home_fault, ContextView, EndInFiles, IsHeld, LeavesForeign, StandsAs, seen};

use brigade_ops::{Brigades, Rings, SplitRefusal, Stored};
use interp_state::machine::{Call, Instance};
use std::alloc::AllocError;

/// `Ok` where a split was refused for what the bucket is, when nothing is done; an error where memory or a name was lacking.
fn unless_lacking(refusal: SplitRefusal) -> Result<(), AllocError>
    ensures ok { OnOk result ((refusal ≡ SplitRefusal.Metadata) ⊎ (refusal ≡ SplitRefusal.TooLong)) }
    ensures err { OnErr result ((refusal ≡ SplitRefusal.NoMemory) ⊎ (refusal ≡ SplitRefusal.NamesSpent)) }
{
    match refusal {
        SplitRefusal::Metadata | SplitRefusal::TooLong => Ok(()),
        SplitRefusal::NoMemory | SplitRefusal::NamesSpent => Err(AllocError),
    }
}

/// Splits the bucket of a cursor after its first `n` bytes, where that is not refused: only then it takes memory. Without it, and where the
/// names are spent, nothing is changed.
pub(crate) fn split<R: Rings<Stored> + Drop>(
    instance: &Instance,
    call: &Call,
    store: &mut Brigades<R>,
    c: u8,
    n: u64,
) -> Result<(), AllocError>
    requires cursor { c < 9 }
    requires held { IsHeld store.old instance.now call.now }
    requires stands { StandsAs store.old instance.now call.now c InBrigade }
    requires ends { EndInFiles store.old instance.now }
    ensures ok { OnOk result ((view : ContextView) → let r = seen store.old view instance.now call.now in home_fault (bucket_at (at_cursor r c)) ≡ None
        → seen store.new view instance.now call.now ≡ do_split n (at_cursor r c) r) }
    ensures sure { (view : ContextView) → let r = seen store.old view instance.now call.now in names_to_split n (at_cursor r c) ≡ 0 → IsOk result }
    ensures err { OnErr result ((view : ContextView) → seen store.new view instance.now call.now ≡ seen store.old view instance.now call.now) }
    ensures held { IsHeld store.new instance.now call.now }
    ensures left { LeavesForeign store.old store.new instance.now call.now }
{
    match store.split(call.bucket(c), n) {
        Ok(_) => Ok(()),
        Err(refusal) => unless_lacking(refusal),
    }
}
