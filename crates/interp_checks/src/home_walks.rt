//! Walks along a brigade that look at kinds and at homes.

ghost use Rattle.std.specs.Prelude.{◌≡◌, ◌&&◌, ◌||◌, ℕ, Bool, Option, true, is_some, if◌then◌else◌};
ghost use Rattle.std.specs.List.{list_any};
ghost use Rattle.interp_checks.specs.Prelude.{list_at, is_data_kind, is_eos_kind, lists, shown, late_data, Items};
ghost use Rattle.interp_checks.specs.Prelude.{ContextView, Payload, Pools, calls_in, home_in, in_context, is_ended, is_stray, seen_over};

use crate::home_wants::{home_in, is_ended};
use crate::pool_wants::is_stray;
use brigade_ops::{BrigadeId, Brigades, BucketId, Rings, Stored, View, Visitor};
use interp_state::context::Context;
use interp_state::machine::{Call, Instance};
use run_model::Kind;

/// What looks for data behind an EOS.
#[derive(Drop)]
struct FirstLateData {
    /// Whether an EOS came before the next bucket, in the brigade or before it.
    late: bool,
}

impl Visitor for FirstLateData {
    ghost visits = { λ s id x stop t. (stop ≡ (s.late && is_data_kind x.kind)) × (t.late ≡ (s.late || is_eos_kind x.kind)) };

    fn stops_at(&mut self, _id: BucketId, bucket: &View<'_>) -> bool {
        let stop = self.late && !matches!(bucket.kind, Kind::Flush | Kind::Eos);
        self.late |= matches!(bucket.kind, Kind::Eos);
        stop
    }
}

/// Whether data stands behind an EOS of the brigade, or anywhere in it where an EOS was sent before it.
pub(crate) fn has_late_data<R: Rings<Stored> + Drop>(
    store: &Brigades<R>,
    b: BrigadeId,
    sent: bool,
) -> bool
    requires { is_some (lists store.now b) ≡ true }
    ensures { (runs : ℕ → Bool) → result ≡ late_data sent (shown runs (list_at (lists store.now) b)) }
{
    store.visit(b, &mut FirstLateData { late: sent }).is_some()
}

/// What looks for a bucket whose home is dead, or, where `strays`, does not outlast the call.
#[derive(Drop)]
struct FirstUnfit<'a> {
    instance: &'a Instance,
    call: &'a Call,
    context: &'a Context<'a>,
    strays: bool,
}

impl Visitor for FirstUnfit<'_> {
    ghost visits = { λ s id x stop t. (t ≡ s) × ((rings : ℕ → Option Items) (next : ℕ) (pools : Pools Payload) (view : ContextView)
        → let over = in_context s.context.now pools view in let home = home_in (calls_in over s.call.now) id.birth x.home in
        stop ≡ (if s.strays then is_stray (seen_over rings next over s.instance.now s.call.now) home else is_ended home)) };

    fn stops_at(&mut self, id: BucketId, bucket: &View<'_>) -> bool {
        let home = home_in(self.call, self.context, id.birth, bucket.home);
        if self.strays {
            is_stray(self.instance, self.context, home)
        } else {
            is_ended(home)
        }
    }
}

/// Whether a brigade has a bucket whose home is dead, or, where `strays`, does not outlast the call.
#[inline(always)]
pub(crate) fn has_unfit<R: Rings<Stored> + Drop>(
    instance: &Instance,
    call: &Call,
    context: &Context<'_>,
    store: &Brigades<R>,
    b: BrigadeId,
    strays: bool,
) -> bool
    requires { is_some (lists store.now b) ≡ true }
    ensures { (rings : ℕ → Option Items) (next : ℕ) (pools : Pools Payload) (view : ContextView) → let over = in_context context.now pools view in
        result ≡ list_any (λ x. if strays then is_stray (seen_over rings next over instance.now call.now) x.bucket.home else is_ended x.bucket.home)
        (shown (calls_in over call.now) (list_at (lists store.now) b)) }
{
    let mut first = FirstUnfit {
        instance,
        call,
        context,
        strays,
    };
    store.visit(b, &mut first).is_some()
}
