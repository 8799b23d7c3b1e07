//! The bucket of a brigade that a point lies inside.

ghost use Rattle.std.specs.Prelude.{◌≡◌, ◌<◌, ℕ, Bool, true, is_some, IfSome};
ghost use Rattle.interp_state.specs.Prelude.{list_at, bucket_across, lists, brigade_of, bucket_at, shown, shown_at};

use brigade_ops::{BrigadeId, Brigades, BucketId, Point, Rings, Stored};

/// The bucket that a point of a brigade lies inside.
pub fn bucket_across<R: Rings<Stored> + Drop>(
    store: &Brigades<R>,
    b: BrigadeId,
    point: u64,
) -> Option<BucketId>
    requires { is_some (lists store.now b) ≡ true }
    ensures at { (runs : ℕ → Bool) → shown_at runs (bucket_at store.now) result ≡ bucket_across point (shown runs (list_at (lists store.now) b)) }
    ensures there { IfSome result (λ id. is_some (brigade_of store.now id) ≡ true) }
{
    match store.find(b, point) {
        Point::Inside(id, _) => Some(id),
        Point::At(_) | Point::Short => None,
    }
}
