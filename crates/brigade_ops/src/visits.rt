//! Walks along a brigade that only look.

ghost use Rattle.std.specs.Prelude.{◌≡◌, Bool, true, is_some, Some, IfSome};
ghost use Rattle.brigade_ops.specs.Prelude.{Bucket, BucketId, bucket_of, list_at, AreVisited};

use crate::store::{BrigadeId, Brigades};
use bucket_kinds::Stored;
use bucket_ring::{BucketId, Rings};
use bucket_store::View;

/// What looks at the buckets of a brigade, one after another, until it has seen enough.
pub trait Visitor {
    /// What a bucket does to a visitor: the state before it, its name, the bucket, whether the walk stops there, and the state that it leaves.
    ghost visits: { Self → BucketId → Bucket → Bool → Self → Type 0 };

    /// Looks at the next bucket, and tells whether the walk stops there.
    fn stops_at(&mut self, id: BucketId, bucket: &View<'_>) -> bool
        ensures { visits self.old id (bucket_of bucket.now) result self.new };
}

impl<R: Rings<Stored> + Drop> Brigades<R> {
    ghost use Rattle.brigade_ops.specs.Store.{lists, brigade_of};

    /// Shows a visitor the buckets of a brigade, from the first on, and gives the one at which it stopped; `None` where it stopped at none.
    #[inline(always)]
    pub fn visit<V: Visitor>(&self, b: BrigadeId, visitor: &mut V) -> Option<BucketId>
        requires { is_some (lists self.now b) ≡ true }
        ensures all { AreVisited V.visits visitor.old (list_at (lists self.now) b) result visitor.new }
        ensures inside { IfSome result (λ id. brigade_of self.now id ≡ Some b) }
    {
        let mut place = self.start(b);
        while let Some(id) = place {
            if visitor.stops_at(id, &self.payload(id)) {
                return Some(id);
            }
            place = self.behind(id);
        }
        None
    }
}
