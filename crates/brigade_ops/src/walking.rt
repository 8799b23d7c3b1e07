//! A brigade is walked along: measured, split and parted.

ghost use Rattle.std.specs.Prelude.{◌≡◌, ◌≢◌, ◌==◌, ◌&&◌, ◌||◌, ℕ, ◌+◌, ◌-◌, ◌<◌, ◌^◌, nat_lt, min};
ghost use Rattle.std.specs.Prelude.{[], ◌∷◌, drop, length, Some, None, Ok, Err, true, false, is_some, is_ok, if◌then◌else◌, IfOk, IfSome, OnErr};
ghost use Rattle.brigade_ops.specs.Prelude.{on, list_at, rest, first_of, NoneRevived, length_in, EndsInFile, form_of, form_of_kind, length_of, split_at, named, replaced, before_place, from_place};
ghost use Rattle.brigade_ops.specs.Prelude.{point_in, is_inside, cut_at};

use crate::store::{BrigadeId, Brigades};
use crate::visits::Visitor;
use bucket_kinds::Stored;
use bucket_ring::{BucketId, RingRefusal, Rings};
use bucket_store::{Cut, Point, SplitRefusal, View};
use run_model::Bucket;

/// What goes along a brigade up to a point.
#[derive(Drop)]
struct Finder {
    /// How many bytes behind the front of the next bucket the point lies.
    left: u64,
}

impl Visitor for Finder {
    ghost visits = { λ s id x stop t. (stop ≡ (s.left == 0 || nat_lt s.left (length_of x.content))) × (t.left ≡ (if stop then s.left else s.left - length_of x.content)) };

    fn stops_at(&mut self, _id: BucketId, bucket: &View<'_>) -> bool {
        let len = bucket.content.len();
        if self.left == 0 || len > self.left {
            return true;
        }
        self.left -= len;
        false
    }
}

/// What adds up the lengths of a brigade.
#[derive(Drop)]
struct Lengths {
    /// The bytes so far. It never comes to its largest number: a brigade has fewer than 2^64 buckets, of less than 2^64 bytes each.
    total: u128,
}

impl Visitor for Lengths {
    ghost visits = { λ s id x stop t. (stop ≡ false) × (length_of x.content < 2 ^ 64) × (t.total ≡ min (s.total + length_of x.content) (2 ^ 128 - 1)) };

    fn stops_at(&mut self, _id: BucketId, bucket: &View<'_>) -> bool {
        self.total = self.total.saturating_add(bucket.content.len() as u128);
        false
    }
}

#[tactic(auto, unfolding(crate::specs::Store::lists, crate::specs::Store::brigade_of, crate::specs::Store::pool_of, crate::specs::Store::next_name, crate::specs::Store::references))]
impl<R: Rings<Stored> + Drop> Brigades<R> {
    ghost use Rattle.brigade_ops.specs.Store.{lists, brigade_of, bucket_at, pool_of, next_name, references};

    /// Where a walk along a brigade begins: its first bucket. The place of a walk is the bucket at which it stands, and `None` at the end;
    /// `from_place` of it is what is left of the brigade.
    pub fn start(&self, b: BrigadeId) -> Option<BucketId>
        requires { is_some (lists self.now b) ≡ true }
        ensures first { result ≡ first_of (list_at (lists self.now) b) }
        ensures whole { from_place result (list_at (lists self.now) b) ≡ list_at (lists self.now) b }
        ensures inside { IfSome result (λ id. brigade_of self.now id ≡ Some b) }
        ensures few { length (list_at (lists self.now) b) < 2 ^ 64 }
    {
        self.held.first(b)
    }

    /// Where a walk along a brigade goes on behind a bucket. What was left, with that bucket at its head, is left without it.
    pub fn behind(&self, id: BucketId) -> Option<BucketId>
        requires { is_some (brigade_of self.now id) ≡ true }
        ensures next { (b : ℕ) → brigade_of self.now id ≡ Some b → result ≡ first_of (drop 1 (rest id (list_at (lists self.now) b))) }
        ensures head { (b : ℕ) (x : Bucket) → brigade_of self.now id ≡ Some b → bucket_at self.now id ≡ Some x
            → from_place (Some id) (list_at (lists self.now) b) ≡ (id, x) ∷ from_place result (list_at (lists self.now) b) }
        ensures others { (b : ℕ) → brigade_of self.now id ≡ Some b → from_place result (list_at (lists self.now) b) ≡ drop 1 (rest id (list_at (lists self.now) b)) }
        ensures inside { (b : ℕ) → brigade_of self.now id ≡ Some b → IfSome result (λ j. brigade_of self.now j ≡ Some b) }
    {
        match self.held.next(id) {
            Ok(next) => Some(next),
            Err(_) => None,
        }
    }

    /// Where a point of a brigade lies.
    pub fn find(&self, b: BrigadeId, point: u64) -> Point
        requires { is_some (lists self.now b) ≡ true }
        ensures value { result ≡ point_in point (list_at (lists self.now) b) }
        ensures inside { (id : BucketId) (n : ℕ) → result ≡ Point.Inside id n → brigade_of self.now id ≡ Some b }
    {
        let mut finder = Finder { left: point };
        let place = self.visit(b, &mut finder);
        if finder.left == 0 {
            return Point::At(place);
        }
        match place {
            Some(id) => Point::Inside(id, finder.left),
            None => Point::Short,
        }
    }

    /// Finds the place behind the shortest front of a brigade whose lengths add up to a point (`apr_brigade_partition`). A bucket that
    /// the point lies inside is split, which alone may be refused: `NamesSpent` only where the next name is `u64::MAX`, or `NoMemory`. Refused,
    /// nothing is changed. `Incomplete`: the brigade is shorter, and nothing is changed.
    #[tactic(auto)]
    pub fn partition(&mut self, b: BrigadeId, point: u64) -> Result<Cut, RingRefusal>
        requires there { is_some (lists self.old b) ≡ true }
        requires fits { (id : BucketId) (x : Bucket) → brigade_of self.old id ≡ Some b → bucket_at self.old id ≡ Some x → form_of x.content ≡ form_of_kind x.kind }
        requires ends { (id : BucketId) (x : Bucket) → brigade_of self.old id ≡ Some b → bucket_at self.old id ≡ Some x → EndsInFile x.content }
        ensures between { is_inside (point_in point (list_at (lists self.old) b)) ≡ false
            → (result ≡ Ok (cut_at (point_in point (list_at (lists self.old) b)))) × ((m : ℕ) → lists self.new m ≡ lists self.old m) }
        ensures inside { (id : BucketId) (n : ℕ) (x : Bucket) → point_in point (list_at (lists self.old) b) ≡ Point.Inside id n → bucket_at self.old id ≡ Some x
            → IfOk result (λ cut. (new : BucketId) × (cut ≡ Cut.Found new) × (new.birth ≡ next_name self.old)
            × ((m : ℕ) → lists self.new m ≡ on b (replaced id (split_at n x).0 ((new, (split_at n x).1) ∷ [])) (lists self.old) m)) }
        ensures next { next_name self.new ≡ (if is_ok result && is_inside (point_in point (list_at (lists self.old) b)) then next_name self.old + 1 else next_name self.old) }
        ensures names { NoneRevived (brigade_of self.old) (brigade_of self.new) (next_name self.old) }
        ensures pools { pool_of self.new ≡ pool_of self.old }
        ensures references { references self.new ≡ references self.old }
        ensures unspent { result ≡ Err RingRefusal.NamesSpent → next_name self.old ≡ u64.MAX }
        ensures err { OnErr result ((m : ℕ) → lists self.new m ≡ lists self.old m) }
        ensures unasked { self.new.asked ≡ self.old.asked }
    {
        let (id, n) = match self.find(b, point) {
            Point::Short => return Ok(Cut::Incomplete),
            Point::At(None) => return Ok(Cut::AtEnd),
            Point::At(Some(id)) => return Ok(Cut::Found(id)),
            Point::Inside(id, n) => (id, n),
        };
        match self.split(id, n) {
            Ok(new) => Ok(Cut::Found(new)),
            Err(SplitRefusal::NamesSpent) => Err(RingRefusal::NamesSpent),
            Err(SplitRefusal::NoMemory) => Err(RingRefusal::NoMemory),
            Err(SplitRefusal::Metadata) => unreachable!(),
            Err(SplitRefusal::TooLong) => unreachable!(),
        }
    }

    /// Splits a brigade at a place (`apr_brigade_split_ex`): `a` is cleaned, and what stands from the place on moves into it; at the end,
    /// which is no bucket, nothing moves. It takes no memory.
    pub fn split_at(&mut self, b: BrigadeId, place: Option<BucketId>, a: BrigadeId)
        requires from { is_some (lists self.old b) ≡ true }
        requires into { is_some (lists self.old a) ≡ true }
        requires apart { a ≢ b }
        requires inside { IfSome place (λ id. brigade_of self.old id ≡ Some b) }
        ensures out { (n : ℕ) → lists self.new n ≡ on a (λ xs. from_place place (list_at (lists self.old) b)) (on b (before_place place) (lists self.old)) n }
        ensures next { next_name self.new ≡ next_name self.old }
        ensures names { NoneRevived (brigade_of self.old) (brigade_of self.new) (next_name self.old) }
        ensures pools { pool_of self.new ≡ pool_of self.old }
        ensures references { references self.new ≡ references self.old }
        ensures unasked { self.new.asked ≡ self.old.asked }
    {
        let Some(id) = place else {
            return self.held.drop_all(a);
        };
        self.held.splice_from(id, a);
        self.held.drop_before(a, id);
    }

    /// How many bytes the buckets of a brigade stand for (`apr_brigade_length`).
    pub fn length(&self, b: BrigadeId) -> u128
        requires { is_some (lists self.now b) ≡ true }
        ensures { result ≡ length_in (named (list_at (lists self.now) b)) }
    {
        let mut lengths = Lengths { total: 0 };
        self.visit(b, &mut lengths);
        lengths.total
    }
}
