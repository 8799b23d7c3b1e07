//! Buckets whose bytes lie in the region of a pool.

ghost use Rattle.std.specs.Prelude.{◌≡◌, ◌<◌, ◌≤◌, ◌↔◌, Some, Err, true, false, is_some, length, IfOk, OnOk, OnErr};
ghost use Rattle.bucket_kinds.specs.Prelude.{Span, bytes_at, is_data_kind, heap_of, set_aside, split_at, Look, part, has_part, own, pool_bucket, kept_length, keeps_bytes, EndsInBytes, kept_front};
ghost use Rattle.bucket_kinds.specs.Prelude.{kept_rest, parts_at, shown, aside};

use crate::cutting::{bytes_copy, content_copy, is_metadata, length, parts};
use crate::refusal::SplitError;
use crate::stored::{Kept, RegionBytes, Stored};
use apr_region::{Region, Span};
use run_model::{Bucket, Content, Home, Kind};
use std::alloc::{AllocError, Global};

/// A bucket that keeps its own content.
pub fn keep_own(bucket: Bucket) -> Stored
    ensures { result ≡ own bucket }
{
    Stored {
        kind: bucket.kind,
        kept: Kept::Own(bucket.content),
        home: bucket.home,
    }
}

/// A POOL bucket of these bytes, which are copied into the region of its pool. Where it is refused, the region names no other bytes than
/// before.
pub fn place_pool(pool: u64, region: &mut Region, bytes: &[u8]) -> Result<Stored, AllocError>
    ensures placed { IfOk result (λ x. (span : Span) × (x ≡ pool_bucket pool span (length bytes.now)) × (bytes_at region.new span ≡ Some bytes.now)) }
    ensures kept { (s : Span) → is_some (bytes_at region.old s) ≡ true → bytes_at region.new s ≡ bytes_at region.old s }
    ensures err { OnErr result ((s : Span) → bytes_at region.new s ≡ bytes_at region.old s) }
{
    let span = region.place(bytes)?;
    let place = RegionBytes {
        pool,
        span,
        start: 0,
        len: bytes.len() as u64,
    };
    Ok(Stored {
        kind: Kind::Pool(pool),
        kept: Kept::Placed(place),
        home: Home::Free,
    })
}

/// The bytes at a place in the region of its pool.
pub fn placed_bytes(region: &Region, place: RegionBytes) -> &[u8]
    requires { has_part (bytes_at region.now place.span) place ≡ true }
    ensures { result.now ≡ part (bytes_at region.now place.span) place }
{
    let all = region.bytes(place.span);
    let start = place.start as usize;
    let end = start + place.len as usize;
    &all[start..end]
}

/// A HEAP bucket of the bytes at a place in the region of its pool.
pub fn heap_copy(alloc: Global, region: &Region, place: RegionBytes) -> Result<Bucket, AllocError>
    requires { has_part (bytes_at region.now place.span) place ≡ true }
    ensures { IfOk result (λ x. x ≡ heap_of (Content.Bytes (part (bytes_at region.now place.span) place))) }
{
    let copy = bytes_copy(alloc, placed_bytes(region, place))?;
    Ok(Bucket {
        kind: Kind::Heap,
        content: Content::Bytes(copy),
        home: Home::Free,
    })
}

/// How many bytes a stored bucket stands for.
fn kept_length(kept: &Kept) -> u64
    ensures { result ≡ kept_length kept.now }
{
    match kept {
        Kept::Own(content) => length(content),
        Kept::Placed(place) => place.len,
    }
}

/// What is kept before a point, and what from it on.
fn kept_parts(alloc: Global, kept: &Kept, n: u64) -> Result<(Kept, Kept), AllocError>
    requires within { n ≤ kept_length kept.now }
    requires ends { EndsInBytes kept.now }
    ensures ok { IfOk result (λ p. p ≡ (kept_front n kept.now, kept_rest n kept.now)) }
    ensures err { OnErr result (keeps_bytes kept.now ≡ true) }
{
    match kept {
        Kept::Own(content) => {
            let (front, rest) = parts(alloc, content, n)?;
            Ok((Kept::Own(front), Kept::Own(rest)))
        }
        Kept::Placed(place) => {
            let front = RegionBytes { len: n, ..*place };
            let rest = RegionBytes {
                start: place.start + n,
                len: place.len - n,
                ..*place
            };
            Ok((Kept::Placed(front), Kept::Placed(rest)))
        }
    }
}

/// The first `n` bytes of a stored bucket and the rest, as `halves` does. What lies in a region stays there: no byte is copied.
pub fn stored_halves(alloc: Global, stored: &Stored, n: u64) -> Result<(Stored, Stored), SplitError>
    requires { EndsInBytes stored.now.kept }
    ensures ok { IfOk result (λ p. p ≡ parts_at n stored.now) }
    ensures shown { IfOk result (λ p. (look : Look) → (shown look p.0, shown look p.1) ≡ split_at n (shown look stored.now)) }
    ensures within { OnOk result (n ≤ kept_length stored.now.kept) }
    ensures metadata { (result ≡ Err SplitError.Metadata) ↔ (is_data_kind stored.now.kind ≡ false) }
    ensures too_long { (result ≡ Err SplitError.TooLong) ↔ ((is_data_kind stored.now.kind ≡ true) × (kept_length stored.now.kept < n)) }
    ensures no_memory { result ≡ Err SplitError.NoMemory → keeps_bytes stored.now.kept ≡ true }
{
    if is_metadata(stored.kind) {
        return Err(SplitError::Metadata);
    }
    if n > kept_length(&stored.kept) {
        return Err(SplitError::TooLong);
    }
    let (kind, home) = (stored.kind, stored.home);
    let (front, rest) = kept_parts(alloc, &stored.kept, n)?;
    let front = Stored {
        kind,
        kept: front,
        home,
    };
    let rest = Stored {
        kind,
        kept: rest,
        home,
    };
    Ok((front, rest))
}

/// The same stored bucket again. What lies in a region stays there: no byte is copied.
pub fn stored_copy(alloc: Global, stored: &Stored) -> Result<Stored, AllocError>
    ensures ok { IfOk result (λ copy. copy ≡ stored.now) }
    ensures err { OnErr result (keeps_bytes stored.now.kept ≡ true) }
{
    let kept = match &stored.kept {
        Kept::Own(content) => Kept::Own(content_copy(alloc, content)?),
        Kept::Placed(place) => Kept::Placed(*place),
    };
    Ok(Stored {
        kind: stored.kind,
        kept,
        home: stored.home,
    })
}

/// Sets a stored bucket aside, as `aside_bucket` does. What is kept stays.
#[tactic(auto, using(crate::proofs::Places::aside_shown))]
pub fn stored_aside(stored: &mut Stored, target: u64, is_ancestor: bool)
    ensures is { stored.new ≡ aside target is_ancestor stored.old }
    ensures shown { (look : Look) → shown look stored.new ≡ set_aside target is_ancestor (shown look stored.old) }
    ensures kept { stored.new.kept ≡ stored.old.kept }
{
    match stored.kind {
        Kind::Transient => {
            stored.kind = Kind::Heap;
            stored.home = Home::Free;
        }
        Kind::File if !is_ancestor => stored.home = Home::Pool(target),
        _ => {}
    }
}
