//! Splitting, copying and setting aside one bucket.

ghost use Rattle.std.specs.Prelude.{◌≡◌, ◌≤◌, ◌<◌, ◌↔◌, false, true, IsTrue, IfOk, OnErr};
ghost use Rattle.run_model.specs.Buckets.{is_data_kind};
ghost use Rattle.run_model.specs.Cutting.{IsBucket, EndsInFile, BytesIn, Memory, form_of, length_of, front_of, rest_of, split_at, set_aside};

use crate::refusal::SplitError;
use run_model::{Bucket, Content, Home, Kind, Seq};
use std::alloc::{AllocError, Global};

pub(crate) fn bytes_copy(alloc: Global, bytes: &[u8]) -> Result<Seq<u8>, AllocError>
    ensures { IfOk result (λ copy. copy ≡ bytes.now) }
{
    let mut copy = Seq::new(alloc);
    copy.extend(bytes)?;
    Ok(copy)
}

pub(crate) fn is_metadata(kind: Kind) -> bool
    ensures { IsTrue result ↔ (is_data_kind kind ≡ false) }
{
    matches!(kind, Kind::Flush | Kind::Eos)
}

/// How many bytes a content stands for.
pub fn length(content: &Content) -> u64
    ensures { result ≡ length_of content.now }
{
    match content {
        Content::Bytes(bytes) => bytes.len() as u64,
        Content::Range { len, .. } => *len,
        Content::Nothing => 0,
    }
}

// The content before a point and the content from it on.
pub(crate) fn parts(
    alloc: Global,
    content: &Content,
    n: u64,
) -> Result<(Content, Content), AllocError>
    requires within { n ≤ length_of content.now }
    requires ends { EndsInFile content.now }
    ensures ok { IfOk result (λ p. p ≡ (front_of n content.now, rest_of n content.now)) }
    ensures err { OnErr result (form_of content.now ≡ Memory) }
{
    match content {
        Content::Bytes(bytes) => {
            let (front, rest) = bytes.as_slice().split_at(n as usize);
            let front = bytes_copy(alloc, front)?;
            let rest = bytes_copy(alloc, rest)?;
            Ok((Content::Bytes(front), Content::Bytes(rest)))
        }
        Content::Range { file, start, len } => {
            let (file, start) = (*file, *start);
            let front = Content::Range {
                file,
                start,
                len: n,
            };
            let rest = Content::Range {
                file,
                start: start + n,
                len: *len - n,
            };
            Ok((front, rest))
        }
        Content::Nothing => Ok((Content::Nothing, Content::Nothing)),
    }
}

/// The first `n` bytes of a bucket and the rest, as two buckets of its kind and home. It is refused as `split_bucket` is.
pub fn halves(alloc: Global, bucket: &Bucket, n: u64) -> Result<(Bucket, Bucket), SplitError>
    requires { EndsInFile bucket.now.content }
    ensures ok { IfOk result (λ p. p ≡ split_at n bucket.now) }
    ensures metadata { (result ≡ Err SplitError.Metadata) ↔ (is_data_kind bucket.now.kind ≡ false) }
    ensures too_long { (result ≡ Err SplitError.TooLong) ↔ ((is_data_kind bucket.now.kind ≡ true) × (length_of bucket.now.content < n)) }
    ensures no_memory { result ≡ Err SplitError.NoMemory → form_of bucket.now.content ≡ Memory }
{
    if is_metadata(bucket.kind) {
        return Err(SplitError::Metadata);
    }
    if n > length(&bucket.content) {
        return Err(SplitError::TooLong);
    }
    let (kind, home) = (bucket.kind, bucket.home);
    let (front, rest) = parts(alloc, &bucket.content, n)?;
    let front = Bucket {
        kind,
        content: front,
        home,
    };
    let rest = Bucket {
        kind,
        content: rest,
        home,
    };
    Ok((front, rest))
}

/// Splits a bucket after its first `n` bytes and gives the rest, of the same kind and home. Metadata is refused
/// before a length is looked at. A FILE bucket is split by its range, without a read and without memory. A
/// refused bucket is as it was.
pub fn split_bucket(alloc: Global, bucket: &mut Bucket, n: u64) -> Result<Bucket, SplitError>
    requires { EndsInFile bucket.old.content }
    ensures ok { IfOk result (λ rest. (bucket.new, rest) ≡ split_at n bucket.old) }
    ensures metadata { (result ≡ Err SplitError.Metadata) ↔ (is_data_kind bucket.old.kind ≡ false) }
    ensures too_long { (result ≡ Err SplitError.TooLong) ↔ ((is_data_kind bucket.old.kind ≡ true) × (length_of bucket.old.content < n)) }
    ensures no_memory { result ≡ Err SplitError.NoMemory → form_of bucket.old.content ≡ Memory }
    ensures err { OnErr result (bucket.new ≡ bucket.old) }
    ensures fits { IsBucket bucket.old → IsBucket bucket.new }
    ensures rest_fits { IsBucket bucket.old → IfOk result IsBucket }
{
    let (front, rest) = halves(alloc, bucket, n)?;
    *bucket = front;
    Ok(rest)
}

/// The same content again.
pub(crate) fn content_copy(alloc: Global, content: &Content) -> Result<Content, AllocError>
    ensures ok { IfOk result (λ copy. copy ≡ content.now) }
    ensures err { OnErr result (form_of content.now ≡ Memory) }
{
    match content {
        Content::Bytes(bytes) => Ok(Content::Bytes(bytes_copy(alloc, bytes.as_slice())?)),
        Content::Range { file, start, len } => Ok(Content::Range {
            file: *file,
            start: *start,
            len: *len,
        }),
        Content::Nothing => Ok(Content::Nothing),
    }
}

/// A bucket of the same kind, content and home.
pub fn copy_bucket(alloc: Global, bucket: &Bucket) -> Result<Bucket, AllocError>
    ensures ok { IfOk result (λ copy. copy ≡ bucket.now) }
    ensures err { OnErr result (form_of bucket.now.content ≡ Memory) }
    ensures fits { IsBucket bucket.now → IfOk result IsBucket }
{
    let content = content_copy(alloc, &bucket.content)?;
    Ok(Bucket {
        kind: bucket.kind,
        content,
        home: bucket.home,
    })
}

/// Sets a bucket aside into the pool `target`: TRANSIENT becomes HEAP with the same bytes, FILE gets `target` as its
/// home unless its home is an ancestor of it, and every other bucket is left. It takes no memory.
pub fn aside_bucket(bucket: &mut Bucket, target: u64, is_ancestor: bool)
    ensures new { bucket.new ≡ set_aside target is_ancestor bucket.old }
    ensures fits { IsBucket bucket.old → IsBucket bucket.new }
{
    match bucket.kind {
        Kind::Transient => {
            bucket.kind = Kind::Heap;
            bucket.home = Home::Free;
        }
        Kind::File if !is_ancestor => bucket.home = Home::Pool(target),
        _ => {}
    }
}
