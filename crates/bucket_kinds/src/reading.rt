//! Reading one bucket.

ghost use Rattle.std.specs.Prelude.{◌≡◌, ◌≤◌, ◌<◌, ◌⊎◌, ℕ, List, [], Ok, None, true, length, IsOk, IfOk, OnOk, OnErr, IfSome};
ghost use Rattle.run_model.specs.Cutting.{IsBucket, EndsInFile, wanted, read_of};
ghost use Rattle.bucket_kinds.specs.Device.{WentWell, HasFailed, WasAsked, is_there};
ghost use Rattle.bucket_kinds.specs.Reading.{MayGiveBytes, MayEnd, IsOpenFor, GivesFor, EndsWithin};

use crate::files::{FileNo, Files};
use crate::refusal::{ReadError, ReadFault};
use run_model::{Bucket, Content, Home, Kind, Seq};
use std::alloc::{AllocError, Global};

/// How many bytes a read takes from a file, at most.
const READ_LIMIT: u64 = 8000;

/// Room for the bytes that a read of a bucket takes from its file.
pub fn room_to_read(alloc: Global, bucket: &Bucket) -> Result<Seq<u8>, AllocError>
    ensures ok { IfOk result (λ room. length room ≡ wanted bucket.now.content) }
    ensures none { wanted bucket.now.content ≡ 0 → IsOk result }
{
    let mut room = Seq::new(alloc);
    if let Content::Range { len, .. } = &bucket.content {
        let count = (*len).min(READ_LIMIT) as usize;
        if count > 0 {
            room.add_zeros(count)?;
        }
    }
    Ok(room)
}

// The next bytes of a file from a place on, as many as there is room for.
fn fetch<F: Files>(
    files: &mut F,
    file: FileNo,
    start: u64,
    mut room: Seq<u8>,
) -> Result<Seq<u8>, ReadFault>
    requires { is_there ((F.device files.old).numbered file) ≡ true }
    ensures given { IfOk result (MayGiveBytes ((F.device files.old).numbered file) start (length room)) }
    ensures went { OnOk result (WentWell (F.device files.old) (F.device files.new)) }
    ensures fault { OnErr result
        (HasFailed (F.device files.old) (F.device files.new)
        ⊎ (WentWell (F.device files.old) (F.device files.new) × MayEnd ((F.device files.old).numbered file) start (length room))) }
{
    let count = room.len();
    match files.read_at(file, start, room.as_mut_slice()) {
        Ok(filled) if filled == count => Ok(room),
        _ => Err(ReadFault),
    }
}

/// What a read leaves of a range that is longer than it takes, as a bucket of the same kind and home.
pub fn rest_of_read(bucket: &Bucket) -> Option<Bucket>
    requires { EndsInFile bucket.now.content }
    ensures { result ≡ (read_of [] bucket.now).1 }
{
    let Content::Range { file, start, len } = &bucket.content else {
        return None;
    };
    if *len <= READ_LIMIT {
        return None;
    }
    let content = Content::Range {
        file: *file,
        start: *start + READ_LIMIT,
        len: *len - READ_LIMIT,
    };
    Some(Bucket {
        kind: bucket.kind,
        content,
        home: bucket.home,
    })
}

/// Reads a bucket as `read_bucket` does, into room that was made ready for it. It takes no memory.
pub fn read_into<F: Files>(
    bucket: &mut Bucket,
    room: Seq<u8>,
    files: &mut F,
) -> Result<Option<Bucket>, ReadFault>
    requires ends { EndsInFile bucket.old.content }
    requires open { IsOpenFor (F.device files.old) bucket.old.content }
    requires room { length room ≡ wanted bucket.old.content }
    ensures ok { IfOk result (λ rest. (bytes : List ℕ) × GivesFor (F.device files.old) bucket.old.content bytes
        × ((bucket.new, rest) ≡ read_of bytes bucket.old)) }
    ensures unread { wanted bucket.old.content ≡ 0 → (result ≡ Ok None) × (F.device files.new ≡ F.device files.old) }
    ensures asked { OnOk result (WasAsked (wanted bucket.old.content) (F.device files.old) (F.device files.new)) }
    ensures fault { OnErr result
        (HasFailed (F.device files.old) (F.device files.new)
        ⊎ (WentWell (F.device files.old) (F.device files.new) × EndsWithin (F.device files.old) bucket.old.content)) }
    ensures open_files { (F.device files.new).numbered ≡ (F.device files.old).numbered }
    ensures err { OnErr result (bucket.new ≡ bucket.old) }
    ensures new_fits { IsBucket bucket.old → IsBucket bucket.new }
    ensures rest_fits { IsBucket bucket.old → IfOk result (λ rest. IfSome rest IsBucket) }
{
    let Content::Range { file, start, len } = &bucket.content else {
        return Ok(None);
    };
    let (file, start, len) = (*file, *start, *len);
    let bytes = if len == 0 {
        room
    } else {
        fetch(files, file, start, room)?
    };
    let rest = rest_of_read(bucket);
    *bucket = Bucket {
        kind: Kind::Heap,
        content: Content::Bytes(bytes),
        home: Home::Free,
    };
    Ok(rest)
}

/// Reads a bucket. FILE of length at most 8000 becomes HEAP; a longer one becomes HEAP of its first 8000 bytes, and
/// the rest is given as a FILE bucket with the same home. Any other bucket is left, and there is no rest. Nothing is
/// read of a range of length 0. `ReadFault` comes where the read fails, as it may where it is the one that is to, or the file ends before the
/// last byte that is read; a refused bucket is as it was.
pub fn read_bucket<F: Files>(
    alloc: Global,
    bucket: &mut Bucket,
    files: &mut F,
) -> Result<Option<Bucket>, ReadError>
    requires ends { EndsInFile bucket.old.content }
    requires open { IsOpenFor (F.device files.old) bucket.old.content }
    ensures ok { IfOk result (λ rest. (bytes : List ℕ) × GivesFor (F.device files.old) bucket.old.content bytes
        × ((bucket.new, rest) ≡ read_of bytes bucket.old)) }
    ensures unread { wanted bucket.old.content ≡ 0 → (result ≡ Ok None) × (F.device files.new ≡ F.device files.old) }
    ensures asked { OnOk result (WasAsked (wanted bucket.old.content) (F.device files.old) (F.device files.new)) }
    ensures no_memory { result ≡ Err ReadError.NoMemory → F.device files.new ≡ F.device files.old }
    ensures fault { result ≡ Err ReadError.ReadFault
        → HasFailed (F.device files.old) (F.device files.new)
        ⊎ (WentWell (F.device files.old) (F.device files.new) × EndsWithin (F.device files.old) bucket.old.content) }
    ensures open_files { (F.device files.new).numbered ≡ (F.device files.old).numbered }
    ensures err { OnErr result (bucket.new ≡ bucket.old) }
    ensures new_fits { IsBucket bucket.old → IsBucket bucket.new }
    ensures rest_fits { IsBucket bucket.old → IfOk result (λ rest. IfSome rest IsBucket) }
{
    let room = room_to_read(alloc, bucket)?;
    read_into(bucket, room, files).map_err(|_| ReadError::ReadFault)
}
