//! Output, in a block that is used again.

ghost use Rattle.std.specs.Prelude.{◌≡◌, ◌≤◌, ◌+◌, ◌++◌, ◌↔◌, ℕ, Bool, [], true, false, length, take, drop, is_some, Some, IsTrue, IsOk, IfOk, OnOk, OnErr};
ghost use Rattle.interp_calls.specs.Prelude.{Bucket, BucketId, EndsInFile, HasFront, HasRoomFor, IsOpenFor, ItemsAdded, SpanAdded, end_after, is_there, text};
ghost use Rattle.interp_calls.specs.Prelude.{brigade_of, bucket_at, has_bytes, has_eos, list_at, lists, named, shown};

use crate::output::{Collected, Fetched, add_all, fetch};
use brigade_ops::{BrigadeId, Brigades, FileNo, Files, Rings, Stored};
use byte_text::BlockBytes;
use run_model::Seq;
use std::alloc::{AllocError, Global};
use std::marker::Model;

/// Where the output begins in its block. The allocator begins a large block 16 bytes behind a page. Behind these 48 the output lies at a
/// multiple of 64, the length of a line of the cache, and the system copies it faster.
const HEADROOM: usize = 48;

/// A block that is filled behind its headroom. What stands behind its end is room for more.
#[derive(Drop)]
pub(crate) struct Filled {
    block: Seq<u8>,
    // Where the output ends in the block.
    end: usize,
}

/// Output, in a block, behind headroom that is never seen. What stood in the block stays there when the output is emptied, so that a read
/// over it needs no zeros first. Contracts see the output alone.
#[derive(Drop)]
pub struct OutputBlock {
    filled: Filled,
}

impl Model for OutputBlock {
    ghost use Rattle.std.specs.Prelude.{◌≤◌, ℕ, List, length, take, drop};

    ghost Value = { List ℕ };

    ghost view = { λ o. drop 48 (take o.filled.end o.filled.block) };

    ghost invariant = { λ o. o.filled.end ≤ length o.filled.block };
}

/// Sees to it that a block reaches so far. Without memory nothing is changed.
fn reach(block: &mut Seq<u8>, end: usize) -> Result<(), AllocError>
    ensures long { OnOk result (end ≤ length block.new) }
    ensures front { take (length block.old) block.new ≡ block.old }
    ensures grown { length block.old ≤ length block.new }
{
    let len = block.len();
    if len < end {
        return block.add_zeros(end - len);
    }
    Ok(())
}

/// Where the next byte goes in a block whose output ends there: no sooner than behind the headroom, which the block has then. Without memory
/// nothing is changed.
fn make_headroom(block: &mut Seq<u8>, end: usize) -> Result<usize, AllocError>
    requires { end ≤ length block.old }
    ensures place { IfOk result (λ start. (48 ≤ start) × (start ≤ length block.new) × (end ≤ start)) }
    ensures same { IfOk result (λ start. drop 48 (take start block.new) ≡ drop 48 (take end block.old)) }
    ensures front { take (length block.old) block.new ≡ block.old }
    ensures grown { length block.old ≤ length block.new }
{
    if end < HEADROOM {
        reach(block, HEADROOM)?;
        return Ok(HEADROOM);
    }
    Ok(end)
}

impl OutputBlock {
    /// No output, in a block that takes no memory.
    pub fn new(alloc: Global) -> Self
        ensures { result ≡ [] }
    {
        OutputBlock {
            filled: Filled {
                block: Seq::new(alloc),
                end: 0,
            },
        }
    }

    /// No output, in a block in which anything may stand.
    pub fn over(bytes: BlockBytes) -> Self
        ensures { result ≡ [] }
    {
        let block = bytes.into_block();
        OutputBlock {
            filled: Filled { block, end: 0 },
        }
    }

    /// The output, and the room behind it.
    pub fn into_bytes(self) -> BlockBytes
        ensures { result ≡ self }
    {
        let end = self.filled.end;
        let mut block = self.filled.block;
        block.truncate(end);
        BlockBytes::of(block, HEADROOM)
    }

    /// The output.
    pub fn as_slice(&self) -> &[u8]
        ensures { result.now ≡ self.now }
    {
        let all = &self.filled.block.as_slice()[..self.filled.end];
        if all.len() < HEADROOM {
            return &[];
        }
        &all[HEADROOM..]
    }

    /// How many bytes of output there are.
    pub fn len(&self) -> usize
        ensures { result ≡ length self.now }
    {
        self.filled.end.saturating_sub(HEADROOM)
    }

    /// Empties the output, and keeps its block.
    pub fn clear(&mut self)
        ensures { self.new ≡ [] }
    {
        self.filled.end = 0;
    }

    /// Keeps the first `len` bytes of the output.
    pub fn truncate(&mut self, len: usize)
        ensures { self.new ≡ take len self.old }
    {
        if len < self.filled.end.saturating_sub(HEADROOM) {
            self.filled.end = HEADROOM + len;
        }
    }

    /// Adds copies of bytes to the output. Of none it takes no memory. Without memory nothing is changed.
    pub fn extend(&mut self, bytes: &[u8]) -> Result<(), AllocError>
        ensures ok { OnOk result (self.new ≡ self.old ++ bytes.now) }
        ensures sure { bytes.now ≡ [] → IsOk result }
        ensures err { OnErr result (self.new ≡ self.old) }
    {
        self.filled.extend(bytes)
    }

    /// Adds the bytes of a brigade before its first EOS, up to a read that fails, and tells what was met. Without memory some may have been
    /// added, and nothing was read.
    pub(crate) fn add_all<R: Rings<Stored> + Drop, F: Files>(
        &mut self,
        files: &mut F,
        store: &Brigades<R>,
        b: BrigadeId,
    ) -> Result<Collected, AllocError>
        requires there { is_some (lists store.now b) ≡ true }
        requires ends { (id : BucketId) (x : Bucket) → brigade_of store.now id ≡ Some b → bucket_at store.now id ≡ Some x → EndsInFile x.content }
        requires open { (id : BucketId) (x : Bucket) → brigade_of store.now id ≡ Some b → bucket_at store.now id ≡ Some x → IsOpenFor (F.device files.old) x.content }
        ensures added { IfOk result (λ met. ItemsAdded (F.device files.old) (F.device files.new) (list_at (lists store.now) b) met.whole self.old self.new) }
        ensures eos { IfOk result (λ met. (runs : ℕ → Bool) → met.eos ≡ true → has_eos (shown runs (list_at (lists store.now) b)) ≡ true) }
        ensures none { IfOk result (λ met. (runs : ℕ → Bool) → met.whole ≡ true → met.eos ≡ false → has_eos (shown runs (list_at (lists store.now) b)) ≡ false) }
        ensures front { HasFront self.old self.new }
        ensures sure { has_bytes (named (list_at (lists store.now) b)) ≡ false → IsOk result }
        ensures unread { OnErr result (F.device files.new ≡ F.device files.old) }
        ensures open_files { (F.device files.new).numbered ≡ (F.device files.old).numbered }
    {
        add_all(&mut self.filled, files, store, b)
    }
}

impl Filled {
    /// Whether bytes of this number stand behind the end, which is behind the headroom.
    fn fits(&self, count: usize) -> bool
        requires { self.now.end ≤ length self.now.block }
        ensures { IsTrue result ↔ HasRoomFor count self.now }
    {
        HEADROOM <= self.end && count <= self.block.len() - self.end
    }

    /// Where the output ends once bytes of this number are put into the room that is there.
    fn end_with(&self, count: usize) -> usize
        requires { HasRoomFor count self.now }
        ensures { result ≡ self.now.end + count }
    {
        self.end.saturating_add(count).min(self.block.len())
    }

    /// Writes bytes into the room that is there.
    fn put(&mut self, bytes: &[u8])
        requires room { HasRoomFor (length bytes.now) self.old }
        ensures put { text self.new ≡ text self.old ++ bytes.now }
        ensures size { length self.new.block ≡ length self.old.block }
        ensures end { self.new.end ≡ self.old.end + length bytes.now }
    {
        let end = self.end_with(bytes.len());
        self.block.as_mut_slice()[self.end..end].copy_from_slice(bytes);
        self.end = end;
    }

    /// Adds copies of bytes to the output. Of none, and where there is room for them, it takes no memory. Without memory nothing is changed.
    pub(crate) fn extend(&mut self, bytes: &[u8]) -> Result<(), AllocError>
        requires within { self.old.end ≤ length self.old.block }
        ensures ok { OnOk result (text self.new ≡ text self.old ++ bytes.now) }
        ensures sure { bytes.now ≡ [] → IsOk result }
        ensures fits { HasRoomFor (length bytes.now) self.old → IsOk result }
        ensures room { (n : ℕ) → HasRoomFor (length bytes.now + n) self.old → HasRoomFor n self.new }
        ensures err { OnErr result (text self.new ≡ text self.old) }
        ensures within { self.new.end ≤ length self.new.block }
    {
        if bytes.is_empty() {
            return Ok(());
        }
        if self.fits(bytes.len()) {
            self.put(bytes);
            return Ok(());
        }
        self.grow_by(bytes)
    }

    /// Adds copies of bytes at the end of the block. Without memory nothing is changed.
    fn grow_by(&mut self, bytes: &[u8]) -> Result<(), AllocError>
        requires { self.old.end ≤ length self.old.block }
        ensures ok { OnOk result (text self.new ≡ text self.old ++ bytes.now) }
        ensures err { OnErr result (text self.new ≡ text self.old) }
        ensures within { self.new.end ≤ length self.new.block }
    {
        let start = make_headroom(&mut self.block, self.end)?;
        self.end = start;
        self.block.truncate(start);
        self.block.extend(bytes)?;
        self.end = self.block.len();
        Ok(())
    }

    /// Makes room for bytes of this number. Without memory nothing is changed.
    pub(crate) fn reserve(&mut self, count: u64) -> Result<(), AllocError>
        requires within { self.old.end ≤ length self.old.block }
        ensures room { OnOk result (HasRoomFor count self.new) }
        ensures text { text self.new ≡ text self.old }
        ensures within { self.new.end ≤ length self.new.block }
    {
        let start = make_headroom(&mut self.block, self.end)?;
        self.end = start;
        let Some(end) = start.checked_add(count as usize) else {
            return Err(AllocError);
        };
        reach(&mut self.block, end)
    }

    /// Reads so many bytes of a file into the room that is there, from a place on, and tells what became of them. Where not all were given, none
    /// is added.
    pub(crate) fn add_span<F: Files>(
        &mut self,
        files: &mut F,
        file: FileNo,
        at: u64,
        count: u64,
    ) -> Fetched
        requires open { is_there ((F.device files.old).numbered file) ≡ true }
        requires room { HasRoomFor count self.old }
        ensures added { SpanAdded (F.device files.old) (F.device files.new) file at count result (text self.old) (text self.new) }
        ensures size { length self.new.block ≡ length self.old.block }
        ensures end { self.new.end ≡ end_after result self.old.end count }
        ensures open_files { (F.device files.new).numbered ≡ (F.device files.old).numbered }
    {
        let start = self.end;
        let end = self.end_with(count as usize);
        match fetch(files, file, at, &mut self.block.as_mut_slice()[start..end]) {
            Fetched::All => {
                self.end = end;
                Fetched::All
            }
            lacking => lacking,
        }
    }
}
