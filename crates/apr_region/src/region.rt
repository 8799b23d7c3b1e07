//! A region: a map from spans to bytes.

ghost use Rattle.std.specs.Prelude.{◌≡◌, ℕ, ◌+◌, ◌-◌, ◌<◌, ◌≤◌, length, None, Some, true, is_some, slice_get, IsSomeAnd, IfOk, OnOk, OnErr};
ghost use Rattle.apr_region.specs.declared.chunk.Chunk.{Chunk};
ghost use Rattle.apr_region.specs.Regions.{run, bytes_in, bytes_at};
ghost use Rattle.apr_region.specs.declared.region.Span.{Span};

use crate::chunk::Chunk;
use std::alloc::{AllocError, Global};

/// Where some bytes of a region lie. A `Region` gives it out, and it names them until that region's next `reset`.
#[derive(Clone, Copy)]
pub struct Span {
    chunk: usize,
    start: usize,
    len: usize,
}

/// Bytes in raw blocks, which are given up together. Contracts see the map `bytes_at`, from spans to bytes.
#[derive(Drop)]
pub struct Region {
    chunks: Vec<Chunk>,
    spare: Option<Chunk>,
    alloc: Global,
}

/// No block is smaller.
const LEAST: usize = 4096;

#[tactic(auto, unfolding(crate::specs::Regions::bytes_in, crate::specs::Regions::run))]
impl Region {
    /// A region of no bytes. It takes no memory.
    pub fn new(alloc: Global) -> Region
        ensures { (s : Span) → bytes_at result s ≡ None }
    {
        Region {
            chunks: Vec::new(alloc),
            spare: None,
            alloc,
        }
    }

    /// The bytes that were placed where the span says, since the last reset.
    pub fn bytes(&self, span: Span) -> &[u8]
        requires { is_some (bytes_at self.now span) ≡ true }
        ensures { bytes_at self.now span ≡ Some result.now }
    {
        self.chunks[span.chunk].bytes(span.start, span.len)
    }

    /// Copies bytes into the region, as `apr_pmemdup` does, and says where they lie. It is refused where there is no memory for
    /// them, and then no span names other bytes than before.
    pub fn place(&mut self, bytes: &[u8]) -> Result<Span, AllocError>
        ensures placed { IfOk result (λ s. bytes_at self.new s ≡ Some bytes.now) }
        ensures kept { (s : Span) → is_some (bytes_at self.old s) ≡ true → bytes_at self.new s ≡ bytes_at self.old s }
        ensures err { OnErr result ((s : Span) → bytes_at self.new s ≡ bytes_at self.old s) }
    {
        let chunk = self.roomy(bytes.len())?;
        let start = self.chunks[chunk].used;
        self.chunks[chunk].put(bytes);
        Ok(Span {
            chunk,
            start,
            len: bytes.len(),
        })
    }

    /// A chunk with room for so many bytes more.
    fn roomy(&mut self, len: usize) -> Result<usize, AllocError>
        ensures room { IfOk result (λ i. IsSomeAnd (slice_get self.new.chunks.items i) (λ c. c.used + len ≤ c.block.len)) }
        ensures kept { (s : Span) → is_some (bytes_at self.old s) ≡ true → bytes_at self.new s ≡ bytes_at self.old s }
        ensures err { OnErr result ((s : Span) → bytes_at self.new s ≡ bytes_at self.old s) }
    {
        let count = self.chunks.len();
        if count > 0 && self.chunks[count - 1].room() >= len {
            return Ok(count - 1);
        }
        self.chunks.reserve(1)?;
        let chunk = self.empty(len)?;
        self.chunks.push_reserved(chunk);
        Ok(count)
    }

    /// A chunk of no bytes, with room for so many: the one that stayed, or a new one.
    fn empty(&mut self, len: usize) -> Result<Chunk, AllocError>
        ensures none { IfOk result (λ c. c.used ≡ 0) }
        ensures room { IfOk result (λ c. len ≤ c.block.len) }
        ensures chunks { self.new.chunks ≡ self.old.chunks }
    {
        match self.spare.take() {
            Some(mut chunk) if chunk.block.len() >= len => {
                chunk.clear();
                Ok(chunk)
            }
            _ => Chunk::take(self.alloc, len.max(LEAST)),
        }
    }

    /// Gives up all bytes: no span names any. It takes no memory. One block stays, for the bytes that come.
    pub fn reset(&mut self)
        ensures { (s : Span) → bytes_at self.new s ≡ None }
    {
        while let Some(chunk) = self.chunks.pop() {
            self.spare = Some(chunk);
        }
    }
}
