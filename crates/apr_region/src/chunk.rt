//! Bytes side by side in one raw block.

ghost use Rattle.std.specs.Prelude.{◌≡◌, ℕ, ◌+◌, ◌<◌, ◌≤◌, ◌^◌, length, None, true, is_some, IfOk, Some};
ghost use Rattle.raw_block.specs.Maps.{read};
ghost use Rattle.raw_block.specs.Blocks.{at};

use raw_block::Block;
use std::alloc::{AllocError, Global};

/// A block whose first `used` places hold bytes, and whose other places are empty.
pub(crate) struct Chunk {
    pub(crate) block: Block<u8>,
    pub(crate) used: usize,
    ghost full: { (k : ℕ) → k < used → is_some (at block k) ≡ true },
    ghost rest: { (k : ℕ) → used ≤ k → at block k ≡ None },
    ghost within: { used ≤ block.len },
}

#[tactic(auto, unfolding(raw_block::specs::Maps::upd))]
impl Chunk {
    /// A chunk of no bytes.
    pub(crate) fn take(alloc: Global, len: usize) -> Result<Chunk, AllocError>
        ensures len { IfOk result (λ c. c.block.len ≡ len) }
        ensures none { IfOk result (λ c. c.used ≡ 0) }
    {
        let block = Block::take(alloc, len)?;
        Ok(Chunk { block, used: 0 })
    }

    /// How many bytes more it can hold.
    pub(crate) fn room(&self) -> usize
        ensures value { result + self.now.used ≡ self.now.block.len }
    {
        self.block.len() - self.used
    }

    /// Puts bytes behind the others.
    pub(crate) fn put(&mut self, bytes: &[u8])
        requires { self.old.used + length bytes.now ≤ self.old.block.len }
        ensures used { self.new.used ≡ self.old.used + length bytes.now }
        ensures len { self.new.block.len ≡ self.old.block.len }
        ensures put { read (at self.new.block) self.old.used (length bytes.now) ≡ bytes.now }
        ensures kept { (k : ℕ) → k < self.old.used → at self.new.block k ≡ at self.old.block k }
    {
        for byte in bytes {
            self.push(*byte);
        }
    }

    /// Puts one byte behind the others.
    fn push(&mut self, byte: u8)
        requires { self.old.used < self.old.block.len }
        ensures used { self.new.used ≡ self.old.used + 1 }
        ensures len { self.new.block.len ≡ self.old.block.len }
        ensures put { at self.new.block self.old.used ≡ Some byte }
        ensures kept { (k : ℕ) → k < self.old.used → at self.new.block k ≡ at self.old.block k }
    {
        self.block.write(self.used, byte);
        self.used += 1;
    }

    /// So many bytes, from one on.
    pub(crate) fn bytes(&self, start: usize, len: usize) -> &[u8]
        requires { start + len ≤ self.now.used }
        ensures { result.now ≡ read (at self.now.block) start len }
    {
        self.block.slice(start, len)
    }

    /// Forgets all bytes.
    pub(crate) fn clear(&mut self)
        ensures used { self.new.used ≡ 0 }
        ensures len { self.new.block.len ≡ self.old.block.len }
    {
        while self.used > 0 {
            self.used -= 1;
            self.block.read(self.used);
        }
    }
}

impl Drop for Chunk {
    fn drop(mut self) {
        self.clear();
        let Chunk { block, used: _ } = self;
        block.free();
    }
}
