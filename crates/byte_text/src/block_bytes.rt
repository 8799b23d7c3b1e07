//! Bytes in a block.

ghost use Rattle.std.specs.Prelude.{◌≡◌, ℕ, [], drop};

use module_code::Seq;
use std::alloc::Global;
use std::marker::Model;

/// Bytes that lie in a block from a place on. What lies before them does not count: contracts see the bytes alone.
#[derive(Drop)]
pub struct BlockBytes {
    block: Seq<u8>,
    from: usize,
}

impl Model for BlockBytes {
    ghost use Rattle.std.specs.Prelude.{ℕ, List, drop};

    ghost Value = { List ℕ };

    ghost view = { λ b. drop b.from b.block };
}

impl BlockBytes {
    /// No bytes. It takes no memory.
    pub fn new(alloc: Global) -> Self
        ensures { result ≡ [] }
    {
        BlockBytes {
            block: Seq::new(alloc),
            from: 0,
        }
    }

    /// The bytes of a block from a place on; none, where it ends before.
    pub fn of(block: Seq<u8>, from: usize) -> Self
        ensures { result ≡ drop from block }
    {
        BlockBytes { block, from }
    }

    /// The bytes.
    pub fn as_slice(&self) -> &[u8]
        ensures { result.now ≡ self.now }
    {
        let all = self.block.as_slice();
        if self.from < all.len() {
            &all[self.from..]
        } else {
            &[]
        }
    }

    /// The whole block. The bytes are its end.
    pub fn into_block(self) -> Seq<u8>
        ensures { (from : ℕ) × (drop from result ≡ self) }
    {
        let BlockBytes { block, from: _ } = self;
        block
    }
}
