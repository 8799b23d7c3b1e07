//! A block for an output to come.

use byte_text::BlockBytes;
use std::alloc::Global;
use std::marker::Model;
use std::mem;

/// A block that no output is in. Contracts see nothing of it.
#[derive(Drop)]
pub(crate) struct Spare {
    block: BlockBytes,
}

impl Model for Spare {
    ghost Value = { Unit {0} };

    ghost view = { λ s. tt };
}

impl Spare {
    /// No block. It takes no memory.
    pub(crate) fn new(alloc: Global) -> Self {
        Spare {
            block: BlockBytes::new(alloc),
        }
    }

    /// Takes the block, if there is one.
    pub(crate) fn take(&mut self, alloc: Global) -> BlockBytes {
        mem::replace(&mut self.block, BlockBytes::new(alloc))
    }

    /// Puts a block in the place of the one that is there.
    pub(crate) fn put(&mut self, block: BlockBytes) {
        self.block = block;
    }
}
