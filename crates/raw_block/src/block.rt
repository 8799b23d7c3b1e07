//! A row of places for values in one raw block, each empty or full.

ghost use Rattle.std.specs.Prelude.{◌≡◌, ℕ, ◌+◌, ◌<◌, ◌≤◌, ◌^◌, length, Some, None, true, is_some, IfOk};
ghost use Rattle.std.specs.Borrow.{sem};
ghost use Rattle.raw_block.specs.Maps.{upd, read};

use crate::cells::{Base, Cells, Right, allocate, deallocate};
use std::alloc::{AllocError, Global};
use std::mem::replace;
use std_alloc::room::may_hold;

/// A block of `len` places.
pub struct Block<V> {
    pub(crate) base: Base<V>,
    pub(crate) len: usize,
    pub(crate) cells: Cells<V>,
    pub(crate) right: Right<V, Global>,
    pub(crate) alloc: Global,
    ghost whole: { (cells.start ≡ base.ptr) × (right.start ≡ base.ptr) × (right.len ≡ len) × (right.alloc ≡ alloc) },
    ghost places: { (length cells.places ≡ len) × (len < 2 ^ 63) },
}

#[tactic(auto, unfolding(crate::specs::Blocks::at, crate::specs::Maps::upd))]
impl<V> Block<V> {
    ghost use Rattle.raw_block.specs.Blocks.{at};
    ghost use Rattle.raw_block.specs.BlockLends.{LendsAt};

    /// A block of empty places.
    pub fn take(alloc: Global, len: usize) -> Result<Block<V>, AllocError>
        ensures len { IfOk result (λ b. b.len ≡ len) }
        ensures empty { IfOk result (λ b. (k : ℕ) → at b k ≡ None) }
    {
        if !may_hold::<V>(len) {
            return Err(AllocError);
        }
        let (base, cells, right) = allocate(&alloc, len)?;
        Ok(Block {
            base,
            len,
            cells,
            right,
            alloc,
        })
    }

    /// Gives the block back. Its places are empty.
    pub fn free(self)
        requires { (k : ℕ) → at self k ≡ None }
    {
        let Block {
            base,
            len,
            cells,
            right,
            alloc,
        } = self;
        deallocate(&alloc, base, len, cells, right);
    }

    /// How many places there are.
    pub fn len(&self) -> usize
        ensures value { result ≡ self.now.len }
        ensures fits { result < 2 ^ 63 }
    {
        self.len
    }

    /// The value in a place.
    pub fn get(&self, k: usize) -> &V
        requires { is_some (at self.now k) ≡ true }
        ensures { at self.now k ≡ Some result.now }
    {
        self.cells.get(self.base, k)
    }

    /// The value in a place, to be changed there.
    pub fn get_mut(&mut self, k: usize) -> &mut V
        requires { is_some (at self.old k) ≡ true }
        ensures* lends { sem 𝓛 (LendsAt V.row self.entry k result) }
        ensures value { at self.old k ≡ Some result.now }
    {
        let base = self.base;
        self.cells.get_mut(base, k)
    }

    /// The values in so many places from one on.
    pub fn slice(&self, from: usize, len: usize) -> &[V]
        requires within { from + len ≤ self.now.len }
        requires full { (k : ℕ) → from ≤ k → k < from + len → is_some (at self.now k) ≡ true }
        ensures { result.now ≡ read (at self.now) from len }
    {
        self.cells.slice(self.base, from, len)
    }

    /// Puts a value into an empty place.
    pub fn write(&mut self, k: usize, value: V)
        requires within { k < self.old.len }
        requires empty { at self.old k ≡ None }
        ensures at { (j : ℕ) → at self.new j ≡ upd (at self.old) k (Some value) j }
        ensures len { self.new.len ≡ self.old.len }
    {
        self.cells.write(self.base, k, value);
    }

    /// Takes the value out of a place.
    pub fn read(&mut self, k: usize) -> V
        requires { is_some (at self.old k) ≡ true }
        ensures value { at self.old k ≡ Some result }
        ensures at { (j : ℕ) → at self.new j ≡ upd (at self.old) k None j }
        ensures len { self.new.len ≡ self.old.len }
    {
        self.cells.read(self.base, k)
    }

    /// Writes the value of a place over.
    pub fn swap(&mut self, k: usize, value: V) -> V
        requires { is_some (at self.old k) ≡ true }
        ensures value { at self.old k ≡ Some result }
        ensures at { (j : ℕ) → at self.new j ≡ upd (at self.old) k (Some value) j }
        ensures len { self.new.len ≡ self.old.len }
    {
        replace(self.cells.get_mut(self.base, k), value)
    }

    /// Moves all values to the same places of a larger block, and gives this one back.
    pub fn move_to(mut self, larger: &mut Block<V>)
        requires full { (k : ℕ) → k < self.len → is_some (at self k) ≡ true }
        requires larger { self.len ≤ larger.old.len }
        requires empty { (k : ℕ) → at larger.old k ≡ None }
        ensures at { (k : ℕ) → at larger.new k ≡ at self k }
        ensures len { larger.new.len ≡ larger.old.len }
    {
        let mut k = 0;
        while k < self.len {
            let value = self.read(k);
            larger.write(k, value);
            k += 1;
        }
        self.free();
    }

    /// Drops all values, and gives the block back.
    pub fn drop_all(mut self)
    where
        V: Drop,
        requires { (k : ℕ) → k < self.len → is_some (at self k) ≡ true }
    {
        let mut k = 0;
        while k < self.len {
            self.read(k);
            k += 1;
        }
        self.free();
    }
}
