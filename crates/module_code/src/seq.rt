//! A list that grows at its end.

ghost use Rattle.std.specs.Prelude.{◌≡◌, ◌+◌, ◌<◌, ◌≤◌, ◌^◌, ◌==◌, [], ◌∷◌, ◌++◌, length, take, drop, replicate, slice_index_or, slice_set, IfOk, OnOk, OnErr};

use std::alloc::{AllocError, Global};
use std::marker::Model;
use std::mem;

/// A list that grows at its end. Contracts see it as the list of its items.
#[derive(Drop)]
pub struct Seq<T> {
    items: Vec<T>,
}

impl<T> Model for Seq<T> {
    ghost use Rattle.std.specs.Prelude.{List};

    ghost Value = { List T };

    ghost view = { λ s. s.items.items };
}

impl<T> Seq<T> {
    ghost use Rattle.std.specs.Borrow.{sem};
    ghost use Rattle.module_code.specs.SeqLends.{LendsItems};

    /// The empty list, which takes no memory.
    pub fn new(alloc: Global) -> Self
        ensures { result ≡ [] }
    {
        Seq {
            items: Vec::new(alloc),
        }
    }

    /// How many items there are.
    pub fn len(&self) -> usize
        ensures { result ≡ length self.now }
    {
        self.items.len()
    }

    /// Whether there is no item.
    pub fn is_empty(&self) -> bool
        ensures { result ≡ (length self.now == 0) }
    {
        self.items.is_empty()
    }

    /// The items.
    pub fn as_slice(&self) -> &[T]
        ensures { result.now ≡ self.now }
    {
        self.items.as_slice()
    }

    /// The item at an index.
    pub fn at(&self, index: usize) -> &T
        requires { index < length self.now }
        ensures { result.now ≡ slice_index_or self.now index result.now }
    {
        &self.items[index]
    }

    /// The items, to be used up.
    pub fn into_vec(self) -> Vec<T>
        ensures { result.items ≡ self }
    {
        self.items
    }

    /// The items, for writing.
    pub fn as_mut_slice(&mut self) -> &mut [T]
        ensures* writes_back { sem 𝓛 (LendsItems T.row self.entry result) }
        ensures value { result.now ≡ self.old }
    {
        self.items.as_mut_slice()
    }

    /// Adds an item at the end. Without memory nothing is changed.
    pub fn push(&mut self, item: T) -> Result<(), AllocError>
    where
        T: Drop,
        ensures ok { OnOk result (self.new ≡ self.old ++ item ∷ []) }
        ensures err { OnErr result (self.new ≡ self.old) }
    {
        self.items.push(item)?;
        Ok(())
    }

    /// Adds copies of items at the end. Without memory nothing is changed.
    pub fn extend(&mut self, items: &[T]) -> Result<(), AllocError>
    where
        T: Copy,
        ensures ok { OnOk result (self.new ≡ self.old ++ items.now) }
        ensures err { OnErr result (self.new ≡ self.old) }
    {
        self.items.extend_from_slice(items)
    }

    /// Puts an item in the place of another, which is given back.
    pub fn replace(&mut self, index: usize, item: T) -> T
        requires { index < length self.old }
        ensures old { result ≡ slice_index_or self.old index result }
        ensures new { self.new ≡ slice_set self.old index item }
    {
        mem::replace(&mut self.items[index], item)
    }

    /// Moves the items of another list to the end of this one. Without memory neither is changed.
    pub fn append(&mut self, other: &mut Seq<T>) -> Result<(), AllocError>
        ensures ok { OnOk result (self.new ≡ self.old ++ other.old) }
        ensures emptied { OnOk result (other.new ≡ []) }
        ensures err { OnErr result (self.new ≡ self.old) }
        ensures kept { OnErr result (other.new ≡ other.old) }
    {
        self.items.append(&mut other.items)
    }

    /// Puts an item before that at an index, or at the end. Without memory nothing is changed.
    pub fn insert(&mut self, index: usize, item: T) -> Result<(), AllocError>
    where
        T: Drop,
        requires { index ≤ length self.old }
        ensures ok { OnOk result (self.new ≡ take index self.old ++ item ∷ drop index self.old) }
        ensures err { OnErr result (self.new ≡ self.old) }
    {
        self.items.insert(index, item)?;
        Ok(())
    }

    /// Takes out the item at an index.
    pub fn remove(&mut self, index: usize) -> T
        requires { index < length self.old }
        ensures item { result ≡ slice_index_or self.old index result }
        ensures rest { self.new ≡ take index self.old ++ drop (index + 1) self.old }
    {
        self.items.remove(index)
    }

    /// Takes out the items from an index on. Without memory nothing is changed.
    pub fn split_off(&mut self, index: usize) -> Result<Seq<T>, AllocError>
        requires { index ≤ length self.old }
        ensures moved { IfOk result (λ moved. moved ≡ drop index self.old) }
        ensures ok { OnOk result (self.new ≡ take index self.old) }
        ensures err { OnErr result (self.new ≡ self.old) }
    {
        let items = self.items.split_off(index)?;
        Ok(Seq { items })
    }

    /// Drops every item.
    pub fn clear(&mut self)
    where
        T: Drop,
        ensures { self.new ≡ [] }
    {
        self.items.clear();
    }

    /// Keeps the first `len` items and drops the others.
    pub fn truncate(&mut self, len: usize)
    where
        T: Drop,
        ensures { self.new ≡ take len self.old }
    {
        self.items.truncate(len);
    }
}

impl Seq<u8> {
    /// Adds zeros at the end. Without memory nothing is changed. A list holds fewer than 2^63 bytes, so more are refused.
    pub fn add_zeros(&mut self, count: usize) -> Result<(), AllocError>
        ensures ok { OnOk result (self.new ≡ self.old ++ replicate count 0) }
        ensures small { OnOk result (length self.new < 2 ^ 63) }
        ensures err { OnErr result (self.new ≡ self.old) }
    {
        let len = self.len().saturating_add(count);
        self.items.resize(len, 0)
    }
}
