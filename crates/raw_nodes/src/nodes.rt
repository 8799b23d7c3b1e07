//! Nodes in one raw block, the free ones listed through their links.

ghost use Rattle.std.specs.Prelude.{◌≡◌, ℕ, ◌+◌, ◌-◌, ◌<◌, ◌≤◌, ◌^◌, Some, None, true, is_some, IsOk, OnOk, option_copied};
ghost use Rattle.raw_block.specs.Maps.{upd};
ghost use Rattle.raw_block.specs.Blocks.{at};
ghost use Rattle.raw_nodes.specs.Free.{place, size, used, IsListed};

use crate::node::{Link, Load, Node, SlotBucket, write_link, write_load};
use raw_block::Block;
use std::alloc::{AllocError, Global};
use std::mem::replace;

/// Nodes in one raw block, by their places in it. `free` is the first free one, and `spare` how many are free.
///
/// Only `reserve` takes memory: a block that is too small is replaced by a larger one, in which each node has the place that it had.
pub struct Nodes<T> {
    block: Option<Block<Node<T>>>,
    free: usize,
    spare: usize,
    alloc: Global,
    ghost listed: { IsListed (place block) free spare (size block) },
}

#[tactic(auto, unfolding(crate::specs::Free::place, crate::specs::Nodes::node_at, raw_block::specs::Maps::upd))]
impl<T: Drop> Nodes<T> {
    ghost use Rattle.raw_nodes.specs.Nodes.{node_at};
    ghost use Rattle.raw_nodes.specs.Links.{with_link};
    ghost use Rattle.raw_nodes.specs.declared.node.Node.{Node};
    ghost use Rattle.raw_nodes.specs.declared.node.Load.TheVariants.{Free, Sentinel, Bucket};

    /// No node, and no memory.
    pub fn new(alloc: Global) -> Self
        ensures { (k : ℕ) → node_at result k ≡ None }
    {
        Nodes {
            block: None,
            free: 0,
            spare: 0,
            alloc,
        }
    }

    /// The node in a place; `None` where none is, or a free one.
    pub fn get(&self, k: usize) -> Option<&Node<T>>
        ensures { option_copied result ≡ node_at self.now k }
    {
        if k >= self.size() {
            return None;
        }
        let node = match &self.block {
            Some(block) => block.get(k),
            None => unreachable!(),
        };
        match node.load {
            Load::Free => None,
            _ => Some(node),
        }
    }

    /// Makes room for so many more nodes. Refused, nothing changes; where they fit, it takes no memory.
    pub fn reserve(&mut self, more: usize) -> Result<(), AllocError>
        ensures room { OnOk result (more ≤ self.new.spare) }
        ensures sure { more ≤ self.old.spare → IsOk result }
        ensures same { (k : ℕ) → node_at self.new k ≡ node_at self.old k }
        ensures kept { self.old.spare ≤ self.new.spare }
    {
        if more <= self.spare {
            return Ok(());
        }
        self.grow(more)
    }

    /// Replaces the block by one that has so many more places.
    fn grow(&mut self, more: usize) -> Result<(), AllocError>
        ensures room { OnOk result (self.old.spare + more ≤ self.new.spare) }
        ensures same { (k : ℕ) → node_at self.new k ≡ node_at self.old k }
        ensures kept { self.old.spare ≤ self.new.spare }
    {
        let len = self.size();
        let step = more.max(len).max(FIRST);
        if step >= LIMIT - len {
            return Err(AllocError);
        }
        let mut larger = Block::take(self.alloc, len + step)?;
        move_all(self.block.take(), &mut larger);
        self.free = list_free(&mut larger, len, self.free, self.spare);
        self.spare += step;
        match replace(&mut self.block, Some(larger)) {
            None => Ok(()),
            Some(_) => unreachable!(),
        }
    }

    /// How many places there are.
    fn size(&self) -> usize
        ensures value { result ≡ size self.now.block }
        ensures fits { result < 2 ^ 63 }
    {
        match &self.block {
            Some(block) => block.len(),
            None => 0,
        }
    }

    /// A new node that leads to itself and has no bucket, in the place of the first free one. There is one.
    pub fn add(&mut self, ring: u64) -> usize
        requires { 1 ≤ self.old.spare }
        ensures was { node_at self.old result ≡ None }
        ensures at { (j : ℕ) → node_at self.new j ≡ upd (node_at self.old) result (Some (record { ring = ring; before = result; behind = result; load = Sentinel })) j }
        ensures spare { self.new.spare + 1 ≡ self.old.spare }
    {
        let k = self.free;
        match &mut self.block {
            Some(block) => {
                let old = block.swap(
                    k,
                    Node {
                        ring,
                        before: k,
                        behind: k,
                        load: Load::Sentinel,
                    },
                );
                self.free = old.behind;
                self.spare -= 1;
                k
            }
            None => unreachable!(),
        }
    }

    /// Frees a node, and drops what it held. Its place is the next that is given.
    pub fn remove(&mut self, k: usize)
        requires { is_some (node_at self.old k) ≡ true }
        ensures at { (j : ℕ) → node_at self.new j ≡ upd (node_at self.old) k None j }
        ensures spare { self.new.spare ≡ self.old.spare + 1 }
    {
        match &mut self.block {
            Some(block) => {
                block.swap(
                    k,
                    Node {
                        ring: 0,
                        before: k,
                        behind: self.free,
                        load: Load::Free,
                    },
                );
                self.free = k;
                self.spare += 1;
            }
            None => unreachable!(),
        }
    }

    /// Writes one link of a node.
    #[inline]
    fn set_link(&mut self, k: usize, link: Link)
        requires { is_some (node_at self.old k) ≡ true }
        ensures at { (n : Node T) → node_at self.old k ≡ Some n → (j : ℕ) → node_at self.new j ≡ upd (node_at self.old) k (Some (with_link link n)) j }
        ensures spare { self.new.spare ≡ self.old.spare }
    {
        if let Some(block) = &mut self.block {
            write_link(block, k, link);
        }
    }

    /// Writes the place behind a node.
    pub fn set_behind(&mut self, k: usize, to: usize)
        requires { is_some (node_at self.old k) ≡ true }
        ensures at { (n : Node T) → node_at self.old k ≡ Some n → (j : ℕ) → node_at self.new j ≡ upd (node_at self.old) k (Some (record n { behind = to })) j }
        ensures spare { self.new.spare ≡ self.old.spare }
    {
        self.set_link(k, Link::Behind(to));
    }

    /// Writes the place before a node.
    pub fn set_before(&mut self, k: usize, to: usize)
        requires { is_some (node_at self.old k) ≡ true }
        ensures at { (n : Node T) → node_at self.old k ≡ Some n → (j : ℕ) → node_at self.new j ≡ upd (node_at self.old) k (Some (record n { before = to })) j }
        ensures spare { self.new.spare ≡ self.old.spare }
    {
        self.set_link(k, Link::Before(to));
    }

    /// Writes the ring of a node, which keeps what it holds.
    pub fn set_ring(&mut self, k: usize, ring: u64)
        requires { is_some (node_at self.old k) ≡ true }
        ensures at { (n : Node T) → node_at self.old k ≡ Some n → (j : ℕ) → node_at self.new j ≡ upd (node_at self.old) k (Some (record n { ring = ring })) j }
        ensures spare { self.new.spare ≡ self.old.spare }
    {
        self.set_link(k, Link::Ring(ring));
    }

    /// Puts a bucket of a ring into a node, and answers what it held.
    pub fn fill(&mut self, k: usize, ring: u64, bucket: SlotBucket<T>) -> Load<T>
        requires { is_some (node_at self.old k) ≡ true }
        ensures had { (n : Node T) → node_at self.old k ≡ Some n → result ≡ n.load }
        ensures at { (n : Node T) → node_at self.old k ≡ Some n → (j : ℕ) → node_at self.new j ≡ upd (node_at self.old) k (Some (record n { ring = ring; load = Bucket bucket })) j }
        ensures spare { self.new.spare ≡ self.old.spare }
    {
        match &mut self.block {
            Some(block) => write_load(block, k, ring, Load::Bucket(bucket)),
            None => unreachable!(),
        }
    }

    /// Takes the bucket out of a node, which stays, and answers what it held.
    pub fn empty(&mut self, k: usize) -> Load<T>
        requires { is_some (node_at self.old k) ≡ true }
        ensures had { (n : Node T) → node_at self.old k ≡ Some n → result ≡ n.load }
        ensures at { (n : Node T) → node_at self.old k ≡ Some n → (j : ℕ) → node_at self.new j ≡ upd (node_at self.old) k (Some (record n { ring = 0; load = Sentinel })) j }
        ensures spare { self.new.spare ≡ self.old.spare }
    {
        match &mut self.block {
            Some(block) => write_load(block, k, 0, Load::Sentinel),
            None => unreachable!(),
        }
    }
}

impl<T: Drop> Drop for Nodes<T> {
    fn drop(self) {
        let Nodes {
            block,
            free: _,
            spare: _,
            alloc: _,
        } = self;
        if let Some(block) = block {
            block.drop_all();
        }
    }
}

/// How many places the first block has, at least.
const FIRST: usize = 4;

/// No block has so many places.
const LIMIT: usize = 0x8000_0000_0000_0000;

/// Moves all nodes to the same places of a larger block.
#[tactic(auto, unfolding(crate::specs::Free::place))]
fn move_all<T>(old: Option<Block<Node<T>>>, larger: &mut Block<Node<T>>)
    requires full { (k : ℕ) → k < size old → is_some (place old k) ≡ true }
    requires larger { size old ≤ larger.old.len }
    requires empty { (k : ℕ) → at larger.old k ≡ None }
    ensures at { (k : ℕ) → at larger.new k ≡ place old k }
    ensures len { larger.new.len ≡ larger.old.len }
{
    if let Some(block) = old {
        block.move_to(larger);
    }
}

/// Puts free nodes into all places from one on, and answers the first of all free ones.
#[tactic(auto, unfolding(raw_block::specs::Maps::upd))]
fn list_free<T: Drop>(block: &mut Block<Node<T>>, from: usize, free: usize, spare: usize) -> usize
    requires listed { IsListed (at block.old) free spare from }
    requires within { from ≤ block.old.len }
    ensures listed { IsListed (at block.new) result (spare + (block.new.len - from)) block.new.len }
    ensures used { (j : ℕ) → used (at block.new j) ≡ used (at block.old j) }
    ensures len { block.new.len ≡ block.old.len }
{
    let (mut first, mut count) = (free, spare);
    let mut k = from;
    while k < block.len() {
        block.write(
            k,
            Node {
                ring: 0,
                before: k,
                behind: first,
                load: Load::Free,
            },
        );
        first = k;
        count += 1;
        k += 1;
    }
    first
}
