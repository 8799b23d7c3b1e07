//! Where the nodes of rings lie.

ghost use Rattle.std.specs.Prelude.{◌≡◌, ℕ, ◌+◌, ◌-◌, ◌≤◌, Option, Some, None, true, is_some, IsOk, OnOk, option_copied};
ghost use Rattle.std.specs.Option.{option_and_then};
ghost use Rattle.slab.specs.Slab.{get, slab_len};
ghost use Rattle.bucket_ring.specs.Lists.{upd};
ghost use Rattle.raw_nodes.specs.Loads.{load_of, bucket_in};
ghost use Rattle.raw_nodes.specs.declared.node.Node.{Node};
ghost use Rattle.raw_nodes.specs.declared.node.Load.TheVariants.{Sentinel, Bucket};

use crate::names::RingId;
use raw_nodes::{Load, Node, Nodes, SlotBucket};
use slab::Slab;
use std::alloc::{AllocError, Global};
use std::mem::replace;

/// Slots for the nodes of rings, which are given, and given again. Only `reserve` takes memory, and a slot keeps its node until it is ended.
pub trait Slots<T> {
    /// The node in each slot.
    ghost node: { Self → ℕ → Option (Node T) };

    /// How many more fit with no memory.
    ghost room: { Self → ℕ };

    /// No node.
    fn new(alloc: Global) -> Self
        ensures { (k : ℕ) → node result k ≡ None };

    /// The node in a slot; `None` where none is.
    fn get(&self, slot: usize) -> Option<&Node<T>>
        ensures { option_copied result ≡ node self.now slot };

    /// Makes room for so many more. No node changes, also where it is refused; where they fit, it is not refused.
    fn reserve(&mut self, more: usize) -> Result<(), AllocError>
        ensures room { OnOk result (more ≤ room self.new) }
        ensures sure { more ≤ room self.old → IsOk result }
        ensures same { (k : ℕ) → node self.new k ≡ node self.old k };

    /// A new node, in a slot where none was. It has no bucket, and leads to itself.
    fn add(&mut self, ring: RingId) -> usize
        requires { 1 ≤ room self.old }
        ensures was { node self.old result ≡ None }
        ensures at { (k : ℕ) → node self.new k ≡ upd (node self.old) result (Some (record { ring = ring; before = result; behind = result; load = Sentinel })) k }
        ensures room { room self.old ≤ room self.new + 1 };

    /// Ends a node, and drops what it held.
    fn remove(&mut self, slot: usize)
        requires { is_some (node self.old slot) ≡ true }
        ensures { (k : ℕ) → node self.new k ≡ upd (node self.old) slot None k };

    /// Writes the slot behind one.
    fn set_behind(&mut self, slot: usize, to: usize)
        requires { is_some (node self.old slot) ≡ true }
        ensures at { (v : Node T) → node self.old slot ≡ Some v → (k : ℕ) → node self.new k ≡ upd (node self.old) slot (Some (record v { behind = to })) k }
        ensures room { room self.old ≤ room self.new };

    /// Writes the slot before one.
    fn set_before(&mut self, slot: usize, to: usize)
        requires { is_some (node self.old slot) ≡ true }
        ensures at { (v : Node T) → node self.old slot ≡ Some v → (k : ℕ) → node self.new k ≡ upd (node self.old) slot (Some (record v { before = to })) k }
        ensures room { room self.old ≤ room self.new };

    /// Writes the ring of a node, which keeps what it holds.
    fn set_ring(&mut self, slot: usize, ring: RingId)
        requires { is_some (node self.old slot) ≡ true }
        ensures at { (v : Node T) → node self.old slot ≡ Some v → (k : ℕ) → node self.new k ≡ upd (node self.old) slot (Some (record v { ring = ring })) k }
        ensures room { room self.old ≤ room self.new };

    /// Puts a bucket of a ring into a node.
    fn fill(&mut self, slot: usize, ring: RingId, birth: u64, payload: T)
        requires { is_some (node self.old slot) ≡ true }
        ensures at { (v : Node T) → node self.old slot ≡ Some v → (k : ℕ)
            → node self.new k ≡ upd (node self.old) slot (Some (record v { ring = ring; load = Bucket (record { birth = birth; payload = payload }) })) k }
        ensures room { room self.old ≤ room self.new };

    /// Takes the bucket out of a node, which stays.
    fn empty(&mut self, slot: usize) -> SlotBucket<T>
        requires { is_some (option_and_then bucket_in (load_of (node self.old slot))) ≡ true }
        ensures had { option_and_then bucket_in (load_of (node self.old slot)) ≡ Some result }
        ensures at { (v : Node T) → node self.old slot ≡ Some v → (k : ℕ) → node self.new k ≡ upd (node self.old) slot (Some (record v { ring = 0; load = Sentinel })) k }
        ensures room { room self.old ≤ room self.new };
}

#[tactic(auto, unfolding(crate::specs::Lists::upd))]
impl<T: Drop> Slots<T> for Slab<Node<T>> {
    ghost node = { λ s k. get s k };

    ghost room = { λ s. s.capacity - slab_len s };

    fn new(alloc: Global) -> Self {
        Slab::new(alloc)
    }

    fn get(&self, slot: usize) -> Option<&Node<T>> {
        Slab::get(self, slot)
    }

    fn reserve(&mut self, more: usize) -> Result<(), AllocError> {
        if more <= self.capacity() - self.len() {
            return Ok(());
        }
        Slab::reserve(self, more)
    }

    fn add(&mut self, ring: RingId) -> usize {
        let slot = self.vacant_key();
        self.insert_reserved(Node {
            ring,
            before: slot,
            behind: slot,
            load: Load::Sentinel,
        })
    }

    fn remove(&mut self, slot: usize) {
        self.try_remove(slot);
    }

    fn set_behind(&mut self, slot: usize, to: usize) {
        if let Some(node) = self.get_mut(slot) {
            node.behind = to;
        }
    }

    fn set_before(&mut self, slot: usize, to: usize) {
        if let Some(node) = self.get_mut(slot) {
            node.before = to;
        }
    }

    fn set_ring(&mut self, slot: usize, ring: RingId) {
        if let Some(node) = self.get_mut(slot) {
            node.ring = ring;
        }
    }

    fn fill(&mut self, slot: usize, ring: RingId, birth: u64, payload: T) {
        if let Some(node) = self.get_mut(slot) {
            node.ring = ring;
            node.load = Load::Bucket(SlotBucket { birth, payload });
        }
    }

    fn empty(&mut self, slot: usize) -> SlotBucket<T> {
        if let Some(node) = self.get_mut(slot) {
            node.ring = 0;
            if let Load::Bucket(bucket) = replace(&mut node.load, Load::Sentinel) {
                return bucket;
            }
        }
        unreachable!()
    }
}

#[tactic(auto, unfolding(crate::specs::Lists::upd, raw_block::specs::Maps::upd))]
impl<T: Drop> Slots<T> for Nodes<T> {
    ghost use Rattle.raw_nodes.specs.Nodes.{node_at};

    ghost node = { λ s k. node_at s k };

    ghost room = { λ s. s.spare };

    fn new(alloc: Global) -> Self {
        Nodes::new(alloc)
    }

    fn get(&self, slot: usize) -> Option<&Node<T>> {
        Nodes::get(self, slot)
    }

    fn reserve(&mut self, more: usize) -> Result<(), AllocError> {
        Nodes::reserve(self, more)
    }

    fn add(&mut self, ring: RingId) -> usize {
        Nodes::add(self, ring)
    }

    fn remove(&mut self, slot: usize) {
        Nodes::remove(self, slot);
    }

    fn set_behind(&mut self, slot: usize, to: usize) {
        Nodes::set_behind(self, slot, to);
    }

    fn set_before(&mut self, slot: usize, to: usize) {
        Nodes::set_before(self, slot, to);
    }

    fn set_ring(&mut self, slot: usize, ring: RingId) {
        Nodes::set_ring(self, slot, ring);
    }

    fn fill(&mut self, slot: usize, ring: RingId, birth: u64, payload: T) {
        Nodes::fill(self, slot, ring, SlotBucket { birth, payload });
    }

    fn empty(&mut self, slot: usize) -> SlotBucket<T> {
        match Nodes::empty(self, slot) {
            Load::Bucket(bucket) => bucket,
            _ => unreachable!(),
        }
    }
}
