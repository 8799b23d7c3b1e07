//! A node of a ring, and what is written in its place.

ghost use Rattle.std.specs.Prelude.{◌≡◌, ℕ, Some, true, is_some};
ghost use Rattle.raw_block.specs.Maps.{upd};
ghost use Rattle.raw_block.specs.Blocks.{at};
ghost use Rattle.raw_nodes.specs.declared.node.Node.{Node};
ghost use Rattle.raw_nodes.specs.Links.{with_link};

use raw_block::Block;
use std::mem::replace;

/// A bucket in its node.
#[derive(Drop)]
pub struct SlotBucket<T> {
    pub birth: u64,
    pub payload: T,
}

/// What a node holds.
#[derive(Drop)]
pub enum Load<T> {
    /// Nothing: the node may be given.
    Free,
    /// No bucket: the node is a ring's sentinel, or in no ring.
    Sentinel,
    /// A bucket.
    Bucket(SlotBucket<T>),
}

/// A node of a ring, with the nodes before and behind it. A free one has the next free one behind it.
#[derive(Drop)]
pub struct Node<T> {
    pub ring: u64,
    pub before: usize,
    pub behind: usize,
    pub load: Load<T>,
}

/// What is written of a node, which keeps what it holds.
#[derive(Clone, Copy)]
pub(crate) enum Link {
    /// The place before it.
    Before(usize),
    /// The place behind it.
    Behind(usize),
    /// Its ring.
    Ring(u64),
}

/// Writes one link of a node.
#[inline]
#[tactic(auto, unfolding(raw_block::specs::Blocks::at, raw_block::specs::Maps::upd))]
pub(crate) fn write_link<T>(block: &mut Block<Node<T>>, k: usize, link: Link)
    requires { is_some (at block.old k) ≡ true }
    ensures at { (n : Node T) → at block.old k ≡ Some n → (j : ℕ) → at block.new j ≡ upd (at block.old) k (Some (with_link link n)) j }
    ensures len { block.new.len ≡ block.old.len }
{
    match link {
        Link::Before(to) => block.get_mut(k).before = to,
        Link::Behind(to) => block.get_mut(k).behind = to,
        Link::Ring(ring) => block.get_mut(k).ring = ring,
    }
}

/// Writes the ring of a node and what it holds, and answers what it held.
#[tactic(auto, unfolding(raw_block::specs::Blocks::at, raw_block::specs::Maps::upd))]
pub(crate) fn write_load<T>(
    block: &mut Block<Node<T>>,
    k: usize,
    ring: u64,
    load: Load<T>,
) -> Load<T>
    requires { is_some (at block.old k) ≡ true }
    ensures had { (n : Node T) → at block.old k ≡ Some n → result ≡ n.load }
    ensures at { (n : Node T) → at block.old k ≡ Some n → (j : ℕ) → at block.new j ≡ upd (at block.old) k (Some (record n { ring = ring; load = load })) j }
    ensures len { block.new.len ≡ block.old.len }
{
    let node = block.get_mut(k);
    node.ring = ring;
    replace(&mut node.load, load)
}
