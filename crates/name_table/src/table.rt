//! Values by their names.

ghost use Rattle.std.specs.Prelude.{◌≡◌, ◌≢◌, ◌<◌, ◌≤◌, ◌+◌, ◌%◌, ℕ, Some, None, IsOk, OnOk, length, slice_index_or, true, false};
ghost use Rattle.std.specs.Option.{option_map};
ghost use Rattle.name_table.specs.NameTable.{value_in, near_in, own, room_in, upd};

use crate::hashing::NameHasher;
use std::alloc::{AllocError, Global};
use std::collections::HashMap;
use std::hash::BuildHasherDefault;

/// How many values lie at the place of their name.
const NEAR: u64 = 64;

/// The place of a name.
fn place_of(name: u64) -> usize
    ensures { result ≡ name % 64 }
{
    (name % NEAR) as usize
}

/// A value, with its name.
#[derive(Clone, Copy)]
struct Named<V> {
    name: u64,
    value: V,
}

/// Values by their names. Names are given out one after the other, so most values lie at the place that their names tell. One whose place
/// is taken lies in a map.
#[derive(Drop)]
pub struct NameTable<V> {
    near: Vec<Option<Named<V>>>,
    far: HashMap<u64, V, BuildHasherDefault<NameHasher>>,
}

#[tactic(auto, unfolding(crate::specs::NameTable::near_in, crate::specs::NameTable::value_in))]
impl<V: Copy> NameTable<V> {
    /// No value. Where there is no memory for the places, all values lie in the map.
    pub fn new(alloc: Global) -> Self
        ensures { (n : ℕ) → value_in result n ≡ None }
    {
        let mut near = Vec::new(alloc);
        let _ = near.resize(NEAR as usize, None);
        NameTable {
            near,
            far: HashMap::with_hasher(alloc, BuildHasherDefault::new()),
        }
    }

    /// Makes room for so many more values. Without memory nothing is changed that a call tells.
    pub fn reserve(&mut self, values: usize) -> Result<(), AllocError>
        ensures room { OnOk result (values ≤ room_in self.new) }
        ensures sure { values ≤ room_in self.old → IsOk result }
        ensures values { (n : ℕ) → value_in self.new n ≡ value_in self.old n }
    {
        self.far.reserve(values)
    }

    /// The value of a name that lies at its place.
    #[inline]
    fn near(&self, name: u64) -> Option<V>
        ensures { result ≡ near_in self.now.near.items name }
    {
        match self.near.get(place_of(name)) {
            Some(Some(near)) if near.name == name => Some(near.value),
            Some(Some(_)) => None,
            Some(None) => None,
            None => None,
        }
    }

    /// Whether the place of a name is there, and no other name's.
    fn has_place(&self, name: u64) -> bool
        ensures there { result ≡ true → name % 64 < length self.now.near.items }
        ensures free { result ≡ true → (n : ℕ) → n ≢ name → own n (slice_index_or self.now.near.items (name % 64) None) ≡ None }
        ensures taken { result ≡ false → near_in self.now.near.items name ≡ None }
    {
        match self.near.get(place_of(name)) {
            Some(Some(near)) => near.name == name,
            Some(None) => true,
            None => false,
        }
    }

    /// The value of a name.
    #[inline]
    pub fn get(&self, name: u64) -> Option<V>
        ensures { result ≡ value_in self.now name }
    {
        match self.near(name) {
            Some(value) => Some(value),
            None => self.far.get(&name).copied(),
        }
    }

    /// Puts the value of a name, where there is room.
    pub fn put(&mut self, name: u64, value: V)
        requires { 0 < room_in self.old }
        ensures values { (n : ℕ) → value_in self.new n ≡ upd (value_in self.old) name (Some value) n }
        ensures room { room_in self.old ≤ room_in self.new + 1 }
    {
        if self.has_place(name) {
            self.near[place_of(name)] = Some(Named { name, value });
            return;
        }
        match self.far.insert(name, value) {
            Ok(_) => {}
            Err(_) => unreachable!(),
        }
    }

    /// Gives a name that has a value another.
    #[inline]
    pub fn set(&mut self, name: u64, value: V)
        ensures { (n : ℕ) → value_in self.new n ≡ upd (value_in self.old) name (option_map (λ (was : V). value) (value_in self.old name)) n }
    {
        if self.near(name).is_some() {
            self.near[place_of(name)] = Some(Named { name, value });
        } else if let Some(place) = self.far.get_mut(&name) {
            *place = value;
        }
    }

    /// Takes the value of a name away.
    pub fn remove(&mut self, name: u64)
        ensures { (n : ℕ) → value_in self.new n ≡ upd (value_in self.old) name None n }
    {
        self.far.remove(&name);
        if self.near(name).is_some() {
            self.near[place_of(name)] = None;
        }
    }
}
