//! Pools that go hand their payloads on.

ghost use Rattle.std.specs.Prelude.{◌≡◌, ℕ, ◌+◌, ◌≤◌, false, [], ◌++◌, map, reverse, length, vec_len, vec_capacity};
ghost use Rattle.std.specs.List.{flat_map};
ghost use Rattle.pool_tree.specs.Prelude.{record_of, payloads_of, IsCleared, own_of, IsOnce, seen_of, after_turn, after_turns};
ghost use Rattle.run_model.specs.declared.effect.CleanupKind.TheVariants.{Plain, Pre};

use crate::records::Records;
use run_model::CleanupKind;

/// Moves payloads to the end of a list that has room for them, the last first.
fn move_payloads<T: Drop>(ran: &mut Vec<(u64, T)>, name: u64, payloads: &mut Vec<T>)
    requires { vec_len ran.old + vec_len payloads.old ≤ vec_capacity ran.old }
    ensures items { ran.new.items ≡ ran.old.items ++ map (λ x. (name, x)) (reverse payloads.old.items) }
    ensures emptied { payloads.new.items ≡ [] }
    ensures room { vec_capacity ran.old ≤ vec_capacity ran.new }
{
    while let Some(payload) = payloads.pop() {
        ran.push((name, payload)).unwrap();
    }
}

/// Hands on what is due in the first turn of a pool, before what the pools under it do.
#[tactic(auto, unfolding(crate::specs::Records::record_of, crate::specs::Handed::own_of, crate::specs::Handed::seen_of, crate::specs::Handed::after_turn))]
fn take_pre<T: Drop>(records: &mut Records<T>, name: u64, ran: &mut Vec<(u64, T)>)
    requires { vec_len ran.old + length (own_of (record_of records.old) (name, Pre)) ≤ vec_capacity ran.old }
    ensures items { ran.new.items ≡ ran.old.items ++ own_of (record_of records.old) (name, Pre) }
    ensures rest { (n : ℕ) → seen_of (record_of records.new) n ≡ after_turn (name, Pre) n (seen_of (record_of records.old) n) }
    ensures room { vec_capacity ran.old ≤ vec_capacity ran.new }
{
    if let Some(pool) = records.by_name.get_mut(&name) {
        move_payloads(ran, name, &mut pool.pre);
    }
}

/// Hands on what is due in the last turn of a pool, and takes it out.
#[tactic(auto, unfolding(crate::specs::Handed::own_of, crate::specs::Handed::seen_of, crate::specs::Handed::after_turn))]
fn take_pool<T: Drop>(records: &mut Records<T>, name: u64, ran: &mut Vec<(u64, T)>)
    requires { vec_len ran.old + length (own_of (record_of records.old) (name, Plain)) ≤ vec_capacity ran.old }
    ensures items { ran.new.items ≡ ran.old.items ++ own_of (record_of records.old) (name, Plain) }
    ensures rest { (n : ℕ) → seen_of (record_of records.new) n ≡ after_turn (name, Plain) n (seen_of (record_of records.old) n) }
    ensures room { vec_capacity ran.old ≤ vec_capacity ran.new }
{
    if let Some(mut pool) = records.take(name) {
        move_payloads(ran, name, &mut pool.plain);
    }
}

/// Hands on what is due in a turn of a pool.
pub(crate) fn take_turn<T: Drop>(
    records: &mut Records<T>,
    turn: (u64, CleanupKind),
    ran: &mut Vec<(u64, T)>,
)
    requires { vec_len ran.old + length (own_of (record_of records.old) turn) ≤ vec_capacity ran.old }
    ensures items { ran.new.items ≡ ran.old.items ++ own_of (record_of records.old) turn }
    ensures rest { (n : ℕ) → seen_of (record_of records.new) n ≡ after_turn turn n (seen_of (record_of records.old) n) }
    ensures room { vec_capacity ran.old ≤ vec_capacity ran.new }
{
    match turn.1 {
        CleanupKind::Pre => take_pre(records, turn.0, ran),
        CleanupKind::Plain => take_pool(records, turn.0, ran),
    }
}

/// Takes the turns of pools, the last of the list first.
#[tactic(auto, unfolding(crate::specs::Handed::after_turns))]
pub(crate) fn take_turns<T: Drop>(
    records: &mut Records<T>,
    mut turns: Vec<(u64, CleanupKind)>,
    ran: &mut Vec<(u64, T)>,
)
    requires once { IsOnce (reverse turns.items) }
    requires room { vec_len ran.old + length (flat_map (own_of (record_of records.old)) (reverse turns.items)) ≤ vec_capacity ran.old }
    ensures items { ran.new.items ≡ ran.old.items ++ flat_map (own_of (record_of records.old)) (reverse turns.items) }
    ensures rest { (n : ℕ) → seen_of (record_of records.new) n ≡ after_turns (reverse turns.items) n (seen_of (record_of records.old) n) }
    ensures room { vec_capacity ran.old ≤ vec_capacity ran.new }
{
    while let Some(turn) = turns.pop() {
        take_turn(records, turn, ran);
    }
}

/// Leaves a pool without plain payloads, which it hands on, and without its link to children that went.
#[tactic(auto, unfolding(crate::specs::Records::record_of, crate::specs::Handed::own_of))]
pub(crate) fn empty_pool<T: Drop>(records: &mut Records<T>, name: u64, ran: &mut Vec<(u64, T)>)
    requires room { vec_len ran.old + length (own_of (record_of records.old) (name, Plain)) ≤ vec_capacity ran.old }
    requires bare { (payloads_of (record_of records.old) name).pre ≡ [] }
    ensures items { ran.new.items ≡ ran.old.items ++ own_of (record_of records.old) (name, Plain) }
    ensures rest { IsCleared name (λ _. false) (record_of records.old) (record_of records.new) }
{
    if let Some(pool) = records.by_name.get_mut(&name) {
        pool.newest = None;
        move_payloads(ran, name, &mut pool.plain);
    }
}
