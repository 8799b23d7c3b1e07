//! Whether a state is in form: each thing is said in one way.

ghost use Rattle.std.specs.Prelude.{◌≡◌, ◌<◌, ℕ, true, length};
ghost use Rattle.life_state.specs.Prelude.{AtHand, FormedBrigade, FormedCursor, IsFormed, NamesBelow, FormedPlace, FormedFact, FormedAt, names_below, is_free, is_unmade, is_formed_pool};
ghost use Rattle.life_state.specs.Prelude.{is_formed_brigade, is_formed_place, has_at_hand, is_formed_cursor, is_formed_fact, is_formed_at, is_formed, all_below, seen, seen_homes, seen_brigade};
ghost use Rattle.life_state.specs.Prelude.{no_homes};

use crate::parts::{BrigadeState, CursorState, HomeSet};
use crate::state::State;

fn is_unmade(brigade: &BrigadeState) -> bool
    ensures { result ≡ is_unmade (seen_brigade brigade.now) }
{
    brigade.null & !brigade.gone & !brigade.live
}

/// How many cursors a row of facts is for.
fn width(row: &[bool; 9]) -> u8
    ensures value { result ≡ 9 }
    ensures whole { length row.now ≡ 9 }
{
    row.len() as u8
}

/// Whether no homes are told.
fn is_free(homes: &HomeSet) -> bool
    ensures value { result ≡ is_free (seen_homes homes.now) }
    ensures sound { result ≡ true → seen_homes homes.now ≡ no_homes }
{
    let named = are_declared(homes, 0);
    !homes.call & !homes.dead & !homes.pools.req & named
}

/// Whether the pools among the homes have numbers below this one.
fn are_declared(homes: &HomeSet, count: u8) -> bool
    ensures value { result ≡ names_below count (seen_homes homes.now) }
    ensures sound { result ≡ true → NamesBelow count (seen_homes homes.now) }
{
    for q in 0..8u8 {
        let declared = q < count || !homes.pools.own[usize::from(q)];
        if !declared {
            return false;
        }
    }
    true
}

/// Whether a brigade has a mark exactly where it may be live, and contents and homes only where it may be usable.
fn is_formed_brigade(brigade: &BrigadeState) -> bool
    ensures value { result ≡ is_formed_brigade (seen_brigade brigade.now) }
    ensures sound { result ≡ true → FormedBrigade (seen_brigade brigade.now) }
{
    (brigade.null | brigade.gone | brigade.live)
        & (brigade.live == (brigade.usable | brigade.passed))
        & (brigade.usable | (brigade.content.is_empty() & is_free(&brigade.homes)))
}

impl State {
    fn are_formed_pools(&self) -> bool
        ensures { result ≡ all_below 8 (is_formed_pool (seen self.now)) }
    {
        for q in 0..8u8 {
            let pool = self.pool(q);
            let null = pool.null & !pool.gone & !pool.live;
            let formed = (pool.null | pool.gone | pool.live) & ((q < self.pool_count) | null);
            if !formed {
                return false;
            }
        }
        true
    }

    fn is_formed_brigade(&self, b: u8) -> bool
        ensures value { result ≡ is_formed_place (seen self.now) b }
        ensures sound { result ≡ true → FormedPlace (seen self.now) b }
    {
        let brigade = self.brigade(b);
        let formed = is_formed_brigade(&brigade);
        let declared = are_declared(&brigade.homes, self.pool_count);
        let unmade = is_unmade(&brigade);
        formed & declared & ((b == 8) | (b < self.brigade_count) | unmade)
    }

    fn is_at_hand(&self, b: u8) -> bool
        ensures value { result ≡ has_at_hand (seen self.now) b }
        ensures sound { result ≡ true → AtHand (seen self.now) b }
    {
        let brigade = self.brigade(b);
        b < 9 && brigade.is_live() && brigade.is_usable()
    }

    fn is_formed_cursor(&self, c: u8) -> bool
        ensures value { result ≡ is_formed_cursor (seen self.now) ((seen self.now).cursors c) }
        ensures sound { result ≡ true → FormedCursor (seen self.now) ((seen self.now).cursors c) }
    {
        match self.cursor(c) {
            CursorState::Unset => true,
            CursorState::Loose(classes, homes) => {
                classes.is_some() & are_declared(&homes, self.pool_count)
            }
            CursorState::In(b, classes) | CursorState::InOrEnd(b, classes) => {
                classes.is_some() & self.is_at_hand(b)
            }
            CursorState::End(b) => self.is_at_hand(b),
        }
    }

    /// A fact is written both ways, and only where it has to be.
    fn is_formed_fact(&self, c: u8, d: u8) -> bool
        ensures value { result ≡ is_formed_fact (seen self.now) c d }
        ensures sound { result ≡ true → FormedFact (seen self.now) c d }
    {
        let first = self.cursor(c);
        let second = self.cursor(d);
        let is_due = (c != d) & first.is_set() & second.is_set() & !first.is_apart(&second);
        (is_due | !self.fact(c, d)) & (self.fact(c, d) == self.fact(d, c))
    }

    fn are_formed_facts(&self, c: u8) -> bool
        requires { c < 9 }
        ensures value { result ≡ all_below 9 (is_formed_fact (seen self.now) c) }
        ensures sound { result ≡ true → (d : ℕ) → FormedFact (seen self.now) c d }
    {
        for d in 0..width(&self.facts[usize::from(c)]) {
            let formed = self.is_formed_fact(c, d);
            if !formed {
                return false;
            }
        }
        true
    }

    fn are_formed_places(&self) -> bool
        ensures value { result ≡ all_below 9 (is_formed_at (seen self.now)) }
        ensures sound { result ≡ true → (k : ℕ) → k < 9 → FormedAt (seen self.now) k }
    {
        for k in 0..9u8 {
            let place = self.is_formed_brigade(k);
            let cursor = self.is_formed_cursor(k);
            let facts = self.are_formed_facts(k);
            let formed = place & cursor & facts;
            if !formed {
                return false;
            }
        }
        true
    }

    /// Whether the state is in form: whether what it says is said in the one way in which it may be written.
    pub fn is_formed(&self) -> bool
        ensures value { result ≡ is_formed (seen self.now) }
        ensures sound { result ≡ true → IsFormed (seen self.now) }
        ensures complete { IsFormed (seen self.now) → result ≡ true }
    {
        let brought = self.brigade(8);
        (self.pool_count <= 8)
            & (self.brigade_count <= 8)
            & (is_unmade(&brought) | brought.is_live())
            & self.are_formed_pools()
            & self.are_formed_places()
    }
}
