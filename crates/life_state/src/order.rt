//! The order of the parts of a state: the greater one says less.

ghost use Rattle.std.specs.Prelude.{◌≡◌};
ghost use Rattle.life_state.specs.Prelude.{is_live_alone, ended_pool, is_live_brigade, is_usable_alone, holds, never_made, no_homes, ended_brigade, rank, content_leq, content_join, classes_leq};
ghost use Rattle.life_state.specs.Prelude.{classes_join, pool_leq, pool_join, brigade_leq, brigade_join, cursor_leq, cursor_join, seen_homes, seen_brigade, seen_cursor};
ghost use Rattle.life_state.specs.declared.parts.Contents.TheVariants as Contents;

use crate::parts::{BrigadeState, Classes, Contents, CursorState, HomeSet, PoolState};
use crate::pools::implies;

impl Contents {
    fn rank(self) -> u8
        ensures { result ≡ rank self }
    {
        match self {
            Contents::Empty => 0,
            Contents::Flushes => 1,
            Contents::NoEos => 2,
            Contents::NoLateData => 3,
            Contents::Any => 4,
        }
    }

    /// Whether the other contents allow no less.
    pub(crate) fn leq(self, other: Contents) -> bool
        ensures { result ≡ content_leq self other }
    {
        self.rank() <= other.rank()
    }

    /// The one that allows more.
    pub(crate) fn join(self, other: Contents) -> Contents
        ensures { result ≡ content_join self other }
    {
        if self.leq(other) { other } else { self }
    }
}

impl Classes {
    fn leq(&self, other: &Classes) -> bool
        ensures { result ≡ classes_leq self.now other.now }
    {
        implies(self.bytes, other.bytes)
            & implies(self.flush, other.flush)
            & implies(self.eos, other.eos)
    }

    fn join(&self, other: &Classes) -> Classes
        ensures { result ≡ classes_join self.now other.now }
    {
        Classes {
            bytes: self.bytes | other.bytes,
            flush: self.flush | other.flush,
            eos: self.eos | other.eos,
        }
    }
}

impl PoolState {
    pub(crate) fn leq(&self, other: &PoolState) -> bool
        ensures { result ≡ pool_leq self.now other.now }
    {
        implies(self.null, other.null)
            & implies(self.gone, other.gone)
            & implies(self.live, other.live)
    }

    pub(crate) fn join(&self, other: &PoolState) -> PoolState
        ensures { result ≡ pool_join self.now other.now }
    {
        PoolState {
            null: self.null | other.null,
            gone: self.gone | other.gone,
            live: self.live | other.live,
        }
    }

    /// Whether its pool is live, and nothing else.
    pub fn is_live(&self) -> bool
        ensures { result ≡ is_live_alone self.now }
    {
        self.live & !self.null & !self.gone
    }

    /// Its pool is dead, if there was one.
    pub(crate) fn ended(&self) -> PoolState
        ensures { result ≡ ended_pool self.now }
    {
        PoolState {
            null: self.null,
            gone: self.gone | self.live,
            live: false,
        }
    }
}

impl BrigadeState {
    #[tactic(auto, unfolding(crate::specs::Order::brigade_leq))]
    pub(crate) fn leq(&self, other: &BrigadeState) -> bool
        ensures { result ≡ brigade_leq (seen_brigade self.now) (seen_brigade other.now) }
    {
        let variable = implies(self.null, other.null)
            & implies(self.gone, other.gone)
            & implies(self.live, other.live);
        let marks = implies(self.usable, other.usable) & implies(self.passed, other.passed);
        variable & marks & self.content.leq(other.content) & self.homes.leq(&other.homes)
    }

    pub(crate) fn join(&self, other: &BrigadeState) -> BrigadeState
        ensures { seen_brigade result ≡ brigade_join (seen_brigade self.now) (seen_brigade other.now) }
    {
        BrigadeState {
            null: self.null | other.null,
            gone: self.gone | other.gone,
            live: self.live | other.live,
            usable: self.usable | other.usable,
            passed: self.passed | other.passed,
            content: self.content.join(other.content),
            homes: self.homes.join(&other.homes),
        }
    }

    /// Whether its brigade is live, and nothing else.
    pub fn is_live(&self) -> bool
        ensures { result ≡ is_live_brigade (seen_brigade self.now) }
    {
        self.live & !self.null & !self.gone
    }

    /// Whether a live one is usable, and not passed.
    pub fn is_usable(&self) -> bool
        ensures { result ≡ is_usable_alone (seen_brigade self.now) }
    {
        self.usable & !self.passed
    }

    /// Live and usable, with these buckets.
    pub(crate) fn holding(content: Contents, homes: HomeSet) -> BrigadeState
        ensures { seen_brigade result ≡ holds content (seen_homes homes) }
    {
        BrigadeState {
            null: false,
            gone: false,
            live: true,
            usable: true,
            passed: false,
            content,
            homes,
        }
    }

    /// Live and usable, without a bucket.
    pub(crate) fn empty() -> BrigadeState
        ensures { seen_brigade result ≡ holds Contents.Empty no_homes }
    {
        BrigadeState::holding(Contents::Empty, HomeSet::none())
    }

    /// Nothing was made in it.
    pub(crate) fn never_made() -> BrigadeState
        ensures { seen_brigade result ≡ never_made }
    {
        BrigadeState {
            homes: HomeSet::none(),
            ..BrigadeState::UNMADE
        }
    }

    /// Its brigade is dead, if there was one.
    pub(crate) fn ended(&self) -> BrigadeState
        ensures { seen_brigade result ≡ ended_brigade (seen_brigade self.now) }
    {
        BrigadeState {
            null: self.null,
            gone: self.gone | self.live,
            live: false,
            usable: false,
            passed: false,
            content: Contents::Empty,
            homes: HomeSet::none(),
        }
    }
}

impl CursorState {
    pub(crate) fn leq(&self, other: &CursorState) -> bool
        ensures { result ≡ cursor_leq (seen_cursor self.now) (seen_cursor other.now) }
    {
        match (self, other) {
            (_, CursorState::Unset) => true,
            (CursorState::Loose(s, h), CursorState::Loose(t, k)) => s.leq(t) & h.leq(k),
            (CursorState::In(b, s), CursorState::In(c, t))
            | (CursorState::In(b, s), CursorState::InOrEnd(c, t))
            | (CursorState::InOrEnd(b, s), CursorState::InOrEnd(c, t)) => (b == c) & s.leq(t),
            (CursorState::End(b), CursorState::End(c))
            | (CursorState::End(b), CursorState::InOrEnd(c, _)) => b == c,
            _ => false,
        }
    }

    /// The least that is above both.
    #[tactic(auto, unfolding(crate::specs::Order::cursor_join))]
    pub(crate) fn join(&self, other: &CursorState) -> CursorState
        ensures { seen_cursor result ≡ cursor_join (seen_cursor self.now) (seen_cursor other.now) }
    {
        if self.place() != other.place() {
            return CursorState::Unset;
        }
        match (self, other) {
            (CursorState::Loose(s, h), CursorState::Loose(t, k)) => {
                CursorState::Loose(s.join(t), h.join(k))
            }
            (CursorState::In(b, s), CursorState::In(_, t)) => CursorState::In(*b, s.join(t)),
            (CursorState::In(b, s), CursorState::InOrEnd(_, t))
            | (CursorState::InOrEnd(b, s), CursorState::In(_, t))
            | (CursorState::InOrEnd(b, s), CursorState::InOrEnd(_, t)) => {
                CursorState::InOrEnd(*b, s.join(t))
            }
            (CursorState::In(b, s), CursorState::End(_))
            | (CursorState::InOrEnd(b, s), CursorState::End(_)) => CursorState::InOrEnd(*b, *s),
            (CursorState::End(b), CursorState::In(_, t))
            | (CursorState::End(b), CursorState::InOrEnd(_, t)) => CursorState::InOrEnd(*b, *t),
            (CursorState::End(b), CursorState::End(_)) => CursorState::End(*b),
            _ => CursorState::Unset,
        }
    }
}
