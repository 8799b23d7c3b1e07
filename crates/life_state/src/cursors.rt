//! What is known of one cursor.

ghost use Rattle.std.specs.Prelude.{◌≡◌};
ghost use Rattle.life_state.specs.Facts.{is_set, is_end, place_of, is_apart};
ghost use Rattle.life_state.specs.Rules.{emptied, left, carried};
ghost use Rattle.life_state.specs.Seen.{seen_cursor};

use crate::parts::CursorState;

impl CursorState {
    /// Whether something is known of it.
    pub fn is_set(&self) -> bool
        ensures { result ≡ is_set (seen_cursor self.now) }
    {
        match self {
            CursorState::Unset => false,
            CursorState::Loose(_, _)
            | CursorState::In(_, _)
            | CursorState::End(_)
            | CursorState::InOrEnd(_, _) => true,
        }
    }

    /// Whether it is the end of a brigade.
    pub fn is_end(&self) -> bool
        ensures { result ≡ is_end (seen_cursor self.now) }
    {
        match self {
            CursorState::End(_) => true,
            CursorState::Unset
            | CursorState::Loose(_, _)
            | CursorState::In(_, _)
            | CursorState::InOrEnd(_, _) => false,
        }
    }

    /// The place of a cursor that is set: 0 where its bucket is loose, 1 and more in a brigade.
    pub(crate) fn place(&self) -> u16
        ensures { result ≡ place_of (seen_cursor self.now) }
    {
        match self {
            CursorState::Unset | CursorState::Loose(_, _) => 0,
            CursorState::In(b, _) | CursorState::End(b) | CursorState::InOrEnd(b, _) => {
                u16::from(*b) + 1
            }
        }
    }

    /// Whether two cursors stand at different places, or one is an end.
    pub fn is_apart(&self, other: &CursorState) -> bool
        ensures { result ≡ is_apart (seen_cursor self.now) (seen_cursor other.now) }
    {
        let elsewhere = self.place() != other.place();
        self.is_set() & other.is_set() & (self.is_end() | other.is_end() | elsewhere)
    }

    /// The buckets of `b` are destroyed or taken away; its end stays.
    pub(crate) fn emptied(self, b: u8) -> CursorState
        ensures { seen_cursor result ≡ emptied b (seen_cursor self) }
    {
        match self {
            CursorState::In(a, _) | CursorState::InOrEnd(a, _) if a == b => CursorState::Unset,
            other => other,
        }
    }

    /// `b` is used no more.
    pub(crate) fn left(self, b: u8) -> CursorState
        ensures { seen_cursor result ≡ left b (seen_cursor self) }
    {
        match self {
            CursorState::In(a, _) | CursorState::InOrEnd(a, _) | CursorState::End(a) if a == b =>
                CursorState::Unset,
            other => other,
        }
    }

    /// The buckets of `b` moved to `a`.
    pub(crate) fn carried(self, a: u8, b: u8) -> CursorState
        ensures { seen_cursor result ≡ carried a b (seen_cursor self) }
    {
        match self {
            CursorState::In(v, classes) if v == b => CursorState::In(a, classes),
            CursorState::InOrEnd(v, _) if v == b => CursorState::Unset,
            other => other,
        }
    }
}
