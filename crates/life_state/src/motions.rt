//! How cursors move with the buckets that they stand at.

ghost use Rattle.std.specs.Prelude.{◌≡◌, ◌<◌};
ghost use Rattle.life_state.specs.Facts.{moved, set_cursor, move_bucket};
ghost use Rattle.life_state.specs.Rules.{told};
ghost use Rattle.life_state.specs.Seen.{seen, seen_cursor, seen_cursors, motion_of, others_of};

use crate::facts::{Keep, Others};
use crate::parts::CursorState;
use crate::state::State;

/// What happened to buckets at which cursors may stand.
#[derive(Clone, Copy)]
pub(crate) enum Motion {
    /// Those of this brigade are destroyed or taken away.
    Emptied(u8),
    /// This brigade is used no more.
    Left(u8),
    /// Those of the second brigade moved to the first.
    Carried(u8, u8),
    /// Those of the first brigade, from the cursor on, moved to the last, in place of what was there.
    SplitOff(u8, u8, u8),
    /// The one at this cursor moved, or was destroyed.
    Forgotten(u8),
}

#[tactic(auto)]
impl State {
    fn motion(&self, motion: Motion, k: u8) -> CursorState
        ensures { seen_cursor result ≡ motion_of motion (seen self.now) k }
    {
        let cursor = self.cursor(k);
        match motion {
            Motion::Emptied(b) => cursor.emptied(b),
            Motion::Left(b) => cursor.left(b),
            Motion::Carried(a, b) => cursor.carried(a, b),
            Motion::SplitOff(b, c, a) => {
                if k == c {
                    cursor.carried(a, b)
                } else {
                    cursor.emptied(b).emptied(a)
                }
            }
            Motion::Forgotten(c) => {
                if k == c {
                    cursor
                } else if self.known(c, k) {
                    cursor
                } else {
                    CursorState::Unset
                }
            }
        }
    }

    fn cursors_after(&self, motion: Motion) -> [CursorState; 9]
        ensures { seen_cursors result ≡ motion_of motion (seen self.now) }
    {
        let mut cursors = [CursorState::Unset; 9];
        for k in 0..9u8 {
            cursors[usize::from(k)] = self.motion(motion, k);
        }
        cursors
    }

    /// Moves the cursors.
    #[tactic(auto, unfolding(crate::specs::Facts::moved))]
    #[must_use]
    pub(crate) fn move_cursors(mut self, motion: Motion) -> State
        ensures { seen result ≡ moved (motion_of motion (seen self)) (seen self) }
    {
        self.change_cursors(Keep::Known, self.cursors_after(motion));
        self
    }

    /// Says what is known of a cursor that stays where it is.
    #[tactic(auto, unfolding(crate::specs::Facts::moved, crate::specs::Seen::seen, run_model::specs::Indexed::upd))]
    pub(crate) fn told(mut self, c: u8, cursor: CursorState) -> State
        requires { c < 9 }
        ensures { seen result ≡ told c (seen_cursor cursor) (seen self) }
    {
        let mut cursors = self.cursors;
        cursors[usize::from(c)] = cursor;
        self.change_cursors(Keep::Known, cursors);
        self
    }

    /// Sets a cursor. Of its bucket is known that it is not that of the others.
    #[tactic(auto, unfolding(crate::specs::Facts::set_cursor, crate::specs::Seen::seen, run_model::specs::Indexed::upd))]
    #[must_use]
    pub(crate) fn set_cursor(mut self, c: u8, cursor: CursorState, others: Others) -> State
        requires { c < 9 }
        ensures { seen result ≡ set_cursor c (seen_cursor cursor) (others_of others (seen self)) (seen self) }
    {
        let mut cursors = self.cursors;
        cursors[usize::from(c)] = cursor;
        self.change_cursors(Keep::But(c, others), cursors);
        self
    }

    /// The bucket at a cursor moves, or is destroyed: the other cursors that may be at it are unset.
    #[tactic(auto, unfolding(crate::specs::Facts::moved, run_model::specs::Indexed::upd))]
    #[must_use]
    pub(crate) fn move_bucket(mut self, c: u8, cursor: CursorState) -> State
        requires { c < 9 }
        ensures { seen result ≡ move_bucket c (seen_cursor cursor) (seen self) }
    {
        let mut cursors = self.cursors_after(Motion::Forgotten(c));
        cursors[usize::from(c)] = cursor;
        self.change_cursors(Keep::Known, cursors);
        self
    }
}
