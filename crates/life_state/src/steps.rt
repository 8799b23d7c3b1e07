//! What effects make of a state.

ghost use Rattle.std.specs.Prelude.{◌≡◌, ◌<◌, length};
ghost use Rattle.life_state.specs.Prelude.{set_brigade, holds, homes_join, In, move_bucket, classes_of, homes_at, after_bcreate, after_concat, after_bsave, split_part, after_next, after_unlink};
ghost use Rattle.life_state.specs.Prelude.{side_content, put_in, after_before, made, after_aside, after_pass, seen, seen_homes, seen_brigade, seen_cursor};

use crate::clears::pool_of_brigade;
use crate::facts::Others;
use crate::motions::Motion;
use crate::parts::{BrigadeState, Classes, Contents, CursorState, HomeSet};
use crate::state::State;
use module_code::{Module, PoolRef};
use run_model::Side;

#[tactic(auto)]
impl State {
    /// Says what a brigade variable is.
    pub(crate) fn with_brigade(mut self, b: u8, brigade: BrigadeState) -> State
        requires { b < 9 }
        ensures { seen result ≡ set_brigade b (seen_brigade brigade) (seen self) }
    {
        self.set_brigade(b, brigade);
        self
    }

    pub(crate) fn bcreate(self, b: u8) -> State
        requires { b < 9 }
        ensures { seen result ≡ after_bcreate b (seen self) }
    {
        self.with_brigade(b, BrigadeState::empty())
    }

    pub(crate) fn concat_brigades(self, a: u8, b: u8, homes: HomeSet) -> State
        requires first { a < 9 }
        requires second { b < 9 }
        ensures { seen result ≡ after_concat a b (seen_homes homes) (seen self) }
    {
        let content = self.content(a).concat(self.content(b));
        self.with_brigade(a, BrigadeState::holding(content, homes))
            .bcreate(b)
            .move_cursors(Motion::Carried(a, b))
    }

    pub(crate) fn bsave(self, code: &Module, o: u8, b: u8) -> State
        requires first { o < 9 }
        requires second { b < 9 }
        requires brigades { (seen self).brigade_count ≡ length code.now.brigades }
        ensures { seen result ≡ after_bsave code.now o b (seen self) }
    {
        let pool = pool_of_brigade(code, self.brigade_count(), o);
        self.concat_brigades(o, b, self.homes(o).join(&HomeSet::in_pool(pool)))
    }

    pub(crate) fn split_part(&self, b: u8, cursor: CursorState) -> BrigadeState
        ensures { seen_brigade result ≡ split_part (seen_cursor cursor) ((seen self.now).brigades b) }
    {
        if cursor.is_end() {
            BrigadeState::empty()
        } else {
            BrigadeState::holding(self.content(b), self.homes(b))
        }
    }

    pub(crate) fn next(self, d: u8, c: u8, cursor: CursorState) -> State
        requires { d < 9 }
        ensures { seen result ≡ after_next d c (seen_cursor cursor) (seen self) }
    {
        match cursor {
            CursorState::In(b, _) => {
                self.set_cursor(d, self.content(b).bucket_or_end(b), Others::Only(c))
            }
            CursorState::Unset
            | CursorState::Loose(_, _)
            | CursorState::End(_)
            | CursorState::InOrEnd(_, _) => self,
        }
    }

    pub(crate) fn unlink(self, c: u8) -> State
        requires { c < 9 }
        ensures { seen result ≡ after_unlink c (seen self) }
    {
        let cursor = self.cursor(c);
        let homes = self.homes_at(cursor);
        self.move_bucket(c, CursorState::Loose(cursor.classes(), homes))
    }

    fn put_in(mut self, content: Contents, b: u8, c: u8) -> State
        requires first { c < 9 }
        requires second { b < 9 }
        ensures { seen result ≡ move_bucket c (In b (classes_of ((seen self).cursors c))) (set_brigade b (holds content (homes_join
            ((seen self).brigades b).homes (homes_at (seen self) ((seen self).cursors c)))) (seen self)) }
    {
        let cursor = self.cursor(c);
        let homes = self.homes(b).join(&self.homes_at(cursor));
        self.set_brigade(b, BrigadeState::holding(content, homes));
        self.move_bucket(c, CursorState::In(b, cursor.classes()))
    }

    pub(crate) fn insert(self, side: Side, b: u8, c: u8) -> State
        requires first { c < 9 }
        requires second { b < 9 }
        ensures { seen result ≡ put_in (side_content side) b c (seen self) }
    {
        let classes = self.cursor(c).classes();
        match side {
            Side::AtTail => self.put_in(self.content(b).with_tail(classes), b, c),
            Side::AtHead => self.put_in(self.content(b).with_head(classes), b, c),
        }
    }

    pub(crate) fn before(self, c: u8, cursor: CursorState) -> State
        requires { c < 9 }
        ensures { seen result ≡ after_before c (seen_cursor cursor) (seen self) }
    {
        match cursor {
            CursorState::In(b, _) if b < 9 => {
                let content = self.content(b).with_inner(self.cursor(c).classes());
                self.put_in(content, b, c)
            }
            CursorState::Unset
            | CursorState::In(_, _)
            | CursorState::Loose(_, _)
            | CursorState::End(_)
            | CursorState::InOrEnd(_, _) => self,
        }
    }

    pub(crate) fn made(self, c: u8, classes: Classes, homes: HomeSet) -> State
        requires { c < 9 }
        ensures { seen result ≡ made c classes (seen_homes homes) (seen self) }
    {
        self.set_cursor(c, CursorState::Loose(classes, homes), Others::All)
    }

    pub(crate) fn aside(self, c: u8, pool: PoolRef, cursor: CursorState) -> State
        requires cursor { c < 9 }
        ensures { seen result ≡ after_aside c pool (seen_cursor cursor) (seen self) }
    {
        match cursor {
            CursorState::Loose(classes, _) => {
                self.move_bucket(c, CursorState::Loose(classes, HomeSet::in_pool(pool)))
            }
            CursorState::In(b, _) if b < 9 => {
                let brigade = self.brigade(b);
                let homes = HomeSet::in_pool(pool).join(&brigade.homes);
                self.with_brigade(b, BrigadeState { homes, ..brigade })
            }
            CursorState::Unset
            | CursorState::In(_, _)
            | CursorState::End(_)
            | CursorState::InOrEnd(_, _) => self,
        }
    }

    pub(crate) fn pass(mut self, b: u8) -> State
        requires { b < 9 }
        ensures { seen result ≡ after_pass b (seen self) }
    {
        self.sent = self.sent | self.content(b).may_end();
        let passed = BrigadeState {
            usable: false,
            passed: true,
            ..BrigadeState::empty()
        };
        self.set_brigade(b, passed);
        self.move_cursors(Motion::Left(b))
    }
}
