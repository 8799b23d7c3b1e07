//! What instructions need of a state: one test for each want.

ghost use Rattle.std.specs.Prelude.{◌≡◌, true};
ghost use Rattle.life_state.specs.Prelude.{fits, wants, need_of, want_of, cursor_need, homes_at, need, first_need, seen, seen_homes, seen_cursor};

use crate::parts::{Contents, CursorState, HomeSet};
use crate::state::State;
use module_code::{Instr, Module, PoolRef};
use run_model::{FaultKind, Need, Want, wants};

impl CursorState {
    fn need(&self, need: Need) -> Option<FaultKind>
        ensures { result ≡ cursor_need (need_of need) (seen_cursor self.now) }
    {
        match self {
            CursorState::Unset => Some(FaultKind::F3),
            CursorState::Loose(_, _) => need.loose_fault(),
            CursorState::In(b, _) => need.within_fault(*b),
            CursorState::End(b) => need.end_fault(*b),
            CursorState::InOrEnd(b, _) => match need.end_fault(*b) {
                Some(kind) => Some(kind),
                None => need.within_fault(*b),
            },
        }
    }
}

#[tactic(auto)]
impl State {
    /// The homes of the bucket at a cursor.
    pub(crate) fn homes_at(&self, cursor: CursorState) -> HomeSet
        ensures { seen_homes result ≡ homes_at (seen self.now) (seen_cursor cursor) }
    {
        match cursor {
            CursorState::Unset => HomeSet::none(),
            CursorState::End(_) => HomeSet::none(),
            CursorState::Loose(_, homes) => homes,
            CursorState::In(b, _) | CursorState::InOrEnd(b, _) => self.homes(b),
        }
    }

    /// The fault of a want that the state does not meet.
    fn need(&self, want: Want) -> Option<FaultKind>
        ensures { result ≡ need (seen self.now) (want_of want) }
    {
        match want {
            Want::Pool(PoolRef::Own(q)) => (!self.pool(q).is_live()).then_some(FaultKind::F1),
            Want::Pool(PoolRef::Conn | PoolRef::Req) => None,
            Want::Brigade(b) => (!self.brigade(b).is_live()).then_some(FaultKind::F2),
            Want::Usable(b) => {
                let brigade = self.brigade(b);
                if brigade.is_live() {
                    (!brigade.is_usable()).then_some(FaultKind::F7)
                } else {
                    Some(FaultKind::F2)
                }
            }
            Want::New(b) => self.brigade(b).live.then_some(FaultKind::F10),
            Want::NewPool(q) => self.pool(q).live.then_some(FaultKind::F10),
            Want::Cursor(c, need) => self.cursor(c).need(need),
            Want::Homes(b) | Want::HomeAcross(b, _) => self.homes(b).dead.then_some(FaultKind::F5),
            Want::Home(c) => self.homes_at(self.cursor(c)).dead.then_some(FaultKind::F5),
            Want::Send(b) => {
                let limit = if self.sent() {
                    Contents::Flushes
                } else {
                    Contents::NoLateData
                };
                (!self.content(b).leq(limit)).then_some(FaultKind::F8)
            }
            Want::Return => {
                for b in 0..8u8 {
                    let brigade = self.brigade(b);
                    if brigade.live & brigade.usable & brigade.homes.call {
                        return Some(FaultKind::F6);
                    }
                }
                None
            }
        }
    }

    /// The first need of an instruction that the state does not meet.
    pub(crate) fn first_need(&self, code: &Module, instr: Instr) -> Option<FaultKind>
        requires fit { fits code.now instr ≡ true }
        ensures { result ≡ first_need (seen self.now) (wants code.now instr) }
    {
        let wanted = wants(code, instr);
        let Some(first) = wanted.first else {
            return None;
        };
        if let Some(kind) = self.need(first) {
            return Some(kind);
        }
        let Some(second) = wanted.second else {
            return None;
        };
        if let Some(kind) = self.need(second) {
            return Some(kind);
        }
        match wanted.third {
            Some(third) => self.need(third),
            None => None,
        }
    }
}
