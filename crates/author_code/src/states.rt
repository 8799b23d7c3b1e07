//! What the certificate says at a label: the state for each kind of place.

use crate::generator::Generator;
use crate::known::{Holding, Output, Part};
use crate::plan::Brigade;
use life_state::{BrigadeState, Classes, Contents, CursorState, HomeSet, PoolSet, State, at_open};

/// What is known at a label beside what the generator knows.
#[derive(Clone, Copy)]
pub(crate) struct Mark {
    /// Whether there is a bucket at hand, where the generator does not know it.
    pub(crate) it: Option<Holding>,
    /// What is known of the output's brigade, likewise.
    pub(crate) output: Option<Output>,
    /// A cursor that is set.
    pub(crate) cursor: Option<(u8, CursorState)>,
    /// Whether the bucket of the innermost loop is the one that was read last.
    pub(crate) reads: bool,
}

impl Mark {
    /// What the generator knows.
    pub(crate) const HERE: Mark = Mark {
        it: None,
        output: None,
        cursor: None,
        reads: true,
    };

    /// There is no bucket at hand.
    pub(crate) const NOTHING: Mark = Mark {
        it: Some(Holding::Nothing),
        ..Mark::HERE
    };

    /// Another bucket may have been read than that of the innermost loop.
    pub(crate) const UNREAD: Mark = Mark {
        reads: false,
        ..Mark::HERE
    };

    /// `c1` is at a loose bucket of bytes.
    pub(crate) const LOOSE: Mark = Mark {
        cursor: Some((1, CursorState::Loose(BYTES, HomeSet::NONE))),
        ..Mark::HERE
    };

    /// `c0` is at a bucket of a brigade.
    pub(crate) fn at_bucket(brigade: u8) -> Mark {
        Mark {
            cursor: Some((0, CursorState::In(brigade, UNENDED))),
            ..Mark::HERE
        }
    }

    /// A cursor is at a bucket of a hold, or its end.
    pub(crate) fn walking(cursor: u8, brigade: u8) -> Mark {
        Mark {
            cursor: Some((cursor, CursorState::InOrEnd(brigade, UNENDED))),
            ..Mark::HERE
        }
    }
}

const BYTES: Classes = Classes {
    bytes: true,
    flush: false,
    eos: false,
};

/// Any but EOS.
const UNENDED: Classes = Classes {
    bytes: true,
    flush: true,
    eos: false,
};

/// A brigade that is in use, whose buckets live through the call, the request, or longer than both.
fn used(content: Contents, call: bool, req: bool) -> BrigadeState {
    BrigadeState {
        null: false,
        gone: false,
        live: true,
        usable: true,
        passed: false,
        content,
        homes: HomeSet {
            call,
            dead: false,
            pools: PoolSet {
                req,
                ..PoolSet::NONE
            },
        },
    }
}

/// What is known of the output's brigade; `call`: in a call.
fn output_state(output: Output, call: bool) -> BrigadeState {
    match output {
        Output::InUse => used(Contents::NoEos, call, true),
        Output::Empty => used(Contents::Empty, false, false),
        Output::Ready => used(Contents::NoEos, false, true),
        Output::Own => used(Contents::NoEos, false, false),
        Output::Passed => BrigadeState {
            passed: true,
            ..used(Contents::NoEos, call, true)
        },
    }
}

impl Generator {
    /// What is known with this output. Of the request's brigades it is `request`, where that is something.
    fn state_with(&self, output: BrigadeState, request: Option<BrigadeState>) -> State {
        let mut state = at_open(0, self.plan.count.min(8) as u8);
        for b in 0..8u8 {
            let (made, is_conn) = match self.plan.brigades[usize::from(b)] {
                Brigade::Unused => (BrigadeState::UNMADE, true),
                Brigade::Output => (output, false),
                Brigade::Request => (used(Contents::NoEos, false, true), false),
                Brigade::Connection => (used(Contents::NoEos, false, false), true),
                Brigade::Spare => (used(Contents::Empty, false, false), false),
            };
            state.set_brigade(
                b,
                if is_conn {
                    made
                } else {
                    request.unwrap_or(made)
                },
            );
        }
        state
    }

    /// What is known between calls before `init`, and in `open` (`gone`: the brigades of a request before may be gone).
    pub(crate) fn idle_state(&self, gone: bool) -> State {
        let unmade = BrigadeState {
            gone,
            ..BrigadeState::UNMADE
        };
        self.state_with(unmade, Some(unmade))
    }

    /// What is known between calls of a request.
    pub(crate) fn ready_state(&self) -> State {
        let mut state = self.state_with(output_state(Output::Ready, false), None);
        state.set_sent(true);
        state
    }

    /// The brigades where code is written now.
    fn brigades_here(&self, output: Option<Output>) -> State {
        if self.part == Part::Open {
            return self.idle_state(false);
        }
        let is_main = self.part == Part::Main;
        let output = output.unwrap_or(self.output);
        let mut state = self.state_with(output_state(output, is_main), None);
        state.set_sent(self.sent);
        if is_main {
            state.set_brigade(8, used(Contents::NoLateData, true, false));
        }
        state
    }

    /// The cursor of the bucket at hand, where it is there.
    fn cursor_of_it(&self, it: Option<Holding>) -> CursorState {
        let is_there = match it {
            Some(it) => it == Holding::There,
            None => self.has_it(),
        };
        if is_there && self.part == Part::Main {
            let (bytes, flush) = self.it_kinds;
            let kinds = Classes {
                bytes,
                flush,
                eos: false,
            };
            CursorState::In(8, kinds)
        } else {
            CursorState::Unset
        }
    }

    /// The state at a label that is written now.
    fn state_here(&self, mark: Mark) -> State {
        let mut state = self.brigades_here(mark.output);
        state.put_cursor(0, self.cursor_of_it(mark.it));
        for cursor in 2..8u8 {
            if let Some(brigade) = self.walkers[usize::from(cursor)] {
                state.put_cursor(cursor, CursorState::In(brigade, UNENDED));
            }
        }
        if let Some((cursor, known)) = mark.cursor
            && cursor < 8
        {
            state.put_cursor(cursor, known);
        }
        if let (true, Some(reading)) = (mark.reads, self.reading) {
            let read = state.cursor(reading.cursor);
            state.put_cursor(8, read);
        }
        state
    }

    /// Writes a label, with what is known there.
    pub(crate) fn bind(&mut self, label: u16, mark: Mark) {
        let state = self.state_here(mark);
        self.bind_at(label, state);
    }

    /// Writes a label, where the generator knows all.
    pub(crate) fn bind_here(&mut self, label: u16) {
        self.bind(label, Mark::HERE);
    }
}
