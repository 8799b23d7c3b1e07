//! What may be so before an instruction, and may not where its rule is met.

use crate::patterns::Pattern;
use life_state::{BrigadeState, Classes, Contents, CursorState, PoolState, State};
use module_code::PoolRef;

/// What may be so in a state, though a rule wants that it cannot.
#[derive(Clone, Copy)]
pub enum Sort {
    /// Nothing was made in the pool variable.
    NullPool,
    /// The pool has ended.
    GonePool,
    /// The pool is live.
    LivePool,
    /// Nothing was made in the brigade variable.
    NullBrigade,
    /// The brigade has ended.
    GoneBrigade,
    /// The brigade is live.
    LiveBrigade,
    /// The brigade was passed.
    Passed,
    /// A bucket in the brigade is dead.
    DeadIn,
    /// Data stands behind an EOS in the brigade.
    LateData,
    /// An EOS was passed in this request, and the brigade has more than FLUSH buckets.
    Sent,
    /// A bucket that ends with the call is in the brigade.
    Kept,
    /// The loose bucket at the cursor is dead.
    DeadAt,
    /// The cursor names nothing that is known.
    Unset,
    /// No bucket is known that was read.
    Unread,
    /// The cursor is at an end.
    AtEnd,
    /// The bucket at the cursor is in a brigade.
    InBrigade,
    /// The bucket at the cursor is loose.
    Loose,
    /// The cursor is not at the other brigade.
    Elsewhere,
}

/// What a doubt is about.
#[derive(Clone, Copy)]
pub enum Topic {
    Pool,
    Brigade,
    Cursor,
}

/// What is told of a sort.
#[derive(Clone, Copy)]
pub struct SortRow {
    pub topic: Topic,
    /// What the rule wants, with a `$` for the name of the variable, or a `#` for the number of a pool.
    pub wanted: &'static str,
    /// What the instruction did that made it so.
    pub deed: &'static str,
    /// The pattern that it is mostly of.
    pub pattern: Pattern,
}

// What is told of each sort, in their order.
const SORTS: [SortRow; 18] = [
    SortRow {
        topic: Topic::Pool,
        wanted: "`p#` is live",
        deed: "leaves it unmade",
        pattern: Pattern::MakeWhereItBegins,
    },
    SortRow {
        topic: Topic::Pool,
        wanted: "`p#` is live",
        deed: "ends it",
        pattern: Pattern::ClearNotDestroy,
    },
    SortRow {
        topic: Topic::Pool,
        wanted: "`p#` is null or gone",
        deed: "makes it",
        pattern: Pattern::MakeWhereItBegins,
    },
    SortRow {
        topic: Topic::Brigade,
        wanted: "`$` is live",
        deed: "leaves it unmade",
        pattern: Pattern::MakeWhereItBegins,
    },
    SortRow {
        topic: Topic::Brigade,
        wanted: "`$` is live",
        deed: "ends it",
        pattern: Pattern::MakeWhereItBegins,
    },
    SortRow {
        topic: Topic::Brigade,
        wanted: "`$` is null or gone",
        deed: "makes it",
        pattern: Pattern::MakeWhereItBegins,
    },
    SortRow {
        topic: Topic::Brigade,
        wanted: "`$` is usable: it was not passed, or cleaned since",
        deed: "passes it",
        pattern: Pattern::CleanWhenFailed,
    },
    SortRow {
        topic: Topic::Brigade,
        wanted: "no bucket in `$` is dead",
        deed: "ends what a bucket depends on",
        pattern: Pattern::OutliveTheRequest,
    },
    SortRow {
        topic: Topic::Brigade,
        wanted: "no data stands behind an EOS in `$`",
        deed: "may put data behind an EOS",
        pattern: Pattern::LeaveAtEos,
    },
    SortRow {
        topic: Topic::Brigade,
        wanted: "no EOS of this request was passed, or `$` holds FLUSH buckets at most",
        deed: "may pass an EOS",
        pattern: Pattern::Guard,
    },
    SortRow {
        topic: Topic::Brigade,
        wanted: "each bucket in `$` outlasts the call",
        deed: "puts in a bucket that may end with the call",
        pattern: Pattern::AsideWhatIsKept,
    },
    SortRow {
        topic: Topic::Cursor,
        wanted: "the bucket at $ is not dead",
        deed: "ends what a bucket depends on",
        pattern: Pattern::OutliveTheRequest,
    },
    SortRow {
        topic: Topic::Cursor,
        wanted: "$ is at a bucket",
        deed: "makes it unknown",
        pattern: Pattern::SetAgain,
    },
    SortRow {
        topic: Topic::Cursor,
        wanted: "a bucket was read on each way here, and is still there",
        deed: "makes it unknown",
        pattern: Pattern::ReadOnEachWay,
    },
    SortRow {
        topic: Topic::Cursor,
        wanted: "$ is at a bucket",
        deed: "may come to the end",
        pattern: Pattern::AskJend,
    },
    SortRow {
        topic: Topic::Cursor,
        wanted: "the bucket at $ is loose",
        deed: "finds or leaves it in a brigade",
        pattern: Pattern::MoveInTwoSteps,
    },
    SortRow {
        topic: Topic::Cursor,
        wanted: "the bucket at $ is in a brigade",
        deed: "leaves it loose",
        pattern: Pattern::MoveInTwoSteps,
    },
    SortRow {
        topic: Topic::Cursor,
        wanted: "$ is in `@`",
        deed: "puts it elsewhere",
        pattern: Pattern::MoveInTwoSteps,
    },
];

const NO_ROW: SortRow = SortRow {
    topic: Topic::Cursor,
    wanted: "",
    deed: "",
    pattern: Pattern::SetAgain,
};

/// The name of a brigade variable, or `in`.
pub fn brigade_name(b: u8) -> &'static str {
    match b {
        0 => "b0",
        1 => "b1",
        2 => "b2",
        3 => "b3",
        4 => "b4",
        5 => "b5",
        6 => "b6",
        7 => "b7",
        8 => "in",
        _ => "",
    }
}

/// What a cursor is called, or what was read last.
pub fn cursor_name(c: u8) -> &'static str {
    match c {
        0 => "`c0`",
        1 => "`c1`",
        2 => "`c2`",
        3 => "`c3`",
        4 => "`c4`",
        5 => "`c5`",
        6 => "`c6`",
        7 => "`c7`",
        8 => "what was read last",
        _ => "",
    }
}

/// How a cursor is written.
pub fn cursor_text(c: u8) -> &'static [u8] {
    let name = match c {
        0 => "c0",
        1 => "c1",
        2 => "c2",
        3 => "c3",
        4 => "c4",
        5 => "c5",
        6 => "c6",
        7 => "c7",
        _ => "",
    };
    name.as_bytes()
}

/// How a pool is written.
pub fn pool_text(pool: PoolRef) -> &'static [u8] {
    let name = match pool {
        PoolRef::Conn => "conn",
        PoolRef::Req => "req",
        PoolRef::Own(0) => "p0",
        PoolRef::Own(1) => "p1",
        PoolRef::Own(2) => "p2",
        PoolRef::Own(3) => "p3",
        PoolRef::Own(4) => "p4",
        PoolRef::Own(5) => "p5",
        PoolRef::Own(6) => "p6",
        PoolRef::Own(7) => "p7",
        PoolRef::Own(_) => "",
    };
    name.as_bytes()
}

/// A sort, and the variable or cursor that it is about, by its number in a state; the other brigade is that of `Elsewhere`.
#[derive(Clone, Copy)]
pub struct Doubt {
    pub sort: Sort,
    pub of: u8,
    pub other: u8,
}

/// Buckets of any kind.
const ANY_KIND: Classes = Classes {
    bytes: true,
    flush: true,
    eos: true,
};

// A brigade in which a bucket could stand.
fn some_brigade(state: &State) -> u8 {
    for b in 0..8u8 {
        if state.brigade(b).live && !state.brigade(8).live {
            return b;
        }
    }
    8
}

impl Doubt {
    /// What is told of its sort.
    pub fn row(self) -> SortRow {
        match SORTS.get(self.sort as usize) {
            Some(row) => *row,
            None => NO_ROW,
        }
    }

    /// Whether it is about a cursor, which no call finds set.
    pub fn is_of_cursor(self) -> bool {
        matches!(self.row().topic, Topic::Cursor)
    }

    /// What the variable or cursor is called; nothing of a pool.
    pub fn name(self) -> &'static str {
        match self.row().topic {
            Topic::Pool => "",
            Topic::Brigade => brigade_name(self.of),
            Topic::Cursor => cursor_name(self.of),
        }
    }

    /// Whether a state allows it.
    pub fn holds(self, state: &State) -> bool {
        let pool = state.pool(self.of);
        let brigade = state.brigade(self.of);
        match self.sort {
            Sort::NullPool => pool.null,
            Sort::GonePool => pool.gone,
            Sort::LivePool => pool.live,
            Sort::NullBrigade => brigade.null,
            Sort::GoneBrigade => brigade.gone,
            Sort::LiveBrigade => brigade.live,
            Sort::Passed => brigade.passed,
            Sort::DeadIn => brigade.homes.dead,
            Sort::LateData => matches!(brigade.content, Contents::Any),
            Sort::Sent => state.sent(),
            Sort::Kept => brigade.live && brigade.usable && brigade.homes.call,
            _ => self.holds_at(state.cursor(self.of)),
        }
    }

    fn holds_at(self, cursor: CursorState) -> bool {
        match cursor {
            CursorState::Unset => matches!(self.sort, Sort::Unset | Sort::Unread),
            CursorState::Loose(_, homes) => match self.sort {
                Sort::DeadAt => homes.dead,
                sort => matches!(sort, Sort::Loose),
            },
            CursorState::In(b, _) => match self.sort {
                Sort::Elsewhere => b != self.other,
                sort => matches!(sort, Sort::InBrigade),
            },
            CursorState::End(b) | CursorState::InOrEnd(b, _) => match self.sort {
                Sort::Elsewhere => b != self.other,
                sort => matches!(sort, Sort::AtEnd),
            },
        }
    }

    // The brigade as the rule wants it; what was known of its buckets stays.
    fn mended(self, brigade: BrigadeState) -> BrigadeState {
        let mut mended = brigade;
        match self.sort {
            Sort::LiveBrigade => return BrigadeState::UNMADE,
            Sort::DeadIn => mended.homes.dead = false,
            Sort::LateData => mended.content = Contents::NoLateData,
            Sort::Kept => mended.homes.call = false,
            _ => {
                mended.null = false;
                mended.gone = false;
                mended.live = true;
                mended.usable = true;
                mended.passed = false;
            }
        }
        mended
    }

    // The cursor as the rule wants it: at a bucket of a brigade, or loose where it is at one already.
    fn set(self, state: &State) -> CursorState {
        match (self.sort, state.cursor(self.of)) {
            (Sort::DeadAt, CursorState::Loose(classes, homes)) => {
                let mut homes = homes;
                homes.dead = false;
                CursorState::Loose(classes, homes)
            }
            (Sort::DeadAt, cursor) => cursor,
            (Sort::Elsewhere, _) => CursorState::In(self.other, ANY_KIND),
            (_, CursorState::Unset) => CursorState::In(some_brigade(state), ANY_KIND),
            (_, CursorState::Loose(classes, _)) => CursorState::In(some_brigade(state), classes),
            (_, CursorState::In(b, classes)) => CursorState::Loose(classes, state.brigade(b).homes),
            (_, CursorState::End(b)) => CursorState::In(b, ANY_KIND),
            (_, CursorState::InOrEnd(b, classes)) => CursorState::In(b, classes),
        }
    }

    /// Makes the state one that does not allow it.
    pub fn mend(self, state: &mut State) {
        let of = self.of;
        match (self.row().topic, self.sort) {
            (_, Sort::Sent) => state.set_sent(false),
            (Topic::Pool, Sort::LivePool) if of < 8 => state.set_pool(of, PoolState::NULL),
            (Topic::Pool, _) if of < 8 => state.set_pool(of, PoolState::LIVE),
            (Topic::Brigade, _) if of < 9 => {
                let brigade = self.mended(state.brigade(of));
                state.set_brigade(of, brigade);
            }
            (Topic::Cursor, _) if of < 9 => {
                let cursor = self.set(state);
                state.put_cursor(of, cursor);
            }
            _ => {}
        }
    }
}
