//! The patterns by name, and what to do where no lines could be tried.

use run_model::FaultKind;

/// What an accepted module has in place of what is refused. `docs/FILTERS.md` has each, with a module before and after.
#[derive(Clone, Copy)]
pub enum Pattern {
    Guard,
    CleanWhenFailed,
    LeaveAtEos,
    InsertIntoOwn,
    MoveOneByOne,
    AskJend,
    ReadOnEachWay,
    CutWithoutEos,
    AskJsent,
    AsideWhatIsKept,
    ClearNotDestroy,
    MakeWhereItBegins,
    OutliveTheRequest,
    MoveInTwoSteps,
    SetAgain,
}

impl Pattern {
    /// Its name.
    pub fn name(self) -> &'static str {
        match self {
            Pattern::Guard => "a guard against what comes behind the EOS",
            Pattern::CleanWhenFailed => "clean when the pass failed",
            Pattern::LeaveAtEos => "leave the loop at the EOS",
            Pattern::InsertIntoOwn => "insert into a brigade of your own",
            Pattern::MoveOneByOne => "move buckets one by one",
            Pattern::AskJend => "ask jend",
            Pattern::ReadOnEachWay => "read on each way",
            Pattern::CutWithoutEos => "cut what has no EOS",
            Pattern::AskJsent => "ask jsent, not a number",
            Pattern::AsideWhatIsKept => "set aside what is kept",
            Pattern::ClearNotDestroy => "clear a pool, do not destroy it",
            Pattern::MakeWhereItBegins => "make it where what it lies on begins",
            Pattern::OutliveTheRequest => "keep nothing longer than it lasts",
            Pattern::MoveInTwoSteps => "move a bucket in two steps",
            Pattern::SetAgain => "set a cursor again",
        }
    }

    /// What to write.
    pub fn advice(self) -> &'static str {
        match self {
            Pattern::Guard =>
                "begin `main` with `jsent gone`, and end it with `:gone`, `bclean in`, `ret ok`",
            Pattern::CleanWhenFailed =>
                "`bclean` each brigade of your own before a `ret` that a failed `pass` leads to",
            Pattern::LeaveAtEos =>
                "behind `jkind c0 eos last`, let `:last` lead to the `pass`, and not back into the loop",
            Pattern::InsertIntoOwn =>
                "move what comes into a brigade of your own, and what you insert between: `unlink c0`, `tail b0 c0`, then pass that one",
            Pattern::MoveOneByOne =>
                "in place of moving all of a brigade, take each bucket: `unlink c0`, `jkind c0 eos send`, `aside c0 req`, `tail b0 c0`",
            Pattern::AskJend => "ask `jend` behind each `first` and `next`",
            Pattern::ReadOnEachWay =>
                "`read` on each way that leads to `get`; the read of an EOS goes well",
            Pattern::CutWithoutEos =>
                "move the data into a brigade of your own and cut that; keep the EOS out of it, and make it anew with `eos` behind the last data",
            Pattern::AskJsent =>
                "ask `jsent` in place of a number of your own; numbers are not looked at",
            Pattern::AsideWhatIsKept =>
                "`unlink c0`, `aside c0 P`, `tail b0 c0` in this order, with P the pool of the brigade; `bsave` in place of `bconcat`",
            Pattern::ClearNotDestroy =>
                "`pclear` in place of `pdestroy`, and a `bcreate` for each brigade on the pool",
            Pattern::MakeWhereItBegins =>
                "make what lies on `conn` in `open`, and what lies on `req` in `init`, each once",
            Pattern::OutliveTheRequest =>
                "set aside into the pool of the brigade, or clean the brigade in `init`",
            Pattern::MoveInTwoSteps =>
                "`unlink` a bucket before it is inserted elsewhere; read and split it before `unlink`, or insert it first",
            Pattern::SetAgain =>
                "set the cursor by `first` or `next` in this call, and go on with `next` before the bucket is destroyed or passed",
        }
    }
}

/// What a fault says, and the pattern that it is mostly of.
pub fn fault_of(kind: FaultKind) -> (&'static str, Pattern) {
    match kind {
        FaultKind::F1 => ("a pool is null or gone", Pattern::MakeWhereItBegins),
        FaultKind::F2 => ("a brigade is null or gone", Pattern::MakeWhereItBegins),
        FaultKind::F3 => ("a cursor names nothing", Pattern::SetAgain),
        FaultKind::F4 => (
            "a cursor is at an end, where a bucket is wanted",
            Pattern::AskJend,
        ),
        FaultKind::F5 => ("a dead bucket is used", Pattern::OutliveTheRequest),
        FaultKind::F6 => (
            "a bucket that ends with the call is kept",
            Pattern::AsideWhatIsKept,
        ),
        FaultKind::F7 => ("a passed brigade is used", Pattern::CleanWhenFailed),
        FaultKind::F8 => ("data is passed after an EOS", Pattern::Guard),
        FaultKind::F9 => (
            "a bucket is loose, or is not, where the other is wanted",
            Pattern::MoveInTwoSteps,
        ),
        FaultKind::F10 => (
            "a pool or brigade is made over a live one",
            Pattern::MakeWhereItBegins,
        ),
    }
}
