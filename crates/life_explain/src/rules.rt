//! Remedies that are worth a try, as a table.

use explain_text::{Pattern, Sort};

/// Where remedies of a rule are tried.
#[derive(Clone, Copy)]
pub enum When {
    Always,
    /// There is a label `gone`.
    Gone,
    /// It is about `in`, and there is room for a further brigade.
    Brought,
    /// It is about a brigade into which all of `in` is moved at once.
    Whole,
    /// It is about another brigade than `in`, into which less is moved at once.
    Part,
    /// The brigade may be usable at the return by which it came, or it came by none.
    Keeps,
    /// It cannot.
    Lost,
    /// It came from an earlier call.
    Left,
    /// It is about another brigade than `in`.
    Own,
    /// The refused instruction is `ret fail`.
    Fails,
    /// It is not.
    Ends,
    /// A few instructions before the one that puts the bucket in, it is set aside.
    Early,
}

/// How many remedies a rule has.
#[derive(Clone, Copy)]
pub enum Per {
    Once,
    /// One for each instruction that fits.
    Each,
    /// One for each label of `main`.
    Label,
    /// One for each jump on the way here, and one for here, for each `read`.
    Read,
}

/// Which instructions a rule is about.
#[derive(Clone, Copy)]
pub enum Test {
    /// None.
    Nothing,
    /// Those at the front of `main` that ask a number, and go to where brigades are cleaned and the call ends well.
    Drops,
    /// Those that are about `in`.
    Brought,
    /// Those that move all of `in` into the brigade.
    Saves,
    /// The jump behind one that puts an EOS, and nothing else, at the tail of the brigade.
    PutsEos,
    /// Those that put a bucket at the tail of the brigade.
    Tails,
    /// The returns that may leave the brigade passed.
    Leaves,
    /// Those that put a bucket of the call into the brigade.
    PutsOfCall,
    /// Those that read a bucket.
    Reads,
    /// Those that set a bucket aside, and not into `conn`.
    Asides,
    /// Those that make the variable.
    Makes,
    /// None; but the number is that of a brigade on the pool that ended.
    LiesOn,
    /// None; but the number is that of a cursor that is at a bucket of a brigade.
    Inside,
}

/// A label that is new.
#[derive(Clone, Copy)]
pub enum Fresh {
    Gone,
    Ended,
    Last,
    None,
    Send,
}

// The names that are tried for new labels, in the order of `Fresh`.
const NAMES: [[&str; 9]; 5] = [
    [
        ":gone", ":gone1", ":gone2", ":gone3", ":gone4", ":gone5", ":gone6", ":gone7", ":gone8",
    ],
    [
        ":ended", ":ended1", ":ended2", ":ended3", ":ended4", ":ended5", ":ended6", ":ended7",
        ":ended8",
    ],
    [
        ":last", ":last1", ":last2", ":last3", ":last4", ":last5", ":last6", ":last7", ":last8",
    ],
    [
        ":none", ":none1", ":none2", ":none3", ":none4", ":none5", ":none6", ":none7", ":none8",
    ],
    [
        ":send", ":send1", ":send2", ":send3", ":send4", ":send5", ":send6", ":send7", ":send8",
    ],
];

/// Remedies of some sorts of refusals. A script is a list of steps, with `;` between: `before`, `behind` or `over`, in place of what is there; a place, which is
/// the refused instruction (`here`), the one that made it so (`maker`), the return by which it left an earlier call (`exit`), the
/// one that fits (`at`), the line with which the handler begins in which the variable is to be made (`begin`), or a line of the
/// text; and what is written there. Capitals stand for names: those of the doubt's brigade (B), pool (V) and cursor (C, also that of
/// the instruction that fits), the pool on which the brigade is (P), a brigade on the pool that ended (A), a further brigade (O), the
/// brigades (S, T) and the pool (Q) of the instruction that made it so, a label (L), a new one (N, with its colon M), and the lines
/// of that instruction (X), of the refused one (Y), and of the one that fits (Z). `label send` marks the refused instruction with a
/// label, where it has none.
#[derive(Clone, Copy)]
pub struct HelpRule {
    pub sorts: &'static [Sort],
    pub when: When,
    /// The words of the instructions that may have made it so: `*` for any, `-` for none; nothing where that is no matter.
    pub made: &'static str,
    pub pattern: Pattern,
    pub per: Per,
    pub test: Test,
    pub fresh: Fresh,
    pub first: &'static str,
    /// What is written for each instruction that fits.
    pub each: &'static str,
    pub last: &'static str,
}

impl HelpRule {
    /// Whether it is about refusals of this sort.
    pub fn is_of(&self, sort: Sort) -> bool {
        for of in self.sorts {
            if *of as u8 == sort as u8 {
                return true;
            }
        }
        false
    }
}

// What most rules have.
const PLAIN: HelpRule = HelpRule {
    sorts: &[],
    when: When::Always,
    made: "",
    pattern: Pattern::Guard,
    per: Per::Once,
    test: Test::Nothing,
    fresh: Fresh::Gone,
    first: "",
    each: "",
    last: "",
};

// Of data behind an EOS.
static OF_EOS: &[HelpRule] = &[
    HelpRule {
        sorts: &[Sort::Sent],
        pattern: Pattern::AskJsent,
        per: Per::Each,
        test: Test::Drops,
        each: "over at jsent L",
        ..PLAIN
    },
    HelpRule {
        sorts: &[Sort::LateData],
        when: When::Brought,
        pattern: Pattern::InsertIntoOwn,
        test: Test::Brought,
        first: "before open brigade O req;behind init bcreate O",
        ..PLAIN
    },
    HelpRule {
        sorts: &[Sort::LateData],
        when: When::Whole,
        pattern: Pattern::MoveOneByOne,
        test: Test::Saves,
        fresh: Fresh::Ended,
        first: "label send",
        each: "over at :take#;over at first c7 in;over at jend c7 taken#;over at unlink c7;over at jkind c7 eos N;over at aside c7 P;over at tail B c7;over at jump take#;over at :taken#",
        last: "before end M;before end tail B c7;before end jump L",
        ..PLAIN
    },
    HelpRule {
        sorts: &[Sort::LateData],
        when: When::Part,
        pattern: Pattern::LeaveAtEos,
        per: Per::Each,
        test: Test::PutsEos,
        each: "label send;over at jump L",
        ..PLAIN
    },
    HelpRule {
        sorts: &[Sort::LateData],
        when: When::Part,
        pattern: Pattern::LeaveAtEos,
        per: Per::Each,
        test: Test::Tails,
        fresh: Fresh::Last,
        each: "label send;before at jkind C eos N;before end M;before end Z;before end jump L",
        ..PLAIN
    },
    HelpRule {
        sorts: &[Sort::Sent, Sort::LateData],
        when: When::Gone,
        pattern: Pattern::Guard,
        first: "behind main jsent gone",
        ..PLAIN
    },
    HelpRule {
        sorts: &[Sort::Sent, Sort::LateData],
        pattern: Pattern::Guard,
        first: "behind main jsent N;before end M;before end bclean in;before end ret ok",
        ..PLAIN
    },
];

// Of brigades that were passed, and of buckets that are kept.
static OF_KEPT: &[HelpRule] = &[
    HelpRule {
        sorts: &[Sort::Passed],
        when: When::Keeps,
        made: "*",
        pattern: Pattern::CleanWhenFailed,
        first: "behind maker bclean B",
        ..PLAIN
    },
    HelpRule {
        sorts: &[Sort::Passed],
        when: When::Left,
        pattern: Pattern::CleanWhenFailed,
        first: "before exit bclean B",
        ..PLAIN
    },
    HelpRule {
        sorts: &[Sort::Passed],
        when: When::Own,
        pattern: Pattern::CleanWhenFailed,
        test: Test::Leaves,
        each: "before at bclean B",
        ..PLAIN
    },
    HelpRule {
        sorts: &[Sort::Passed],
        when: When::Lost,
        made: "*",
        pattern: Pattern::CleanWhenFailed,
        first: "behind maker bclean B",
        ..PLAIN
    },
    HelpRule {
        sorts: &[Sort::Passed],
        pattern: Pattern::CleanWhenFailed,
        first: "before here bclean B",
        ..PLAIN
    },
    HelpRule {
        sorts: &[Sort::Kept],
        when: When::Fails,
        pattern: Pattern::CleanWhenFailed,
        first: "before here bclean B",
        ..PLAIN
    },
    HelpRule {
        sorts: &[Sort::Kept],
        made: "bconcat",
        pattern: Pattern::AsideWhatIsKept,
        first: "over maker bsave S T",
        ..PLAIN
    },
    HelpRule {
        sorts: &[Sort::Kept],
        when: When::Early,
        made: "tail head before",
        pattern: Pattern::AsideWhatIsKept,
        first: "before maker aside C P;over at ",
        ..PLAIN
    },
    HelpRule {
        sorts: &[Sort::Kept],
        made: "tail head before",
        pattern: Pattern::AsideWhatIsKept,
        first: "before maker aside C P",
        ..PLAIN
    },
    HelpRule {
        sorts: &[Sort::Kept],
        made: "tail head before",
        pattern: Pattern::AsideWhatIsKept,
        test: Test::PutsOfCall,
        each: "before at aside C P",
        ..PLAIN
    },
    HelpRule {
        sorts: &[Sort::Kept],
        when: When::Ends,
        pattern: Pattern::CleanWhenFailed,
        first: "before here bclean B",
        ..PLAIN
    },
];

// Of cursors.
static OF_CURSORS: &[HelpRule] = &[
    HelpRule {
        sorts: &[Sort::AtEnd],
        pattern: Pattern::AskJend,
        per: Per::Label,
        first: "behind maker jend C L",
        last: "before here jend C L",
        ..PLAIN
    },
    HelpRule {
        sorts: &[Sort::AtEnd],
        pattern: Pattern::AskJend,
        fresh: Fresh::None,
        first: "before here jend C N;before end M;before end ret ok",
        ..PLAIN
    },
    HelpRule {
        sorts: &[Sort::Unread],
        pattern: Pattern::ReadOnEachWay,
        per: Per::Read,
        test: Test::Reads,
        first: "before at Z",
        each: "before here Z",
        ..PLAIN
    },
    HelpRule {
        sorts: &[Sort::Unread],
        pattern: Pattern::ReadOnEachWay,
        per: Per::Each,
        test: Test::Inside,
        each: "before here read C L",
        ..PLAIN
    },
    HelpRule {
        sorts: &[Sort::InBrigade],
        pattern: Pattern::MoveInTwoSteps,
        first: "before here unlink C",
        ..PLAIN
    },
    HelpRule {
        sorts: &[Sort::Unset, Sort::InBrigade, Sort::Loose],
        made: "unlink",
        pattern: Pattern::MoveInTwoSteps,
        first: "over maker ;behind here X",
        ..PLAIN
    },
    HelpRule {
        sorts: &[Sort::Unset, Sort::InBrigade, Sort::Loose],
        made: "unlink",
        pattern: Pattern::MoveInTwoSteps,
        first: "over here ",
        ..PLAIN
    },
    HelpRule {
        sorts: &[Sort::Unset, Sort::InBrigade, Sort::Loose],
        made: "bdelete",
        pattern: Pattern::SetAgain,
        first: "over maker ;behind here X",
        ..PLAIN
    },
    HelpRule {
        sorts: &[Sort::Unset],
        made: "-",
        pattern: Pattern::SetAgain,
        per: Per::Label,
        last: "before here first C in;before here jend C L",
        ..PLAIN
    },
];

// Of homes, and of brigades and pools that are to be there, or not yet.
static OF_VARIABLES: &[HelpRule] = &[
    HelpRule {
        sorts: &[Sort::DeadIn],
        pattern: Pattern::OutliveTheRequest,
        test: Test::Asides,
        each: "over at aside C P",
        ..PLAIN
    },
    HelpRule {
        sorts: &[Sort::DeadIn],
        pattern: Pattern::OutliveTheRequest,
        first: "behind init bclean B",
        ..PLAIN
    },
    HelpRule {
        sorts: &[
            Sort::NullBrigade,
            Sort::GoneBrigade,
            Sort::NullPool,
            Sort::GonePool,
        ],
        made: "pclear pdestroy",
        pattern: Pattern::ClearNotDestroy,
        test: Test::LiesOn,
        first: "over maker pclear Q",
        each: "behind maker bcreate A",
        ..PLAIN
    },
    HelpRule {
        sorts: &[Sort::NullBrigade, Sort::GoneBrigade],
        pattern: Pattern::MakeWhereItBegins,
        first: "behind begin bcreate B",
        ..PLAIN
    },
    HelpRule {
        sorts: &[Sort::NullBrigade, Sort::GoneBrigade],
        pattern: Pattern::MakeWhereItBegins,
        test: Test::Makes,
        first: "behind begin bcreate B",
        each: "over at ",
        ..PLAIN
    },
    HelpRule {
        sorts: &[Sort::NullPool, Sort::GonePool],
        pattern: Pattern::MakeWhereItBegins,
        first: "behind begin pcreate V",
        ..PLAIN
    },
    HelpRule {
        sorts: &[Sort::NullPool, Sort::GonePool],
        pattern: Pattern::MakeWhereItBegins,
        test: Test::Makes,
        first: "behind begin pcreate V",
        each: "over at ",
        ..PLAIN
    },
    HelpRule {
        sorts: &[Sort::LiveBrigade, Sort::LivePool],
        pattern: Pattern::MakeWhereItBegins,
        first: "behind begin Y;over here ",
        ..PLAIN
    },
    HelpRule {
        sorts: &[Sort::LiveBrigade, Sort::LivePool],
        pattern: Pattern::MakeWhereItBegins,
        first: "over here ",
        ..PLAIN
    },
];

/// The tables of the rules, by what they are about. Of the rules of one sort, which stand in one table, those that are tried first stand before
/// the others. They are several, since the proof of what a static holds takes longer by the square of its parts.
pub fn rule_tables() -> [&'static [HelpRule]; 4] {
    [OF_EOS, OF_KEPT, OF_CURSORS, OF_VARIABLES]
}

/// The names that are tried for a new label, each with the colon before it.
pub fn names_of(fresh: Fresh) -> [&'static str; 9] {
    match NAMES.get(fresh as usize) {
        Some(names) => *names,
        None => [""; 9],
    }
}
