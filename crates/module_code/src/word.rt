//! The words of module texts, and what operands follow each.

ghost use Rattle.std.specs.Prelude.{◌≡◌};
ghost use Rattle.module_code.specs.Words.{going_on, leaving, op_goes_on, op_text, op_kinds, signature, word_text, word_kinds, word_at, no_operand, one_operand};
ghost use Rattle.module_code.specs.Words.{two_operands, three_operands, four_operands};

use self::OperandKind::{
    Brigade, Cursor, Ending, KindTest, Label, Number, One, Place, Pool, Source, Text, Value,
    Variable,
};

/// What an operand may be.
#[derive(Clone, Copy)]
pub enum OperandKind {
    /// No operand.
    Nothing,
    /// The version, `1`.
    One,
    /// `conn`, `req` or a pool variable.
    Place,
    /// A pool variable.
    Pool,
    /// A brigade variable.
    Brigade,
    /// `in` or a brigade variable.
    Source,
    /// `ok` or `fail`.
    Ending,
    /// A label.
    Label,
    /// A text in quotes.
    Text,
    /// A pool variable or a brigade variable.
    Variable,
    /// A number variable.
    Number,
    /// A number variable or a constant.
    Value,
    /// A cursor.
    Cursor,
    /// What is asked of a bucket's kind.
    KindTest,
}

/// The kinds of the operands that follow a word, `Nothing` behind the last.
#[derive(Clone, Copy)]
pub struct OperandKinds {
    pub first: OperandKind,
    pub second: OperandKind,
    pub third: OperandKind,
    pub fourth: OperandKind,
}

impl OperandKinds {
    fn none() -> Self
        ensures { result ≡ no_operand }
    {
        OperandKinds::one(OperandKind::Nothing)
    }

    fn one(first: OperandKind) -> Self
        ensures { result ≡ one_operand first }
    {
        OperandKinds::two(first, OperandKind::Nothing)
    }

    fn two(first: OperandKind, second: OperandKind) -> Self
        ensures { result ≡ two_operands first second }
    {
        OperandKinds::three(first, second, OperandKind::Nothing)
    }

    fn three(first: OperandKind, second: OperandKind, third: OperandKind) -> Self
        ensures { result ≡ three_operands first second third }
    {
        OperandKinds::four(first, second, third, OperandKind::Nothing)
    }

    fn four(
        first: OperandKind,
        second: OperandKind,
        third: OperandKind,
        fourth: OperandKind,
    ) -> Self
        ensures { result ≡ four_operands first second third fourth }
    {
        OperandKinds {
            first,
            second,
            third,
            fourth,
        }
    }
}

/// What is known of an instruction by its word: its operands, and whether the next instruction can follow.
#[derive(Clone, Copy)]
pub struct Signature {
    pub kinds: OperandKinds,
    pub goes_on: bool,
}

impl Signature {
    fn goes_on(kinds: OperandKinds) -> Self
        ensures { result ≡ going_on kinds }
    {
        Signature {
            kinds,
            goes_on: true,
        }
    }

    fn leaves(kinds: OperandKinds) -> Self
        ensures { result ≡ leaving kinds }
    {
        Signature {
            kinds,
            goes_on: false,
        }
    }
}

/// The word of an instruction.
#[derive(Clone, Copy)]
pub enum Op {
    PCreate,
    PClear,
    PDestroy,
    Label,
    Unlabel,
    PreLabel,
    BCreate,
    BClean,
    BConcat,
    BSplit,
    BPart,
    BSave,
    Pass,
    JEmpty,
    First,
    Next,
    JEnd,
    JKind,
    Unlink,
    BDelete,
    Tail,
    Head,
    Before,
    Heap,
    Immortal,
    FromBuf,
    Transient,
    PoolB,
    Flush,
    Eos,
    Split,
    Copy,
    Aside,
    Read,
    Len,
    Get,
    Put,
    ClearBuf,
    Set,
    Add,
    Sub,
    JLt,
    JEq,
    JNull,
    JSent,
    Leave,
    Jump,
    Ret,
}

impl Op {
    /// How the word is written.
    pub fn text(self) -> &'static [u8]
        ensures { result.now ≡ op_text self }
    {
        match self {
            Op::PCreate => b"pcreate",
            Op::PClear => b"pclear",
            Op::PDestroy => b"pdestroy",
            Op::Label => b"label",
            Op::Unlabel => b"unlabel",
            Op::PreLabel => b"prelabel",
            Op::BCreate => b"bcreate",
            Op::BClean => b"bclean",
            Op::BConcat => b"bconcat",
            Op::BSplit => b"bsplit",
            Op::BPart => b"bpart",
            Op::BSave => b"bsave",
            Op::Pass => b"pass",
            Op::JEmpty => b"jempty",
            Op::First => b"first",
            Op::Next => b"next",
            Op::JEnd => b"jend",
            Op::JKind => b"jkind",
            Op::Unlink => b"unlink",
            Op::BDelete => b"bdelete",
            Op::Tail => b"tail",
            Op::Head => b"head",
            Op::Before => b"before",
            Op::Heap => b"heap",
            Op::Immortal => b"immortal",
            Op::FromBuf => b"frombuf",
            Op::Transient => b"transient",
            Op::PoolB => b"poolb",
            Op::Flush => b"flush",
            Op::Eos => b"eos",
            Op::Split => b"split",
            Op::Copy => b"copy",
            Op::Aside => b"aside",
            Op::Read => b"read",
            Op::Len => b"len",
            Op::Get => b"get",
            Op::Put => b"put",
            Op::ClearBuf => b"clearbuf",
            Op::Set => b"set",
            Op::Add => b"add",
            Op::Sub => b"sub",
            Op::JLt => b"jlt",
            Op::JEq => b"jeq",
            Op::JNull => b"jnull",
            Op::JSent => b"jsent",
            Op::Leave => b"leave",
            Op::Jump => b"jump",
            Op::Ret => b"ret",
        }
    }

    /// The operands that follow, and whether the next instruction can follow.
    fn signature(self) -> Signature
        ensures { result ≡ signature self }
    {
        match self {
            Op::PCreate | Op::PClear | Op::PDestroy => Signature::goes_on(OperandKinds::one(Pool)),
            Op::Label | Op::Unlabel | Op::PreLabel => Signature::goes_on(OperandKinds::two(
                Place, Text,
            )),
            Op::BCreate => Signature::goes_on(OperandKinds::one(Brigade)),
            Op::BClean => Signature::goes_on(OperandKinds::one(Source)),
            Op::BConcat => Signature::goes_on(OperandKinds::two(Source, Source)),
            Op::BSplit => Signature::goes_on(OperandKinds::three(Source, Cursor, Source)),
            Op::BPart => Signature::goes_on(OperandKinds::four(Source, Value, Cursor, Label)),
            Op::BSave => Signature::goes_on(OperandKinds::two(Brigade, Source)),
            Op::Pass | Op::JEmpty => Signature::goes_on(OperandKinds::two(Source, Label)),
            Op::First => Signature::goes_on(OperandKinds::two(Cursor, Source)),
            Op::Next | Op::Before | Op::Copy => Signature::goes_on(OperandKinds::two(
                Cursor, Cursor,
            )),
            Op::JEnd | Op::Read => Signature::goes_on(OperandKinds::two(Cursor, Label)),
            Op::JKind => Signature::goes_on(OperandKinds::three(Cursor, KindTest, Label)),
            Op::Unlink | Op::BDelete | Op::FromBuf | Op::Transient | Op::Flush | Op::Eos =>
                Signature::goes_on(OperandKinds::one(Cursor)),
            Op::Tail | Op::Head => Signature::goes_on(OperandKinds::two(Source, Cursor)),
            Op::Heap | Op::Immortal => Signature::goes_on(OperandKinds::two(Cursor, Text)),
            Op::PoolB | Op::Aside => Signature::goes_on(OperandKinds::two(Cursor, Place)),
            Op::Split => Signature::goes_on(OperandKinds::three(Cursor, Value, Label)),
            Op::Len => Signature::goes_on(OperandKinds::two(Number, Cursor)),
            Op::Get | Op::JLt | Op::JEq => Signature::goes_on(OperandKinds::three(
                Number, Value, Label,
            )),
            Op::Put => Signature::goes_on(OperandKinds::two(Value, Label)),
            Op::ClearBuf | Op::Leave => Signature::goes_on(OperandKinds::none()),
            Op::Set | Op::Add | Op::Sub => Signature::goes_on(OperandKinds::two(Number, Value)),
            Op::JNull => Signature::goes_on(OperandKinds::two(Variable, Label)),
            Op::JSent => Signature::goes_on(OperandKinds::one(Label)),
            Op::Jump => Signature::leaves(OperandKinds::one(Label)),
            Op::Ret => Signature::leaves(OperandKinds::one(Ending)),
        }
    }

    /// The operands that follow.
    pub fn kinds(self) -> OperandKinds
        ensures { result ≡ op_kinds self }
    {
        self.signature().kinds
    }

    /// Whether the next instruction can follow.
    pub fn goes_on(self) -> bool
        ensures { result ≡ op_goes_on self }
    {
        self.signature().goes_on
    }
}

/// The first word of a line.
#[derive(Clone, Copy)]
pub enum Word {
    Module,
    Pool,
    Brigade,
    Open,
    Init,
    Main,
    End,
    Op(Op),
}

impl Word {
    /// How the word is written.
    #[tactic(auto, unfolding(crate::specs::Words::word_text))]
    pub fn text(self) -> &'static [u8]
        ensures { result.now ≡ word_text self }
    {
        match self {
            Word::Module => b"module",
            Word::Pool => b"pool",
            Word::Brigade => b"brigade",
            Word::Open => b"open",
            Word::Init => b"init",
            Word::Main => b"main",
            Word::End => b"end",
            Word::Op(op) => op.text(),
        }
    }

    /// The operands that follow.
    #[tactic(auto, unfolding(crate::specs::Words::word_kinds))]
    pub fn kinds(self) -> OperandKinds
        ensures { result ≡ word_kinds self }
    {
        match self {
            Word::Module => OperandKinds::one(One),
            Word::Pool => OperandKinds::two(Pool, Place),
            Word::Brigade => OperandKinds::two(Brigade, Place),
            Word::Open | Word::Init | Word::Main | Word::End => OperandKinds::none(),
            Word::Op(op) => op.kinds(),
        }
    }
}

/// The words of module texts, in the order in which they are looked for.
pub const WORDS: [Word; 55] = [
    Word::Module,
    Word::Pool,
    Word::Brigade,
    Word::Open,
    Word::Init,
    Word::Main,
    Word::End,
    Word::Op(Op::PCreate),
    Word::Op(Op::PClear),
    Word::Op(Op::PDestroy),
    Word::Op(Op::Label),
    Word::Op(Op::Unlabel),
    Word::Op(Op::PreLabel),
    Word::Op(Op::BCreate),
    Word::Op(Op::BClean),
    Word::Op(Op::BConcat),
    Word::Op(Op::BSplit),
    Word::Op(Op::BPart),
    Word::Op(Op::BSave),
    Word::Op(Op::Pass),
    Word::Op(Op::JEmpty),
    Word::Op(Op::First),
    Word::Op(Op::Next),
    Word::Op(Op::JEnd),
    Word::Op(Op::JKind),
    Word::Op(Op::Unlink),
    Word::Op(Op::BDelete),
    Word::Op(Op::Tail),
    Word::Op(Op::Head),
    Word::Op(Op::Before),
    Word::Op(Op::Heap),
    Word::Op(Op::Immortal),
    Word::Op(Op::FromBuf),
    Word::Op(Op::Transient),
    Word::Op(Op::PoolB),
    Word::Op(Op::Flush),
    Word::Op(Op::Eos),
    Word::Op(Op::Split),
    Word::Op(Op::Copy),
    Word::Op(Op::Aside),
    Word::Op(Op::Read),
    Word::Op(Op::Len),
    Word::Op(Op::Get),
    Word::Op(Op::Put),
    Word::Op(Op::ClearBuf),
    Word::Op(Op::Set),
    Word::Op(Op::Add),
    Word::Op(Op::Sub),
    Word::Op(Op::JLt),
    Word::Op(Op::JEq),
    Word::Op(Op::JNull),
    Word::Op(Op::JSent),
    Word::Op(Op::Leave),
    Word::Op(Op::Jump),
    Word::Op(Op::Ret),
];

/// The word that is written so, if there is one.
#[tactic(auto, unfolding(crate::specs::Words::word_at))]
pub fn word_of(token: &[u8]) -> Option<Word>
    ensures { result ≡ word_at token.now }
{
    WORDS.iter().copied().find(|word| word.text() == token)
}
