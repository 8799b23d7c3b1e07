//! An instruction as its word and its operands, and made of them again.

ghost use Rattle.std.specs.Prelude.{◌≡◌};
ghost use Rattle.module_code.specs.Args.{AreOf, IsSplit, made, parts};
ghost use Rattle.module_code.specs.Words.{op_kinds};

use crate::arg::Arg::{
    Brigade, Cursor, Ending, KindTest, Nothing, Number, Place, Pool, Source, Target, Text, Value,
    Variable,
};
use crate::arg::Args;
use crate::instr::Instr;
use crate::word::Op;

/// The word of an instruction, and its operands.
#[tactic(auto, using(crate::proofs::PartsLaws::split_again))]
pub fn parts(instr: Instr) -> (Op, Args)
    ensures value { result ≡ parts instr }
    ensures split { IsSplit instr result.0 result.1 }
{
    split(instr)
}

/// The instruction of a word and operands of its kinds.
#[tactic(auto, using(crate::proofs::PartsLaws::made_again))]
pub fn made(op: Op, args: Args) -> Instr
    requires { AreOf (op_kinds op) args }
    ensures value { result ≡ made op args }
    ensures split { parts result ≡ (op, args) }
{
    make(op, args)
}

fn split(instr: Instr) -> (Op, Args)
    ensures { result ≡ parts instr }
{
    let (op, first, second, third, fourth) = match instr {
        Instr::PCreate(q) => (Op::PCreate, Pool(q), Nothing, Nothing, Nothing),
        Instr::PClear(q) => (Op::PClear, Pool(q), Nothing, Nothing, Nothing),
        Instr::PDestroy(q) => (Op::PDestroy, Pool(q), Nothing, Nothing, Nothing),
        Instr::Label(q, t) => (Op::Label, Place(q), Text(t), Nothing, Nothing),
        Instr::Unlabel(q, t) => (Op::Unlabel, Place(q), Text(t), Nothing, Nothing),
        Instr::PreLabel(q, t) => (Op::PreLabel, Place(q), Text(t), Nothing, Nothing),
        Instr::BCreate(o) => (Op::BCreate, Brigade(o), Nothing, Nothing, Nothing),
        Instr::BClean(b) => (Op::BClean, Source(b), Nothing, Nothing, Nothing),
        Instr::BConcat(a, b) => (Op::BConcat, Source(a), Source(b), Nothing, Nothing),
        Instr::BSplit(b, c, d) => (Op::BSplit, Source(b), Cursor(c), Source(d), Nothing),
        Instr::BPart(b, x, c, l) => (Op::BPart, Source(b), Value(x), Cursor(c), Target(l)),
        Instr::BSave(o, b) => (Op::BSave, Brigade(o), Source(b), Nothing, Nothing),
        Instr::Pass(b, l) => (Op::Pass, Source(b), Target(l), Nothing, Nothing),
        Instr::JEmpty(b, l) => (Op::JEmpty, Source(b), Target(l), Nothing, Nothing),
        Instr::First(c, b) => (Op::First, Cursor(c), Source(b), Nothing, Nothing),
        Instr::Next(d, c) => (Op::Next, Cursor(d), Cursor(c), Nothing, Nothing),
        Instr::JEnd(c, l) => (Op::JEnd, Cursor(c), Target(l), Nothing, Nothing),
        Instr::JKind(c, k, l) => (Op::JKind, Cursor(c), KindTest(k), Target(l), Nothing),
        Instr::Unlink(c) => (Op::Unlink, Cursor(c), Nothing, Nothing, Nothing),
        Instr::BDelete(c) => (Op::BDelete, Cursor(c), Nothing, Nothing, Nothing),
        Instr::Tail(b, c) => (Op::Tail, Source(b), Cursor(c), Nothing, Nothing),
        Instr::Head(b, c) => (Op::Head, Source(b), Cursor(c), Nothing, Nothing),
        Instr::Before(c, d) => (Op::Before, Cursor(c), Cursor(d), Nothing, Nothing),
        Instr::Heap(c, t) => (Op::Heap, Cursor(c), Text(t), Nothing, Nothing),
        Instr::Immortal(c, t) => (Op::Immortal, Cursor(c), Text(t), Nothing, Nothing),
        Instr::FromBuf(c) => (Op::FromBuf, Cursor(c), Nothing, Nothing, Nothing),
        Instr::Transient(c) => (Op::Transient, Cursor(c), Nothing, Nothing, Nothing),
        Instr::PoolB(c, q) => (Op::PoolB, Cursor(c), Place(q), Nothing, Nothing),
        Instr::Flush(c) => (Op::Flush, Cursor(c), Nothing, Nothing, Nothing),
        Instr::Eos(c) => (Op::Eos, Cursor(c), Nothing, Nothing, Nothing),
        Instr::Split(c, x, l) => (Op::Split, Cursor(c), Value(x), Target(l), Nothing),
        Instr::Copy(d, c) => (Op::Copy, Cursor(d), Cursor(c), Nothing, Nothing),
        Instr::Aside(c, q) => (Op::Aside, Cursor(c), Place(q), Nothing, Nothing),
        Instr::Read(c, l) => (Op::Read, Cursor(c), Target(l), Nothing, Nothing),
        Instr::Len(n, c) => (Op::Len, Number(n), Cursor(c), Nothing, Nothing),
        Instr::Get(n, x, l) => (Op::Get, Number(n), Value(x), Target(l), Nothing),
        Instr::Put(x, l) => (Op::Put, Value(x), Target(l), Nothing, Nothing),
        Instr::ClearBuf => (Op::ClearBuf, Nothing, Nothing, Nothing, Nothing),
        Instr::Set(n, x) => (Op::Set, Number(n), Value(x), Nothing, Nothing),
        Instr::Add(n, x) => (Op::Add, Number(n), Value(x), Nothing, Nothing),
        Instr::Sub(n, x) => (Op::Sub, Number(n), Value(x), Nothing, Nothing),
        Instr::JLt(n, x, l) => (Op::JLt, Number(n), Value(x), Target(l), Nothing),
        Instr::JEq(n, x, l) => (Op::JEq, Number(n), Value(x), Target(l), Nothing),
        Instr::JNull(v, l) => (Op::JNull, Variable(v), Target(l), Nothing, Nothing),
        Instr::JSent(l) => (Op::JSent, Target(l), Nothing, Nothing, Nothing),
        Instr::Leave => (Op::Leave, Nothing, Nothing, Nothing, Nothing),
        Instr::Jump(l) => (Op::Jump, Target(l), Nothing, Nothing, Nothing),
        Instr::Ret(s) => (Op::Ret, Ending(s), Nothing, Nothing, Nothing),
    };
    (op, Args::four(first, second, third, fourth))
}

fn make(op: Op, args: Args) -> Instr
    ensures { result ≡ made op args }
{
    match op {
        Op::PCreate => Instr::PCreate(args.first.index()),
        Op::PClear => Instr::PClear(args.first.index()),
        Op::PDestroy => Instr::PDestroy(args.first.index()),
        Op::Label => Instr::Label(args.first.place(), args.second.text()),
        Op::Unlabel => Instr::Unlabel(args.first.place(), args.second.text()),
        Op::PreLabel => Instr::PreLabel(args.first.place(), args.second.text()),
        Op::BCreate => Instr::BCreate(args.first.index()),
        Op::BClean => Instr::BClean(args.first.index()),
        Op::BConcat => Instr::BConcat(args.first.index(), args.second.index()),
        Op::BSplit => Instr::BSplit(args.first.index(), args.second.index(), args.third.index()),
        Op::BPart => Instr::BPart(
            args.first.index(),
            args.second.value(),
            args.third.index(),
            args.fourth.aim(),
        ),
        Op::BSave => Instr::BSave(args.first.index(), args.second.index()),
        Op::Pass => Instr::Pass(args.first.index(), args.second.aim()),
        Op::JEmpty => Instr::JEmpty(args.first.index(), args.second.aim()),
        Op::First => Instr::First(args.first.index(), args.second.index()),
        Op::Next => Instr::Next(args.first.index(), args.second.index()),
        Op::JEnd => Instr::JEnd(args.first.index(), args.second.aim()),
        Op::JKind => Instr::JKind(
            args.first.index(),
            args.second.kind_test(),
            args.third.aim(),
        ),
        Op::Unlink => Instr::Unlink(args.first.index()),
        Op::BDelete => Instr::BDelete(args.first.index()),
        Op::Tail => Instr::Tail(args.first.index(), args.second.index()),
        Op::Head => Instr::Head(args.first.index(), args.second.index()),
        Op::Before => Instr::Before(args.first.index(), args.second.index()),
        Op::Heap => Instr::Heap(args.first.index(), args.second.text()),
        Op::Immortal => Instr::Immortal(args.first.index(), args.second.text()),
        Op::FromBuf => Instr::FromBuf(args.first.index()),
        Op::Transient => Instr::Transient(args.first.index()),
        Op::PoolB => Instr::PoolB(args.first.index(), args.second.place()),
        Op::Flush => Instr::Flush(args.first.index()),
        Op::Eos => Instr::Eos(args.first.index()),
        Op::Split => Instr::Split(args.first.index(), args.second.value(), args.third.aim()),
        Op::Copy => Instr::Copy(args.first.index(), args.second.index()),
        Op::Aside => Instr::Aside(args.first.index(), args.second.place()),
        Op::Read => Instr::Read(args.first.index(), args.second.aim()),
        Op::Len => Instr::Len(args.first.index(), args.second.index()),
        Op::Get => Instr::Get(args.first.index(), args.second.value(), args.third.aim()),
        Op::Put => Instr::Put(args.first.value(), args.second.aim()),
        Op::ClearBuf => Instr::ClearBuf,
        Op::Set => Instr::Set(args.first.index(), args.second.value()),
        Op::Add => Instr::Add(args.first.index(), args.second.value()),
        Op::Sub => Instr::Sub(args.first.index(), args.second.value()),
        Op::JLt => Instr::JLt(args.first.index(), args.second.value(), args.third.aim()),
        Op::JEq => Instr::JEq(args.first.index(), args.second.value(), args.third.aim()),
        Op::JNull => Instr::JNull(args.first.variable(), args.second.aim()),
        Op::JSent => Instr::JSent(args.first.aim()),
        Op::Leave => Instr::Leave,
        Op::Jump => Instr::Jump(args.first.aim()),
        Op::Ret => Instr::Ret(args.first.status()),
    }
}
