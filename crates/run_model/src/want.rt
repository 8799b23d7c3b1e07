//! What an instruction wants of the state, in the order of its tests.

ghost use Rattle.std.specs.Prelude.{◌≡◌, ◌≤◌, None, Some, true, length};
ghost use Rattle.module_code.specs.Program.{fits};
ghost use Rattle.run_model.specs.Faults.{end_fault, loose_fault, wants, within_fault};
ghost use Rattle.run_model.specs.Wants.{AreInRange, listed, need_of, wanted};

use crate::fault::FaultKind;
use module_code::{Instr, Module, PoolRef, Value};

/// Where a cursor has to stand (apr_buckets.h: a bucket, or the sentinel of a brigade, is the end of its ring).
#[derive(Clone, Copy)]
pub enum Need {
    /// At a bucket or at an end.
    Anywhere,
    /// At a bucket.
    OnBucket,
    /// At a loose bucket.
    OnLoose,
    /// At a bucket in a brigade.
    InBrigade,
    /// At a bucket of the brigade in this variable, or at its end.
    InThis(u8),
}

impl Need {
    /// The fault of a cursor at a loose bucket, where it is not to stand so.
    pub fn loose_fault(self) -> Option<FaultKind>
        ensures { result ≡ loose_fault (need_of self) }
    {
        match self {
            Need::Anywhere | Need::OnBucket | Need::OnLoose => None,
            Need::InBrigade | Need::InThis(_) => Some(FaultKind::F9),
        }
    }

    /// The fault of a cursor at a bucket of the brigade in a variable, where it is not to stand so.
    pub fn within_fault(self, b: u8) -> Option<FaultKind>
        ensures { result ≡ within_fault (need_of self) b }
    {
        match self {
            Need::Anywhere | Need::OnBucket | Need::InBrigade => None,
            Need::InThis(a) if b == a => None,
            Need::OnLoose | Need::InThis(_) => Some(FaultKind::F9),
        }
    }

    /// The fault of a cursor at the end of the brigade in a variable, where it is not to stand so.
    pub fn end_fault(self, b: u8) -> Option<FaultKind>
        ensures { result ≡ end_fault (need_of self) b }
    {
        match self {
            Need::Anywhere => None,
            Need::InThis(a) if b == a => None,
            Need::InThis(_) => Some(FaultKind::F9),
            Need::OnBucket | Need::OnLoose | Need::InBrigade => Some(FaultKind::F4),
        }
    }
}

/// What an instruction may want of the state.
#[derive(Clone, Copy)]
pub enum Want {
    /// A live pool.
    Pool(PoolRef),
    /// A live brigade, whether it was passed or not.
    Brigade(u8),
    /// A live brigade that was not passed.
    Usable(u8),
    /// A brigade variable in which no live brigade is.
    New(u8),
    /// A pool variable in which no live pool is.
    NewPool(u8),
    /// A cursor that stands so.
    Cursor(u8, Need),
    /// A brigade in which no bucket's home is dead.
    Homes(u8),
    /// A cursor at a bucket whose home is not dead.
    Home(u8),
    /// A brigade in which the bucket that this point lies inside, if there is one, has a home that is not dead.
    HomeAcross(u8, Value),
    /// A brigade that may be sent on: no data behind an EOS of its own or of the request.
    Send(u8),
    /// Nothing is kept beyond the call that may not be.
    Return,
}

/// At most three wants, one after another, up to the first that is none.
#[derive(Clone, Copy)]
pub struct Wanted {
    pub first: Option<Want>,
    pub second: Option<Want>,
    pub third: Option<Want>,
}

/// The number of the read cursor `rd`.
const READ_CURSOR: u8 = 8;

#[inline(always)]
fn nothing() -> Wanted
    ensures { result ≡ wanted None None None }
{
    Wanted {
        first: None,
        second: None,
        third: None,
    }
}

#[inline(always)]
fn one(first: Want) -> Wanted
    ensures { result ≡ wanted (Some first) None None }
{
    Wanted {
        first: Some(first),
        second: None,
        third: None,
    }
}

#[inline(always)]
fn two(first: Want, second: Want) -> Wanted
    ensures { result ≡ wanted (Some first) (Some second) None }
{
    Wanted {
        first: Some(first),
        second: Some(second),
        third: None,
    }
}

#[inline(always)]
fn three(first: Want, second: Want, third: Want) -> Wanted
    ensures { result ≡ wanted (Some first) (Some second) (Some third) }
{
    Wanted {
        first: Some(first),
        second: Some(second),
        third: Some(third),
    }
}

/// What an instruction wants: its operands from left to right (for `pcreate` and `bcreate` the declared pool first), then what is made
/// anew, then homes, then what may be sent on.
#[inline(always)]
pub fn wants(code: &Module, instr: Instr) -> Wanted
    requires { fits code.now instr ≡ true }
    ensures listed { listed result ≡ wants code.now instr }
    ensures fit { length code.now.brigades ≤ 8 → AreInRange result }
{
    match instr {
        Instr::PCreate(q) => two(Want::Pool(code.pool_parent(q)), Want::NewPool(q)),
        Instr::PClear(q) | Instr::PDestroy(q) => one(Want::Pool(PoolRef::Own(q))),
        Instr::Label(pool, _)
        | Instr::Unlabel(pool, _)
        | Instr::PreLabel(pool, _)
        | Instr::PoolB(_, pool) => one(Want::Pool(pool)),
        Instr::BCreate(o) => two(Want::Pool(code.brigade_pool(o)), Want::New(o)),
        Instr::BClean(b) => one(Want::Brigade(b)),
        Instr::BConcat(a, b) => two(Want::Usable(a), Want::Usable(b)),
        Instr::BSplit(b, c, a) => three(
            Want::Usable(b),
            Want::Cursor(c, Need::InThis(b)),
            Want::Usable(a),
        ),
        Instr::BPart(b, x, _, _) => two(Want::Usable(b), Want::HomeAcross(b, x)),
        Instr::BSave(o, b) => three(Want::Usable(o), Want::Usable(b), Want::Homes(b)),
        Instr::JEmpty(b, _) | Instr::First(_, b) => one(Want::Usable(b)),
        Instr::Pass(b, _) => three(Want::Usable(b), Want::Homes(b), Want::Send(b)),
        Instr::JEnd(c, _) => one(Want::Cursor(c, Need::Anywhere)),
        Instr::Next(_, c) | Instr::Unlink(c) => one(Want::Cursor(c, Need::InBrigade)),
        Instr::JKind(c, _, _) | Instr::BDelete(c) | Instr::Len(_, c) => {
            one(Want::Cursor(c, Need::OnBucket))
        }
        Instr::Get(_, _, _) => one(Want::Cursor(READ_CURSOR, Need::OnBucket)),
        Instr::Tail(b, c) | Instr::Head(b, c) => {
            two(Want::Usable(b), Want::Cursor(c, Need::OnLoose))
        }
        Instr::Before(c, d) => two(
            Want::Cursor(c, Need::OnLoose),
            Want::Cursor(d, Need::InBrigade),
        ),
        Instr::Split(c, _, _) | Instr::Read(c, _) => {
            two(Want::Cursor(c, Need::InBrigade), Want::Home(c))
        }
        Instr::Copy(_, c) => two(Want::Cursor(c, Need::OnBucket), Want::Home(c)),
        Instr::Aside(c, pool) => three(
            Want::Cursor(c, Need::OnBucket),
            Want::Pool(pool),
            Want::Home(c),
        ),
        Instr::Ret(_) => one(Want::Return),
        Instr::Heap(_, _)
        | Instr::Immortal(_, _)
        | Instr::FromBuf(_)
        | Instr::Transient(_)
        | Instr::Flush(_)
        | Instr::Eos(_)
        | Instr::Put(_, _)
        | Instr::ClearBuf
        | Instr::Set(_, _)
        | Instr::Add(_, _)
        | Instr::Sub(_, _)
        | Instr::JLt(_, _, _)
        | Instr::JEq(_, _, _)
        | Instr::JNull(_, _)
        | Instr::JSent(_)
        | Instr::Leave
        | Instr::Jump(_) => nothing(),
    }
}
