//! What an instruction does, and where it may lead.

ghost use Rattle.std.specs.Prelude.{◌≡◌};
ghost use Rattle.run_model.specs.EffectOf.{effect_of, branch_of};

use module_code::{Instr, KindTest, PoolRef, Value, VarRef};

/// What becomes of a pool that is emptied.
#[derive(Clone, Copy)]
pub enum ClearKind {
    /// It stays (apr_pool_clear).
    Clear,
    /// It goes too (apr_pool_destroy).
    Destroy,
}

/// When a cleanup of a pool runs.
#[derive(Clone, Copy)]
pub enum CleanupKind {
    /// After those of the pools under it (apr_pool_cleanup_register).
    Plain,
    /// Before them (apr_pool_pre_cleanup_register).
    Pre,
}

/// What a bucket is made from.
#[derive(Clone, Copy)]
pub enum MadeFrom {
    /// HEAP, a copy of a text (apr_bucket_heap_create).
    HeapText(u8),
    /// IMMORTAL, a text itself (apr_bucket_immortal_create).
    ImmortalText(u8),
    /// HEAP, a copy of the buffer (apr_bucket_heap_create).
    HeapBuffer,
    /// TRANSIENT, the buffer's bytes as they stand, for as long as the call runs (apr_bucket_transient_create).
    TransientBuffer,
    /// POOL, a copy of the buffer in a pool (apr_bucket_pool_create).
    PoolBuffer(PoolRef),
    /// FLUSH (apr_bucket_flush_create).
    FlushBucket,
    /// EOS (apr_bucket_eos_create).
    EosBucket,
    /// A copy of the bucket at a cursor (apr_bucket_copy).
    CopyAt(u8),
}

/// What a number becomes.
#[derive(Clone, Copy)]
pub enum NewNumber {
    /// The length of the bucket at a cursor.
    LengthAt(u8),
    /// A byte of the bucket that was read; where there is none, the number stays.
    ByteRead(Value),
    /// This value.
    ValueGiven(Value),
    /// This much more than it was, at most 2^32 - 1.
    Plus(Value),
    /// This much less than it was, at least 0.
    Minus(Value),
}

/// Where a bucket is put in.
#[derive(Clone, Copy)]
pub enum Side {
    /// APR_BRIGADE_INSERT_TAIL.
    AtTail,
    /// APR_BRIGADE_INSERT_HEAD.
    AtHead,
}

/// What an instruction does to the state, apart from where it leads. A `u8` is the number of a variable (a brigade's is 8 for `in`),
/// of a cursor or of a text.
#[derive(Clone, Copy)]
pub enum Effect {
    Nothing,
    /// A pool is made in this variable (apr_pool_create).
    MakePool(u8),
    /// The pool in this variable is cleared or destroyed.
    EmptyPool(ClearKind, u8),
    /// The cleanup of a text is registered on a pool.
    Register(CleanupKind, PoolRef, u8),
    /// It is killed (apr_pool_cleanup_kill).
    Kill(PoolRef, u8),
    /// A brigade is made in this variable (apr_brigade_create).
    MakeBrigade(u8),
    /// The buckets of the brigade are destroyed, and it is usable (apr_brigade_cleanup).
    Clean(u8),
    /// The buckets of the second brigade go to the tail of the first (APR_BRIGADE_CONCAT).
    Concat(u8, u8),
    /// The buckets of the first brigade from the cursor on go to the last one, in place of those that were there (apr_brigade_split_ex).
    SplitBrigade(u8, u8, u8),
    /// The cursor is put at the place after so many bytes of the brigade; a bucket across it is split (apr_brigade_partition).
    PartBrigade(u8, Value, u8),
    /// The buckets of the second brigade are set aside, and go to the tail of the first (ap_save_brigade).
    Save(u8, u8),
    /// The brigade is passed (ap_pass_brigade).
    Pass(u8),
    /// The cursor is put at the first bucket of the brigade, or at its end (APR_BRIGADE_FIRST).
    First(u8, u8),
    /// The first cursor is put at the bucket after that of the second, or at the end (APR_BUCKET_NEXT).
    Next(u8, u8),
    /// The bucket at the cursor is taken out, and is loose (APR_BUCKET_REMOVE).
    Unlink(u8),
    /// It is destroyed (apr_bucket_delete).
    Delete(u8),
    /// The loose bucket at the cursor goes to the tail or the head of the brigade.
    Insert(Side, u8, u8),
    /// The loose bucket at the first cursor goes before that of the second (APR_BUCKET_INSERT_BEFORE).
    Before(u8, u8),
    /// A loose bucket is made, and the cursor is put there.
    Make(u8, MadeFrom),
    /// The bucket at the cursor is split at this place (apr_bucket_split).
    Split(u8, Value),
    /// It is set aside into a pool (apr_bucket_setaside).
    Aside(u8, PoolRef),
    /// It is read (apr_bucket_read).
    Read(u8),
    /// This number variable is set.
    Number(u8, NewNumber),
    /// A byte is appended to the buffer.
    Put(Value),
    /// The buffer is emptied.
    ClearBuffer,
    /// The instance takes itself out of its chain (ap_remove_output_filter).
    Leave,
    /// The call ends.
    Return,
}

/// What decides whether an instruction jumps.
#[derive(Clone, Copy)]
pub enum Condition {
    /// The brigade has fewer bytes than these (APR_INCOMPLETE of apr_brigade_partition); the cursor is the one that is put there.
    TooShort(u8, Value, u8),
    /// The brigade has no bucket (APR_BRIGADE_EMPTY).
    NoBucket(u8),
    /// The pass failed.
    PassFailed,
    /// The cursor is at the end of a brigade (APR_BRIGADE_SENTINEL).
    AtEnd(u8),
    /// The bucket at the cursor is of this kind (APR_BUCKET_IS_EOS and its like).
    OfKind(u8, KindTest),
    /// The bucket at the cursor cannot be split at this place.
    NoSplit(u8, Value),
    /// The bucket at the cursor cannot be read.
    ReadFailed(u8),
    /// The bucket that was read has no byte at this place.
    NoByte(Value),
    /// The buffer is full, or this is no byte.
    NoRoom(Value),
    /// The number variable is less than this.
    Less(u8, Value),
    /// It is equal to this.
    Equal(u8, Value),
    /// The variable is null.
    IsNull(VarRef),
    /// An EOS was passed in this request.
    WasSent,
}

/// Where an instruction may lead.
#[derive(Clone, Copy)]
pub enum Branch {
    /// To the next instruction.
    ToNext,
    /// To its target where the condition holds, and else to the next instruction.
    JumpIf(Condition),
    /// To its target.
    JumpAlways,
    /// Out of the call.
    EndCall,
}

/// What an instruction does.
#[inline(always)]
pub fn effect_of(instr: Instr) -> Effect
    ensures { result ≡ effect_of instr }
{
    match instr {
        Instr::PCreate(q) => Effect::MakePool(q),
        Instr::PClear(q) => Effect::EmptyPool(ClearKind::Clear, q),
        Instr::PDestroy(q) => Effect::EmptyPool(ClearKind::Destroy, q),
        Instr::Label(q, t) => Effect::Register(CleanupKind::Plain, q, t),
        Instr::Unlabel(q, t) => Effect::Kill(q, t),
        Instr::PreLabel(q, t) => Effect::Register(CleanupKind::Pre, q, t),
        Instr::BCreate(o) => Effect::MakeBrigade(o),
        Instr::BClean(b) => Effect::Clean(b),
        Instr::BConcat(a, b) => Effect::Concat(a, b),
        Instr::BSplit(b, c, a) => Effect::SplitBrigade(b, c, a),
        Instr::BPart(b, x, c, _) => Effect::PartBrigade(b, x, c),
        Instr::BSave(o, b) => Effect::Save(o, b),
        Instr::Pass(b, _) => Effect::Pass(b),
        Instr::First(c, b) => Effect::First(c, b),
        Instr::Next(d, c) => Effect::Next(d, c),
        Instr::Unlink(c) => Effect::Unlink(c),
        Instr::BDelete(c) => Effect::Delete(c),
        Instr::Tail(b, c) => Effect::Insert(Side::AtTail, b, c),
        Instr::Head(b, c) => Effect::Insert(Side::AtHead, b, c),
        Instr::Before(c, d) => Effect::Before(c, d),
        Instr::Heap(c, t) => Effect::Make(c, MadeFrom::HeapText(t)),
        Instr::Immortal(c, t) => Effect::Make(c, MadeFrom::ImmortalText(t)),
        Instr::FromBuf(c) => Effect::Make(c, MadeFrom::HeapBuffer),
        Instr::Transient(c) => Effect::Make(c, MadeFrom::TransientBuffer),
        Instr::PoolB(c, q) => Effect::Make(c, MadeFrom::PoolBuffer(q)),
        Instr::Flush(c) => Effect::Make(c, MadeFrom::FlushBucket),
        Instr::Eos(c) => Effect::Make(c, MadeFrom::EosBucket),
        Instr::Split(c, x, _) => Effect::Split(c, x),
        Instr::Copy(d, c) => Effect::Make(d, MadeFrom::CopyAt(c)),
        Instr::Aside(c, q) => Effect::Aside(c, q),
        Instr::Read(c, _) => Effect::Read(c),
        Instr::Len(n, c) => Effect::Number(n, NewNumber::LengthAt(c)),
        Instr::Get(n, x, _) => Effect::Number(n, NewNumber::ByteRead(x)),
        Instr::Put(x, _) => Effect::Put(x),
        Instr::ClearBuf => Effect::ClearBuffer,
        Instr::Set(n, x) => Effect::Number(n, NewNumber::ValueGiven(x)),
        Instr::Add(n, x) => Effect::Number(n, NewNumber::Plus(x)),
        Instr::Sub(n, x) => Effect::Number(n, NewNumber::Minus(x)),
        Instr::JEmpty(_, _)
        | Instr::JEnd(_, _)
        | Instr::JKind(_, _, _)
        | Instr::JLt(_, _, _)
        | Instr::JEq(_, _, _)
        | Instr::JNull(_, _)
        | Instr::JSent(_)
        | Instr::Jump(_) => Effect::Nothing,
        Instr::Leave => Effect::Leave,
        Instr::Ret(_) => Effect::Return,
    }
}

/// Where an instruction may lead.
#[inline(always)]
pub fn branch_of(instr: Instr) -> Branch
    ensures { result ≡ branch_of instr }
{
    match instr {
        Instr::BPart(b, x, c, _) => Branch::JumpIf(Condition::TooShort(b, x, c)),
        Instr::JEmpty(b, _) => Branch::JumpIf(Condition::NoBucket(b)),
        Instr::Pass(_, _) => Branch::JumpIf(Condition::PassFailed),
        Instr::JEnd(c, _) => Branch::JumpIf(Condition::AtEnd(c)),
        Instr::JKind(c, kind, _) => Branch::JumpIf(Condition::OfKind(c, kind)),
        Instr::Split(c, x, _) => Branch::JumpIf(Condition::NoSplit(c, x)),
        Instr::Read(c, _) => Branch::JumpIf(Condition::ReadFailed(c)),
        Instr::Get(_, x, _) => Branch::JumpIf(Condition::NoByte(x)),
        Instr::Put(x, _) => Branch::JumpIf(Condition::NoRoom(x)),
        Instr::JLt(n, x, _) => Branch::JumpIf(Condition::Less(n, x)),
        Instr::JEq(n, x, _) => Branch::JumpIf(Condition::Equal(n, x)),
        Instr::JNull(variable, _) => Branch::JumpIf(Condition::IsNull(variable)),
        Instr::JSent(_) => Branch::JumpIf(Condition::WasSent),
        Instr::Jump(_) => Branch::JumpAlways,
        Instr::Ret(_) => Branch::EndCall,
        _ => Branch::ToNext,
    }
}
