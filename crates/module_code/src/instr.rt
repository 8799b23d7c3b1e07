//! The instructions of a module.

ghost use Rattle.std.specs.Prelude.{◌≡◌, unwrap_or};
ghost use Rattle.module_code.specs.Program.{target};
ghost use Rattle.module_code.specs.Words.{kind_test_text};

/// How a handler's call ends.
#[derive(Clone, Copy)]
pub enum Status {
    /// The call succeeded (APR_SUCCESS).
    Success,
    /// The call failed.
    Fail,
}

/// A pool that a declaration names.
#[derive(Clone, Copy)]
pub enum PoolRef {
    /// The connection's pool.
    Conn,
    /// The request's pool.
    Req,
    /// The pool of this module's variable `p0` to `p7`.
    Own(u8),
}

/// A declared variable.
#[derive(Clone, Copy)]
pub enum VarRef {
    /// A pool variable, `p0` to `p7` as 0 to 7.
    Pool(u8),
    /// A brigade variable, `b0` to `b7` as 0 to 7.
    Brigade(u8),
}

/// A number that an instruction takes.
#[derive(Clone, Copy)]
pub enum Value {
    /// The number that is in this variable, `n0` to `n7` as 0 to 7.
    Number(u8),
    /// This number.
    Constant(u32),
}

/// What `jkind` asks of a bucket's kind.
#[derive(Clone, Copy)]
pub enum KindTest {
    /// Bytes on the heap (apr_bucket_type_heap).
    Heap,
    /// Bytes that last until the call ends (apr_bucket_type_transient).
    Transient,
    /// Bytes that last (apr_bucket_type_immortal).
    Immortal,
    /// Bytes in a pool (apr_bucket_type_pool).
    Pool,
    /// Bytes of a file (apr_bucket_type_file).
    File,
    /// Metadata: what comes before it is to be sent at once (apr_bucket_type_flush).
    Flush,
    /// Metadata: the end of the body (apr_bucket_type_eos).
    Eos,
    /// Any of the kinds that have bytes.
    Data,
}

impl KindTest {
    /// How it is written.
    pub fn text(self) -> &'static [u8]
        ensures { result.now ≡ kind_test_text self }
    {
        match self {
            KindTest::Heap => b"heap",
            KindTest::Transient => b"transient",
            KindTest::Immortal => b"immortal",
            KindTest::Pool => b"pool",
            KindTest::File => b"file",
            KindTest::Flush => b"flush",
            KindTest::Eos => b"eos",
            KindTest::Data => b"data",
        }
    }
}

/// An instruction. A `u8` is the number of a variable (a brigade's is 8 for `in`), of a cursor (`c0` to `c7` as 0 to 7)
/// or of a text. A `u16` is the number of the instruction that is jumped to.
#[derive(Clone, Copy)]
pub enum Instr {
    /// `pcreate Q`: makes the pool Q under its declared parent (apr_pool_create).
    PCreate(u8),
    /// `pclear Q`: clears Q, which stays (apr_pool_clear).
    PClear(u8),
    /// `pdestroy Q`: destroys Q (apr_pool_destroy).
    PDestroy(u8),
    /// `label P T`: registers a cleanup of this text on P (apr_pool_cleanup_register).
    Label(PoolRef, u8),
    /// `unlabel P T`: kills a cleanup of this text on P (apr_pool_cleanup_kill).
    Unlabel(PoolRef, u8),
    /// `prelabel P T`: registers a cleanup of this text on P that runs before those of its subpools (apr_pool_pre_cleanup_register).
    PreLabel(PoolRef, u8),
    /// `bcreate O`: an empty brigade on its declared pool (apr_brigade_create).
    BCreate(u8),
    /// `bclean B`: destroys the buckets of B, which is usable again (apr_brigade_cleanup).
    BClean(u8),
    /// `bconcat B B'`: the buckets of B' go to the tail of B (APR_BRIGADE_CONCAT).
    BConcat(u8, u8),
    /// `bsplit B c B'`: the buckets of B from c on move to B', in place of those that were there
    /// (apr_brigade_split_ex).
    BSplit(u8, u8, u8),
    /// `bpart B x c L`: c is the place behind the first x bytes of B, where a bucket is split if need be
    /// (apr_brigade_partition); to L, with c the end, where B has fewer bytes.
    BPart(u8, Value, u8, u16),
    /// `bsave O B`: the buckets of B are set aside and go to the tail of O (ap_save_brigade).
    BSave(u8, u8),
    /// `pass B L`: passes B to the next filter (ap_pass_brigade); to L where the answer is Fail.
    Pass(u8, u16),
    /// `jempty B L`: to L where B has no bucket (APR_BRIGADE_EMPTY).
    JEmpty(u8, u16),
    /// `first c B`: c is the first bucket of B, or its end (APR_BRIGADE_FIRST).
    First(u8, u8),
    /// `next d c`: d is the bucket after c, or the end (APR_BUCKET_NEXT).
    Next(u8, u8),
    /// `jend c L`: to L where c is the end of a brigade (APR_BRIGADE_SENTINEL).
    JEnd(u8, u16),
    /// `jkind c K L`: to L where the bucket at c is of the kind K (APR_BUCKET_IS_EOS and its like).
    JKind(u8, KindTest, u16),
    /// `unlink c`: takes the bucket at c out of its brigade (APR_BUCKET_REMOVE).
    Unlink(u8),
    /// `bdelete c`: destroys the bucket at c (apr_bucket_delete).
    BDelete(u8),
    /// `tail B c`: the loose bucket at c goes to the tail of B (APR_BRIGADE_INSERT_TAIL).
    Tail(u8, u8),
    /// `head B c`: the loose bucket at c goes to the head of B (APR_BRIGADE_INSERT_HEAD).
    Head(u8, u8),
    /// `before c d`: the loose bucket at c goes before the bucket at d (APR_BUCKET_INSERT_BEFORE).
    Before(u8, u8),
    /// `heap c T`: c is a new loose bucket with a copy of this text (apr_bucket_heap_create).
    Heap(u8, u8),
    /// `immortal c T`: c is a new loose bucket of this text itself (apr_bucket_immortal_create).
    Immortal(u8, u8),
    /// `frombuf c`: c is a new loose bucket with a copy of the buffer's bytes (apr_bucket_heap_create).
    FromBuf(u8),
    /// `transient c`: c is a new loose bucket of the buffer's bytes, which last until the call ends
    /// (apr_bucket_transient_create).
    Transient(u8),
    /// `poolb c P`: c is a new loose bucket of the buffer's bytes in the pool P (apr_bucket_pool_create).
    PoolB(u8, PoolRef),
    /// `flush c`: c is a new loose FLUSH bucket (apr_bucket_flush_create).
    Flush(u8),
    /// `eos c`: c is a new loose EOS bucket (apr_bucket_eos_create).
    Eos(u8),
    /// `split c x L`: the bucket at c keeps its first x bytes, and a bucket of the rest follows it (apr_bucket_split);
    /// to L where that is refused.
    Split(u8, Value, u16),
    /// `copy d c`: d is a new loose copy of the bucket at c (apr_bucket_copy).
    Copy(u8, u8),
    /// `aside c P`: the bucket at c is set aside into P (apr_bucket_setaside).
    Aside(u8, PoolRef),
    /// `read c L`: the bucket at c is read (apr_bucket_read), and is the one that `get` asks; to L where that fails.
    Read(u8, u16),
    /// `len n c`: n is the length of the bucket at c, at most 4294967295.
    Len(u8, u8),
    /// `get n x L`: n is byte x of the bucket that was read; to L where there is none.
    Get(u8, Value, u16),
    /// `put x L`: appends the byte x to the buffer; to L where x is over 255 or the buffer is full.
    Put(Value, u16),
    /// `clearbuf`: empties the buffer.
    ClearBuf,
    /// `set n x`: n becomes x.
    Set(u8, Value),
    /// `add n x`: n becomes n + x, at most 4294967295.
    Add(u8, Value),
    /// `sub n x`: n becomes n - x, at least 0.
    Sub(u8, Value),
    /// `jlt n x L`: to L where n < x.
    JLt(u8, Value, u16),
    /// `jeq n x L`: to L where n = x.
    JEq(u8, Value, u16),
    /// `jnull V L`: to L where the variable V is null.
    JNull(VarRef, u16),
    /// `jsent L`: to L where this instance passed an EOS in this request.
    JSent(u16),
    /// `leave`: takes this instance out of its chain for the rest of the request (ap_remove_output_filter).
    Leave,
    /// `jump L`.
    Jump(u16),
    /// `ret ok` and `ret fail`.
    Ret(Status),
}

impl Instr {
    /// The number of the instruction that it names as its target, if it names one.
    pub fn named_target(self) -> Option<u16>
        ensures { result ≡ target self }
    {
        match self {
            Instr::BPart(_, _, _, target)
            | Instr::Pass(_, target)
            | Instr::JEmpty(_, target)
            | Instr::JEnd(_, target)
            | Instr::JKind(_, _, target)
            | Instr::Split(_, _, target)
            | Instr::Read(_, target)
            | Instr::Get(_, _, target)
            | Instr::Put(_, target)
            | Instr::JLt(_, _, target)
            | Instr::JEq(_, _, target)
            | Instr::JNull(_, target)
            | Instr::JSent(target)
            | Instr::Jump(target) => Some(target),
            _ => None,
        }
    }

    /// The number of the instruction that it names as its target; 0 where it names none.
    pub fn target(self) -> usize
        ensures { result ≡ unwrap_or (target self) 0 }
    {
        match self.named_target() {
            Some(target) => usize::from(target),
            None => 0,
        }
    }
}
