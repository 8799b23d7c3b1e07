//! Rows of one bucket that is in no brigade: splits, copies and setting aside.

ghost use Rattle.std.specs.Prelude.{IfOk};
ghost use Rattle.run_model.specs.Cutting.{EndsInFile};

use anyhow::Result;
use bucket_kinds::{
    Bucket, Content, Home, Kind, Seq, SplitError, aside_bucket, copy_bucket, split_bucket,
};
use std::alloc::{AllocError, Global};
use std::{fmt, io};

/// A bucket that a row makes.
#[derive(Clone, Copy)]
enum MadeBucket {
    /// Bytes of a kind, with their home.
    Bytes(Kind, Home, &'static [u8]),
    /// Ten bytes of the file 7, from byte 5 on. Their home is the pool 2.
    Range,
    Eos,
}

/// A call on one bucket.
#[derive(Clone, Copy)]
enum BucketCall {
    /// It is split at a place.
    Split(u64),
    /// A copy takes its place, of the same kind, bytes and home.
    Copy,
    /// It is set aside into the pool 9; whether its home is above that.
    Aside(bool),
}

const AB: MadeBucket = MadeBucket::Bytes(Kind::Heap, Home::Free, b"ab");

const POOLED: MadeBucket = MadeBucket::Bytes(Kind::Pool(2), Home::Free, b"ab");

const LENT: MadeBucket = MadeBucket::Bytes(Kind::Transient, Home::Call(3), b"a");

/// Each row has what is told before it, where anything is, a bucket, and a call on it.
static ROWS: &[(Option<&str>, MadeBucket, BucketCall)] = &[
    (Some("buckets are split"), AB, BucketCall::Split(0)),
    (None, AB, BucketCall::Split(1)),
    (None, AB, BucketCall::Split(2)),
    (None, AB, BucketCall::Split(3)),
    (None, MadeBucket::Eos, BucketCall::Split(0)),
    (None, MadeBucket::Eos, BucketCall::Split(1)),
    (None, MadeBucket::Range, BucketCall::Split(4)),
    (Some("buckets are copied"), POOLED, BucketCall::Copy),
    (None, MadeBucket::Eos, BucketCall::Copy),
    (
        Some("buckets are set aside into pool 9"),
        LENT,
        BucketCall::Aside(false),
    ),
    (
        Some("its home is above:"),
        MadeBucket::Range,
        BucketCall::Aside(true),
    ),
    (
        Some("its home is not above:"),
        MadeBucket::Range,
        BucketCall::Aside(false),
    ),
    (None, AB, BucketCall::Aside(false)),
];

/// More bytes are shown by their number, and by the first of them.
const LONGEST: usize = 100;

/// A bucket: its kind, its content, and its home where it has one.
#[derive(Clone, Copy)]
struct ShownBucket<'a>(&'a Bucket);

fn put_kind<W: fmt::Write>(f: &mut fmt::Formatter<W>, kind: Kind) -> fmt::Result {
    let word = match kind {
        Kind::Heap => "heap",
        Kind::Transient => "transient",
        Kind::Immortal => "immortal",
        Kind::Pool(pool) => return write!(f, "pool {pool}"),
        Kind::File => "file",
        Kind::Flush => "flush",
        Kind::Eos => "eos",
    };
    f.write_str(word)
}

fn put_bytes<W: fmt::Write>(f: &mut fmt::Formatter<W>, bytes: &[u8]) -> fmt::Result {
    match bytes {
        [first, ..] if bytes.len() > LONGEST => {
            write!(f, " {} times \"{}\"", bytes.len(), *first as char)
        }
        _ => match str::from_utf8(bytes) {
            Ok(text) => write!(f, " \"{text}\""),
            Err(_) => Err(fmt::Error),
        },
    }
}

fn put_content<W: fmt::Write>(f: &mut fmt::Formatter<W>, content: &Content) -> fmt::Result {
    match content {
        Content::Bytes(bytes) => put_bytes(f, bytes.as_slice()),
        Content::Range { file, start, len } => write!(f, " {file} from {start}, length {len}"),
        Content::Nothing => Ok(()),
    }
}

impl fmt::Display for ShownBucket<'_> {
    fn fmt<W: fmt::Write>(&self, f: &mut fmt::Formatter<W>) -> fmt::Result {
        put_kind(f, self.0.kind)?;
        put_content(f, &self.0.content)?;
        match self.0.home {
            Home::Call(call) => write!(f, ", home call {call}"),
            Home::Pool(pool) => write!(f, ", home pool {pool}"),
            Home::Ended => f.write_str(", home ended"),
            Home::Free => Ok(()),
        }
    }
}

/// A bucket that keeps its own bytes.
fn bucket_of(alloc: Global, kind: Kind, home: Home, text: &[u8]) -> Result<Bucket, AllocError>
    ensures { IfOk result (λ b. EndsInFile b.content) }
{
    let mut bytes = Seq::new(alloc);
    bytes.extend(text)?;
    let content = Content::Bytes(bytes);
    Ok(Bucket {
        kind,
        content,
        home,
    })
}

/// Bytes on the heap.
pub(crate) fn letters(alloc: Global, text: &[u8]) -> Result<Bucket, AllocError>
    ensures { IfOk result (λ b. EndsInFile b.content) }
{
    bucket_of(alloc, Kind::Heap, Home::Free, text)
}

fn make(alloc: Global, made: MadeBucket) -> Result<Bucket, AllocError>
    ensures { IfOk result (λ b. EndsInFile b.content) }
{
    match made {
        MadeBucket::Bytes(kind, home, text) => bucket_of(alloc, kind, home, text),
        MadeBucket::Range => Ok(Bucket {
            kind: Kind::File,
            content: Content::Range {
                file: 7,
                start: 5,
                len: 10,
            },
            home: Home::Pool(2),
        }),
        MadeBucket::Eos => Ok(Bucket {
            kind: Kind::Eos,
            content: Content::Nothing,
            home: Home::Free,
        }),
    }
}

/// The place of a split; of other calls nothing.
impl fmt::Display for BucketCall {
    fn fmt<W: fmt::Write>(&self, f: &mut fmt::Formatter<W>) -> fmt::Result {
        match self {
            BucketCall::Split(at) => write!(f, " at {at}"),
            BucketCall::Copy | BucketCall::Aside(_) => Ok(()),
        }
    }
}

/// Makes a call, and gives what was split off.
fn make_call(
    alloc: Global,
    bucket: &mut Bucket,
    call: BucketCall,
) -> Result<Option<Bucket>, SplitError>
    requires { EndsInFile bucket.old.content }
{
    match call {
        BucketCall::Split(at) => return Ok(Some(split_bucket(alloc, bucket, at)?)),
        BucketCall::Copy => *bucket = copy_bucket(alloc, bucket)?,
        BucketCall::Aside(is_ancestor) => aside_bucket(bucket, 9, is_ancestor),
    }
    Ok(None)
}

/// Tells a bucket, and what a call left beside it, or why it was left as it is.
pub(crate) fn show_answer<E: fmt::Display>(
    rt: &HostRuntime,
    bucket: &Bucket,
    answer: &Result<Option<Bucket>, E>,
) -> io::Result<()> {
    match answer {
        Ok(Some(rest)) => println!(rt; "{} | {}", ShownBucket(bucket), ShownBucket(rest)),
        Ok(None) => println!(rt; "{}", ShownBucket(bucket)),
        Err(why) => println!(rt; "{why}, and it is {}", ShownBucket(bucket)),
    }
}

/// Tells a bucket, and what a call makes of it.
fn show_call(rt: &HostRuntime, made: MadeBucket, call: BucketCall) -> Result<()> {
    let mut bucket = make(rt.alloc(), made)?;
    print!(rt; "{}{call}: ", ShownBucket(&bucket))?;
    let answer = make_call(rt.alloc(), &mut bucket, call);
    Ok(show_answer(rt, &bucket, &answer)?)
}

/// Tells the rows one after another.
pub(crate) fn show_rows(rt: &HostRuntime) -> Result<()> {
    for (says, made, call) in ROWS {
        if let Some(says) = says {
            println!(rt; "{says}")?;
        }
        show_call(rt, *made, *call)?;
    }
    Ok(())
}
