//! A connection's stream, with a deadline for each head.

ghost use Rattle.std.specs.Prelude.{◌≡◌, ◌≤◌, IfOk, length};
ghost use Rattle.byte_streams.specs.Texts.{joined};

use byte_streams::{Parts, WritesParts, io_slices};
use std::cell::Cell;
use std::io::{self, ErrorKind, Read};
use std::net::TcpStream;
use std::rt::Clock;
use std::time::{Duration, Instant};

/// How many milliseconds a read may wait longer than a head may take. So the stream is given a new timeout only where that differs by more.
const SLACK_MILLIS: u64 = 20;

/// When the next head is to be there: not said before it is first waited for. When bytes last came, whether any came of this head, whether a response
/// is being written, whether its time passed, and what timeout the stream has.
#[derive(Drop)]
pub struct Deadline {
    at: Cell<Option<Instant>>,
    came: Cell<Option<Instant>>,
    some: Cell<bool>,
    writing: Cell<bool>,
    late: Cell<bool>,
    set: Cell<Option<Duration>>,
    patience: Duration,
}

impl Deadline {
    /// No deadline yet; each head may take this long.
    pub fn new(patience: Duration) -> Deadline {
        Deadline {
            at: Cell::new(None),
            came: Cell::new(None),
            some: Cell::new(false),
            writing: Cell::new(false),
            late: Cell::new(false),
            set: Cell::new(None),
            patience,
        }
    }

    /// The time since bytes last came, or since this was last asked: this long a response took.
    pub fn taken(&self, rt: &impl Clock) -> Duration {
        let Ok(now) = Instant::now(rt) else {
            return Duration::ZERO;
        };
        let Some(before) = self.came.replace(Some(now)) else {
            return Duration::ZERO;
        };
        now.checked_duration_since(before).unwrap_or(Duration::ZERO)
    }

    /// The next head gets a deadline of its own.
    pub fn renew(&self) {
        self.at.set(None);
        self.some.set(false);
        self.writing.set(false);
    }

    /// Bytes of this head came.
    pub fn note_bytes(&self, now: Option<Instant>) {
        self.came.set(now);
        self.some.set(true);
    }

    /// A response is being written.
    pub fn begin_write(&self) {
        self.writing.set(true);
    }

    /// Whether a response is being written.
    pub fn is_writing(&self) -> bool {
        self.writing.get()
    }

    /// The time of this head, or of this response, is over.
    pub fn pass(&self) {
        self.late.set(true);
    }

    /// Whether the time of a head or a response was over.
    pub fn was_late(&self) -> bool {
        self.late.get()
    }

    /// Whether it was that of a head of which no byte came.
    pub fn was_idle(&self) -> bool {
        self.late.get() && !self.some.get()
    }

    /// What is left of the time of this head, which begins when it is first waited for; `None` where it is over.
    fn left(&self, now: Instant) -> Option<Duration> {
        let Some(at) = self.at.get() else {
            self.at.set(now.checked_add(self.patience));
            return Some(self.patience);
        };
        let left = at.checked_duration_since(now)?;
        if left.is_zero() {
            return None;
        }
        Some(left)
    }

    /// Whether the stream has a timeout of that length, or of a little more.
    fn is_set(&self, left: Duration) -> bool {
        let Some(set) = self.set.get() else {
            return false;
        };
        match set.checked_sub(left) {
            Some(more) => more <= Duration::from_millis(SLACK_MILLIS),
            None => false,
        }
    }

    /// Lets a read of the stream wait this long.
    fn set_timeout(&self, stream: &TcpStream, left: Duration) -> io::Result<()> {
        if !self.is_set(left) {
            stream.set_read_timeout(Some(left))?;
            self.set.set(Some(left));
        }
        Ok(())
    }
}

/// How many times a call is made that a signal interrupts.
const TRIES: u32 = 1000;

/// Reads a stream. A read that is interrupted is made again.
fn read_again(mut stream: &TcpStream, buf: &mut [u8]) -> io::Result<usize>
    ensures count { IfOk result (λ n. n ≤ length buf.old) }
    ensures len { length buf.new ≡ length buf.old }
{
    for _ in 0..TRIES {
        match stream.read(buf) {
            Err(error) if error.kind() == ErrorKind::Interrupted => {}
            given => return given,
        }
    }
    Err(io::Error::from(ErrorKind::Interrupted))
}

/// Writes to a stream. A write that is interrupted is made again.
fn write_again(stream: &TcpStream, parts: Parts<'_>) -> io::Result<usize>
    ensures { IfOk result (λ n. n ≤ length (joined parts.entry)) }
{
    let slices = io_slices(parts);
    for _ in 0..TRIES {
        match stream.write_vectored(&slices) {
            Err(error) if error.kind() == ErrorKind::Interrupted => {}
            given => return given,
        }
    }
    Err(io::Error::from(ErrorKind::Interrupted))
}

/// Reads a stream, as long as the head that is waited for may take.
#[derive(Drop)]
pub struct HeadReader<'a, R: Clock> {
    pub runtime: &'a R,
    pub stream: &'a TcpStream,
    pub deadline: &'a Deadline,
}

impl<R: Clock> Read for HeadReader<'_, R> {
    fn read(&mut self, buf: &mut [u8]) -> io::Result<usize> {
        let now = Instant::now(self.runtime)?;
        let Some(left) = self.deadline.left(now) else {
            self.deadline.pass();
            return Err(io::Error::from(ErrorKind::TimedOut));
        };
        self.deadline.set_timeout(self.stream, left)?;
        match read_again(self.stream, buf) {
            Ok(count) => {
                self.deadline.note_bytes(Instant::now(self.runtime).ok());
                Ok(count)
            }
            Err(error) => {
                if error.kind() == ErrorKind::WouldBlock {
                    self.deadline.pass();
                }
                Err(error)
            }
        }
    }
}

/// Writes to a stream. Behind what is written the next head has a deadline of its own.
#[derive(Drop)]
pub struct ReplyWriter<'a> {
    pub stream: &'a TcpStream,
    pub deadline: &'a Deadline,
}

impl WritesParts for ReplyWriter<'_> {
    fn write_parts(&mut self, parts: Parts<'_>) -> io::Result<usize> {
        self.deadline.renew();
        let written = write_again(self.stream, parts);
        if let Err(error) = &written {
            if error.kind() == ErrorKind::WouldBlock {
                self.deadline.pass();
            }
        }
        written
    }
}
