//! A socket that does not wait. A call that a signal interrupts is made again.

ghost use Rattle.std.specs.Prelude.{◌≡◌, ◌≤◌, IfOk, length};
ghost use Rattle.byte_streams.specs.Texts.{joined};

use byte_streams::{Parts, WritesParts, io_slices};
use mio::net::TcpStream;
use std::io::{self, ErrorKind, Read};

/// How many times a call is made that a signal interrupts.
const TRIES: u32 = 1000;

/// A socket that does not wait.
#[derive(Drop)]
pub struct Socket<'a> {
    pub stream: &'a TcpStream,
    /// The last read gave fewer bytes than there was room for. Nothing else was there then, but the end, or what is behind urgent data.
    pub drained: bool,
}

impl<'a> Socket<'a> {
    pub fn new(stream: &'a TcpStream) -> Socket<'a> {
        Socket {
            stream,
            drained: false,
        }
    }
}

impl Read for Socket<'_> {
    fn read(&mut self, buf: &mut [u8]) -> io::Result<usize> {
        let mut stream = self.stream;
        for _ in 0..TRIES {
            match stream.read(buf) {
                Err(error) if error.kind() == ErrorKind::Interrupted => {}
                Ok(count) => {
                    self.drained = count < buf.len();
                    return Ok(count);
                }
                Err(error) => return Err(error),
            }
        }
        Err(io::Error::from(ErrorKind::Interrupted))
    }
}

impl WritesParts for Socket<'_> {
    fn write_parts(&mut self, parts: Parts<'_>) -> io::Result<usize> {
        let slices = io_slices(parts);
        for _ in 0..TRIES {
            match self.stream.write_vectored(&slices) {
                Err(error) if error.kind() == ErrorKind::Interrupted => {}
                given => return given,
            }
        }
        Err(io::Error::from(ErrorKind::Interrupted))
    }
}
