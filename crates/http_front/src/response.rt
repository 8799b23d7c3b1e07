//! The text of a response, in the parts that are written.

ghost use Rattle.std.specs.Prelude.{◌≡◌, [], IfSome, None, length, drop};
ghost use Rattle.byte_streams.specs.Texts.{IsPut, joined};
ghost use Rattle.http_front.specs.Texts.{text_of};

use crate::handler::Handler;
use byte_streams::{Parts, Sink, SinkFault};
use filter_chain::BlockBytes;
use std::alloc::Global;
use std::mem;

/// How large a buffer is at most that a connection keeps while it has nothing to write.
const KEPT_BYTES: usize = 4096;

/// The text of a response, in parts that are written together. A body of more than 2 KiB lies as the handler gave it; with a smaller one the
/// whole text lies in the first part. The buffers keep their room from one response to the next.
#[derive(Drop)]
pub struct ResponseText {
    /// The head, and the line with the size of the chunk. Or the whole text.
    pub head: Vec<u8>,
    /// The body, where it is large.
    pub body: BlockBytes,
    /// What follows a large body: the end of its chunks.
    pub tail: Vec<u8>,
}

impl ResponseText {
    /// No text. It takes no memory.
    pub fn new(alloc: Global) -> ResponseText
        ensures { text_of result ≡ [] }
    {
        ResponseText {
            head: Vec::new(alloc),
            body: BlockBytes::new(alloc),
            tail: Vec::new(alloc),
        }
    }

    /// Empties it. The buffers keep their room; that of a body that was not given back is lost.
    pub(crate) fn clear(&mut self, alloc: Global)
        ensures head { self.new.head.items ≡ [] }
        ensures body { self.new.body ≡ [] }
        ensures tail { self.new.tail.items ≡ [] }
        ensures none { text_of self.new ≡ [] }
    {
        self.head.clear();
        self.body = BlockBytes::new(alloc);
        self.tail.clear();
    }

    /// Empties it, and keeps no large buffer.
    pub(crate) fn release(&mut self, alloc: Global)
        ensures { text_of self.new ≡ [] }
    {
        self.clear(alloc);
        if self.head.capacity() > KEPT_BYTES {
            self.head = Vec::new(alloc);
        }
    }

    /// How many bytes it has, where that is a number.
    pub(crate) fn size(&self) -> Option<usize>
        ensures some { IfSome result (λ n. n ≡ length (text_of self.now)) }
        ensures none { result ≡ None → ¬ (text_of self.now ≡ []) }
    {
        let opening = self.head.len().checked_add(self.body.as_slice().len())?;
        let size = opening.checked_add(self.tail.len())?;
        Some(size)
    }

    fn parts(&self) -> Parts<'_>
        ensures { joined result ≡ text_of self.now }
    {
        Parts {
            first: self.head.as_slice(),
            second: self.body.as_slice(),
            third: self.tail.as_slice(),
        }
    }

    /// What follows a place.
    pub(crate) fn rest(&self, at: usize) -> Parts<'_>
        ensures { joined result ≡ drop at (text_of self.now) }
    {
        self.parts().behind(at)
    }

    /// Writes all of it. `Failed`, `NoMemory`: a front of the text is written, but not all of it.
    pub fn write<W: Sink>(&self, sink: &mut W) -> Result<(), SinkFault>
        ensures { IsPut (W.contents sink.old) (W.contents sink.new) (W.failed sink.old) (W.failed sink.new) (text_of self.now) result }
    {
        sink.put_parts(self.parts())
    }

    /// Gives a large body back to the handler that it is from, so that its room is used again.
    pub fn give_back<H: Handler>(&mut self, alloc: Global, handler: &mut H)
        ensures { handler.new ≡ handler.old }
    {
        handler.give_back(mem::replace(&mut self.body, BlockBytes::new(alloc)));
    }
}
