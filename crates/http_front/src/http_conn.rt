//! A connection as a machine: what was read and not answered, and what is answered and not written. It never waits.

ghost use Rattle.std.specs.Prelude.{◌≡◌, ◌≢◌, ◌+◌, ◌≤◌, ◌<◌, ◌^◌, ◌++◌, ◌⊎◌, ℕ, List, [], true, false, None, Some, Option, length, take, drop, Ok, Err, IfOk, IfErr, IfSome, OnOk, OnErr};
ghost use Rattle.std.specs.Io.KnownBytes.{Appends, Consumes, IsAtEnd};
ghost use Rattle.http_message.specs.ReadBuffers.{unread};
ghost use Rattle.http_front.specs.UnderWays.{LacksSlice, StepsFrom, most_steps};
ghost use Rattle.byte_streams.specs.Counted.{reads_left, source_of};
ghost use Rattle.http_front.specs.Serving.{AddsBytes, BlamesSink, BlamesSource, IsSinkKind, Loses};
ghost use Rattle.byte_streams.specs.Texts.{AppendsFront};
ghost use Rattle.http_front.specs.Texts.{text_of};
ghost use Rattle.http_front.specs.Sharing.{Passes};

use crate::fault::FrontKind;
use crate::handler::Handler;
use crate::pace::{InSlices, Pace};
use crate::response::ResponseText;
use crate::step_slices::step_on;
use crate::steps::ServeStep;
use crate::under_way::{StepSlice, UnderWay};
use byte_streams::{
    CountedFault, CountedSource, READS, ReadAnswer, Sink, SinkFault, Source, WriteAnswer,
};
use http_message::{Clock, ReadBuffer, Site};
use std::alloc::Global;

/// What a turn came to.
#[derive(Clone, Copy, Debug, PartialEq, Eq)]
pub enum Turned {
    /// Something was done, and more can be.
    Moved,
    /// The last of a response is written.
    Sent,
    /// No bytes are there now.
    NoBytes,
    /// There is no room to write now.
    NoRoom,
    /// It is served to its end.
    Over,
}

/// What a connection waits for.
#[derive(Clone, Copy, Debug, PartialEq, Eq)]
pub enum Next {
    /// Room to write.
    Writes,
    /// Nothing: it is served to its end.
    Over,
    /// Bytes to read.
    Reads,
    /// A step.
    Steps,
    /// A slice more of the request that is under way.
    Works,
}

/// A connection: what was read and not answered, and what is answered and not written. What is answered goes out before more is read, so that it
/// holds the bytes of one read, those of a head that is not whole, and one response. `T` is a request that is under way (`Handler::Task`).
#[derive(Drop)]
pub struct HttpConn<T> {
    read_buffer: ReadBuffer,
    text: ResponseText,
    size: usize,
    sent: usize,
    eof: bool,
    needs_input: bool,
    over: bool,
    hand: Option<UnderWay<T>>,
    reads: u32,
    requests: u64,
    ghost sized: { size ≡ length (text_of text) },
    ghost sends: { sent ≤ size },
}

/// Skips so many bytes, or all where there are fewer.
#[tactic(auto, using(crate::proofs::RestLaws::skip_over))]
fn skip_up_to(read_buffer: &mut ReadBuffer, size: usize)
    ensures { unread read_buffer.new ≡ drop size (unread read_buffer.old) }
{
    let all = read_buffer.unread().len();
    if size < all {
        read_buffer.skip(size);
        return;
    }
    read_buffer.skip(all);
}

/// How many bytes the text of a slice has. Where the slice failed, or that is no number, the text is emptied.
fn sized<T: Drop>(
    alloc: Global,
    slice: Result<StepSlice<T>, FrontKind>,
    text: &mut ResponseText,
) -> Result<(StepSlice<T>, usize), FrontKind>
    ensures ok { IfOk result (λ r. (slice ≡ Ok r.0) × (text.new ≡ text.old) × (r.1 ≡ length (text_of text.new))) }
    ensures err { IfErr result (λ e. (slice ≡ Err e) ⊎ ((x : StepSlice T) × (slice ≡ Ok x) × (e ≡ FrontKind.NoMemory) × ¬ (text_of text.old ≡ []))) }
    ensures none { OnErr result (text_of text.new ≡ []) }
{
    match (slice, text.size()) {
        (Ok(slice), Some(size)) => Ok((slice, size)),
        (Ok(_), None) => {
            text.clear(alloc);
            Err(FrontKind::NoMemory)
        }
        (Err(why), _) => {
            text.clear(alloc);
            Err(why)
        }
    }
}

impl<T: Drop> HttpConn<T> {
    ghost use Rattle.http_front.specs.Talking.{CountsOn, Fails, StepFollows, GoesSo, IsNext, SliceLands, ConnStands, WantsSo, pending};

    /// Nothing came yet. It takes no memory.
    pub fn new(alloc: Global) -> HttpConn<T>
        ensures unread { unread result.read_buffer ≡ [] }
        ensures pending { pending result ≡ [] }
        ensures over { result.over ≡ false }
        ensures hand { result.hand ≡ None }
        ensures eof { result.eof ≡ false }
        ensures needs_input { result.needs_input ≡ true }
        ensures requests { result.requests ≡ 0 }
    {
        HttpConn {
            read_buffer: ReadBuffer::new(alloc),
            text: ResponseText::new(alloc),
            size: 0,
            sent: 0,
            eof: false,
            needs_input: true,
            over: false,
            hand: None,
            reads: READS,
            requests: 0,
        }
    }

    /// How many responses were made. Where there are more than 2^64 - 1, it is that.
    pub fn requests(&self) -> u64
        ensures { result ≡ self.now.requests }
    {
        self.requests
    }

    /// What it waits for. What is answered goes out before more is read or answered.
    pub fn next(&self) -> Next
        ensures { IsNext self.now result }
    {
        if self.sent < self.size {
            return Next::Writes;
        }
        if self.over {
            return Next::Over;
        }
        if self.hand.is_some() {
            return Next::Works;
        }
        if self.needs_input {
            return Next::Reads;
        }
        Next::Steps
    }

    /// Reads once, through a buffer.
    fn take_in<R: Source>(&mut self, reader: &mut R, buffer: &mut [u8]) -> Result<Turned, FrontKind>
        requires room { 0 < length buffer.old }
        ensures took { (bytes : List ℕ) × Consumes (R.remaining reader.old) (R.remaining reader.new) bytes × OnOk result (unread self.new.read_buffer ≡ unread self.old.read_buffer ++ bytes) }
        ensures text { pending self.new ≡ pending self.old }
        ensures over { self.new.over ≡ self.old.over }
        ensures hand { self.new.hand ≡ self.old.hand }
        ensures eof { self.new.eof ≡ true → (self.old.eof ≡ true) ⊎ IsAtEnd (R.remaining reader.new) }
        ensures needs_input { self.new.needs_input ≡ true → self.old.needs_input ≡ true }
        ensures requests { self.new.requests ≡ self.old.requests }
        ensures lost { IfErr result (λ e. Loses (length buffer.new) (R.remaining reader.old) (R.remaining reader.new) e) }
        ensures source { BlamesSource result (R.failed reader.old) (R.failed reader.new) self.new.reads }
        ensures unwritten { result ≢ Err FrontKind.Write }
    {
        if self.reads == 0 {
            return Err(FrontKind::TooManyReads);
        }
        match reader.read(buffer) {
            Ok(ReadAnswer::End) => {
                self.eof = true;
                self.needs_input = false;
                Ok(Turned::Moved)
            }
            Ok(ReadAnswer::NotNow) => Ok(Turned::NoBytes),
            Ok(ReadAnswer::Bytes(count)) => match self.read_buffer.add(&buffer[..count]) {
                Ok(()) => {
                    self.reads -= 1;
                    self.needs_input = false;
                    Ok(Turned::Moved)
                }
                Err(_) => Err(FrontKind::NoMemory),
            },
            Err(_) => Err(FrontKind::Read),
        }
    }

    /// Drops what is written. A large body goes back to the handler, so that its room is used again.
    fn forget_text<H: Handler>(&mut self, alloc: Global, handler: &mut H)
        requires { self.old.sent ≡ self.old.size }
        ensures pending { pending self.new ≡ [] }
        ensures read_buffer { self.new.read_buffer ≡ self.old.read_buffer }
        ensures over { self.new.over ≡ self.old.over }
        ensures hand { self.new.hand ≡ self.old.hand }
        ensures eof { self.new.eof ≡ self.old.eof }
        ensures needs_input { self.new.needs_input ≡ self.old.needs_input }
        ensures requests { self.new.requests ≡ self.old.requests }
        ensures still { handler.new ≡ handler.old }
    {
        self.text.give_back(alloc, handler);
        self.text.release(alloc);
        self.sent = 0;
        self.size = 0;
    }

    /// Writes once.
    fn put_out<W: Sink, H: Handler>(
        &mut self,
        alloc: Global,
        sink: &mut W,
        handler: &mut H,
    ) -> Result<Turned, FrontKind>
        requires { self.old.sent < self.old.size }
        ensures wrote { (n : ℕ) × Appends (W.contents sink.old) (W.contents sink.new) (take n (pending self.old)) × (pending self.new ≡ drop n (pending self.old)) }
        ensures read_buffer { self.new.read_buffer ≡ self.old.read_buffer }
        ensures over { self.new.over ≡ self.old.over }
        ensures hand { self.new.hand ≡ self.old.hand }
        ensures eof { self.new.eof ≡ self.old.eof }
        ensures needs_input { self.new.needs_input ≡ self.old.needs_input }
        ensures requests { self.new.requests ≡ self.old.requests }
        ensures still { handler.new ≡ handler.old }
        ensures kinds { IfErr result IsSinkKind }
        ensures sink { BlamesSink result (W.failed sink.old) (W.failed sink.new) }
    {
        match sink.write_parts(self.text.rest(self.sent)) {
            Ok(WriteAnswer::Bytes(count)) => {
                self.sent += count;
                if self.sent == self.size {
                    self.forget_text(alloc, handler);
                    return Ok(Turned::Sent);
                }
                Ok(Turned::Moved)
            }
            Ok(WriteAnswer::NotNow) => Ok(Turned::NoRoom),
            Err(SinkFault::Failed) => Err(FrontKind::Write),
            Err(SinkFault::NoMemory) => Err(FrontKind::NoMemory),
        }
    }

    /// Writes all of what a step made, of which nothing has gone out, into a sink that waits. Where the sink fails the rest is dropped.
    pub(crate) fn put_all<W: Sink, H: Handler>(
        &mut self,
        alloc: Global,
        sink: &mut W,
        handler: &mut H,
    ) -> Result<(), FrontKind>
        requires { self.old.sent ≡ 0 }
        ensures ok { IfOk result (λ u. Appends (W.contents sink.old) (W.contents sink.new) (pending self.old)) }
        ensures err { IfErr result (λ e. IsSinkKind e × AppendsFront (W.contents sink.old) (W.contents sink.new) (pending self.old)) }
        ensures blames { BlamesSink result (W.failed sink.old) (W.failed sink.new) }
        ensures pending { pending self.new ≡ [] }
        ensures read_buffer { self.new.read_buffer ≡ self.old.read_buffer }
        ensures over { self.new.over ≡ self.old.over }
        ensures eof { self.new.eof ≡ self.old.eof }
        ensures needs_input { self.new.needs_input ≡ self.old.needs_input }
        ensures requests { self.new.requests ≡ self.old.requests }
        ensures still { handler.new ≡ handler.old }
    {
        let written = self.text.write(sink);
        self.sent = self.size;
        self.forget_text(alloc, handler);
        match written {
            Ok(()) => Ok(()),
            Err(SinkFault::Failed) => Err(FrontKind::Write),
            Err(SinkFault::NoMemory) => Err(FrontKind::NoMemory),
        }
    }

    /// Reads once, through a buffer, from a source that is read so many times at most.
    pub(crate) fn take_counted<R: Source>(
        &mut self,
        reader: &mut CountedSource<R>,
        buffer: &mut [u8],
    ) -> Result<(), FrontKind>
        requires room { length buffer.old ≡ 8192 }
        requires more { self.old.eof ≡ false }
        ensures ok { OnOk result (AddsBytes (R.remaining (source_of reader.old)) (R.remaining (source_of reader.new)) (unread self.old.read_buffer) (unread self.new.read_buffer) 8192 self.new.eof) }
        ensures waits { OnOk result (self.new.needs_input ≡ true → (self.new.eof ≡ false) × (unread self.new.read_buffer ≡ unread self.old.read_buffer)) }
        ensures err { IfErr result (λ e. Loses 8192 (R.remaining (source_of reader.old)) (R.remaining (source_of reader.new)) e) }
        ensures blames { BlamesSource result (R.failed (source_of reader.old)) (R.failed (source_of reader.new)) (reads_left reader.new) }
        ensures counted { OnOk result (reads_left reader.old ≡ reads_left reader.new + 1) }
        ensures unwritten { result ≢ Err FrontKind.Write }
        ensures pending { pending self.new ≡ pending self.old }
        ensures over { self.new.over ≡ self.old.over }
        ensures requests { self.new.requests ≡ self.old.requests }
        ensures room { length buffer.new ≡ 8192 }
    {
        match reader.read(buffer) {
            Ok(ReadAnswer::End) => {
                self.eof = true;
                self.needs_input = false;
                Ok(())
            }
            Ok(ReadAnswer::NotNow) => Ok(()),
            Ok(ReadAnswer::Bytes(count)) => {
                let read = &buffer[..count];
                match self.read_buffer.add(read) {
                    Ok(()) => {
                        self.needs_input = false;
                        Ok(())
                    }
                    Err(_) => Err(FrontKind::NoMemory),
                }
            }
            Err(CountedFault::Failed) => Err(FrontKind::Read),
            Err(CountedFault::TooManyReads) => Err(FrontKind::TooManyReads),
        }
    }

    /// What follows a step: its text is there.
    fn follow(&mut self, step: ServeStep)
        requires going { self.old.over ≡ false }
        ensures follows { StepFollows step self.old self.new }
        ensures text { self.new.text ≡ self.old.text }
        ensures sent { self.new.sent ≡ self.old.sent }
        ensures hand { self.new.hand ≡ self.old.hand }
        ensures eof { self.new.eof ≡ self.old.eof }
    {
        match step {
            ServeStep::More => self.needs_input = true,
            ServeStep::Done => self.over = true,
            ServeStep::Stays(size) => {
                skip_up_to(&mut self.read_buffer, size);
                self.requests = self.requests.saturating_add(1);
            }
            ServeStep::Closes(size) => {
                skip_up_to(&mut self.read_buffer, size);
                self.requests = self.requests.saturating_add(1);
                self.over = true;
            }
            ServeStep::Refused => {
                self.requests = self.requests.saturating_add(1);
                self.over = true;
            }
        }
    }

    /// A slice of a step: of the request that is in hand, or on the bytes at hand.
    pub(crate) fn step<H: Handler, K: Clock, P: Pace<H, Task = T>>(
        &mut self,
        alloc: Global,
        site: &Site,
        handler: &mut H,
        number: u64,
        clock: &mut K,
    ) -> Result<Turned, FrontKind>
        requires open { H.is_open handler.old number }
        requires going { self.old.over ≡ false }
        ensures open { H.is_open handler.new number }
        ensures beside { (from : H) → H.beside from number handler.old → H.beside from number handler.new }
        ensures clock { (from : K) → Passes K.tells from clock.old → Passes K.tells from clock.new }
        ensures did { OnOk result ((x : StepSlice T) × StepsFrom site.now (λ old. P.comes old number) (λ old. P.rests old number) K.tells self.old.hand handler.old
            clock.old (unread self.old.read_buffer) self.old.eof x (pending self.new) handler.new clock.new
            × SliceLands x self.old self.new) }
        ensures eof { self.new.eof ≡ self.old.eof }
        ensures lacks { IfErr result (LacksSlice site.now (λ old. H.lacks old number) (λ old. P.lacks_rest old number) self.old.hand handler.old (unread self.old.read_buffer) self.old.eof handler.new) }
        ensures none { OnErr result (pending self.new ≡ []) }
        ensures sent { self.new.sent ≡ 0 }
        ensures few { P.steps handler.old number (most_steps self.old.hand) handler.new }
    {
        self.sent = 0;
        self.size = 0;
        let hand = self.hand.take();
        let seen = self.read_buffer.unread();
        let did = step_on::<H, K, P>(
            alloc,
            seen,
            self.eof,
            hand,
            site,
            handler,
            number,
            clock,
            &mut self.text,
        );
        let (slice, size) = sized(alloc, did, &mut self.text)?;
        self.size = size;
        match slice {
            StepSlice::Did(step) => self.follow(step),
            StepSlice::Works(under_way) => self.hand = Some(under_way),
        }
        Ok(Turned::Moved)
    }

    /// One turn: a write, a read, or a slice of a step, whichever it waits for. It waits for nothing, where source and sink do not. `number` is that of the
    /// connection with which the handler serves it; that connection is open.
    pub fn turn<R: Source, W: Sink, H: Handler<Task = T>, K: Clock>(
        &mut self,
        alloc: Global,
        reader: &mut R,
        sink: &mut W,
        site: &Site,
        handler: &mut H,
        number: u64,
        clock: &mut K,
        buffer: &mut [u8],
    ) -> Result<Turned, FrontKind>
        requires open { H.is_open handler.old number }
        requires room { 0 < length buffer.old }
        ensures open { H.is_open handler.new number }
        ensures own { (bytes text : List ℕ) × Consumes (R.remaining reader.old) (R.remaining reader.new) bytes × Appends (W.contents sink.old) (W.contents sink.new) text
            × ((start : H) (first : K) (came went : List ℕ) → ConnStands site.now (λ old. H.among old number) (λ old. H.rests old number) K.tells
            (λ old new. H.apart old number new) start first came went self.old handler.old clock.old
            → GoesSo site.now (λ old. H.among old number) (λ old. H.rests old number) K.tells (λ old new. H.apart old number new) start first (came ++ bytes)
            (went ++ text) result self.new handler.new clock.new) }
        ensures others { (k : ℕ) → k ≢ number → (start : H) (first : K) (came went : List ℕ) (other : HttpConn T)
            → ConnStands site.now (λ old. H.among old k) (λ old. H.rests old k) K.tells (λ old new. H.apart old k new) start first came went other handler.old clock.old
            → ConnStands site.now (λ old. H.among old k) (λ old. H.rests old k) K.tells (λ old new. H.apart old k new) start first came went other handler.new clock.new }
        ensures eof { self.new.eof ≡ true → (self.old.eof ≡ true) ⊎ IsAtEnd (R.remaining reader.new) }
        ensures fails { IfErr result (Fails site.now (λ old. H.lacks old number) (λ old. H.lacks_rest old number) (length buffer.new) (R.remaining reader.old)
            (R.remaining reader.new) handler.old handler.new self.old) }
        ensures none { OnErr result (pending self.old ≡ [] → pending self.new ≡ []) }
        ensures few { H.steps handler.old number (most_steps self.old.hand) handler.new }
        ensures needs_input { OnOk result (WantsSo self.old self.new) }
        ensures counted { OnOk result (CountsOn self.old self.new) }
        ensures source { BlamesSource result (R.failed reader.old) (R.failed reader.new) self.new.reads }
        ensures sink { BlamesSink result (W.failed sink.old) (W.failed sink.new) }
    {
        match self.next() {
            Next::Writes => self.put_out(alloc, sink, handler),
            Next::Over => Ok(Turned::Over),
            Next::Reads => self.take_in(reader, buffer),
            _ => self.step::<H, K, InSlices>(alloc, site, handler, number, clock),
        }
    }
}
