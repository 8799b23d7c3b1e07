//! A body, from a reader through a chain to a writer.

ghost use Rattle.std.specs.Prelude.{◌≢◌, IfOk, IfErr};
ghost use Rattle.body_filter.specs.Prelude.{IsFiltered, IsFilteredUpTo, TellsOfReader, TellsOfWriter, Writes, faulted, reads_left, source_of};

use crate::calls::run_out;
use crate::ending::{BodyEnd, body_end};
pub use crate::feeding::MOST_READ_BYTES;
use crate::feeding::feed;
use byte_streams::{CountedSource, Sink, Source};
use filter_chain::{CheckedChain, Host, Limits, MemFiles, RawRings, Rings, Stored};
use http_message::Failure;
use module_commands::PlayFault;
use std::alloc::Global;

/// Filters a body on a host over these rings.
fn filter_over<R: Rings<Stored> + Drop, S: Source, W: Sink>(
    alloc: Global,
    chain: CheckedChain,
    limits: Limits,
    reader: &mut CountedSource<S>,
    writer: &mut W,
) -> Result<BodyEnd, PlayFault>
    ensures ok { IfOk result (λ e. Writes (S.remaining (source_of reader.old)) (W.contents writer.old) (W.contents writer.new)
        (λ body text. IsFiltered limits.budget chain body text e)) }
    ensures err { IfErr result (λ f. Writes (S.remaining (source_of reader.old)) (W.contents writer.old) (W.contents writer.new)
        (λ body text. IsFilteredUpTo limits.budget chain body (S.remaining (source_of reader.new)) text f)) }
    ensures safe { IfOk result (λ e. e ≢ BodyEnd.Cut faulted) }
    ensures reader { TellsOfReader (S.failed (source_of reader.old)) (S.failed (source_of reader.new)) (reads_left reader.new) result }
    ensures writer { TellsOfWriter (W.failed writer.old) (W.failed writer.new) result }
{
    let mut host = Host::<MemFiles, R>::checked(alloc, MemFiles::new(alloc), chain, limits)?;
    match host.open_conn() {
        Ok(number) => {
            run_out(&mut host, number);
            Ok(body_end(feed(alloc, &mut host, number, reader, writer)?))
        }
        Err(refusal) => Ok(BodyEnd::Cut(Failure::Refused(refusal))),
    }
}

/// Filters the body that a reader gives: what comes out of the chain is written, read by read, so that memory is bounded by what the filters hold.
/// A request begins on a new host of the chain; each read of at most `MOST_READ_BYTES` is brought as one HEAP bucket in a brigade, and the end as an EOS
/// in a brigade. What comes out of a call is written before more is read, however the call ends. The first call that does not succeed is the last.
///
/// `Read`: the reader failed, or gave no end within the reads that were left to it; what comes out of all that was read is written. `Write`: the writer
/// failed; of what comes out of what was read it took a front, but not all of it. `NoMemory`: there was none for the host, for what was read, or in the
/// writer; a front of what comes out is written.
///
/// The chain was accepted, so no call has a fault.
///
/// What is written is promised where it is known what the reader had left and what the writer holds, as of a slice and a `Vec`.
pub fn run_filter<S: Source, W: Sink>(
    alloc: Global,
    chain: CheckedChain,
    limits: Limits,
    reader: &mut CountedSource<S>,
    writer: &mut W,
) -> Result<BodyEnd, PlayFault>
    ensures ok { IfOk result (λ e. Writes (S.remaining (source_of reader.old)) (W.contents writer.old) (W.contents writer.new)
        (λ body text. IsFiltered limits.budget chain body text e)) }
    ensures err { IfErr result (λ f. Writes (S.remaining (source_of reader.old)) (W.contents writer.old) (W.contents writer.new)
        (λ body text. IsFilteredUpTo limits.budget chain body (S.remaining (source_of reader.new)) text f)) }
    ensures safe { IfOk result (λ e. e ≢ BodyEnd.Cut faulted) }
    ensures reader { TellsOfReader (S.failed (source_of reader.old)) (S.failed (source_of reader.new)) (reads_left reader.new) result }
    ensures writer { TellsOfWriter (W.failed writer.old) (W.failed writer.new) result }
{
    filter_over::<RawRings<Stored>, S, W>(alloc, chain, limits, reader, writer)
}
