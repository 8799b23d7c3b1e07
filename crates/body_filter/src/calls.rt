//! The calls that events begin, and what comes out of them.

ghost use Rattle.std.specs.Prelude.{◌≡◌, ◌≢◌, ℕ, List, [], Some, IfOk};
ghost use Rattle.std.specs.Result.{result_unwrap_or};
ghost use Rattle.body_filter.specs.Prelude.{Program, World, HostView, IsAlive, IsHosting, IsSafe, PutsEnd, PutsOut, Refines, RunsOut, RunsOutUnless, TellsOfWriter, WritesText};
ghost use Rattle.body_filter.specs.Prelude.{IsUnfaulted, done_answer, failure_of, faulted, files_of, output_in, refusal_of};

use byte_streams::Sink;
use filter_chain::{Cause, Files, Host, Refusal, Rings, Stepped, Stored};
use http_message::Failure;
use module_code::Status;
use module_commands::{PlayFault, write_text};

/// Why a call did not succeed, by the answer of its last step.
fn failure_of(answer: Result<Stepped, Refusal>) -> Option<Failure>
    ensures { result ≡ failure_of answer }
{
    match answer {
        Ok(Stepped::CallEnded(Status::Success)) => None,
        Ok(Stepped::CallEnded(Status::Fail)) => Some(Failure::Filter),
        Ok(Stepped::Went | Stepped::Fault { .. }) => {
            Some(Failure::Refused(Refusal::Broken(Cause::Faulted)))
        }
        Err(refusal) => Some(Failure::Refused(refusal)),
    }
}

/// Makes the steps of a call to its end. Answers why it did not succeed.
pub(crate) fn run_out<F: Files + Drop, R: Rings<Stored> + Drop>(
    host: &mut Host<F, R>,
    number: u64,
) -> Option<Failure>
    requires { IsAlive F.device host.old }
    ensures leads { Refines F.device host.old host.new (λ (b : ℕ) (c : List Program) (s t : HostView). RunsOut b c number s result t) }
    ensures safe { IsSafe host.old → result ≢ Some faulted }
{
    failure_of(host.run(number))
}

/// Makes the steps of a call that an event began, if it did.
fn run_begun<F: Files + Drop, R: Rings<Stored> + Drop>(
    host: &mut Host<F, R>,
    number: u64,
    begun: Result<(), Refusal>,
) -> Option<Failure>
    requires { IsAlive F.device host.old }
    ensures leads { Refines F.device host.old host.new (λ (b : ℕ) (c : List Program) (s t : HostView). RunsOutUnless b c number (refusal_of begun) s result t) }
    ensures safe { IsSafe host.old → IsUnfaulted (done_answer (refusal_of begun)) → result ≢ Some faulted }
{
    match begun {
        Ok(()) => run_out(host, number),
        Err(refusal) => Some(Failure::Refused(refusal)),
    }
}

/// Writes the output, which stays.
fn write_output<F: Files + Drop, R: Rings<Stored> + Drop, W: Sink>(
    host: &Host<F, R>,
    number: u64,
    writer: &mut W,
) -> Result<(), PlayFault>
    ensures writes { (w : World) → IsHosting (F.device (files_of host.now)) host.now w
        → WritesText (W.contents writer.old) (W.contents writer.new) (result_unwrap_or (output_in (w.conns number)) []) result }
    ensures writer { TellsOfWriter (W.failed writer.old) (W.failed writer.new) result }
{
    match host.output(number) {
        Ok(bytes) => write_text(writer, bytes),
        Err(_) => Ok(()),
    }
}

/// Writes the output, and takes it, also where it cannot be written.
fn put_output<F: Files + Drop, R: Rings<Stored> + Drop, W: Sink>(
    host: &mut Host<F, R>,
    number: u64,
    writer: &mut W,
) -> Result<(), PlayFault>
    requires { IsAlive F.device host.old }
    ensures leads { Refines F.device host.old host.new (λ (b : ℕ) (c : List Program) (s t : HostView). PutsOut b c number
        (W.contents writer.old) (W.contents writer.new) result s t) }
    ensures writer { TellsOfWriter (W.failed writer.old) (W.failed writer.new) result }
{
    let written = write_output(host, number, writer);
    let _ = host.clear_output(number);
    written
}

/// Makes the steps of a call that an event began, if it did, and writes what comes out, however it ends. Answers why it did not succeed.
///
/// `Write`: the writer failed. `NoMemory`: the writer had none.
pub(crate) fn end_call<F: Files + Drop, R: Rings<Stored> + Drop, W: Sink>(
    host: &mut Host<F, R>,
    number: u64,
    begun: Result<(), Refusal>,
    writer: &mut W,
) -> Result<Option<Failure>, PlayFault>
    requires { IsAlive F.device host.old }
    ensures leads { Refines F.device host.old host.new (λ (b : ℕ) (c : List Program) (s t : HostView). PutsEnd b c number
        (W.contents writer.old) (W.contents writer.new)
        (refusal_of begun) result s t) }
    ensures safe { IsSafe host.old → IsUnfaulted (done_answer (refusal_of begun)) → IfOk result (λ how. how ≢ Some faulted) }
    ensures writer { TellsOfWriter (W.failed writer.old) (W.failed writer.new) result }
{
    let how = run_begun(host, number, begun);
    put_output(host, number, writer)?;
    Ok(how)
}
