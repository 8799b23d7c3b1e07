//! The numbers that calls answer: the `CIDAWRU_` numbers of `cidawru.h`.

ghost use Rattle.std.specs.Prelude.{◌≡◌, ◌≢◌};
ghost use Rattle.run_model.specs.Worlds.{Refused};
ghost use Rattle.filter_chain.specs.Hosting.{close_answer, done_answer, step_answer};
ghost use Rattle.filter_chain.specs.Safe.{GoesWell, IsUnfaulted};
ghost use Rattle.module_run.specs.Happened.{refusal_of};
ghost use Rattle.host_lib.specs.Codes.{cause_code, close_code, done_code, piece_code, refusal_code, run_code};

use crate::pieces::PieceRefusal;
use filter_chain::{Cause, LabelsRun, Refusal, Stepped};
use module_code::Status;

/// It was done; a call ended well.
pub(crate) const DONE: u32 = 0;
/// The call ended, and the filter failed.
pub(crate) const FAILED: u32 = 1;
/// So many steps were made, and the call goes on.
pub(crate) const GOES_ON: u32 = 2;
/// There is no memory, and no connection is changed.
pub(crate) const NO_MEMORY: u32 = 3;
/// No name is left to give out.
pub(crate) const NO_NAMES: u32 = 4;
/// The connection is broken: there was no memory.
pub(crate) const BROKE_MEMORY: u32 = 5;
/// The connection is broken: no name was left.
pub(crate) const BROKE_NAMES: u32 = 6;
/// The connection is broken: a call met the budget.
pub(crate) const BROKE_BUDGET: u32 = 7;
/// No connection has the number.
pub(crate) const NO_CONNECTION: u32 = 8;
/// A call is running.
pub(crate) const BUSY: u32 = 9;
/// No call is running.
pub(crate) const IDLE: u32 = 10;
/// A request is open.
pub(crate) const IN_REQUEST: u32 = 11;
/// No request is open.
pub(crate) const NOT_IN_REQUEST: u32 = 12;
/// Data stands behind an EOS among the pieces.
pub(crate) const AFTER_EOS: u32 = 13;
/// There is no such kind of piece.
pub(crate) const NO_KIND: u32 = 14;
/// The handle holds no session.
pub(crate) const NO_SESSION: u32 = 15;
/// Of a file; no piece is one.
pub(crate) const NO_FILE: u32 = 16;
/// An instruction had a fault, now or before, which no call of a checked chain answers.
pub(crate) const FAULT: u32 = 17;

fn broken(why: Cause) -> u32
    ensures code { result ≡ cause_code why }
    ensures faultless { why ≢ Cause.Faulted → result ≢ FAULT }
{
    match why {
        Cause::Faulted => FAULT,
        Cause::NoMemory => BROKE_MEMORY,
        Cause::NamesSpent => BROKE_NAMES,
        Cause::OutOfSteps => BROKE_BUDGET,
    }
}

/// The number of a refusal.
pub(crate) fn refused(refusal: Refusal) -> u32
    ensures code { result ≡ refusal_code refusal }
    ensures faultless { IsUnfaulted (Refused refusal) → result ≢ FAULT }
{
    match refusal {
        Refusal::NoSuchConn => NO_CONNECTION,
        Refusal::Broken(why) => broken(why),
        Refusal::Busy => BUSY,
        Refusal::Idle => IDLE,
        Refusal::InRequest => IN_REQUEST,
        Refusal::NotInRequest => NOT_IN_REQUEST,
        Refusal::DataAfterEos => AFTER_EOS,
        Refusal::NoFile => NO_FILE,
        Refusal::FileFailed => NO_FILE,
        Refusal::NamesSpent => NO_NAMES,
        Refusal::NoMemory => NO_MEMORY,
    }
}

/// The number of what an event answers that tells nothing else.
pub(crate) fn done(answer: Result<(), Refusal>) -> u32
    ensures code { result ≡ done_code (refusal_of answer) }
    ensures faultless { IsUnfaulted (done_answer (refusal_of answer)) → result ≢ FAULT }
{
    match answer {
        Ok(()) => DONE,
        Err(refusal) => refused(refusal),
    }
}

/// The number of what a close answers.
pub(crate) fn closed(answer: Result<Vec<LabelsRun>, Refusal>) -> u32
    ensures code { result ≡ close_code answer }
    ensures faultless { IsUnfaulted (close_answer answer) → result ≢ FAULT }
{
    match answer {
        Ok(_labels) => DONE,
        Err(refusal) => refused(refusal),
    }
}

/// The number of what steps answer.
pub(crate) fn stepped(answer: Result<Stepped, Refusal>) -> u32
    ensures code { result ≡ run_code answer }
    ensures faultless { GoesWell answer → IsUnfaulted (step_answer answer) → result ≢ FAULT }
{
    match answer {
        Ok(Stepped::Went) => GOES_ON,
        Ok(Stepped::CallEnded(Status::Success)) => DONE,
        Ok(Stepped::CallEnded(Status::Fail)) => FAILED,
        Ok(Stepped::Fault { .. }) => FAULT,
        Err(refusal) => refused(refusal),
    }
}

/// The number of what adding a piece answers.
pub(crate) fn added(answer: Result<(), PieceRefusal>) -> u32
    ensures code { result ≡ piece_code answer }
    ensures faultless { result ≢ FAULT }
{
    match answer {
        Ok(()) => DONE,
        Err(PieceRefusal::NoConnection) => NO_CONNECTION,
        Err(PieceRefusal::NoKind) => NO_KIND,
        Err(PieceRefusal::NoMemory) => NO_MEMORY,
    }
}
