//! The events of a connection, and what they answer.

use crate::fault::FaultKind;
use module_code::{Seq, Status};
use thiserror::Error;

/// A part of a brought brigade.
#[derive(Drop)]
pub enum Piece {
    /// A HEAP bucket of these bytes.
    Heap(Seq<u8>),
    /// A TRANSIENT bucket of these bytes, which last as long as the call that it is brought to.
    Transient(Seq<u8>),
    /// An IMMORTAL bucket of these bytes.
    Immortal(Seq<u8>),
    /// A POOL bucket of these bytes in the request's pool.
    Pool(Seq<u8>),
    /// A FILE bucket: `len` bytes, from the byte `start` on, of a file that was opened in this request.
    File { file: u64, start: u64, len: u64 },
    /// A FLUSH bucket.
    Flush,
    /// An EOS bucket.
    Eos,
}

/// Why a connection serves nothing but its output, its labels and its close any more.
#[derive(Clone, Copy, Debug, Error)]
pub enum Cause {
    /// An instruction had a fault.
    #[error("an instruction had a fault")]
    Faulted,
    /// A step found no memory.
    #[error("no memory")]
    NoMemory,
    /// A step would have had to give out the name 2^64 - 1.
    #[error("no name is left")]
    NamesSpent,
    /// The steps of a call met the budget.
    #[error("the budget of steps was met")]
    OutOfSteps,
}

/// Why an event was refused, in the order in which the tests are made.
#[derive(Clone, Copy, Debug, Error)]
pub enum Refusal {
    /// There is no such connection.
    #[error("no such connection")]
    NoSuchConn,
    /// The connection is broken.
    #[error("the connection is broken: {0}")]
    Broken(Cause),
    /// A call is running.
    #[error("a call is running")]
    Busy,
    /// No call is running.
    #[error("no call is running")]
    Idle,
    /// A request is open.
    #[error("a request is open")]
    InRequest,
    /// No request is open.
    #[error("no request is open")]
    NotInRequest,
    /// Data stands after an EOS among the pieces.
    #[error("data after an EOS")]
    DataAfterEos,
    /// A file is not there, was not opened in this request, or is shorter than the range.
    #[error("no such file, or a range that it does not have")]
    NoFile,
    /// The device failed in this call, and told nothing of the file.
    #[error("the device failed")]
    FileFailed,
    /// A name that would have to be given out is 2^64 - 1.
    #[error("no name is left")]
    NamesSpent,
    /// There is no memory.
    #[error("no memory")]
    NoMemory,
}

/// What a step answers.
#[derive(Clone, Copy)]
pub enum Stepped {
    /// The call goes on.
    Went,
    /// The outermost call, or the last `open` or `init`, ended.
    CallEnded(Status),
    /// The instruction `pc` of module `module` has a fault.
    Fault {
        kind: FaultKind,
        module: u64,
        pc: u64,
    },
}

/// Where an instruction leads.
#[derive(Clone, Copy)]
pub enum Exit {
    /// To the next instruction.
    GoOn,
    /// To the instruction that it names.
    Jump,
    /// Out of the handler.
    Return,
}

/// Why an instruction that has no fault was not executed.
#[derive(Clone, Copy, Debug, Error)]
pub enum StepRefusal {
    /// A name that it would have to give out is 2^64 - 1.
    #[error("no name is left")]
    NamesSpent,
    /// There is no memory.
    #[error("no memory")]
    NoMemory,
}

/// What can happen to a connection.
#[derive(Drop)]
pub enum Event {
    /// The connection is opened.
    Open,
    /// A file of this name and these bytes is added.
    AddFile(Seq<u8>, Seq<u8>),
    /// A request begins.
    Begin,
    /// The file of this name is opened.
    OpenFile(Seq<u8>),
    /// A brigade of these pieces comes.
    Bring(Seq<Piece>),
    /// One instruction is executed, or the connection breaks.
    Step,
    /// The request ends.
    End,
    /// The output is taken.
    TakeOutput,
    /// The labels run are told.
    TellLabels,
    /// The connection is closed.
    Close,
    /// The pools are told.
    TellPools,
}
