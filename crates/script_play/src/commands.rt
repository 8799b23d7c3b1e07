//! The commands of a script, done by a host.

ghost use Rattle.std.specs.Prelude.{◌≡◌, ◌↔◌, false, true, IfOk, IsTrue};
ghost use Rattle.script_play.specs.Prelude.{is_there, World, refusal_of, IsHosting, done_answer, step_answer, GoesWell, IsSafe, is_due, is_fault, reply_of, MakesReady, IsMemHostAlive, IsServed};
ghost use Rattle.script_play.specs.Prelude.{device};

use crate::labels::labels_of;
use filter_chain::{
    AddRefusal, Host, MemFiles, Piece, Refusal, Rings, Seq, Stepped, Stored, TextWriter,
};
use script_text::{Command, CommandReply, FileLine, ScriptPiece};
use std::alloc::{AllocError, Global};

/// What a command answers by its refusal, if there is one.
fn done(outcome: Result<(), Refusal>) -> CommandReply
    ensures told { result ≡ reply_of (done_answer (refusal_of outcome)) }
    ensures faultless { is_fault result ≡ false }
{
    match outcome {
        Ok(()) => CommandReply::Done,
        Err(refusal) => CommandReply::Refused(refusal),
    }
}

fn open<R: Rings<Stored> + Drop>(host: &mut Host<MemFiles, R>) -> CommandReply
    requires { IsMemHostAlive host.old }
    ensures served { (w : World) → IsHosting (device host.old) host.old w → IsServed host.old host.new Command.Open result w }
    ensures faultless { is_fault result ≡ false }
{
    match host.open_conn() {
        Ok(number) => CommandReply::Connected(number),
        Err(refusal) => CommandReply::Refused(refusal),
    }
}

/// Adds a file of a name that no file has. It is an error where memory runs out for its bytes or its name.
#[inline(never)]
fn file<R: Rings<Stored> + Drop>(
    alloc: Global,
    host: &mut Host<MemFiles, R>,
    file: &FileLine,
) -> Result<CommandReply, AllocError>
    requires alive { IsMemHostAlive host.old }
    requires free { is_there ((device host.old).named file.now.name) ≡ false }
    ensures served { IfOk result (λ r. (w : World) → IsHosting (device host.old) host.old w → IsServed host.old host.new (Command.File file.now) r w) }
    ensures faultless { IfOk result (λ r. is_fault r ≡ false) }
{
    let bytes = file.bytes(alloc)?;
    match host.add_file(file.name.as_slice(), bytes) {
        Ok(()) => Ok(CommandReply::Done),
        Err(AddRefusal::NoMemory) => Err(AllocError),
        Err(AddRefusal::Taken) => unreachable!(),
    }
}

/// The piece to be brought. The file of a range is opened.
fn made_ready<R: Rings<Stored> + Drop>(
    host: &mut Host<MemFiles, R>,
    number: u64,
    piece: ScriptPiece,
) -> Result<Piece, Refusal>
    requires { IsMemHostAlive host.old }
    ensures { (w : World) → IsHosting (device host.old) host.old w → MakesReady host.old host.new number piece result w }
{
    match piece {
        ScriptPiece::Ready(piece) => Ok(piece),
        ScriptPiece::Range { name, start, len } => {
            match host.open_file(number, name.as_slice()) {
                Ok((file, _)) => Ok(Piece::File { file, start, len }),
                Err(refusal) => Err(refusal),
            }
        }
    }
}

/// Opens the files of the pieces, from left to right, and brings the pieces. The first refusal is the answer. An error is want of memory
/// for the list of pieces.
#[inline(never)]
fn bring<R: Rings<Stored> + Drop>(
    alloc: Global,
    host: &mut Host<MemFiles, R>,
    number: u64,
    pieces: Seq<ScriptPiece>,
) -> Result<CommandReply, AllocError>
    requires { IsMemHostAlive host.old }
    ensures served { IfOk result (λ r. (w : World) → IsHosting (device host.old) host.old w → IsServed host.old host.new (Command.Bring number pieces) r w) }
    ensures faultless { IfOk result (λ r. is_fault r ≡ false) }
{
    let mut ready = Seq::new(alloc);
    for piece in pieces.into_vec() {
        match made_ready(host, number, piece) {
            Ok(piece) => ready.push(piece)?,
            Err(refusal) => return Ok(CommandReply::Refused(refusal)),
        }
    }
    Ok(done(host.bring(number, ready)))
}

fn went(answer: &Result<Stepped, Refusal>) -> bool
    ensures { IsTrue result ↔ answer.now ≡ Ok Stepped.Went }
{
    matches!(answer, Ok(Stepped::Went))
}

/// What the last of some steps answers.
fn stepped(answer: Result<Stepped, Refusal>) -> CommandReply
    ensures { result ≡ reply_of (step_answer answer) }
{
    match answer {
        Ok(stepped) => CommandReply::Stepped(stepped),
        Err(refusal) => CommandReply::Refused(refusal),
    }
}

/// Makes so many steps, or fewer where a call has ended or more is refused.
fn step<R: Rings<Stored> + Drop>(
    host: &mut Host<MemFiles, R>,
    number: u64,
    count: u64,
) -> CommandReply
    requires { IsMemHostAlive host.old }
    ensures served { (w : World) → IsHosting (device host.old) host.old w → IsServed host.old host.new (Command.Step number count) result w }
    ensures safe { IsSafe host.old → is_fault result ≡ false }
{
    let answer = host.step_up_to(number, count);
    if went(&answer) {
        return CommandReply::Went(count);
    }
    stepped(answer)
}

/// Makes steps until a call has ended or more is refused.
fn run<R: Rings<Stored> + Drop>(host: &mut Host<MemFiles, R>, number: u64) -> CommandReply
    requires { IsMemHostAlive host.old }
    ensures served { (w : World) → IsHosting (device host.old) host.old w → IsServed host.old host.new (Command.Run number) result w }
    ensures safe { IsSafe host.old → is_fault result ≡ false }
{
    stepped(host.run(number))
}

fn output<R: Rings<Stored> + Drop>(host: &mut Host<MemFiles, R>, number: u64) -> CommandReply
    requires { IsMemHostAlive host.old }
    ensures served { (w : World) → IsHosting (device host.old) host.old w → IsServed host.old host.new (Command.Output number) result w }
    ensures faultless { is_fault result ≡ false }
{
    match host.take_output(number) {
        Ok(bytes) => CommandReply::Output(bytes),
        Err(refusal) => CommandReply::Refused(refusal),
    }
}

/// The labels run so far. It is an error where memory runs out for the answer.
#[inline(never)]
fn labels<R: Rings<Stored> + Drop>(
    alloc: Global,
    host: &Host<MemFiles, R>,
    number: u64,
) -> Result<CommandReply, AllocError>
    ensures served { IfOk result (λ r. (w : World) → IsHosting (device host.now) host.now w → IsServed host.now host.now (Command.Labels number) r w) }
    ensures faultless { IfOk result (λ r. is_fault r ≡ false) }
{
    match host.labels_run(number) {
        Ok(runs) => Ok(CommandReply::Labels(labels_of(alloc, runs)?)),
        Err(refusal) => Ok(CommandReply::Refused(refusal)),
    }
}

/// Closes a connection, and tells all labels run. It is an error where memory runs out for the answer.
#[inline(never)]
fn close<R: Rings<Stored> + Drop>(
    alloc: Global,
    host: &mut Host<MemFiles, R>,
    number: u64,
) -> Result<CommandReply, AllocError>
    requires { IsMemHostAlive host.old }
    ensures served { IfOk result (λ r. (w : World) → IsHosting (device host.old) host.old w → IsServed host.old host.new (Command.Close number) r w) }
    ensures faultless { IfOk result (λ r. is_fault r ≡ false) }
{
    match host.close(number) {
        Ok(runs) => Ok(CommandReply::Labels(labels_of(alloc, runs.as_slice())?)),
        Err(refusal) => Ok(CommandReply::Refused(refusal)),
    }
}

/// The pools of all connections. It is an error where memory runs out for the answer.
#[inline(never)]
fn pools<R: Rings<Stored> + Drop>(
    alloc: Global,
    host: &Host<MemFiles, R>,
) -> Result<CommandReply, AllocError>
    requires { IsMemHostAlive host.now }
    ensures served { IfOk result (λ r. (w : World) → IsHosting (device host.now) host.now w → IsServed host.now host.now Command.Pools r w) }
    ensures faultless { IfOk result (λ r. is_fault r ≡ false) }
{
    let mut out = TextWriter::new(Vec::new(alloc));
    let Ok(()) = host.print_pools(&mut out) else {
        return Err(AllocError);
    };
    let lines = out.into_writer();
    let mut text = Seq::new(alloc);
    text.extend(lines.as_slice())?;
    Ok(CommandReply::Pools(text))
}

/// Does a command, and answers it. It is an error where memory runs out for the answer, for a list of pieces, or for a file that is added.
pub fn serve<R: Rings<Stored> + Drop>(
    alloc: Global,
    host: &mut Host<MemFiles, R>,
    command: Command,
) -> Result<CommandReply, AllocError>
    requires alive { IsMemHostAlive host.old }
    requires due { is_due (device host.old) command ≡ true }
    ensures served { IfOk result (λ r. (w : World) → IsHosting (device host.old) host.old w → IsServed host.old host.new command r w) }
    ensures safe { IfOk result (λ r. IsSafe host.old → is_fault r ≡ false) }
{
    match command {
        Command::Open => Ok(open(host)),
        Command::File(line) => file(alloc, host, &line),
        Command::Begin(number) => Ok(done(host.begin(number))),
        Command::End(number) => Ok(done(host.end_request(number))),
        Command::Bring(number, pieces) => bring(alloc, host, number, pieces),
        Command::Step(number, count) => Ok(step(host, number, count)),
        Command::Run(number) => Ok(run(host, number)),
        Command::Output(number) => Ok(output(host, number)),
        Command::Labels(number) => labels(alloc, host, number),
        Command::Close(number) => close(alloc, host, number),
        Command::Pools => pools(alloc, host),
    }
}
