//! A host of one chain, and the pieces that its connections are brought next.

ghost use Rattle.std.specs.Prelude.{◌≡◌, IfOk, IfErr};
ghost use Rattle.run_model.specs.declared.event.Event.TheVariants.{Begin, Bring, Close, End, Open};
ghost use Rattle.module_run.specs.Happened.{refusal_of};
ghost use Rattle.filter_chain.specs.Hosting.{close_answer, done_answer, open_answer, output_in, step_answer};
ghost use Rattle.run_model.specs.Worlds.{World};
ghost use Rattle.filter_chain.specs.Safe.{GoesWell, IsUnfaulted};
ghost use Rattle.host_lib.specs.Awake.{IsAwake};
ghost use Rattle.host_lib.specs.Does.{Does, DropsPieces, HasConnection, KeepsPieces, RunsUpTo, SessionStandsFor, pieces_of};
ghost use Rattle.host_lib.specs.Adding.{TellsPiece};
ghost use Rattle.host_lib.specs.Output.{CopiesBytes, TellsOutput, bytes_in};
ghost use Rattle.host_lib.specs.Making.{IsNewSession};
ghost use Rattle.host_lib.specs.Filters.{AreSet};
ghost use Rattle.host_lib.specs.Texts.{IsChainRefused};

use crate::loading::{LoadRefusal, TextLengths, chain};
use crate::pieces::{PieceRefusal, Pieces, piece};
use filter_chain::{Host, LabelsRun, Limits, MemFiles, Refusal, Stepped};
use std::alloc::Global;

/// A host of one chain, and the pieces that its connections are brought next.
#[derive(Drop)]
pub struct HostSession {
    pub(crate) alloc: Global,
    pub(crate) host: Host<MemFiles>,
    pub(crate) pieces: Pieces,
}

/// How many bytes these are. Where they fit into the buffer they are copied to its front.
fn copy_into(bytes: &[u8], buffer: &mut [u8]) -> usize
    ensures { CopiesBytes bytes.now buffer.old buffer.new result }
{
    let len = bytes.len();
    if len > buffer.len() {
        return len;
    }
    buffer[..len].copy_from_slice(bytes);
    len
}

impl HostSession {
    /// A session of the chain that these texts are, with the settings of these words.
    pub(crate) fn new(
        alloc: Global,
        texts: &[u8],
        lengths: &[TextLengths],
        words: &[u8],
        word_lengths: &[usize],
        budget: u64,
    ) -> Result<HostSession, LoadRefusal>
        ensures made { IfOk result (IsNewSession texts.now lengths.now budget) }
        ensures set { IfOk result (λ _. AreSet words.now word_lengths.now) }
        ensures refused { IfErr result (IsChainRefused texts.now lengths.now words.now word_lengths.now) }
        ensures awake { IfOk result IsAwake }
    {
        let chain = chain(alloc, texts, lengths, words, word_lengths)?;
        match Host::checked(alloc, MemFiles::new(alloc), chain, Limits { budget }) {
            Ok(host) => Ok(HostSession {
                alloc,
                host,
                pieces: Pieces::new(alloc),
            }),
            Err(_) => Err(LoadRefusal::NoMemory),
        }
    }

    /// Opens a connection, and answers its number.
    pub(crate) fn open(&mut self) -> Result<u64, Refusal>
        requires { IsAwake self.old }
        ensures awake { IsAwake self.new }
        ensures event { Does self.old self.new 0 Open (open_answer result) }
        ensures unfaulted { IsUnfaulted (open_answer result) }
        ensures pieces { KeepsPieces self.old self.new }
    {
        self.host.open_conn()
    }

    /// Begins a request, without pieces.
    pub(crate) fn begin(&mut self, number: u64) -> Result<(), Refusal>
        requires { IsAwake self.old }
        ensures awake { IsAwake self.new }
        ensures event { Does self.old self.new number Begin (done_answer (refusal_of result)) }
        ensures unfaulted { IsUnfaulted (done_answer (refusal_of result)) }
        ensures pieces { DropsPieces number self.old self.new }
    {
        let _ = self.pieces.take(number);
        self.host.begin(number)
    }

    /// Whether a connection has this number.
    fn has_connection(&self, number: u64) -> bool
        ensures { HasConnection self.now number result }
    {
        match self.host.output(number) {
            Ok(_) => true,
            Err(_) => false,
        }
    }

    /// Adds a piece behind those that the connection is brought next. Refused, it has none.
    pub(crate) fn piece(&mut self, number: u64, kind: u32, bytes: &[u8]) -> Result<(), PieceRefusal>
        requires { IsAwake self.old }
        ensures awake { IsAwake self.new }
        ensures told { TellsPiece number kind bytes.now self.old self.new result }
        ensures host { self.new.host ≡ self.old.host }
    {
        if !self.has_connection(number) {
            let _ = self.pieces.take(number);
            return Err(PieceRefusal::NoConnection);
        }
        match piece(self.alloc, kind, bytes) {
            Ok(piece) => self.pieces.add(number, piece),
            Err(refusal) => {
                let _ = self.pieces.take(number);
                Err(refusal)
            }
        }
    }

    /// Brings the pieces of the connection, which has none then.
    pub(crate) fn bring(&mut self, number: u64) -> Result<(), Refusal>
        requires { IsAwake self.old }
        ensures awake { IsAwake self.new }
        ensures event { Does self.old self.new number (Bring (pieces_of self.old number)) (done_answer (refusal_of result)) }
        ensures unfaulted { IsUnfaulted (done_answer (refusal_of result)) }
        ensures pieces { DropsPieces number self.old self.new }
    {
        let pieces = self.pieces.take(number);
        self.host.bring(number, pieces)
    }

    /// Makes up to so many steps, and at least one.
    pub(crate) fn run(&mut self, number: u64, most: u64) -> Result<Stepped, Refusal>
        requires { IsAwake self.old }
        ensures awake { IsAwake self.new }
        ensures steps { RunsUpTo most self.old self.new number result }
        ensures safe { GoesWell result }
        ensures unfaulted { IsUnfaulted (step_answer result) }
        ensures pieces { KeepsPieces self.old self.new }
    {
        self.host.step_up_to(number, most)
    }

    /// The length of the output. Where it fits into the buffer it is copied to its front.
    fn copy_output(&self, number: u64, buffer: &mut [u8]) -> usize
        ensures { (w : World) → SessionStandsFor self.now w → CopiesBytes (bytes_in (output_in (w.conns number))) buffer.old buffer.new result }
    {
        match self.host.output(number) {
            Ok(bytes) => copy_into(bytes, buffer),
            Err(_) => 0,
        }
    }

    /// The length of the output. Where it fits into the buffer it is copied to its front, and taken.
    pub(crate) fn output(&mut self, number: u64, buffer: &mut [u8]) -> usize
        requires { IsAwake self.old }
        ensures awake { IsAwake self.new }
        ensures told { TellsOutput number buffer.old buffer.new result self.old self.new }
        ensures pieces { KeepsPieces self.old self.new }
    {
        let room = buffer.len();
        let len = self.copy_output(number, buffer);
        if len > room {
            return len;
        }
        let _ = self.host.clear_output(number);
        len
    }

    /// Ends the request. Pieces that were not brought are dropped.
    pub(crate) fn end(&mut self, number: u64) -> Result<(), Refusal>
        requires { IsAwake self.old }
        ensures awake { IsAwake self.new }
        ensures event { Does self.old self.new number End (done_answer (refusal_of result)) }
        ensures unfaulted { IsUnfaulted (done_answer (refusal_of result)) }
        ensures pieces { DropsPieces number self.old self.new }
    {
        let _ = self.pieces.take(number);
        self.host.end_request(number)
    }

    /// Closes a connection, in any state, and drops its pieces.
    pub(crate) fn close(&mut self, number: u64) -> Result<Vec<LabelsRun>, Refusal>
        requires { IsAwake self.old }
        ensures awake { IsAwake self.new }
        ensures event { Does self.old self.new number Close (close_answer result) }
        ensures unfaulted { IsUnfaulted (close_answer result) }
        ensures pieces { DropsPieces number self.old self.new }
    {
        let _ = self.pieces.take(number);
        self.host.close(number)
    }
}
