//! The commands of a script.

ghost use Rattle.std.specs.Prelude.{◌≡◌, IfOk, Ok, Some};
ghost use Rattle.script_text.specs.Commands.{word_text, takes_of, word_at, command_with, word_command_of, command_of};

use crate::file_line::{FileLine, file_line_of};
use crate::operands::{CommandOperands, operands_of};
use crate::pieces::ScriptPiece;
use byte_text::cut_token;
use run_model::Seq;
use std::alloc::{AllocError, Global};

/// The first word of a command other than `file`.
#[derive(Clone, Copy)]
pub enum CommandWord {
    Open,
    Begin,
    End,
    Bring,
    Step,
    Run,
    Output,
    Labels,
    Close,
    Pools,
}

/// What follows the first word of a command.
#[derive(Clone, Copy)]
pub enum CommandForm {
    /// Nothing.
    Nothing,
    /// The number of a connection.
    Conn,
    /// The number of a connection, and a count.
    ConnAndCount,
    /// The number of a connection, and pieces.
    ConnAndPieces,
}

/// A command of a script. A number names a connection.
#[derive(Drop)]
pub enum Command {
    /// Opens a connection.
    Open,
    /// Adds a file.
    File(FileLine),
    /// Begins a request.
    Begin(u64),
    /// Ends the request.
    End(u64),
    /// Opens the files of these pieces, and brings a brigade of them.
    Bring(u64, Seq<ScriptPiece>),
    /// Makes so many steps, or fewer where a call has ended or more is refused.
    Step(u64, u64),
    /// Makes steps until a call has ended, or more is refused.
    Run(u64),
    /// Takes the output.
    Output(u64),
    /// Tells the labels run so far.
    Labels(u64),
    /// Closes the connection, and tells all labels run.
    Close(u64),
    /// Tells the pools.
    Pools,
}

/// The first words of commands other than `file`. Those of each request come first, since a word is looked for from the first on.
pub const COMMAND_WORDS: [CommandWord; 10] = [
    CommandWord::Run,
    CommandWord::Bring,
    CommandWord::Begin,
    CommandWord::Output,
    CommandWord::End,
    CommandWord::Step,
    CommandWord::Open,
    CommandWord::Labels,
    CommandWord::Close,
    CommandWord::Pools,
];

impl CommandWord {
    /// How the word is written.
    #[tactic(auto, unfolding(crate::specs::Commands::word_text))]
    pub fn text(self) -> &'static [u8]
        ensures { result.now ≡ word_text self }
    {
        match self {
            CommandWord::Open => b"open",
            CommandWord::Begin => b"begin",
            CommandWord::End => b"end",
            CommandWord::Bring => b"bring",
            CommandWord::Step => b"step",
            CommandWord::Run => b"run",
            CommandWord::Output => b"output",
            CommandWord::Labels => b"labels",
            CommandWord::Close => b"close",
            CommandWord::Pools => b"pools",
        }
    }

    /// What follows it.
    #[tactic(auto, unfolding(crate::specs::Commands::takes_of))]
    pub fn takes(self) -> CommandForm
        ensures { result ≡ takes_of self }
    {
        match self {
            CommandWord::Open | CommandWord::Pools => CommandForm::Nothing,
            CommandWord::Begin | CommandWord::End | CommandWord::Run => CommandForm::Conn,
            CommandWord::Output | CommandWord::Labels | CommandWord::Close => CommandForm::Conn,
            CommandWord::Step => CommandForm::ConnAndCount,
            CommandWord::Bring => CommandForm::ConnAndPieces,
        }
    }

    #[tactic(auto, unfolding(crate::specs::Commands::command_with))]
    fn with(self, operands: CommandOperands) -> Command
        ensures { result ≡ command_with self operands }
    {
        match self {
            CommandWord::Open => Command::Open,
            CommandWord::Begin => Command::Begin(operands.conn),
            CommandWord::End => Command::End(operands.conn),
            CommandWord::Bring => Command::Bring(operands.conn, operands.pieces),
            CommandWord::Step => Command::Step(operands.conn, operands.count),
            CommandWord::Run => Command::Run(operands.conn),
            CommandWord::Output => Command::Output(operands.conn),
            CommandWord::Labels => Command::Labels(operands.conn),
            CommandWord::Close => Command::Close(operands.conn),
            CommandWord::Pools => Command::Pools,
        }
    }
}

#[tactic(auto, unfolding(crate::specs::Commands::word_at))]
fn word_at(text: &[u8]) -> Option<CommandWord>
    ensures { result ≡ word_at text.now }
{
    COMMAND_WORDS
        .iter()
        .copied()
        .find(|word| word.text() == text)
}

/// A command other than `file`.
#[tactic(auto, unfolding(crate::specs::Commands::command_of))]
fn word_command_of(alloc: Global, line: &[u8]) -> Result<Option<Command>, AllocError>
    ensures { IfOk result (λ c. c ≡ word_command_of line.now) }
{
    let (word, tail) = cut_token(line);
    let Some(word) = word_at(word) else {
        return Ok(None);
    };
    match operands_of(alloc, word.takes(), tail)? {
        Some(operands) => Ok(Some(word.with(operands))),
        None => Ok(None),
    }
}

/// The command that a line says, without its LF. `None` where it says none.
#[tactic(auto, unfolding(crate::specs::Commands::command_of))]
pub fn command_of(alloc: Global, line: &[u8]) -> Result<Option<Command>, AllocError>
    ensures { IfOk result (λ c. c ≡ command_of line.now) }
{
    if !line.starts_with(b"file ") {
        return word_command_of(alloc, line);
    }
    match file_line_of(alloc, &line[5..])? {
        Some(file) => Ok(Some(Command::File(file))),
        None => Ok(None),
    }
}
