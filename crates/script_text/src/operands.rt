//! What follows the first word of a command.

ghost use Rattle.std.specs.Prelude.{◌≡◌, IfOk};
ghost use Rattle.script_text.specs.Operands.{no_operands, conn_alone, count_alone, conn_and_count, conn_and_pieces, operands_at};

use crate::command::CommandForm;
use crate::pieces::{ScriptPiece, pieces_of};
use crate::words::number_and_rest;
use run_model::Seq;
use std::alloc::{AllocError, Global};

/// The operands of a command. A number that it does not take is 0, and where it takes no pieces there are none.
#[derive(Drop)]
pub struct CommandOperands {
    /// The number of the connection.
    pub conn: u64,
    /// How many steps are to be made.
    pub count: u64,
    /// The pieces.
    pub pieces: Seq<ScriptPiece>,
}

/// The operands that follow a word which takes these.
#[tactic(auto, unfolding(crate::specs::Operands::operands_at))]
pub fn operands_of(
    alloc: Global,
    takes: CommandForm,
    tail: &[u8],
) -> Result<Option<CommandOperands>, AllocError>
    ensures { IfOk result (λ o. o ≡ operands_at takes tail.now) }
{
    match takes {
        CommandForm::Nothing => Ok(no_operands(alloc, tail)),
        CommandForm::Conn => Ok(conn_alone(alloc, tail)),
        CommandForm::ConnAndCount => Ok(conn_and_count(alloc, tail)),
        CommandForm::ConnAndPieces => conn_and_pieces(alloc, tail),
    }
}

fn no_operands(alloc: Global, tail: &[u8]) -> Option<CommandOperands>
    ensures { result ≡ no_operands tail.now }
{
    if !tail.is_empty() {
        return None;
    }
    Some(CommandOperands {
        conn: 0,
        count: 0,
        pieces: Seq::new(alloc),
    })
}

fn conn_alone(alloc: Global, tail: &[u8]) -> Option<CommandOperands>
    ensures { result ≡ conn_alone tail.now }
{
    let (conn, rest) = number_and_rest(tail)?;
    if !rest.is_empty() {
        return None;
    }
    Some(CommandOperands {
        conn,
        count: 0,
        pieces: Seq::new(alloc),
    })
}

fn count_alone(tail: &[u8]) -> Option<u64>
    ensures { result ≡ count_alone tail.now }
{
    let (count, rest) = number_and_rest(tail)?;
    if rest.is_empty() && count != 0 {
        Some(count)
    } else {
        None
    }
}

fn conn_and_count(alloc: Global, tail: &[u8]) -> Option<CommandOperands>
    ensures { result ≡ conn_and_count tail.now }
{
    let (conn, rest) = number_and_rest(tail)?;
    let count = count_alone(rest)?;
    Some(CommandOperands {
        conn,
        count,
        pieces: Seq::new(alloc),
    })
}

fn conn_and_pieces(alloc: Global, tail: &[u8]) -> Result<Option<CommandOperands>, AllocError>
    ensures { IfOk result (λ o. o ≡ conn_and_pieces tail.now) }
{
    let Some((conn, rest)) = number_and_rest(tail) else {
        return Ok(None);
    };
    match pieces_of(alloc, rest)? {
        Some(pieces) => Ok(Some(CommandOperands {
            conn,
            count: 0,
            pieces,
        })),
        None => Ok(None),
    }
}
