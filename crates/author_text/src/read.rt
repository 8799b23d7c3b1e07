//! Reading a text.

ghost use Rattle.std.specs.Prelude.{◌≡◌, map, IfErr, IfOk, MatchResult};
ghost use Rattle.author_text.specs.Places.{IsRefusalOf};
ghost use Rattle.author_text.specs.ReadAgain.{HasTree, ReadsPrinted};
ghost use Rattle.author_text.specs.ReadSource.{read_filter};
ghost use Rattle.author_text.specs.Tokens.{end_token, token_of};
ghost use Rattle.author_text.specs.Trees.{SourceTree, source_of};
ghost use Rattle.author_text.specs.UnreadTokens.{end_alone, tokens_at};

use crate::parser::Parser;
use crate::place::Place;
use crate::places::refused_of;
use crate::refusal::Refusal;
use crate::scan::tokens;
use crate::source::Source;
use crate::token::Token;
use std::alloc::Global;

/// The tree that these tokens have, of which the last is the end, or what is wrong with them first.
fn tree_of_tokens<'a>(alloc: Global, found: &[Token<'a>]) -> Result<Source<'a>, Refusal>
    ensures tree { IfOk result (λ t. (read_filter (tokens_at (map token_of found.now) 0)).0 ≡ source_of t) }
    ensures again { (s : SourceTree) → read_filter (tokens_at (map token_of found.now) 0) ≡ (s, end_alone)
        → MatchResult result (λ t. source_of t ≡ s) (λ e. e ≡ Refusal.NoMemory) }
{
    let end = match found.last() {
        Some(token) => token.place,
        None => Place { line: 1, column: 1 },
    };
    let mut parser = Parser::new(alloc, found, end);
    let source = parser.filter();
    if !parser.faults.is_whole() {
        return Err(Refusal::NoMemory);
    }
    parser.faults.outcome(source)
}

/// The tree of a text, or what is wrong with it first.
fn tree_of<'a>(alloc: Global, text: &'a [u8]) -> Result<Source<'a>, Refusal>
    ensures tree { IfOk result (λ t. HasTree text.now (source_of t)) }
    ensures again { ReadsPrinted text.now result }
{
    match tokens(alloc, text) {
        Ok(found) => tree_of_tokens(alloc, &found),
        Err(refusal) => Err(refusal),
    }
}

/// The tree of a text, or what is wrong with it first: a byte that begins no token, or the first token that the grammar does
/// not take. A text has the bytes 0x20 to 0x7E, tabs and line ends, and at most 1,048,576 of them. What is wrong stands at a
/// line and a column that the text has. A text that `print_source` writes is read as the tree that it was written of.
pub fn read_source<'a>(alloc: Global, text: &'a [u8]) -> Result<Source<'a>, Refusal>
    ensures tree { IfOk result (λ t. HasTree text.now (source_of t)) }
    ensures again { ReadsPrinted text.now result }
    ensures refused { IfErr result (λ e. IsRefusalOf text.now e) }
{
    match tree_of(alloc, text) {
        Ok(source) => Ok(source),
        Err(refusal) => Err(refused_of(text, refusal)),
    }
}
