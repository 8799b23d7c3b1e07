//! Tokens: the words, marks, names, numbers and texts of a filter.

ghost use Rattle.std.specs.Prelude.{◌≡◌};
ghost use Rattle.author_text.specs.TextTokens.{mark_len};
ghost use Rattle.author_text.specs.Words.{is_word};

use crate::place::Place;

/// What kind of token it is.
#[derive(Clone, Copy)]
pub enum Kind {
    /// A number, or a byte in quotes.
    Number(u32),
    /// A text in quotes, whose token is what stands between them.
    Text,
    Name,
    /// A word of the language.
    Word,
    /// An operator, a bracket or a comma.
    Mark,
    /// The end of the text.
    End,
}

/// A token where it stands.
#[derive(Clone, Copy)]
pub struct Token<'a> {
    pub kind: Kind,
    pub text: &'a [u8],
    pub place: Place,
}

/// The words of the language, which are no names, with blanks between them.
const WORDS: &str =
    "filter var conn hold const param table def on start call bucket byte flush eos return match let emit keep copy in of decimal it drop cut at pass end fail leave next break continue if else while loop for log and or not empty has size";

/// Whether this is a word of the language.
pub fn is_word(text: &[u8]) -> bool
    ensures { result ≡ is_word text.now }
{
    WORDS.split(' ').any(|word| word.as_bytes() == text)
}

/// How many bytes the mark has that a text begins with, or 0.
pub fn mark_len(text: &[u8]) -> usize
    ensures { result ≡ mark_len text.now }
{
    match text {
        [b'+' | b'-' | b'=' | b'!' | b'<' | b'>', b'=', ..] => 2,
        [b'<', b'<', ..] | [b'>', b'>', ..] => 2,
        [
            b'+'
            | b'-'
            | b'*'
            | b'/'
            | b'%'
            | b'<'
            | b'>'
            | b'='
            | b'('
            | b')'
            | b'{'
            | b'}'
            | b'['
            | b']'
            | b',',
            ..
        ] => 1,
        _ => 0,
    }
}
