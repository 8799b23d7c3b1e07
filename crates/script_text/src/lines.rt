//! The lines with which texts in a script begin and end.

ghost use Rattle.std.specs.Prelude.{◌≡◌, nat_eq, codes};
ghost use Rattle.std.specs.Cmp.Lexicographic.{pointwise};
ghost use Rattle.byte_text.specs.Bytes.{token, unindented};
ghost use Rattle.script_text.specs.Lines.{is_end, begins_cert};

use byte_text::{is_text, token, unindented};

fn is_end_text(text: &[u8]) -> bool
    ensures { result ≡ pointwise nat_eq (unindented text.now) (codes "end") }
{
    unindented(text) == b"end".as_slice()
}

/// Whether a line is the one that ends a text: `end`, behind spaces or not.
pub fn is_end(text: &[u8], ended: bool) -> bool
    ensures { result ≡ is_end (record { text = text.now; ended = ended }) }
{
    ended && is_end_text(text)
}

/// Whether a line is the first of a certificate text.
pub fn begins_cert(text: &[u8], ended: bool) -> bool
    ensures { result ≡ begins_cert (record { text = text.now; ended = ended }) }
{
    let word = token(text);
    is_text(word, b"cert") | is_text(word, b"slim")
}
