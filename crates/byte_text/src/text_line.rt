//! The lines of a text.

ghost use Rattle.std.specs.Prelude.{◌≡◌, ◌≤◌, ◌<◌, ◌∷◌, drop, length};
ghost use Rattle.byte_text.specs.TextLines.{first_line, lines_of, width};

use crate::bytes::len_before;

/// A line of a text.
#[derive(Clone, Copy)]
pub struct TextLine<'a> {
    /// Its bytes, without the LF.
    pub text: &'a [u8],
    /// Whether the LF that ends it is there.
    pub ended: bool,
    /// How many bytes it takes, with its LF.
    pub width: usize,
}

/// The line that a text begins with: its bytes up to the first LF, or all where there is none. Behind it stand the bytes
/// from its width on.
#[tactic(auto, using(crate::proofs::CutLaws::lines_turn))]
pub fn first_line(bytes: &[u8]) -> TextLine<'_>
    ensures text { result.text.now ≡ (first_line bytes.now).text }
    ensures ended { result.ended ≡ (first_line bytes.now).ended }
    ensures lines { 0 < length bytes.now → lines_of bytes.now ≡ first_line bytes.now ∷ lines_of (drop (width (first_line bytes.now)) bytes.now) }
    ensures width { result.width ≡ width (first_line bytes.now) }
    ensures within { result.width ≤ length bytes.now }
    ensures moves { 0 < length bytes.now → 0 < result.width }
{
    let len = len_before(bytes, b'\n');
    let text = &bytes[..len];
    if len < bytes.len() {
        TextLine {
            text,
            ended: true,
            width: len + 1,
        }
    } else {
        TextLine {
            text,
            ended: false,
            width: len,
        }
    }
}
