//! The bytes of what stands in quotes.

ghost use Rattle.std.specs.Prelude.{◌≡◌, ℕ, ◌<◌, ◌++◌, Some, IfOk, take, drop};
ghost use Rattle.author_text.specs.Escapes.{escaped, front_spelled, hex_byte, hex_value, spelled_bytes};

use std::alloc::AllocError;

/// What the front of a text in quotes spells.
#[derive(Clone, Copy)]
pub enum Spelled {
    /// A byte, and how many bytes spell it.
    Byte { byte: u8, len: usize },
    /// A backslash with this byte behind it, which is no escape.
    NoEscape(u8),
    /// Nothing: the text ends here.
    Nothing,
}

fn hex_digit(byte: u8) -> Option<u8>
    ensures value { result ≡ hex_value byte }
    ensures small { (d : ℕ) → result ≡ Some d → d < 16 }
{
    match byte {
        b'0'..=b'9' => Some(byte - b'0'),
        b'a'..=b'f' => Some(byte - b'a' + 10),
        b'A'..=b'F' => Some(byte - b'A' + 10),
        _ => None,
    }
}

/// Two hexadecimal digits.
fn hex_byte(digits: &[u8]) -> Option<u8>
    ensures { result ≡ hex_byte digits.now }
{
    match digits {
        [high, low, ..] => Some(16 * hex_digit(*high)? + hex_digit(*low)?),
        _ => None,
    }
}

/// The byte that stands for another behind a backslash.
fn escaped(letter: u8) -> Option<u8>
    ensures { result ≡ escaped letter }
{
    match letter {
        b'n' => Some(b'\n'),
        b'r' => Some(b'\r'),
        b't' => Some(b'\t'),
        b'0' => Some(0),
        b'"' | b'\'' | b'\\' => Some(letter),
        _ => None,
    }
}

/// What the front of a text spells.
pub fn front_of(text: &[u8]) -> Spelled
    ensures { result ≡ front_spelled text.now }
{
    match text {
        [] | [b'\\'] => Spelled::Nothing,
        [b'\\', b'x', digits @ ..] => match hex_byte(digits) {
            Some(byte) => Spelled::Byte { byte, len: 4 },
            None => Spelled::NoEscape(b'x'),
        },
        [b'\\', letter, ..] => match escaped(*letter) {
            Some(byte) => Spelled::Byte { byte, len: 2 },
            None => Spelled::NoEscape(*letter),
        },
        [byte, ..] => Spelled::Byte {
            byte: *byte,
            len: 1,
        },
    }
}

/// What stands behind the first bytes, or nothing where there are fewer.
pub fn after(text: &[u8], count: usize) -> &[u8]
    ensures { result.now ≡ drop count text.now }
{
    if count <= text.len() {
        &text[count..]
    } else {
        &text[text.len()..]
    }
}

/// The first bytes of a text, or all of it where there are fewer.
pub fn front(text: &[u8], count: usize) -> &[u8]
    ensures { result.now ≡ take count text.now }
{
    &text[..count.min(text.len())]
}

/// Adds the bytes that a text in quotes spells.
#[tactic(auto, using(crate::proofs::PushLaws::spelled_byte, crate::proofs::PushLaws::spelled_none))]
pub fn push_bytes(bytes: &mut Vec<u8>, text: &[u8]) -> Result<(), AllocError>
    ensures { IfOk result (λ u. bytes.new.items ≡ bytes.old.items ++ spelled_bytes 0 text.now) }
{
    let mut rest = text;
    for _ in 0..text.len() {
        match front_of(rest) {
            Spelled::Byte { byte, len } => {
                bytes.push(byte)?;
                rest = after(rest, len);
            }
            Spelled::NoEscape(_) | Spelled::Nothing => break,
        }
    }
    Ok(())
}
