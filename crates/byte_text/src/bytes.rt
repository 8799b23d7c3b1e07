//! The bytes of a line, its words, and the spaces before it.

ghost use Rattle.std.specs.Prelude.{◌≡◌, ◌==◌, ◌≤◌, length, nat_eq};
ghost use Rattle.std.specs.Cmp.Lexicographic.{pointwise};
ghost use Rattle.std.specs.List.{position_or_len};
ghost use Rattle.byte_text.specs.Bytes.{is_printable, all_printable, token, after_token, unindented, begins, tail};

use memchr::memchr;

/// Whether a byte may stand in a text as it is, from 0x20 to 0x7E.
pub fn is_printable(byte: u8) -> bool
    ensures { result ≡ is_printable byte }
{
    0x20 <= byte && byte <= 0x7e
}

/// Whether each byte may stand in a line.
#[tactic(auto, unfolding(crate::specs::Bytes::all_printable))]
pub fn all_printable(line: &[u8]) -> bool
    ensures { result ≡ all_printable line.now }
{
    line.iter().all(|byte| is_printable(*byte))
}

/// Whether a token is written so.
pub fn is_text(token: &[u8], text: &[u8]) -> bool
    ensures { result ≡ pointwise nat_eq token.now text.now }
{
    token == text
}

/// Whether the first byte is this one.
pub fn begins(bytes: &[u8], first: u8) -> bool
    ensures { result ≡ begins first bytes.now }
{
    !bytes.is_empty() && bytes[0] == first
}

/// The bytes behind the first.
pub fn tail(bytes: &[u8]) -> &[u8]
    ensures { result.now ≡ tail bytes.now }
{
    if bytes.is_empty() {
        return bytes;
    }
    &bytes[1..]
}

/// How many bytes stand before the first of these, or all where it is not there.
#[tactic(auto, using(crate::proofs::FirstPlace::none_before, crate::proofs::FirstPlace::some_before))]
pub fn len_before(bytes: &[u8], stop: u8) -> usize
    ensures value { result ≡ position_or_len (λ b. b == stop) bytes.now }
    ensures within { result ≤ length bytes.now }
{
    memchr(stop, bytes).unwrap_or(bytes.len())
}

/// The bytes before the first space: the word that a line begins with.
#[tactic(auto, unfolding(crate::specs::Bytes::token))]
pub fn token(bytes: &[u8]) -> &[u8]
    ensures { result.now ≡ token bytes.now }
{
    &bytes[..len_before(bytes, b' ')]
}

/// The bytes from the first space on.
#[tactic(auto, unfolding(crate::specs::Bytes::after_token))]
pub fn after_token(bytes: &[u8]) -> &[u8]
    ensures value { result.now ≡ after_token bytes.now }
    ensures within { length result.now ≤ length bytes.now }
{
    &bytes[len_before(bytes, b' ')..]
}

/// The bytes before the first space, and those from it on.
#[tactic(auto, unfolding(crate::specs::Bytes::token, crate::specs::Bytes::after_token))]
pub fn cut_token(bytes: &[u8]) -> (&[u8], &[u8])
    ensures token { result.0.now ≡ token bytes.now }
    ensures rest { result.1.now ≡ after_token bytes.now }
    ensures within { length result.1.now ≤ length bytes.now }
{
    bytes.split_at(len_before(bytes, b' '))
}

/// A line without the spaces that it begins with.
pub fn unindented(line: &[u8]) -> &[u8]
    ensures { result.now ≡ unindented line.now }
{
    for (i, byte) in line.iter().enumerate() {
        if *byte != b' ' {
            return &line[i..];
        }
    }
    &line[line.len()..]
}
