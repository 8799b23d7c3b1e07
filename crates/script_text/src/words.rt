//! The numbers among the words of a command line.

ghost use Rattle.std.specs.Prelude.{◌≡◌, ◌≤◌, length, IfOk, IfSome};
ghost use Rattle.std.specs.Option.{option_map};
ghost use Rattle.script_text.specs.Words.{number_at, after_number, is_parted};

use byte_text::{after_token, cut_token, decimal_u64, token};
use run_model::Seq;
use std::alloc::{AllocError, Global};

/// The number that stands after a space.
pub fn number_at(bytes: &[u8]) -> Option<u64>
    ensures { result ≡ number_at bytes.now }
{
    if bytes.is_empty() || bytes[0] != b' ' {
        return None;
    }
    decimal_u64(token(&bytes[1..]))
}

/// The number that stands after a space, and what stands behind it.
pub fn number_and_rest(bytes: &[u8]) -> Option<(u64, &[u8])>
    ensures number { option_map (λ r. r.0) result ≡ number_at bytes.now }
    ensures rest { IfSome result (λ r. r.1.now ≡ after_number bytes.now) }
    ensures within { IfSome result (λ r. length r.1.now ≤ length bytes.now) }
{
    if bytes.is_empty() || bytes[0] != b' ' {
        return None;
    }
    let (digits, rest) = cut_token(&bytes[1..]);
    Some((decimal_u64(digits)?, rest))
}

/// What stands behind a space and the bytes up to the next space.
pub fn after_number(bytes: &[u8]) -> &[u8]
    ensures value { result.now ≡ after_number bytes.now }
    ensures within { length result.now ≤ length bytes.now }
{
    if bytes.is_empty() {
        return bytes;
    }
    after_token(&bytes[1..])
}

/// Whether nothing follows, or a space does.
pub fn is_parted(bytes: &[u8]) -> bool
    ensures { result ≡ is_parted bytes.now }
{
    bytes.is_empty() || bytes[0] == b' '
}

/// A copy of a text.
pub fn copied(alloc: Global, text: &[u8]) -> Result<Seq<u8>, AllocError>
    ensures { IfOk result (λ copy. copy ≡ text.now) }
{
    let mut copy = Seq::new(alloc);
    copy.extend(text)?;
    Ok(copy)
}
