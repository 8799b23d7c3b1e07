//! Numbers, as texts write them: decimal digits, with no zero in front of others.

ghost use Rattle.std.specs.Prelude.{◌≡◌, ◌+◌, ◌^◌, ◌≤◌, IfSome};
ghost use Rattle.byte_text.specs.Numbers.{is_canonical, with_digit, decimal_from, decimal_below, constant_of};

/// One digit more, where the number does not pass `most`.
#[tactic(auto, unfolding(crate::specs::Numbers::with_digit))]
fn with_digit(most: u64, value: u64, byte: u8) -> Option<u64>
    ensures value { result ≡ with_digit (most + 1) value byte }
    ensures within { IfSome result (λ n. n ≤ most) }
{
    if byte < b'0' || b'9' < byte {
        return None;
    }
    let digit = u64::from(byte - b'0');
    if most < digit || value > (most - digit) / 10 {
        return None;
    }
    Some(10 * value + digit)
}

fn is_canonical(token: &[u8]) -> bool
    ensures { result ≡ is_canonical token.now }
{
    match token {
        [] => false,
        [_] => true,
        [first, ..] => *first != b'0',
    }
}

/// The number up to `most` that is written so: its decimal digits alone, with no zero in front of others. So `0` and `70`
/// are numbers, and `07`, `+7` and an empty token are none.
#[tactic(auto, unfolding(crate::specs::Numbers::decimal_below))]
pub fn decimal_up_to(token: &[u8], most: u64) -> Option<u64>
    ensures value { result ≡ decimal_below (most + 1) token.now }
    ensures within { IfSome result (λ n. n ≤ most) }
{
    if !is_canonical(token) {
        return None;
    }
    let mut value = 0;
    for byte in token {
        value = with_digit(most, value, *byte)?;
    }
    Some(value)
}

/// The number below 2^64 that is written so, by the rules of `decimal_up_to`.
pub fn decimal_u64(token: &[u8]) -> Option<u64>
    ensures { result ≡ decimal_below (2 ^ 64) token.now }
{
    decimal_up_to(token, u64::MAX)
}

/// The number below 2^32 that is written so, by the rules of `decimal_up_to`.
pub fn decimal_u32(token: &[u8]) -> Option<u32>
    ensures { result ≡ decimal_below (2 ^ 32) token.now }
{
    match decimal_up_to(token, u64::from(u32::MAX)) {
        Some(value) => Some(value as u32),
        None => None,
    }
}

/// The constant of a module text that is written so.
#[tactic(auto, unfolding(crate::specs::Numbers::constant_of))]
pub fn constant_of(token: &[u8]) -> Option<u32>
    ensures { result ≡ constant_of token.now }
{
    decimal_u32(token)
}
