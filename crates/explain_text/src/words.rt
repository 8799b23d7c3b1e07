//! The words of a line.

use byte_text::{after_token, begins, decimal_u64, tail, token};
use std::str;

/// The word of a line at this place, from 0 on; nothing where it has fewer.
pub fn word(line: &[u8], index: usize) -> &[u8] {
    let mut rest = line;
    for _ in 0..index {
        rest = tail(after_token(rest));
    }
    token(rest)
}

/// Bytes as a text; nothing where they are none.
pub fn text_of(bytes: &[u8]) -> &str {
    str::from_utf8(bytes).unwrap_or("")
}

/// The number that stands as this word.
pub fn number(line: &[u8], index: usize) -> Option<usize> {
    Some(decimal_u64(word(line, index))? as usize)
}

/// Whether a word stands in a list, with spaces between.
pub fn stands_in(list: &str, word: &str) -> bool {
    let mut rest = list.as_bytes();
    for _ in 0..list.len() {
        if !rest.is_empty() && token(rest) == word.as_bytes() {
            return true;
        }
        rest = tail(after_token(rest));
    }
    false
}

/// What stands in a table behind a word; nothing where the word is not there.
pub fn found_in(table: &[(&'static str, &'static str)], word: &[u8]) -> &'static str {
    for (name, text) in table {
        if name.as_bytes() == word {
            return text;
        }
    }
    ""
}

// How many letters two words have in common at their front.
fn common_front(a: &[u8], b: &[u8]) -> usize {
    let mut rest = b;
    for (index, letter) in a.iter().enumerate() {
        if !begins(rest, *letter) {
            return index;
        }
        rest = tail(rest);
    }
    a.len()
}

// Whether two words begin with two letters that are turned, and go on alike.
fn is_turned(a: &[u8], b: &[u8]) -> bool {
    let (c, d) = (tail(a), tail(b));
    match (a.first(), b.first()) {
        (Some(x), Some(y)) => begins(d, *x) && begins(c, *y) && tail(c) == tail(d),
        _ => false,
    }
}

/// Whether two words are the same but for one letter that is wrong, missing or too many, or for two that are turned.
pub fn is_near(a: &[u8], b: &[u8]) -> bool {
    let same = common_front(a, b);
    let a = a.get(same..).unwrap_or(&[]);
    let b = b.get(same..).unwrap_or(&[]);
    let (c, d) = (tail(a), tail(b));
    c == d || c == b || a == d || is_turned(a, b)
}

/// Whether two spaces stand together outside of texts in quotes.
pub fn has_two_spaces(line: &[u8]) -> bool {
    let mut quoted = false;
    let mut escaped = false;
    let mut space = false;
    for byte in line {
        if space && !quoted && *byte == b' ' {
            return true;
        }
        quoted ^= *byte == b'"' && !escaped;
        space = *byte == b' ';
        escaped = quoted && !escaped && *byte == b'\\';
    }
    false
}

/// What stands behind the last space of a line of four words at most.
pub fn last_word(line: &[u8]) -> &[u8] {
    let mut last = line;
    for _ in 0..4u8 {
        let rest = after_token(last);
        if rest.is_empty() {
            break;
        }
        last = tail(rest);
    }
    last
}
