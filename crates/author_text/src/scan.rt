//! The tokens of a text, or the first place where there is none.

ghost use Rattle.std.specs.Prelude.{◌≡◌, ◌≤◌, ◌<◌, ◌⊎◌, [], ◌∷◌, ◌++◌, Some, None, IsTrue, MatchResult, true, false, is_some, length, map, option_map, slice_index, take, drop};
ghost use Rattle.std.specs.Char.{digit_value, is_ascii_hexdigit};
ghost use Rattle.std.specs.List.{list_all, prefix_len};
ghost use Rattle.author_text.specs.Escapes.{may_stand};
ghost use Rattle.author_text.specs.Reading.{KeepsFault, fault_of};
ghost use Rattle.author_text.specs.Scanning.{Advances, FindsAll, JudgesText, TakesPiece, is_at_token, is_clean, is_of, is_wrong, len_to_quote, text_piece};
ghost use Rattle.author_text.specs.TextTokens.{byte_front, byte_piece, hex_len, is_line_end, is_quote, mark_front, name_front};
ghost use Rattle.author_text.specs.TextTokens.{number_below, number_front, number_piece, text_front, token_front, tokens_behind, tokens_of};
ghost use Rattle.author_text.specs.Tokens.{end_token, token_of};

use crate::escape::{Spelled, after, front, front_of};
use crate::faults::Faults;
use crate::place::Place;
use crate::refusal::Refusal;
use crate::token::{Kind, Token, is_word, mark_len};
use std::alloc::Global;

/// How many bytes a text has at most.
pub const MAX_LEN: usize = 1_048_576;

/// What is left of a text, where it begins, and what was wrong before.
#[derive(Drop)]
struct Scanner<'a> {
    rest: &'a [u8],
    place: Place,
    faults: Faults,
}

/// Of which bytes a piece of a text is.
#[derive(Clone, Copy)]
enum Class {
    Digit,
    HexDigit,
    Name,
    Comment,
}

/// Whether a byte may stand in a text of the language, line ends apart.
fn may_stand(byte: u8) -> bool
    ensures { result ≡ may_stand byte }
{
    byte == b'\t' || (0x20..=0x7e).contains(&byte)
}

fn is_in(class: Class, byte: u8) -> bool
    ensures { result ≡ is_of class byte }
{
    match class {
        Class::Digit => byte.is_ascii_digit(),
        Class::HexDigit => byte.is_ascii_hexdigit(),
        Class::Name => byte.is_ascii_alphanumeric() || byte == b'_',
        Class::Comment => may_stand(byte),
    }
}

/// How many bytes of this class stand first.
fn len_of(class: Class, text: &[u8]) -> usize
    ensures { result ≡ prefix_len (is_of class) text.now }
{
    for (at, byte) in text.iter().enumerate() {
        if !is_in(class, *byte) {
            return at;
        }
    }
    text.len()
}

/// How many bytes stand before a quote that no backslash stands before, unless a line ends before it.
fn len_to_quote(text: &[u8]) -> Option<usize>
    ensures { result ≡ len_to_quote false text.now }
{
    let mut is_escaped = false;
    for (at, byte) in text.iter().enumerate() {
        match *byte {
            b'\n' => return None,
            b'"' if !is_escaped => return Some(at),
            _ => is_escaped = *byte == b'\\' && !is_escaped,
        }
    }
    None
}

/// How many hexadecimal digits stand behind `0x`.
fn hex_len(text: &[u8]) -> usize
    ensures { result ≡ hex_len text.now }
{
    match text {
        [b'0', b'x', digits @ ..] => len_of(Class::HexDigit, digits),
        _ => 0,
    }
}

/// Whether the quote that ends a byte stands first.
fn is_quote(text: &[u8]) -> bool
    ensures { result ≡ is_quote text.now }
{
    text.first() == Some(&b'\'')
}

fn digit_of(byte: u8) -> u8
    ensures value { IsTrue (is_ascii_hexdigit byte) → result ≡ digit_value byte }
    ensures small { result < 16 }
{
    match byte {
        b'0'..=b'9' => byte - b'0',
        b'a'..=b'f' => byte - b'a' + 10,
        b'A'..=b'F' => byte - b'A' + 10,
        _ => 0,
    }
}

/// A number in digits of this base, unless it passes 4294967295.
fn number_of(digits: &[u8], base: u64) -> Option<u32>
    requires low { 1 ≤ base }
    requires high { base ≤ 16 }
    ensures { IsTrue (list_all is_ascii_hexdigit digits.now) → result ≡ number_below base digits.now }
{
    let mut value: u64 = 0;
    for byte in digits {
        let digit = u64::from(digit_of(*byte));
        value = value
            .saturating_mul(base)
            .saturating_add(digit)
            .min(1 << 32);
    }
    u32::try_from(value).ok()
}

impl<'a> Scanner<'a> {
    fn first(&self) -> u8
        ensures { result ≡ slice_index self.now.rest.now 0 }
    {
        self.rest.first().copied().unwrap_or(0)
    }

    /// The place so many bytes behind.
    fn behind(&self, count: usize) -> Place {
        Place {
            line: self.place.line,
            column: self.place.column.saturating_add(count),
        }
    }

    /// The token of so many bytes, none of which is a line end, which are passed.
    fn cut(&mut self, kind: Kind, count: usize) -> Token<'a>
        ensures kind { result.kind ≡ kind }
        ensures text { result.text.now ≡ take count self.old.rest.now }
        ensures rest { self.new.rest.now ≡ drop count self.old.rest.now }
        ensures faults { self.new.faults ≡ self.old.faults }
    {
        let token = Token {
            kind,
            text: front(self.rest, count),
            place: self.place,
        };
        self.place = self.behind(count);
        self.rest = after(self.rest, count);
        token
    }

    fn says(&mut self, what: &str)
        ensures kept { KeepsFault self.old.faults self.new.faults }
        ensures found { is_some (fault_of self.new.faults) ≡ true }
        ensures rest { self.new.rest.now ≡ self.old.rest.now }
    {
        self.faults.says(self.place, what);
    }

    /// Goes past the blank, the line end or the comment that stands first, if one does.
    fn skip_blank(&mut self) -> bool
        ensures kept { KeepsFault self.old.faults self.new.faults }
        ensures passed { (fault_of self.old.faults) ≡ None → result ≡ true
            → JudgesText self.new.faults self.old.rest.now (tokens_behind 0 self.old.rest.now ≡ tokens_behind 0 self.new.rest.now) }
        ensures shorter { result ≡ true → length self.new.rest.now < length self.old.rest.now }
        ensures same { result ≡ false → (self.new ≡ self.old) × (is_at_token self.old.rest.now ≡ true) }
    {
        match self.first() {
            b'\n' => {
                self.rest = after(self.rest, 1);
                self.place = Place {
                    line: self.place.line.saturating_add(1),
                    column: 1,
                };
                true
            }
            b' ' | b'\t' => {
                self.cut(Kind::End, 1);
                true
            }
            b'#' => {
                self.skip_comment();
                true
            }
            _ => false,
        }
    }

    /// Goes past blanks, line ends and comments.
    fn skip_blanks(&mut self)
        ensures passed { (fault_of self.old.faults) ≡ None
            → JudgesText self.new.faults self.old.rest.now (tokens_behind 0 self.old.rest.now ≡ tokens_behind 0 self.new.rest.now) }
        ensures kept { KeepsFault self.old.faults self.new.faults }
        ensures done { is_at_token self.new.rest.now ≡ true }
        ensures shorter { length self.new.rest.now ≤ length self.old.rest.now }
    {
        for _ in 0..self.rest.len() {
            if !self.skip_blank() {
                break;
            }
        }
    }

    fn skip_comment(&mut self)
        ensures kept { KeepsFault self.old.faults self.new.faults }
        ensures rest { self.new.rest.now ≡ drop (prefix_len may_stand self.old.rest.now) self.old.rest.now }
        ensures clear { is_line_end self.new.rest.now ≡ true → self.new.faults ≡ self.old.faults }
        ensures found { is_line_end self.new.rest.now ≡ false → is_some (fault_of self.new.faults) ≡ true }
    {
        self.cut(Kind::End, len_of(Class::Comment, self.rest));
        if !self.rest.is_empty() && self.first() != b'\n' {
            self.strange_byte("a comment has no `");
        }
    }

    /// A byte that is no part of a token, or that may not be written.
    fn strange_byte(&mut self, before: &str)
        ensures kept { KeepsFault self.old.faults self.new.faults }
        ensures found { is_some (fault_of self.new.faults) ≡ true }
        ensures rest { self.new.rest.now ≡ self.old.rest.now }
    {
        let byte = self.first();
        if may_stand(byte) {
            self.faults.says_of(self.place, &[before], &[byte], "`");
        } else {
            let digits = b"0123456789abcdef";
            let high = digits[usize::from(byte / 16)];
            let low = digits[usize::from(byte % 16)];
            self.faults
                .says_of(self.place, &[before, "\\x"], &[high, low], "`");
        }
    }

    fn number(&mut self) -> Token<'a>
        ensures { (fault_of self.old.faults) ≡ None → TakesPiece (number_front self.old.rest.now) self.old self.new result }
    {
        let hex = hex_len(self.rest);
        if 0 < hex {
            let value = number_of(front(after(self.rest, 2), hex), 16);
            return self.number_token(value, hex.saturating_add(2));
        }
        let len = len_of(Class::Digit, self.rest);
        self.number_token(number_of(front(self.rest, len), 10), len)
    }

    /// The token of a number that so many bytes spell, unless it is too large.
    fn number_token(&mut self, value: Option<u32>, len: usize) -> Token<'a>
        ensures { (fault_of self.old.faults) ≡ None → TakesPiece (number_piece value len) self.old self.new result }
    {
        if value.is_none() {
            self.says("a number is at most 4294967295");
        }
        self.cut(Kind::Number(value.unwrap_or(0)), len)
    }

    /// What is wrong with an escape, so many bytes behind.
    fn no_escape(&mut self, count: usize, letter: u8)
        ensures kept { KeepsFault self.old.faults self.new.faults }
        ensures found { is_some (fault_of self.new.faults) ≡ true }
        ensures rest { self.new.rest.now ≡ self.old.rest.now }
    {
        let place = self.behind(count);
        self.faults
            .says_of(place, &["no such escape: \\"], &[letter], "");
    }

    /// Checks that a byte of a text, which so many bytes spell, may stand there.
    fn check_byte(&mut self, byte: u8, len: usize, count: usize)
        ensures kept { KeepsFault self.old.faults self.new.faults }
        ensures rest { self.new.rest.now ≡ self.old.rest.now }
        ensures clear { is_wrong (Spelled.Byte byte len) ≡ false → self.new.faults ≡ self.old.faults }
        ensures found { is_wrong (Spelled.Byte byte len) ≡ true → is_some (fault_of self.new.faults) ≡ true }
    {
        if len == 1 && !may_stand(byte) {
            let place = self.behind(count);
            self.faults.says(place, "this byte is written \\xHH");
        }
    }

    /// Checks that each byte of what stands in quotes is spelled well.
    fn check_text(&mut self, text: &[u8])
        ensures kept { KeepsFault self.old.faults self.new.faults }
        ensures rest { self.new.rest.now ≡ self.old.rest.now }
        ensures clear { is_clean 0 text.now ≡ true → self.new.faults ≡ self.old.faults }
        ensures found { is_clean 0 text.now ≡ false → is_some (fault_of self.new.faults) ≡ true }
    {
        let mut rest = text;
        let mut count: usize = 1;
        for _ in 0..text.len() {
            match front_of(rest) {
                Spelled::Byte { byte, len } => {
                    self.check_byte(byte, len, count);
                    count = count.saturating_add(len);
                    rest = after(rest, len);
                }
                Spelled::NoEscape(letter) => {
                    self.no_escape(count, letter);
                    break;
                }
                Spelled::Nothing => break,
            }
        }
    }

    fn text(&mut self) -> Token<'a>
        ensures { (fault_of self.old.faults) ≡ None → TakesPiece (text_front self.old.rest.now) self.old self.new result }
    {
        let inner = after(self.rest, 1);
        match len_to_quote(inner) {
            Some(len) => self.closed_text(front(inner, len)),
            None => {
                self.says("this text is not closed on its line");
                self.cut(Kind::Text, 2)
            }
        }
    }

    /// The token of what stands in quotes.
    fn closed_text(&mut self, text: &'a [u8]) -> Token<'a>
        ensures { (fault_of self.old.faults) ≡ None → TakesPiece (text_piece text.now) self.old self.new result }
    {
        self.check_text(text);
        let quoted = self.cut(Kind::Text, text.len().saturating_add(2));
        Token { text, ..quoted }
    }

    /// A byte in quotes.
    fn byte(&mut self) -> Token<'a>
        ensures { (fault_of self.old.faults) ≡ None → TakesPiece (byte_front self.old.rest.now) self.old self.new result }
    {
        match front_of(after(self.rest, 1)) {
            Spelled::Byte { byte, len } => self.closed_byte(byte, len),
            Spelled::NoEscape(letter) => {
                self.no_escape(1, letter);
                self.cut(Kind::Number(0), 3)
            }
            Spelled::Nothing => self.closed_byte(b'\n', 1),
        }
    }

    /// The token of a byte that so many bytes spell behind the first quote.
    fn closed_byte(&mut self, byte: u8, len: usize) -> Token<'a>
        requires { len ≤ 4 }
        ensures { (fault_of self.old.faults) ≡ None → TakesPiece (byte_piece byte len (drop 1 self.old.rest.now)) self.old self.new result }
    {
        let is_line_end = byte == b'\n' && len == 1;
        if is_line_end || !is_quote(after(after(self.rest, 1), len)) {
            self.says("one byte is due between the quotes");
        } else {
            self.check_byte(byte, len, 1);
        }
        self.cut(Kind::Number(u32::from(byte)), len.saturating_add(2))
    }

    fn name(&mut self) -> Token<'a>
        ensures { (fault_of self.old.faults) ≡ None → TakesPiece (name_front self.old.rest.now) self.old self.new result }
    {
        let len = len_of(Class::Name, self.rest);
        let is_word = is_word(front(self.rest, len));
        self.cut(if is_word { Kind::Word } else { Kind::Name }, len)
    }

    fn mark(&mut self) -> Token<'a>
        ensures { (fault_of self.old.faults) ≡ None → TakesPiece (mark_front self.old.rest.now) self.old self.new result }
    {
        let len = mark_len(self.rest);
        if self.rest.starts_with(b"//") {
            self.says("`#` begins a comment");
        } else if len == 0 {
            match self.first() {
                b';' => self.says("no `;` is needed"),
                b'&' => self.says("write `and`"),
                b'|' => self.says("write `or`"),
                b'!' => self.says("write `not`"),
                b'_' => self.says(
                    "a number has digits alone, as 2000, and a name begins with a letter",
                ),
                b'.' => self.says("a number has digits alone, and a name letters, digits and `_`"),
                _ => self.strange_byte("no token begins with `"),
            }
        }
        self.cut(Kind::Mark, len)
    }

    /// The token that stands first.
    fn token(&mut self) -> Token<'a>
        ensures { (fault_of self.old.faults) ≡ None → TakesPiece (token_front self.old.rest.now) self.old self.new result }
    {
        match self.first() {
            b'"' => self.text(),
            b'\'' => self.byte(),
            b'0'..=b'9' => self.number(),
            byte if byte.is_ascii_alphabetic() => self.name(),
            _ => self.mark(),
        }
    }

    /// Appends the token that stands first behind blanks, if one does.
    fn next_token(&mut self, found: &mut Vec<Token<'a>>) -> bool
        ensures kept { KeepsFault self.old.faults self.new.faults }
        ensures passed { (fault_of self.old.faults) ≡ None
            → JudgesText self.new.faults self.old.rest.now (Advances result found.old.items found.new.items self.old.rest.now self.new.rest.now) }
    {
        self.skip_blanks();
        if self.rest.is_empty() || self.faults.is_any() {
            return false;
        }
        let token = self.token();
        self.faults.append(found, token);
        true
    }

    /// Appends all tokens that are left.
    fn all_tokens(&mut self, found: &mut Vec<Token<'a>>)
        ensures kept { KeepsFault self.old.faults self.new.faults }
        ensures passed { (fault_of self.old.faults) ≡ None
            → JudgesText self.new.faults self.old.rest.now (FindsAll found.old.items found.new.items self.old.rest.now) }
    {
        for _ in 0..self.rest.len() {
            if !self.next_token(found) {
                break;
            }
        }
    }
}

/// The tokens of a text, of which the last is its end.
pub fn tokens<'a>(alloc: Global, text: &'a [u8]) -> Result<Vec<Token<'a>>, Refusal>
    ensures { MatchResult result
        (λ found. Some (map token_of found.items) ≡ option_map (λ ts. ts ++ end_token ∷ []) (tokens_of text.now))
        (λ e. (e ≡ Refusal.NoMemory) ⊎ (tokens_of text.now ≡ None) ⊎ (MAX_LEN < length text.now)) }
{
    let mut found = Vec::new(alloc);
    let mut scanner = Scanner {
        rest: front(text, MAX_LEN),
        place: Place { line: 1, column: 1 },
        faults: Faults::new(alloc),
    };
    scanner.all_tokens(&mut found);
    if MAX_LEN < text.len() {
        scanner.says("a filter has at most 1048576 bytes");
    }
    let end = scanner.cut(Kind::End, 0);
    scanner.faults.append(&mut found, end);
    scanner.faults.outcome(found)
}
