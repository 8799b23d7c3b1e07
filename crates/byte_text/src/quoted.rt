//! Texts in quotes.

ghost use Rattle.std.specs.Prelude.{◌≡◌, ℕ, true, ◌+◌, ◌<◌, ◌≤◌, ◌++◌, ◌∷◌, [], List, length, take, drop, option_map, option_to_list, IfSome, IfOk, OnOk, OnErr, Some};
ghost use Rattle.byte_text.specs.QuotedTexts.{Spells, StandsIn};
ghost use Rattle.byte_text.specs.Quoted.{hex_value, hex_digit, plain, escaped, scanned, IsBelow16, is_done, measured_from, text_from, quoted};
ghost use Rattle.byte_text.specs.Quoted.{measure_of, text_of, with_length, spelled, spelled_all, spelling};
ghost use Rattle.byte_text.specs.Writes.{Wrote, writer_state};

use crate::bytes::is_printable;
use crate::writer::{TextWriter, WriteFault, put_all};
use module_code::Seq;
use std::alloc::{AllocError, Global};
use std::io::Write;

/// Where the reader of a text stands.
#[derive(Clone, Copy)]
pub enum Scan {
    /// Between the bytes of the text.
    Plain,
    /// After a backslash.
    Escape,
    /// After `\x`.
    High,
    /// After `\x` and a digit of this value.
    Low(u8),
    /// After the closing quote.
    Done,
}

/// What a byte makes: the next place of the reader, and a byte of the text where one is complete.
#[derive(Clone, Copy)]
pub struct ByteRead {
    pub scan: Scan,
    pub byte: Option<u8>,
}

/// How many bytes a text in quotes has, and how many its spelling has with both quotes.
#[derive(Clone, Copy)]
pub struct Measured {
    /// The number of bytes of the text.
    pub len: usize,
    /// The number of bytes of its spelling.
    pub used: usize,
}

fn hex_value(byte: u8) -> Option<u8>
    ensures value { result ≡ hex_value byte }
    ensures small { (d : ℕ) → result ≡ Some d → d < 16 }
{
    if b'0' <= byte && byte <= b'9' {
        return Some(byte - b'0');
    }
    if b'a' <= byte && byte <= b'f' {
        return Some(byte - b'a' + 10);
    }
    None
}

fn made(byte: u8) -> Option<ByteRead>
    ensures { result ≡ Some (record { scan = Scan.Plain; byte = Some byte }) }
{
    Some(ByteRead {
        scan: Scan::Plain,
        byte: Some(byte),
    })
}

fn moved(scan: Scan) -> Option<ByteRead>
    ensures { result ≡ Some (record { scan = scan; byte = None }) }
{
    Some(ByteRead { scan, byte: None })
}

fn plain(byte: u8) -> Option<ByteRead>
    ensures { result ≡ plain byte }
{
    if byte == b'"' {
        return moved(Scan::Done);
    }
    if byte == b'\\' {
        return moved(Scan::Escape);
    }
    if is_printable(byte) { made(byte) } else { None }
}

fn escaped(byte: u8) -> Option<ByteRead>
    ensures { result ≡ escaped byte }
{
    match byte {
        b'"' => made(b'"'),
        b'\\' => made(b'\\'),
        b'n' => made(b'\n'),
        b'r' => made(b'\r'),
        b'x' => moved(Scan::High),
        _ => None,
    }
}

fn high_digit(byte: u8) -> Option<ByteRead>
    ensures { result ≡ scanned Scan.High byte }
{
    match hex_value(byte) {
        Some(digit) => moved(Scan::Low(digit)),
        None => None,
    }
}

fn low_digit(high: u8, byte: u8) -> Option<ByteRead>
    requires { high < 16 }
    ensures { result ≡ scanned (Scan.Low high) byte }
{
    match hex_value(byte) {
        Some(digit) => made(16 * high + digit),
        None => None,
    }
}

fn scan_byte(scan: Scan, byte: u8) -> Option<ByteRead>
    requires { IsBelow16 scan }
    ensures value { result ≡ scanned scan byte }
    ensures small { IfSome result (λ r. IsBelow16 r.scan) }
{
    match scan {
        Scan::Plain => plain(byte),
        Scan::Escape => escaped(byte),
        Scan::High => high_digit(byte),
        Scan::Low(high) => low_digit(high, byte),
        Scan::Done => None,
    }
}

fn is_done(scan: Scan) -> bool
    ensures { result ≡ is_done scan }
{
    matches!(scan, Scan::Done)
}

#[tactic(auto, using(crate::proofs::QuotedLaws::measured))]
fn measure_rest(rest: &[u8]) -> Option<Measured>
    ensures value { result ≡ measure_of (text_from Scan.Plain [] 1 rest.now) }
    ensures within { IfSome result (λ m. m.used ≤ length rest.now + 1) }
{
    let mut scan = Scan::Plain;
    let mut len = 0;
    for (i, byte) in rest.iter().enumerate() {
        let read = scan_byte(scan, *byte)?;
        if is_done(read.scan) {
            return Some(Measured { len, used: i + 2 });
        }
        scan = read.scan;
        len += usize::from(read.byte.is_some());
    }
    None
}

/// How long the text is whose spelling these bytes begin with. `None` where they do not begin with a quote, or where
/// no text follows it: a byte outside 0x20 to 0x7E, an escape that is none, or no closing quote.
#[tactic(auto, unfolding(crate::specs::Quoted::quoted))]
pub fn measure(bytes: &[u8]) -> Option<Measured>
    ensures value { result ≡ measure_of (quoted bytes.now) }
    ensures within { IfSome result (λ m. m.used ≤ length bytes.now) }
{
    if bytes.is_empty() || bytes[0] != b'"' {
        return None;
    }
    measure_rest(&bytes[1..])
}

fn push_byte(text: &mut Seq<u8>, byte: Option<u8>) -> Result<(), AllocError>
    ensures ok { OnOk result (text.new ≡ text.old ++ option_to_list byte) }
    ensures err { OnErr result (text.new ≡ text.old) }
{
    match byte {
        Some(byte) => text.push(byte),
        None => Ok(()),
    }
}

fn unquote_rest(alloc: Global, rest: &[u8]) -> Result<Option<(Seq<u8>, usize)>, AllocError>
    ensures value { IfOk result (λ t. t ≡ option_map with_length (text_from Scan.Plain [] 1 rest.now)) }
    ensures within { IfOk result (λ t. IfSome t (λ t. t.1 ≤ length rest.now + 1)) }
{
    let mut scan = Scan::Plain;
    let mut text = Seq::new(alloc);
    for (i, byte) in rest.iter().enumerate() {
        let Some(read) = scan_byte(scan, *byte) else {
            return Ok(None);
        };
        if is_done(read.scan) {
            return Ok(Some((text, i + 2)));
        }
        scan = read.scan;
        push_byte(&mut text, read.byte)?;
    }
    Ok(None)
}

/// The text whose spelling these bytes begin with, and how many bytes the spelling has with both quotes.
#[tactic(auto, unfolding(crate::specs::Quoted::quoted))]
pub fn unquote_front(alloc: Global, bytes: &[u8]) -> Result<Option<(Seq<u8>, usize)>, AllocError>
    ensures value { IfOk result (λ t. t ≡ option_map with_length (quoted bytes.now)) }
    ensures within { IfOk result (λ t. IfSome t (λ t. t.1 ≤ length bytes.now)) }
{
    if bytes.is_empty() || bytes[0] != b'"' {
        return Ok(None);
    }
    unquote_rest(alloc, &bytes[1..])
}

fn read_quoted(alloc: Global, bytes: &[u8]) -> Result<Option<Seq<u8>>, AllocError>
    ensures { IfOk result (λ t. t ≡ text_of (quoted bytes.now)) }
{
    match unquote_front(alloc, bytes)? {
        Some((text, _)) => Ok(Some(text)),
        None => Ok(None),
    }
}

/// The text whose spelling these bytes begin with, as `measure` has its length.
pub fn unquote(alloc: Global, bytes: &[u8]) -> Result<Option<Seq<u8>>, AllocError>
    ensures value { IfOk result (λ t. t ≡ text_of (quoted bytes.now)) }

    // The texts that are taken are those that the grammar spells.
    ensures only { (s text rest : List ℕ) → Spells s text → bytes.now ≡ s ++ rest → IfOk result (λ t. t ≡ Some text) }
    ensures found { IfOk result (λ t. IfSome t (λ text. StandsIn text bytes.now)) }
{
    read_quoted(alloc, bytes)
}

/// How a byte is written in a text: at most four bytes.
#[derive(Clone, Copy)]
pub struct SpelledByte {
    bytes: [u8; 4],
    len: usize,
    ghost within: { len ≤ 4 },
}

impl SpelledByte {
    /// The bytes.
    pub fn as_slice(&self) -> &[u8]
        ensures { result.now ≡ take self.now.len self.now.bytes }
    {
        &self.bytes[..self.len]
    }
}

fn hex_digit(value: u8) -> u8
    requires { value < 16 }
    ensures { result ≡ hex_digit value }
{
    if value < 10 {
        b'0' + value
    } else {
        b'a' - 10 + value
    }
}

fn spelled_byte(byte: u8) -> SpelledByte
    ensures { take result.len result.bytes ≡ spelled byte }
{
    if byte == b'"' || byte == b'\\' {
        return SpelledByte {
            bytes: [b'\\', byte, 0, 0],
            len: 2,
        };
    }
    if is_printable(byte) {
        return SpelledByte {
            bytes: [byte, 0, 0, 0],
            len: 1,
        };
    }
    SpelledByte {
        bytes: [b'\\', b'x', hex_digit(byte / 16), hex_digit(byte % 16)],
        len: 4,
    }
}

/// Whether a byte is written as it is.
fn is_plain(byte: u8) -> bool
    ensures { result ≡ true → spelled byte ≡ byte ∷ [] }
{
    byte != b'"' && byte != b'\\' && is_printable(byte)
}

/// How many bytes at the front of a text are written as they are.
fn plain_len(text: &[u8]) -> usize
    ensures within { result ≤ length text.now }
    ensures plain { spelled_all text.now ≡ take result text.now ++ spelled_all (drop result text.now) }
{
    for (i, byte) in text.iter().enumerate() {
        if !is_plain(*byte) {
            return i;
        }
    }
    text.len()
}

/// Adds the bytes at the front of a text that are not written as they are, and tells how many. Without memory some may have been added.
fn extend_escaped(out: &mut Vec<u8>, text: &[u8]) -> Result<usize, AllocError>
    ensures within { IfOk result (λ n. n ≤ length text.now) }
    ensures ok { IfOk result (λ n. out.new.items ++ spelled_all (drop n text.now) ≡ out.old.items ++ spelled_all text.now) }
    ensures front { take (length out.old.items) out.new.items ≡ out.old.items }
    ensures grown { length out.old.items ≤ length out.new.items }
{
    for (i, byte) in text.iter().enumerate() {
        if is_plain(*byte) {
            return Ok(i);
        }
        out.extend_from_slice(spelled_byte(*byte).as_slice())?;
    }
    Ok(text.len())
}

/// Adds the bytes at the front of a text that are written as they are, and those behind them that are not, and tells how many. Without memory some may
/// have been added.
fn extend_front(out: &mut Vec<u8>, text: &[u8]) -> Result<usize, AllocError>
    requires { 0 < length text.now }
    ensures within { IfOk result (λ n. n ≤ length text.now) }
    ensures some { IfOk result (λ n. 0 < n) }
    ensures ok { IfOk result (λ n. out.new.items ++ spelled_all (drop n text.now) ≡ out.old.items ++ spelled_all text.now) }
    ensures front { take (length out.old.items) out.new.items ≡ out.old.items }
    ensures grown { length out.old.items ≤ length out.new.items }
{
    let plain = plain_len(text);
    out.extend_from_slice(&text[..plain])?;
    if plain == text.len() {
        return Ok(plain);
    }
    out.extend_from_slice(spelled_byte(text[plain]).as_slice())?;
    let escaped = extend_escaped(out, &text[plain + 1..])?;
    Ok(plain + 1 + escaped)
}

/// Adds a text without its quotes. Without memory a front of it is added.
#[tactic(auto, using(crate::proofs::ListLaws::front_within))]
fn extend_spelled(out: &mut Vec<u8>, text: &[u8]) -> Result<(), AllocError>
    ensures ok { OnOk result (out.new.items ≡ out.old.items ++ spelled_all text.now) }
    ensures front { take (length out.old.items) out.new.items ≡ out.old.items }
{
    let mut rest = text;
    while !rest.is_empty() {
        let len = extend_front(out, rest)?;
        rest = &rest[len..];
    }
    Ok(())
}

/// Adds a text in quotes. Without memory a front of it is added.
fn extend_spelling(out: &mut Vec<u8>, text: &[u8]) -> Result<(), AllocError>
    ensures ok { OnOk result (out.new.items ≡ out.old.items ++ spelling text.now) }
    ensures front { take (length out.old.items) out.new.items ≡ out.old.items }
{
    out.push(b'"')?;
    extend_spelled(out, text)?;
    Ok(out.push(b'"')?)
}

/// Adds a text in quotes: `\"`, `\\` and `\xHH` for bytes outside 0x20 to 0x7E, the others as they are. Without memory nothing is changed.
pub fn push_spelling(out: &mut Vec<u8>, text: &[u8]) -> Result<(), AllocError>
    ensures ok { OnOk result (out.new.items ≡ out.old.items ++ spelling text.now) }
    ensures err { OnErr result (out.new.items ≡ out.old.items) }
{
    let len = out.len();
    let outcome = extend_spelling(out, text);
    if outcome.is_err() {
        out.truncate(len);
    }
    outcome
}

fn put_spelled<W: Write>(out: &mut TextWriter<W>, text: &[u8]) -> Result<(), WriteFault>
    ensures { Wrote result (writer_state W.contents out.old) (writer_state W.contents out.new) (spelled_all text.now) }
{
    for byte in text {
        put_all(out, spelled_byte(*byte).as_slice())?;
    }
    Ok(())
}

/// Writes a text in quotes into a writer, as `push_spelling` does into a list. Takes no memory. Where the writer
/// fails, a front of it is written.
pub fn print_text<W: Write>(out: &mut TextWriter<W>, text: &[u8]) -> Result<(), WriteFault>
    ensures { Wrote result (writer_state W.contents out.old) (writer_state W.contents out.new) (spelling text.now) }
{
    put_all(out, b"\"")?;
    put_spelled(out, text)?;
    put_all(out, b"\"")
}
