//! Which line of a certificate text stands where.

ghost use Rattle.std.specs.Prelude.{◌≡◌};
ghost use Rattle.life_cert.specs.Reading.{where_due, header, vars, count, due_line, end_or_pc, is_over};

use byte_text::{after_token, decimal_u32, is_text, tail, token};

/// Which line is due.
#[derive(Clone, Copy)]
pub(crate) enum Due {
    /// That of the version.
    Header,
    /// How many variables the module declares, in version 2.
    Vars,
    /// How many instructions it has, in version 2.
    Code,
    /// The state between calls before `init`.
    Idle,
    /// The state between calls from `init` on.
    Ready,
    /// The state of an instruction, of this number or a higher one; or the end.
    States(usize),
    /// None.
    Nothing,
}

/// A line, by its first word.
#[derive(Clone, Copy)]
pub(crate) enum CertLine {
    /// The first: whether it is of version 2, and whether the certificate is slim.
    Header { two: bool, slim: bool },
    /// How many pool variables and how many brigade variables there are, 8 at most each.
    Vars(u8, u8),
    /// How many instructions there are, 1 to 1024.
    Code(u16),
    Idle,
    Ready,
    Instruction(usize),
    End,
}

fn where_due(holds: bool, line: CertLine) -> Option<CertLine>
    ensures { result ≡ where_due holds line }
{
    if holds { Some(line) } else { None }
}

fn end_or_pc(next: usize, bytes: &[u8]) -> Option<CertLine>
    ensures { result ≡ end_or_pc next bytes.now }
{
    if is_text(bytes, b"end") {
        return Some(CertLine::End);
    }
    let pc = decimal_u32(token(bytes))? as usize;
    where_due((next <= pc) & (pc <= 1023), CertLine::Instruction(pc))
}

fn header(bytes: &[u8]) -> Option<CertLine>
    ensures { result ≡ header bytes.now }
{
    if is_text(bytes, b"slim 1") {
        return Some(CertLine::Header {
            two: false,
            slim: true,
        });
    }
    if is_text(bytes, b"cert 2 full") {
        return Some(CertLine::Header {
            two: true,
            slim: false,
        });
    }
    if is_text(bytes, b"cert 2 slim") {
        return Some(CertLine::Header {
            two: true,
            slim: true,
        });
    }
    let first = CertLine::Header {
        two: false,
        slim: false,
    };
    where_due(is_text(bytes, b"cert 1"), first)
}

fn vars(bytes: &[u8]) -> Option<CertLine>
    ensures { result ≡ vars bytes.now }
{
    if !is_text(token(bytes), b"vars") {
        return None;
    }
    let numbers = tail(after_token(bytes));
    let pools = decimal_u32(token(numbers))?;
    let brigades = decimal_u32(tail(after_token(numbers)))?;
    if (pools <= 8) & (brigades <= 8) {
        Some(CertLine::Vars(pools as u8, brigades as u8))
    } else {
        None
    }
}

fn count(bytes: &[u8]) -> Option<CertLine>
    ensures { result ≡ count bytes.now }
{
    if !is_text(token(bytes), b"code") {
        return None;
    }
    let count = decimal_u32(tail(after_token(bytes)))?;
    if (1 <= count) & (count <= 1024) {
        Some(CertLine::Code(count as u16))
    } else {
        None
    }
}

/// Which line stands there, if it is due.
#[tactic(auto, unfolding(crate::specs::Reading::due_line))]
pub(crate) fn due_line(due: Due, bytes: &[u8]) -> Option<CertLine>
    ensures { result ≡ due_line due bytes.now }
{
    match due {
        Due::Header => header(bytes),
        Due::Vars => vars(bytes),
        Due::Code => count(bytes),
        Due::Idle => where_due(is_text(token(bytes), b"idle"), CertLine::Idle),
        Due::Ready => where_due(is_text(token(bytes), b"ready"), CertLine::Ready),
        Due::States(next) => end_or_pc(next, bytes),
        Due::Nothing => None,
    }
}

/// Whether the last line was the end.
pub(crate) fn is_over(due: Due) -> bool
    ensures { result ≡ is_over due }
{
    matches!(due, Due::Nothing)
}
