//! Certificates as they are written.

ghost use Rattle.std.specs.Prelude.{◌≡◌, ◌+◌, ◌<◌, ◌++◌, true, false, length, codes, decimal, Some, slice_get};
ghost use Rattle.life_cert.specs.Prelude.{Wrote, writer_state, seen, seen_some, seen_cert, seen_line, first_line, vars_line, code_line, head_lines, state_or_none, between_line, is_two};
ghost use Rattle.life_cert.specs.Prelude.{said_by, said_line, pc_line, cert_text, each};
ghost use Rattle.life_cert.specs.Drafts.{HaveSums};

use crate::print_state::put_state;
use crate::repeats::first_with;
use crate::state_sum::line_sum;
use byte_text::{TextWriter, WriteFault, put_all};
use itoa::Buffer;
use life_check::{Cert, CertVersion};
use life_state::State;
use std::io::Write;

/// Whether a certificate is of version 2.
pub(crate) fn is_two(version: CertVersion) -> bool
    ensures { result ≡ is_two version }
{
    matches!(version, CertVersion::Two { .. })
}

fn first_line(two: bool, slim: bool) -> &'static [u8]
    ensures { result.now ≡ first_line two slim }
{
    match (two, slim) {
        (false, false) => b"cert 1\n",
        (false, true) => b"slim 1\n",
        (true, false) => b"cert 2 full\n",
        (true, true) => b"cert 2 slim\n",
    }
}

fn put_number<W: Write>(out: &mut TextWriter<W>, number: u16) -> Result<(), WriteFault>
    ensures { Wrote result (writer_state W.contents out.old) (writer_state W.contents out.new) (decimal number) }
{
    let mut digits = Buffer::new();
    put_all(out, digits.format(number).as_bytes())
}

fn put_vars<W: Write>(out: &mut TextWriter<W>, pools: u8, brigades: u8) -> Result<(), WriteFault>
    ensures { Wrote result (writer_state W.contents out.old) (writer_state W.contents out.new) (codes "vars " ++ (decimal pools ++ (codes " " ++ (decimal brigades ++ codes "\n")))) }
{
    put_all(out, b"vars ")?;
    put_number(out, u16::from(pools))?;
    put_all(out, b" ")?;
    put_number(out, u16::from(brigades))?;
    put_all(out, b"\n")
}

fn put_code<W: Write>(out: &mut TextWriter<W>, code: u16) -> Result<(), WriteFault>
    ensures { Wrote result (writer_state W.contents out.old) (writer_state W.contents out.new) (codes "code " ++ (decimal code ++ codes "\n")) }
{
    put_all(out, b"code ")?;
    put_number(out, code)?;
    put_all(out, b"\n")
}

/// The shape of the module, which version 2 names.
fn put_shape<W: Write>(out: &mut TextWriter<W>, version: CertVersion) -> Result<(), WriteFault>
    ensures { Wrote result (writer_state W.contents out.old) (writer_state W.contents out.new) (vars_line version ++ code_line version) }
{
    match version {
        CertVersion::One => Ok(()),
        CertVersion::Two {
            pools,
            brigades,
            code,
        } => {
            put_vars(out, pools, brigades)?;
            put_code(out, code)
        }
    }
}

fn put_head<W: Write>(
    out: &mut TextWriter<W>,
    version: CertVersion,
    slim: bool,
) -> Result<(), WriteFault>
    ensures { Wrote result (writer_state W.contents out.old) (writer_state W.contents out.new) (head_lines version slim) }
{
    put_all(out, first_line(is_two(version), slim))?;
    put_shape(out, version)
}

fn put_state_or_none<W: Write>(
    out: &mut TextWriter<W>,
    state: &Option<State>,
) -> Result<(), WriteFault>
    ensures { Wrote result (writer_state W.contents out.old) (writer_state W.contents out.new) (state_or_none (seen_some state.now)) }
{
    match state {
        Some(state) => put_state(out, state),
        None => put_all(out, b"none"),
    }
}

/// A word, and behind it a state, or that there is none.
fn put_between<W: Write>(
    out: &mut TextWriter<W>,
    word: &[u8],
    state: &Option<State>,
) -> Result<(), WriteFault>
    ensures { Wrote result (writer_state W.contents out.old) (writer_state W.contents out.new) (between_line word.now (seen_some state.now)) }
{
    put_all(out, word)?;
    put_state_or_none(out, state)?;
    put_all(out, b"\n")
}

/// A state, or the number of the line that has it.
fn put_said<W: Write>(
    out: &mut TextWriter<W>,
    earlier: Option<usize>,
    state: &State,
) -> Result<(), WriteFault>
    ensures { Wrote result (writer_state W.contents out.old) (writer_state W.contents out.new) (said_by earlier (seen state.now)) }
{
    match earlier {
        None => put_state(out, state),
        Some(pc) => {
            let mut digits = Buffer::new();
            put_all(out, b"same ")?;
            put_all(out, digits.format(pc).as_bytes())
        }
    }
}

/// The line of an instruction's state.
fn put_state_line<W: Write>(
    out: &mut TextWriter<W>,
    pc: usize,
    earlier: Option<usize>,
    state: &State,
) -> Result<(), WriteFault>
    ensures { Wrote result (writer_state W.contents out.old) (writer_state W.contents out.new) (said_line pc (Some (said_by earlier (seen state.now)))) }
{
    let mut digits = Buffer::new();
    put_all(out, digits.format(pc).as_bytes())?;
    put_all(out, b" ")?;
    put_said(out, earlier, state)?;
    put_all(out, b"\n")
}

/// The line of an instruction, where it has a state; each state as it is.
fn put_whole_line<W: Write>(
    out: &mut TextWriter<W>,
    at: &[Option<State>],
    pc: usize,
) -> Result<(), WriteFault>
    requires { pc < length at.now }
    ensures { Wrote result (writer_state W.contents out.old) (writer_state W.contents out.new) (pc_line false (λ k. seen_line (slice_get at.now k)) pc) }
{
    match &at[pc] {
        Some(state) => put_state_line(out, pc, None, state),
        None => Ok(()),
    }
}

/// The line of an instruction, where it has a state; one that an earlier line has by the number of the first.
fn put_new_line<W: Write>(
    out: &mut TextWriter<W>,
    at: &[Option<State>],
    sums: &[u32],
    pc: usize,
) -> Result<(), WriteFault>
    requires inside { pc < length at.now }
    requires sums { HaveSums pc at.now sums.now }
    ensures { Wrote result (writer_state W.contents out.old) (writer_state W.contents out.new) (pc_line true (λ k. seen_line (slice_get at.now k)) pc) }
{
    match &at[pc] {
        Some(state) => put_state_line(out, pc, first_with(at, sums, pc, state), state),
        None => Ok(()),
    }
}

fn put_whole_lines<W: Write>(
    out: &mut TextWriter<W>,
    at: &[Option<State>],
) -> Result<(), WriteFault>
    ensures { Wrote result (writer_state W.contents out.old) (writer_state W.contents out.new) (each 0 (length at.now) (pc_line false (λ k. seen_line (slice_get at.now k)))) }
{
    for pc in 0..at.len() {
        put_whole_line(out, at, pc)?;
    }
    Ok(())
}

/// Notes the sum of a line, where there is room.
fn note_sum(sums: &mut [u32], at: &[Option<State>], pc: usize)
    requires inside { pc < length at.now }
    requires sums { HaveSums pc at.now sums.old }
    ensures { HaveSums (pc + 1) at.now sums.new }
{
    if pc < sums.len() {
        sums[pc] = line_sum(&at[pc]);
    }
}

fn put_new_lines<W: Write>(out: &mut TextWriter<W>, at: &[Option<State>]) -> Result<(), WriteFault>
    ensures { Wrote result (writer_state W.contents out.old) (writer_state W.contents out.new) (each 0 (length at.now) (pc_line true (λ k. seen_line (slice_get at.now k)))) }
{
    let mut sums = [0u32; 1024];
    for pc in 0..at.len() {
        put_new_line(out, at, &sums, pc)?;
        note_sum(&mut sums, at, pc);
    }
    Ok(())
}

fn put_lines<W: Write>(
    out: &mut TextWriter<W>,
    two: bool,
    at: &[Option<State>],
) -> Result<(), WriteFault>
    ensures { Wrote result (writer_state W.contents out.old) (writer_state W.contents out.new) (each 0 (length at.now) (pc_line two (λ k. seen_line (slice_get at.now k)))) }
{
    if two {
        put_new_lines(out, at)
    } else {
        put_whole_lines(out, at)
    }
}

/// Writes the text of a certificate: a line for each of its states. In version 2 a state that stands on an earlier numbered line is
/// said by the number of the first such line. Takes no memory.
///
/// `WriteFault`: the writer failed or took no byte; a front of the text is written.
pub fn print_cert<W: Write>(cert: &Cert, out: &mut TextWriter<W>) -> Result<(), WriteFault>
    ensures { Wrote result (writer_state W.contents out.old) (writer_state W.contents out.new) (cert_text cert.now.version cert.now.slim (seen_cert cert.now)) }
{
    put_head(out, cert.version, cert.slim)?;
    put_between(out, b"idle ", &cert.idle)?;
    put_between(out, b"ready ", &cert.ready)?;
    put_lines(out, is_two(cert.version), cert.at.as_slice())?;
    put_all(out, b"end\n")
}
