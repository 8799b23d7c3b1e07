//! Rows of modules and certificates: they are printed, made and checked, alone and in chains.

ghost use Rattle.std.specs.Prelude.{◌≡◌, ◌<◌, ◌≤◌, length};
ghost use Rattle.byte_streams.specs.Counted.{reads_left};

use crate::missing::Missing;
use crate::modules::{
    ALIAS_CERT, ALIAS_DELETED, ALIAS_WITHOUT_FACT, ASIDE_CERT, ASIDE_INTO_REQUEST, IDENTITY,
    IDENTITY_CERT, IDENTITY_SLIM, IDENTITY_TWO, KEEPER_CONCATS, LOOPING_INIT, NEXT_THEN_UNLINK,
    READ_AFTER_DELETE, REUSED_PASSED_BRIGADE,
};
use anyhow::Result;
use byte_streams::{CountedSource, READS};
use module_commands::{Loaded, load_part, run_assemble, run_certify, run_check, run_upgrade};
use script_text::{MODULES, ScriptModule, accept_parts, rule_name};
use std::alloc::Global;
use std::io::{self, Write};

/// The texts of a module and of its certificate, how lines of that begin in whose place others stand, or nothing, and these.
#[derive(Clone, Copy)]
struct WithCert(&'static [u8], &'static str, &'static str, &'static str);

/// A row of modules and certificates.
#[derive(Clone, Copy)]
enum Row {
    /// What the next rows are of.
    Says(&'static str),
    /// The module of this text is printed.
    Printed(&'static [u8]),
    /// A certificate is made of it.
    Made(&'static [u8]),
    /// The same, in its slim form.
    Slim(&'static [u8]),
    /// A module is checked with a certificate.
    Checked(&'static str, WithCert),
    /// The certificate of a module is printed in version 2.
    Upgraded(WithCert),
    /// The module that passes on, with its certificate without the line of this number.
    Without(&'static str),
    /// Modules with their certificates are a chain.
    Chain(&'static [WithCert]),
}

const PASSED_ON: WithCert = WithCert(IDENTITY, IDENTITY_CERT, "", "");

/// A text is read as a module, which is printed in the one way. A certificate is made where no instruction may have a fault; else the
/// lowest that may is told. It is accepted where its states follow from one another, and refused without any one of its lines. One of version
/// 1 that is accepted is printed in version 2. A chain is accepted where each module is; else the first is told that is not.
static ROWS: &[Row] = &[
    Row::Says("a module is printed"),
    Row::Printed(IDENTITY),
    Row::Says("certificates are made"),
    Row::Made(IDENTITY),
    Row::Made(NEXT_THEN_UNLINK),
    Row::Made(LOOPING_INIT),
    Row::Made(KEEPER_CONCATS),
    Row::Made(REUSED_PASSED_BRIGADE),
    Row::Made(READ_AFTER_DELETE),
    Row::Made(ALIAS_DELETED),
    Row::Made(ASIDE_INTO_REQUEST),
    Row::Says("certificates are checked"),
    Row::Checked("of what passes on what it gets", PASSED_ON),
    Row::Checked(
        "of two cursors that may be at one bucket",
        WithCert(ALIAS_DELETED, ALIAS_WITHOUT_FACT, "", ""),
    ),
    Row::Checked(
        "of the same, said to be at two",
        WithCert(ALIAS_DELETED, ALIAS_CERT, "", ""),
    ),
    Row::Checked(
        "of what is kept past its request",
        WithCert(ASIDE_INTO_REQUEST, ASIDE_CERT, "", ""),
    ),
    Row::Without("0"),
    Row::Without("1"),
    Row::Without("2"),
    Row::Without("3"),
    Row::Without("4"),
    Row::Without("5"),
    Row::Without("6"),
    Row::Without("7"),
    Row::Checked(
        "with ready as idle",
        WithCert(IDENTITY, IDENTITY_CERT, "ready", "ready sent=no\n"),
    ),
    Row::Says("slim certificates"),
    Row::Slim(IDENTITY),
    Row::Checked(
        "of what passes on what it gets",
        WithCert(IDENTITY, IDENTITY_SLIM, "", ""),
    ),
    Row::Checked(
        "without the state of a target",
        WithCert(IDENTITY, IDENTITY_SLIM, "5 ", ""),
    ),
    Row::Checked(
        "with a state elsewhere",
        WithCert(
            IDENTITY,
            IDENTITY_SLIM,
            "5 ",
            "3 sent=no in=u/o/call\n5 sent=maybe in=u/o/call\n",
        ),
    ),
    Row::Says("certificates of version 2"),
    Row::Checked(
        "of what passes on what it gets",
        WithCert(IDENTITY, IDENTITY_TWO, "", ""),
    ),
    Row::Checked(
        "of nine instructions",
        WithCert(IDENTITY, IDENTITY_TWO, "code", "code 9\n"),
    ),
    Row::Checked(
        "with a state where `same` is due",
        WithCert(IDENTITY, IDENTITY_TWO, "5 ", "5 sent=maybe in=u/o/call\n"),
    ),
    Row::Checked(
        "with `same` of a later line",
        WithCert(IDENTITY, IDENTITY_TWO, "3 ", "3 same 4\n"),
    ),
    Row::Says("certificates are upgraded"),
    Row::Upgraded(PASSED_ON),
    Row::Upgraded(WithCert(IDENTITY, IDENTITY_SLIM, "", "")),
    Row::Upgraded(WithCert(IDENTITY, IDENTITY_TWO, "", "")),
    Row::Upgraded(WithCert(IDENTITY, IDENTITY_CERT, "4 ", "")),
    Row::Says("certificates that are none"),
    Row::Checked(
        "without its end",
        WithCert(IDENTITY, IDENTITY_CERT, "end", ""),
    ),
    Row::Checked(
        "the same in its slim form",
        WithCert(IDENTITY, IDENTITY_SLIM, "end", ""),
    ),
    Row::Checked(
        "with a word that is none",
        WithCert(IDENTITY, IDENTITY_CERT, "idle", "idle sent=yes\n"),
    ),
    Row::Says("chains are accepted"),
    Row::Chain(&[PASSED_ON, PASSED_ON]),
    Row::Chain(&[PASSED_ON, WithCert(ALIAS_DELETED, ALIAS_CERT, "", "")]),
    Row::Chain(&[
        PASSED_ON,
        WithCert(IDENTITY, IDENTITY_CERT, "ready", "ready none\n"),
    ]),
];

/// The text of a certificate, with other lines in place of some.
fn cert_of(alloc: Global, with: WithCert) -> Result<String> {
    let WithCert(_, cert, begins, instead) = with;
    let mut text = String::new(alloc);
    for line in cert.split_inclusive('\n') {
        if !begins.is_empty() && line.as_bytes().starts_with(begins.as_bytes()) {
            text.push_str(instead)?;
        } else {
            text.push_str(line)?;
        }
    }
    Ok(text)
}

/// A text to be read.
fn source(text: &[u8]) -> CountedSource<&[u8]>
    ensures { reads_left result ≡ READS }
{
    CountedSource::new(text, READS)
}

/// Checks a module with a certificate, and adds what is told.
fn write_checked(alloc: Global, with: WithCert, out: &mut Vec<u8>) -> Result<()> {
    let cert = cert_of(alloc, with)?;
    let mut cert = source(cert.as_bytes());
    run_check(alloc, &mut source(with.0), &mut cert, out)?;
    Ok(())
}

/// Prints the certificate of a module in version 2, and adds what is told.
fn write_upgraded(alloc: Global, with: WithCert, out: &mut Vec<u8>) -> Result<()> {
    let cert = cert_of(alloc, with)?;
    let mut cert = source(cert.as_bytes());
    run_upgrade(alloc, &mut source(with.0), &mut cert, out)?;
    Ok(())
}

/// Adds what a row of a module tells.
fn write_row(alloc: Global, row: Row, out: &mut Vec<u8>) -> Result<()> {
    match row {
        Row::Printed(text) => run_assemble(alloc, &mut source(text), out)?,
        Row::Made(text) => run_certify(alloc, &mut source(text), out, false)?,
        Row::Slim(text) => run_certify(alloc, &mut source(text), out, true)?,
        Row::Checked(_, with) => return write_checked(alloc, with, out),
        Row::Upgraded(with) => return write_upgraded(alloc, with, out),
        Row::Without(line) => {
            return write_checked(alloc, WithCert(IDENTITY, IDENTITY_CERT, line, ""), out);
        }
        Row::Says(_) | Row::Chain(_) => return Ok(()),
    };
    Ok(())
}

/// A module with its certificate.
fn part_of(alloc: Global, with: WithCert) -> Result<ScriptModule> {
    let cert = cert_of(alloc, with)?;
    let mut cert = source(cert.as_bytes());
    match load_part(alloc, &mut source(with.0), &mut cert)? {
        Loaded::Part(part) => Ok(part),
        Loaded::Refused(_) => Err(Missing.into()),
    }
}

/// Tells whether a chain is accepted.
fn show_chain(rt: &HostRuntime, chain: &[WithCert]) -> Result<()> {
    let mut parts = Vec::new(rt.alloc());
    for with in chain {
        parts.push(part_of(rt.alloc(), *with)?)?;
    }
    if parts.is_empty() || parts.len() > MODULES {
        return Err(Missing.into());
    }
    match accept_parts(rt.alloc(), parts)? {
        Ok(chain) => println!(rt; "accepted, of {} modules", chain.modules().len())?,
        Err(refused) => {
            let (pc, name) = (refused.refusal.pc, rule_name(refused.refusal.rule));
            println!(rt; "refused module {} at {pc}: {name}", refused.index)?;
        }
    }
    Ok(())
}

/// Tells a row of a module.
fn show_told(rt: &HostRuntime, row: Row) -> Result<()> {
    let mut out = Vec::new(rt.alloc());
    write_row(rt.alloc(), row, &mut out)?;
    io::writer(rt).write_all(out.as_slice())?;
    Ok(())
}

fn show_row(rt: &HostRuntime, row: Row) -> Result<()> {
    match row {
        Row::Says(text) => return Ok(println!(rt; "{text}")?),
        Row::Chain(chain) => return show_chain(rt, chain),
        Row::Checked(what, _) => print!(rt; "{what}: ")?,
        Row::Without(line) => print!(rt; "without line {line}: ")?,
        _ => {}
    }
    show_told(rt, row)
}

/// Tells the rows one after another.
pub(crate) fn show_rows(rt: &HostRuntime) -> Result<()> {
    for row in ROWS {
        show_row(rt, *row)?;
    }
    Ok(())
}
