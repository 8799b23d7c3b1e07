//! A server in memory: its files, its chain, and what it answers to a stream.

ghost use Rattle.std.specs.Prelude.{IfOk};
ghost use Rattle.http_front.specs.Driven.{IsAlive};

use crate::missing::Missing;
use crate::shown::shown;
use crate::stopped_clock::StoppedClock;
use anyhow::Result;
use byte_streams::{CountedSource, READS, Sink, Source};
use filter_chain::{CheckedChain, Files, Host, Limits, MemFiles, Rings, Stored};
use http_front::{FrontFault, Served, Site, serve};
use life_cert::make;
use life_check::accept_chain;
use module_lang::assemble;
use std::alloc::Global;
use std::io::{self, Write};

/// Sunday, 6 November 1994, at 08:49:37 (RFC 9110, section 5.6.7).
pub(crate) const MOMENT: u64 = 784_111_777;

/// The program's own budget.
pub(crate) const BUDGET: u64 = 1_000_000;

/// What a row is served by.
#[derive(Clone, Copy)]
pub(crate) struct Server {
    /// The one filter of the chain.
    pub(crate) module: &'static [u8],
    /// How many instructions a call may take.
    pub(crate) budget: u64,
    /// The moment that it is.
    pub(crate) moment: u64,
    /// Which of the openings and reads of its files fails, counted from 1; 0: none does.
    pub(crate) fails_at: u64,
}

/// The chain of one module, which is accepted.
fn chain(alloc: Global, text: &[u8]) -> Result<CheckedChain> {
    let code = assemble(alloc, text)?;
    let Ok(cert) = make(alloc, &code) else {
        return Err(Missing.into());
    };
    match accept_chain(alloc, vec![in alloc; (code, cert)]?) {
        Ok(chain) => Ok(chain),
        Err(_) => Err(Missing.into()),
    }
}

/// A short file, an empty one and a long one.
fn files(alloc: Global, fails_at: u64) -> Result<MemFiles> {
    let mut files = MemFiles::new(alloc);
    files.fail_at(fails_at);
    files.add(b"a", b"hi".to_vec(alloc)?)?;
    files.add(b"e", Vec::new(alloc))?;
    files.add(b"l", vec![in alloc; b'x'; 65_537]?)?;
    Ok(files)
}

fn add_pages(site: &mut Site) -> Result<()> {
    site.add("/a", b"a")?;
    site.add("/e", b"e")?;
    site.add("/l", b"l")?;
    site.add("/m", b"m")?;
    Ok(())
}

/// Each file under a path of one letter, and a path whose file is not there.
pub(crate) fn site(alloc: Global) -> Result<Site> {
    let mut site = Site::new(alloc);
    add_pages(&mut site)?;
    Ok(site)
}

/// A host of the chain and the files of a server.
pub(crate) fn host<B: Rings<Stored> + Drop>(
    alloc: Global,
    server: Server,
) -> Result<Host<MemFiles, B>>
    ensures { IfOk result (λ h. IsAlive ⟦<MemFiles as Files>⟧.device h) }
{
    let limits = Limits {
        budget: server.budget,
    };
    let files = files(alloc, server.fails_at)?;
    if files.next_number() == 0 {
        return Err(Missing.into());
    }
    Ok(Host::checked(alloc, files, chain(alloc, server.module)?, limits)?)
}

/// Serves a site to what a reader gives.
fn serve_site<B: Rings<Stored> + Drop, R: Source, W: Sink>(
    alloc: Global,
    server: Server,
    site: &Site,
    reader: &mut CountedSource<R>,
    writer: &mut W,
) -> Result<Result<Served, FrontFault>> {
    let mut host = host::<B>(alloc, server)?;
    let mut clock = StoppedClock(server.moment);
    Ok(serve(alloc, reader, writer, site, &mut host, &mut clock))
}

/// Serves what a reader gives.
pub(crate) fn serve_all<B: Rings<Stored> + Drop, R: Source, W: Sink>(
    alloc: Global,
    server: Server,
    reader: &mut CountedSource<R>,
    writer: &mut W,
) -> Result<Result<Served, FrontFault>> {
    let site = site(alloc)?;
    serve_site::<B, R, W>(alloc, server, &site, reader, writer)
}

/// Serves a stream, and tells how many responses were written, and what.
pub(crate) fn answers<B: Rings<Stored> + Drop>(
    alloc: Global,
    server: Server,
    stream: &[u8],
) -> Result<(u64, Vec<u8>)> {
    let mut reader = CountedSource::new(stream, READS);
    let mut written = Vec::new(alloc);
    match serve_all::<B, _, _>(alloc, server, &mut reader, &mut written)? {
        Ok(served) => Ok((served.requests, written)),
        Err(fault) => Err(fault.kind.into()),
    }
}

/// Serves a stream, and prints what is written.
pub(crate) fn show<B: Rings<Stored> + Drop>(
    rt: &HostRuntime,
    server: Server,
    what: &str,
    stream: &[u8],
) -> Result<()> {
    let (requests, written) = answers::<B>(rt.alloc(), server, stream)?;
    println!(rt; "{what}: {requests} answered")?;
    let text = shown(rt.alloc(), written.as_slice())?;
    io::writer(rt).write_all(text.as_slice())?;
    Ok(())
}
