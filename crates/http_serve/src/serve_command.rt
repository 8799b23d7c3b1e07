//! The command `serve`: a chain of filters behind a port.

ghost use Rattle.std.specs.Prelude.{IfOk};
ghost use Rattle.filter_chain.specs.Safe.{IsSafe};
ghost use Rattle.http_front.specs.Driven.{IsAlive};

use crate::descriptors::{files_to_keep, too_few};
use crate::event_loop::serve_by_turns;
use crate::listening::{ServeSettings, serve_in_order};
use crate::site_reading::read_site;
use bucket_kinds::DiskFiles;
use filter_chain::{CheckedChain, Files, Host, Limits, RawRings, Rings, Stored};
use filter_files::{
    FileChain, ParamSetting, StartCause, StartError, read_chain, stop_for, stop_with, write_stop,
};
use http_message::Site;
use module_commands::PlayFault;
use std::alloc::{AllocError, Global};
use std::net::{IpAddr, Net, SocketAddr, TcpListener, TcpStream};
use std::os::unix::fs::FileExt;
use std::process::ExitCode;
use std::rt::{Clock, Runtime};
use std::time::Duration;

/// How many bytes a chain is handed at once at most.
const MOST_BRIGADE_BYTES: u64 = 65_536;

/// What `serve` is asked for.
#[derive(Drop)]
pub struct ServeOptions<'a> {
    /// The site file.
    pub site: &'a str,
    /// The address that is listened on, as it was given.
    pub listen: &'a str,
    /// The port.
    pub port: u16,
    /// How many connections are served; none: as many as come until the program is stopped.
    pub conns: Option<u32>,
    /// How many connections are served at once.
    pub at_once: u32,
    /// How many instructions a call of the chain may take.
    pub budget: u32,
    /// How many seconds a head may take, and a write.
    pub timeout: u32,
    /// Whether connections are logged on the standard error.
    pub logs: bool,
    /// The files of the filters, the first first.
    pub modules: Vec<&'a str>,
    /// The params that are set.
    pub settings: Vec<ParamSetting<'a>>,
}

/// The address and the port, where they are one.
fn address_of(options: &ServeOptions<'_>) -> Option<SocketAddr> {
    let address = options.listen.parse::<IpAddr>().ok()?;
    Some(SocketAddr::new(address, options.port))
}

fn cannot_listen(alloc: Global, cause: StartCause) -> StartError {
    stop_for(alloc, format!(in alloc; "cannot listen\n"), cause)
}

fn too_few_line(alloc: Global, at_once: u32, there: u64) -> Result<String, AllocError> {
    format!(in alloc; "cannot serve {at_once} at once: {there} descriptors\n")
}

/// Stops where the descriptors are too few to serve so many connections at once.
fn unless_too_few(alloc: Global, at_once: u32) -> Result<(), StartError> {
    match too_few(at_once) {
        None => Ok(()),
        Some(there) => Err(stop_with(alloc, too_few_line(alloc, at_once, there))),
    }
}

/// A host of this chain over the files of the runtime.
fn host_of<R, B>(
    rt: &R,
    options: &ServeOptions<'_>,
    chain: CheckedChain,
) -> Result<Host<DiskFiles<R>, B>, StartError>
where
    R: Runtime + AllocGlobal,
    R::File: FileExt,
    B: Rings<Stored> + Drop,
    ensures alive { IfOk result (IsAlive ⟦<DiskFiles<R> as Files>⟧.device) }
    ensures safe { IfOk result IsSafe }
{
    let files = DiskFiles::keeping(rt.clone()?, files_to_keep(options.at_once));
    let limits = Limits {
        budget: u64::from(options.budget),
    };
    Ok(Host::checked(rt.alloc(), files, chain, limits)?)
}

/// Listens. Answers the listener and its address.
fn listen<R>(rt: &R, options: &ServeOptions<'_>) -> Result<(TcpListener, SocketAddr), StartError>
where
    R: AllocGlobal + Net<Listener = TcpListener, Stream = TcpStream>,
{
    let Some(address) = address_of(options) else {
        let words = "what --listen names is no address of IPv4 or IPv6";
        return Err(cannot_listen(rt.alloc(), StartCause::Words(words)));
    };
    match TcpListener::bind(rt, address) {
        Ok(listener) => Ok((listener, address)),
        Err(fault) => Err(cannot_listen(rt.alloc(), StartCause::System(fault))),
    }
}

/// The system does not report what is ready.
fn log_events(rt: &impl Eprint) -> ExitCode {
    let _ = rt.eprintln("cannot wait for connections");
    ExitCode::FAILURE
}

/// Writes on the standard output where it listens. Answers whether it was written.
fn log_address<R: Print + Eprint>(rt: &R, address: SocketAddr) -> bool {
    let written = println!(rt; "listening on {address}").is_ok();
    if !written {
        let _ = rt.eprintln(PlayFault::Write);
    }
    written
}

/// Warns where a brigade of the most bytes may take more instructions than a call may.
fn warn_of_budget(rt: &impl Eprint, per_byte: u64, budget: u32) {
    let most = per_byte.saturating_mul(MOST_BRIGADE_BYTES);
    if u64::from(budget) < most {
        let enough = most.saturating_add(MOST_BRIGADE_BYTES);
        let _ = rt.eprintln(format_args!(
            "warning: the filters that have a bound take up to {per_byte} instructions for a byte of a page, {most} for {MOST_BRIGADE_BYTES} bytes, \
and a call may take {budget}: a long page may come as a 500; give --budget {enough}"
        ));
    }
}

/// How connections are served.
fn settings_of(options: &ServeOptions<'_>) -> ServeSettings {
    ServeSettings {
        conns: options.conns,
        at_once: usize::try_from(options.at_once).unwrap_or(1),
        patience: Duration::from_secs(u64::from(options.timeout)),
        logs: options.logs,
    }
}

/// Serves connections that come to a listener, one after another or many by turns.
fn serve_listener<R: Clock + Eprint + AllocGlobal + Net, F: Files + Drop, B: Rings<Stored> + Drop>(
    rt: &R,
    host: &mut Host<F, B>,
    site: &Site,
    listener: TcpListener,
    settings: ServeSettings,
) -> ExitCode
    requires { IsAlive F.device host.old }
{
    if settings.at_once <= 1 {
        serve_in_order(rt, &listener, site, host, settings);
        return ExitCode::SUCCESS;
    }
    if listener.set_nonblocking(true).is_err() {
        return log_events(rt);
    }
    let acceptor = mio::net::TcpListener::from_std(listener);
    match serve_by_turns(rt, acceptor, site, host, settings) {
        Ok(()) => ExitCode::SUCCESS,
        Err(_) => log_events(rt),
    }
}

/// Listens, and serves what comes: what listens has a host of a chain that is accepted, which never faults.
fn serve_site<R, F: Files + Drop, B: Rings<Stored> + Drop>(
    rt: &R,
    options: &ServeOptions<'_>,
    host: &mut Host<F, B>,
    site: &Site,
) -> ExitCode
where
    R: Clock + Print + Eprint + AllocGlobal + Net<Listener = TcpListener, Stream = TcpStream>,
    requires alive { IsAlive F.device host.old }
    requires safe { IsSafe host.old }
{
    match listen(rt, options) {
        Ok((listener, address)) if log_address(rt, address) => {
            serve_listener(rt, host, site, listener, settings_of(options))
        }
        Ok(_) => ExitCode::FAILURE,
        Err(why) => write_stop(rt, why),
    }
}

/// Reads and checks the chain, reads the site, and serves it.
fn serve_files<R, B>(rt: &R, options: &mut ServeOptions<'_>) -> Result<ExitCode, StartError>
where
    R: Runtime + AllocGlobal + Net<Listener = TcpListener, Stream = TcpStream>,
    R::File: FileExt,
    B: Rings<Stored> + Drop,
{
    unless_too_few(rt.alloc(), options.at_once)?;
    let settings = options.settings.as_mut_slice();
    let FileChain { chain, per_byte } = read_chain(rt, options.modules.as_slice(), settings)?;
    let site = read_site(rt, options.site)?;
    warn_of_budget(rt, per_byte, options.budget);
    let mut host = host_of::<R, B>(rt, options, chain)?;
    Ok(serve_site(rt, options, &mut host, &site))
}

/// Serves connections behind a port. What it writes goes to the standard output, and what it logs to the standard error. It fails where the chain
/// or the site is none, where the port is not to be had, and where the standard output fails; a connection that fails ends alone.
pub fn run_serve<R>(rt: &R, options: &mut ServeOptions<'_>) -> ExitCode
where
    R: Runtime + AllocGlobal + Net<Listener = TcpListener, Stream = TcpStream>,
    R::File: FileExt,
{
    match serve_files::<R, RawRings<Stored>>(rt, options) {
        Ok(code) => code,
        Err(why) => write_stop(rt, why),
    }
}
