//! Worked values: rows of rings, pools, buckets, brigades, regions, files of a disk, modules and certificates, of responses of the server and of
//! streams that fail, and scripts. What they must print is `stdout`.
#![tactic(auto)]

mod brigades;
mod buckets;
mod certs;
mod commands;
mod disk;
mod failing;
mod missing;
mod modules;
mod names;
mod pages;
mod pools;
mod reads;
mod regions;
mod requests;
mod rings;
mod scripts;
mod shown;
mod sizes;
mod stopped_clock;
mod streams;

use anyhow::Result;
use bucket_ring::{PlainRings, RawRings, Rings};
use filter_chain::Stored;
use std::env;
use std::io::{self, Read, Write};

/// Tells what no script can show. The commands on rings go through rings of two kinds.
fn show_rows<P: Rings<u8> + Drop, R: Rings<u8> + Drop, S: Rings<Stored> + Drop>(
    rt: &HostRuntime,
) -> Result<()> {
    commands::commands_alike::<P, R>(rt)?;
    sizes::node_sizes(rt)?;
    names::names_spent_rings_and_pools::<R>(rt)?;
    pools::destroy_run_order(rt)?;
    regions::region_spans(rt)?;
    buckets::show_rows(rt)?;
    brigades::show_rows::<S>(rt)?;
    disk::show_rows(rt)?;
    reads::read_bucket_sizes(rt)?;
    certs::show_rows(rt)?;
    requests::show_rows::<S>(rt)?;
    requests::cut_requests::<S>(rt)?;
    failing::failing_streams::<S>(rt)
}

/// Plays the scripts of the standard input.
fn play<R: Rings<Stored> + Drop>(rt: &HostRuntime) -> Result<()> {
    let mut input = Vec::new(rt.alloc());
    rt.stdin().read_to_end(&mut input)?;
    let mut told = Vec::new(rt.alloc());
    let played = scripts::play_all::<R>(rt.alloc(), input.as_slice(), &mut told);
    io::writer(rt).write_all(told.as_slice())?;
    played
}

/// Tells the rows where a word is given, and then plays the scripts.
fn main(rt: HostRuntime) -> Result<()> {
    if env::args(&rt)?.count() > 1 {
        show_rows::<PlainRings<u8>, RawRings<u8>, RawRings<Stored>>(&rt)?;
    }
    play::<RawRings<Stored>>(&rt)
}
