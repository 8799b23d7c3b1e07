//! The site file, which says what file stands at what path.

ghost use Rattle.std.specs.Prelude.{◌≡◌, ◌<◌, ◌^◌, ℕ, List, length, None, true, false, IfOk, IfErr, OnOk, MatchOption, drop, ◌≤◌};
ghost use Rattle.http_message.specs.Prelude.{lines_of, route_of, no_routes, NamesFile, AddsLine, AddsNothing, AddsLines, SiteFailsAt};
ghost use Rattle.http_message.specs.declared.site_file.SiteRefusal.TheVariants.{Line, NoMemory};

use crate::site::{Site, SiteFault};
use byte_text::{after_token, first_line, token};
use std::alloc::{AllocError, Global};
use std::str;
use thiserror::Error;

/// How many bytes a site file has at most.
pub const SITE_BYTES: usize = 1_048_576;

/// What a line of a site file says: a path, and the name of the file that stands there.
#[derive(Clone, Copy)]
pub struct SiteLine<'a> {
    /// The path.
    pub path: &'a str,
    /// The name of the file.
    pub file: &'a str,
}

/// Why a text makes no site.
#[derive(Clone, Copy, Debug, Error)]
pub enum SiteRefusal {
    /// This line, counted from 1, is none, or its path is none or is taken by an earlier line.
    #[error("line {0}")]
    Line(usize),
    /// There was no memory.
    #[error("no memory")]
    NoMemory,
}

impl From<AllocError> for SiteRefusal {
    ghost from_gives = { λ _ e. e ≡ NoMemory };

    fn from(_error: AllocError) -> SiteRefusal {
        SiteRefusal::NoMemory
    }
}

/// The path and the file of a line: what stands before its first space, and the rest behind that, which is not empty; both are UTF-8.
pub fn site_line(text: &[u8]) -> Option<SiteLine<'_>>
    ensures { MatchOption result ((path file : List ℕ) → ¬ (NamesFile text.now path file)) (λ s. NamesFile text.now s.path.now s.file.now) }
{
    let [b' ', file @ ..] = after_token(text) else {
        return None;
    };
    if file.is_empty() {
        return None;
    }
    let Ok(file) = str::from_utf8(file) else {
        return None;
    };
    let Ok(path) = str::from_utf8(token(text)) else {
        return None;
    };
    Some(SiteLine { path, file })
}

/// Adds what a line says to a site, and answers whether it could be added. Where it could not, nothing changes.
fn add_line(site: &mut Site, text: &[u8], ended: bool) -> Result<bool, AllocError>
    ensures added { IfOk result (λ was. was ≡ true → AddsLine (record { text = text.now; ended = ended }) (route_of site.old) (route_of site.new)) }
    ensures refused { IfOk result (λ was. was ≡ false → AddsNothing (record { text = text.now; ended = ended }) (route_of site.old)) }
{
    if !ended {
        return Ok(false);
    }
    let Some(line) = site_line(text) else {
        return Ok(false);
    };
    match site.add(line.path, line.file.as_bytes()) {
        Ok(()) => Ok(true),
        Err(SiteFault::BadPath) => Ok(false),
        Err(SiteFault::Taken) => Ok(false),
        Err(SiteFault::NoMemory) => Err(AllocError),
    }
}

fn behind(bytes: &[u8], count: usize) -> &[u8]
    requires { count ≤ length bytes.now }
    ensures { result.now ≡ drop count bytes.now }
{
    &bytes[count..]
}

/// Adds what the lines of a text say to a site that has no path yet.
fn add_lines(site: &mut Site, text: &[u8]) -> Result<(), SiteRefusal>
    requires short { length text.now < 2 ^ 62 }
    requires new { (q : List ℕ) → route_of site.old q ≡ None }
    ensures site { OnOk result (AddsLines (lines_of text.now) no_routes (route_of site.new)) }
    ensures line { IfErr result (λ e. (k : ℕ) → e ≡ Line k → SiteFailsAt 1 (lines_of text.now) no_routes k) }
{
    let mut rest = text;
    let mut number = 0;
    while !rest.is_empty() {
        let line = first_line(rest);
        number += 1;
        if !add_line(site, line.text, line.ended)? {
            return Err(SiteRefusal::Line(number));
        }
        rest = behind(rest, line.width);
    }
    Ok(())
}

/// The site that a text says.
///
/// `Line`: this is the first line that is no `PATH FILE`, or whose path is no path of a site, or is that of an earlier line. `NoMemory`: there was
/// none for the site.
pub fn site_of(alloc: Global, text: &[u8]) -> Result<Site, SiteRefusal>
    requires { length text.now < 2 ^ 62 }
    ensures site { IfOk result (λ site. AddsLines (lines_of text.now) no_routes (route_of site)) }
    ensures line { IfErr result (λ e. (k : ℕ) → e ≡ Line k → SiteFailsAt 1 (lines_of text.now) no_routes k) }
{
    let mut site = Site::new(alloc);
    add_lines(&mut site, text)?;
    Ok(site)
}
