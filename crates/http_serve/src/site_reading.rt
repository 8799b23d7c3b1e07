//! The site, from its file.

use byte_streams::{READ_BYTES, READS};
use byte_text::{TextLine, first_line};
use filter_files::{StartCause, StartError, cannot_read, stop_for};
use http_message::{SITE_BYTES, Site, SiteFault, SiteRefusal, site_line, site_of};
use module_commands::NamedFile;
use std::alloc::Global;
use std::io::Read;
use std::rt::Files as FileSystem;

/// The stop of a site file that was not read whole.
fn unread_site(alloc: Global, name: &str, is_long: bool, cause: StartCause) -> StartError {
    if is_long {
        let words = "a site file has at most 1048576 bytes";
        return cannot_read(alloc, name, StartCause::Words(words));
    }
    cannot_read(alloc, name, cause)
}

/// The text of a site file. No more of it is read than a site file may have.
fn read_site_text<R: FileSystem + AllocGlobal>(rt: &R, name: &str) -> Result<Vec<u8>, StartError> {
    let mut reader = NamedFile::new(rt, name);
    let mut text = Vec::new(rt.alloc());
    let mut buffer = [0; READ_BYTES];
    for _ in 0..READS {
        if text.len() > SITE_BYTES {
            break;
        }
        match reader.read(&mut buffer) {
            Ok(0) => return Ok(text),
            Ok(count) => text.extend_from_slice(&buffer[..count])?,
            Err(_) => break,
        }
    }
    let cause = StartCause::of_fault(reader.fault());
    Err(unread_site(rt.alloc(), name, text.len() > SITE_BYTES, cause))
}

/// The line of this number, counted from 1.
fn line_at(text: &[u8], number: usize) -> TextLine<'_> {
    let mut rest = text;
    for _ in 1..number {
        let line = first_line(rest);
        rest = &rest[line.width..];
    }
    first_line(rest)
}

/// What is wrong with a line of a site file that was refused.
fn line_fault(alloc: Global, line: TextLine<'_>) -> &'static str {
    if !line.ended {
        return "the line does not end with LF";
    }
    let Some(named) = site_line(line.text) else {
        return "a line is a path, a space and the name of a file, in UTF-8";
    };
    match Site::new(alloc).add(named.path, named.file.as_bytes()) {
        Err(SiteFault::BadPath) => "a path is a slash, and letters, digits and -._~/ behind it",
        Ok(()) | Err(SiteFault::Taken | SiteFault::NoMemory) => "an earlier line has the path",
    }
}

/// The site that a file says.
pub fn read_site<R: FileSystem + AllocGlobal>(rt: &R, name: &str) -> Result<Site, StartError> {
    let alloc = rt.alloc();
    let text = read_site_text(rt, name)?;
    if text.len() > SITE_BYTES {
        return Err(unread_site(alloc, name, true, StartCause::InLine));
    }
    match site_of(alloc, text.as_slice()) {
        Ok(site) => Ok(site),
        Err(SiteRefusal::Line(number)) => {
            let words = line_fault(alloc, line_at(text.as_slice(), number));
            let line = format!(in alloc; "site line {number}\n");
            Err(stop_for(alloc, line, StartCause::Words(words)))
        }
        Err(SiteRefusal::NoMemory) => Err(StartError::NoMemory),
    }
}
