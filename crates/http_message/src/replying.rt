//! The text of a response.

ghost use Rattle.std.specs.Prelude.{◌≡◌, ◌++◌, ℕ, List, IsOk, OnOk, codes};
ghost use Rattle.http_message.specs.Replying.{status_text, allow_line, connection_line, framing_line, has_body, has_chunks, size_line, last_chunk, chunk_line, opening, middle, closing, IsDateLine};

use crate::reply::{Method, Reply, Version};
use crate::status::StatusCode;
use httpdate::HttpDate;
use std::alloc::AllocError;
use std::io;
use std::io::Write;

/// Puts the code and its phrase (RFC 9112, section 4).
fn put_status(status: StatusCode, out: &mut Vec<u8>) -> Result<(), AllocError>
    ensures { OnOk result (out.new.items ≡ out.old.items ++ status_text status) }
{
    out.extend_from_slice(status.code().as_str().as_bytes())?;
    out.extend_from_slice(b" ")?;
    out.extend_from_slice(status.phrase().as_bytes())
}

/// Puts the Date line at a moment in seconds since 1970 (RFC 9110, section 6.6.1); none after the year 9999.
fn put_date_line(moment: u64, out: &mut Vec<u8>) -> Result<(), AllocError>
    ensures { OnOk result ((line : List ℕ) × IsDateLine moment line × (out.new.items ≡ out.old.items ++ line)) }
{
    match HttpDate::from_unix_secs(moment) {
        Ok(date) => {
            out.extend_from_slice(b"Date: ")?;
            out.extend_from_slice(&date.to_bytes())?;
            out.extend_from_slice(b"\r\n")
        }
        Err(_) => Ok(()),
    }
}

fn allow_line(status: StatusCode) -> &'static str
    ensures { result.now ≡ allow_line status }
{
    match status {
        StatusCode::MethodNotAllowed => "Allow: GET, HEAD\r\n",
        StatusCode::Success
        | StatusCode::BadRequest
        | StatusCode::NotFound
        | StatusCode::ContentTooLarge
        | StatusCode::InternalServerError
        | StatusCode::NotImplemented => "",
    }
}

fn connection_line(closes: bool) -> &'static str
    ensures { result.now ≡ connection_line closes }
{
    if closes {
        return "Connection: close\r\n";
    }
    ""
}

/// A vector lacks nothing but memory.
fn unless_full(written: io::Result<()>) -> Result<(), AllocError>
    ensures { OnOk result (IsOk written) }
{
    match written {
        Ok(()) => Ok(()),
        Err(_) => Err(AllocError),
    }
}

/// Puts the line that frames the body, if there is one, and the empty line behind the head.
fn put_framing_line(
    status: StatusCode,
    version: Version,
    method: Method,
    size: usize,
    out: &mut Vec<u8>,
) -> Result<(), AllocError>
    ensures { OnOk result (out.new.items ≡ out.old.items ++ (framing_line status version method size ++ codes "\r\n")) }
{
    match (status, version, method) {
        (StatusCode::Success, Version::Http11, _) => {
            out.extend_from_slice(b"Transfer-Encoding: chunked\r\n\r\n")
        }
        (StatusCode::Success, Version::Http10, Method::Get) => {
            unless_full(write!(out, "Content-Length: {size}\r\n\r\n"))
        }
        (StatusCode::Success, Version::Http10, _) => out.extend_from_slice(b"\r\n"),
        _ => out.extend_from_slice(b"Content-Length: 0\r\n\r\n"),
    }
}

fn has_body(status: StatusCode, method: Method) -> bool
    ensures { result ≡ has_body status method }
{
    matches!((status, method), (StatusCode::Success, Method::Get))
}

fn has_chunks(reply: &Reply) -> bool
    ensures { result ≡ has_chunks reply.now.status reply.now.version reply.now.method }
{
    match reply.version {
        Version::Http11 => has_body(reply.status, reply.method),
        Version::Http10 => false,
    }
}

fn put_size_line(size: usize, out: &mut Vec<u8>) -> Result<(), AllocError>
    ensures { OnOk result (out.new.items ≡ out.old.items ++ size_line size) }
{
    if size == 0 {
        return Ok(());
    }
    unless_full(write!(out, "{size:x}\r\n"))
}

fn last_chunk(size: usize) -> &'static str
    ensures { result.now ≡ last_chunk size }
{
    if size == 0 {
        return "0\r\n\r\n";
    }
    "\r\n0\r\n\r\n"
}

fn put_chunk_line(reply: &Reply, out: &mut Vec<u8>) -> Result<(), AllocError>
    ensures { OnOk result (out.new.items ≡ out.old.items ++ chunk_line reply.now) }
{
    if has_chunks(reply) {
        return put_size_line(reply.body.as_slice().len(), out);
    }
    Ok(())
}

/// Puts the text before the body of a response: its head (RFC 9112, section 4), with the Date line at a moment in seconds since 1970, and the
/// size of its chunk. Without memory a front of it is put.
pub fn put_opening(reply: &Reply, moment: u64, out: &mut Vec<u8>) -> Result<(), AllocError>
    ensures { OnOk result ((date : List ℕ) × IsDateLine moment date × (out.new.items ≡ out.old.items ++ opening reply.now date)) }
{
    let size = reply.body.as_slice().len();
    out.extend_from_slice(b"HTTP/1.1 ")?;
    put_status(reply.status, out)?;
    out.extend_from_slice(b"\r\n")?;
    put_date_line(moment, out)?;
    out.extend_from_slice(allow_line(reply.status).as_bytes())?;
    out.extend_from_slice(connection_line(reply.closes).as_bytes())?;
    put_framing_line(reply.status, reply.version, reply.method, size, out)?;
    put_chunk_line(reply, out)
}

/// The body of a response as it is sent: that of a GET that succeeds (RFC 9110, section 6.4.1).
#[tactic(auto, unfolding(crate::specs::Replying::middle))]
pub fn middle(reply: &Reply) -> &[u8]
    ensures { result.now ≡ middle reply.now }
{
    if has_body(reply.status, reply.method) {
        return reply.body.as_slice();
    }
    b""
}

/// The text after the body of a response: the end of its chunks (RFC 9112, section 7.1).
#[tactic(auto, unfolding(crate::specs::Replying::closing))]
pub fn closing(reply: &Reply) -> &'static str
    ensures { result.now ≡ closing reply.now }
{
    if has_chunks(reply) {
        return last_chunk(reply.body.as_slice().len());
    }
    ""
}
