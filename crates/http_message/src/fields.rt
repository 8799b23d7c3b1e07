//! What the field lines of a request ask for.

ghost use Rattle.std.specs.Prelude.{◌≡◌, map, length, All};
ghost use Rattle.std.specs.List.{list_all, list_any};
ghost use Rattle.std.specs.Char.{is_ascii_digit};
ghost use Rattle.http_message.specs.Prelude.{IsHeaderWithin, header_bytes, hosts_fit, is_digits, is_zeros, is_bad_length, has_content, field_refusal, closes};
ghost use Rattle.http1.specs.Fields.{known_fields};

use crate::status::StatusCode;
use http1::fields::KnownFields;
use http1::text::eq_ignore_case;
use httparse::spans::HeaderSpan;

fn all_digits(value: &[u8]) -> bool
    ensures { result ≡ list_all is_ascii_digit value.now }
{
    for b in value {
        if !b.is_ascii_digit() {
            return false;
        }
    }
    true
}

fn is_digits(value: &[u8]) -> bool
    ensures { result ≡ is_digits value.now }
{
    !value.is_empty() && all_digits(value)
}

fn is_zeros(value: &[u8]) -> bool
    ensures { result ≡ is_zeros value.now }
{
    for b in value {
        if *b != b'0' {
            return false;
        }
    }
    true
}

#[tactic(auto, unfolding(crate::specs::Fields::is_bad_length))]
fn is_bad_length(name: &[u8], value: &[u8]) -> bool
    ensures { result ≡ is_bad_length (name.now, value.now) }
{
    eq_ignore_case(name, b"content-length") && !is_digits(value)
}

#[tactic(auto, unfolding(crate::specs::Fields::has_content))]
fn has_content(name: &[u8], value: &[u8]) -> bool
    ensures { result ≡ has_content (name.now, value.now) }
{
    (eq_ignore_case(name, b"content-length") && !is_zeros(value))
        || eq_ignore_case(name, b"transfer-encoding")
}

/// Whether a Content-Length is no number, and whether a field tells of content.
fn tests_of_content(buf: &[u8], spans: &[HeaderSpan]) -> (bool, bool)
    requires { All (IsHeaderWithin (length buf.now)) spans.now }
    ensures bad { result.0 ≡ list_any is_bad_length (map (header_bytes buf.now) spans.now) }
    ensures content { result.1 ≡ list_any has_content (map (header_bytes buf.now) spans.now) }
{
    let mut bad = false;
    let mut content = false;
    for span in spans {
        let name = span.name.of(buf);
        let value = span.value.of(buf);
        bad |= is_bad_length(name, value);
        content |= has_content(name, value);
    }
    (bad, content)
}

#[tactic(auto, unfolding(crate::specs::Fields::hosts_fit, http1::specs::Fields::known_fields))]
fn hosts_fit(minor: u8, buf: &[u8], spans: &[HeaderSpan]) -> bool
    requires { All (IsHeaderWithin (length buf.now)) spans.now }
    ensures { result ≡ hosts_fit minor (map (header_bytes buf.now) spans.now) }
{
    let known = KnownFields::from_spans(buf, spans);
    known.hosts <= 1 && (minor == 0 || known.hosts > 0)
}

/// The status that refuses a request with these fields: 400 for a Host line too many or too few
/// (RFC 9112, section 3.2) and for a Content-Length that is no number (section 6.3), 413 for content.
#[tactic(auto, unfolding(crate::specs::Fields::field_refusal))]
pub(crate) fn field_refusal(minor: u8, buf: &[u8], spans: &[HeaderSpan]) -> Option<StatusCode>
    requires { All (IsHeaderWithin (length buf.now)) spans.now }
    ensures { result ≡ field_refusal minor (map (header_bytes buf.now) spans.now) }
{
    let (bad, content) = tests_of_content(buf, spans);
    if !hosts_fit(minor, buf, spans) || bad {
        return Some(StatusCode::BadRequest);
    }
    if content {
        return Some(StatusCode::ContentTooLarge);
    }
    None
}

/// Whether the client wants no further request on the connection (RFC 9112, section 9.6).
#[tactic(auto, unfolding(crate::specs::Fields::closes, http1::specs::Fields::known_fields))]
pub(crate) fn closes(minor: u8, buf: &[u8], spans: &[HeaderSpan]) -> bool
    requires { All (IsHeaderWithin (length buf.now)) spans.now }
    ensures { result ≡ closes minor (map (header_bytes buf.now) spans.now) }
{
    minor == 0 || KnownFields::from_spans(buf, spans).close
}
