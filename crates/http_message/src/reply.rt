//! What a request is answered.

ghost use Rattle.std.specs.Prelude.{◌≡◌, bytes_eq};
ghost use Rattle.http_message.specs.Asking.{method_of, version_of};

use crate::failure::Failure;
use crate::status::StatusCode;
use byte_text::BlockBytes;

/// The version of a request (RFC 9112, section 2.3).
#[derive(Clone, Copy, Debug, PartialEq, Eq)]
pub enum Version {
    /// HTTP/1.0.
    Http10,
    /// HTTP/1.1.
    Http11,
}

impl Version {
    /// The version of a head, by its minor number.
    pub fn of(minor: u8) -> Version
        ensures { result ≡ version_of minor }
    {
        if minor == 0 {
            return Version::Http10;
        }
        Version::Http11
    }
}

/// The method of a request, as far as its response depends on it (RFC 9110, section 9.3).
#[derive(Clone, Copy, Debug, PartialEq, Eq)]
pub enum Method {
    /// GET (section 9.3.1).
    Get,
    /// HEAD (section 9.3.2).
    Head,
    /// A method that is refused.
    Other,
}

/// Whether this is the method that was sent. Its case counts (RFC 9110, section 9.1).
pub(crate) fn is_method(sent: &[u8], method: &http::Method) -> bool
    ensures { result ≡ bytes_eq sent.now method.now }
{
    sent == method.as_str().as_bytes()
}

impl Method {
    /// The method that was sent.
    pub fn of(sent: &[u8]) -> Method
        ensures { result ≡ method_of sent.now }
    {
        if is_method(sent, &http::Method::GET) {
            return Method::Get;
        }
        if is_method(sent, &http::Method::HEAD) {
            return Method::Head;
        }
        Method::Other
    }
}

/// A response.
#[derive(Drop)]
pub struct Reply {
    /// The status.
    pub status: StatusCode,
    /// The version of the request.
    pub version: Version,
    /// The method of the request.
    pub method: Method,
    /// Whether the connection closes after it.
    pub closes: bool,
    /// The body, which goes out where a GET succeeds.
    pub body: BlockBytes,
    /// Why the status is 500.
    pub failure: Option<Failure>,
}
