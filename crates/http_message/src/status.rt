//! The status codes of the server (RFC 9110, section 15).

ghost use Rattle.std.specs.Prelude.{◌≡◌, take, drop};
ghost use Rattle.http.specs.StatusCode.{code_digits};
ghost use Rattle.http_message.specs.Replying.{status_text};

use std::fmt;

/// The status code of a response.
#[derive(Clone, Copy, Debug, PartialEq, Eq)]
pub enum StatusCode {
    /// 200 (section 15.3.1).
    Success,
    /// 400 (section 15.5.1).
    BadRequest,
    /// 404 (section 15.5.5).
    NotFound,
    /// 405 (section 15.5.6).
    MethodNotAllowed,
    /// 413 (section 15.5.14).
    ContentTooLarge,
    /// 500 (section 15.6.1).
    InternalServerError,
    /// 501 (section 15.6.2).
    NotImplemented,
}

impl StatusCode {
    /// The code of three digits.
    pub(crate) fn code(self) -> http::StatusCode
        ensures { code_digits result ≡ take 3 (status_text self) }
    {
        match self {
            StatusCode::Success => http::StatusCode::OK,
            StatusCode::BadRequest => http::StatusCode::BAD_REQUEST,
            StatusCode::NotFound => http::StatusCode::NOT_FOUND,
            StatusCode::MethodNotAllowed => http::StatusCode::METHOD_NOT_ALLOWED,
            StatusCode::ContentTooLarge => http::StatusCode::PAYLOAD_TOO_LARGE,
            StatusCode::InternalServerError => http::StatusCode::INTERNAL_SERVER_ERROR,
            StatusCode::NotImplemented => http::StatusCode::NOT_IMPLEMENTED,
        }
    }

    /// The phrase of RFC 9110, which `http` does not have for each of them.
    pub(crate) fn phrase(self) -> &'static str
        ensures { result.now ≡ drop 4 (status_text self) }
    {
        match self {
            StatusCode::Success => "OK",
            StatusCode::BadRequest => "Bad Request",
            StatusCode::NotFound => "Not Found",
            StatusCode::MethodNotAllowed => "Method Not Allowed",
            StatusCode::ContentTooLarge => "Content Too Large",
            StatusCode::InternalServerError => "Internal Server Error",
            StatusCode::NotImplemented => "Not Implemented",
        }
    }
}

/// The code and its phrase.
impl fmt::Display for StatusCode {
    fn fmt<W: fmt::Write>(&self, f: &mut fmt::Formatter<W>) -> fmt::Result {
        write!(f, "{} {}", self.code().as_str(), self.phrase())
    }
}
