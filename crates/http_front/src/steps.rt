//! What a step of a connection does, and how many bytes it looks at.

ghost use Rattle.std.specs.Prelude.{◌≡◌, ◌≤◌, ◌&&◌, length, take, nat_le};

// The bytes of a head, and its fields, at most.
pub(crate) const HEAD_LIMIT: usize = 8192;

pub(crate) const FIELDS_LIMIT: usize = 64;

/// What a step does.
#[derive(Clone, Copy, Debug, PartialEq, Eq)]
pub(crate) enum ServeStep {
    /// A request of so many bytes is answered, and the connection stays open.
    Stays(usize),
    /// A request of so many bytes is answered, and the connection closes.
    Closes(usize),
    /// The bytes begin with no head: 400, and the connection closes.
    Refused,
    /// More bytes are needed.
    More,
    /// There are no bytes, and no more come.
    Done,
}

pub(crate) fn ends_within(eof: bool, size: usize, limit: usize) -> bool
    ensures { result ≡ (eof && nat_le size limit) }
{
    eof && size <= limit
}

pub(crate) fn front(bytes: &[u8], limit: usize) -> &[u8]
    ensures is { result.now ≡ take limit bytes.now }
    ensures size { length result.now ≤ limit }
{
    if bytes.len() <= limit {
        return bytes;
    }
    &bytes[..limit]
}
