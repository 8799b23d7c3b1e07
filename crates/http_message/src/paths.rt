//! The path that a request asks for, decoded.

ghost use Rattle.std.specs.Prelude.{◌≡◌, IfOk};
ghost use Rattle.std.specs.Cow.{cow_slice_items};
ghost use Rattle.percent_encoding.specs.Percent.{percent_decode};

use percent_encoding::percent_decode;
use std::alloc::{AllocError, Global};
use std::borrow::CowSlice;

/// The path with each escape replaced by its byte, once (RFC 3986, section 2.1). A `%` without two
/// hexadecimal digits stays.
pub fn decoded(alloc: Global, sent: &[u8]) -> Result<CowSlice<'_, u8, Global>, AllocError>
    ensures { IfOk result (λ path. cow_slice_items path ≡ percent_decode sent.now) }
{
    percent_decode(sent).into_cow(alloc)
}
