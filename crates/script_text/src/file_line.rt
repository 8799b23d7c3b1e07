//! The line `file` of a script, which adds a file.

ghost use Rattle.std.specs.Prelude.{◌≡◌, IfOk};
ghost use Rattle.std.specs.List.{repeat};
ghost use Rattle.script_text.specs.Words.{number_at};
ghost use Rattle.script_text.specs.FileLines.{count_in, last_text, file_line_of};

use crate::words::{after_number, copied, number_at};
use byte_text::{after_token, measure, token, unquote};
use module_code::is_name;
use run_model::Seq;
use std::alloc::{AllocError, Global};

/// How often a text may stand in a file at most.
const MAX_COUNT: u64 = 4_294_967_295;

/// A file that a script adds: the text, `count` times.
#[derive(Drop)]
pub struct FileLine {
    /// The name.
    pub name: Seq<u8>,
    /// How often the text stands in the file, 4294967295 times at most.
    pub count: u64,
    /// The text.
    pub text: Seq<u8>,
}

impl FileLine {
    /// The bytes of the file. Room for all of them is got first; of an empty text it takes none.
    pub fn bytes(&self, alloc: Global) -> Result<Vec<u8>, AllocError>
        ensures { IfOk result (λ bytes. bytes.items ≡ repeat self.now.count self.now.text) }
    {
        self.text.as_slice().repeat(alloc, self.count as usize)
    }
}

/// The number of times that stands after a space.
fn count_at(bytes: &[u8]) -> Option<u64>
    ensures { result ≡ count_in (number_at bytes.now) }
{
    let count = number_at(bytes)?;
    if count > MAX_COUNT {
        return None;
    }
    Some(count)
}

/// The text that stands after a space, with nothing behind it.
fn last_text(alloc: Global, bytes: &[u8]) -> Result<Option<Seq<u8>>, AllocError>
    ensures { IfOk result (λ t. t ≡ last_text bytes.now) }
{
    if bytes.is_empty() || bytes[0] != b' ' {
        return Ok(None);
    }
    let quoted = &bytes[1..];
    let Some(measured) = measure(quoted) else {
        return Ok(None);
    };
    if measured.used != quoted.len() {
        return Ok(None);
    }
    unquote(alloc, quoted)
}

/// What stands behind `file` and a space: a name, how often the text stands in the file, and the text.
#[inline(never)]
#[tactic(auto, unfolding(crate::specs::FileLines::file_line_of))]
pub fn file_line_of(alloc: Global, bytes: &[u8]) -> Result<Option<FileLine>, AllocError>
    ensures { IfOk result (λ f. f ≡ file_line_of bytes.now) }
{
    let name = token(bytes);
    if !is_name(name) {
        return Ok(None);
    }
    let rest = after_token(bytes);
    let Some(count) = count_at(rest) else {
        return Ok(None);
    };
    match last_text(alloc, after_number(rest))? {
        Some(text) => Ok(Some(FileLine {
            name: copied(alloc, name)?,
            count,
            text,
        })),
        None => Ok(None),
    }
}
