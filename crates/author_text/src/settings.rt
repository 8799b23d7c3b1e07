//! What the operator sets.

use crate::place::Place;
use crate::source::{Decl, Expr, Name, Setting, Source};
use byte_text::decimal_u32;
use std::alloc::Global;
use thiserror::Error;

/// How many bytes a text has at most that the operator sets.
pub const MAX_TEXT: usize = 255;

/// Why a `param` is not set.
#[derive(Clone, Copy, Debug, PartialEq, Eq, Error)]
pub enum SetRefusal {
    /// The filter has no `param` of this name.
    #[error("the filter has no such param")]
    Unknown,
    /// The `param` is a number, and the value is none of 0 to 4294967295 in decimal digits.
    #[error("a number from 0 to 4294967295 is due")]
    NoNumber,
    /// The `param` is a text, and the value has over 255 bytes.
    #[error("a text has at most 255 bytes")]
    TooLong,
    /// There was no memory.
    #[error("no memory")]
    NoMemory,
}

/// What a `param` is set to: a number where it `is_number`, and else a text.
fn setting<'a>(
    alloc: Global,
    is_number: bool,
    value: &[u8],
    place: Place,
) -> Result<Setting<'a>, SetRefusal> {
    if is_number {
        return match decimal_u32(value) {
            Some(value) => Ok(Setting::Number(Expr::Number { value, place })),
            None => Err(SetRefusal::NoNumber),
        };
    }
    if MAX_TEXT < value.len() {
        return Err(SetRefusal::TooLong);
    }
    match value.to_vec(alloc) {
        Ok(bytes) => Ok(Setting::Text(bytes)),
        Err(_) => Err(SetRefusal::NoMemory),
    }
}

/// Which declaration is the `param` of this name, its name where it stands, and whether it is a number.
fn param_at<'a>(source: &Source<'a>, param: &[u8]) -> Option<(usize, Name<'a>, bool)> {
    for (at, decl) in source.decls.iter().enumerate() {
        if let Decl::Param { name, value } = decl {
            if name.text == param {
                return Some((at, *name, matches!(value, Setting::Number(_))));
            }
        }
    }
    None
}

/// Sets the `param` of this name to a value: a number in decimal digits, or a text, whose bytes are taken as they are.
pub fn set_param(
    alloc: Global,
    source: &mut Source<'_>,
    param: &[u8],
    value: &[u8],
) -> Result<(), SetRefusal> {
    let Some((at, name, is_number)) = param_at(source, param) else {
        return Err(SetRefusal::Unknown);
    };
    let value = setting(alloc, is_number, value, name.place)?;
    if let Some(decl) = source.decls.get_mut(at) {
        *decl = Decl::Param { name, value };
    }
    Ok(())
}
