//! What every text of this project is made of: lines, words, the spaces before a line, decimals, and texts in quotes.
#![tactic(auto)]

mod block_bytes;
mod bytes;
mod line_reader;
mod number;
mod quoted;
mod text_line;
mod writer;

pub use block_bytes::BlockBytes;
pub use bytes::{
    after_token, all_printable, begins, cut_token, is_printable, is_text, len_before, tail, token,
    unindented,
};
pub use line_reader::{LastLine, TakesLines, take_lines};
pub use module_code::Seq;
pub use number::{constant_of, decimal_u32, decimal_u64, decimal_up_to};
pub use quoted::{Measured, measure, print_text, push_spelling, unquote, unquote_front};
pub use text_line::{TextLine, first_line};
pub use writer::{TextWriter, WriteFault, put_all};
