//! What every text of this project is made of: lines, words, the spaces before a line, decimals, and texts in quotes.

pub use byte_text::{
    LastLine, Measured, TakesLines, TextLine, after_token, all_printable, begins, decimal_u32,
    decimal_u64, decimal_up_to, first_line, is_printable, is_text, len_before, measure, print_text,
    push_spelling, tail, take_lines, token, unindented, unquote,
};
