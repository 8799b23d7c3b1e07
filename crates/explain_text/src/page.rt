//! The text that is written.

use byte_text::is_printable;
use std::alloc::{AllocError, Global};

/// A text that grows. Where memory was refused, for it or for what it tells of, it is full.
#[derive(Drop)]
pub struct Page {
    pub alloc: Global,
    pub text: String,
    pub full: bool,
}

impl Page {
    /// Nothing yet.
    pub fn new(alloc: Global) -> Page {
        Page {
            alloc,
            text: String::new(alloc),
            full: false,
        }
    }

    /// Adds a text.
    pub fn push(&mut self, text: &str) {
        self.full |= self.text.push_str(text).is_err();
    }

    /// Adds a line that was given, with question marks for bytes that are not printable. A CR is left out.
    pub fn push_line(&mut self, line: &[u8]) {
        for byte in line {
            let shown = if is_printable(*byte) { *byte } else { b'?' };
            if *byte != b'\r' {
                self.full |= self.text.push(char::from(shown)).is_err();
            }
        }
    }

    /// Adds a form, with the number in place of each `#`, the line in place of each `@`, and the text in place of each `$`.
    pub fn put(&mut self, form: &str, number: usize, line: &[u8], text: &str) {
        for byte in form.as_bytes() {
            match *byte {
                b'#' => self.full |= write!(self.text, "{number}").is_err(),
                b'@' => self.push_line(line),
                b'$' => self.push(text),
                byte => self.full |= self.text.push(char::from(byte)).is_err(),
            }
        }
    }

    /// Adds a form, with the text in place of each `$`.
    pub fn put_text(&mut self, form: &str, text: &str) {
        self.put(form, 0, &[], text);
    }

    /// Adds a form, with the number in place of each `#`.
    pub fn put_number(&mut self, form: &str, number: usize) {
        self.put(form, number, &[], "");
    }

    /// Adds a form, with the number in place of each `#`, and the line in place of each `@`.
    pub fn put_line(&mut self, form: &str, number: usize, line: &[u8]) {
        self.put(form, number, line, "");
    }

    /// The text. `AllocError`: it is full.
    pub fn finished(self) -> Result<String, AllocError> {
        if self.full {
            return Err(AllocError);
        }
        Ok(self.text)
    }
}
