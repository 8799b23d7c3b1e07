//! The texts and the commands of a script.

use crate::page::Page;
use byte_text::first_line;
use script_text::{LineTaken, Texts, begins_cert, is_end};

// More lines than a script can have.
const MOST_LINES: usize = 1 << 62;

/// A line of a script.
#[derive(Clone, Copy)]
pub struct ScriptLine<'a> {
    /// Its number, from 1 on.
    pub number: usize,
    /// What stands on it, without its LF.
    pub text: &'a [u8],
    /// Whether its LF is there.
    pub ended: bool,
    // Where its bytes begin in the text that it is of.
    start: usize,
}

/// A module text, or a certificate text.
#[derive(Clone, Copy)]
pub struct ScriptText<'a> {
    pub is_cert: bool,
    /// How many lines stand before it.
    pub before: usize,
    pub text: &'a [u8],
}

/// What a script is made of.
#[derive(Drop)]
pub struct Script<'a> {
    pub lines: Vec<ScriptLine<'a>>,
    pub texts: Vec<ScriptText<'a>>,
    /// How many lines stand before the commands.
    pub before: usize,
}

/// The lines of a text, of which so many stand before it. The page is full where memory was refused.
pub fn lines_of<'a>(page: &mut Page, text: &'a [u8], before: usize) -> Vec<ScriptLine<'a>> {
    let mut lines = Vec::new(page.alloc);
    let mut rest = text;
    for index in 0..text.len() {
        if rest.is_empty() {
            break;
        }
        let line = first_line(rest);
        let taken = lines.push(ScriptLine {
            number: before.saturating_add(index).saturating_add(1),
            text: line.text,
            ended: line.ended,
            start: text.len().saturating_sub(rest.len()),
        });
        page.full |= taken.is_err();
        rest = &rest[line.width..];
    }
    lines
}

impl<'a> Script<'a> {
    // Where the line behind so many begins, or the script ends.
    fn start_of(&self, script: &[u8], before: usize) -> usize {
        match self.lines.get(before) {
            Some(line) => line.start,
            None => script.len(),
        }
    }

    // The text that begins behind so many lines, and ends behind so many.
    fn text(&self, script: &'a [u8], before: usize, end: usize) -> ScriptText<'a> {
        let is_cert = match self.lines.get(before) {
            Some(line) => before != 0 && begins_cert(line.text, line.ended),
            None => false,
        };
        let (start, end) = (self.start_of(script, before), self.start_of(script, end));
        let text = script.get(start..end).unwrap_or(&[]);
        ScriptText {
            is_cert,
            before,
            text,
        }
    }

    /// What a script is made of, up to the first fault of a text. A text that does not end is all up to its end. The page is full where
    /// memory was refused.
    pub fn of(page: &mut Page, script: &'a [u8]) -> Self {
        let lines = lines_of(page, script, 0);
        let before = lines.len();
        let mut read = Script {
            lines,
            texts: Vec::new(page.alloc),
            before,
        };
        read.take_all(page, script, &mut Texts::new(page.alloc));
        read
    }

    // Takes the lines before the commands.
    fn take_all(&mut self, page: &mut Page, script: &'a [u8], texts: &mut Texts) {
        let count = self.lines.len();
        for index in 0..count {
            if !self.take(page, script, texts, index) {
                return;
            }
        }
        self.add_text(page, script, texts.before(), count);
    }

    fn add_text(&mut self, page: &mut Page, script: &'a [u8], before: usize, end: usize) {
        let text = self.text(script, before, end);
        page.full |= self.texts.push(text).is_err();
    }

    // Takes a line before the commands; tells whether more of these may follow.
    fn take(&mut self, page: &mut Page, script: &'a [u8], texts: &mut Texts, index: usize) -> bool {
        let Some(line) = self.lines.get(index).copied() else {
            return false;
        };
        if line.number == 0 || texts.before() >= MOST_LINES {
            return false;
        }
        let mut answer = Vec::new(page.alloc);
        let taken = texts.take(page.alloc, line.number, line.text, line.ended, &mut answer);
        let (ends, more) = match taken {
            Ok(LineTaken::More) => (is_end(line.text, line.ended), true),
            Ok(LineTaken::Over) => (true, false),
            Ok(LineTaken::Checked) => {
                self.before = line.number;
                (false, false)
            }
            Ok(LineTaken::Command) => {
                self.before = index;
                (false, false)
            }
            Err(_) => {
                page.full = true;
                (false, false)
            }
        };
        if ends {
            self.add_text(page, script, texts.before(), line.number);
        }
        more
    }

    /// The text of a module, by its place in the chain, and that of the certificate behind it, if there is one.
    pub fn module(&self, index: usize) -> Option<(ScriptText<'a>, Option<ScriptText<'a>>)> {
        let mut next = 0usize;
        for (at, text) in self.texts.iter().enumerate() {
            if !text.is_cert {
                if next == index {
                    let behind = match self.texts.get(at.saturating_add(1)) {
                        Some(cert) if cert.is_cert => Some(*cert),
                        _ => None,
                    };
                    return Some((*text, behind));
                }
                next = next.saturating_add(1);
            }
        }
        None
    }

    /// The text of which this line is one.
    pub fn text_with(&self, number: usize) -> Option<ScriptText<'a>> {
        let mut found = None;
        for text in &self.texts {
            if text.before < number {
                found = Some(*text);
            }
        }
        found
    }
}
