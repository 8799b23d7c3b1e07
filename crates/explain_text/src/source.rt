//! The lines of a module text, as they are or as they would be written.

use crate::page::Page;
use crate::script::lines_of;
use crate::words::text_of;
use byte_text::{begins, decimal_u32, is_text, tail, unindented};
use std::alloc::Global;

/// What no line and no instruction has for its number.
pub const NO_LINE: usize = usize::MAX;

/// A line of a module text, without the spaces before it.
#[derive(Clone, Copy)]
pub struct ModuleLine {
    /// Its number, from 1 on; 0 of a line that is not there yet.
    pub number: usize,
    /// The number of the instruction that stands on it, or `NO_LINE`.
    pc: usize,
    // Where it begins and ends in the text.
    start: usize,
    end: usize,
}

/// A change before a line, by its place in the source, from 0 on: a line is written there, and the one that is there may go.
#[derive(Clone, Copy)]
pub struct Edit {
    pub at: usize,
    pub removes: bool,
    /// Whether it writes a further line behind the one that the edit before this one writes.
    pub follows: bool,
    /// Where its line begins and ends among the lines that are to be written; nothing is written where these are the same.
    pub start: usize,
    pub end: usize,
}

/// A module text.
#[derive(Drop)]
pub struct ModuleText {
    pub page: Page,
    pub lines: Vec<ModuleLine>,
    // How many instructions there are, where `open` was.
    count: Option<usize>,
}

/// The text between two places.
pub fn cut(page: &Page, start: usize, end: usize) -> &[u8] {
    page.text.as_bytes().get(start..end).unwrap_or(&[])
}

// Whether a line is skipped.
fn is_skipped(line: &[u8]) -> bool {
    line.is_empty() || begins(line, b'#')
}

// The line of a filter that a comment names, as the compiler writes them: `# line 4`.
fn named_line(line: &[u8]) -> Option<u32> {
    let words = b"# line ";
    if !line.starts_with(words) {
        return None;
    }
    decimal_u32(line.get(words.len()..).unwrap_or(&[]))
}

impl ModuleText {
    fn new(alloc: Global) -> ModuleText {
        ModuleText {
            page: Page::new(alloc),
            lines: Vec::new(alloc),
            count: None,
        }
    }

    /// The lines of a text, before which so many stand. Its page is full where memory was refused.
    pub fn of(alloc: Global, text: &[u8], before: usize) -> ModuleText {
        let mut source = ModuleText::new(alloc);
        let lines = lines_of(&mut source.page, text, before);
        for line in &lines {
            source.add(line.number, unindented(line.text));
        }
        source
    }

    fn add(&mut self, number: usize, line: &[u8]) {
        let is_word = !is_skipped(line) && !begins(line, b':');
        let is_header = is_text(line, b"init") || is_text(line, b"main") || is_text(line, b"end");
        let mut pc = NO_LINE;
        match self.count {
            Some(count) if is_word && !is_header => {
                pc = count;
                self.count = Some(count.saturating_add(1));
            }
            None if is_text(line, b"open") => self.count = Some(0),
            _ => {}
        }
        let start = self.page.text.len();
        self.page.push(text_of(line));
        let end = self.page.text.len();
        self.page.push("\n");
        let line = ModuleLine {
            number,
            pc,
            start,
            end,
        };
        self.page.full |= self.lines.push(line).is_err();
    }

    /// What stands at a place; nothing behind the last line.
    pub fn text_at(&self, index: usize) -> &[u8] {
        match self.lines.get(index) {
            Some(line) => cut(&self.page, line.start, line.end),
            None => &[],
        }
    }

    /// The place of the line of an instruction, or `NO_LINE`.
    pub fn line_of(&self, pc: usize) -> usize {
        for (index, line) in self.lines.iter().enumerate() {
            if line.pc == pc && pc != NO_LINE {
                return index;
            }
        }
        NO_LINE
    }

    /// What an instruction is written as.
    pub fn instruction(&self, pc: usize) -> &[u8] {
        self.text_at(self.line_of(pc))
    }

    /// The number of the line at a place, or of the next one that is there already.
    pub fn number_at(&self, index: usize) -> usize {
        for line in self.lines.get(index..).unwrap_or(&[]) {
            if line.number != 0 {
                return line.number;
            }
        }
        0
    }

    /// The number of an instruction's line.
    pub fn number_of(&self, pc: usize) -> usize {
        self.number_at(self.line_of(pc))
    }

    /// The line of the filter that an instruction was compiled from, where a comment before it names one.
    pub fn filter_line(&self, pc: usize) -> Option<u32> {
        let mut found = None;
        for line in self.lines.get(..self.line_of(pc)).unwrap_or(&[]) {
            let named = named_line(cut(&self.page, line.start, line.end));
            if named.is_some() {
                found = named;
            }
        }
        found
    }

    /// The place of the line that is written so, or `NO_LINE`.
    pub fn find(&self, text: &str) -> usize {
        for index in 0..self.lines.len() {
            if self.text_at(index) == text.as_bytes() {
                return index;
            }
        }
        NO_LINE
    }

    /// The label that stands before a place; nothing where there is none.
    pub fn label_before(&self, place: usize) -> &[u8] {
        let mut label = self.text_at(NO_LINE);
        let count = place.min(self.lines.len());
        for line in self.lines.get(..count).unwrap_or(&[]) {
            let text = cut(&self.page, line.start, line.end);
            if begins(text, b':') {
                label = tail(text);
            } else if !is_skipped(text) {
                label = &[];
            }
        }
        label
    }

    /// The first of these names that no label has yet, each with the colon before it.
    pub fn new_label(&self, names: [&'static str; 9]) -> &'static str {
        for name in &names {
            if self.find(name) == NO_LINE {
                return name;
            }
        }
        names[0]
    }

    /// The source with these edits, whose lines stand on this page.
    pub fn edited(&self, page: &Page, edits: &[Edit]) -> ModuleText {
        let mut source = ModuleText::new(page.alloc);
        for (index, line) in self.lines.iter().enumerate() {
            if source.add_edits(page, edits, index) {
                source.add(line.number, cut(&self.page, line.start, line.end));
            }
        }
        source
    }

    // Adds the lines that are to be written at a place; tells whether the line that is there stays.
    fn add_edits(&mut self, page: &Page, edits: &[Edit], index: usize) -> bool {
        let mut stays = true;
        for edit in edits {
            if edit.at == index {
                stays = stays && !edit.removes;
                if edit.start < edit.end {
                    self.add(0, cut(page, edit.start, edit.end));
                }
            }
        }
        stays
    }
}
