//! What is wrong with a line that is of no module text, of no certificate text or no command, and what to write instead.

use crate::forms::{letters_of, letters_of_command, near_command, near_word, write_form};
use crate::page::Page;
use crate::script::{Script, ScriptLine, ScriptText, lines_of};
use crate::words::{found_in, last_word, text_of, word};
use byte_text::{
    after_token, all_printable, begins, decimal_u64, is_printable, is_text, tail, token, unindented,
};
use life_cert::CertCode;
use module_code::{Op, Word, word_of};
use module_lang::Code;
use script_text::{LINE_BYTES, is_skipped};

/// How many bytes of a line are shown at most.
const SHOWN: usize = 100;

// What may stand behind a line that begins so.
const DUE: [(&str, &str); 7] = [
    ("module", "`pool`, `brigade` or `open`"),
    ("pool", "`pool`, `brigade` or `open`"),
    ("brigade", "`brigade` or `open`"),
    ("open", "an instruction, a label or `init`"),
    ("init", "an instruction, a label or `main`"),
    ("main", "an instruction, a label or `end`"),
    ("end", "nothing: the module has ended"),
];

// What is wrong with a word of a text that stands among commands.
const MISPLACED: [(&str, &str); 4] = [
    (
        "module",
        "  module texts stand before the commands, 16 at most; before `budget` and `checked`, too\n",
    ),
    (
        "cert",
        "  a certificate stands right behind its module, and a module has one at most\n",
    ),
    (
        "budget",
        "  `budget N` stands once, behind the texts and before `checked`; N is a number without leading zeros\n",
    ),
    (
        "checked",
        "  `checked` stands once, alone, between the texts and the commands\n",
    ),
];

// Which lines a certificate text has.
const CERT_LINES: &str = concat!(
    "  its lines are `cert 2 full` or `cert 2 slim`, `vars P B` with how many pools and brigades the module declares, 0 to 8 each, ",
    "`code N` with how many instructions it has, 1 to 1024, `idle`, `ready`, one of each instruction that is reached, by rising ",
    "numbers, and `end`; in version 1 `cert 1` or `slim 1` stands in place of the first three. No empty lines, no comments, no ",
    "spaces in front\n"
);

/// The front of a line, as it is shown.
pub fn shown(line: &[u8]) -> &[u8] {
    line.get(..SHOWN).unwrap_or(line)
}

// A faulty line of a module text, and all of its lines.
#[derive(Clone, Copy)]
struct Faulty<'a> {
    there: ScriptLine<'a>,
    text: &'a [u8],
    lines: &'a [ScriptLine<'a>],
}

// What may stand behind these lines: the last of them that says it.
fn due_behind(lines: &[ScriptLine<'_>]) -> &'static str {
    let mut last: &[u8] = &[];
    for line in lines {
        let first = token(unindented(line.text));
        if !found_in(&DUE, first).is_empty() {
            last = first;
        }
    }
    match found_in(&DUE, last) {
        "" => "`module 1`",
        due => due,
    }
}

// The digit of a number below 16.
fn hex_digit(number: u8) -> u8 {
    if number < 10 {
        number.wrapping_add(b'0')
    } else {
        number.wrapping_sub(10).wrapping_add(b'a')
    }
}

// Tells of the byte behind so many that may not stand on a line.
fn write_byte(page: &mut Page, index: usize, byte: u8) {
    let name = if byte == b'\t' { ", a tab" } else { "" };
    let digits = [hex_digit(byte / 16), hex_digit(byte % 16)];
    let form =
        "  its byte # is 0x@$; a line has bytes from 0x20 to 0x7e alone, and other bytes stand in quotes, as `\\x@`\n";
    page.put(form, index.saturating_add(1), &digits, name);
}

// Tells which byte may not stand on a line, of a text that may have so many bytes.
fn write_bad_byte(page: &mut Page, line: &ScriptLine<'_>, most: &str) {
    if line.text.ends_with(b"\r") {
        return page.push(
            "  it ends with CR LF; each line ends with LF alone, so take out the CR\n",
        );
    }
    for (index, byte) in line.text.iter().enumerate() {
        if !is_printable(*byte) {
            return write_byte(page, index, *byte);
        }
    }
    if line.ended {
        page.put_text("  the text has more than $ bytes here\n", most);
    } else {
        page.push("  it is the last line, and has no LF; write one behind it\n");
    }
}

fn write_near(page: &mut Page, near: &str, unknown: &str) {
    if near.is_empty() {
        page.push(unknown);
    } else {
        page.put_text("  perhaps `$` is meant\n", near);
    }
}

// The number of the first line above one that begins with this word and this name; 0 where there is none.
fn line_with(lines: &[ScriptLine<'_>], head: &str, name: &[u8], above: usize) -> usize {
    for line in lines {
        let text = unindented(line.text);
        if line.number >= above {
            break;
        }
        if token(text) == head.as_bytes() && word(text, 1) == name {
            return line.number;
        }
    }
    0
}

// What declares a variable of this name.
fn declaration_of(name: &[u8]) -> &'static str {
    if name.len() != 2 || decimal_u64(tail(name)).is_none() {
        ""
    } else if begins(name, b'p') {
        "pool"
    } else if begins(name, b'b') {
        "brigade"
    } else {
        ""
    }
}

impl Faulty<'_> {
    // The number of the line that marks this label; 0 where none does.
    fn label_line(&self, name: &[u8]) -> usize {
        for line in self.lines {
            let text = unindented(line.text);
            if begins(text, b':') && tail(text) == name {
                return line.number;
            }
        }
        0
    }

    fn write_operands(&self, page: &mut Page) {
        let Some(first) = word_of(token(self.text)) else {
            return page.push(
                "  a label is `:` and a letter, then up to 15 letters or digits, all lower case\n",
            );
        };
        write_form(page, token(self.text), &letters_of(first), self.text);
        let other = match first {
            Word::Op(Op::BConcat | Op::BSave) => 2usize,
            Word::Op(Op::BSplit) => 3,
            _ => 1,
        };
        if other != 1 && word(self.text, 1) == word(self.text, other) {
            page.push("  its two brigades have to be different ones\n");
        }
    }

    fn write_undeclared(&self, page: &mut Page) {
        let first = match word_of(token(self.text)) {
            Some(Word::Pool | Word::Brigade) => 2usize,
            _ => 1,
        };
        for index in first..5usize {
            let name = word(self.text, index);
            let head = declaration_of(name);
            if !head.is_empty() && line_with(self.lines, head, name, self.there.number) == 0 {
                let form = "  `@` is not declared; write `$ @ conn` before it, above `open`\n";
                return page.put(form, 0, name, head);
            }
        }
    }

    // Tells where a label stands, twice or in another handler.
    fn write_label(&self, page: &mut Page, doubled: bool) {
        let marks = begins(self.text, b':');
        let name = if marks {
            tail(self.text)
        } else {
            last_word(self.text)
        };
        let number = self.label_line(name);
        let form = if doubled {
            "  line # has this label already; a name is used once in the module\n"
        } else if marks {
            "  no instruction of its handler follows it\n"
        } else if number == 0 {
            "  its handler has no line `:@`\n"
        } else {
            "  `:@` stands on line #, which is of another handler\n"
        };
        page.put_line(form, number, name);
    }

    fn write_help(&self, page: &mut Page, code: Code) {
        match code {
            Code::BadByte => write_bad_byte(page, &self.there, "1,048,576"),
            Code::NotDue => {}
            Code::UnknownWord => write_near(
                page,
                near_word(token(self.text)),
                "  a line is a label, as `:out`, or begins with the word of an instruction, in lower case\n",
            ),
            Code::WrongOperands => self.write_operands(page),
            Code::FaultyText => page.push(
                "  a text stands in quotes and has 255 bytes at most; in it stand `\\\"` for a quote, `\\\\` for a backslash, `\\n`, `\\r`, and `\\xHH` for any byte, with two digits, lower case\n",
            ),
            Code::Undeclared => self.write_undeclared(page),
            Code::DoubledLabel => self.write_label(page, true),
            Code::LostLabel => self.write_label(page, false),
            Code::Misplaced => page.push(
                "  `in`, `pass`, `leave` and `ret fail` stand in `main` alone, and nothing of the request stands in `open`\n",
            ),
            Code::OpenEnd => page.push("  the last instruction of a handler is `ret` or `jump`\n"),
            Code::TooMany => page.push("  a module has 1024 instructions and 64 texts at most\n"),
        }
    }
}

// Tells which line of a text is faulty.
fn write_line(page: &mut Page, number: usize, of: &str, line: Option<&[u8]>) {
    page.put("line #$: ", number, &[], of);
    match line {
        Some(line) => page.put_line("`@`: ", 0, shown(line)),
        None => page.push("the text ends here: "),
    }
}

/// Tells what is wrong with the first faulty line of a module text, by its number in the text.
pub fn write_asm_fault(page: &mut Page, text: ScriptText<'_>, line: usize, code: Code) {
    let lines = lines_of(page, text.text, text.before);
    let number = text.before.saturating_add(line);
    write_asm_line(page, lines.as_slice(), line.saturating_sub(1), number, code);
}

// The same, of these lines, by the place of the line and its number.
fn write_asm_line<'a>(
    page: &mut Page,
    lines: &'a [ScriptLine<'a>],
    index: usize,
    number: usize,
    code: Code,
) {
    let there = lines.get(index).copied();
    let shown = match there {
        Some(there) => Some(unindented(there.text)),
        None => None,
    };
    write_line(page, number, "", shown);
    page.full |= writeln!(page.text, "{code}").is_err();
    if let (Some(there), Some(text)) = (there, shown) {
        Faulty { there, text, lines }.write_help(page, code);
    }
    if let Code::NotDue = code {
        let due = due_behind(lines.get(..index).unwrap_or(&[]));
        page.put_text("  due here is $\n", due);
    }
}

/// Tells what is wrong with the first faulty line of a certificate text, by its number in the text.
pub fn write_cert_fault(page: &mut Page, text: ScriptText<'_>, line: usize, code: CertCode) {
    let lines = lines_of(page, text.text, text.before);
    let lines = lines.as_slice();
    let there = lines.get(line.saturating_sub(1)).copied();
    let number = text.before.saturating_add(line);
    let of = if text.before == 0 {
        " of the certificate"
    } else {
        ""
    };
    let shown = match there {
        Some(line) => Some(line.text),
        None => None,
    };
    write_line(page, number, of, shown);
    page.full |= writeln!(page.text, "{code}").is_err();
    match (code, there) {
        (CertCode::BadByte, Some(there)) => write_bad_byte(page, &there, "4,194,304"),
        (CertCode::NotState, Some(there)) => {
            let above = lines.get(..line.saturating_sub(1)).unwrap_or(&[]);
            write_state(page, above, there.text);
        }
        _ => page.push(CERT_LINES),
    }
}

// The number of the first line that says of an instruction what this line says of another.
fn first_with<'a>(above: &[ScriptLine<'a>], text: &[u8]) -> Option<&'a [u8]> {
    for line in above {
        let of_instruction = decimal_u64(token(line.text)).is_some();
        if of_instruction && after_token(line.text) == after_token(text) {
            return Some(token(line.text));
        }
    }
    None
}

// What is wrong with what follows the first word of a line of a certificate, below these lines.
fn write_state(page: &mut Page, above: &[ScriptLine<'_>], text: &[u8]) {
    match first_with(above, text) {
        _ if is_text(word(text, 1), b"same") => page.push(
            "  `N same M` stands for the state of instruction M, the first with that state: its line stands above, and writes the state out\n",
        ),
        Some(first) => page.put_line(
            "  in version 2 it is `same @`: the line of instruction @ has that state already\n",
            0,
            first,
        ),
        None => page.push("  a state has one spelling, the one that `certify` prints\n"),
    }
}

// What is wrong with the bytes of a printable line, whatever its words.
fn wrong_bytes(line: &ScriptLine<'_>) -> &'static str {
    if line.text.len() > LINE_BYTES {
        "  it has more than 65,536 bytes\n"
    } else if is_skipped(line.text, line.ended) {
        "  empty lines and comments stand in module texts and before them, and nowhere else\n"
    } else if begins(line.text, b' ') {
        "  no space stands at its front, since it is of no module text\n"
    } else {
        found_in(&MISPLACED, token(line.text))
    }
}

fn write_words(page: &mut Page, script: &Script<'_>, line: &ScriptLine<'_>) {
    let first = token(line.text);
    let Some(letters) = letters_of_command(first) else {
        return write_near(
            page,
            near_command(first),
            "  commands are `open`, `begin`, `bring`, `run`, `step`, `end`, `output`, `labels`, `close`, `pools` and `file`\n",
        );
    };
    write_form(page, first, letters, line.text);
    let commands = script.lines.get(script.before..).unwrap_or(&[]);
    let number = line_with(commands, "file", word(line.text, 1), line.number);
    if number != 0 && is_text(first, b"file") {
        let form = "  line # gave this name to a file; a name may be given once\n";
        page.put_number(form, number);
    }
}

/// Tells why a line of this number is no command that may stand there.
pub fn write_script_fault(page: &mut Page, script: &Script<'_>, number: usize) {
    let Some(line) = script.lines.get(number.wrapping_sub(1)) else {
        return;
    };
    if line.text.is_empty() {
        page.put_number("line #: an empty line is no command\n", number);
    } else {
        let form = "line #: `@`: no command that may stand here\n";
        page.put_line(form, number, shown(line.text));
    }
    if !all_printable(line.text) || !line.ended {
        return write_bad_byte(page, line, "");
    }
    match wrong_bytes(line) {
        "" => write_words(page, script, line),
        wrong => page.push(wrong),
    }
}
