//! What stands behind each word, for those who wrote something else.

use crate::page::Page;
use crate::words::{found_in, has_two_spaces, is_near, text_of};
use module_code::{OperandKind, WORDS, Word};
use script_text::COMMAND_WORDS;

/// The letters of what stands behind a word, one for each operand.
pub type Letters = [&'static str; 4];

// What stands behind the words of commands, in the order of `CommandForm`.
const COMMANDS: [Letters; 4] = [
    ["", "", "", ""],
    ["C", "", "", ""],
    ["C", "N", "", ""],
    ["C", "PIECES", "", ""],
];

const FILE: Letters = ["NAME", "COUNT", "\"text\"", ""];

// What a letter says.
const MEANINGS: [(&str, &str); 20] = [
    ("pI", "the next pool, from `p0` to `p7`"),
    ("bI", "the next brigade, from `b0` to `b7`"),
    ("PARENT", "`conn`, `req` or a pool that is declared before"),
    (
        "COUNT",
        "how often the text stands in the file, 4294967295 at most, without leading zeros",
    ),
    ("P", "`conn`, `req` or a declared pool"),
    ("Q", "a declared pool, `p0` to `p7`"),
    ("O", "a declared brigade, `b0` to `b7`"),
    ("B", "`in` or a declared brigade"),
    ("V", "a declared pool or brigade"),
    ("T", "a text in quotes"),
    (
        "L",
        "a label of this handler: up to 16 letters and digits, all lower case, a letter first",
    ),
    (
        "K",
        "`heap`, `transient`, `immortal`, `pool`, `file`, `flush`, `eos` or `data`",
    ),
    ("E", "`ok` or `fail`"),
    ("c", "a cursor, `c0` to `c7`"),
    ("n", "a number variable, `n0` to `n7`"),
    (
        "x",
        "a number variable, or a decimal from 0 to 4294967295 without leading zeros",
    ),
    ("C", "the number of a connection, without leading zeros"),
    ("N", "how many instructions are to be executed, not 0"),
    (
        "NAME",
        "up to 16 letters and digits, all lower case, a letter first",
    ),
    (
        "PIECES",
        "none or more of `heap \"text\"`, `transient \"text\"`, `immortal \"text\"`, `pool \"text\"`, `file NAME START LEN`, `flush` and `eos`, one space before each",
    ),
];

// The letter of a kind of operand.
fn letter_of(kind: OperandKind) -> &'static str {
    match kind {
        OperandKind::Nothing => "",
        OperandKind::One => "1",
        OperandKind::Place => "P",
        OperandKind::Pool => "Q",
        OperandKind::Brigade => "O",
        OperandKind::Source => "B",
        OperandKind::Ending => "E",
        OperandKind::Label => "L",
        OperandKind::Text => "T",
        OperandKind::Variable => "V",
        OperandKind::Number => "n",
        OperandKind::Value => "x",
        OperandKind::Cursor => "c",
        OperandKind::KindTest => "K",
    }
}

/// What stands behind a word of a module text.
pub fn letters_of(word: Word) -> Letters {
    let kinds = word.kinds();
    match word {
        Word::Pool => ["pI", "PARENT", "", ""],
        Word::Brigade => ["bI", "P", "", ""],
        _ => [
            letter_of(kinds.first),
            letter_of(kinds.second),
            letter_of(kinds.third),
            letter_of(kinds.fourth),
        ],
    }
}

/// What stands behind the first word of a command, if it is one.
pub fn letters_of_command(word: &[u8]) -> Option<&'static Letters> {
    if word == b"file".as_slice() {
        return Some(&FILE);
    }
    for command in &COMMAND_WORDS {
        if command.text() == word {
            return COMMANDS.get(command.takes() as usize);
        }
    }
    None
}

/// The word of a module text that may be meant; nothing where there is none.
pub fn near_word(word: &[u8]) -> &'static str {
    for other in &WORDS {
        if is_near(word, other.text()) {
            return text_of(other.text());
        }
    }
    ""
}

/// The first word of a command that may be meant; nothing where there is none.
pub fn near_command(word: &[u8]) -> &'static str {
    for other in &COMMAND_WORDS {
        if is_near(word, other.text()) {
            return text_of(other.text());
        }
    }
    if is_near(word, b"file") { "file" } else { "" }
}

// Tells what the letters say, each once.
fn write_letters(page: &mut Page, letters: &Letters) {
    for (index, letter) in letters.iter().enumerate() {
        let meaning = found_in(&MEANINGS, letter.as_bytes());
        let is_first = !letters.get(..index).unwrap_or(&[]).contains(letter);
        if is_first && !meaning.is_empty() {
            page.put("    @: $\n", 0, letter.as_bytes(), meaning);
        }
    }
}

/// Tells what is due on a line that begins with this word, and what is wrong with its spaces.
pub fn write_form(page: &mut Page, word: &[u8], letters: &Letters, line: &[u8]) {
    page.put_line("  due is `@", 0, word);
    for letter in letters {
        if !letter.is_empty() {
            page.put_text(" $", letter);
        }
    }
    if letters[0].is_empty() {
        return page.push("` alone\n");
    }
    page.push("`\n");
    write_letters(page, letters);
    if line.ends_with(b" ") {
        page.push("  a space stands at its end\n");
    } else if has_two_spaces(line) {
        page.push("  two spaces stand together, where one is due\n");
    }
}
