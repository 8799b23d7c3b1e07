//! What a refused command wants first.

use crate::faulty::shown;
use crate::page::Page;
use crate::script::{Script, ScriptLine};
use crate::words::{stands_in, text_of, word};
use byte_text::{is_text, token};

/// A line of the answers, with the command that it answers, if it answers one.
#[derive(Clone, Copy)]
pub struct AnsweredCommand<'a> {
    pub command: Option<ScriptLine<'a>>,
    pub answer: &'a [u8],
}

// What is told of a refusal, with `$` for the number of the connection.
#[derive(Clone, Copy)]
struct RefusalRow {
    name: &'static str,
    meaning: &'static str,
    // The commands of which the last that was done is told by the first form, with its number and its line; else by the second.
    done: &'static str,
    found: &'static str,
    otherwise: &'static str,
}

const REFUSALS: [RefusalRow; 14] = [
    RefusalRow {
        name: "NoSuchConn",
        meaning: "there is no connection of this number",
        done: "close",
        found: "  line # closed it; no number is given twice\n",
        otherwise: "  `open` makes a connection, and answers its number, from 1 on\n",
    },
    RefusalRow {
        name: "Broken(Faulted)",
        meaning: "the connection is broken: a fault stopped it",
        done: "",
        found: "",
        otherwise: "",
    },
    RefusalRow {
        name: "Broken(OutOfSteps)",
        meaning: "the connection is broken: a call executed as many instructions as the budget allows, and had not ended",
        done: "",
        found: "",
        otherwise: "",
    },
    RefusalRow {
        name: "Broken(NoMemory)",
        meaning: "the connection is broken: a step found no memory",
        done: "",
        found: "",
        otherwise: "",
    },
    RefusalRow {
        name: "Broken(NamesSpent)",
        meaning: "the connection is broken: all names were given out",
        done: "",
        found: "",
        otherwise: "",
    },
    RefusalRow {
        name: "Busy",
        meaning: "a call of the connection is to be run first",
        done: "open begin bring",
        found: "  line #, `@`, begins a call; write `run $` behind it\n",
        otherwise: "",
    },
    RefusalRow {
        name: "Idle",
        meaning: "no call of the connection is to be run",
        done: "",
        found: "",
        otherwise: "  `open`, `begin $` or `bring $` begins one\n",
    },
    RefusalRow {
        name: "InRequest",
        meaning: "a request of the connection is open",
        done: "begin",
        found: "  line # began it; write `end $` first, or go on in this one\n",
        otherwise: "",
    },
    RefusalRow {
        name: "NotInRequest",
        meaning: "no request of the connection is open",
        done: "",
        found: "",
        otherwise: "  write `begin $` and `run $` first\n",
    },
    RefusalRow {
        name: "DataAfterEos",
        meaning: "data stands behind `eos` in what is brought",
        done: "",
        found: "",
        otherwise: "  `eos` ends the body; bring the data before it\n",
    },
    RefusalRow {
        name: "NoFile",
        meaning: "a file is not there, or shorter than the part that is brought",
        done: "",
        found: "",
        otherwise: "  write `file NAME COUNT \"text\"` before; START and LEN together are its length at most\n",
    },
    RefusalRow {
        name: "FileFailed",
        meaning: "a file could not be opened or read",
        done: "",
        found: "",
        otherwise: "",
    },
    RefusalRow {
        name: "NamesSpent",
        meaning: "all names were given out",
        done: "",
        found: "",
        otherwise: "",
    },
    RefusalRow {
        name: "NoMemory",
        meaning: "there was no memory for it; nothing was changed",
        done: "",
        found: "",
        otherwise: "",
    },
];

const UNKNOWN: RefusalRow = RefusalRow {
    name: "",
    meaning: "it was refused",
    done: "",
    found: "",
    otherwise: "",
};

fn row_of(name: &[u8]) -> &'static RefusalRow {
    for row in &REFUSALS {
        if row.name.as_bytes() == name {
            return row;
        }
    }
    &UNKNOWN
}

// Whether a command is one of these of a connection, and was done by this answer.
fn is_done(command: &[u8], answer: &[u8], words: &str, conn: &[u8]) -> bool {
    let first = token(command);
    let named = if is_text(first, b"open") {
        answer
    } else {
        command
    };
    word(named, 1) == conn
        && !is_text(token(answer), b"refused")
        && stands_in(words, text_of(first))
}

// The last of these commands of a connection that was done.
fn last_done<'a>(
    earlier: &[AnsweredCommand<'a>],
    words: &str,
    conn: &[u8],
) -> Option<ScriptLine<'a>> {
    let mut found = None;
    for answered in earlier {
        if let Some(command) = answered.command {
            if is_done(command.text, answered.answer, words, conn) {
                found = Some(command);
            }
        }
    }
    found
}

fn write_broken(page: &mut Page, earlier: &[AnsweredCommand<'_>], conn: &[u8]) {
    for answered in earlier {
        if let Some(command) = answered.command {
            if is_text(token(answered.answer), b"fault") && word(command.text, 1) == conn {
                page.put_number("  the fault answers line #\n", command.number);
            }
        }
    }
    page.push("  it still answers `output`, `labels` and `close`; `open` makes a new one\n");
}

fn write_budget(page: &mut Page, script: &Script<'_>) {
    for line in &script.lines {
        if line.number <= script.before && is_text(token(line.text), b"budget") {
            let form =
                "  the budget is @, by line #; look for a loop that does not end, or allow more\n";
            return page.put_line(form, line.number, word(line.text, 1));
        }
    }
    page.push(
        "  the budget is 1000000, where no line `budget N` behind the texts says another; look for a loop that does not end\n",
    );
}

/// Whether the same answer of the same connection is among those that were explained; where a call is to be run first, to the same
/// command.
pub fn is_told(explained: &[AnsweredCommand<'_>], answered: &AnsweredCommand<'_>) -> bool {
    let Some(command) = answered.command else {
        return false;
    };
    let is_busy = is_text(answered.answer, b"refused Busy");
    for earlier in explained {
        if let Some(other) = earlier.command {
            let is_same = if is_busy {
                other.text == command.text
            } else {
                word(other.text, 1) == word(command.text, 1)
            };
            if is_same && earlier.answer == answered.answer {
                return true;
            }
        }
    }
    false
}

/// Tells what a refused command wants first, where these were answered before it.
pub fn write_refused(
    page: &mut Page,
    script: &Script<'_>,
    earlier: &[AnsweredCommand<'_>],
    refused: &AnsweredCommand<'_>,
) {
    let Some(command) = refused.command else {
        return;
    };
    let name = word(refused.answer, 1);
    let row = row_of(name);
    let form = "line #: `@` is refused: $\n";
    page.put(form, command.number, shown(command.text), row.meaning);
    let conn = word(command.text, 1);
    match last_done(earlier, row.done, conn) {
        Some(done) => page.put(row.found, done.number, shown(done.text), text_of(conn)),
        None => page.put_text(row.otherwise, text_of(conn)),
    }
    if is_text(name, b"Broken(OutOfSteps)") {
        write_budget(page, script);
    }
    if name.starts_with(b"Broken") {
        write_broken(page, earlier, conn);
    }
}
