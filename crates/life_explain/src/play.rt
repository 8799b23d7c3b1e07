//! The help on what a play answered.

use crate::help::{cert_of, module_of, write_texts};
use crate::session::write_fault;
use crate::told::{put_at, put_filter_line};
use byte_text::{is_text, token};
use explain_text::{
    AnsweredCommand, ModuleText, Page, Script, ScriptLine, ScriptText, fault_of, is_told, lines_of,
    number, shown, word, write_refused, write_script_fault,
};
use run_model::FaultKind;
use script_text::{fault_name, fault_named};
use std::alloc::{AllocError, Global};

/// How many answers are explained at most.
const MOST: usize = 16;

// What an answer line is.
#[derive(Clone, Copy)]
enum AnswerKind {
    Fault,
    Refused,
    RefusedModule,
    Text,
    Script,
    Well,
}

fn kind_of(answer: &[u8]) -> AnswerKind {
    let first = token(answer);
    let is_line = is_text(word(answer, 1), b"line");
    if is_text(first, b"fault") {
        AnswerKind::Fault
    } else if is_text(first, b"refused") {
        if is_text(word(answer, 1), b"module") {
            AnswerKind::RefusedModule
        } else {
            AnswerKind::Refused
        }
    } else if is_line && is_text(first, b"script") {
        AnswerKind::Script
    } else if is_line && (is_text(first, b"asm") || is_text(first, b"cert")) {
        AnswerKind::Text
    } else {
        AnswerKind::Well
    }
}

// Whether a command has a further line of answers behind this one: of `pools` the last line alone is that of the next command.
fn goes_on(command: Option<ScriptLine<'_>>, answer: &[u8]) -> bool {
    match command {
        Some(command) => is_text(command.text, b"pools") && !is_text(answer, b"ok"),
        None => false,
    }
}

// The lines of the answers, each with its command.
fn answered<'a>(
    page: &mut Page,
    script: &Script<'a>,
    lines: &[ScriptLine<'a>],
) -> Vec<AnsweredCommand<'a>> {
    let mut found = Vec::new(page.alloc);
    let mut at = script.before;
    for line in lines {
        let answer = line.text;
        let command = match kind_of(answer) {
            AnswerKind::Fault | AnswerKind::Refused | AnswerKind::Well => script
                .lines
                .get(at)
                .copied(),
            _ => None,
        };
        page.full |= found.push(AnsweredCommand { command, answer }).is_err();
        at = at.saturating_add(usize::from(!goes_on(command, answer)));
    }
    found
}

// Tells what a fault means, where it is and what to write instead.
fn write_fault_of(page: &mut Page, script: &Script<'_>, answered: &AnsweredCommand<'_>) {
    let answer = answered.answer;
    let (Some(kind), Some(index), Some(pc), Some(command)) = (
        fault_named(word(answer, 1)),
        number(answer, 3),
        number(answer, 5),
        answered.command,
    ) else {
        return;
    };
    if let Some((text, _)) = script.module(index) {
        page.put_line("line #, `@`: ", command.number, shown(command.text));
        write_fault_at(page, text, index, pc, kind);
    }
}

// Tells of a fault in the module of this number and this text, at this instruction.
fn write_fault_at(page: &mut Page, text: ScriptText<'_>, index: usize, pc: usize, kind: FaultKind) {
    let source = ModuleText::of(page.alloc, text.text, text.before);
    put_at(page, &source, pc, "line #, `@`, of module ", "");
    page.put("# has $: ", index, &[], fault_name(kind));
    page.put_text("$\n", fault_of(kind).0);
    put_filter_line(page, &source, pc);
    write_fault(page, &source, pc, kind);
}

fn write_module(page: &mut Page, script: &Script<'_>, answer: &[u8]) {
    let Some(index) = number(answer, 2) else {
        return;
    };
    if let Some((text, cert)) = script.module(index) {
        page.put_number("module #, ", index);
        let first = text.before.saturating_add(1);
        page.put_number("from line # on, is not accepted\n", first);
        write_texts(page, text, cert);
    }
}

// Tells what is wrong with the text that a line of this number is of.
fn write_text(page: &mut Page, script: &Script<'_>, number: usize) {
    if let Some(text) = script.text_with(number) {
        if text.is_cert {
            let _told = cert_of(page, text);
        } else {
            let _told = module_of(page, text);
        }
    }
}

// Tells what an answer means; whether there was something to tell.
fn write_answer(
    page: &mut Page,
    script: &Script<'_>,
    earlier: &[AnsweredCommand<'_>],
    answered: &AnsweredCommand<'_>,
) -> bool {
    let line = number(answered.answer, 2).unwrap_or(0);
    match kind_of(answered.answer) {
        AnswerKind::Fault => write_fault_of(page, script, answered),
        AnswerKind::Refused => write_refused(page, script, earlier, answered),
        AnswerKind::RefusedModule => write_module(page, script, answered.answer),
        AnswerKind::Text => write_text(page, script, line),
        AnswerKind::Script => write_script_fault(page, script, line),
        AnswerKind::Well => return false,
    }
    true
}

// Tells what the answers mean, each where it was not told before.
fn write_answers<'a>(
    page: &mut Page,
    script: &Script<'_>,
    answered: &[AnsweredCommand<'a>],
    done: &mut Vec<AnsweredCommand<'a>>,
) {
    for (index, answer) in answered.iter().enumerate() {
        if done.len() == MOST {
            page.push("what is answered from then on is not explained\n");
            break;
        }
        let earlier = answered.get(..index).unwrap_or(&[]);
        if !is_told(done.as_slice(), answer) && write_answer(page, script, earlier, answer) {
            page.full |= done.push(*answer).is_err();
        }
    }
}

fn write_play<'a>(page: &mut Page, script: &'a [u8], answers: &'a [u8]) {
    let script = Script::of(page, script);
    let lines = lines_of(page, answers, 0);
    let answered = answered(page, &script, lines.as_slice());
    write_answers(
        page,
        &script,
        answered.as_slice(),
        &mut Vec::new(page.alloc),
    );
}

/// What the answers of a play mean that tell a fault or refuse, in words; nothing where there are none. The same
/// refusal of the same connection is told once, but `Busy` once for each command, and sixteen answers are told at most.
pub fn explain_play<'a>(
    alloc: Global,
    script: &'a [u8],
    answers: &'a [u8],
) -> Result<String, AllocError> {
    let mut page = Page::new(alloc);
    write_play(&mut page, script, answers);
    page.finished()
}
