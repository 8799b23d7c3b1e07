//! What is told of a refusal.

use crate::flow::instr_at;
use crate::trail::{Trail, TrailStep};
use explain_text::{Doubt, Edit, ModuleText, Page, Pattern, Sort, cursor_name, cut};
use life_cert::StatePlace;
use module_code::{Instr, Module};

/// The handler that an instruction is in.
pub fn handler_name(code: &Module, pc: usize) -> &'static str {
    if pc < code.init() {
        "open"
    } else if pc < code.main() {
        "init"
    } else {
        "main"
    }
}

/// Adds a form, with the number of an instruction's line, the line, and a text.
pub fn put_at(page: &mut Page, source: &ModuleText, pc: usize, form: &str, text: &str) {
    page.put(form, source.number_of(pc), source.instruction(pc), text);
}

/// Tells which line of a filter an instruction was compiled from, where the module's comments say so.
pub fn put_filter_line(page: &mut Page, source: &ModuleText, pc: usize) {
    if let Some(line) = source.filter_line(pc) {
        page.put_number("  filter: line # of its text\n", line as usize);
    }
}

/// Tells where what may be so comes from.
pub fn put_trail(page: &mut Page, source: &ModuleText, code: &Module, trail: &Trail, doubt: Doubt) {
    put_origin(page, source, code, trail, doubt);
    let between = trail.is_made && !matches!(trail.origin, StatePlace::At(_));
    for step in trail.steps.get(usize::from(between)..).unwrap_or(&[]) {
        put_step(page, source, step, doubt);
    }
}

fn put_origin(page: &mut Page, source: &ModuleText, code: &Module, trail: &Trail, doubt: Doubt) {
    let pc = match trail.origin {
        StatePlace::At(pc) => pc,
        _ if trail.is_made => {
            let form = "  from: the end of a request $\n";
            return page.put_text(form, doubt.row().deed);
        }
        _ => return page.push("  from: calls that know different things end alike\n"),
    };
    if trail.is_made {
        put_at(page, source, pc, "  from: line #, `@`, ", "");
        put_deed(page, code, pc, doubt);
        put_filter_line(page, source, pc);
    } else if pc == 0 || pc == code.init() || pc == code.main() {
        page.put_text("  from: `$` begins so\n", handler_name(code, pc));
    } else {
        let form = "  from: ways that know different things meet at line #, `@`\n";
        put_at(page, source, pc, form, "");
        put_filter_line(page, source, pc);
    }
}

fn put_deed(page: &mut Page, code: &Module, pc: usize, doubt: Doubt) {
    let is_unset = matches!(doubt.sort, Sort::Unset | Sort::Unread);
    let form = match instr_at(code, pc) {
        Some(Instr::BDelete(c)) if is_unset && c == doubt.of => "destroys its bucket\n",
        Some(Instr::BDelete(_)) if is_unset => "destroys a bucket, and @ may be that one\n",
        _ => "$\n",
    };
    let cursor = cursor_name(doubt.of).as_bytes();
    page.put(form, 0, cursor, doubt.row().deed);
}

fn put_step(page: &mut Page, source: &ModuleText, step: &TrailStep, doubt: Doubt) {
    match (step.from, step.to) {
        (StatePlace::At(pc), StatePlace::At(_)) => {
            if step.jumps && doubt.is_of_cursor() {
                let form = "  then: line #, `@`, goes to its label\n";
                put_at(page, source, pc, form, "");
            }
        }
        (StatePlace::At(pc), _) => {
            let form = "  then: line #, `@`, ends a call so, and a later call begins with it\n";
            put_at(page, source, pc, form, "");
        }
        (StatePlace::Ready, StatePlace::Idle) => {
            page.push("  then: the request ends so, and the next begins with it\n");
        }
        _ => {}
    }
}

/// Tells in words what to write.
pub fn put_advice(page: &mut Page, pattern: Pattern) {
    let name = pattern.name().as_bytes();
    page.put("  pattern: @\n  write: $\n", 0, name, pattern.advice());
}

/// Tells what to write, by these edits, whose lines stand on a page.
pub fn put_remedy(
    page: &mut Page,
    source: &ModuleText,
    pattern: Pattern,
    lines: &Page,
    edits: &[Edit],
) {
    page.put_text("  pattern: $\n", pattern.name());
    for edit in edits {
        let text = cut(lines, edit.start, edit.end);
        if !edit.follows {
            put_place(page, source, edit, text);
        }
        if !text.is_empty() {
            page.put_line("    @\n", 0, text);
        }
    }
}

// Tells where a line is to be written, or which is to be taken out.
fn put_place(page: &mut Page, source: &ModuleText, edit: &Edit, text: &[u8]) {
    let form = match (edit.removes, text.is_empty()) {
        (true, true) => "  take out line #, `@`\n",
        (true, false) => "  in place of line #, `@`, write\n",
        (false, _) => "  before line # write\n",
    };
    let there = source.text_at(edit.at);
    page.put_line(form, source.number_at(edit.at), there);
}
