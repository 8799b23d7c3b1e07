//! All refusals of a module that do not follow from one another, with lines that were tried.

use crate::flow::{FlowRefusal, Judged, all_edges, judged_of, refusal_of};
use crate::remedy::Case;
use crate::told::{put_advice, put_at, put_filter_line, put_remedy, put_trail};
use crate::trail::{Known, trail_to};
use explain_text::{Edit, ModuleText, Page, Pattern, Sort, fault_of, put_rule};
use life_check::Cert;
use life_state::State;
use module_code::Module;
use module_lang::{AsmRefusal, assemble};
use run_model::FaultKind;
use script_text::fault_name;

/// How many refusals are told of a module at most.
const MOST: u8 = 16;

/// How many remedies of a refusal are tried at most.
const TRIES: usize = 40;

// A module with the states that it would have if each rule were met, and what may have a fault in them.
#[derive(Drop)]
struct Study {
    code: Module,
    judged: Judged,
}

// The source with the edits that help, and how many tests may still fail.
#[derive(Drop)]
struct Mended {
    source: ModuleText,
    left: usize,
}

// The study of a source; nothing where it is no module. Where memory was refused the page is full, and the study may be missing or not
// whole.
fn study_of(page: &mut Page, source: &ModuleText) -> Option<Study> {
    page.full |= source.page.full;
    match assemble(page.alloc, source.page.text.as_bytes()) {
        Ok(code) => studied(page, code),
        Err(refusal) => {
            page.full |= matches!(refusal, AsmRefusal::NoMemory);
            None
        }
    }
}

fn studied(page: &mut Page, code: Module) -> Option<Study> {
    match judged_of(page, &code) {
        Some(judged) => Some(Study { code, judged }),
        None => None,
    }
}

// Whether an edit takes out a line that is to be written.
fn undoes(source: &ModuleText, edits: &[Edit]) -> bool {
    for edit in edits {
        if let (true, Some(line)) = (edit.removes, source.lines.get(edit.at)) {
            if line.number == 0 {
                return true;
            }
        }
    }
    false
}

// Whether a line is refused no more.
fn is_settled(source: &ModuleText, judged: &Judged, line: usize) -> bool {
    for refusal in &judged.refusals {
        if source.number_of(refusal.pc) == line {
            return false;
        }
    }
    true
}

// How many tests may fail in a source, and whether a line is refused no more; nothing where it is no module.
fn outcome(page: &mut Page, source: &ModuleText, line: usize) -> Option<(usize, bool)> {
    match study_of(page, source) {
        Some(study) => Some((
            study.judged.failures,
            is_settled(source, &study.judged, line),
        )),
        None => None,
    }
}

// Tries these edits, and keeps what is mended by them where fewer tests than this may fail, or as many where such ties count and it
// settles the refusal; tells whether it is kept.
fn tries(
    page: &mut Page,
    case: &Case<'_>,
    edits: &[Edit],
    (least, ties): (usize, bool),
    mended: &mut Option<Mended>,
) -> bool {
    if undoes(case.source, edits) {
        return false;
    }
    let source = case.source.edited(&case.page, edits);
    let line = case.source.number_of(case.refusal.pc);
    let Some((left, settled)) = outcome(page, &source, line) else {
        return false;
    };
    let helps = left < least || ties && settled && left == least;
    if helps {
        *mended = Some(Mended { source, left });
    }
    helps
}

// The edits of a remedy.
fn edits_of<'a>(case: &'a Case<'_>, index: usize) -> &'a [Edit] {
    let from = first_edit(case, index);
    let to = first_edit(case, index.saturating_add(1));
    case.edits.get(from..to).unwrap_or(&[])
}

// Where the edits of a remedy begin; behind the last remedy, where those of all end.
fn first_edit(case: &Case<'_>, index: usize) -> usize {
    match case.leaders.get(index) {
        Some(head) => head.from,
        None => case.edits.len(),
    }
}

// The first remedy that leaves the fewest tests that may fail, and fewer than there are.
fn best(
    page: &mut Page,
    case: &Case<'_>,
    now: usize,
    mended: &mut Option<Mended>,
) -> Option<usize> {
    let mut best = None;
    let mut least = now;
    // A variable that is made may bring to light as much as it settles.
    let mut ties = matches!(
        case.refusal.doubt.sort,
        Sort::NullPool
            | Sort::GonePool
            | Sort::LivePool
            | Sort::NullBrigade
            | Sort::GoneBrigade
            | Sort::LiveBrigade
    );
    for index in 0..case.leaders.len().min(TRIES) {
        if least != 0 && tries(page, case, edits_of(case, index), (least, ties), mended) {
            ties = false;
            least = left_of(mended);
            best = Some(index);
        }
    }
    best
}

fn left_of(mended: &Option<Mended>) -> usize {
    match mended {
        Some(mended) => mended.left,
        None => 0,
    }
}

// The same without cleans that change nothing.
fn prune(page: &mut Page, case: &Case<'_>, edits: &mut Vec<Edit>, mended: &mut Option<Mended>) {
    let mut index = 0usize;
    for _ in 0..edits.len() {
        if edits.len() > 1 && !goes(page, case, index, edits, mended) {
            index = index.saturating_add(1);
        }
    }
}

// Takes out an edit where no more tests may fail without it; tells whether it did.
fn goes(
    page: &mut Page,
    case: &Case<'_>,
    index: usize,
    edits: &mut Vec<Edit>,
    mended: &mut Option<Mended>,
) -> bool {
    let Some(edit) = edits.get(index).copied() else {
        return false;
    };
    edits.remove(index);
    let least = left_of(mended).saturating_add(1);
    let goes = tries(page, case, edits.as_slice(), (least, false), mended);
    if !goes {
        page.full |= edits.insert(index, edit).is_err();
    }
    goes
}

// Tells what to write, as it was tried, or in words.
fn write_remedy(page: &mut Page, case: &mut Case<'_>, now: usize, mended: &mut Option<Mended>) {
    if now == 0 {
        return;
    }
    case.find_remedies();
    page.full |= case.page.full;
    match best(page, case, now, mended) {
        Some(index) => write_best(page, case, index, mended),
        None => put_advice(page, case.pattern()),
    }
}

fn write_best(page: &mut Page, case: &Case<'_>, index: usize, mended: &mut Option<Mended>) {
    let pattern = match case.leaders.get(index) {
        Some(head) => head.pattern,
        None => case.pattern(),
    };
    match Vec::from_slice(page.alloc, edits_of(case, index)) {
        Ok(mut edits) => {
            if let Pattern::CleanWhenFailed = pattern {
                prune(page, case, &mut edits, mended);
            }
            put_remedy(page, case.source, pattern, &case.page, edits.as_slice());
        }
        Err(_) => page.full = true,
    }
}

// Tells where what may be so comes from, and what to write. It keeps the source as it is mended, where lines were found that help.
fn write_cause(
    page: &mut Page,
    source: &ModuleText,
    module: (&Module, &Cert),
    refusal: FlowRefusal,
    now: usize,
    mended: &mut Option<Mended>,
) {
    let (code, states) = module;
    let alloc = page.alloc;
    let edges = all_edges(alloc, code, states);
    let known = Known {
        alloc,
        code,
        states,
        edges: edges.all.as_slice(),
    };
    let trail = trail_to(&known, refusal.pc, refusal.doubt);
    page.full |= edges.full || trail.full;
    put_trail(page, source, code, &trail, refusal.doubt);
    let mut case = Case::new(alloc, source, module, &trail, refusal);
    write_remedy(page, &mut case, now, mended);
}

fn write_may(page: &mut Page, source: &ModuleText, state: &State, refusal: FlowRefusal) {
    let kind = refusal.kind;
    let form = "line #: `@` may have $: ";
    put_at(page, source, refusal.pc, form, fault_name(kind));
    page.put_text("$\n", fault_of(kind).0);
    put_filter_line(page, source, refusal.pc);
    put_rule(page, state, refusal.doubt);
}

// Tells a refusal in these states. The source is then as it is mended, where lines were found that help; if these do not leave fewer
// tests that may fail, the line is one of those that were seen.
fn write_help(
    page: &mut Page,
    source: &mut ModuleText,
    module: (&Module, &Cert),
    refusal: FlowRefusal,
    now: usize,
    seen: &mut Vec<usize>,
) {
    if let Some(state) = module.1.state(refusal.pc) {
        write_may(page, source, &state, refusal);
    }
    let line = source.number_of(refusal.pc);
    let mut mended = None;
    write_cause(page, source, module, refusal, now, &mut mended);
    let mut left = now;
    if let Some(mended) = mended {
        *source = mended.source;
        left = mended.left;
    }
    if left >= now {
        page.full |= seen.push(line).is_err();
    }
}

// The first refusal whose line was not told yet.
fn next_refusal(
    source: &ModuleText,
    refusals: &[FlowRefusal],
    seen: &[usize],
) -> Option<FlowRefusal> {
    for refusal in refusals {
        if !seen.contains(&source.number_of(refusal.pc)) {
            return Some(*refusal);
        }
    }
    None
}

// Tells the first refusal of a study whose line was not told yet, if there is one.
fn write_first(
    page: &mut Page,
    source: &mut ModuleText,
    study: &Study,
    seen: &mut Vec<usize>,
) -> bool {
    let refusals = study.judged.refusals.as_slice();
    if refusals.is_empty() {
        page.push("with these lines the module is accepted\n");
        return false;
    }
    let Some(refusal) = next_refusal(source, refusals, seen.as_slice()) else {
        return false;
    };
    let module = (&study.code, &study.judged.states);
    write_help(page, source, module, refusal, study.judged.failures, seen);
    true
}

// The same of a source; nothing is told where it is no module.
fn write_next(page: &mut Page, source: &mut ModuleText, seen: &mut Vec<usize>) -> bool {
    match study_of(page, source) {
        Some(study) => write_first(page, source, &study, seen),
        None => false,
    }
}

// Tells the refusals that are left, up to sixteen.
fn write_rest(page: &mut Page, source: &mut ModuleText, seen: &mut Vec<usize>) {
    for _ in 0..MOST {
        if !write_next(page, source, seen) {
            break;
        }
    }
}

/// What stands against a module that would be accepted with the certificate that is made of it.
const NOTHING: &str =
    "  write: nothing; `certify` makes a certificate with which the module is accepted\n";

// Tells of the refusals of a module, of which this is the first.
fn write_from(
    page: &mut Page,
    source: &mut ModuleText,
    module: (&Module, &Cert),
    refusal: FlowRefusal,
    seen: &mut Vec<usize>,
) {
    let now = match outcome(page, source, 0) {
        Some((failures, _)) => failures,
        None => 0,
    };
    write_help(page, source, module, refusal, now, seen);
    if now == 0 {
        page.push(NOTHING);
    } else {
        write_rest(page, source, seen);
    }
}

/// Tells why an instruction of a module is refused in these states, and why others are that do not follow from it. The source is then as
/// it is mended.
pub fn write_refusals(
    page: &mut Page,
    source: &mut ModuleText,
    code: &Module,
    states: &Cert,
    pc: usize,
) {
    if let Some(refusal) = refusal_of(code, states, pc, None) {
        let mut seen = Vec::new(page.alloc);
        write_from(page, source, (code, states), refusal, &mut seen);
    }
}

/// Tells what the rule of an instruction wants that had this fault, where that comes from, and what to write instead.
pub fn write_fault(page: &mut Page, source: &ModuleText, pc: usize, kind: FaultKind) {
    if let Some(study) = study_of(page, source) {
        write_fault_in(page, source, &study, pc, kind);
    }
}

fn write_fault_in(page: &mut Page, source: &ModuleText, study: &Study, pc: usize, kind: FaultKind) {
    let module = (&study.code, &study.judged.states);
    let (Some(refusal), Some(state)) = (
        refusal_of(module.0, module.1, pc, Some(kind)),
        module.1.state(pc),
    ) else {
        return put_advice(page, fault_of(kind).1);
    };
    put_rule(page, &state, refusal.doubt);
    let mut mended = None;
    let now = study.judged.failures;
    write_cause(page, source, module, refusal, now, &mut mended);
    match &mended {
        Some(mended) if mended.left == 0 => page.push("with these lines the module is accepted\n"),
        Some(_) => page.push(
            "with these lines other instructions may have a fault; `certify --explain` tells them\n",
        ),
        None => {}
    }
}
