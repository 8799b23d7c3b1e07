//! Modules from their texts.

ghost use Rattle.std.specs.Prelude.{◌≡◌, ◌≢◌, ◌≤◌, [], Ok, Err, Result, IfOk, OnOk, length};
ghost use Rattle.module_lang.specs.Prelude.{is_end, lines_read, lines_ended, draft_read, program_of, assembling, Gives, empty_draft, IsDraft, IsReadAs, printed, IsModule, Program, program};
ghost use Rattle.module_lang.specs.declared.refusal.AsmRefusal.TheVariants.{NoMemory};

use crate::draft::Draft;
use crate::handler::resolve_handler;
use crate::refusal::{AsmRefusal, Code};
use byte_text::take_lines;
use module_code::{Instr, Module, Part, Seq};
use std::alloc::Global;
use std::collections::BTreeSet;

/// How many bytes a module text has at most.
const MAX_LEN: usize = 1_048_576;

fn is_end(part: Part) -> bool
    ensures { result ≡ is_end part }
{
    matches!(part, Part::End)
}

/// Judges what follows the last LF: nothing may, and the last line must have been `end`.
#[tactic(auto, unfolding(crate::specs::Assembling::lines_ended))]
fn end_lines(part: Part, number: usize, rest: &[u8], long: bool) -> Result<(), AsmRefusal>
    ensures { Gives (λ u. u) result (lines_ended long part number rest.now) }
{
    if long || !rest.is_empty() {
        return Err(AsmRefusal::Fault {
            line: number,
            code: Code::BadByte,
        });
    }
    if !is_end(part) {
        return Err(AsmRefusal::Fault {
            line: number,
            code: Code::NotDue,
        });
    }
    Ok(())
}

/// Takes the lines of a text into a draft that has none, where more follows behind a `long` one.
fn read_lines(alloc: Global, draft: &mut Draft, text: &[u8], long: bool) -> Result<(), AsmRefusal>
    requires empty { draft.old ≡ empty_draft }
    requires short { length text.now ≤ 1048576 }
    ensures draft { Gives (λ _. draft.new) result (lines_read long empty_draft 1 [] text.now) }
    ensures sound { OnOk result (IsDraft draft.new) }
{
    let last = take_lines(alloc, draft, text)?;
    end_lines(draft.part, last.number, &text[last.start..], long)
}

#[tactic(auto, unfolding(crate::specs::Assembling::draft_read))]
fn read_draft(alloc: Global, draft: &mut Draft, text: &[u8]) -> Result<(), AsmRefusal>
    requires { draft.old ≡ empty_draft }
    ensures draft { Gives (λ _. draft.new) result (draft_read text.now) }
    ensures sound { OnOk result (IsDraft draft.new) }
{
    if MAX_LEN < text.len() {
        read_lines(alloc, draft, &text[..MAX_LEN], true)
    } else {
        read_lines(alloc, draft, text, false)
    }
}

/// Where the handlers `init` and `main` begin, once the code of all three stands in `code`, unless one has a fault.
#[tactic(auto, unfolding(crate::specs::Assembling::program_of))]
fn resolve_code(
    alloc: Global,
    draft: &Draft,
    code: &mut Seq<Instr>,
) -> Result<(u16, u16), AsmRefusal>
    requires draft { IsDraft draft.now }
    requires empty { code.old ≡ [] }
    ensures code { Gives (λ at. program draft.now.pools draft.now.brigades draft.now.texts code.new at.0 at.1) result (program_of draft.now) }
    ensures sound { IfOk result (λ at. IsModule (program draft.now.pools draft.now.brigades draft.now.texts code.new at.0 at.1)) }
{
    let mut seen = BTreeSet::new(alloc);
    resolve_handler(alloc, &mut seen, &draft.open, code)?;
    let init = code.len();
    resolve_handler(alloc, &mut seen, &draft.init, code)?;
    let main = code.len();
    resolve_handler(alloc, &mut seen, &draft.main, code)?;
    Ok((init as u16, main as u16))
}

/// Reads a text into a draft and its code, and tells where the handlers `init` and `main` begin.
#[tactic(auto, unfolding(crate::specs::Assembling::assembling))]
fn read_code(
    alloc: Global,
    draft: &mut Draft,
    code: &mut Seq<Instr>,
    text: &[u8],
) -> Result<(u16, u16), AsmRefusal>
    requires draft { draft.old ≡ empty_draft }
    requires empty { code.old ≡ [] }
    ensures code { Gives (λ at. program draft.new.pools draft.new.brigades draft.new.texts code.new at.0 at.1) result (assembling text.now) }
    ensures sound { IfOk result (λ at. IsModule (program draft.new.pools draft.new.brigades draft.new.texts code.new at.0 at.1)) }
{
    read_draft(alloc, draft, text)?;
    resolve_code(alloc, draft, code)
}

fn read_module(alloc: Global, text: &[u8]) -> Result<Module, AsmRefusal>
    ensures { Gives (λ m. m) result (assembling text.now) }
{
    let mut draft = Draft::new(alloc);
    let mut code = Seq::new(alloc);
    let read = read_code(alloc, &mut draft, &mut code, text);
    let Draft {
        pools,
        brigades,
        texts,
        ..
    } = draft;
    let (init, main) = read?;
    Ok(Module::new((pools, brigades), texts, code, init, main))
}

/// The module that a text spells, or its first faulty line, from 1, with the lowest code that fits it. A text has at
/// most 1,048,576 bytes; `NoMemory` is the answer where memory was wanting.
pub fn assemble(alloc: Global, text: &[u8]) -> Result<Module, AsmRefusal>
    // A text is a module by the grammar, or has a first faulty line: one of these, and one alone. What is answered it is,
    // and what it is is answered, memory apart.
    ensures some { (r : Result Program AsmRefusal) × IsReadAs text.now r }
    ensures one { (r s : Result Program AsmRefusal) → IsReadAs text.now r → IsReadAs text.now s → r ≡ s }
    ensures reads { result ≢ Err NoMemory → IsReadAs text.now result }
    ensures told { (r : Result Program AsmRefusal) → IsReadAs text.now r → Gives (λ m. m) result r }

    // The text that a module is printed as is taken as that module, memory apart.
    ensures again { (p : Program) → IsModule p → text.now ≡ printed p → Gives (λ m. m) result (Ok p) }
{
    read_module(alloc, text)
}
