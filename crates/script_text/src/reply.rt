//! What the program answers to a command, and the lines that it prints.

ghost use Rattle.std.specs.Prelude.{◌≡◌, ◌+◌, ◌≤◌, ◌++◌, ◌∷◌, length, take, OnOk, OnErr};
ghost use Rattle.byte_text.specs.Quoted.{spelling};
ghost use Rattle.script_text.specs.Replies.{refusal_name, stepped_line, went_line, connected_line, refused_line, output_line, labels_line, reply_line, asm_line, script_line};
ghost use Rattle.script_text.specs.Refusals.{cert_line, refused_at_line, refused_module_line};

use crate::names::{fault_name, rule_name};
use byte_text::{BlockBytes, push_spelling};
use life_check::Rule;
use run_model::{Cause, FaultKind, Refusal, Seq, Status, Stepped};
use std::alloc::{AllocError, Global};

/// What a command answers.
#[derive(Drop)]
pub enum CommandReply {
    /// A connection was opened, of this number.
    Connected(u64),
    /// It was done.
    Done,
    /// It was refused.
    Refused(Refusal),
    /// How the steps ended.
    Stepped(Stepped),
    /// All steps went that were asked for: so many.
    Went(u64),
    /// The output.
    Output(BlockBytes),
    /// Labels that ran, the first first.
    Labels(Seq<Seq<u8>>),
    /// The pools, as they are printed.
    Pools(Seq<u8>),
}

fn ended_line(status: Status) -> &'static str
    ensures { result.now ≡ stepped_line (Stepped.CallEnded status) }
{
    match status {
        Status::Success => "ended ok\n",
        Status::Fail => "ended fail\n",
    }
}

fn refusal_name(refusal: Refusal) -> &'static str
    ensures { result.now ≡ refusal_name refusal }
{
    match refusal {
        Refusal::NoSuchConn => "NoSuchConn",
        Refusal::Broken(Cause::Faulted) => "Broken(Faulted)",
        Refusal::Broken(Cause::NoMemory) => "Broken(NoMemory)",
        Refusal::Broken(Cause::NamesSpent) => "Broken(NamesSpent)",
        Refusal::Broken(Cause::OutOfSteps) => "Broken(OutOfSteps)",
        Refusal::Busy => "Busy",
        Refusal::Idle => "Idle",
        Refusal::InRequest => "InRequest",
        Refusal::NotInRequest => "NotInRequest",
        Refusal::DataAfterEos => "DataAfterEos",
        Refusal::NoFile => "NoFile",
        Refusal::FileFailed => "FileFailed",
        Refusal::NamesSpent => "NamesSpent",
        Refusal::NoMemory => "NoMemory",
    }
}

/// Adds a line to the text. Without memory nothing is changed.
fn put(out: &mut Vec<u8>, line: &str) -> Result<(), AllocError>
    ensures ok { OnOk result (out.new.items ≡ out.old.items ++ line.now) }
    ensures err { OnErr result (out.new.items ≡ out.old.items) }
{
    out.extend_from_slice(line.as_bytes())
}

// The answers that are seldom given stay out of the function that gives them all, whose frame is set to zero at each call.

#[inline(never)]
fn put_connected(alloc: Global, out: &mut Vec<u8>, number: u64) -> Result<(), AllocError>
    ensures ok { OnOk result (out.new.items ≡ out.old.items ++ connected_line number) }
    ensures err { OnErr result (out.new.items ≡ out.old.items) }
{
    let line = format!(in alloc; "conn {number}\n")?;
    put(out, line.as_str())
}

#[inline(never)]
fn put_refused(alloc: Global, out: &mut Vec<u8>, refusal: Refusal) -> Result<(), AllocError>
    ensures ok { OnOk result (out.new.items ≡ out.old.items ++ refused_line refusal) }
    ensures err { OnErr result (out.new.items ≡ out.old.items) }
{
    let name = refusal_name(refusal);
    let line = format!(in alloc; "refused {name}\n")?;
    put(out, line.as_str())
}

fn put_stepped(alloc: Global, out: &mut Vec<u8>, stepped: Stepped) -> Result<(), AllocError>
    ensures ok { OnOk result (out.new.items ≡ out.old.items ++ stepped_line stepped) }
    ensures err { OnErr result (out.new.items ≡ out.old.items) }
{
    match stepped {
        Stepped::Went => put(out, "went 1\n"),
        Stepped::CallEnded(status) => put(out, ended_line(status)),
        Stepped::Fault { kind, module, pc } => put_fault(alloc, out, kind, module, pc),
    }
}

#[inline(never)]
fn put_went(alloc: Global, out: &mut Vec<u8>, count: u64) -> Result<(), AllocError>
    ensures ok { OnOk result (out.new.items ≡ out.old.items ++ went_line count) }
    ensures err { OnErr result (out.new.items ≡ out.old.items) }
{
    let line = format!(in alloc; "went {count}\n")?;
    put(out, line.as_str())
}

#[inline(never)]
fn put_fault(
    alloc: Global,
    out: &mut Vec<u8>,
    kind: FaultKind,
    index: u64,
    pc: u64,
) -> Result<(), AllocError>
    ensures ok { OnOk result (out.new.items ≡ out.old.items ++ stepped_line (Stepped.Fault kind index pc)) }
    ensures err { OnErr result (out.new.items ≡ out.old.items) }
{
    let name = fault_name(kind);
    let line = format!(in alloc; "fault {name} module {index} pc {pc}\n")?;
    put(out, line.as_str())
}

/// Leaves the text as it was before so many bytes where memory lacked for what was added.
fn all_or_none(
    out: &mut Vec<u8>,
    len: usize,
    added: Result<(), AllocError>,
) -> Result<(), AllocError>
    requires { len ≤ length out.old.items }
    ensures result { result ≡ added }
    ensures ok { OnOk added (out.new.items ≡ out.old.items) }
    ensures err { OnErr added (out.new.items ≡ take len out.old.items) }
{
    if added.is_err() {
        out.truncate(len);
    }
    added
}

fn extend_output(out: &mut Vec<u8>, bytes: &[u8]) -> Result<(), AllocError>
    ensures ok { OnOk result (out.new.items ≡ out.old.items ++ output_line bytes.now) }
    ensures front { take (length out.old.items) out.new.items ≡ out.old.items }
{
    put(out, "output ")?;
    push_spelling(out, bytes)?;
    Ok(out.push(b'\n')?)
}

fn put_output(out: &mut Vec<u8>, bytes: &[u8]) -> Result<(), AllocError>
    ensures ok { OnOk result (out.new.items ≡ out.old.items ++ output_line bytes.now) }
    ensures err { OnErr result (out.new.items ≡ out.old.items) }
{
    let len = out.len();
    let added = extend_output(out, bytes);
    all_or_none(out, len, added)
}

/// Adds a space and the text of a label in quotes.
fn push_label(out: &mut Vec<u8>, label: &[u8]) -> Result<(), AllocError>
    ensures ok { OnOk result (out.new.items ≡ out.old.items ++ 32 ∷ spelling label.now) }
    ensures front { take (length out.old.items) out.new.items ≡ out.old.items }
{
    out.push(b' ')?;
    push_spelling(out, label)
}

fn extend_labels(out: &mut Vec<u8>, labels: &[Seq<u8>]) -> Result<(), AllocError>
    ensures ok { OnOk result (out.new.items ≡ out.old.items ++ labels_line labels.now) }
    ensures front { take (length out.old.items) out.new.items ≡ out.old.items }
{
    put(out, "labels")?;
    for label in labels {
        push_label(out, label.as_slice())?;
    }
    Ok(out.push(b'\n')?)
}

#[inline(never)]
fn put_labels(out: &mut Vec<u8>, labels: &[Seq<u8>]) -> Result<(), AllocError>
    ensures ok { OnOk result (out.new.items ≡ out.old.items ++ labels_line labels.now) }
    ensures err { OnErr result (out.new.items ≡ out.old.items) }
{
    let len = out.len();
    let added = extend_labels(out, labels);
    all_or_none(out, len, added)
}

fn extend_pools(out: &mut Vec<u8>, text: &[u8]) -> Result<(), AllocError>
    ensures ok { OnOk result (out.new.items ≡ out.old.items ++ reply_line (CommandReply.Pools text.now)) }
    ensures front { take (length out.old.items) out.new.items ≡ out.old.items }
{
    out.extend_from_slice(text)?;
    put(out, "ok\n")
}

#[inline(never)]
fn put_pools(out: &mut Vec<u8>, text: &[u8]) -> Result<(), AllocError>
    ensures ok { OnOk result (out.new.items ≡ out.old.items ++ reply_line (CommandReply.Pools text.now)) }
    ensures err { OnErr result (out.new.items ≡ out.old.items) }
{
    let len = out.len();
    let added = extend_pools(out, text);
    all_or_none(out, len, added)
}

/// Adds the line of a reply to the text, and of the pools their lines before it. Without memory nothing is changed.
pub fn put_reply(alloc: Global, out: &mut Vec<u8>, reply: &CommandReply) -> Result<(), AllocError>
    ensures ok { OnOk result (out.new.items ≡ out.old.items ++ reply_line reply.now) }
    ensures err { OnErr result (out.new.items ≡ out.old.items) }
{
    match reply {
        CommandReply::Connected(number) => put_connected(alloc, out, *number),
        CommandReply::Done => put(out, "ok\n"),
        CommandReply::Refused(refusal) => put_refused(alloc, out, *refusal),
        CommandReply::Stepped(stepped) => put_stepped(alloc, out, *stepped),
        CommandReply::Went(count) => put_went(alloc, out, *count),
        CommandReply::Output(bytes) => put_output(out, bytes.as_slice()),
        CommandReply::Labels(labels) => put_labels(out, labels.as_slice()),
        CommandReply::Pools(text) => put_pools(out, text.as_slice()),
    }
}

/// Adds the line that tells a fault of a module text, `asm line L code C`. Without memory nothing is changed.
pub fn put_asm_fault(
    alloc: Global,
    out: &mut Vec<u8>,
    line: usize,
    code: u8,
) -> Result<(), AllocError>
    ensures ok { OnOk result (out.new.items ≡ out.old.items ++ asm_line line code) }
    ensures err { OnErr result (out.new.items ≡ out.old.items) }
{
    let line = format!(in alloc; "asm line {line} code {code}\n")?;
    put(out, line.as_str())
}

/// Adds the line that tells a fault of a module text, which stands behind so many lines. Without memory nothing is changed.
pub fn put_asm_fault_behind(
    alloc: Global,
    out: &mut Vec<u8>,
    before: usize,
    line: usize,
    code: u8,
) -> Result<(), AllocError>
    ensures ok { OnOk result (out.new.items ≡ out.old.items ++ asm_line (before + line) code) }
    ensures err { OnErr result (out.new.items ≡ out.old.items) }
{
    let line = before as u128 + line as u128;
    let line = format!(in alloc; "asm line {line} code {code}\n")?;
    put(out, line.as_str())
}

/// Adds the line that tells a fault of a certificate text, which stands behind so many lines: `cert line L code C`. Without memory nothing is changed.
pub fn put_cert_fault(
    alloc: Global,
    out: &mut Vec<u8>,
    before: usize,
    line: usize,
    code: u8,
) -> Result<(), AllocError>
    ensures ok { OnOk result (out.new.items ≡ out.old.items ++ cert_line (before + line) code) }
    ensures err { OnErr result (out.new.items ≡ out.old.items) }
{
    let line = before as u128 + line as u128;
    let line = format!(in alloc; "cert line {line} code {code}\n")?;
    put(out, line.as_str())
}

/// Adds the line that tells what a certificate fails, `refused at PC: RULE`. Without memory nothing is changed.
pub fn put_refused_at(
    alloc: Global,
    out: &mut Vec<u8>,
    pc: usize,
    rule: Rule,
) -> Result<(), AllocError>
    ensures ok { OnOk result (out.new.items ≡ out.old.items ++ refused_at_line pc rule) }
    ensures err { OnErr result (out.new.items ≡ out.old.items) }
{
    let name = rule_name(rule);
    let line = format!(in alloc; "refused at {pc}: {name}\n")?;
    put(out, line.as_str())
}

/// Adds the line that tells why a module of the chain is refused, `refused module I at PC: RULE`. Without memory nothing is changed.
pub fn put_refused_module(
    alloc: Global,
    out: &mut Vec<u8>,
    index: usize,
    pc: usize,
    rule: Rule,
) -> Result<(), AllocError>
    ensures ok { OnOk result (out.new.items ≡ out.old.items ++ refused_module_line index pc rule) }
    ensures err { OnErr result (out.new.items ≡ out.old.items) }
{
    let name = rule_name(rule);
    let line = format!(in alloc; "refused module {index} at {pc}: {name}\n")?;
    put(out, line.as_str())
}

/// Adds the line that tells which line of the script is none, `script line L`. Without memory nothing is changed.
pub fn put_script_fault(alloc: Global, out: &mut Vec<u8>, line: usize) -> Result<(), AllocError>
    ensures ok { OnOk result (out.new.items ≡ out.old.items ++ script_line line) }
    ensures err { OnErr result (out.new.items ≡ out.old.items) }
{
    let line = format!(in alloc; "script line {line}\n")?;
    put(out, line.as_str())
}
