//! Scripts, one after another. Each begins with a line `first N`, which says where names begin. A line `fail_at K` among its commands has
//! the K-th opening or read after it fail.

ghost use Rattle.std.specs.Prelude.{IfOk};
ghost use Rattle.script_play.specs.Sessions.{IsMemHostAlive};

use anyhow::Result;
use byte_text::first_line;
use filter_chain::{Host, Limits, MemFiles, Rings, Stored};
use script_play::{due_command, serve};
use script_text::{
    LineTaken, MODULES, Texts, accept_parts, is_skipped, modules_of, number_at, put_reply,
};
use std::alloc::Global;
use thiserror::Error;

/// So many scripts are played at most.
const MOST: usize = 10_000;

/// A script is faulty. The line is told by its number, from `first N` on; 1 stands for no module, or too many, too, and 0 for a chain that is
/// refused, a line behind the texts that is no command, and too many scripts.
#[derive(Clone, Copy, Debug, Error)]
#[error("a script is faulty at line {0}")]
struct NoScript(usize);

/// A line `WORD N`: its number.
fn operand_of(text: &[u8], word: &[u8]) -> Option<u64> {
    number_at(text.strip_prefix(word)?)
}

/// A host of the chain that was read, whose names begin with `first`.
fn host_of<R: Rings<Stored> + Drop>(
    alloc: Global,
    texts: Texts,
    checked: bool,
    first: u64,
) -> Result<Host<MemFiles, R>>
    ensures { IfOk result IsMemHostAlive }
{
    let Texts { parts, budget, .. } = texts;
    if first == 0 || parts.is_empty() || parts.len() > MODULES {
        return Err(NoScript(1).into());
    }
    let (files, limits) = (MemFiles::new(alloc), Limits { budget });
    if !checked {
        let modules = modules_of(alloc, parts)?;
        return Ok(Host::watched_at(alloc, files, modules, limits, first)?);
    }
    let Ok(chain) = accept_parts(alloc, parts)? else {
        return Err(NoScript(0).into());
    };
    Ok(Host::checked_at(alloc, files, chain, limits, first)?)
}

/// Reads the texts up to `checked`, or to the first command. Gives whether the chain is checked, and what stands behind.
fn read_texts<'a>(
    alloc: Global,
    texts: &mut Texts,
    script: &'a [u8],
    told: &mut Vec<u8>,
) -> Result<(bool, &'a [u8])> {
    let mut rest = script;
    for number in 2..usize::MAX {
        let line = first_line(rest);
        // A text has no more lines than bytes.
        if line.width == 0 || texts.before() > script.len() {
            return Err(NoScript(number).into());
        }
        match texts.take(alloc, number, line.text, line.ended, told)? {
            LineTaken::More => {}
            LineTaken::Checked => return Ok((true, &rest[line.width..])),
            LineTaken::Command => return Ok((false, rest)),
            LineTaken::Over => return Err(NoScript(number).into()),
        }
        rest = &rest[line.width..];
    }
    Err(NoScript(0).into())
}

/// Does the command of a line, and tells the answer.
fn answer<R: Rings<Stored> + Drop>(
    alloc: Global,
    host: &mut Host<MemFiles, R>,
    text: &[u8],
    told: &mut Vec<u8>,
) -> Result<()>
    requires { IsMemHostAlive host.old }
    ensures { IfOk result (λ _. IsMemHostAlive host.new) }
{
    let Some(command) = due_command(alloc, text, true, host.files())? else {
        return Err(NoScript(0).into());
    };
    let reply = serve(alloc, host, command)?;
    put_reply(alloc, told, &reply)?;
    Ok(())
}

/// Does the command of a line, or has the device fail later, and tells the answer.
fn take<R: Rings<Stored> + Drop>(
    alloc: Global,
    host: &mut Host<MemFiles, R>,
    text: &[u8],
    told: &mut Vec<u8>,
) -> Result<()>
    requires { IsMemHostAlive host.old }
    ensures { IfOk result (λ _. IsMemHostAlive host.new) }
{
    if is_skipped(text, true) {
        return Ok(());
    }
    if let Some(call) = operand_of(text, b"fail_at") {
        host.fail_at(call);
        return Ok(());
    }
    answer(alloc, host, text, told)
}

/// Does the commands of a script, and gives the scripts behind it.
fn take_all<'a, R: Rings<Stored> + Drop>(
    alloc: Global,
    host: &mut Host<MemFiles, R>,
    script: &'a [u8],
    told: &mut Vec<u8>,
) -> Result<&'a [u8]>
    requires { IsMemHostAlive host.old }
{
    let mut rest = script;
    while !rest.is_empty() {
        let line = first_line(rest);
        if operand_of(line.text, b"first").is_some() {
            break;
        }
        take(alloc, host, line.text, told)?;
        rest = &rest[line.width..];
    }
    Ok(rest)
}

/// Plays the first script, and gives those behind it.
fn play<'a, R: Rings<Stored> + Drop>(
    alloc: Global,
    scripts: &'a [u8],
    told: &mut Vec<u8>,
) -> Result<&'a [u8]> {
    let line = first_line(scripts);
    let Some(first) = operand_of(line.text, b"first") else {
        return Err(NoScript(1).into());
    };
    let mut texts = Texts::new(alloc);
    let (checked, rest) = read_texts(alloc, &mut texts, &scripts[line.width..], told)?;
    let mut host = host_of::<R>(alloc, texts, checked, first)?;
    take_all(alloc, &mut host, rest, told)
}

/// Plays scripts on hosts over these rings, and adds their answers to the text. What was answered before an error stands there.
pub(crate) fn play_all<R: Rings<Stored> + Drop>(
    alloc: Global,
    scripts: &[u8],
    told: &mut Vec<u8>,
) -> Result<()> {
    let mut rest = scripts;
    for _ in 0..MOST {
        if rest.is_empty() {
            break;
        }
        rest = play::<R>(alloc, rest, told)?;
    }
    if rest.is_empty() {
        Ok(())
    } else {
        Err(NoScript(0).into())
    }
}
