//! The commands of a script, on a chain of filters.

ghost use Rattle.std.specs.Prelude.{◌≡◌, ◌<◌, ◌≤◌, None, Some, false, true, length, map, IfErr, IfOk, OnErr};
ghost use Rattle.script_play.specs.Prelude.{seen_part, IsSession, TakesOne, codes_of, refused_in, first_view};
ghost use Rattle.script_play.specs.Written.{Session as ModelSession};

use crate::commands::serve;
use crate::due::due_command;
use filter_chain::{Host, Limits, MemFiles, Rings, Stored};
use script_text::{
    CommandReply, Refused, ScriptModule, accept_parts, modules_of, put_reply, put_script_fault,
};
use std::alloc::{AllocError, Global};

/// Gives the block of an output that was told back to the host, for the next one.
fn give_back<R: Rings<Stored> + Drop>(host: &mut Host<MemFiles, R>, reply: CommandReply)
    ensures { host.new ≡ host.old }
{
    match reply {
        CommandReply::Output(block) => host.give_back_output(block),
        _other => {}
    }
}

/// A host that the commands of a script are done on.
#[derive(Drop)]
pub struct Session<R: Rings<Stored>> {
    pub(crate) host: Host<MemFiles, R>,
}

impl<R: Rings<Stored> + Drop> Session<R> {
    /// No connection yet, on a chain of these modules.
    pub fn watched(alloc: Global, parts: Vec<ScriptModule>, budget: u64) -> Result<Self, AllocError>
        requires some { 0 < length parts.items }
        ensures { IfOk result (λ s. IsSession s (record { chain = codes_of (map seen_part parts.items); budget = budget; is_checked = false; host_view = first_view })) }
    {
        let modules = modules_of(alloc, parts)?;
        let host = Host::watched(alloc, MemFiles::new(alloc), modules, Limits { budget })?;
        Ok(Session { host })
    }

    /// The same where the chain is accepted; else the first module that is refused. Certificates that are missing are made before any module
    /// is checked.
    pub fn checked(
        alloc: Global,
        parts: Vec<ScriptModule>,
        budget: u64,
    ) -> Result<Result<Self, Refused>, AllocError>
        requires some { 0 < length parts.items }
        requires few { length parts.items ≤ 16 }
        ensures accepted { IfOk result (λ r. IfOk r (λ s. (refused_in (map seen_part parts.items) ≡ None)
            × IsSession s (record { chain = codes_of (map seen_part parts.items); budget = budget; is_checked = true; host_view = first_view }))) }
        ensures refused { IfOk result (λ r. IfErr r (λ at. refused_in (map seen_part parts.items) ≡ Some (at.index, at.refusal))) }
    {
        match accept_parts(alloc, parts)? {
            Ok(chain) => {
                let host = Host::checked(alloc, MemFiles::new(alloc), chain, Limits { budget })?;
                Ok(Ok(Session { host }))
            }
            Err(refused) => Ok(Err(refused)),
        }
    }

    /// Does the command of a line, and adds the line of its answer to the text; or tells that it is no command that may stand here.
    /// Answers whether it was one. Without memory the text is as it was.
    pub fn take(
        &mut self,
        alloc: Global,
        number: usize,
        text: &[u8],
        ended: bool,
        out: &mut Vec<u8>,
    ) -> Result<bool, AllocError>
        requires { (v : ModelSession) × IsSession self.old v }
        ensures ok { (v : ModelSession) → IsSession self.old v → IfOk result (λ was. TakesOne self.new out.old.items out.new.items number (record { text = text.now; ended = ended }) v was) }
        ensures err { OnErr result (out.new.items ≡ out.old.items) }
    {
        let Some(command) = due_command(alloc, text, ended, self.host.files())? else {
            put_script_fault(alloc, out, number)?;
            return Ok(false);
        };
        let reply = serve(alloc, &mut self.host, command)?;
        put_reply(alloc, out, &reply)?;
        give_back(&mut self.host, reply);
        Ok(true)
    }
}
