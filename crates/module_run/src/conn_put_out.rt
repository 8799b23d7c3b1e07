//! The output filter takes a brigade that was brought where all other filters have left.

ghost use Rattle.std.specs.Prelude.{◌≡◌, ℕ, List, true, false, length, IfOk, IsOk, OnErr};
ghost use Rattle.module_run.specs.Prelude.{Program, Pools, Frame, Linked, answered_so, puts_out, top_of, EndsLoose, LeavesOthers, CanProceed, IsReady, RefinesStep, LeftAs};

use crate::conn::Conn;
use brigade_ops::{Brigades, Files, PoolTree, Rings, Stored};
use interp_calls::output::put_out;
use run_model::{Instr, Module, Payload, Status, Stepped};
use std::alloc::AllocError;

/// What the end of a call answers by which bytes were put out: it fails where a read failed.
fn answered(well: bool, stepped: Stepped) -> Stepped
    ensures { result ≡ answered_so well stepped }
{
    if well {
        stepped
    } else {
        Stepped::CallEnded(Status::Fail)
    }
}

impl Conn {
    /// The call of the output filter, which is on top, puts out the bytes of the brigade that was brought, and ends; it fails where a read
    /// failed, and what was read before it is in the output. Only bytes that are put out take memory. Without it nothing is changed, and
    /// nothing was read.
    pub(crate) fn put_out<R: Rings<Stored> + Drop, F: Files>(
        &mut self,
        modules: &[Module],
        store: &mut Brigades<R>,
        files: &mut F,
        status: Status,
    ) -> Result<Stepped, AllocError>
        requires output { top_of self.old ≡ length modules.now }
        requires ready { (tree : PoolTree Payload) × CanProceed modules.now (Instr.Ret status) tree store.old (F.device files.old) self.old }
        ensures ok { IfOk result (λ answer. (tree : PoolTree Payload) (v : Linked) (f : Frame) (rest : List Frame)
            → IsReady modules.now (Instr.Ret status) tree store.old (F.device files.old) self.old v f rest
            → RefinesStep modules.now (Instr.Ret status) (F.device files.old) (F.device files.new) v f rest tree store.new self.new answer) }
        ensures err { OnErr result ((tree : PoolTree Payload) (v : Linked)
            → LeftAs modules.now tree store.old (F.device files.old) self.old v → LeftAs modules.now tree store.new (F.device files.new) self.new v) }
        ensures sure { (tree : PoolTree Payload) (v : Linked) (f : Frame) (rest : List Frame)
            → IsReady modules.now (Instr.Ret status) tree store.old (F.device files.old) self.old v f rest
            → puts_out modules.now f v ≡ false → IsOk result }
        ensures unread { OnErr result (F.device files.new ≡ F.device files.old) }
        ensures leaves { (ps : Pools Payload) → LeavesOthers ps store.old store.new self.old self.new }
        ensures ended { EndsLoose store.old store.new self.old self.new }
        ensures count { self.new.count ≡ self.old.count }
        ensures unasked { store.new.asked ≡ store.old.asked }
    {
        let top = self.top();
        let filter = &self.filters[top];
        let well = put_out(
            &filter.instance,
            store,
            files,
            8,
            &mut self.out,
            &mut self.ended,
        )?;
        let Ok(stepped) = self.return_call(modules, store, status) else {
            unreachable!()
        };
        Ok(answered(well, stepped))
    }
}
