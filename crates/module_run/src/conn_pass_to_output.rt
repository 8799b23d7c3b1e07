//! The last filter passes a brigade to the end of the chain.

ghost use Rattle.std.specs.Prelude.{◌≡◌, ◌<◌, ◌+◌, List, true, false, if◌then◌else◌, IsOk, OnOk, OnErr};
ghost use Rattle.module_run.specs.Prelude.{Program, Payload, Pools, Frame, Linked, configuration, is_last, grows, PoolTree, top_of, EndsLoose, LeavesOthers, CanProceed, IsReady};
ghost use Rattle.module_run.specs.Prelude.{RefinesStep, LeftAs};

use crate::conn::Conn;
use brigade_ops::{Brigades, Files, Rings, Stored};
use interp_calls::output::pass_out;
use run_model::{Instr, Stepped};
use std::alloc::AllocError;

impl Conn {
    /// The last filter passes the brigade of a variable to the end of the chain. It goes on behind the pass, or at the target of the pass
    /// where not all went well. Only bytes that are put out take memory. Without it nothing is
    /// changed, and nothing was read.
    pub(crate) fn pass_to_output<R: Rings<Stored> + Drop, F: Files>(
        &mut self,
        store: &mut Brigades<R>,
        files: &mut F,
        b: u8,
        target: u16,
    ) -> Result<(), AllocError>
        requires ready { (chain : List Program) × (tree : PoolTree Payload) × CanProceed chain (Instr.Pass b target) tree store.old (F.device files.old) self.old }
        ensures ok { OnOk result ((chain : List Program) (tree : PoolTree Payload) (v : Linked) (f : Frame) (rest : List Frame)
            → is_last chain v.1 (top_of self.old) ≡ true → IsReady chain (Instr.Pass b target) tree store.old (F.device files.old) self.old v f rest
            → RefinesStep chain (Instr.Pass b target) (F.device files.old) (F.device files.new) v f rest tree store.new self.new Stepped.Went) }
        ensures err { OnErr result ((chain : List Program) (tree : PoolTree Payload) (v : Linked)
            → LeftAs chain tree store.old (F.device files.old) self.old v → LeftAs chain tree store.new (F.device files.new) self.new v) }
        ensures sure { (chain : List Program) (tree : PoolTree Payload) (v : Linked) (f : Frame) (rest : List Frame)
            → IsReady chain (Instr.Pass b target) tree store.old (F.device files.old) self.old v f rest
            → grows (configuration v.0 v.1 f) (Instr.Pass b target) ≡ false → IsOk result }
        ensures unread { OnErr result (F.device files.new ≡ F.device files.old) }
        ensures leaves { (ps : Pools Payload) → LeavesOthers ps store.old store.new self.old self.new }
        ensures ended { EndsLoose store.old store.new self.old self.new }
        ensures count { self.new.count ≡ self.old.count }
        ensures unasked { store.new.asked ≡ store.old.asked }
    {
        let top = self.top();
        let filter = &mut self.filters[top];
        let well = pass_out(
            &mut filter.instance,
            store,
            files,
            b,
            &mut self.out,
            &mut self.ended,
        )?;
        filter.call.go_on(well, target);
        Ok(())
    }
}
