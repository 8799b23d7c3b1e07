//! The call on top returns.

ghost use Rattle.std.specs.Prelude.{◌≡◌, ◌≢◌, ℕ, List, length, IfOk, IsOk, OnErr};
ghost use Rattle.module_run.specs.Prelude.{Device, Pools, Frame, Linked, calls_of, is_last, top_of, EndsLoose, LeavesOthers, CanProceed, IsReady, RefinesReturn, RefinesStep, LeftAs};

use crate::conn::Conn;
use brigade_ops::{Brigades, PoolTree, Rings, Stored};
use run_model::{Instr, Module, Payload, Status, Stepped};
use std::alloc::AllocError;

impl Conn {
    /// The call on top returns: to the one that waits for it, or, where none does, the call that was begun from outside ends. Without memory
    /// nothing is changed.
    pub(crate) fn return_call<R: Rings<Stored> + Drop>(
        &mut self,
        modules: &[Module],
        store: &mut Brigades<R>,
        status: Status,
    ) -> Result<Stepped, AllocError>
        requires ready { (tree : PoolTree Payload) × (d : Device) × CanProceed modules.now (Instr.Ret status) tree store.old d self.old }
        ensures leads { IfOk result (λ answer. (tree : PoolTree Payload) (d : Device) (v : Linked) (f : Frame) (rest : List Frame)
            → IsReady modules.now (Instr.Ret status) tree store.old d self.old v f rest
            → RefinesReturn modules.now status d v f rest tree store.new self.new answer) }
        ensures err { OnErr result ((tree : PoolTree Payload) (d : Device) (v : Linked) → LeftAs modules.now tree store.old d self.old v → LeftAs modules.now tree store.new d self.new v) }
        ensures sure { (tree : PoolTree Payload) (d : Device) (v : Linked) (f : Frame) (rest : List Frame) → IsReady modules.now (Instr.Ret status) tree store.old d self.old v f rest
            → calls_of (is_last modules.now v.1 f.of) (Instr.Ret status) rest v.1.queue ≡ 0 → IsOk result }
        ensures leaves { (ps : Pools Payload) → LeavesOthers ps store.old store.new self.old self.new }
        ensures ended { EndsLoose store.old store.new self.old self.new }
        ensures count { self.new.count ≡ self.old.count }
        ensures unasked { store.new.asked ≡ store.old.asked }
    {
        if self.callers.is_empty() {
            return self.return_last(modules, store, status);
        }
        self.return_to_caller(modules, store, status);
        Ok(Stepped::Went)
    }

    /// The call on top, which is not that of the output filter, returns. Else as `return_call`.
    pub(crate) fn return_from<R: Rings<Stored> + Drop>(
        &mut self,
        modules: &[Module],
        store: &mut Brigades<R>,
        status: Status,
    ) -> Result<Stepped, AllocError>
        requires inside { top_of self.old ≢ length modules.now }
        requires ready { (tree : PoolTree Payload) × (d : Device) × CanProceed modules.now (Instr.Ret status) tree store.old d self.old }
        ensures leads { IfOk result (λ answer. (tree : PoolTree Payload) (d : Device) (v : Linked) (f : Frame) (rest : List Frame)
            → IsReady modules.now (Instr.Ret status) tree store.old d self.old v f rest
            → RefinesStep modules.now (Instr.Ret status) d d v f rest tree store.new self.new answer) }
        ensures err { OnErr result ((tree : PoolTree Payload) (d : Device) (v : Linked) → LeftAs modules.now tree store.old d self.old v → LeftAs modules.now tree store.new d self.new v) }
        ensures sure { (tree : PoolTree Payload) (d : Device) (v : Linked) (f : Frame) (rest : List Frame) → IsReady modules.now (Instr.Ret status) tree store.old d self.old v f rest
            → calls_of (is_last modules.now v.1 f.of) (Instr.Ret status) rest v.1.queue ≡ 0 → IsOk result }
        ensures leaves { (ps : Pools Payload) → LeavesOthers ps store.old store.new self.old self.new }
        ensures ended { EndsLoose store.old store.new self.old self.new }
        ensures count { self.new.count ≡ self.old.count }
        ensures unasked { store.new.asked ≡ store.old.asked }
    {
        self.return_call(modules, store, status)
    }
}
