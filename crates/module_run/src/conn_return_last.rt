//! A call returns that none waits for.

ghost use Rattle.std.specs.Prelude.{◌≡◌, ℕ, List, IfOk, IsOk, OnErr};
ghost use Rattle.module_run.specs.Prelude.{Device, Pools, Frame, Linked, handler_at, calls_of, waiting, EndsLoose, LeavesOthers, CanProceed, IsReady, RefinesReturn, LeftAs, is_last};

use crate::conn::Conn;
use brigade_ops::{Brigades, PoolId, PoolTree, Rings, Stored};
use run_model::{Instr, Module, Payload, Status, Stepped};
use std::alloc::AllocError;

/// Where the first call of a filter begins: at its `init` where a request is open, else at its `open`.
fn handler(req: Option<PoolId>, code: &Module) -> usize
    ensures { result ≡ handler_at req code.now }
{
    match req {
        None => 0,
        Some(_) => code.init(),
    }
}

impl Conn {
    /// The call on top returns, and none waits for it: it ends, or where the handler of a further filter is to run, that one's call begins.
    /// Without memory nothing is changed.
    pub(crate) fn return_last<R: Rings<Stored> + Drop>(
        &mut self,
        modules: &[Module],
        store: &mut Brigades<R>,
        status: Status,
    ) -> Result<Stepped, AllocError>
        requires alone { waiting self.old ≡ 0 }
        requires ready { (tree : PoolTree Payload) × (d : Device) × CanProceed modules.now (Instr.Ret status) tree store.old d self.old }
        ensures leads { IfOk result (λ answer. (tree : PoolTree Payload) (d : Device) (v : Linked) (f : Frame) (rest : List Frame)
            → IsReady modules.now (Instr.Ret status) tree store.old d self.old v f rest
            → RefinesReturn modules.now status d v f rest tree store.new self.new answer) }
        ensures err { OnErr result ((tree : PoolTree Payload) (d : Device) (v : Linked) → LeftAs modules.now tree store.old d self.old v → LeftAs modules.now tree store.new d self.new v) }
        ensures sure { (tree : PoolTree Payload) (d : Device) (v : Linked) (f : Frame) (rest : List Frame) → IsReady modules.now (Instr.Ret status) tree store.old d self.old v f rest
            → calls_of (is_last modules.now v.1 f.of) (Instr.Ret status) rest v.1.queue ≡ 0 → IsOk result }
        ensures leaves { (ps : Pools Payload) → LeavesOthers ps store.old store.new self.old self.new }
        ensures ended { EndsLoose store.old store.new self.old self.new }
        ensures count { self.new.count ≡ self.old.count }
        ensures unasked { store.new.asked ≡ store.old.asked }
    {
        let first = self.first;
        let next = self.queue;
        if next == modules.len() {
            self.filters[first].end_first(store);
            self.busy = false;
            return Ok(Stepped::CallEnded(status));
        }
        let pc = handler(self.req, &modules[next]);
        let Ok(name) = store.loose() else {
            return Err(AllocError);
        };
        self.filters[first].end_first(store);
        self.filters[next].begin(name, pc);
        self.first = next;
        self.top = next;
        self.queue = next + 1;
        Ok(Stepped::Went)
    }
}
