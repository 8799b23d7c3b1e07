//! A call returns to the one that waits for it.

ghost use Rattle.std.specs.Prelude.{◌≡◌, ◌<◌, ℕ, List, None, length};
ghost use Rattle.module_run.specs.Prelude.{Device, Pools, Frame, Linked, after_pass, current, waiting, EndsLoose, LeavesOthers, CanProceed, IsReady, RefinesReturn};

use crate::conn::{Conn, Filter};
use brigade_ops::{Brigades, PoolTree, Rings, Stored};
use run_model::{Instr, Module, Payload, Status, Stepped};

/// Where a filter goes on behind its pass.
fn behind_pass(instr: Instr, status: Status, pc: usize) -> usize
    requires passes { (b : ℕ) × ((l : ℕ) × (instr ≡ Instr.Pass b l)) }
    requires small { pc < 1024 }
    ensures { result ≡ after_pass status instr pc }
{
    match (status, instr) {
        (Status::Fail, Instr::Pass(_, target)) => usize::from(target),
        _ => pc + 1,
    }
}

impl Filter {
    /// The filter behind it returned: the brigade that it passed is its own again, and its call goes on.
    fn go_on(&mut self, code: &Module, status: Status)
        requires at { self.old.call.pc < length code.now.code }
        requires passes { (b : ℕ) × ((l : ℕ) × (current code.now self.old.call.pc ≡ Instr.Pass b l)) }
        ensures instance { self.new.instance ≡ self.old.instance }
        ensures call { let f = self.old in self.new.call ≡ record f.call { pc = after_pass status (current code.now f.call.pc) f.call.pc } }
        ensures lent { self.new.lent ≡ None }
    {
        let pc = self.call.pc;
        self.call.pc = behind_pass(code.at(pc), status, pc);
        self.lent = None;
    }
}

impl Conn {
    /// The call on top returns to the one that waits for it.
    pub(crate) fn return_to_caller<R: Rings<Stored> + Drop>(
        &mut self,
        modules: &[Module],
        store: &mut Brigades<R>,
        status: Status,
    )
        requires waits { 0 < waiting self.old }
        requires ready { (tree : PoolTree Payload) × (d : Device) × CanProceed modules.now (Instr.Ret status) tree store.old d self.old }
        ensures leads { (tree : PoolTree Payload) (d : Device) (v : Linked) (f : Frame) (rest : List Frame) → IsReady modules.now (Instr.Ret status) tree store.old d self.old v f rest
            → RefinesReturn modules.now status d v f rest tree store.new self.new Stepped.Went }
        ensures leaves { (ps : Pools Payload) → LeavesOthers ps store.old store.new self.old self.new }
        ensures ended { EndsLoose store.old store.new self.old self.new }
        ensures count { self.new.count ≡ self.old.count }
        ensures unasked { store.new.asked ≡ store.old.asked }
    {
        let top = self.top();
        self.filters[top].end(store);
        let caller = self.callers.pop().unwrap();
        self.filters[caller].go_on(&modules[caller], status);
        self.waits.pop();
        self.top = caller;
    }
}
