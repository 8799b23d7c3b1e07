//! A filter passes a brigade to the next one.

ghost use Rattle.std.specs.Prelude.{◌≡◌, ◌==◌, ◌<◌, ◌+◌, ◌-◌, ◌^◌, ℕ, List, Option, None, Some, [], length, true, false, is_some, is_ok, if◌then◌else◌, OnOk, OnErr};
ghost use Rattle.module_run.specs.Prelude.{Device, NoneRevived, upd, Pools, Frame, Linked, Items, fresh_call, do_pass, PoolTree, Payload, lists, brigade_of, pool_of, references, next_name, Call};
ghost use Rattle.module_run.specs.Prelude.{ContextView, shown_call, top_of, lent, CanPass, IsHeld, EndsLoose, LeavesOthers, IsReady, RefinesStep, LeftAs, seen, is_running, live_in, marked, name_in};
ghost use Rattle.module_run.specs.Prelude.{place_in, slot_at};

use crate::conn::{Conn, Filter};
use brigade_ops::{BrigadeId, Brigades, RingRefusal, Rings, Stored};
use interp_calls::calls::begin_call;
use interp_calls::passes::{hand_over, take_in};
use run_model::{Instr, Mark, Module, Stepped};
use std::alloc::AllocError;

impl Filter {
    /// Its call begins at an instruction, where a name is left. Without memory nothing is changed.
    fn begin_in<R: Rings<Stored> + Drop>(
        &mut self,
        store: &mut Brigades<R>,
        pc: usize,
    ) -> Result<(), AllocError>
        requires held { IsHeld store.old self.old.instance self.old.call }
        requires idle { self.old.call.name ≡ 0 }
        requires free { pool_of store.old (next_name store.old) ≡ None }
        requires left { next_name store.old < 2 ^ 64 - 1 }
        ensures call { OnOk result ((waits : List ℕ) → shown_call (is_running self.new.call.name waits) (lists store.new) self.new.call ≡ fresh_call (next_name store.old)) }
        ensures pc { OnOk result (self.new.call.pc ≡ pc) }
        ensures instance { self.new.instance ≡ self.old.instance }
        ensures lent { self.new.lent ≡ self.old.lent }
        ensures name { OnOk result (self.new.call.name ≡ next_name store.old) }
        ensures held { OnOk result (IsHeld store.new self.new.instance self.new.call) }
        ensures out { OnOk result ((n : ℕ) → lists store.new n ≡ upd (lists store.old) (next_name store.old) (Some []) n) }
        ensures next { next_name store.new ≡ (if is_ok result then next_name store.old + 1 else next_name store.old) }
        ensures names { NoneRevived (brigade_of store.old) (brigade_of store.new) (next_name store.old) }
        ensures pools { pool_of store.new ≡ pool_of store.old }
        ensures references { references store.new ≡ references store.old }
        ensures err { OnErr result ((n : ℕ) → lists store.new n ≡ lists store.old n) }
        ensures same { OnErr result (self.new ≡ self.old) }
        ensures unasked { store.new.asked ≡ store.old.asked }
    {
        match begin_call(&self.instance, &mut self.call, store, pc) {
            Ok(()) => Ok(()),
            Err(RingRefusal::NoMemory) => Err(AllocError),
            Err(RingRefusal::NamesSpent) => unreachable!(),
        }
    }

    /// Lends the brigade of a variable to the next filter, and tells its name.
    fn lend<R: Rings<Stored> + Drop>(&mut self, store: &Brigades<R>, b: u8) -> BrigadeId
        requires slot { b < 9 }
        requires live { is_some (live_in (lists store.now) (slot_at self.old.instance b)) ≡ true }
        ensures name { name_in (slot_at self.old.instance b) ≡ Some result }
        ensures there { is_some (lists store.now result) ≡ true }
        ensures seen { (view : ContextView) (call : Call) → lent b (seen store.now view self.new.instance call) ≡ do_pass b (seen store.now view self.old.instance call) }
        ensures held { (call : Call) → IsHeld store.now self.old.instance call → IsHeld store.now self.new.instance call }
        ensures slots { (a : ℕ) → slot_at self.new.instance a ≡ (if a == b then marked Mark.Passed (slot_at self.old.instance b) else slot_at self.old.instance a) }
        ensures call { self.new.call ≡ self.old.call }
        ensures lent { self.new.lent ≡ Some b }
    {
        let name = self.instance.brigade(b);
        hand_over(&mut self.instance, store, b);
        self.lent = Some(b);
        name
    }
}

impl Conn {
    /// The filter on top passes the brigade of a variable to the next filter that has not left, whose place is `to` and whose `main` begins.
    /// Without memory nothing is changed.
    pub(crate) fn pass_to_next<R: Rings<Stored> + Drop>(
        &mut self,
        modules: &[Module],
        store: &mut Brigades<R>,
        b: u8,
        to: usize,
    ) -> Result<(), AllocError>
        requires last { to < length modules.now }
        requires next { (rings : ℕ → Option Items) → to ≡ place_in modules.now rings self.old (top_of self.old + 1) }
        requires ready { (d : Device) × CanPass modules.now b store.old d self.old }
        ensures ok { OnOk result ((tree : PoolTree Payload) (d : Device) (l : ℕ) (v : Linked) (f : Frame) (rest : List Frame)
            → IsReady modules.now (Instr.Pass b l) tree store.old d self.old v f rest
            → RefinesStep modules.now (Instr.Pass b l) d d v f rest tree store.new self.new Stepped.Went) }
        ensures err { OnErr result ((tree : PoolTree Payload) (d : Device) (v : Linked) → LeftAs modules.now tree store.old d self.old v → LeftAs modules.now tree store.new d self.new v) }
        ensures leaves { (ps : Pools Payload) → LeavesOthers ps store.old store.new self.old self.new }
        ensures ended { EndsLoose store.old store.new self.old self.new }
        ensures count { self.new.count ≡ self.old.count }
        ensures unasked { store.new.asked ≡ store.old.asked }
    {
        let top = self.top();
        self.waits.reserve(1)?;
        self.callers.reserve(1)?;
        self.filters[to].begin_in(store, modules[to].main())?;
        let name = self.filters[top].lend(store, b);
        take_in(&mut self.filters[to].instance, store, name);
        self.waits.push(self.filters[top].call.name).unwrap();
        self.callers.push(top).unwrap();
        self.top = to;
        Ok(())
    }
}
