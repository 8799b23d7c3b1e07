//! Calls of a filter begin and end.

ghost use Rattle.std.specs.Prelude.{◌≡◌, ◌≢◌, ◌==◌, ◌<◌, ℕ, None, Some, true, is_some, if◌then◌else◌};
ghost use Rattle.module_run.specs.Prelude.{NoneRevived, upd, lists, brigade_of, pool_of, references, next_name, IsBegun, IsHeld, SameButSlots, slot_at, named_at};

use crate::conn::Filter;
use brigade_ops::{BrigadeId, Brigades, Rings, Stored};
use interp_calls::calls::end_call;
use interp_state::machine::Slot;

impl Filter {
    /// Its call returns.
    pub(crate) fn end<R: Rings<Stored> + Drop>(&mut self, store: &mut Brigades<R>)
        requires held { IsHeld store.old self.old.instance self.old.call }
        requires runs { 0 < self.old.call.name }
        requires none { lists store.old 0 ≡ None }
        requires free { pool_of store.old 0 ≡ None }
        ensures out { (n : ℕ) → lists store.new n ≡ upd (lists store.old) self.old.call.name None n }
        ensures next { next_name store.new ≡ next_name store.old }
        ensures names { NoneRevived (brigade_of store.old) (brigade_of store.new) (next_name store.old) }
        ensures pools { pool_of store.new ≡ pool_of store.old }
        ensures references { references store.new ≡ references store.old }
        ensures held { IsHeld store.new self.new.instance self.new.call }
        ensures slots { (a : ℕ) → slot_at self.new.instance a ≡ (if a == 8 then Slot.Null else slot_at self.old.instance a) }
        ensures rest { SameButSlots self.old.instance self.new.instance }
        ensures name { self.new.call.name ≡ 0 }
        ensures pc { self.new.call.pc ≡ self.old.call.pc }
        ensures lent { self.new.lent ≡ self.old.lent }
        ensures unasked { store.new.asked ≡ store.old.asked }
    {
        end_call(&mut self.instance, &mut self.call, store);
    }

    /// Its call returns, which was the first one: the brigade that came in to it goes with it.
    pub(crate) fn end_first<R: Rings<Stored> + Drop>(&mut self, store: &mut Brigades<R>)
        requires held { IsHeld store.old self.old.instance self.old.call }
        requires runs { 0 < self.old.call.name }
        requires none { lists store.old 0 ≡ None }
        requires free { pool_of store.old 0 ≡ None }
        requires brought { (m : ℕ) → named_at self.old 8 ≡ Some m → (pool_of store.old m ≡ None) × (is_some (lists store.old m) ≡ true) }
        ensures others { (n : ℕ) → n ≢ self.old.call.name → named_at self.old 8 ≢ Some n → lists store.new n ≡ lists store.old n }
        ensures gone { lists store.new self.old.call.name ≡ None }
        ensures brought { (m : ℕ) → named_at self.old 8 ≡ Some m → lists store.new m ≡ None }
        ensures next { next_name store.new ≡ next_name store.old }
        ensures names { NoneRevived (brigade_of store.old) (brigade_of store.new) (next_name store.old) }
        ensures pools { pool_of store.new ≡ pool_of store.old }
        ensures references { references store.new ≡ references store.old }
        ensures held { IsHeld store.new self.new.instance self.new.call }
        ensures slots { (a : ℕ) → slot_at self.new.instance a ≡ (if a == 8 then Slot.Null else slot_at self.old.instance a) }
        ensures rest { SameButSlots self.old.instance self.new.instance }
        ensures name { self.new.call.name ≡ 0 }
        ensures pc { self.new.call.pc ≡ self.old.call.pc }
        ensures lent { self.new.lent ≡ self.old.lent }
        ensures unasked { store.new.asked ≡ store.old.asked }
    {
        let brought = self.instance.slot(8);
        self.end(store);
        match brought {
            Slot::Null => {}
            Slot::Made(name, _, _) => store.end_loose(name),
        }
    }

    /// A call of it begins, of this name, at an instruction.
    pub(crate) fn begin(&mut self, name: BrigadeId, pc: usize)
        ensures begun { IsBegun name pc self.new.call }
        ensures instance { self.new.instance ≡ self.old.instance }
        ensures lent { self.new.lent ≡ self.old.lent }
    {
        self.call.start(name, pc);
    }
}
