//! What instructions do to numbers and to a call's buffer.

ghost use Rattle.std.specs.Prelude.{◌≡◌, ◌==◌, ◌<◌, ◌-◌, ◌+◌, ◌++◌, ◌∷◌, [], ℕ, Option, min, nat_lt, OnOk, OnErr};
ghost use Rattle.interp_state.specs.Prelude.{set_number, value_of, do_clearbuf, last_value, Items, ContextView, seen_over, slot_at, cursor_at};
ghost use Rattle.interp_state.specs.declared.machine.Instance.{Instance};
ghost use Rattle.interp_state.specs.declared.machine.Call.{Call};

use crate::machine::{Call, Instance};
use run_model::Value;
use std::alloc::AllocError;

#[tactic(auto, unfolding(crate::specs::Seen::seen_over, crate::specs::Slots::slot_at, run_model::specs::State::set_number, run_model::specs::Indexed::upd))]
impl Instance {
    /// The number in a variable; beyond the last it is 0.
    pub fn number(&self, n: u8) -> u32
        ensures { (rings : ℕ → Option Items) (next : ℕ) (view : ContextView) (call : Call) → result ≡ (seen_over rings next view self.now call).instance.numbers n }
    {
        match self.numbers.get(usize::from(n)) {
            Some(number) => *number,
            None => 0,
        }
    }

    /// Sets the number in a variable.
    pub fn set_number(&mut self, n: u8, number: u32)
        requires { n < 8 }
        ensures new { (rings : ℕ → Option Items) (next : ℕ) (view : ContextView) (call : Call)
            → seen_over rings next view self.new call ≡ set_number n number (seen_over rings next view self.old call) }
        ensures slots { (b : ℕ) → slot_at self.new b ≡ slot_at self.old b }
    {
        self.numbers[usize::from(n)] = number;
    }
}

#[tactic(auto, unfolding(crate::specs::Seen::seen_over, crate::specs::Slots::cursor_at))]
impl Call {
    /// Appends a byte to the buffer. Without memory nothing is changed.
    pub(crate) fn buffer_byte(&mut self, byte: u8) -> Result<(), AllocError>
        ensures ok { OnOk result ((rings : ℕ → Option Items) (next : ℕ) (view : ContextView) (i : Instance) → let r = seen_over rings next view i self.old in
            seen_over rings next view i self.new ≡ record r { call = record r.call { buffer = r.call.buffer ++ byte ∷ [] } }) }
        ensures err { OnErr result ((rings : ℕ → Option Items) (next : ℕ) (view : ContextView) (i : Instance) → seen_over rings next view i self.new ≡ seen_over rings next view i self.old) }
        ensures same { OnErr result (self.new ≡ self.old) }
        ensures pc { self.new.pc ≡ self.old.pc }
        ensures cursors { (c : ℕ) → cursor_at self.new c ≡ cursor_at self.old c }
        ensures name { self.new.name ≡ self.old.name }
    {
        self.buffer.push(byte)
    }

    /// Empties the buffer.
    pub fn clear_buffer(&mut self)
        ensures new { (rings : ℕ → Option Items) (next : ℕ) (view : ContextView) (i : Instance) → seen_over rings next view i self.new ≡ do_clearbuf (seen_over rings next view i self.old) }
        ensures pc { self.new.pc ≡ self.old.pc }
        ensures cursors { (c : ℕ) → cursor_at self.new c ≡ cursor_at self.old c }
        ensures name { self.new.name ≡ self.old.name }
    {
        self.buffer.clear();
    }
}

/// The number that an operand stands for.
pub fn value_of(instance: &Instance, x: Value) -> u32
    ensures { (rings : ℕ → Option Items) (next : ℕ) (view : ContextView) (call : Call) → result ≡ value_of (seen_over rings next view instance.now call) x }
{
    match x {
        Value::Number(n) => instance.number(n),
        Value::Constant(number) => number,
    }
}

/// Sets a number.
pub fn set(instance: &mut Instance, n: u8, x: Value)
    requires { n < 8 }
    ensures new { (rings : ℕ → Option Items) (next : ℕ) (view : ContextView) (call : Call) → let r = seen_over rings next view instance.old call in
        seen_over rings next view instance.new call ≡ set_number n (value_of r x) r }
    ensures slots { (b : ℕ) → slot_at instance.new b ≡ slot_at instance.old b }
{
    let number = value_of(instance, x);
    instance.set_number(n, number);
}

/// Adds to a number, at most up to 4294967295.
pub fn add(instance: &mut Instance, n: u8, x: Value)
    requires { n < 8 }
    ensures new { (rings : ℕ → Option Items) (next : ℕ) (view : ContextView) (call : Call) → let r = seen_over rings next view instance.old call in
        seen_over rings next view instance.new call ≡ set_number n (min last_value (r.instance.numbers n + value_of r x)) r }
    ensures slots { (b : ℕ) → slot_at instance.new b ≡ slot_at instance.old b }
{
    let sum = instance.number(n).saturating_add(value_of(instance, x));
    instance.set_number(n, sum);
}

/// Takes from a number, at least down to 0.
pub fn sub(instance: &mut Instance, n: u8, x: Value)
    requires { n < 8 }
    ensures new { (rings : ℕ → Option Items) (next : ℕ) (view : ContextView) (call : Call) → let r = seen_over rings next view instance.old call in
        seen_over rings next view instance.new call ≡ set_number n (r.instance.numbers n - value_of r x) r }
    ensures slots { (b : ℕ) → slot_at instance.new b ≡ slot_at instance.old b }
{
    let left = instance.number(n).saturating_sub(value_of(instance, x));
    instance.set_number(n, left);
}

/// Whether a number is below another.
pub fn is_below(instance: &Instance, n: u8, x: Value) -> bool
    ensures { (rings : ℕ → Option Items) (next : ℕ) (view : ContextView) (call : Call)
        → let r = seen_over rings next view instance.now call in result ≡ nat_lt (r.instance.numbers n) (value_of r x) }
{
    instance.number(n) < value_of(instance, x)
}

/// Whether a number equals another.
pub fn is_equal(instance: &Instance, n: u8, x: Value) -> bool
    ensures { (rings : ℕ → Option Items) (next : ℕ) (view : ContextView) (call : Call) → let r = seen_over rings next view instance.now call in result ≡ (r.instance.numbers n == value_of r x) }
{
    instance.number(n) == value_of(instance, x)
}
