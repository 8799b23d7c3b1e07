//! The faults of brigade variables: nothing is there, or it was passed, or something is there already.

ghost use Rattle.std.specs.Prelude.{◌≡◌, ◌<◌};
ghost use Rattle.interp_checks.specs.Prelude.{or_else, brigade_fault, usable_fault, passed_fault, new_fault, lists, bare, mark_in, OnlyAsked, slot_at};

use brigade_ops::{Brigades, Rings, Stored};
use interp_state::machine::{Instance, Slot};
use run_model::{FaultKind, Mark};

/// The fault of the first want, or else of those behind it.
pub(crate) fn or_else(first: Option<FaultKind>, second: Option<FaultKind>) -> Option<FaultKind>
    ensures { result ≡ or_else first second }
{
    match first {
        Some(kind) => Some(kind),
        None => second,
    }
}

/// The mark of the brigade in a variable, where it is there.
#[tactic(auto, using(crate::proofs::OnlyAsked::asks_once))]
pub(crate) fn mark_of<R: Rings<Stored> + Drop>(
    instance: &Instance,
    store: &mut Brigades<R>,
    b: u8,
) -> Option<Mark>
    requires { b < 9 }
    ensures value { result ≡ mark_in (lists store.old) (slot_at instance.now b) }
    ensures asked { OnlyAsked store.old store.new }
{
    let Slot::Made(name, _, mark) = instance.slot(b) else {
        return None;
    };
    if store.has(name) { Some(mark) } else { None }
}

/// The fault of a brigade that is to be there.
pub(crate) fn brigade_fault(mark: Option<Mark>) -> Option<FaultKind>
    ensures { result ≡ brigade_fault (bare mark) }
{
    match mark {
        Some(_) => None,
        None => Some(FaultKind::F2),
    }
}

/// The fault of a brigade that is to be there, and was not passed.
pub(crate) fn usable_fault(mark: Option<Mark>) -> Option<FaultKind>
    ensures { result ≡ usable_fault (bare mark) }
{
    match mark {
        Some(Mark::Usable) => None,
        Some(Mark::Passed) => Some(FaultKind::F7),
        None => Some(FaultKind::F2),
    }
}

/// The fault of a brigade that was passed.
pub(crate) fn passed_fault(mark: Option<Mark>) -> Option<FaultKind>
    ensures { result ≡ passed_fault (bare mark) }
{
    match mark {
        Some(Mark::Passed) => Some(FaultKind::F7),
        Some(Mark::Usable) | None => None,
    }
}

/// The fault of a variable in which no brigade is to be.
pub(crate) fn new_fault(mark: Option<Mark>) -> Option<FaultKind>
    ensures { result ≡ new_fault (bare mark) }
{
    match mark {
        Some(_) => Some(FaultKind::F10),
        None => None,
    }
}
