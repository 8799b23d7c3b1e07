//! Laws of the definitions. Each function does nothing: what its contract says holds of the definitions alone.

ghost use Rattle.std.specs.Prelude.{Bool};
ghost use Rattle.life_check.specs.Prelude.{Program, Home, PoolView, TypedChainNeverFaults, TypedModulesAreSafe, BesideRows, FaultRows, IdentityAnswers, Covers, LivesByTest, StepLands};
ghost use Rattle.life_check.specs.Prelude.{MetIsFaultless, GreaterFits, RequestEndLands, SlimIsTyped};

/// Certificates worked out by hand, of a module that passes on what it gets; a module that never faults, and one that does; one that is
/// safe beside any filters, and two that are not.
pub fn worked_certificates()
    ensures answers { IdentityAnswers }
    ensures faults { FaultRows }
    ensures beside { BesideRows }
{}

/// Where each module of a chain is typed with its certificate, no run of any number of connections of that chain answers a fault,
/// whatever happens on which of them, and whatever each opening of a file and each read tells.
pub fn typed_chains_never_fault()
    ensures { TypedChainNeverFaults }
{}

/// Where a module is typed with a certificate, its instances are safe by themselves: no open run of one reaches a fault, whatever filters
/// stand before and behind.
pub fn typed_modules_are_safe()
    ensures { TypedModulesAreSafe }
{}

/// The rules are sound, step by step, whatever lives through a call. What a step leaves is described by the state on the edge that it
/// takes. Where no need fails, there is no fault. A greater state describes what a lesser one does. The state after the end of a
/// request describes what that leaves.
pub fn rules_are_sound()
    ensures steps { (lives : Home → Bool) → StepLands (LivesByTest lives) }
    ensures needs { (lives : Home → Bool) (p : Program) (v : PoolView) → MetIsFaultless (Covers p v (LivesByTest lives)) }
    ensures greater { (lives : Home → Bool) → GreaterFits (LivesByTest lives) }
    ensures ends { RequestEndLands }
{}

/// What is accepted is accepted in its slim form.
pub fn slim_forms_are_typed()
    ensures { SlimIsTyped }
{}
