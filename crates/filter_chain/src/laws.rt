//! Laws of the definitions. Each function does nothing: what its contract says holds of the definitions alone.

ghost use Rattle.filter_chain.specs.Safe.{ReachedCallsAreFaultless, ReachedConnectionsAreUnfaulted};
ghost use Rattle.filter_chain.specs.Safe.{ReachedWorldsAnswerNoFault, ReachedWorldsAnswerUnfaulted};

/// Where some events lead to a world, on a chain no run of which answers a fault, no event answers a fault there.
pub fn checked_chains_answer_no_fault()
    ensures { ReachedWorldsAnswerNoFault }
{}

/// There the next instruction of a call that is to be stepped has no fault: a step need not look for one.
pub fn calls_of_checked_chains_are_faultless()
    ensures { ReachedCallsAreFaultless }
{}

/// There no connection is broken by a fault.
pub fn connections_of_checked_chains_are_unfaulted()
    ensures { ReachedConnectionsAreUnfaulted }
{}

/// So no event is refused for a fault that broke its connection.
pub fn checked_chains_refuse_for_no_fault()
    ensures { ReachedWorldsAnswerUnfaulted }
{}
