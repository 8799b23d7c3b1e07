//! How a request is made: whole, where nothing else is to be served meanwhile, or in slices.

ghost use Rattle.std.specs.Prelude.{◌≡◌, ◌*◌, ℕ, List, IfOk, IfErr, IfSome};
ghost use Rattle.http_front.specs.Nearing.{Nears, slice_steps};
ghost use Rattle.http_front.specs.Outcomes.{IsLack};

use crate::fault::FrontKind;
use crate::handler::{Handler, RequestOutcome, Slice};
use http_message::Method;
use std::alloc::Global;
use std::convert::Infallible;

/// How a handler makes a request for a file.
pub(crate) trait Pace<H: Handler> {
    /// A request that is under way.
    type Task: Drop;

    ghost use Rattle.http_message.specs.declared.reply.Method.{Method};
    ghost use Rattle.http_front.specs.Nearing.{Nears, slice_steps};
    ghost use Rattle.http_front.specs.Outcomes.{IsLack};
    ghost use Rattle.http_front.specs.declared.fault.FrontKind.{FrontKind};
    ghost use Rattle.http_front.specs.declared.handler.RequestOutcome.{RequestOutcome};

    // From the first state, a request for this file comes to this outcome, and leaves the second state.
    ghost comes: { H → ℕ → Method → List ℕ → RequestOutcome → H → Type 0 };

    // From the first state, what is left of a request comes to this outcome, and leaves the second state.
    ghost rests: { H → ℕ → Self.Task → RequestOutcome → H → Type 0 };

    // In the first state what was left of a request was left without an outcome, for want of this, and the second state is left.
    ghost lacks_rest: { H → ℕ → Self.Task → FrontKind → H → Type 0 };

    // From the first state to the second no more steps of calls were made on the connection of this number than so many.
    ghost steps: { H → ℕ → ℕ → H → Type 0 };

    /// Begins a request. `NoMemory` and `NamesSpent` leave it without an outcome.
    fn begin(
        alloc: Global,
        handler: &mut H,
        number: u64,
        method: Method,
        file: &[u8],
    ) -> Result<Slice<Self::Task>, FrontKind>
        requires { H.is_open handler.old number }
        ensures ok { IfOk result (λ s. Nears (comes handler.old number method file.now) (rests handler.new number) handler.new s) }
        ensures open { H.is_open handler.new number }
        ensures beside { (from : H) → H.beside from number handler.old → H.beside from number handler.new }
        ensures err { IfErr result (λ e. IsLack e × H.lacks handler.old number method file.now e handler.new) }
        ensures few { steps handler.old number (2 * slice_steps) handler.new };

    /// Goes on with a request that is under way. `NoMemory` and `NamesSpent` leave it without an outcome. Where none is under way there is no outcome
    /// either.
    fn go_on(
        alloc: Global,
        handler: &mut H,
        number: u64,
        task: Option<Self::Task>,
    ) -> Result<Slice<Self::Task>, FrontKind>
        requires { H.is_open handler.old number }
        ensures ok { IfOk result (λ s. IfSome task (λ t. Nears (rests handler.old number t) (rests handler.new number) handler.new s)) }
        ensures open { H.is_open handler.new number }
        ensures beside { (from : H) → H.beside from number handler.old → H.beside from number handler.new }
        ensures err { IfErr result (λ e. IsLack e × IfSome task (λ t. lacks_rest handler.old number t e handler.new)) }
        ensures few { steps handler.old number slice_steps handler.new };

    ghost steps_none: { (s : H) (number n : ℕ) → steps s number n s };
}

/// Each request is made whole: none is ever under way.
pub(crate) struct WholeRequest;

/// A slice of a request is made, and then others have their turns.
pub(crate) struct InSlices;

impl<H: Handler> Pace<H> for WholeRequest {
    type Task = Infallible;

    ghost comes = { λ old number method file o new. H.handles old number method file o new };

    ghost rests = { λ old number task o new. ⊥ };

    ghost lacks_rest = { λ old number task e new. ⊥ };

    ghost steps = { λ old number n new. Unit {0} };

    ghost steps_none = { λ s number n. tt };

    fn begin(
        alloc: Global,
        handler: &mut H,
        number: u64,
        method: Method,
        file: &[u8],
    ) -> Result<Slice<Infallible>, FrontKind> {
        Ok(Slice::Done(handler.handle(alloc, number, method, file)?))
    }

    fn go_on(
        _alloc: Global,
        _handler: &mut H,
        _number: u64,
        task: Option<Infallible>,
    ) -> Result<Slice<Infallible>, FrontKind>
        requires { H.is_open _handler.old _number }
        ensures ok { IfOk result (λ s. IfSome task (λ t. Nears (λ (o : RequestOutcome) (z : H). ⊥) (λ (k : Infallible) (o : RequestOutcome) (z : H). ⊥) _handler.new s)) }
        ensures open { H.is_open _handler.new _number }
        ensures beside { (from : H) → H.beside from _number _handler.old → H.beside from _number _handler.new }
        ensures err { IfErr result (λ e. IsLack e × IfSome task (λ t. ⊥)) }
        ensures few { Unit {0} }
    {
        match task {
            Some(task) => match task {},
            None => Err(FrontKind::NoMemory),
        }
    }
}

impl<H: Handler> Pace<H> for InSlices {
    type Task = H::Task;

    ghost comes = { λ old number method file o new. H.among old number method file o new };

    ghost rests = { λ old number task o new. H.rests old number task o new };

    ghost lacks_rest = { λ old number task e new. H.lacks_rest old number task e new };

    ghost steps = { λ old number n new. H.steps old number n new };

    ghost steps_none = { λ s number n. H.steps_none s number n };

    fn begin(
        alloc: Global,
        handler: &mut H,
        number: u64,
        method: Method,
        file: &[u8],
    ) -> Result<Slice<H::Task>, FrontKind> {
        handler.begin(alloc, number, method, file)
    }

    fn go_on(
        alloc: Global,
        handler: &mut H,
        number: u64,
        task: Option<H::Task>,
    ) -> Result<Slice<H::Task>, FrontKind>
        requires { H.is_open handler.old number }
        ensures ok { IfOk result (λ s. IfSome task (λ t. Nears (H.rests handler.old number t) (H.rests handler.new number) handler.new s)) }
        ensures open { H.is_open handler.new number }
        ensures beside { (from : H) → H.beside from number handler.old → H.beside from number handler.new }
        ensures err { IfErr result (λ e. IsLack e × IfSome task (λ t. H.lacks_rest handler.old number t e handler.new)) }
        ensures few { H.steps handler.old number slice_steps handler.new }
    {
        match task {
            Some(task) => handler.go_on(alloc, number, task),
            None => Err(FrontKind::NoMemory),
        }
    }
}
