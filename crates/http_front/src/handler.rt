//! What makes the content of a response.

ghost use Rattle.std.specs.Prelude.{◌≡◌, ◌≢◌, ◌*◌, ℕ, List, IfOk, IfErr};
ghost use Rattle.http_front.specs.Outcomes.{IsLack};

use crate::fault::FrontKind;
use filter_chain::BlockBytes;
use http_message::{Failure, Method, StatusCode};
use std::alloc::Global;

/// What a request comes to.
#[derive(Drop)]
pub struct RequestOutcome {
    /// The status: 200, or why there is no content.
    pub status: StatusCode,
    /// The content, where a GET succeeds.
    pub body: BlockBytes,
    /// Why the status is 500.
    pub failure: Option<Failure>,
}

/// What a slice of a request comes to.
#[derive(Drop)]
pub enum Slice<T> {
    /// The request is handled.
    Done(RequestOutcome),
    /// It is under way.
    Works(T),
}

/// What makes the content of a response from a file, on a connection that it opened.
pub trait Handler {
    /// A request that is under way.
    type Task: Drop;

    ghost use Rattle.http_message.specs.declared.reply.Method.{Method};
    ghost use Rattle.http_front.specs.declared.fault.FrontKind.{FrontKind};
    ghost use Rattle.http_front.specs.declared.handler.RequestOutcome.{RequestOutcome};
    ghost use Rattle.http_front.specs.Nearing.{Nears, slice_steps};

    // It can take a request on the connection of this number.
    ghost is_open: { Self → ℕ → Type 0 };

    // From the first state, a request for this file comes to this outcome, and leaves the second state.
    ghost handles: { Self → ℕ → Method → List ℕ → RequestOutcome → Self → Type 0 };

    // The same, where what belongs to other connections may have happened before, and between.
    ghost among: { Self → ℕ → Method → List ℕ → RequestOutcome → Self → Type 0 };

    // From the first state, what is left of a request comes to this outcome, and leaves the second state. What belongs to others may have happened
    // before, and between.
    ghost rests: { Self → ℕ → Self.Task → RequestOutcome → Self → Type 0 };

    // In the first state a request for this file was left without an outcome, for want of this, and the second state is left.
    ghost lacks: { Self → ℕ → Method → List ℕ → FrontKind → Self → Type 0 };

    // In the first state what was left of a request was left without an outcome, for want of this, and the second state is left.
    ghost lacks_rest: { Self → ℕ → Self.Task → FrontKind → Self → Type 0 };

    // Nothing happened from the first state to the second but what belongs to other connections than that of this number.
    ghost apart: { Self → ℕ → Self → Type 0 };

    // Nothing happened from the first state to the second but what belongs to the connection of this number.
    ghost beside: { Self → ℕ → Self → Type 0 };

    // From the first state to the second no more steps of calls were made on the connection of this number than so many.
    ghost steps: { Self → ℕ → ℕ → Self → Type 0 };

    /// Handles a request for a file. `NoMemory` and `NamesSpent` leave the request without an outcome.
    fn handle(
        &mut self,
        alloc: Global,
        number: u64,
        method: Method,
        file: &[u8],
    ) -> Result<RequestOutcome, FrontKind>
        requires { is_open self.old number }
        ensures ok { IfOk result (λ o. handles self.old number method file.now o self.new) }
        ensures open { is_open self.new number }
        ensures beside { (from : Self) → beside from number self.old → beside from number self.new }
        ensures err { IfErr result (λ e. IsLack e × lacks self.old number method file.now e self.new) };

    /// Begins a request for a file, and makes the first two slices of it. `NoMemory` and `NamesSpent` leave it without an outcome.
    fn begin(
        &mut self,
        alloc: Global,
        number: u64,
        method: Method,
        file: &[u8],
    ) -> Result<Slice<Self::Task>, FrontKind>
        requires { is_open self.old number }
        ensures ok { IfOk result (λ s. Nears (among self.old number method file.now) (rests self.new number) self.new s) }
        ensures open { is_open self.new number }
        ensures beside { (from : Self) → beside from number self.old → beside from number self.new }
        ensures err { IfErr result (λ e. IsLack e × lacks self.old number method file.now e self.new) }
        ensures few { steps self.old number (2 * slice_steps) self.new };

    /// Makes a slice more of a request that is under way. `NoMemory` and `NamesSpent` leave it without an outcome.
    fn go_on(
        &mut self,
        alloc: Global,
        number: u64,
        task: Self::Task,
    ) -> Result<Slice<Self::Task>, FrontKind>
        requires { is_open self.old number }
        ensures ok { IfOk result (λ s. Nears (rests self.old number task) (rests self.new number) self.new s) }
        ensures open { is_open self.new number }
        ensures beside { (from : Self) → beside from number self.old → beside from number self.new }
        ensures err { IfErr result (λ e. IsLack e × lacks_rest self.old number task e self.new) }
        ensures few { steps self.old number slice_steps self.new };

    /// Gives back the content of an outcome, which has gone out, so that its room is used again. It changes nothing.
    fn give_back(&mut self, body: BlockBytes)
        ensures { self.new ≡ self.old };

    ghost steps_none: { (s : Self) (number n : ℕ) → steps s number n s };

    ghost beside_self: { (s : Self) (number : ℕ) → beside s number s };

    ghost apart_self: { (s : Self) (number : ℕ) → apart s number s };

    // What belongs to one connection belongs to another than each other one.
    ghost apart_on: { (from old new : Self) (number other : ℕ) → other ≢ number → apart from other old → beside old number new → apart from other new };

    // What belongs to others may have happened before.
    ghost among_later: { (old now new : Self) (number : ℕ) (method : Method) (file : List ℕ) (o : RequestOutcome) → apart old number now
        → among now number method file o new → among old number method file o new };

    ghost rests_later: { (old now new : Self) (number : ℕ) (task : Self.Task) (o : RequestOutcome) → apart old number now → rests now number task o new → rests old number task o new };
}
