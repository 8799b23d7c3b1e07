//! Steps, one after another.

ghost use Rattle.std.specs.Prelude.{◌≡◌, ◌-◌, ℕ, List, true};
ghost use Rattle.module_code.specs.Program.{Program};
ghost use Rattle.filter_chain.specs.HostViews.{HostView};

use crate::host::Host;
use bucket_kinds::{Files, Stored};
use bucket_ring::Rings;
use run_model::{Refusal, Stepped};

impl<F: Files + Drop, R: Rings<Stored> + Drop> Host<F, R> {
    ghost use Rattle.filter_chain.specs.Led.{IsAlive, Refines};
    ghost use Rattle.filter_chain.specs.Running.{StepsToEnd, StepsOn};
    ghost use Rattle.filter_chain.specs.Bare.{AsksNothing, is_bare};
    ghost use Rattle.filter_chain.specs.Safe.{GoesWell, IsSafe};

    /// Makes a step, and up to `more` others while each goes on. The connection is looked up once.
    fn step_on(&mut self, number: u64, more: u64) -> Result<Stepped, Refusal>
        requires { IsAlive F.device self.old }
        ensures steps { Refines F.device self.old self.new (λ (b : ℕ) (c : List Program) (s t : HostView). StepsOn b c number more s result t) }
        ensures safe { IsSafe self.old → GoesWell result }
        ensures unasked { is_bare self.old ≡ true → AsksNothing self.old self.new }
        ensures bare { is_bare self.new ≡ is_bare self.old }
    {
        let chain = &self.chain;
        match self.conns.by_number.get_mut(&number) {
            None => Err(Refusal::NoSuchConn),
            Some(conn) => conn.step_on(
                chain.modules.as_slice(),
                self.budget,
                chain.bare,
                more,
                &mut self.tree,
                &mut self.store,
                &mut self.files,
            ),
        }
    }

    /// Makes steps until one answers something else than that it went, at most `most`; where that is 0 it makes one. Answers what the last
    /// of them answers.
    pub fn step_up_to(&mut self, number: u64, most: u64) -> Result<Stepped, Refusal>
        requires { IsAlive F.device self.old }
        ensures steps { Refines F.device self.old self.new (λ (b : ℕ) (c : List Program) (s t : HostView). StepsOn b c number (most - 1) s result t) }
        ensures safe { IsSafe self.old → GoesWell result }
        ensures unasked { is_bare self.old ≡ true → AsksNothing self.old self.new }
        ensures bare { is_bare self.new ≡ is_bare self.old }
    {
        self.step_on(number, most.saturating_sub(1))
    }

    /// Makes steps until one answers something else than that it went: a call ended, the connection is broken or idle, or there is no such
    /// connection. Answers what that step answers. No more steps go than the budget allows.
    pub fn run(&mut self, number: u64) -> Result<Stepped, Refusal>
        requires { IsAlive F.device self.old }
        ensures runs { Refines F.device self.old self.new (λ (b : ℕ) (c : List Program) (s t : HostView). StepsToEnd b c number s result t) }
        ensures safe { IsSafe self.old → GoesWell result }
        ensures unasked { is_bare self.old ≡ true → AsksNothing self.old self.new }
        ensures bare { is_bare self.new ≡ is_bare self.old }
    {
        let budget = self.budget();
        self.step_on(number, budget)
    }
}
