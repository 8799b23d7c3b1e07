//! Steps.

ghost use Rattle.std.specs.Prelude.{◌≡◌, true};
ghost use Rattle.run_model.specs.declared.event.Event.TheVariants.{Step};
ghost use Rattle.run_model.specs.Worlds.{World};

use crate::host::Host;
use bucket_kinds::{Files, Stored};
use bucket_ring::Rings;
use run_model::{Refusal, Stepped};

impl<F: Files + Drop, R: Rings<Stored> + Drop> Host<F, R> {
    ghost use Rattle.filter_chain.specs.Hosting.{IsHosting, Happens, files_of, step_answer};
    ghost use Rattle.filter_chain.specs.Bare.{AsksNothing, is_bare};
    ghost use Rattle.filter_chain.specs.Safe.{GoesWell, IsSafe};

    /// One step: the next instruction is executed, or the connection breaks. `Broken` tells why it broke, now or before. Refused otherwise,
    /// nothing is changed: `NoSuchConn`; `Idle`. A host that `checked` or `checked_at` made asks nothing before it.
    pub fn step(&mut self, number: u64) -> Result<Stepped, Refusal>
        requires { (w : World) × IsHosting (F.device (files_of self.old)) self.old w }
        ensures event { (w : World) → IsHosting (F.device (files_of self.old)) self.old w
            → Happens (F.device (files_of self.old)) (F.device (files_of self.new)) self.old self.new number Step (step_answer result) w }
        ensures safe { IsSafe self.old → GoesWell result }
        ensures unasked { is_bare self.old ≡ true → AsksNothing self.old self.new }
        ensures bare { is_bare self.new ≡ is_bare self.old }
    {
        let chain = &self.chain;
        match self.conns.by_number.get_mut(&number) {
            None => Err(Refusal::NoSuchConn),
            Some(conn) => conn.step(
                chain.modules.as_slice(),
                self.budget,
                chain.bare,
                &mut self.tree,
                &mut self.store,
                &mut self.files,
            ),
        }
    }
}
