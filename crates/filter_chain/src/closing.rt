//! Connections are closed.

ghost use Rattle.std.specs.Prelude.{◌≡◌};
ghost use Rattle.run_model.specs.declared.event.Event.TheVariants.{Close};
ghost use Rattle.run_model.specs.Worlds.{World};

use crate::host::Host;
use bucket_kinds::{Files, Stored};
use bucket_ring::Rings;
use interp_exec::labels_run::LabelsRun;
use run_model::Refusal;

impl<F: Files + Drop, R: Rings<Stored> + Drop> Host<F, R> {
    ghost use Rattle.filter_chain.specs.Hosting.{IsHosting, Happens, close_answer, files_of};
    ghost use Rattle.filter_chain.specs.Bare.{is_bare};

    /// Closes a connection, in any state: its calls are destroyed, and then its pool with all under it. Answers the labels that ran, as
    /// `labels_run` has them, those of its own pool last. Refused, nothing is changed: `NoSuchConn`; `NoMemory`.
    pub fn close(&mut self, number: u64) -> Result<Vec<LabelsRun>, Refusal>
        requires { (w : World) × IsHosting (F.device (files_of self.old)) self.old w }
        ensures event { (w : World) → IsHosting (F.device (files_of self.old)) self.old w
            → Happens (F.device (files_of self.old)) (F.device (files_of self.new)) self.old self.new number Close (close_answer result) w }
        ensures bare { is_bare self.new ≡ is_bare self.old }
    {
        let Some(conn) = self.conns.by_number.get_mut(&number) else {
            return Err(Refusal::NoSuchConn);
        };
        let Ok(()) = conn.close(&mut self.tree, &mut self.store, &mut self.files) else {
            return Err(Refusal::NoMemory);
        };
        match self.conns.take(number) {
            Some(conn) => Ok(conn.into_labels()),
            None => unreachable!(),
        }
    }
}
