//! What happens to one connection.

ghost use Rattle.std.specs.Prelude.{◌≡◌};
ghost use Rattle.run_model.specs.declared.event.Event.TheVariants.{Begin, Bring, End};
ghost use Rattle.run_model.specs.Worlds.{World};
ghost use Rattle.module_run.specs.Happened.{refusal_of};

use crate::host::Host;
use bucket_kinds::{Files, Stored};
use bucket_ring::Rings;
use run_model::{Piece, Refusal, Seq};

impl<F: Files + Drop, R: Rings<Stored> + Drop> Host<F, R> {
    ghost use Rattle.filter_chain.specs.Hosting.{IsHosting, Happens, done_answer, files_of};
    ghost use Rattle.filter_chain.specs.Bare.{is_bare};

    /// A request begins: its pool is made, and the `init` handlers of the filters are to be stepped. Refused, nothing is changed:
    /// `NoSuchConn`; `Broken`; `Busy`; `InRequest`; `NamesSpent`; `NoMemory`.
    pub fn begin(&mut self, number: u64) -> Result<(), Refusal>
        requires { (w : World) × IsHosting (F.device (files_of self.old)) self.old w }
        ensures event { (w : World) → IsHosting (F.device (files_of self.old)) self.old w
            → Happens (F.device (files_of self.old)) (F.device (files_of self.new)) self.old self.new number Begin (done_answer (refusal_of result)) w }
        ensures files { files_of self.new ≡ files_of self.old }
        ensures bare { is_bare self.new ≡ is_bare self.old }
    {
        let chain = &self.chain;
        match self.conns.by_number.get_mut(&number) {
            None => Err(Refusal::NoSuchConn),
            Some(conn) => conn.begin(chain.modules.as_slice(), &mut self.tree, &mut self.store),
        }
    }

    /// A brigade of these pieces is brought: `main` of the first filter is to be stepped. Refused, nothing is changed: `NoSuchConn`;
    /// `Broken`; `Busy`; `NotInRequest`; `DataAfterEos`; `NoFile`; `NamesSpent`; `NoMemory`.
    pub fn bring(&mut self, number: u64, pieces: Seq<Piece>) -> Result<(), Refusal>
        requires { (w : World) × IsHosting (F.device (files_of self.old)) self.old w }
        ensures event { (w : World) → IsHosting (F.device (files_of self.old)) self.old w
            → Happens (F.device (files_of self.old)) (F.device (files_of self.new)) self.old self.new number (Bring pieces) (done_answer (refusal_of result)) w }
        ensures files { files_of self.new ≡ files_of self.old }
        ensures bare { is_bare self.new ≡ is_bare self.old }
    {
        let chain = &self.chain;
        match self.conns.by_number.get_mut(&number) {
            None => Err(Refusal::NoSuchConn),
            Some(conn) => { conn.bring(chain.modules.as_slice(), &mut self.store, pieces) }
        }
    }

    /// The request ends: its pool is destroyed. Refused, nothing is changed: `NoSuchConn`; `Broken`; `Busy`; `NotInRequest`; `NoMemory`.
    pub fn end_request(&mut self, number: u64) -> Result<(), Refusal>
        requires { (w : World) × IsHosting (F.device (files_of self.old)) self.old w }
        ensures event { (w : World) → IsHosting (F.device (files_of self.old)) self.old w
            → Happens (F.device (files_of self.old)) (F.device (files_of self.new)) self.old self.new number End (done_answer (refusal_of result)) w }
        ensures bare { is_bare self.new ≡ is_bare self.old }
    {
        match self.conns.by_number.get_mut(&number) {
            None => Err(Refusal::NoSuchConn),
            Some(conn) => conn.end_request(&mut self.tree, &mut self.store, &mut self.files),
        }
    }
}
