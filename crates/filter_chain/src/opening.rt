//! Connections are opened.

ghost use Rattle.std.specs.Prelude.{◌≡◌, ◌+◌, ◌||◌};
ghost use Rattle.filter_chain.specs.Prelude.{Open, is_spent, World, map_of, next_name};

use crate::host::Host;
use bucket_kinds::{Files, Stored};
use bucket_ring::Rings;
use interp_state::asks::is_spent;
use module_run::Conn;
use run_model::Refusal;

/// Whether no connection can have a number behind this one.
#[tactic(auto, unfolding(run_model::specs::Steps::is_spent))]
fn is_last(number: u64) -> bool
    ensures { result ≡ is_spent (number + 1) 1 }
{
    number >= u64::MAX - 1
}

impl<F: Files + Drop, R: Rings<Stored> + Drop> Host<F, R> {
    ghost use Rattle.filter_chain.specs.Hosting.{IsHosting, Happens, open_answer, files_of};
    ghost use Rattle.filter_chain.specs.Bare.{is_bare};

    /// Whether a number or a name that a new connection takes is not left.
    fn lacks_names(&self) -> bool
        ensures { result ≡ (is_spent (self.now.last + 1) 1 || (is_spent (map_of self.now.tree).next 1 || is_spent (next_name self.now.store) 1)) }
    {
        is_last(self.last)
            || is_spent(self.tree.next_name(), 1)
            || is_spent(self.store.next_name(), 1)
    }

    /// Opens a connection, and answers its number; the first is 1. The `open` handlers of its filters are to be stepped. Refused, nothing
    /// is changed: `NamesSpent`; `NoMemory`.
    pub fn open_conn(&mut self) -> Result<u64, Refusal>
        requires { (w : World) × IsHosting (F.device (files_of self.old)) self.old w }
        ensures event { (w : World) → IsHosting (F.device (files_of self.old)) self.old w
            → Happens (F.device (files_of self.old)) (F.device (files_of self.new)) self.old self.new 0 Open (open_answer result) w }
        ensures files { files_of self.new ≡ files_of self.old }
        ensures bare { is_bare self.new ≡ is_bare self.old }
    {
        if self.lacks_names() {
            return Err(Refusal::NamesSpent);
        }
        let number = self.last + 1;
        let Ok(()) = self.conns.reserve() else {
            return Err(Refusal::NoMemory);
        };
        let chain = &self.chain;
        let Ok(conn) = Conn::open(
            self.alloc,
            chain.modules.as_slice(),
            &mut self.tree,
            &mut self.store,
        ) else {
            return Err(Refusal::NoMemory);
        };
        self.conns.put(number, conn);
        self.last = number;
        Ok(number)
    }
}
