//! The connections that are there, by their numbers.

ghost use Rattle.std.specs.Prelude.{◌≡◌, ℕ, None, Some, OnOk, OnErr};
ghost use Rattle.std.specs.Option.{option_copied};
ghost use Rattle.run_model.specs.Indexed.{upd};

use module_run::Conn;
use std::alloc::{AllocError, Global};
use std::collections::HashMap;

/// Connections by number.
#[derive(Drop)]
pub(crate) struct Conns {
    pub(crate) by_number: HashMap<u64, Conn>,
}

#[tactic(auto, unfolding(crate::specs::Hosted::conn_at, run_model::specs::Indexed::upd))]
impl Conns {
    ghost use Rattle.filter_chain.specs.Hosted.{conn_at, HasRoom};

    /// No connection.
    pub(crate) fn new(alloc: Global) -> Self
        ensures { (n : ℕ) → conn_at result n ≡ None }
    {
        Conns {
            by_number: HashMap::new(alloc),
        }
    }

    /// The connection of a number.
    pub(crate) fn get(&self, number: u64) -> Option<&Conn>
        ensures { option_copied result ≡ conn_at self.now number }
    {
        self.by_number.get(&number)
    }

    /// Makes room for one more connection.
    pub(crate) fn reserve(&mut self) -> Result<(), AllocError>
        ensures same { (n : ℕ) → conn_at self.new n ≡ conn_at self.old n }
        ensures room { OnOk result (HasRoom self.new) }
    {
        self.by_number.reserve(1)
    }

    /// Puts a connection under a number, where there is room for it.
    pub(crate) fn put(&mut self, number: u64, conn: Conn)
        requires room { HasRoom self.old }
        ensures { (n : ℕ) → conn_at self.new n ≡ upd (conn_at self.old) number (Some conn) n }
    {
        let _ = self.by_number.insert(number, conn);
    }

    /// Takes the connection of a number out.
    pub(crate) fn take(&mut self, number: u64) -> Option<Conn>
        ensures value { result ≡ conn_at self.old number }
        ensures rest { (n : ℕ) → conn_at self.new n ≡ upd (conn_at self.old) number None n }
    {
        self.by_number.remove(&number)
    }
}
