//! A connection is opened.

ghost use Rattle.std.specs.Prelude.{◌≡◌, ◌<◌, ◌||◌, ◌↔◌, ◌∷◌, [], true, ℕ, Some, IfOk, IsErrOf, OnErr, OnOk, length, slice_get};
ghost use Rattle.module_run.specs.Prelude.{Device, Common, created, is_spent, opened, map_of, AreOpen, next_name, references, ComesBeside, CanOpen, IsNewConn, IsNewFilter, IsUnchanged, over};
ghost use Rattle.module_run.specs.Prelude.{LeftAs};

use crate::conn::{Conn, Filter};
use crate::conn_begin::call_and_pool;
use brigade_ops::{Brigades, PoolId, PoolTree, Rings, Stored};
use interp_calls::OutputBlock;
use interp_state::asks::is_spent;
use interp_state::machine::{Call, Instance};
use run_model::{Module, Payload, StepRefusal};
use std::alloc::{AllocError, Global};

impl Filter {
    /// A filter before its `open`.
    fn new(alloc: Global) -> Self
        ensures { IsNewFilter result }
    {
        Filter {
            instance: Instance::new(),
            call: Call::none(alloc),
            lent: None,
        }
    }
}

/// So many filters before their `open`.
fn new_filters(alloc: Global, many: usize) -> Result<Vec<Filter>, AllocError>
    ensures many { IfOk result (λ filters. length filters.items ≡ many) }
    ensures new { IfOk result (λ filters. (k : ℕ) (f : Filter) → slice_get filters.items k ≡ Some f → IsNewFilter f) }
{
    let mut filters = Vec::new(alloc);
    for _ in 0..many {
        filters.push(Filter::new(alloc))?;
    }
    Ok(filters)
}

impl Conn {
    /// A connection of these filters, of which the last is that of the output, before its first call.
    fn new(alloc: Global, filters: Vec<Filter>, pool: PoolId) -> Conn
        requires { 0 < length filters.items }
        ensures { IsNewConn filters pool result }
    {
        Conn {
            alloc,
            first: 0,
            top: 0,
            callers: Vec::new(alloc),
            waits: Vec::new(alloc),
            busy: false,
            queue: filters.len() - 1,
            filters,
            conn: pool,
            req: None,
            labels: Vec::new(alloc),
            files: Vec::new(alloc),
            out: OutputBlock::new(alloc),
            ended: false,
            count: 0,
            broken: None,
        }
    }

    /// Opens a connection over a tree of pools and a store of brigades, in which others may stand: its pool is made under the root, and
    /// `open` of the first filter begins. Refused, nothing is changed: `NamesSpent`: a name to be given out would be `u64::MAX`; `NoMemory`.
    #[tactic(auto, using(crate::proofs::Opens::opened_left))]
    pub fn open<R: Rings<Stored> + Drop>(
        alloc: Global,
        modules: &[Module],
        tree: &mut PoolTree<Payload>,
        store: &mut Brigades<R>,
    ) -> Result<Conn, StepRefusal>
        requires some { 0 < length modules.now }
        requires can { CanOpen tree.old store.old }
        ensures opened { IfOk result (λ conn. (d : Device) (g : Common) → AreOpen (references store.old) d → g.pools ≡ (map_of tree.old).next
            → g.next ≡ next_name store.old → LeftAs modules.now tree.new store.new d conn (over (map_of tree.new) (opened modules.now g))) }
        ensures pools { OnOk result ((root : ℕ) → (map_of tree.old).path root ≡ root ∷ [] → map_of tree.new ≡ created root (map_of tree.old)) }
        ensures beside { IfOk result (λ conn. ComesBeside store.old store.new conn) }
        ensures spent { IsErrOf result StepRefusal.NamesSpent ↔ ((is_spent (map_of tree.old).next 1 || is_spent (next_name store.old) 1) ≡ true) }
        ensures err { OnErr result (IsUnchanged tree.old tree.new store.old store.new) }
    {
        if is_spent(tree.next_name(), 1) || is_spent(store.next_name(), 1) {
            return Err(StepRefusal::NamesSpent);
        }
        let Ok(filters) = new_filters(alloc, modules.len() + 1) else {
            return Err(StepRefusal::NoMemory);
        };
        let root = tree.root();
        let Ok((name, pool)) = call_and_pool(tree, store, root) else {
            return Err(StepRefusal::NoMemory);
        };
        let mut conn = Conn::new(alloc, filters, pool);
        conn.call_first(modules, name);
        Ok(conn)
    }
}
