//! A request begins.

ghost use Rattle.std.specs.Prelude.{◌≡◌, ◌<◌, ◌+◌, ℕ, None, Some, [], is_ok, if◌then◌else◌, IsTrue, IfOk, OnOk, OnErr};
ghost use Rattle.module_run.specs.Prelude.{upd, Device, Linked, first_refusal, created, is_live, IsPoolMap, begins, map_of, NoneRevived, lists, brigade_of, pool_of, references, next_name, Happened};
ghost use Rattle.module_run.specs.Prelude.{Stands, lasted, refusal_of, LeavesOthers, StandsFor, begin_tests};

use crate::conn::Conn;
use brigade_ops::{BrigadeId, Brigades, PoolId, PoolTree, Rings, Stored};
use interp_state::asks::is_spent;
use run_model::{Module, Payload, Refusal};
use std::alloc::AllocError;

/// Makes the brigade of a call's loose buckets, and a pool under this one, and tells their names. Without memory, and where the names are
/// spent, nothing is changed.
pub(crate) fn call_and_pool<R: Rings<Stored> + Drop>(
    tree: &mut PoolTree<Payload>,
    store: &mut Brigades<R>,
    parent: PoolId,
) -> Result<(BrigadeId, PoolId), AllocError>
    requires { IsTrue (is_live (map_of tree.old) parent) }
    ensures made { IfOk result (λ made. made ≡ (next_name store.old, (map_of tree.old).next)) }
    ensures tree { OnOk result (map_of tree.new ≡ created parent (map_of tree.old)) }
    ensures rings { OnOk result ((n : ℕ) → lists store.new n ≡ upd (lists store.old) (next_name store.old) (Some []) n) }
    ensures next { next_name store.new ≡ (if is_ok result then next_name store.old + 1 else next_name store.old) }
    ensures names { NoneRevived (brigade_of store.old) (brigade_of store.new) (next_name store.old) }
    ensures pools { pool_of store.new ≡ pool_of store.old }
    ensures references { references store.new ≡ references store.old }
    ensures formed { OnOk result (IsPoolMap (map_of tree.new)) }
    ensures kept { OnErr result (map_of tree.new ≡ map_of tree.old) }
    ensures err { OnErr result ((n : ℕ) → lists store.new n ≡ lists store.old n) }
{
    if store.next_name() == u64::MAX {
        return Err(AllocError);
    }
    store.make_room()?;
    let Ok(pool) = tree.create(parent) else {
        return Err(AllocError);
    };
    let Ok(name) = store.loose() else {
        unreachable!()
    };
    Ok((name, pool))
}

impl Conn {
    /// Why no request may begin now, if there is a reason.
    fn refusal_to_begin<R: Rings<Stored> + Drop>(
        &self,
        tree: &PoolTree<Payload>,
        store: &Brigades<R>,
    ) -> Option<Refusal>
        ensures { result ≡ first_refusal (begin_tests self.now.broken self.now.busy self.now.req (map_of tree.now).next (next_name store.now)) }
    {
        if let Some(cause) = self.broken {
            return Some(Refusal::Broken(cause));
        }
        if self.busy {
            return Some(Refusal::Busy);
        }
        if self.req.is_some() {
            return Some(Refusal::InRequest);
        }
        if is_spent(tree.next_name(), 1) || is_spent(store.next_name(), 1) {
            return Some(Refusal::NamesSpent);
        }
        None
    }

    /// A request begins: its pool is made under the connection's, and `init` of the first filter begins. Refused, nothing is changed:
    /// `Broken`; `Busy`: a call is running; `InRequest`; `NamesSpent`: a name to be given out would be `u64::MAX`; `NoMemory`.
    #[tactic(auto, using(crate::proofs::RequestBegins::begun_left))]
    pub fn begin<R: Rings<Stored> + Drop>(
        &mut self,
        modules: &[Module],
        tree: &mut PoolTree<Payload>,
        store: &mut Brigades<R>,
    ) -> Result<(), Refusal>
        requires stands { (d : Device) × Stands modules.now tree.old store.old d self.old }
        ensures leaves { LeavesOthers (map_of tree.old) store.old store.new self.old self.new }
        ensures happened { (d : Device) (v : Linked) → StandsFor modules.now tree.old store.old d self.old v
            → Happened modules.now tree.new store.new d self.new (refusal_of result) (begins (lasted result) modules.now v) }
    {
        if let Some(why) = self.refusal_to_begin(tree, store) {
            return Err(why);
        }
        let Ok((name, pool)) = call_and_pool(tree, store, self.conn) else {
            return Err(Refusal::NoMemory);
        };
        self.req = Some(pool);
        self.call_first(modules, name);
        Ok(())
    }
}
