//! A brigade is brought to a connection.

ghost use Rattle.std.specs.Prelude.{◌≡◌, ◌<◌, ◌≤◌, ◌+◌, ℕ, List, None, Some, [], Option, length, is_ok, if◌then◌else◌, IfOk, OnOk, OnErr};
ghost use Rattle.module_run.specs.Prelude.{upd, NoneRevived, Device, Payload, Linked, Pools, first_refusal, bucket_of, named_from, is_spent, brings, PoolTree, Items, named, lists, brigade_of};
ghost use Rattle.module_run.specs.Prelude.{pool_of, references, next_name, CalledMain, StartsWith, Happened, Stands, lasted, refusal_of, LeavesOthers, StandsFor, bring_tests, lengths, place_in};
ghost use Rattle.run_model.specs.Chains.{module_at};

use crate::conn::{Conn, Filter};
use crate::pieces::{buckets_of, has_data_behind_eos, lack_files};
use brigade_ops::{BrigadeId, Brigades, PoolId, Rings, Stored};
use interp_state::machine::Slot;
use run_model::{Mark, Module, Piece, Refusal, Seq};
use std::alloc::{AllocError, Global};

/// Whether not so many names are left as a call, a brigade and so many buckets take.
#[tactic(auto, unfolding(run_model::specs::Steps::is_spent))]
fn are_spent(next: u64, buckets: u64) -> bool
    ensures { result ≡ is_spent next (2 + buckets) }
{
    let left = u64::MAX - next;
    left < 2 || buckets > left - 2
}

/// Makes the brigade of a call's loose buckets, and that of the pieces that are brought to it in a request of this pool. They have the next
/// two names, and the buckets those behind them. Without memory nothing is changed, and no name is spent.
fn call_and_brigade<R: Rings<Stored> + Drop>(
    alloc: Global,
    store: &mut Brigades<R>,
    req: PoolId,
    pieces: Seq<Piece>,
) -> Result<(BrigadeId, BrigadeId), AllocError>
    ensures made { IfOk result (λ made. made ≡ (next_name store.old, next_name store.old + 1)) }
    ensures rings { OnOk result ((xs : Items) × ((named xs ≡ named_from (bucket_of (next_name store.old) req) (next_name store.old + 2) pieces)
        × ((n : ℕ) → lists store.new n ≡ upd (upd (lists store.old) (next_name store.old) (Some [])) (next_name store.old + 1) (Some xs) n))) }
    ensures next { next_name store.new ≡ (if is_ok result then next_name store.old + 2 + length pieces else next_name store.old) }
    ensures names { NoneRevived (brigade_of store.old) (brigade_of store.new) (next_name store.old) }
    ensures pools { pool_of store.new ≡ pool_of store.old }
    ensures references { references store.new ≡ references store.old }
    ensures err { OnErr result ((n : ℕ) → lists store.new n ≡ lists store.old n) }
{
    let buckets = buckets_of(alloc, store.next_name(), req, pieces)?;
    match store.loose_pair(buckets) {
        Ok(made) => Ok(made),
        Err(_) => Err(AllocError),
    }
}

/// Where the one instruction of the output filter stands, behind an `open` and an `init` that do nothing.
const OUTPUT_MAIN: usize = 2;

/// Where the call begins that takes a brigade at a place of the chain.
fn main_at(modules: &[Module], place: usize) -> usize
    ensures { result ≡ (module_at modules.now place).main }
{
    match modules.get(place) {
        Some(code) => code.main(),
        None => OUTPUT_MAIN,
    }
}

impl Filter {
    /// A call of this name begins, at this instruction, with this brigade as its `in`.
    fn start_with(&mut self, name: BrigadeId, brigade: BrigadeId, pc: usize)
        ensures { StartsWith name brigade pc self.old self.new }
    {
        self.instance
            .set_slot(8, Slot::Made(brigade, None, Mark::Usable));
        self.call.start(name, pc);
    }
}

impl Conn {
    /// `main` of the first filter that has not left begins, or the call of the output filter: the call has this name, and this brigade is
    /// its `in`.
    fn call_main(&mut self, modules: &[Module], name: BrigadeId, brigade: BrigadeId)
        requires { length self.old.filters.items ≡ length modules.now + 1 }
        ensures { (rings : ℕ → Option Items) → CalledMain modules.now (place_in modules.now rings self.old 0) name brigade self.old self.new }
    {
        let to = self.place_from(modules, 0);
        let pc = main_at(modules, to);
        self.filters[to].start_with(name, brigade, pc);
        self.first = to;
        self.top = to;
        self.busy = true;
        self.count = 0;
    }

    /// The pool of the request in which these pieces may be brought now, or why they may not.
    fn pool_to_bring<R: Rings<Stored> + Drop>(
        &self,
        store: &Brigades<R>,
        pieces: &[Piece],
    ) -> Result<PoolId, Refusal>
        ensures pool { IfOk result (λ pool. self.now.req ≡ Some pool) }
        ensures refusal { refusal_of result ≡ first_refusal (bring_tests self.now.broken self.now.busy self.now.req (lengths self.now.files.items) (next_name store.now) pieces.now) }
    {
        if let Some(cause) = self.broken {
            return Err(Refusal::Broken(cause));
        }
        if self.busy {
            return Err(Refusal::Busy);
        }
        let Some(pool) = self.req else {
            return Err(Refusal::NotInRequest);
        };
        if has_data_behind_eos(pieces) {
            return Err(Refusal::DataAfterEos);
        }
        if lack_files(self.files.as_slice(), pieces) {
            return Err(Refusal::NoFile);
        }
        if are_spent(store.next_name(), pieces.len() as u64) {
            return Err(Refusal::NamesSpent);
        }
        Ok(pool)
    }

    /// A brigade of these pieces comes: it is the `in` of the first filter that has not left, whose `main` begins. Where all have left, it is
    /// that of the output filter, which takes it in the next step. Refused, nothing is changed and the pieces are dropped: `Broken`; `Busy`: a call is running; `NotInRequest`; `DataAfterEos`: a data piece stands behind an EOS; `NoFile`: a range
    /// is of no file that was opened in this request, or ends behind it; `NamesSpent`: a name to be given out would be `u64::MAX`;
    /// `NoMemory`.
    pub fn bring<R: Rings<Stored> + Drop>(
        &mut self,
        modules: &[Module],
        store: &mut Brigades<R>,
        pieces: Seq<Piece>,
    ) -> Result<(), Refusal>
        requires stands { (tree : PoolTree Payload) × ((d : Device) × Stands modules.now tree store.old d self.old) }
        ensures leaves { (ps : Pools Payload) → LeavesOthers ps store.old store.new self.old self.new }
        ensures happened { (tree : PoolTree Payload) (d : Device) (v : Linked) → StandsFor modules.now tree store.old d self.old v
            → Happened modules.now tree store.new d self.new (refusal_of result) (brings (lasted result) modules.now pieces v) }
    {
        let req = match self.pool_to_bring(store, pieces.as_slice()) {
            Ok(pool) => pool,
            Err(why) => return Err(why),
        };
        let Ok((name, brigade)) = call_and_brigade(self.alloc, store, req, pieces) else {
            return Err(Refusal::NoMemory);
        };
        self.call_main(modules, name, brigade);
        Ok(())
    }
}
