//! The rules: what each effect makes of a state, and the states that an instruction leads to.

ghost use Rattle.std.specs.Prelude.{◌≡◌, ◌<◌, ◌≤◌, true, length, Some, slice_get};
ghost use Rattle.module_code.specs.declared.instr.Instr as instr;
ghost use Rattle.module_code.specs.declared.instr.VarRef.TheVariants as variable;
ghost use Rattle.life_state.specs.Prelude.{fits, set_pool, effect_fits, condition_fits, edges_jempty, edges_jend, told_classes, edges_jkind, after_make, edges_jnull, after, on_condition, edges};
ghost use Rattle.life_state.specs.Prelude.{rule, seen, seen_cursor, seen_some, seen_edges, seen_answer};

use crate::facts::Others;
use crate::motions::Motion;
use crate::parts::{BrigadeState, Classes, CursorState, HomeSet, PoolState};
use crate::state::State;
use crate::successors::{Successors, some_if};
use module_code::{Instr, KindTest, Module, PoolRef, VarRef};
use run_model::{Branch, ClearKind, Condition, Effect, FaultKind, MadeFrom, branch_of, effect_of};

#[tactic(auto)]
impl State {
    fn jempty(self, b: u8) -> Successors
        requires { b < 9 }
        ensures { seen_edges result ≡ edges_jempty b (seen self) }
    {
        Successors {
            next: some_if(!self.content(b).is_empty(), self),
            jump: Some(self.bcreate(b)),
        }
    }

    fn jend(self, c: u8, cursor: CursorState) -> Successors
        requires { c < 9 }
        ensures { seen_edges result ≡ edges_jend c (seen_cursor cursor) (seen self) }
    {
        match cursor {
            CursorState::End(_) => Successors {
                next: None,
                jump: Some(self),
            },
            CursorState::InOrEnd(b, classes) => Successors {
                next: Some(self.told(c, CursorState::In(b, classes))),
                jump: Some(self.told(c, CursorState::End(b))),
            },
            CursorState::Unset => Successors::goes_on(self),
            CursorState::Loose(_, _) => Successors::goes_on(self),
            CursorState::In(_, _) => Successors::goes_on(self),
        }
    }

    fn told_classes(self, c: u8, classes: Classes) -> Option<State>
        requires { c < 9 }
        ensures { seen_some result ≡ told_classes c classes (seen self) }
    {
        let told = self.told(c, self.cursor(c).with_classes(classes));
        some_if(classes.is_some(), told)
    }

    fn jkind(self, c: u8, test: KindTest) -> Successors
        requires { c < 9 }
        ensures { seen_edges result ≡ edges_jkind c test (seen self) }
    {
        let classes = self.cursor(c).classes();
        Successors {
            next: self.told_classes(c, classes.not_of_kind(test)),
            jump: self.told_classes(c, classes.of_kind(test)),
        }
    }

    fn with_pool(mut self, q: u8, pool: PoolState) -> State
        requires { q < 8 }
        ensures { seen result ≡ set_pool q pool (seen self) }
    {
        self.set_pool(q, pool);
        self
    }

    fn jnull_pool(self, q: u8) -> Successors
        requires { q < 8 }
        ensures { seen_edges result ≡ edges_jnull (variable.Pool q) (seen self) }
    {
        let pool = self.pool(q);
        Successors {
            next: some_if(
                pool.gone | pool.live,
                self.with_pool(
                    q,
                    PoolState {
                        null: false,
                        ..pool
                    },
                ),
            ),
            jump: some_if(pool.null, self.with_pool(q, PoolState::NULL)),
        }
    }

    fn jnull_brigade(self, b: u8) -> Successors
        requires { b < 9 }
        ensures { seen_edges result ≡ edges_jnull (variable.Brigade b) (seen self) }
    {
        let brigade = self.brigade(b);
        Successors {
            next: some_if(
                brigade.gone | brigade.live,
                self.with_brigade(
                    b,
                    BrigadeState {
                        null: false,
                        ..brigade
                    },
                ),
            ),
            jump: some_if(
                brigade.null,
                self.with_brigade(b, BrigadeState::never_made()),
            ),
        }
    }

    fn make(self, c: u8, from: MadeFrom) -> State
        requires { c < 9 }
        ensures { seen result ≡ after_make c from (seen self) }
    {
        match from {
            MadeFrom::HeapText(_)
            | MadeFrom::ImmortalText(_)
            | MadeFrom::HeapBuffer
            | MadeFrom::PoolBuffer(_) => self.made(c, Classes::BYTES, HomeSet::none()),
            MadeFrom::TransientBuffer => self.made(c, Classes::BYTES, HomeSet::only_call()),
            MadeFrom::FlushBucket => self.made(c, Classes::FLUSH, HomeSet::none()),
            MadeFrom::EosBucket => self.made(c, Classes::EOS, HomeSet::none()),
            MadeFrom::CopyAt(d) => {
                let cursor = self.cursor(d);
                self.made(c, cursor.classes(), self.homes_at(cursor))
            }
        }
    }

    fn after_effect(self, code: &Module, effect: Effect) -> State
        requires fit { effect_fits effect ≡ true }
        requires pools { (seen self).pool_count ≡ length code.now.pools }
        requires brigades { (seen self).brigade_count ≡ length code.now.brigades }
        requires few { length code.now.pools ≤ 8 }
        ensures { seen result ≡ after code.now effect (seen self) }
    {
        match effect {
            Effect::MakePool(q) => self.with_pool(q, PoolState::LIVE),
            Effect::EmptyPool(ClearKind::Clear, q) => self.cleared(code, PoolRef::Own(q)),
            Effect::EmptyPool(ClearKind::Destroy, q) => {
                let ended = self.pool(q).ended();
                self.cleared(code, PoolRef::Own(q)).with_pool(q, ended)
            }
            Effect::MakeBrigade(o) => self.bcreate(o),
            Effect::Clean(b) => self.bcreate(b).move_cursors(Motion::Emptied(b)),
            Effect::Concat(a, b) => self.concat_brigades(a, b, self.homes(a).join(&self.homes(b))),
            Effect::SplitBrigade(b, c, a) => self
                .with_brigade(a, self.split_part(b, self.cursor(c)))
                .move_cursors(Motion::SplitOff(b, c, a)),
            Effect::Save(o, b) => self.bsave(code, o, b),
            Effect::Pass(b) => self.pass(b),
            Effect::First(c, b) | Effect::PartBrigade(b, _, c) => {
                self.set_cursor(c, self.content(b).bucket_or_end(b), Others::Nobody)
            }
            Effect::Next(d, c) => self.next(d, c, self.cursor(c)),
            Effect::Unlink(c) => self.unlink(c),
            Effect::Delete(c) => self.move_bucket(c, CursorState::Unset),
            Effect::Insert(side, b, c) => self.insert(side, b, c),
            Effect::Before(c, d) => self.before(c, self.cursor(d)),
            Effect::Make(c, from) => self.make(c, from),
            Effect::Aside(c, pool) => self.aside(c, pool, self.cursor(c)),
            Effect::Read(c) => self.set_cursor(8, self.cursor(c), Others::As(c)),
            Effect::Nothing
            | Effect::Register(_, _, _)
            | Effect::Kill(_, _)
            | Effect::Split(_, _)
            | Effect::Number(_, _)
            | Effect::Put(_)
            | Effect::ClearBuffer
            | Effect::Leave
            | Effect::Return => self,
        }
    }

    fn on_condition(self, condition: Condition, after: State) -> Successors
        requires fit { condition_fits condition ≡ true }
        ensures { seen_edges result ≡ on_condition condition (seen self) (seen after) }
    {
        match condition {
            Condition::TooShort(b, _, c) => Successors {
                next: Some(after),
                jump: Some(self.set_cursor(c, CursorState::End(b), Others::Nobody)),
            },
            Condition::NoBucket(b) => after.jempty(b),
            Condition::AtEnd(c) => after.jend(c, after.cursor(c)),
            Condition::OfKind(c, test) => after.jkind(c, test),
            Condition::ReadFailed(_) => Successors {
                next: Some(after),
                jump: Some(self.set_cursor(8, CursorState::Unset, Others::Nobody)),
            },
            Condition::IsNull(VarRef::Pool(q)) => after.jnull_pool(q),
            Condition::IsNull(VarRef::Brigade(b)) => after.jnull_brigade(b),
            Condition::WasSent => {
                let mut next = after;
                next.set_sent(false);
                Successors {
                    next: Some(next),
                    jump: some_if(after.sent(), after),
                }
            }
            Condition::PassFailed
            | Condition::NoSplit(_, _)
            | Condition::NoByte(_)
            | Condition::NoRoom(_)
            | Condition::Less(_, _)
            | Condition::Equal(_, _) => Successors {
                next: Some(after),
                jump: Some(after),
            },
        }
    }

    #[tactic(auto, using(crate::proofs::InStateLaws::effects_fit, crate::proofs::InStateLaws::branches_fit))]
    fn edges(self, code: &Module, instr: Instr) -> Successors
        requires fit { fits code.now instr ≡ true }
        requires pools { (seen self).pool_count ≡ length code.now.pools }
        requires brigades { (seen self).brigade_count ≡ length code.now.brigades }
        requires few_pools { length code.now.pools ≤ 8 }
        requires few { length code.now.brigades ≤ 8 }
        ensures { seen_edges result ≡ edges code.now instr (seen self) }
    {
        let after = self.after_effect(code, effect_of(instr));
        match branch_of(instr) {
            Branch::ToNext => Successors::goes_on(after),
            Branch::JumpIf(condition) => self.on_condition(condition, after),
            Branch::JumpAlways => Successors {
                next: None,
                jump: Some(after),
            },
            Branch::EndCall => Successors {
                next: None,
                jump: None,
            },
        }
    }
}

/// The rule of the instruction `pc`: the first need that the state before it does not meet, or the states that it leads to. The
/// state is one of the module's variables.
pub fn after(code: &Module, pc: usize, state: &State) -> Result<Successors, FaultKind>
    requires inside { pc < length code.now.code }
    requires pools { (seen state.now).pool_count ≡ length code.now.pools }
    requires brigades { (seen state.now).brigade_count ≡ length code.now.brigades }
    ensures { (i : instr.Instr) → slice_get code.now.code pc ≡ Some i → seen_answer result ≡ rule code.now i (seen state.now) }
{
    let instr = code.at(pc);
    match state.first_need(code, instr) {
        Some(kind) => Err(kind),
        None => Ok(state.edges(code, instr)),
    }
}
