//! What may be so in a state against what an instruction wants.

ghost use Rattle.std.specs.Prelude.{◌≡◌, true};
ghost use Rattle.module_code.specs.Program.{fits};

use explain_text::{Doubt, Sort};
use life_state::{Contents, CursorState, State};
use module_code::{Instr, Module, PoolRef};
use run_model::{Need, Want, wants};

/// The number of the read cursor.
const READ_CURSOR: u8 = 8;

// The first of these that a state allows of a variable or a cursor. The other is the brigade in which a cursor is to stand, or the same.
fn first_of(state: &State, sorts: &[Sort], of: u8, other: u8) -> Option<Doubt> {
    for sort in sorts {
        let sort = *sort;
        let doubt = Doubt { sort, of, other };
        if doubt.holds(state) {
            return Some(doubt);
        }
    }
    None
}

// Of a cursor that is to stand so; of the read cursor, whether what was read is known.
fn of_cursor(state: &State, c: u8, need: Need) -> Option<Doubt> {
    match need {
        Need::InThis(b) => first_of(state, &[Sort::Unset, Sort::Loose, Sort::Elsewhere], c, b),
        _ if c == READ_CURSOR => first_of(state, &[Sort::Unread], c, c),
        Need::Anywhere => first_of(state, &[Sort::Unset], c, c),
        Need::OnBucket => first_of(state, &[Sort::Unset, Sort::AtEnd], c, c),
        Need::OnLoose => first_of(state, &[Sort::Unset, Sort::AtEnd, Sort::InBrigade], c, c),
        Need::InBrigade => first_of(state, &[Sort::Unset, Sort::AtEnd, Sort::Loose], c, c),
    }
}

// Of the brigades of the module: none may keep a bucket of the call.
fn of_return(state: &State) -> Option<Doubt> {
    for b in 0..8u8 {
        let doubt = first_of(state, &[Sort::Kept], b, b);
        if doubt.is_some() {
            return doubt;
        }
    }
    None
}

// The first that may be so against a want.
fn against(state: &State, want: Want) -> Option<Doubt> {
    match want {
        Want::Pool(PoolRef::Own(q)) => first_of(state, &[Sort::GonePool, Sort::NullPool], q, q),
        Want::Pool(PoolRef::Conn | PoolRef::Req) => None,
        Want::NewPool(q) => first_of(state, &[Sort::LivePool], q, q),
        Want::New(b) => first_of(state, &[Sort::LiveBrigade], b, b),
        Want::Brigade(b) => first_of(state, &[Sort::GoneBrigade, Sort::NullBrigade], b, b),
        Want::Usable(b) => first_of(
            state,
            &[Sort::GoneBrigade, Sort::NullBrigade, Sort::Passed],
            b,
            b,
        ),
        Want::Cursor(c, need) => of_cursor(state, c, need),
        Want::Homes(b) | Want::HomeAcross(b, _) => first_of(state, &[Sort::DeadIn], b, b),
        // Where the bucket is in a brigade, its home is one of those of the brigade.
        Want::Home(c) => match state.cursor(c) {
            CursorState::In(b, _) | CursorState::InOrEnd(b, _) => {
                first_of(state, &[Sort::DeadIn], b, b)
            }
            _ => first_of(state, &[Sort::DeadAt], c, c),
        },
        // That an EOS was passed is no matter where the brigade holds FLUSH buckets at most.
        Want::Send(b) => match state.brigade(b).content {
            Contents::Empty | Contents::Flushes => None,
            _ => first_of(state, &[Sort::LateData, Sort::Sent], b, b),
        },
        Want::Return => of_return(state),
    }
}

/// The first that an instruction may find in a state against its rule, in the order of the rule's tests.
pub fn doubt_of(code: &Module, instr: Instr, state: &State) -> Option<Doubt>
    requires { fits code.now instr ≡ true }
{
    let wanted = wants(code, instr);
    for want in [wanted.first, wanted.second, wanted.third] {
        let doubt = against(state, want?);
        if doubt.is_some() {
            return doubt;
        }
    }
    None
}
