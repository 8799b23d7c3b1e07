//! States that are put together, part by part.

ghost use Rattle.std.specs.Prelude.{◌≡◌, ◌<◌, slice_index_or, true, false};
ghost use Rattle.run_model.specs.Indexed.{upd};
ghost use Rattle.life_state.specs.Build.{with_sent, with_cursor, with_fact};
ghost use Rattle.life_state.specs.Seen.{seen, seen_cursor};

use crate::parts::CursorState;
use crate::state::State;

fn set_true(row: &mut [bool; 9], d: u8)
    requires { d < 9 }
    ensures { (λ k. slice_index_or row.new k false) ≡ upd (λ k. slice_index_or row.old k false) d true }
{
    row[usize::from(d)] = true;
}

#[tactic(auto, unfolding(crate::specs::Seen::seen, run_model::specs::Indexed::upd))]
impl State {
    /// Says whether an EOS of this request may have been passed.
    pub fn set_sent(&mut self, sent: bool)
        ensures { seen self.new ≡ with_sent sent (seen self.old) }
    {
        self.sent = sent;
    }

    /// Says what is known of a cursor; the facts stay.
    pub fn put_cursor(&mut self, c: u8, cursor: CursorState)
        requires { c < 9 }
        ensures { seen self.new ≡ with_cursor c (seen_cursor cursor) (seen self.old) }
    {
        self.cursors[usize::from(c)] = cursor;
    }

    fn write_fact(&mut self, c: u8, d: u8)
        requires first { c < 9 }
        requires second { d < 9 }
        ensures { seen self.new ≡ with_fact c d (seen self.old) }
    {
        set_true(&mut self.facts[usize::from(c)], d);
    }

    /// Writes that two cursors are at different buckets.
    pub fn add_fact(&mut self, c: u8, d: u8)
        requires first { c < 9 }
        requires second { d < 9 }
        ensures { seen self.new ≡ with_fact d c (with_fact c d (seen self.old)) }
    {
        self.write_fact(c, d);
        self.write_fact(d, c);
    }
}
