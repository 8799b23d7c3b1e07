//! Which cursors are known to be at different buckets.

ghost use Rattle.std.specs.Prelude.{◌≡◌, ◌<◌, ℕ, length, slice_index_or, false};
ghost use Rattle.life_state.specs.Facts.{known, facts_of};
ghost use Rattle.life_state.specs.Seen.{seen, seen_cursors, seen_facts, keep_of};

use crate::parts::CursorState;
use crate::state::State;

/// The cursors whose buckets are others than that of a cursor that is set.
#[derive(Clone, Copy)]
pub(crate) enum Others {
    /// None is known.
    Nobody,
    /// Each.
    All,
    /// This one.
    Only(u8),
    /// Those that are known to be others than that of this one.
    As(u8),
}

/// What stays known.
#[derive(Clone, Copy)]
pub(crate) enum Keep<'a> {
    /// What was known.
    Known,
    /// What was known, and is known in another state.
    Shared(&'a State),
    /// What was known, but for the cursor that is set, of which this is known.
    But(u8, Others),
}

#[tactic(auto, unfolding(crate::specs::Facts::known))]
impl State {
    /// Whether two cursors are known to be at different buckets: it is written, or their places imply it.
    pub fn known(&self, c: u8, d: u8) -> bool
        ensures { result ≡ known (seen self.now) c d }
    {
        c != d && (self.fact(c, d) || self.cursor(c).is_apart(&self.cursor(d)))
    }
}

#[tactic(auto)]
impl State {
    fn is_kept(&self, keep: Keep<'_>, i: u8, j: u8) -> bool
        ensures { result ≡ keep_of keep.entry (seen self.now) i j }
    {
        match keep {
            Keep::Known => self.known(i, j),
            Keep::Shared(other) => self.known(i, j) & other.known(i, j),
            Keep::But(c, _) if i != c && j != c => self.known(i, j),
            Keep::But(c, others) => {
                let k = if i == c { j } else { i };
                match others {
                    Others::Nobody => false,
                    Others::All => true,
                    Others::Only(d) => k == d,
                    Others::As(d) => self.known(d, k),
                }
            }
        }
    }

    #[tactic(auto, unfolding(crate::specs::Facts::facts_of))]
    fn is_written(&self, keep: Keep<'_>, cursors: &[CursorState; 9], c: u8, d: u8) -> bool
        requires first { c < 9 }
        requires second { d < 9 }
        ensures { result ≡ facts_of (keep_of keep.entry (seen self.now)) (seen_cursors cursors.now) c d }
    {
        let first = &cursors[usize::from(c)];
        let second = &cursors[usize::from(d)];
        let is_due = c != d && first.is_set() && second.is_set() && !first.is_apart(second);
        is_due && self.is_kept(keep, c, d)
    }

    /// The facts of one cursor to write, of what stays known.
    fn fact_row(&self, keep: Keep<'_>, cursors: &[CursorState; 9], c: u8) -> [bool; 9]
        requires { c < 9 }
        ensures long { length result ≡ 9 }
        ensures each { (d : ℕ) → d < 9 → slice_index_or result d false ≡ facts_of (keep_of keep.entry (seen self.now)) (seen_cursors cursors.now) c d }
    {
        let mut row = [false; 9];
        if !cursors[usize::from(c)].is_set() {
            return row;
        }
        for d in 0..9u8 {
            row[usize::from(d)] = self.is_written(keep, cursors, c, d);
        }
        row
    }

    /// The facts to write, of what stays known.
    pub(crate) fn fact_rows(&self, keep: Keep<'_>, cursors: &[CursorState; 9]) -> [[bool; 9]; 9]
        ensures { seen_facts result ≡ facts_of (keep_of keep.entry (seen self.now)) (seen_cursors cursors.now) }
    {
        let mut rows = [[false; 9]; 9];
        for c in 0..9u8 {
            rows[usize::from(c)] = self.fact_row(keep, cursors, c);
        }
        rows
    }

    /// The cursors become these. Of what stays known, that is written which their places do not imply.
    #[tactic(auto, unfolding(crate::specs::Seen::seen))]
    pub(crate) fn change_cursors(&mut self, keep: Keep<'_>, cursors: [CursorState; 9])
        ensures { seen self.new ≡ record (seen self.old) { cursors = seen_cursors cursors; facts = facts_of (keep_of keep.entry (seen self.old)) (seen_cursors cursors) } }
    {
        self.facts = self.fact_rows(keep, &cursors);
        self.cursors = cursors;
    }
}
