//! A text in parts.

ghost use Rattle.std.specs.Prelude.{◌≡◌, ◌<◌, ◌↔◌, ℕ, List, [], ◌++◌, IsTrue, length, drop};
ghost use Rattle.byte_streams.specs.Texts.{BeginsWith, joined};

/// A text in three parts, one after another, so that it need not be copied into one.
#[derive(Clone, Copy)]
pub struct Parts<'a> {
    pub first: &'a [u8],
    pub second: &'a [u8],
    pub third: &'a [u8],
}

/// What stands behind a place; nothing, where the part ends before it.
fn behind(part: &[u8], at: usize) -> &[u8]
    ensures { result.now ≡ drop at part.now }
{
    if at >= part.len() {
        return &[];
    }
    &part[at..]
}

impl<'a> Parts<'a> {
    /// Whether there is nothing in it.
    #[tactic(auto, using(crate::proofs::PartLaws::all_none))]
    pub fn is_empty(self) -> bool
        ensures { IsTrue result ↔ joined self.entry ≡ [] }
    {
        self.first.is_empty() && self.second.is_empty() && self.third.is_empty()
    }

    /// The first part in which there is something; nothing, where there is nothing in any.
    pub(crate) fn front(self) -> &'a [u8]
        ensures front { BeginsWith (joined self.entry) result.now }
        ensures some { 0 < length (joined self.entry) → 0 < length result.now }
    {
        if !self.first.is_empty() {
            return self.first;
        }
        if !self.second.is_empty() {
            return self.second;
        }
        self.third
    }

    /// What stands behind a place; nothing, where the text ends before it.
    pub fn behind(self, at: usize) -> Parts<'a>
        ensures { joined result ≡ drop at (joined self.entry) }
    {
        let in_second = at.saturating_sub(self.first.len());
        let in_third = in_second.saturating_sub(self.second.len());
        Parts {
            first: behind(self.first, at),
            second: behind(self.second, in_second),
            third: behind(self.third, in_third),
        }
    }
}
