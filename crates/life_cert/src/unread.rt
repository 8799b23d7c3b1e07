//! What of a text is not read yet, and the words in front of it.

ghost use Rattle.std.specs.Prelude.{◌≡◌, ◌++◌, codes};
ghost use Rattle.life_cert.specs.StateText.{where_holds};
ghost use Rattle.life_cert.specs.StateFromText.{starts, behind, past};

/// The bytes that are not read yet.
#[derive(Clone, Copy)]
pub(crate) struct Unread<'a> {
    pub(crate) bytes: &'a [u8],
}

impl Unread<'_> {
    /// Whether a word stands in front.
    #[tactic(auto, using(crate::proofs::StateWords::starts_is))]
    pub(crate) fn has(&self, word: &[u8]) -> bool
        ensures { result ≡ starts word.now self.now.bytes.now }
    {
        self.bytes.starts_with(word)
    }

    /// Leaves out as many bytes as a word has.
    #[tactic(auto, using(crate::proofs::StateWords::behind_is))]
    pub(crate) fn skip(&mut self, word: &[u8])
        ensures { self.new.bytes.now ≡ behind word.now self.old.bytes.now }
    {
        let len = word.len().min(self.bytes.len());
        self.bytes = &self.bytes[len..];
    }

    /// Reads a word, if it stands in front.
    #[tactic(auto, unfolding(crate::specs::StateFromText::past))]
    pub(crate) fn take(&mut self, word: &[u8]) -> bool
        ensures found { result ≡ starts word.now self.old.bytes.now }
        ensures rest { self.new.bytes.now ≡ past word.now self.old.bytes.now }
    {
        let found = self.has(word);
        if found {
            self.skip(word);
        }
        found
    }

    /// Reads a word of a list, behind a comma where it is not the first.
    pub(crate) fn take_next(&mut self, any: bool, word: &[u8]) -> bool
        ensures found { result ≡ starts (where_holds any (codes ",") ++ word.now) self.old.bytes.now }
        ensures rest { self.new.bytes.now ≡ past (where_holds any (codes ",") ++ word.now) self.old.bytes.now }
    {
        if !any {
            return self.take(word);
        }
        let mut next = *self;
        if !next.take(b",") {
            return false;
        }
        let found = next.take(word);
        if found {
            *self = next;
        }
        found
    }
}
