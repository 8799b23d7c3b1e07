//! Reading tokens one by one.

ghost use Rattle.std.specs.Prelude.{◌≡◌, ◌+◌, ◌∷◌, [], ◌++◌, length, map, IsTrue};
ghost use Rattle.author_text.specs.Escapes.{spelled_bytes};
ghost use Rattle.author_text.specs.ReadTexts.{read_name_behind, read_quoted, read_text};
ghost use Rattle.author_text.specs.Reading.{ReadsTokens, ReadsAs, unread_of};
ghost use Rattle.author_text.specs.Tokens.{end_token, token_of};
ghost use Rattle.author_text.specs.UnreadTokens.{next_token, passed, refused, is_at, no_comma, is_end_token, is_quoted_token, eaten, needed, read_name, read_new_name, read_hold_or_it, unhyphened};
ghost use Rattle.author_text.specs.Trees.{name_of, names_of, text_of};

use crate::escape::push_bytes;
use crate::faults::Faults;
use crate::place::Place;
use crate::source::{Name, Text};
use crate::token::{Kind, Token};
use std::alloc::Global;

/// The tokens of a text, and which is next: the end, once there is a fault.
#[derive(Drop)]
pub struct Parser<'a, 't> {
    pub alloc: Global,
    tokens: &'t [Token<'a>],
    end: Place,
    next: usize,
    pub faults: Faults,
    /// How many operators were read of the expression that is read: 0 where none is.
    pub operators: usize,
}

impl<'a, 't> Parser<'a, 't> {
    /// A reader of these tokens, in a text that ends at `end`.
    #[tactic(auto, unfolding(crate::specs::Reading::unread_of))]
    pub fn new(alloc: Global, tokens: &'t [Token<'a>], end: Place) -> Parser<'a, 't>
        ensures left { unread_of result ≡ record { tokens = map token_of tokens.now; operators = 0 } }
        ensures whole { IsTrue result.faults.is_whole }
    {
        Parser {
            alloc,
            tokens,
            end,
            next: 0,
            faults: Faults::new(alloc),
            operators: 0,
        }
    }

    /// How many tokens are left, with the end that stands behind all.
    pub fn left(&self) -> usize
        ensures { IsTrue self.now.faults.is_whole → result ≡ length (unread_of self.now).tokens + 1 }
    {
        if self.faults.is_any() {
            return 1;
        }
        self.tokens.len().saturating_sub(self.next) + 1
    }

    /// The next token.
    pub fn token(&self) -> Token<'a>
        ensures { IsTrue self.now.faults.is_whole → token_of result ≡ next_token (unread_of self.now) }
    {
        if self.faults.is_any() {
            return self.end_token();
        }
        if self.next < self.tokens.len() {
            return self.tokens[self.next];
        }
        self.end_token()
    }

    /// The end of the text.
    fn end_token(&self) -> Token<'a>
        ensures { token_of result ≡ end_token }
    {
        Token {
            kind: Kind::End,
            text: b"",
            place: self.end,
        }
    }

    /// The next token, which is passed.
    pub fn take(&mut self) -> Token<'a>
        ensures { ReadsTokens self.old self.new ((token_of result ≡ next_token (unread_of self.old)) × (unread_of self.new ≡ passed (unread_of self.old))) }
    {
        let token = self.token();
        self.pass();
        token
    }

    /// Passes the next token, if one is left.
    fn pass(&mut self)
        ensures { ReadsTokens self.old self.new (unread_of self.new ≡ passed (unread_of self.old)) }
    {
        if self.next < self.tokens.len() {
            self.next += 1;
        }
    }

    pub fn is_end(&self) -> bool
        ensures { IsTrue self.now.faults.is_whole → result ≡ is_end_token (next_token (unread_of self.now)) }
    {
        matches!(self.token().kind, Kind::End)
    }

    pub fn is_text(&self) -> bool
        ensures { IsTrue self.now.faults.is_whole → result ≡ is_quoted_token (next_token (unread_of self.now)) }
    {
        matches!(self.token().kind, Kind::Text)
    }

    /// Whether this word or mark is next.
    pub fn at(&self, text: &str) -> bool
        ensures { IsTrue self.now.faults.is_whole → result ≡ is_at (next_token (unread_of self.now)) text.now }
    {
        let token = self.token();
        matches!(token.kind, Kind::Word | Kind::Mark) && token.text == text.as_bytes()
    }

    /// Passes this word or mark, if it is next.
    pub fn eat(&mut self, text: &str) -> bool
        ensures { ReadsTokens self.old self.new ((result ≡ is_at (next_token (unread_of self.old)) text.now) × (unread_of self.new ≡ eaten text.now (unread_of self.old))) }
    {
        let is_next = self.at(text);
        if is_next {
            self.pass();
        }
        is_next
    }

    /// How an answer names the next token.
    pub fn shown(&self) -> &'a [u8] {
        let token = self.token();
        match token.kind {
            Kind::Text => b"a text",
            Kind::End => b"the end",
            _ => token.text,
        }
    }

    /// What is wrong with the next token.
    pub fn says(&mut self, what: &str)
        ensures { ReadsTokens self.old self.new (unread_of self.new ≡ refused (unread_of self.old)) }
    {
        let place = self.token().place;
        self.faults.says(place, what);
    }

    /// What is wrong with the next token, which stands between these words.
    pub fn says_of(&mut self, before: &[&str], after: &str)
        ensures { ReadsTokens self.old self.new (unread_of self.new ≡ refused (unread_of self.old)) }
    {
        let place = self.token().place;
        let shown = self.shown();
        self.faults.says_of(place, before, shown, after);
    }

    /// Refuses a comma, as one writes it in long numbers.
    fn check_comma(&mut self)
        ensures { ReadsTokens self.old self.new (unread_of self.new ≡ no_comma (unread_of self.old)) }
    {
        if self.at(",") {
            self.says("no `,` may stand here: a number has digits alone, as 2000");
        }
    }

    /// What is wrong at a place before the next token.
    pub fn says_at(&mut self, place: Place, what: &str)
        ensures { ReadsTokens self.old self.new (unread_of self.new ≡ refused (unread_of self.old)) }
    {
        self.faults.says(place, what);
    }

    /// What is wrong with a word at a place before the next token, which stands between these words.
    pub fn says_word(&mut self, place: Place, before: &[&str], word: &[u8], after: &str)
        ensures { ReadsTokens self.old self.new (unread_of self.new ≡ refused (unread_of self.old)) }
    {
        self.faults.says_of(place, before, word, after);
    }

    /// Adds an item to a list, where there is memory for it.
    pub fn append<T: Drop>(&mut self, list: &mut Vec<T>, item: T)
        ensures { ReadsTokens self.old self.new ((list.new.items ≡ list.old.items ++ item ∷ []) × (unread_of self.new ≡ unread_of self.old)) }
    {
        self.faults.append(list, item);
    }

    /// Something is due in place of the next token.
    pub fn due(&mut self, due: &str)
        ensures { ReadsTokens self.old self.new (unread_of self.new ≡ refused (unread_of self.old)) }
    {
        self.check_comma();
        self.says_of(&[due, " is due here, not `"], "`");
    }

    /// So much stands in one another at the next token that no more may.
    pub fn too_deep(&mut self)
        ensures { ReadsTokens self.old self.new (unread_of self.new ≡ refused (unread_of self.old)) }
    {
        self.says("too much stands in one another here");
    }

    /// Passes this word or mark, which must be next.
    pub fn need(&mut self, text: &str)
        ensures { ReadsTokens self.old self.new (unread_of self.new ≡ needed text.now (unread_of self.old)) }
    {
        if !self.eat(text) {
            self.refuse(text);
        }
    }

    /// What is wrong where this word or mark is not next.
    fn refuse(&mut self, text: &str)
        ensures { ReadsTokens self.old self.new (unread_of self.new ≡ refused (unread_of self.old)) }
    {
        if text == "{" && self.at("=") {
            self.says("numbers are compared with `==`");
        }
        self.check_comma();
        self.says_of(&["`", text, "` is due here, not `"], "`");
    }

    /// The name that must be next.
    #[tactic(auto, unfolding(crate::specs::UnreadTokens::read_name))]
    pub fn name(&mut self, due: &str) -> Name<'a>
        ensures { ReadsAs self.old self.new (name_of result) (read_name (unread_of self.old)) }
    {
        let token = self.token();
        let place = token.place;
        match token.kind {
            Kind::Name => {
                self.take();
                return Name {
                    text: token.text,
                    place,
                };
            }
            Kind::Word => self.says_of(&[due, " is due here; `"], "` is a word of the language"),
            _ => self.due(due),
        }
        Name { text: b"", place }
    }

    /// The name that must be next, and that is declared here.
    #[tactic(auto, unfolding(crate::specs::UnreadTokens::read_new_name))]
    pub fn new_name(&mut self, due: &str) -> Name<'a>
        ensures { ReadsAs self.old self.new (name_of result) (read_new_name (unread_of self.old)) }
    {
        let name = self.name(due);
        self.check_hyphen();
        name
    }

    /// Refuses a hyphen behind a name that is declared.
    pub fn check_hyphen(&mut self)
        ensures { ReadsTokens self.old self.new (unread_of self.new ≡ unhyphened (unread_of self.old)) }
    {
        if self.at("-") {
            self.says("a name has letters, digits and `_`, and no `-`");
        }
    }

    /// The name of a hold, or `it`, which is no name.
    #[tactic(auto, unfolding(crate::specs::UnreadTokens::read_hold_or_it))]
    pub fn hold_or_it(&mut self) -> Option<Name<'a>>
        ensures { ReadsAs self.old self.new (names_of result) (read_hold_or_it (unread_of self.old)) }
    {
        if self.eat("it") {
            return None;
        }
        Some(self.name("`it` or the name of a hold"))
    }

    /// The name that must be next behind this word, if the word is next.
    #[tactic(auto, unfolding(crate::specs::ReadTexts::read_name_behind))]
    pub fn name_behind(&mut self, word: &str, due: &str) -> Option<Name<'a>>
        ensures { ReadsAs self.old self.new (names_of result) (read_name_behind word.now (unread_of self.old)) }
    {
        if !self.eat(word) {
            return None;
        }
        Some(self.name(due))
    }

    /// Adds the bytes of a text in quotes.
    fn push_text(&mut self, bytes: &mut Vec<u8>, text: &[u8])
        ensures { ReadsTokens self.old self.new ((bytes.new.items ≡ bytes.old.items ++ spelled_bytes 0 text.now) × (unread_of self.new ≡ unread_of self.old)) }
    {
        if push_bytes(bytes, text).is_err() {
            self.faults.no_memory();
        }
    }

    /// The texts in quotes that are next, which are one.
    pub fn quoted(&mut self) -> Vec<u8>
        ensures { ReadsAs self.old self.new result.items (read_quoted (unread_of self.old)) }
    {
        let mut bytes = Vec::new(self.alloc);
        let count = self.left();
        for _ in 0..count {
            if !self.is_text() {
                break;
            }
            let text = self.take().text;
            self.push_text(&mut bytes, text);
        }
        bytes
    }

    /// The text that must be next: one in quotes, or the name of one that the operator sets.
    #[tactic(auto, unfolding(crate::specs::ReadTexts::read_text))]
    pub fn text(&mut self) -> Text<'a>
        ensures { ReadsAs self.old self.new (text_of result) (read_text (unread_of self.old)) }
    {
        let token = self.token();
        match token.kind {
            Kind::Text => Text::Quoted {
                bytes: self.quoted(),
                place: token.place,
            },
            Kind::Name => {
                self.take();
                Text::Param(Name {
                    text: token.text,
                    place: token.place,
                })
            }
            _ => {
                self.due("a text in quotes");
                Text::Param(Name {
                    text: b"",
                    place: token.place,
                })
            }
        }
    }
}
