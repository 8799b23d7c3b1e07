//! What is wrong with a text first.

ghost use Rattle.std.specs.Prelude.{◌≡◌, ◌⊎◌, ◌∷◌, [], ◌++◌, IsTrue, IsSome, MatchOption, MatchResult, is_some, true, not, ◌||◌};
ghost use Rattle.author_text.specs.Reading.{IsOut, KeepsFault, fault_of};

use crate::place::Place;
use crate::refusal::Refusal;
use std::alloc::{AllocError, Global};

/// The first fault that was found, if any was. Who finds one goes on with a stand-in, and looks no further: later faults are not kept.
#[derive(Drop)]
pub struct Faults {
    alloc: Global,
    first: Option<Refusal>,
    /// Whether there was memory for all that was made.
    is_whole: bool,
}

/// Adds the bytes of a word of the text, which are all below 0x7F.
fn push_word(what: &mut String, word: &[u8]) -> Result<(), AllocError> {
    for byte in word {
        what.push(char::from(*byte))?;
    }
    Ok(())
}

/// The words before a word of the text, that word, and the words after it.
fn joined(alloc: Global, before: &[&str], word: &[u8], after: &str) -> Result<String, AllocError> {
    let mut what = String::new(alloc);
    for piece in before {
        what.push_str(*piece)?;
    }
    push_word(&mut what, word)?;
    what.push_str(after)?;
    Ok(what)
}

/// Adds the line from which a `def` runs, unless one is there.
fn add_def(alloc: Global, what: &mut String, line: usize) -> Result<(), AllocError> {
    if what.as_str().ends_with(")") {
        return Ok(());
    }
    let said = format!(in alloc; " (in the `def` that runs from line {line})")?;
    what.push_str(said.as_str())
}

impl Faults {
    /// No fault.
    #[tactic(auto, unfolding(crate::specs::Reading::fault_of))]
    pub fn new(alloc: Global) -> Faults
        ensures first { result.first ≡ None }
        ensures whole { IsTrue result.is_whole }
        ensures fault { fault_of result ≡ None }
    {
        Faults {
            alloc,
            first: None,
            is_whole: true,
        }
    }

    /// Whether a fault was found.
    #[tactic(auto, unfolding(crate::specs::Reading::fault_of))]
    pub fn is_any(&self) -> bool
        ensures any { result ≡ is_some self.now.first || not self.now.is_whole }
        ensures fault { result ≡ is_some (fault_of self.now) }
    {
        self.first.is_some() || !self.is_whole
    }

    /// Whether there was memory for all that was made.
    pub fn is_whole(&self) -> bool
        ensures { result ≡ self.now.is_whole }
    {
        self.is_whole
    }

    /// There was no memory.
    #[tactic(auto, unfolding(crate::specs::Reading::fault_of))]
    pub fn no_memory(&mut self)
        ensures whole { IsTrue self.new.is_whole → ⊥ }
        ensures out { fault_of self.old ≡ None → IsOut self.new }
        ensures kept { KeepsFault self.old self.new }
        ensures found { is_some (fault_of self.new) ≡ true }
    {
        self.is_whole = false;
    }

    /// What is wrong at a place, in words that were made, or that there is no memory for them.
    #[tactic(auto, unfolding(crate::specs::Reading::fault_of))]
    pub fn add(&mut self, place: Place, said: Result<String, AllocError>)
        ensures whole { IsTrue self.new.is_whole → IsTrue self.old.is_whole }
        ensures some { IsTrue self.new.is_whole → IsSome self.new.first }
        ensures kept { KeepsFault self.old self.new }
        ensures found { is_some (fault_of self.new) ≡ true }
    {
        match said {
            Ok(what) => {
                if !self.is_any() {
                    self.first = Some(Refusal::Mistake {
                        line: place.line,
                        column: place.column,
                        what,
                    });
                }
            }
            Err(_) => self.no_memory(),
        }
    }

    /// What is wrong at a place.
    pub fn says(&mut self, place: Place, what: &str)
        ensures whole { IsTrue self.new.is_whole → IsTrue self.old.is_whole }
        ensures some { IsTrue self.new.is_whole → IsSome self.new.first }
        ensures kept { KeepsFault self.old self.new }
        ensures found { is_some (fault_of self.new) ≡ true }
    {
        let said = String::from_str(self.alloc, what);
        self.add(place, said);
    }

    /// What is wrong with a word at a place: the words before it, the word, and the words after it.
    pub fn says_of(&mut self, place: Place, before: &[&str], word: &[u8], after: &str)
        ensures whole { IsTrue self.new.is_whole → IsTrue self.old.is_whole }
        ensures some { IsTrue self.new.is_whole → IsSome self.new.first }
        ensures kept { KeepsFault self.old self.new }
        ensures found { is_some (fault_of self.new) ≡ true }
    {
        let said = joined(self.alloc, before, word, after);
        self.add(place, said);
    }

    /// Adds an item to a list, where there is memory for it.
    #[tactic(auto, unfolding(crate::specs::Reading::fault_of))]
    pub fn append<T: Drop>(&mut self, list: &mut Vec<T>, item: T)
        ensures whole { IsTrue self.new.is_whole → IsTrue self.old.is_whole }
        ensures same { IsTrue self.new.is_whole → self.new ≡ self.old }
        ensures added { IsTrue self.new.is_whole → list.new.items ≡ list.old.items ++ item ∷ [] }
        ensures kept { KeepsFault self.old self.new }
        ensures grown { fault_of self.old ≡ None → IsOut self.new ⊎ ((fault_of self.new ≡ None) × (list.new.items ≡ list.old.items ++ item ∷ [])) }
    {
        if list.push(item).is_err() {
            self.no_memory();
        }
    }

    /// The bytes of a text, or none where there is no memory for them.
    pub fn copied(&mut self, text: &[u8]) -> Vec<u8> {
        match text.to_vec(self.alloc) {
            Ok(bytes) => bytes,
            Err(_) => {
                self.no_memory();
                Vec::new(self.alloc)
            }
        }
    }

    /// A value in a box, where there is memory for it.
    pub fn boxed<T: Drop>(&mut self, value: T) -> Option<Box<T>>
        ensures whole { IsTrue self.new.is_whole → IsTrue self.old.is_whole }
        ensures same { IsTrue self.new.is_whole → self.new ≡ self.old }
        ensures made { MatchOption result (IsTrue self.new.is_whole → ⊥) (λ place. place.value ≡ value) }
        ensures kept { KeepsFault self.old self.new }
    {
        match Box::new(self.alloc, value) {
            Ok(place) => Some(place),
            Err(_) => {
                self.no_memory();
                None
            }
        }
    }

    /// Says of a fault which `def` it stands in, which runs from a line, unless one is said.
    pub fn in_def(&mut self, line: usize) {
        if let Some(Refusal::Mistake { what, .. }) = &mut self.first {
            if add_def(self.alloc, what, line).is_err() {
                self.first = None;
                self.is_whole = false;
            }
        }
    }

    /// A value, unless there is a fault.
    #[tactic(auto, unfolding(crate::specs::Reading::fault_of))]
    pub fn outcome<T: Drop>(self, value: T) -> Result<T, Refusal>
        ensures { MatchResult result (λ v. (fault_of self ≡ None) × (v ≡ value)) (λ r. fault_of self ≡ Some r) }
    {
        match self.first {
            Some(refusal) => Err(refusal),
            None if self.is_whole => Ok(value),
            None => Err(Refusal::NoMemory),
        }
    }
}
