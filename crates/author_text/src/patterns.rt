//! The texts that `on match` waits for, and what stands of them so far.

use crate::escape::{after, front};
use crate::faults::Faults;
use std::alloc::Global;

/// How many bytes the patterns of a filter have at most, together.
pub const MAX_BYTES: usize = 255;

/// What a byte leads to.
#[derive(Clone, Copy)]
pub enum Next {
    /// This pattern stands there.
    Hit(usize),
    /// So much of one stands there.
    State(usize),
}

/// So many bytes of a pattern: the longest front of one that the bytes so far end with.
#[derive(Clone, Copy)]
struct State {
    pattern: usize,
    len: usize,
}

/// Patterns, and their states. State 0 is that nothing of a pattern stands there.
#[derive(Drop)]
pub struct Patterns {
    texts: Vec<Vec<u8>>,
    states: Vec<State>,
}

impl Patterns {
    /// The patterns with these texts.
    pub fn new(alloc: Global, faults: &mut Faults, texts: Vec<Vec<u8>>) -> Patterns {
        let mut patterns = Patterns {
            texts,
            states: Vec::new(alloc),
        };
        faults.append(&mut patterns.states, State { pattern: 0, len: 0 });
        for len in 1..MAX_BYTES {
            patterns.add_states(faults, len);
        }
        patterns
    }

    /// Adds the states of so many bytes, in the order of their bytes.
    fn add_states(&mut self, faults: &mut Faults, len: usize) {
        let mut last = None;
        for _ in 0..self.texts.len() {
            let Some(pattern) = self.next_front(len, last) else {
                break;
            };
            faults.append(&mut self.states, State { pattern, len });
            last = Some(pattern);
        }
    }

    /// The first pattern whose front of so many bytes comes next behind that of the last one.
    fn next_front(&self, len: usize, last: Option<usize>) -> Option<usize> {
        let behind = match last {
            Some(last) => front(self.text(last), len),
            None => b"",
        };
        let mut best = None;
        for pattern in 0..self.texts.len() {
            let text = self.text(pattern);
            let bytes = front(text, len);
            let is_before = match best {
                Some(best) => bytes < front(self.text(best), len),
                None => true,
            };
            if len < text.len() && behind < bytes && is_before {
                best = Some(pattern);
            }
        }
        best
    }

    /// All patterns, one behind the other.
    pub fn joined(&self, alloc: Global, faults: &mut Faults) -> Vec<u8> {
        let mut bytes = Vec::new(alloc);
        for text in &self.texts {
            if bytes.extend_from_slice(text.as_slice()).is_err() {
                faults.no_memory();
            }
        }
        bytes
    }

    /// How many states there are.
    pub fn count(&self) -> usize {
        self.states.len()
    }

    /// The bytes of a pattern.
    pub fn text(&self, pattern: usize) -> &[u8] {
        match self.texts.get(pattern) {
            Some(text) => text.as_slice(),
            None => b"",
        }
    }

    /// The bytes that stand there in a state.
    pub fn bytes(&self, state: usize) -> &[u8] {
        match self.states.get(state) {
            Some(found) => front(self.text(found.pattern), found.len),
            None => b"",
        }
    }

    /// Where these bytes, with which a pattern begins, stand first among all patterns.
    pub fn start(&self, bytes: &[u8]) -> usize {
        let mut start: usize = 0;
        for text in &self.texts {
            if text.as_slice().starts_with(bytes) {
                break;
            }
            start = start.saturating_add(text.len());
        }
        start
    }

    /// The state in which these bytes stand there.
    fn state_of(&self, bytes: &[u8]) -> Option<usize> {
        for (state, found) in self.states.iter().enumerate() {
            if found.len == bytes.len() && self.bytes(state) == bytes {
                return Some(state);
            }
        }
        None
    }

    /// The state of the longest rest of the bytes that is one.
    pub fn fallback(&self, state: usize) -> usize {
        let bytes = self.bytes(state);
        for start in 1..bytes.len() {
            if let Some(found) = self.state_of(&bytes[start..]) {
                return found;
            }
        }
        0
    }

    /// How many bytes stand there no longer, once another byte has come than the pattern's next.
    pub fn released(&self, state: usize) -> usize {
        self.bytes(state)
            .len()
            .saturating_sub(self.bytes(self.fallback(state)).len())
    }

    /// What a byte leads to, if it goes on with a pattern.
    pub fn next(&self, state: usize, byte: u8) -> Option<Next> {
        let bytes = self.bytes(state);
        let len = bytes.len();
        for pattern in 0..self.texts.len() {
            let text = self.text(pattern);
            if front(text, len) == bytes && text.get(len) == Some(&byte) {
                if text.len() == len.saturating_add(1) {
                    return Some(Next::Hit(pattern));
                }
                let state = self.state_of(front(text, len.saturating_add(1)));
                return Some(Next::State(state.unwrap_or(0)));
            }
        }
        None
    }

    /// Whether this pattern holds another one: the first such, and whether both are the same.
    pub fn nested(&self, at: usize) -> Option<bool> {
        let text = self.text(at);
        for other in 0..self.texts.len() {
            let inner = self.text(other);
            if other != at && holds(text, inner) {
                return Some(text.len() == inner.len());
            }
        }
        None
    }
}

/// Whether a text holds another.
fn holds(text: &[u8], inner: &[u8]) -> bool {
    for start in 0..text.len() {
        if after(text, start).starts_with(inner) {
            return true;
        }
    }
    false
}
