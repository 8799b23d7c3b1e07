//! What is emitted and kept.

use crate::numbers::value_of;
use crate::place::Place;
use crate::scope::{Meaning, Resolver};
use crate::source;
use crate::source::{Decl, Name, Setting};
use crate::tree::{Stmt, Thing};

impl<'a, 's> Resolver<'a, 's> {
    /// The bytes of a text, and where it stands.
    pub fn text(&mut self, text: &source::Text<'a>) -> (Vec<u8>, Place) {
        match text {
            source::Text::Quoted { bytes, place } => (self.faults.copied(bytes.as_slice()), *place),
            source::Text::Param(name) => match self.find(*name) {
                Some(Meaning::Text(param)) => (self.set_text(param), name.place),
                _ => {
                    self.says_of(*name, "` is no text");
                    (Vec::new(self.alloc), name.place)
                }
            },
        }
    }

    /// The text of a declaration that the operator sets.
    fn set_text(&mut self, param: usize) -> Vec<u8> {
        let source = self.source;
        match source.decls.get(param) {
            Some(
                Decl::Param {
                    value: Setting::Text(bytes),
                    ..
                },
            ) => self.faults.copied(bytes.as_slice()),
            _ => Vec::new(self.alloc),
        }
    }

    /// `emit`, where there is no hold, and `keep`.
    pub fn put(&mut self, thing: &source::Thing<'a>, to: Option<Name<'a>>, place: Place) -> Stmt {
        let to = match to {
            Some(name) => Some(self.changed_hold(name)),
            None => None,
        };
        let thing = self.thing(thing, to);
        Stmt::Put { thing, to, place }
    }

    fn thing(&mut self, thing: &source::Thing<'a>, to: Option<usize>) -> Thing {
        match thing {
            source::Thing::Text(text) => Thing::Text(self.text(text).0),
            source::Thing::It { is_copy, place } => {
                if *is_copy {
                    self.check_it(*place);
                } else {
                    self.check_change(*place);
                }
                Thing::It { is_copy: *is_copy }
            }
            source::Thing::Copy(name) => {
                let hold = self.hold(*name);
                self.check_other(*name, hold, to);
                let is_copy = true;
                Thing::Whole { hold, is_copy }
            }
            source::Thing::Decimal { value } => {
                let value = self.number(value);
                let node = self.new_node();
                Thing::Decimal { value, node }
            }
            source::Thing::Part { size, hold } => self.part(size, *hold, to),
            source::Thing::Number { value, place } => self.named_thing(value, *place, to),
        }
    }

    /// The first bytes of a hold.
    fn part(&mut self, size: &source::Expr<'a>, name: Name<'a>, to: Option<usize>) -> Thing {
        let hold = self.hold(name);
        let size = self.number(size);
        self.changed_hold(name);
        self.check_other(name, hold, to);
        Thing::Part { hold, size }
    }

    /// A number as a byte, or what a name alone stands for: a hold, a text or a number.
    fn named_thing(&mut self, value: &source::Expr<'a>, place: Place, to: Option<usize>) -> Thing {
        let source::Expr::Name(name) = value else {
            return self.byte(value, place);
        };
        match self.find(*name) {
            Some(Meaning::Hold(hold)) => {
                self.changed_hold(*name);
                self.check_other(*name, hold, to);
                let is_copy = false;
                Thing::Whole { hold, is_copy }
            }
            Some(Meaning::Text(param)) => Thing::Text(self.set_text(param)),
            _ => self.byte(value, place),
        }
    }

    fn check_other(&mut self, name: Name<'a>, hold: usize, to: Option<usize>) {
        if to == Some(hold) {
            self.faults
                .says(name.place, "a hold cannot be kept in itself");
        }
    }

    /// A number as a byte.
    fn byte(&mut self, value: &source::Expr<'a>, place: Place) -> Thing {
        let value = self.number(value);
        if let Some(known) = value_of(&value) {
            if 255 < known {
                let said = format!(in self.alloc; "{known} is no byte");
                self.faults.add(place, said);
            }
        }
        let node = self.new_node();
        Thing::Byte { value, node }
    }
}
