//! What stands in a brigade that buckets come to, and which buckets stand at cursors.

ghost use Rattle.std.specs.Prelude.{◌≡◌};
ghost use Rattle.life_state.specs.Rules.{concat_content, content_of, tail_content, head_content, before_eos, before_content, bucket_or_end, is_empty, may_end};
ghost use Rattle.life_state.specs.Rules.{of_kind, not_of_kind, some_class, with_classes, classes_of};
ghost use Rattle.life_state.specs.Seen.{seen_cursor};

use crate::parts::{Classes, Contents, CursorState};
use module_code::KindTest;

impl Contents {
    /// One brigade behind another.
    pub(crate) fn concat(self, behind: Contents) -> Contents
        ensures { result ≡ concat_content self behind }
    {
        match self {
            Contents::Empty => behind,
            Contents::Flushes => Contents::Flushes.join(behind),
            Contents::NoEos => Contents::NoEos.join(behind),
            Contents::NoLateData => {
                if behind.leq(Contents::Flushes) {
                    Contents::NoLateData
                } else {
                    Contents::Any
                }
            }
            Contents::Any => Contents::Any,
        }
    }

    /// With a bucket of these classes at the tail.
    pub(crate) fn with_tail(self, classes: Classes) -> Contents
        ensures { result ≡ tail_content self classes }
    {
        match self {
            Contents::NoLateData => {
                if classes.bytes {
                    Contents::Any
                } else {
                    Contents::NoLateData
                }
            }
            Contents::Any => Contents::Any,
            Contents::Empty => Contents::Empty.join(classes.content()),
            Contents::Flushes => Contents::Flushes.join(classes.content()),
            Contents::NoEos => Contents::NoEos.join(classes.content()),
        }
    }

    fn before_eos(self) -> Contents
        ensures { result ≡ before_eos self }
    {
        if self.leq(Contents::Flushes) {
            Contents::NoLateData
        } else {
            Contents::Any
        }
    }

    /// With a bucket of these classes at the head.
    pub(crate) fn with_head(self, classes: Classes) -> Contents
        ensures { result ≡ head_content self classes }
    {
        match self {
            Contents::Any => Contents::Any,
            Contents::Empty | Contents::Flushes | Contents::NoEos | Contents::NoLateData => {
                if classes.eos {
                    self.before_eos()
                } else {
                    self.join(classes.content())
                }
            }
        }
    }

    /// With a bucket of these classes before another.
    pub(crate) fn with_inner(self, classes: Classes) -> Contents
        ensures { result ≡ before_content self classes }
    {
        if classes.eos {
            self.before_eos()
        } else if classes.bytes {
            if self.leq(Contents::NoEos) {
                Contents::NoEos
            } else {
                Contents::Any
            }
        } else {
            self.join(Contents::Flushes)
        }
    }

    /// A bucket of the brigade, or its end.
    pub(crate) fn bucket_or_end(self, b: u8) -> CursorState
        ensures { seen_cursor result ≡ bucket_or_end b self }
    {
        let (bytes, eos) = match self {
            Contents::Empty => return CursorState::End(b),
            Contents::Flushes => (false, false),
            Contents::NoEos => (true, false),
            Contents::NoLateData | Contents::Any => (true, true),
        };
        CursorState::InOrEnd(
            b,
            Classes {
                bytes,
                flush: true,
                eos,
            },
        )
    }

    pub(crate) fn is_empty(self) -> bool
        ensures { result ≡ is_empty self }
    {
        matches!(self, Contents::Empty)
    }

    /// Whether an EOS may be among them.
    pub(crate) fn may_end(self) -> bool
        ensures { result ≡ may_end self }
    {
        matches!(self, Contents::NoLateData | Contents::Any)
    }
}

impl Classes {
    /// A kind that has bytes.
    pub(crate) const BYTES: Classes = Classes {
        bytes: true,
        flush: false,
        eos: false,
    };

    /// FLUSH.
    pub(crate) const FLUSH: Classes = Classes {
        bytes: false,
        flush: true,
        eos: false,
    };

    /// EOS.
    pub(crate) const EOS: Classes = Classes {
        bytes: false,
        flush: false,
        eos: true,
    };

    fn content(self) -> Contents
        ensures { result ≡ content_of self }
    {
        if self.eos {
            Contents::NoLateData
        } else if self.bytes {
            Contents::NoEos
        } else {
            Contents::Flushes
        }
    }

    /// Those of a kind.
    pub(crate) fn of_kind(self, test: KindTest) -> Classes
        ensures { result ≡ of_kind test self }
    {
        match test {
            KindTest::Flush => Classes {
                bytes: false,
                flush: self.flush,
                eos: false,
            },
            KindTest::Eos => Classes {
                bytes: false,
                flush: false,
                eos: self.eos,
            },
            KindTest::Data
            | KindTest::Heap
            | KindTest::Transient
            | KindTest::Immortal
            | KindTest::Pool
            | KindTest::File => Classes {
                bytes: self.bytes,
                flush: false,
                eos: false,
            },
        }
    }

    /// Those that may be of another kind.
    pub(crate) fn not_of_kind(self, test: KindTest) -> Classes
        ensures { result ≡ not_of_kind test self }
    {
        match test {
            KindTest::Flush => Classes {
                flush: false,
                ..self
            },
            KindTest::Eos => Classes { eos: false, ..self },
            KindTest::Data => Classes {
                bytes: false,
                ..self
            },
            KindTest::Heap
            | KindTest::Transient
            | KindTest::Immortal
            | KindTest::Pool
            | KindTest::File => self,
        }
    }

    /// Whether there is one.
    pub(crate) fn is_some(self) -> bool
        ensures { result ≡ some_class self }
    {
        self.bytes | self.flush | self.eos
    }
}

impl CursorState {
    /// The classes of the bucket.
    pub(crate) fn classes(&self) -> Classes
        ensures { result ≡ classes_of (seen_cursor self.now) }
    {
        match self {
            CursorState::Loose(classes, _)
            | CursorState::In(_, classes)
            | CursorState::InOrEnd(_, classes) => *classes,
            CursorState::Unset | CursorState::End(_) => {
                Classes {
                    bytes: false,
                    flush: false,
                    eos: false,
                }
            }
        }
    }

    /// The same at a bucket of these classes.
    pub(crate) fn with_classes(self, classes: Classes) -> CursorState
        ensures { seen_cursor result ≡ with_classes classes (seen_cursor self) }
    {
        match self {
            CursorState::Loose(_, homes) => CursorState::Loose(classes, homes),
            CursorState::In(b, _) => CursorState::In(b, classes),
            CursorState::InOrEnd(b, _) => CursorState::InOrEnd(b, classes),
            CursorState::Unset | CursorState::End(_) => self,
        }
    }
}
