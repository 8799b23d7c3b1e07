//! What a pool has to hand on when it is cleared.

ghost use Rattle.std.specs.Prelude.{◌≡◌};
ghost use Rattle.run_model.specs.Payloads.{payload_eq};
ghost use Rattle.run_model.specs.SamePayload.{payload_per};

use module_code::Seq;

/// What a pool hands on when it is cleared (apr_pools.h, 'cleanups').
#[derive(Drop)]
pub enum Payload {
    /// A cleanup: a label that is run.
    Label(Seq<u8>),
    /// A reference to the open file of this number.
    FileRef(u64),
    /// The brigade of this name, which is made on the pool and ends with it.
    Brigade(u64),
}

impl PartialEq for Payload {
    ghost eq = { payload_eq };

    ghost laws = { payload_per };

    fn eq(&self, other: &Self) -> bool {
        match (self, other) {
            (Payload::Label(a), Payload::Label(b)) => a.as_slice() == b.as_slice(),
            (Payload::FileRef(a), Payload::FileRef(b)) => a == b,
            (Payload::Brigade(a), Payload::Brigade(b)) => a == b,
            (Payload::Label(_), Payload::FileRef(_) | Payload::Brigade(_))
            | (Payload::FileRef(_), Payload::Label(_) | Payload::Brigade(_))
            | (Payload::Brigade(_), Payload::Label(_) | Payload::FileRef(_)) => false,
        }
    }
}
