//! Texts of payloads.

ghost use Rattle.std.specs.Prelude.{◌≡◌, not};
ghost use Rattle.byte_text.specs.Writes.{Wrote, writer_state};
ghost use Rattle.run_model.specs.Pools.{is_empty};
ghost use Rattle.pool_tree.specs.Printed.{payload_text};

use byte_text::{TextWriter, WriteFault, print_text};
use run_model::Payload;
use std::io::Write;

/// A payload that `print` can show.
pub trait PoolText {
    ghost use Rattle.std.specs.Prelude.{ℕ, List};

    /// The bytes of the text.
    ghost shown: { Self → List ℕ };

    /// Whether it is shown: its text is not empty.
    fn is_shown(&self) -> bool
        ensures { result ≡ not (is_empty (shown self.now)) };

    /// Writes the text. Where that fails, a front of it is written.
    fn put<W: Write>(&self, out: &mut TextWriter<W>) -> Result<(), WriteFault>
        ensures { Wrote result (writer_state W.contents out.old) (writer_state W.contents out.new) (shown self.now) };
}

impl PoolText for Payload {
    ghost shown = { payload_text };

    fn is_shown(&self) -> bool {
        matches!(self, Payload::Label(_))
    }

    fn put<W: Write>(&self, out: &mut TextWriter<W>) -> Result<(), WriteFault> {
        match self {
            Payload::Label(text) => print_text(out, text.as_slice()),
            Payload::FileRef(_) | Payload::Brigade(_) => Ok(()),
        }
    }
}
