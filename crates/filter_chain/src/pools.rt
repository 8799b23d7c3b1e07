//! The text of the pools.

ghost use Rattle.byte_text.specs.Writes.{WroteAll, writer_state};
ghost use Rattle.run_model.specs.Worlds.{World, tree_of};
ghost use Rattle.pool_tree.specs.Printed.{payload_text, printed};

use crate::host::Host;
use bucket_kinds::{Files, Stored};
use bucket_ring::Rings;
use byte_text::{TextWriter, WriteFault};
use std::io::Write;

impl<F: Files + Drop, R: Rings<Stored> + Drop> Host<F, R> {
    ghost use Rattle.filter_chain.specs.Hosting.{IsHosting, files_of};

    /// Writes the text of the pools: a line for the root, and below it those of each connection, in the order in which they were opened. Takes
    /// stack in proportion to the depth of the pools.
    pub fn print_pools<W: Write>(&self, out: &mut TextWriter<W>) -> Result<(), WriteFault>
        requires { (w : World) × IsHosting (F.device (files_of self.now)) self.now w }
        ensures { (w : World) → IsHosting (F.device (files_of self.now)) self.now w
            → WroteAll result (writer_state W.contents out.old) (writer_state W.contents out.new) (printed payload_text (tree_of w) 0 w.common.root) }
    {
        self.tree.print(out)
    }
}
