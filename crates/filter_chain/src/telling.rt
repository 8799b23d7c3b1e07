//! What a connection tells.

ghost use Rattle.std.specs.Prelude.{◌≡◌, Err, IfErr, IfOk, Ok};
ghost use Rattle.filter_chain.specs.Prelude.{TakeOutput, TellLabels, World, Labels, Refused, labels_handed, refusal_of};

use crate::host::Host;
use bucket_kinds::{Files, Stored};
use bucket_ring::Rings;
use byte_text::BlockBytes;
use interp_exec::labels_run::LabelsRun;
use run_model::Refusal;

impl<F: Files + Drop, R: Rings<Stored> + Drop> Host<F, R> {
    ghost use Rattle.filter_chain.specs.Hosting.{IsHosting, Happens, output_answer, output_in, files_of};
    ghost use Rattle.filter_chain.specs.Bare.{is_bare};

    /// The output since it was emptied last, as it lies, whatever state the connection is in. Refused: `NoSuchConn`.
    pub fn output(&self, number: u64) -> Result<&[u8], Refusal>
        ensures lent { IfOk result (λ bytes. (w : World) → IsHosting (F.device (files_of self.now)) self.now w → output_in (w.conns number) ≡ Ok bytes.now) }
        ensures missing { IfErr result (λ why. (w : World) → IsHosting (F.device (files_of self.now)) self.now w → output_in (w.conns number) ≡ Err why) }
    {
        match self.conns.get(number) {
            None => Err(Refusal::NoSuchConn),
            Some(conn) => Ok(conn.output()),
        }
    }

    /// Empties the output, and keeps its room for what comes: what `output` lends is taken. It takes no memory. Refused: `NoSuchConn`.
    pub fn clear_output(&mut self, number: u64) -> Result<(), Refusal>
        requires { (w : World) × IsHosting (F.device (files_of self.old)) self.old w }
        ensures event { (w : World) → IsHosting (F.device (files_of self.old)) self.old w
            → Happens (F.device (files_of self.old)) (F.device (files_of self.new)) self.old self.new number TakeOutput (output_answer (output_in (w.conns number))) w }
        ensures told { (w : World) → IsHosting (F.device (files_of self.old)) self.old w → refusal_of result ≡ refusal_of (output_in (w.conns number)) }
        ensures files { files_of self.new ≡ files_of self.old }
        ensures bare { is_bare self.new ≡ is_bare self.old }
    {
        match self.conns.by_number.get_mut(&number) {
            None => Err(Refusal::NoSuchConn),
            Some(conn) => {
                conn.clear_output();
                Ok(())
            }
        }
    }

    /// The output since it was emptied last, whatever state the connection is in. Output goes into the block that was given back last, if
    /// there is one. It takes no memory. Refused: `NoSuchConn`.
    pub fn take_output(&mut self, number: u64) -> Result<BlockBytes, Refusal>
        requires { (w : World) × IsHosting (F.device (files_of self.old)) self.old w }
        ensures event { (w : World) → IsHosting (F.device (files_of self.old)) self.old w
            → Happens (F.device (files_of self.old)) (F.device (files_of self.new)) self.old self.new number TakeOutput (output_answer result) w }
        ensures files { files_of self.new ≡ files_of self.old }
        ensures bare { is_bare self.new ≡ is_bare self.old }
    {
        match self.conns.by_number.get_mut(&number) {
            None => Err(Refusal::NoSuchConn),
            Some(conn) => Ok(conn.take_output(self.spare.take(self.alloc))),
        }
    }

    /// Gives the block of an output back that was taken. The next output that is taken leaves it to its connection, so that its room is
    /// used again.
    pub fn give_back_output(&mut self, block: BlockBytes)
        ensures { self.new ≡ self.old }
    {
        self.spare.put(block);
    }

    /// The labels of the connection that ran so far, each with its pool, in a list for each clear that ran any, the oldest first. Refused:
    /// `NoSuchConn`.
    pub fn labels_run(&self, number: u64) -> Result<&[LabelsRun], Refusal>
        ensures told { IfOk result (λ labels. (w : World) → IsHosting (F.device (files_of self.now)) self.now w
            → Happens (F.device (files_of self.now)) (F.device (files_of self.now)) self.now self.now number TellLabels (Labels (labels_handed labels.now)) w) }
        ensures missing { IfErr result (λ why. (w : World) → IsHosting (F.device (files_of self.now)) self.now w
            → Happens (F.device (files_of self.now)) (F.device (files_of self.now)) self.now self.now number TellLabels (Refused why) w) }
    {
        match self.conns.get(number) {
            None => Err(Refusal::NoSuchConn),
            Some(conn) => Ok(conn.labels()),
        }
    }
}
