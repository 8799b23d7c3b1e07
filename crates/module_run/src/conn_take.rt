//! What a connection has given out: output and labels.

ghost use Rattle.std.specs.Prelude.{◌≡◌, [], ℕ, Option, List};
ghost use Rattle.module_run.specs.Prelude.{BucketId, Program, Pools, Items, conn_of, labels_handed, StackedOver};

use crate::conn::Conn;
use brigade_ops::PoolId;
use byte_text::BlockBytes;
use interp_calls::OutputBlock;
use interp_exec::labels_run::LabelsRun;
use run_model::Payload;
use std::mem;

impl Conn {
    /// The output since it was emptied last. It takes no memory, and serves in any state.
    #[tactic(auto, unfolding(crate::specs::Conns::conn_of))]
    pub fn output(&self) -> &[u8]
        ensures { (ps : Pools Payload) (rings : ℕ → Option Items) (opened : ℕ → Option (List ℕ)) → result.now ≡ (conn_of ps rings opened self.now).out.bytes }
    {
        self.out.as_slice()
    }

    /// Empties the output, and keeps its room. It takes no memory, and serves in any state.
    #[tactic(auto, unfolding(crate::specs::Conns::conn_of, crate::specs::Conns::filter_at))]
    pub fn clear_output(&mut self)
        ensures cleared { (ps : Pools Payload) (rings : ℕ → Option Items) (opened : ℕ → Option (List ℕ)) → let c = conn_of ps rings opened self.old in
            conn_of ps rings opened self.new ≡ record c { out = record c.out { bytes = [] } } }
        ensures stacked { (chain : List Program) (at : BucketId → Option ℕ) (rings : ℕ → Option Items) (pools : ℕ → Option ℕ) (next : ℕ)
            → StackedOver chain at rings pools next self.old → StackedOver chain at rings pools next self.new }
        ensures filters { self.new.filters ≡ self.old.filters }
    {
        self.out.clear();
    }

    /// The output since it was emptied last. Output goes into the block `room` from now on, over what stands there. It takes no memory, and
    /// serves in any state.
    #[tactic(auto, using(crate::proofs::Alongside::stacked_beside, crate::proofs::RequestEnds::request_left_as), unfolding(crate::specs::Conns::conn_of, crate::specs::Conns::filter_at))]
    pub fn take_output(&mut self, room: BlockBytes) -> BlockBytes
        ensures bytes { (ps : Pools Payload) (rings : ℕ → Option Items) (opened : ℕ → Option (List ℕ)) → result ≡ (conn_of ps rings opened self.old).out.bytes }
        ensures taken { (ps : Pools Payload) (rings : ℕ → Option Items) (opened : ℕ → Option (List ℕ)) → let c = conn_of ps rings opened self.old in
            conn_of ps rings opened self.new ≡ record c { out = record c.out { bytes = [] } } }
        ensures stacked { (chain : List Program) (at : BucketId → Option ℕ) (rings : ℕ → Option Items) (pools : ℕ → Option ℕ) (next : ℕ)
            → StackedOver chain at rings pools next self.old → StackedOver chain at rings pools next self.new }
        ensures filters { self.new.filters ≡ self.old.filters }
    {
        mem::replace(&mut self.out, OutputBlock::over(room)).into_bytes()
    }

    /// The labels that ran, each with its pool, in a list for each clear or end of a pool that ran any, the oldest first. It takes no memory,
    /// and serves in any state.
    #[tactic(auto, unfolding(crate::specs::Conns::conn_of))]
    pub fn labels(&self) -> &[LabelsRun]
        ensures { (ps : Pools Payload) (rings : ℕ → Option Items) (opened : ℕ → Option (List ℕ)) → labels_handed result.now ≡ (conn_of ps rings opened self.now).labels }
    {
        self.labels.as_slice()
    }

    /// The labels that ran, as `labels` has them.
    pub fn into_labels(self) -> Vec<LabelsRun>
        ensures { result ≡ self.labels }
    {
        self.labels
    }

    /// The connection's pool.
    pub fn pool(&self) -> PoolId
        ensures { result ≡ self.now.conn }
    {
        self.conn
    }
}
