//! What a step reads of its connection, beside the pools.

use brigade_ops::{BrigadeId, PoolId};

/// Which pools are the connection's and the open request's, the names of the calls that wait for a pass to return, and the brigades at
/// which a clear looks: those of the connection, in all its filters, and the loose buckets of all its calls. Where nothing is cleared there
/// need be none.
#[derive(Clone, Copy)]
pub struct Context<'a> {
    pub conn: PoolId,
    pub req: Option<PoolId>,
    pub waits: &'a [BrigadeId],
    pub rings: &'a [BrigadeId],
}
