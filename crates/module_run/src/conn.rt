//! A connection: a filter for each module of its chain, and the calls that run.

use brigade_ops::{BrigadeId, FileNo, PoolId};
use interp_calls::OutputBlock;
use interp_exec::labels_run::LabelsRun;
use interp_state::machine::{Call, Instance};
use run_model::Cause;
use std::alloc::Global;

/// A filter of a connection: its instance and its call. While the call waits for a pass to return, `lent` is the brigade variable that
/// was passed.
#[derive(Drop)]
pub struct Filter {
    pub(crate) instance: Instance,
    pub(crate) call: Call,
    pub(crate) lent: Option<u8>,
}

/// A file that was opened in the request, and its length in bytes then.
#[derive(Clone, Copy)]
pub struct OpenFile {
    pub(crate) number: FileNo,
    pub(crate) len: u64,
}

/// A connection. It has a filter for each module of its chain, and behind them one for the output, which has no module: a call of it takes a
/// brigade that is brought where all others have left. The call of the filter `top` runs. `callers` are the filters whose calls wait, the outermost first, each for that of the next
/// one, and the last one for that of `top`; `waits` are the names of their calls. `first` is the filter of the outermost call. `busy` tells whether any call runs. `queue` is the next filter
/// whose `open` or `init` is to run; where none is, it is the number of modules. `conn` is the connection's pool, and `req` that of the
/// open request. `labels` has a list for each clear that ran labels, the oldest first. `files` are those of the request. `out` is the output that was not
/// taken yet, and `ended` tells whether an EOS came to it in this request. `count` is the number of instructions that were executed since
/// the last open, begin or bring. `broken` is why the connection broke.
#[derive(Drop)]
pub struct Conn {
    pub(crate) alloc: Global,
    pub(crate) filters: Vec<Filter>,
    pub(crate) first: usize,
    pub(crate) top: usize,
    pub(crate) callers: Vec<usize>,
    pub(crate) waits: Vec<BrigadeId>,
    pub(crate) busy: bool,
    pub(crate) queue: usize,
    pub(crate) conn: PoolId,
    pub(crate) req: Option<PoolId>,
    pub(crate) labels: Vec<LabelsRun>,
    pub(crate) files: Vec<OpenFile>,
    pub(crate) out: OutputBlock,
    pub(crate) ended: bool,
    pub(crate) count: u64,
    pub(crate) broken: Option<Cause>,
}

impl Conn {
    ghost use Rattle.std.specs.Prelude.{◌≡◌};
    ghost use Rattle.module_run.specs.Conns.{top_of};

    /// The filter whose call is on top.
    pub(crate) fn top(&self) -> usize
        ensures { result ≡ top_of self.now }
    {
        self.top
    }
}
