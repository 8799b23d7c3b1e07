//! The handlers `open` and `init` of all filters.

ghost use Rattle.std.specs.Prelude.{◌≡◌, ◌<◌, ◌+◌, length};
ghost use Rattle.module_run.specs.CalledFirst.{CalledFirst, CallStarts};

use crate::conn::{Conn, Filter};
use brigade_ops::BrigadeId;
use run_model::Module;

impl Filter {
    /// A call of this name begins, at this instruction.
    pub(crate) fn start(&mut self, name: BrigadeId, pc: usize)
        ensures { CallStarts name pc self.old self.new }
    {
        self.call.start(name, pc);
    }
}

impl Conn {
    /// `open` of the first filter begins, or `init` where a request is open. The call has this name, and those of the other filters are to
    /// come.
    #[tactic(auto, unfolding(crate::specs::Conns::filter_at), using(crate::proofs::FirstStacked::left_called))]
    pub(crate) fn call_first(&mut self, modules: &[Module], name: BrigadeId)
        requires some { 0 < length modules.now }
        requires many { length self.old.filters.items ≡ length modules.now + 1 }
        ensures { CalledFirst modules.now name self.old self.new }
    {
        let pc = match self.req {
            None => 0,
            Some(_) => modules[0].init(),
        };
        self.filters[0].start(name, pc);
        self.first = 0;
        self.top = 0;
        self.queue = 1;
        self.busy = true;
        self.count = 0;
    }
}
