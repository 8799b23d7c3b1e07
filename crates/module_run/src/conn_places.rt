//! Where in its chain a brigade of a connection goes.

ghost use Rattle.std.specs.Prelude.{◌≡◌, ◌<◌, ◌+◌, ℕ, Option, length};
ghost use Rattle.module_run.specs.Prelude.{Items, place_in, top_of};

use crate::conn::Conn;
use run_model::Module;

impl Conn {
    /// Where a brigade goes that is to come to the place `from` or one behind it: to the first filter there that has not left, else to the
    /// output filter, whose place is behind the last module.
    pub(crate) fn place_from(&self, modules: &[Module], from: usize) -> usize
        requires many { length self.now.filters.items ≡ length modules.now + 1 }
        ensures { (rings : ℕ → Option Items) → result ≡ place_in modules.now rings self.now from }
    {
        let many = modules.len();
        for k in from..many {
            if !self.filters[k].instance.left {
                return k;
            }
        }
        from.max(many)
    }

    /// Where a brigade goes that the filter on top passes.
    pub(crate) fn next_place(&self, modules: &[Module]) -> usize
        requires many { length self.now.filters.items ≡ length modules.now + 1 }
        requires within { top_of self.now < length self.now.filters.items }
        ensures { (rings : ℕ → Option Items) → result ≡ place_in modules.now rings self.now (top_of self.now + 1) }
    {
        self.place_from(modules, self.top() + 1)
    }
}
