//! The chain of a host.

ghost use Rattle.std.specs.Prelude.{◌≡◌, true};
ghost use Rattle.life_check.specs.ChainTheorem.{ChainNeverFaults};
ghost use Rattle.filter_chain.specs.Facts.{checked_is_a_fact};

use run_model::Module;

/// The modules of each connection's filters, in their order. Where it is bare it was checked: no run of it answers a fault, and its steps are
/// bare ones (`step_bare` of `module_run`).
#[derive(Drop)]
pub(crate) struct Chain {
    pub(crate) modules: Vec<Module>,
    pub(crate) bare: bool,
    ghost checked: { bare ≡ true → ChainNeverFaults modules.items } by { checked_is_a_fact bare modules.items },
}
