//! The brigades of a connection.

ghost use Rattle.std.specs.Prelude.{◌≡◌, ◌⊎◌, ℕ, true, false, Some, IsOk, IfOk, OnOk, OnErr};
ghost use Rattle.run_model.specs.Pools.{is_in};
ghost use Rattle.interp_exec.specs.Apart.{clears_pool};
ghost use Rattle.module_run.specs.declared.conn.Filter.{Filter};

use crate::conn::{Conn, Filter};
use brigade_ops::BrigadeId;
use run_model::Instr;
use std::alloc::AllocError;

impl Filter {
    ghost use Rattle.module_run.specs.Stacked.{named_at};

    /// Adds the brigades of its variables, and the loose buckets of its call.
    fn add_rings(&self, rings: &mut Vec<BrigadeId>) -> Result<(), AllocError>
        ensures kept { (n : ℕ) → is_in n rings.old.items ≡ true → is_in n rings.new.items ≡ true }
        ensures named { OnOk result ((b n : ℕ) → named_at self.now b ≡ Some n → is_in n rings.new.items ≡ true) }
        ensures loose { OnOk result (is_in self.now.call.name rings.new.items ≡ true) }
        ensures only { OnOk result ((n : ℕ) → is_in n rings.new.items ≡ true → (is_in n rings.old.items ≡ true) ⊎ ((self.now.call.name ≡ n) ⊎ ((b : ℕ) × (named_at self.now b ≡ Some n)))) }
    {
        rings.push(self.call.name)?;
        self.instance.add_brigades(rings)
    }
}

impl Conn {
    ghost use Rattle.module_run.specs.Conns.{filter_at};
    ghost use Rattle.module_run.specs.Neighbours.{HoldsName};
    ghost use Rattle.module_run.specs.Stacked.{named_at};

    /// The brigades that variables of its filters name, and the loose buckets of all its calls: those at which a clear looks.
    pub(crate) fn rings(&self) -> Result<Vec<BrigadeId>, AllocError>
        ensures named { IfOk result (λ rings. (k b n : ℕ) (f : Filter) → filter_at self.now k ≡ Some f → named_at f b ≡ Some n → is_in n rings.items ≡ true) }
        ensures loose { IfOk result (λ rings. (k : ℕ) (f : Filter) → filter_at self.now k ≡ Some f → is_in f.call.name rings.items ≡ true) }
        ensures only { IfOk result (λ rings. (n : ℕ) → is_in n rings.items ≡ true → HoldsName self.now n) }
    {
        let mut rings = Vec::new(self.alloc);
        for filter in &self.filters {
            filter.add_rings(&mut rings)?;
        }
        Ok(rings)
    }

    /// The brigades at which an instruction looks beside those of its filter: where it clears a pool, all of the connection.
    pub(crate) fn looked_at(&self, instr: Instr) -> Result<Vec<BrigadeId>, AllocError>
        ensures named { IfOk result (λ rings. clears_pool instr ≡ true → (k b n : ℕ) (f : Filter) → filter_at self.now k ≡ Some f → named_at f b ≡ Some n → is_in n rings.items ≡ true) }
        ensures loose { IfOk result (λ rings. clears_pool instr ≡ true → (k : ℕ) (f : Filter) → filter_at self.now k ≡ Some f → is_in f.call.name rings.items ≡ true) }
        ensures only { IfOk result (λ rings. (n : ℕ) → is_in n rings.items ≡ true → HoldsName self.now n) }
        ensures sure { clears_pool instr ≡ false → IsOk result }
    {
        match instr {
            Instr::PClear(_) | Instr::PDestroy(_) => self.rings(),
            _ => Ok(Vec::new(self.alloc)),
        }
    }
}
