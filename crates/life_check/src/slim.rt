//! Which instructions a slim certificate gives states for.

ghost use Rattle.std.specs.Prelude.{◌≡◌, ◌<◌, ◌≤◌, ℕ, true, false, length, slice_index_or};
ghost use Rattle.run_model.specs.Indexed.{upd};
ghost use Rattle.life_check.specs.Slim.{is_first, AreLeaders};

use module_code::Module;

fn mark(leaders: &mut [bool; 1025], pc: usize)
    requires { pc < 1025 }
    ensures { (λ k. slice_index_or leaders.new k false) ≡ upd (λ k. slice_index_or leaders.old k false) pc true }
{
    leaders[pc] = true;
}

/// The first instruction of each handler.
fn firsts(code: &Module) -> [bool; 1025]
    requires { length code.now.code ≤ 1024 }
    ensures { (pc : ℕ) → pc < 1025 → slice_index_or result pc false ≡ is_first code.now pc }
{
    let mut leaders = [false; 1025];
    mark(&mut leaders, code.main());
    mark(&mut leaders, code.init());
    mark(&mut leaders, 0);
    leaders
}

/// Which instructions are heads: the first of each handler, and each that some instruction names as its target.
pub fn leaders(code: &Module) -> [bool; 1025]
    ensures { AreLeaders code.now result }
{
    let count = code.len();
    let mut leaders = firsts(code);
    for pc in 0..count {
        mark(&mut leaders, code.at(pc).target());
    }
    leaders
}
