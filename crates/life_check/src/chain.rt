//! Chains of modules that are checked.

ghost use Rattle.std.specs.Prelude.{◌≡◌, ◌<◌, ◌≤◌, length, All, IfOk, IfErr, OnOk};
ghost use Rattle.model_laws.specs.OpenRuns.{InstancesAreSafe};
ghost use Rattle.life_check.specs.Accepted.{modules_of, IsAccepted, IsChainRefusal, IsChecked};
ghost use Rattle.life_check.specs.ChainTheorem.{ChainNeverFaults};

use crate::cert::Cert;
use crate::checked::check_all;
use crate::refusal::ChainRefusal;
use module_code::Module;
use std::alloc::{AllocError, Global};
use std::marker::Model;

/// A chain of 1 to 16 modules that were accepted, in their order. No run of any number of its connections answers a fault.
#[derive(Drop)]
pub struct CheckedChain {
    modules: Vec<Module>,
}

impl Model for CheckedChain {
    ghost use Rattle.std.specs.Prelude.{List};
    ghost use Rattle.module_code.specs.Program.{Program};
    ghost use Rattle.life_check.specs.Accepted.{IsCheckedChain};

    ghost Value = { List Program };

    ghost view = { λ c. c.modules.items };

    ghost invariant = { λ c. IsCheckedChain c.modules.items };
}

impl CheckedChain {
    ghost use Rattle.life_check.specs.Accepted.{IsCheckedChain};

    /// The modules, in their order.
    pub fn modules(&self) -> &[Module]
        ensures value { result.now ≡ self.now }
        ensures checked { IsCheckedChain self.now }
        ensures safe { ChainNeverFaults self.now }
    {
        self.modules.as_slice()
    }

    /// The modules, in their order.
    pub fn into_modules(self) -> Vec<Module>
        ensures value { result.items ≡ self }
        ensures checked { IsCheckedChain self }
        ensures safe { ChainNeverFaults self }
    {
        self.modules
    }
}

fn check_parts(parts: &[(Module, Cert)]) -> Result<(), ChainRefusal>
    ensures checked { OnOk result (All IsChecked parts.now) }
    ensures refused { IfErr result (IsChainRefusal parts.now) }
{
    for (index, part) in parts.iter().enumerate() {
        match check_all(&part.0, &part.1) {
            Ok(()) => {}
            Err(refusal) => return Err(ChainRefusal::At { index, refusal }),
        }
    }
    Ok(())
}

fn modules_of(alloc: Global, parts: Vec<(Module, Cert)>) -> Result<Vec<Module>, AllocError>
    ensures { IfOk result (λ v. v.items ≡ modules_of parts.items) }
{
    let mut modules = Vec::new(alloc);
    for (module, _cert) in parts {
        modules.push(module)?;
    }
    Ok(modules)
}

/// Checks a chain of 1 to 16 modules, each with its certificate: Ok exactly where `check` accepts each of them, and then with these
/// modules in their order. Else `At` has the first that `check` refuses, with its refusal. `NoMemory` comes only where the list of the
/// modules cannot be held, and then all are accepted. No run of any number of connections of a chain that is accepted answers a fault.
/// Each of its modules is safe by itself, too: none of its instances has a fault, whatever filters stand before and behind.
pub fn accept_chain(alloc: Global, parts: Vec<(Module, Cert)>) -> Result<CheckedChain, ChainRefusal>
    requires some { 0 < length parts.items }
    requires few { length parts.items ≤ 16 }
    ensures chain { IfOk result (λ c. c ≡ modules_of parts.items) }
    ensures accepts { OnOk result (All IsAccepted parts.items) }
    ensures refused { IfErr result (IsChainRefusal parts.items) }
    ensures safe { IfOk result (λ c. ChainNeverFaults c) }
    ensures instances { IfOk result (λ c. All InstancesAreSafe c) }
{
    check_parts(parts.as_slice())?;
    let modules = modules_of(alloc, parts)?;
    Ok(CheckedChain { modules })
}
