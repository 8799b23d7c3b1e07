//! The names of faults and of rules, as they are printed.

ghost use Rattle.std.specs.Prelude.{◌≡◌};
ghost use Rattle.script_text.specs.Names.{fault_name, fault_named};
ghost use Rattle.script_text.specs.Refusals.{rule_name};

use life_check::Rule;
use run_model::FaultKind;

/// The name of a fault, as `F7`.
pub fn fault_name(kind: FaultKind) -> &'static str
    ensures { result.now ≡ fault_name kind }
{
    match kind {
        FaultKind::F1 => "F1",
        FaultKind::F2 => "F2",
        FaultKind::F3 => "F3",
        FaultKind::F4 => "F4",
        FaultKind::F5 => "F5",
        FaultKind::F6 => "F6",
        FaultKind::F7 => "F7",
        FaultKind::F8 => "F8",
        FaultKind::F9 => "F9",
        FaultKind::F10 => "F10",
    }
}

const FAULTS: [FaultKind; 10] = [
    FaultKind::F1,
    FaultKind::F2,
    FaultKind::F3,
    FaultKind::F4,
    FaultKind::F5,
    FaultKind::F6,
    FaultKind::F7,
    FaultKind::F8,
    FaultKind::F9,
    FaultKind::F10,
];

/// The fault of this name, if it is one.
#[tactic(auto, unfolding(crate::specs::Names::fault_named))]
pub fn fault_named(name: &[u8]) -> Option<FaultKind>
    ensures { result ≡ fault_named name.now }
{
    FAULTS
        .iter()
        .copied()
        .find(|kind| fault_name(*kind).as_bytes() == name)
}

/// The word of a rule that a certificate fails, as `flow`; of a fault that may come its name.
pub fn rule_name(rule: Rule) -> &'static str
    ensures { result.now ≡ rule_name rule }
{
    match rule {
        Rule::Shape => "shape",
        Rule::Entry => "entry",
        Rule::May(kind) => fault_name(kind),
        Rule::Flow => "flow",
        Rule::Exit => "exit",
        Rule::Request => "request",
    }
}
