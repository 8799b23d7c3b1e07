//! The labels that a clear ran.

ghost use Rattle.std.specs.Prelude.{◌≡◌};
ghost use Rattle.interp_exec.specs.LabelsKept.{AreLabels};

use brigade_ops::PoolId;
use run_model::Payload;

/// The labels that a clear ran, each with its pool, in the run order.
#[derive(Drop)]
pub struct LabelsRun {
    pub(crate) payloads: Vec<(PoolId, Payload)>,

    // Each payload is a label.
    ghost labels: { AreLabels payloads.items },
}

impl LabelsRun {
    pub(crate) fn of(payloads: Vec<(PoolId, Payload)>) -> Self
        requires { AreLabels payloads.items }
        ensures { result.payloads ≡ payloads }
    {
        LabelsRun { payloads }
    }

    /// The labels: each payload is one.
    pub fn as_slice(&self) -> &[(PoolId, Payload)]
        ensures payloads { result.now ≡ self.now.payloads.items }
        ensures labels { AreLabels result.now }
    {
        self.payloads.as_slice()
    }
}
