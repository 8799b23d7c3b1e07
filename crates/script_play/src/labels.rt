//! The labels that pools ran.

ghost use Rattle.std.specs.Prelude.{◌≡◌, ℕ, ◌++◌, ◌∷◌, [], true, IfOk, OnOk};
ghost use Rattle.run_model.specs.Payloads.{labels_in};
ghost use Rattle.interp_exec.specs.LabelsKept.{is_run, AreLabels};
ghost use Rattle.module_run.specs.Conns.{labels_handed};

use filter_chain::LabelsRun;
use pool_tree::PoolId;
use run_model::{Payload, Seq};
use script_text::copied;
use std::alloc::{AllocError, Global};

/// Adds the text of a label.
fn push_label(alloc: Global, labels: &mut Seq<Seq<u8>>, payload: &Payload) -> Result<(), AllocError>
    requires { is_run payload.now ≡ true }
    ensures { OnOk result ((pool : ℕ) → labels.new ≡ labels.old ++ labels_in ((pool, payload.now) ∷ [])) }
{
    match payload {
        Payload::Label(text) => labels.push(copied(alloc, text.as_slice())?),
        Payload::FileRef(_) | Payload::Brigade(_) => unreachable!(),
    }
}

/// Adds the labels that one clear ran.
fn push_labels(
    alloc: Global,
    labels: &mut Seq<Seq<u8>>,
    handed: &[(PoolId, Payload)],
) -> Result<(), AllocError>
    requires { AreLabels handed.now }
    ensures { OnOk result (labels.new ≡ labels.old ++ labels_in handed.now) }
{
    for pair in handed {
        push_label(alloc, labels, &pair.1)?;
    }
    Ok(())
}

/// The texts of the labels that clears ran.
pub fn labels_of(alloc: Global, runs: &[LabelsRun]) -> Result<Seq<Seq<u8>>, AllocError>
    ensures { IfOk result (λ labels. labels ≡ labels_handed runs.now) }
{
    let mut labels = Seq::new(alloc);
    for handed in runs {
        push_labels(alloc, &mut labels, handed.as_slice())?;
    }
    Ok(labels)
}
