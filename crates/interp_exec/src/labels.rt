//! Labels among payloads.

ghost use Rattle.std.specs.Prelude.{◌≡◌, ◌<◌, ◌++◌, [], false, filter, MatchOption, vec_len, vec_capacity};
ghost use Rattle.std.specs.List.{list_any};
ghost use Rattle.interp_exec.specs.Prelude.{is_label, labels_in, IsLastAt, labels_handed, is_run, AreLabels};

use crate::labels_run::LabelsRun;
use brigade_ops::PoolId;
use run_model::Payload;

fn is_label(payload: &Payload, text: &[u8]) -> bool
    ensures { result ≡ is_label text.now payload.now }
{
    match payload {
        Payload::Label(other) => other.as_slice() == text,
        Payload::FileRef(_) | Payload::Brigade(_) => false,
    }
}

/// The index of the last payload that is the label of this text.
pub(crate) fn newest_label(payloads: &[Payload], text: &[u8]) -> Option<usize>
    ensures { MatchOption result (list_any (is_label text.now) payloads.now ≡ false) (IsLastAt (is_label text.now) payloads.now) }
{
    for index in (0..payloads.len()).rev() {
        if is_label(&payloads[index], text) {
            return Some(index);
        }
    }
    None
}

/// Whether a payload is a label, which ran.
fn is_run(payload: &Payload) -> bool
    ensures { result ≡ is_run payload.now }
{
    match payload {
        Payload::Label(_) => true,
        Payload::FileRef(_) | Payload::Brigade(_) => false,
    }
}

/// Leaves the labels alone, in their order. It takes no memory.
fn keep_labels(ran: &mut Vec<(PoolId, Payload)>)
    ensures kept { ran.new.items ≡ filter (λ x. is_run x.1) ran.old.items }
    ensures labels { AreLabels ran.new.items }
{
    ran.retain(|entry| is_run(&entry.1));
}

/// Adds the labels among what a clear handed on, where there is room. Where there are none, nothing is added.
pub fn add_labels(handed: &mut Vec<LabelsRun>, ran: Vec<(PoolId, Payload)>)
    requires { vec_len handed.old < vec_capacity handed.old }
    ensures told { labels_handed handed.new.items ≡ labels_handed handed.old.items ++ labels_in ran.items }
    ensures none { labels_in ran.items ≡ [] → handed.new.items ≡ handed.old.items }
{
    let mut kept = ran;
    keep_labels(&mut kept);
    if kept.is_empty() {
        return;
    }
    let run = LabelsRun::of(kept);
    handed.push(run).unwrap();
}
