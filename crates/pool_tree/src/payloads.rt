//! Changes of the payloads of one pool.

ghost use Rattle.std.specs.Prelude.{◌≡◌, ◌<◌, ℕ, length, slice_index_or, remove, is_some, true, [], ◌∷◌, ◌++◌, is_ok, if◌then◌else◌, IfErr, MatchOption, false};
ghost use Rattle.std.specs.List.{list_any};
ghost use Rattle.pool_tree.specs.Prelude.{last_that, without_last, IsLastAt, record_of, payloads_of, IsRefilled, with_one, with_plain};

use crate::records::Records;
use run_model::CleanupKind;
use std::alloc::AllocFailed;

/// Adds a payload to those of a pool, as the newest of its kind. Without memory it is given back and nothing is changed.
#[tactic(auto, unfolding(crate::specs::Records::record_of))]
pub(crate) fn push<T: Drop>(
    records: &mut Records<T>,
    kind: CleanupKind,
    name: u64,
    item: T,
) -> Result<(), AllocFailed<T>>
    requires { is_some (record_of records.old name) ≡ true }
    ensures items { IsRefilled name (if is_ok result then with_one kind item (payloads_of (record_of records.old) name) else payloads_of (record_of records.old) name) (record_of records.old) (record_of records.new) }
    ensures back { IfErr result (λ failed. failed.value ≡ item) }
{
    match records.by_name.get_mut(&name) {
        Some(pool) => match kind {
            CleanupKind::Pre => pool.pre.push(item),
            CleanupKind::Plain => pool.plain.push(item),
        },
        None => unreachable!(),
    }
}

/// Takes out the plain payload of a pool at an index.
#[tactic(auto, unfolding(crate::specs::Records::record_of))]
pub(crate) fn take_at<T: Drop>(records: &mut Records<T>, name: u64, index: usize) -> T
    requires live { is_some (record_of records.old name) ≡ true }
    requires within { index < length (payloads_of (record_of records.old) name).plain }
    ensures taken { result ≡ slice_index_or (payloads_of (record_of records.old) name).plain index result }
    ensures rest { IsRefilled name (with_plain (λ items. remove items index) (payloads_of (record_of records.old) name)) (record_of records.old) (record_of records.new) }
{
    match records.by_name.get_mut(&name) {
        Some(pool) => pool.plain.remove(index),
        None => unreachable!(),
    }
}

/// The index of the last item that equals this one.
fn newest_equal<T: PartialEq>(items: &[T], item: &T) -> Option<usize>
    ensures { MatchOption result (list_any (λ other. T.eq other item.now) items.now ≡ false) (IsLastAt (λ other. T.eq other item.now) items.now) }
{
    for index in (0..items.len()).rev() {
        if items[index] == *item {
            return Some(index);
        }
    }
    None
}

/// Takes out the last item that equals this one.
fn take_last_equal<T: PartialEq>(items: &mut Vec<T>, item: &T) -> Option<T>
    ensures taken { result ≡ last_that (λ other. T.eq other item.now) items.old.items }
    ensures rest { items.new.items ≡ without_last (λ other. T.eq other item.now) items.old.items }
{
    match newest_equal(items.as_slice(), item) {
        Some(index) => Some(items.remove(index)),
        None => None,
    }
}

/// Takes out the newest plain payload of a pool that equals this one.
#[tactic(auto, unfolding(crate::specs::Records::record_of))]
pub(crate) fn take_newest_equal<T: Drop + PartialEq>(
    records: &mut Records<T>,
    name: u64,
    item: &T,
) -> Option<T>
    requires { is_some (record_of records.old name) ≡ true }
    ensures taken { result ≡ last_that (λ other. T.eq other item.now) (payloads_of (record_of records.old) name).plain }
    ensures rest { IsRefilled name (with_plain (without_last (λ other. T.eq other item.now)) (payloads_of (record_of records.old) name)) (record_of records.old) (record_of records.new) }
{
    match records.by_name.get_mut(&name) {
        Some(pool) => take_last_equal(&mut pool.plain, item),
        None => unreachable!(),
    }
}
