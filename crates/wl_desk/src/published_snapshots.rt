//! What is published, as readers get it.

ghost use Rattle.std.specs.Prelude.{◌≡◌, IfOk};
ghost use Rattle.wl_store.specs.Steps.{news};
ghost use Rattle.wl_publish.specs.Lists.{IsVouched};

use std::alloc::Global;
use wl_entry::Voucher;
use wl_manager::{Manager, Prepared};
use wl_octets::Memory;
use wl_publish::PublishedSnapshot;

/// The last publication of a manager with the index of its entries, for a publisher to start with.
pub fn last_snapshot<V: Voucher>(
    alloc: Global,
    manager: &Manager<V>,
) -> Result<PublishedSnapshot, Memory>
    ensures value { IfOk result (λ published_snapshot. published_snapshot ≡ manager.now.stored.published) }
    ensures vouched { IfOk result (IsVouched V.signed) }
{
    let snapshot = manager.snapshot().share()?;
    let index = manager.index().share()?;
    let published_snapshot = PublishedSnapshot::new(alloc, snapshot, index)?;
    Ok(published_snapshot)
}

/// The new publication of a step with the index of its entries, where there is one.
pub(crate) fn published_snapshot_of<V: Voucher>(
    alloc: Global,
    prepared: &Prepared<V>,
) -> Result<Option<PublishedSnapshot>, Memory>
    ensures value { IfOk result
        (λ published_snapshot. published_snapshot ≡ news prepared.now.step.answer.change prepared.now.step.next.published) }
    ensures vouched { IsVouched V.signed prepared.now.step.next.published }
{
    match prepared.snapshot() {
        None => Ok(None),
        Some(snapshot) => {
            let snapshot = snapshot.share()?;
            let index = prepared.step.next.index().share()?;
            let published_snapshot = PublishedSnapshot::new(alloc, snapshot, index)?;
            Ok(Some(published_snapshot))
        }
    }
}
