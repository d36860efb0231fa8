//! The publication of a document alone.

ghost use Rattle.std.specs.Prelude.{◌≡◌, ◌++◌, List, map, is_none, IfOk, OnOk};
ghost use Rattle.std.specs.List.{flat_map};
ghost use Rattle.list_laws.specs.Lists.{Rises};
ghost use Rattle.wl_entry.specs.Keys.{entry_key};
ghost use Rattle.wl_agent.specs.Kept.{is_fit, kept_of, kept_in, publication_of};

use sorted_blocks::SortedBlocks;
use sorted_lists::find_by_key;
use std::alloc::Global;
use wl_document::{AuthorityState, DocSvid};
use wl_entry::{Entry, Signed, Svid};
use wl_octets::{Memory, Row, Shared};
use wl_snapshot::Snapshot;

/// Whether an identity is fit at its own first second.
fn fits(signed: &Signed) -> bool
    ensures { result ≡ is_fit signed.now }
{
    signed.unfit(signed.not_before).is_none()
}

/// Keeps a signed identity, where its entry is there and it is fit.
#[tactic(auto, unfolding(crate::specs::Kept::kept_of))]
fn keep(
    alloc: Global,
    entries: &[Entry],
    given: DocSvid,
    kept: &mut Row<Shared<Svid>>,
) -> Result<(), Memory>
    requires { Rises (map entry_key entries.now) }
    ensures { OnOk result (kept.new ≡ kept.old ++ kept_of entries.now given) }
{
    let DocSvid { entry_id, signed } = given;
    match find_by_key(entries, entry_id.as_slice()) {
        Some(entry) if fits(&signed) => {
            let ask = entry.ask(alloc)?;
            Ok(kept.push(Shared::new(alloc, Svid { ask, signed })?)?)
        }
        _ => Ok(()),
    }
}

/// The SVIDs that are kept.
#[tactic(auto, unfolding(crate::specs::Kept::kept_in))]
fn keep_all(
    alloc: Global,
    entries: &[Entry],
    given: Row<DocSvid>,
) -> Result<Row<Shared<Svid>>, Memory>
    requires { Rises (map entry_key entries.now) }
    ensures { IfOk result (λ r. r ≡ kept_in entries.now given) }
{
    let mut kept = Row::empty(alloc);
    for one in given.into_vec() {
        keep(alloc, entries, one, &mut kept)?;
    }
    Ok(kept)
}

/// The SVIDs that are kept, as a publication has them.
fn keep_in_blocks(
    alloc: Global,
    entries: &[Entry],
    given: Row<DocSvid>,
) -> Result<SortedBlocks<Svid>, Memory>
    requires { Rises (map entry_key entries.now) }
    ensures { IfOk result (λ b. b ≡ kept_in entries.now given) }
{
    let kept = keep_all(alloc, entries, given)?;
    SortedBlocks::of(alloc, kept.as_slice())
}

/// The same items, as parts that can be shared.
fn share_all<T: Drop>(alloc: Global, items: Row<T>) -> Result<Row<Shared<T>>, Memory>
    ensures { IfOk result (λ r. r ≡ items) }
{
    let mut shared = Row::empty(alloc);
    for item in items.into_vec() {
        shared.push(Shared::new(alloc, item)?)?;
    }
    Ok(shared)
}

/// The same items, as parts that can be shared, in a list that can be shared.
fn share_list<T: Drop>(alloc: Global, items: Row<T>) -> Result<Shared<Row<Shared<T>>>, Memory>
    ensures { IfOk result (λ r. r ≡ items) }
{
    let parts = share_all(alloc, items)?;
    Ok(Shared::new(alloc, parts)?)
}

/// Publication 0 of a document, with those of its signed identities whose entry is there and which are fit.
#[tactic(auto, unfolding(crate::specs::Kept::publication_of))]
pub(crate) fn publication(alloc: Global, state: AuthorityState) -> Result<Snapshot, Memory>
    ensures { IfOk result (λ s. s ≡ publication_of state) }
{
    let AuthorityState {
        domain,
        bundles,
        entries,
        svids,
        renew_before: _,
    } = state;
    let svids = keep_in_blocks(alloc, entries.as_slice(), svids)?;
    let entries = share_list(alloc, entries)?;
    let bundles = share_list(alloc, bundles)?;
    Ok(Snapshot {
        number: 0,
        domain,
        entries,
        svids,
        bundles,
    })
}
