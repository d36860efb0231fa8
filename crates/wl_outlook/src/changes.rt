//! What a document has, and in which of its entries it differs from the one before.

use event_log::DocumentCounts;
use wl_document::AuthorityState;
use wl_entry::Entry;
use wl_octets::Octets;

/// The entry with this id, of entries by ascending id.
fn entry_of<'a>(entries: &'a [Entry], id: &Octets) -> Option<&'a Entry> {
    let at = entries
        .binary_search_by(|entry| entry.id.as_slice().cmp(id.as_slice()))
        .ok()?;
    entries.get(at)
}

/// How many entries aren't in the document before, or other than there.
fn changed(entries: &[Entry], before: &[Entry]) -> u64 {
    let mut count = 0u64;
    for entry in entries {
        let is_same = match entry_of(before, &entry.id) {
            Some(known) => known == entry,
            None => false,
        };
        if !is_same {
            count = count.saturating_add(1);
        }
    }
    count
}

/// How many entries of the document before are gone.
fn removed(entries: &[Entry], before: &[Entry]) -> u64 {
    let mut count = 0u64;
    for entry in before {
        if entry_of(entries, &entry.id).is_none() {
            count = count.saturating_add(1);
        }
    }
    count
}

/// What a document has, after one with these entries.
pub(crate) fn counts_after(state: &AuthorityState, before: &[Entry]) -> DocumentCounts {
    let entries = state.entries.as_slice();
    DocumentCounts {
        entries: entries.len() as u64,
        bundles: state.bundles.len() as u64,
        changed: changed(entries, before),
        removed: removed(entries, before),
    }
}
