//! Which entries are filed under which selector.

ghost use Rattle.std.specs.Prelude.{◌≡◌, ℕ, List, map, unwrap_or, [], ◌∷◌, ◌++◌, IfOk, OnOk};
ghost use Rattle.std.specs.BTreeMap as btree;
ghost use Rattle.std.specs.Map.{keys_of};
ghost use Rattle.std.specs.List.Sorted.{IsStrictlySortedBy};
ghost use Rattle.std.specs.Ordering.{nat_cmp};
ghost use Rattle.std.specs.Cmp.Lexicographic.{slice_cmp};
ghost use Rattle.list_laws.specs.Lists.{Rises};
ghost use Rattle.wl_match.specs.Postings.{posting_key, posting_of, first_text, ids_under, ids_at};

use sorted_lists::{Keyed, find_by_key};
use std::alloc::Global;
use std::collections::BTreeMap;
use wl_entry::Entry;
use wl_octets::{Memory, Octets, Row, Shared};

/// The ids of the entries that are filed under a selector.
#[derive(Drop, PartialEq)]
pub struct Posting {
    pub selector: Octets,
    pub ids: Row<Octets>,
}

impl Keyed for Posting {
    ghost use Rattle.wl_match.specs.Postings.{posting_key};

    ghost key = { posting_key };

    fn key(&self) -> &[u8] {
        self.selector.as_slice()
    }
}

/// The selector under which an entry is filed, or nothing where it has none.
pub fn filed_under(entry: &Entry) -> &[u8]
    ensures { result.now ≡ first_text entry.now.selectors }
{
    match entry.selectors.as_slice().first() {
        Some(selector) => selector.as_bytes(),
        None => &[],
    }
}

/// Files one more entry.
fn file(
    alloc: Global,
    groups: &mut BTreeMap<Octets, Row<Octets>>,
    entry: &Entry,
) -> Result<(), Memory>
    ensures { OnOk result ((q : List ℕ) → unwrap_or (btree.get (slice_cmp nat_cmp) groups.new q) []
        ≡ unwrap_or (btree.get (slice_cmp nat_cmp) groups.old q) [] ++ ids_under q (entry.now ∷ [])) }
{
    let selector = Octets::from_slice(alloc, filed_under(entry))?;
    let mut ids = groups.remove(&selector).unwrap_or(Row::empty(alloc));
    ids.push(entry.id.copy(alloc)?)?;
    groups.insert(selector, ids)?;
    Ok(())
}

/// The ids of the entries, by the selector under which each is filed.
fn file_all(
    alloc: Global,
    entries: &[Shared<Entry>],
) -> Result<BTreeMap<Octets, Row<Octets>>, Memory>
    ensures { IfOk result
        (λ groups. (q : List ℕ)
        → unwrap_or (btree.get (slice_cmp nat_cmp) groups q) [] ≡ ids_under q entries.now) }
{
    let mut groups = BTreeMap::new(alloc);
    for entry in entries {
        file(alloc, &mut groups, entry.part())?;
    }
    Ok(groups)
}

/// A posting to share: one of these, where it is among them.
fn share_posting(
    alloc: Global,
    fresh: Posting,
    old: &[Shared<Posting>],
) -> Result<Shared<Posting>, Memory>
    requires { Rises (map posting_key old.now) }
    ensures { IfOk result (λ p. p ≡ fresh) }
{
    if let Some(posting) = find_by_key(old, fresh.selector.as_slice()) {
        if *posting.part() == fresh {
            return Ok(posting.share()?);
        }
    }
    Ok(Shared::new(alloc, fresh)?)
}

/// The postings of what is filed, by ascending selector, sharing those of these that did not change.
fn make_postings(
    alloc: Global,
    groups: BTreeMap<Octets, Row<Octets>>,
    old: &[Shared<Posting>],
) -> Result<Vec<Shared<Posting>>, Memory>
    requires { Rises (map posting_key old.now) }
    ensures value { IfOk result (λ postings. postings.items ≡ map posting_of groups.entries) }
    ensures ordered { IsStrictlySortedBy (slice_cmp nat_cmp) (keys_of groups.entries) }
{
    let mut postings = Vec::new(alloc);
    for (selector, ids) in groups {
        postings.push(share_posting(alloc, Posting { selector, ids }, old)?)?;
    }
    Ok(postings)
}

/// The postings of entries, by ascending selector, sharing those of these that did not change.
pub fn post(
    alloc: Global,
    entries: &[Shared<Entry>],
    old: &[Shared<Posting>],
) -> Result<Vec<Shared<Posting>>, Memory>
    requires { Rises (map posting_key old.now) }
    ensures keys { IfOk result (λ postings. Rises (map posting_key postings.items)) }
    ensures filed { IfOk result
        (λ postings. (q : List ℕ) → ids_at postings.items q ≡ ids_under q entries.now) }
{
    let groups = file_all(alloc, entries)?;
    let postings = make_postings(alloc, groups, old)?;
    Ok(postings)
}

/// The ids of the entries that are filed under a selector.
#[tactic(auto, unfolding(crate::specs::Postings::ids_at))]
pub fn ids_at<'a>(postings: &'a [Shared<Posting>], selector: &[u8]) -> &'a [Octets]
    requires { Rises (map posting_key postings.now) }
    ensures { result.now ≡ ids_at postings.now selector.now }
{
    match find_by_key(postings, selector) {
        Some(posting) => posting.part().ids.as_slice(),
        None => &[],
    }
}
