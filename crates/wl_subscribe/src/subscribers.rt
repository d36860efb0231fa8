//! Subscribers.

ghost use Rattle.std.specs.Prelude.{◌≡◌, ◌+◌, ℕ, ◌||◌, ◌∷◌, ◌++◌, [], List, Some, filter, IfOk, OnOk, OnErr};
ghost use Rattle.std.specs.List.{list_any};
ghost use Rattle.std.specs.List.Sorted.{IsStrictlySortedBy};
ghost use Rattle.std.specs.Map.{keys_of};
ghost use Rattle.std.specs.BTreeMap.{get};
ghost use Rattle.std.specs.Ordering.{nat_cmp};
ghost use Rattle.wl_entry.specs.Entitled.{is_entitled};
ghost use Rattle.wl_snapshot.specs.Snapshots.{IsPublication};
ghost use Rattle.wl_snapshot.specs.Untouched.{SameBut};
ghost use Rattle.wl_subscribe.specs.Differing.{reasons, all_differ};
ghost use Rattle.wl_subscribe.specs.Filed.{is_hit, AreFiled, IsFiledUnder, IsKept};
ghost use Rattle.wl_subscribe.specs.Subscribed.{members_without};

use crate::differences::{all_differ, differing_ids};
use crate::filing::{Filed, file_all, unfile_all};
use crate::hits::{Hits, Members};
use std::alloc::{AllocFailed, Global};
use std::collections::{BTreeMap, BTreeSet};
use std::marker::Model;
use wl_octets::{Memory, Octets, Row};
use wl_selector::Selectors;
use wl_snapshot::Snapshot;

/// The number of a subscriber. No number is given twice.
#[derive(Clone, Copy, Debug, PartialEq, Eq, PartialOrd, Ord)]
pub struct SubId(u64);

impl Model for SubId {
    ghost use Rattle.std.specs.Prelude.{ℕ};

    ghost Value = { ℕ };

    ghost view = { λ s. s.0 };

    ghost inverse = { λ n. record { 0 = n } };
}

/// Those who want to know when what they see changes. Each is kept by its selectors.
#[derive(Drop)]
pub struct Subscribers {
    alloc: Global,
    next: u64,
    members: Members,
    pub(crate) filed: Filed,
}

impl Model for Subscribers {
    ghost use Rattle.wl_subscribe.specs.Subscribed.{Subscribed};
    ghost use Rattle.wl_subscribe.specs.Filed.{IsKept};

    ghost Value = { Subscribed };

    ghost view = { λ s. record { next = s.next; members = s.members.entries } };

    ghost invariant = { λ s. IsKept s.next s.members s.filed };
}

/// Those who are hit by what differs between two snapshots at these ids and in the bundles.
#[tactic(auto, unfolding(crate::specs::Differing::reasons))]
fn hits_of(
    alloc: Global,
    members: &Members,
    filed: &Filed,
    old: &Snapshot,
    new: &Snapshot,
    ids: &[Octets],
) -> Result<Hits, Memory>
    requires { AreFiled members.now filed.now }
    ensures old { IsPublication old.now }
    ensures new { IsPublication new.now }
    ensures hit { IfOk result (λ hits. (n : ℕ) (selectors : List (List ℕ))
        → get nat_cmp members.now n ≡ Some selectors
        → is_hit hits n ≡ (all_differ old.now new.now
        || list_any (is_entitled selectors) (reasons ids.now old.now new.now))) }
{
    let mut hits = Hits {
        everyone: all_differ(old, new),
        numbers: BTreeSet::new(alloc),
    };
    hits.add_all_differing(members, filed, old, new, ids)?;
    hits.add_federated_anew(members, filed, old, new)?;
    Ok(hits)
}

/// The numbers of the members that are hit.
fn numbers_hit(alloc: Global, members: &Members, hits: &Hits) -> Result<Vec<SubId>, Memory>
    ensures value { IfOk result (λ v. v.items ≡ filter (is_hit hits.now) (keys_of members.now.entries)) }
    ensures rising { IsStrictlySortedBy nat_cmp (keys_of members.now.entries) }
{
    let mut numbers = Vec::new(alloc);
    for number in members.keys() {
        if hits.has(*number) {
            numbers.push(SubId(*number))?;
        }
    }
    Ok(numbers)
}

/// Adds a member that is filed. If memory runs out the members are as they were.
fn insert_member(
    members: &mut Members,
    filed: &mut Filed,
    number: u64,
    selectors: Selectors,
) -> Result<(), Memory>
    requires kept { IsKept number members.old filed.old }
    requires filed { IsFiledUnder filed.old selectors number }
    ensures ok { OnOk result (members.new.entries ≡ members.old.entries ++ (number, selectors) ∷ []) }
    ensures kept { OnOk result (IsKept (number + 1) members.new filed.new) }
    ensures err { OnErr result (members.new.entries ≡ members.old.entries) }
    ensures still { OnErr result (IsKept number members.new filed.new) }
{
    match members.insert(number, selectors) {
        Ok(_) => Ok(()),
        Err(
            AllocFailed {
                value: (_, selectors),
            },
        ) => {
            unfile_all(filed, selectors.as_slice(), number);
            Err(Memory)
        }
    }
}

/// Files and adds a member. If memory runs out the members are as they were.
fn add_member(
    alloc: Global,
    members: &mut Members,
    filed: &mut Filed,
    number: u64,
    selectors: Selectors,
) -> Result<(), Memory>
    requires { IsKept number members.old filed.old }
    ensures ok { OnOk result (members.new.entries ≡ members.old.entries ++ (number, selectors) ∷ []) }
    ensures kept { OnOk result (IsKept (number + 1) members.new filed.new) }
    ensures err { OnErr result (members.new.entries ≡ members.old.entries) }
    ensures still { OnErr result (IsKept number members.new filed.new) }
{
    match file_all(alloc, filed, selectors.as_slice(), number) {
        Ok(()) => insert_member(members, filed, number, selectors),
        Err(Memory) => {
            unfile_all(filed, selectors.as_slice(), number);
            Err(Memory)
        }
    }
}

/// Takes out a member, where it is there.
fn remove_member(members: &mut Members, filed: &mut Filed, number: u64)
    ensures members { members.new.entries ≡ members_without number members.old.entries }
    ensures kept { (next : ℕ) → IsKept next members.old filed.old → IsKept next members.new filed.new }
{
    if let Some(selectors) = members.remove(&number) {
        unfile_all(filed, selectors.as_slice(), number);
    }
}

impl Subscribers {
    ghost use Rattle.wl_subscribe.specs.Subscribed.{nobody, with_member, without_member, affected_numbers};

    /// Nobody is subscribed.
    pub fn start(alloc: Global) -> Subscribers
        ensures { result ≡ nobody }
    {
        Subscribers {
            alloc,
            next: 0,
            members: BTreeMap::new(alloc),
            filed: BTreeMap::new(alloc),
        }
    }

    /// Subscribes a caller with these selectors. If memory runs out nothing changes.
    pub fn join(&mut self, selectors: Selectors) -> Result<SubId, Memory>
        ensures id { IfOk result (λ id. id ≡ self.old.next) }
        ensures ok { IfOk result (λ id. self.new ≡ with_member selectors self.old) }
        ensures err { OnErr result (self.new ≡ self.old) }
    {
        let number = self.next;
        if number == u64::MAX {
            return Err(Memory);
        }
        add_member(
            self.alloc,
            &mut self.members,
            &mut self.filed,
            number,
            selectors,
        )?;
        self.next = number + 1;
        Ok(SubId(number))
    }

    /// Takes out the subscriber of this number, where it is there.
    pub fn leave(&mut self, id: SubId)
        ensures { self.new ≡ without_member id self.old }
    {
        remove_member(&mut self.members, &mut self.filed, id.0);
    }

    /// The numbers, ascending, of exactly the subscribers whose views of the two snapshots differ.
    pub fn affected(
        &self,
        alloc: Global,
        old: &Snapshot,
        new: &Snapshot,
    ) -> Result<Row<SubId>, Memory>
        ensures { IfOk result (λ ids. ids ≡ affected_numbers old.now new.now self.now) }
    {
        let ids = differing_ids(alloc, old, new)?;
        self.affected_at(alloc, old, new, ids.as_slice())
    }

    /// As `affected`, where it is known that entries and SVIDs differ at no other entry ids than these: only these
    /// are looked at, and the bundles.
    pub fn affected_at(
        &self,
        alloc: Global,
        old: &Snapshot,
        new: &Snapshot,
        ids: &[Octets],
    ) -> Result<Row<SubId>, Memory>
        requires { SameBut ids.now old.now new.now }
        ensures { IfOk result (λ ids. ids ≡ affected_numbers old.now new.now self.now) }
    {
        let hits = hits_of(alloc, &self.members, &self.filed, old, new, ids)?;
        Ok(Row::from_vec(numbers_hit(alloc, &self.members, &hits)?))
    }
}
