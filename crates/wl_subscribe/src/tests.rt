//! Who is affected by publications of one entry.

ghost use Rattle.std.specs.Prelude.{◌≡◌, ◌∷◌, [], true, IfOk};
ghost use Rattle.wl_entry.specs.Asks.{ask_of};
ghost use Rattle.wl_entry.specs.Limits.{EntryWithin, SignedWithin, BundleWithin};

use crate::differences::differing_ids;
use crate::filing::numbers_at;
use crate::{SubId, Subscribers};
use sorted_blocks::SortedBlocks;
use spiffe_id::{SpiffeId, TrustDomain};
use std::alloc::{AllocGlobal, Global};
use std::test::Fail;
use wl_entry::limits::{
    MAX_DNS_NAMES, MAX_FEDERATED, MAX_HINT_LEN, MAX_ID_LEN, MAX_PART_LEN, MAX_SELECTORS,
};
use wl_entry::{Bundle, Entry, Signed, Svid};
use wl_octets::{Memory, Octets, Row, Shared};
use wl_selector::{Selector, Selectors};
use wl_snapshot::Snapshot;

/// Why a test cannot go on.
#[derive(Debug, Drop)]
enum Stop {
    Memory,
    Text,
    Place,
}

impl From<Memory> for Stop {
    fn from(_: Memory) -> Stop {
        Stop::Memory
    }
}

/// A publication of one entry, with an SVID of this chain and one bundle.
#[derive(Clone, Copy)]
struct State {
    id: &'static [u8],
    selectors: &'static [&'static [u8]],
    federates: &'static [&'static [u8]],
    chain: &'static [u8],
    bundle: (&'static [u8], &'static [u8]),
}

const FIRST: State = State {
    id: b"e1",
    selectors: &[b"unix:uid:1"],
    federates: &[],
    chain: b"\x01",
    bundle: (b"a.b", b"\x03"),
};

fn push<T: Drop>(items: &mut Row<T>, item: T) -> Result<(), Memory> {
    Ok(items.push(item)?)
}

fn shared<T: Drop>(alloc: Global, part: T) -> Result<Shared<T>, Memory>
    ensures { IfOk result (λ s. s ≡ part) }
{
    match Shared::new(alloc, part) {
        Ok(part) => Ok(part),
        Err((_, Memory)) => Err(Memory),
    }
}

/// The list of this part alone.
fn alone<T: Drop>(alloc: Global, part: T) -> Result<Row<Shared<T>>, Memory>
    ensures { IfOk result (λ r. r ≡ part ∷ []) }
{
    let mut items = Vec::new(alloc);
    items.push(shared(alloc, part)?)?;
    Ok(Row::from_vec(items))
}

/// The same, shared.
fn alone_shared<T: Drop>(alloc: Global, part: T) -> Result<Shared<Row<Shared<T>>>, Memory>
    ensures { IfOk result (λ r. r ≡ part ∷ []) }
{
    let row = alone(alloc, part)?;
    let row = shared(alloc, row)?;
    Ok(row)
}

fn selector(alloc: Global, text: &[u8]) -> Result<Selector, Stop> {
    match Selector::parse(alloc, text) {
        Ok(selector) => Ok(selector),
        Err(_) => Err(Stop::Text),
    }
}

fn selectors(alloc: Global, texts: &[&[u8]]) -> Result<Row<Selector>, Stop> {
    let mut items = Row::empty(alloc);
    for text in texts {
        let selector = selector(alloc, text)?;
        push(&mut items, selector)?;
    }
    Ok(items)
}

fn set(alloc: Global, texts: &[&[u8]]) -> Result<Selectors, Stop> {
    let items = selectors(alloc, texts)?;
    match Selectors::from_list(alloc, items.into_vec(), 64) {
        Ok(set) => Ok(set),
        Err(_) => Err(Stop::Text),
    }
}

fn domain(alloc: Global, name: &[u8]) -> Result<TrustDomain, Stop> {
    match TrustDomain::parse(alloc, name) {
        Ok(domain) => Ok(domain),
        Err(_) => Err(Stop::Text),
    }
}

fn domains(alloc: Global, names: &[&[u8]]) -> Result<Row<TrustDomain>, Stop> {
    let mut items = Row::empty(alloc);
    for name in names {
        let domain = domain(alloc, name)?;
        push(&mut items, domain)?;
    }
    Ok(items)
}

fn is_entry_within(entry: &Entry) -> bool
    ensures { result ≡ true → EntryWithin entry.now }
{
    entry.id.len() <= MAX_ID_LEN
        && entry.selectors.as_slice().len() <= MAX_SELECTORS
        && entry.federates_with.len() <= MAX_FEDERATED
        && entry.dns_names.len() <= MAX_DNS_NAMES
        && entry.hint.len() <= MAX_HINT_LEN
}

/// An entry of these selectors.
fn named(
    alloc: Global,
    id: &[u8],
    selectors: Selectors,
    federates_with: Row<TrustDomain>,
) -> Result<Entry, Stop> {
    let id = Octets::from_slice(alloc, id)?;
    let Ok(spiffe_id) = SpiffeId::parse(alloc, b"spiffe://a.b/w") else {
        return Err(Stop::Text);
    };
    Ok(Entry {
        id,
        spiffe_id,
        selectors,
        federates_with,
        dns_names: Row::empty(alloc),
        ttl: 3600,
        hint: Octets::empty(alloc),
    })
}

fn entry(alloc: Global, state: &State) -> Result<Entry, Stop>
    ensures { IfOk result EntryWithin }
{
    let selectors = set(alloc, state.selectors)?;
    let federates_with = domains(alloc, state.federates)?;
    let entry = named(alloc, state.id, selectors, federates_with)?;
    if is_entry_within(&entry) {
        Ok(entry)
    } else {
        Err(Stop::Text)
    }
}

fn signed(alloc: Global, chain: &[u8]) -> Result<Signed, Stop>
    ensures { IfOk result SignedWithin }
{
    if chain.len() > 100 {
        return Err(Stop::Text);
    }
    Ok(Signed {
        chain: Octets::from_slice(alloc, chain)?,
        key: Octets::from_slice(alloc, b"\x02")?,
        not_before: 100,
        not_after: 200,
    })
}

fn is_bundle_within(bundle: &Bundle) -> bool
    ensures { result ≡ true → BundleWithin bundle.now }
{
    bundle.x509.len() <= MAX_PART_LEN && bundle.jwks.len() <= MAX_PART_LEN
}

fn bundle(alloc: Global, name: &[u8], x509: &[u8]) -> Result<Bundle, Stop>
    ensures { IfOk result BundleWithin }
{
    let domain = domain(alloc, name)?;
    let x509 = Octets::from_slice(alloc, x509)?;
    let bundle = Bundle {
        domain,
        x509,
        jwks: Octets::empty(alloc),
    };
    if is_bundle_within(&bundle) {
        Ok(bundle)
    } else {
        Err(Stop::Text)
    }
}

/// The SVID of an entry, alone.
fn svid(alloc: Global, entry: &Entry, signed: Signed) -> Result<SortedBlocks<Svid>, Memory>
    ensures { IfOk result (λ r. r ≡ record { ask = ask_of entry.now; signed = signed } ∷ []) }
{
    let ask = entry.ask(alloc)?;
    let svids = alone(alloc, Svid { ask, signed })?;
    SortedBlocks::of(alloc, svids.as_slice())
}

/// A publication of an entry, its SVID and a bundle.
fn listed(alloc: Global, entry: Entry, signed: Signed, bundle: Bundle) -> Result<Snapshot, Stop>
    requires entry { EntryWithin entry }
    requires signed { SignedWithin signed }
    requires bundle { BundleWithin bundle }
{
    let domain = domain(alloc, b"a.b")?;
    let svids = svid(alloc, &entry, signed)?;
    let entries = alone_shared(alloc, entry)?;
    let bundles = alone_shared(alloc, bundle)?;
    Ok(Snapshot {
        number: 1,
        domain,
        entries,
        svids,
        bundles,
    })
}

fn publication(alloc: Global, state: &State) -> Result<Snapshot, Stop> {
    let entry = entry(alloc, state)?;
    let signed = signed(alloc, state.chain)?;
    let bundle = bundle(alloc, state.bundle.0, state.bundle.1)?;
    listed(alloc, entry, signed, bundle)
}

/// A first and a second publication, and which of the four subscribers are affected.
#[derive(Clone, Copy)]
struct Case {
    name: &'static str,
    old: State,
    new: State,
    affected: &'static [usize],
}

/// The selectors of the four subscribers.
const CALLERS: [&[&[u8]]; 4] = [
    &[b"unix:uid:1"],
    &[b"unix:uid:2"],
    &[b"unix:gid:1", b"unix:uid:1"],
    &[],
];

const TWO_SELECTORS: State = State {
    selectors: &[b"unix:gid:1", b"unix:uid:1"],
    ..FIRST
};

const FEDERATED: State = State {
    federates: &[b"c.d"],
    bundle: (b"c.d", b"\x03"),
    ..FIRST
};

const CASES: [Case; 10] = [
    Case {
        name: "nothing differs",
        old: FIRST,
        new: FIRST,
        affected: &[],
    },
    Case {
        name: "an SVID is signed anew",
        old: FIRST,
        new: State {
            chain: b"\x07",
            ..FIRST
        },
        affected: &[0, 2],
    },
    Case {
        name: "an entry is gone, and one of somebody else is there",
        old: FIRST,
        new: State {
            id: b"e2",
            selectors: &[b"unix:uid:9"],
            ..FIRST
        },
        affected: &[0, 2],
    },
    Case {
        name: "an entry of somebody else is signed anew",
        old: State {
            selectors: &[b"unix:uid:9"],
            ..FIRST
        },
        new: State {
            selectors: &[b"unix:uid:9"],
            chain: b"\x07",
            ..FIRST
        },
        affected: &[],
    },
    Case {
        name: "an entry comes to another caller",
        old: FIRST,
        new: State {
            selectors: &[b"unix:uid:2"],
            ..FIRST
        },
        affected: &[0, 1, 2],
    },
    Case {
        name: "an entry wants one selector more",
        old: FIRST,
        new: TWO_SELECTORS,
        affected: &[0, 2],
    },
    Case {
        name: "an entry of two selectors is signed anew",
        old: TWO_SELECTORS,
        new: State {
            chain: b"\x07",
            ..TWO_SELECTORS
        },
        affected: &[2],
    },
    Case {
        name: "an entry without selectors is signed anew",
        old: State {
            selectors: &[],
            ..FIRST
        },
        new: State {
            selectors: &[],
            chain: b"\x07",
            ..FIRST
        },
        affected: &[0, 1, 2, 3],
    },
    Case {
        name: "the bundle of the own domain is another one",
        old: FIRST,
        new: State {
            bundle: (b"a.b", b"\x08"),
            ..FIRST
        },
        affected: &[0, 1, 2, 3],
    },
    Case {
        name: "the bundle of a federated domain is another one",
        old: FEDERATED,
        new: State {
            bundle: (b"c.d", b"\x08"),
            ..FEDERATED
        },
        affected: &[0, 2],
    },
];

/// A caller of these selectors subscribes.
fn join(alloc: Global, subscribers: &mut Subscribers, caller: &[&[u8]]) -> Result<SubId, Stop> {
    let set = set(alloc, caller)?;
    Ok(subscribers.join(set)?)
}

/// Subscribers with these selectors.
fn join_all(
    alloc: Global,
    subscribers: &mut Subscribers,
    callers: &[&[&[u8]]],
) -> Result<Row<SubId>, Stop> {
    let mut ids = Row::empty(alloc);
    for caller in callers {
        let id = join(alloc, subscribers, caller)?;
        push(&mut ids, id)?;
    }
    Ok(ids)
}

/// Those of these ids that stand at some places.
fn ids_at(alloc: Global, ids: &[SubId], places: &[usize]) -> Result<Row<SubId>, Stop> {
    let mut chosen = Row::empty(alloc);
    for place in places {
        match ids.get(*place) {
            Some(id) => push(&mut chosen, *id)?,
            None => return Err(Stop::Place),
        }
    }
    Ok(chosen)
}

/// The four subscribers, and those of them that stand at some places.
fn subscribers(alloc: Global, places: &[usize]) -> Result<(Subscribers, Row<SubId>), Stop> {
    let mut subscribers = Subscribers::start(alloc);
    let ids = join_all(alloc, &mut subscribers, &CALLERS)?;
    let chosen = ids_at(alloc, ids.as_slice(), places)?;
    Ok((subscribers, chosen))
}

/// Whether exactly these are affected, also where it is known what may differ.
fn are_affected(
    alloc: Global,
    subscribers: &Subscribers,
    old: &Snapshot,
    new: &Snapshot,
    due: &[SubId],
) -> Result<bool, Memory> {
    let affected = subscribers.affected(alloc, old, new)?;
    if affected.as_slice() != due {
        return Ok(false);
    }
    let ids = differing_ids(alloc, old, new)?;
    let again = subscribers.affected_at(alloc, old, new, ids.as_slice())?;
    Ok(again.as_slice() == due)
}

/// Whether exactly the subscribers are affected that a case names.
fn is_due(alloc: Global, case: &Case) -> Result<bool, Stop> {
    let (subscribers, due) = subscribers(alloc, case.affected)?;
    let old = publication(alloc, &case.old)?;
    let new = publication(alloc, &case.new)?;
    Ok(are_affected(alloc, &subscribers, &old, &new, due.as_slice())?)
}

/// The name of the first case in which others are affected than it names.
fn wrong_case(alloc: Global, cases: &[Case]) -> Result<Option<&'static str>, Stop> {
    for case in cases {
        if !is_due(alloc, case)? {
            return Ok(Some(case.name));
        }
    }
    Ok(None)
}

#[test]
fn those_whose_views_differ(rt: HostRuntime) -> Result<(), Fail> {
    assert_eq!(rt; wrong_case(rt.alloc(), &CASES)?, None);
    Ok(())
}

/// The worked publication after its SVID was signed anew.
const SIGNED_ANEW: State = State {
    chain: b"\x07",
    ..FIRST
};

/// Whether exactly these are affected where the SVID is signed anew.
fn are_told(alloc: Global, subscribers: &Subscribers, due: &[SubId]) -> Result<bool, Stop> {
    let old = publication(alloc, &FIRST)?;
    let new = publication(alloc, &SIGNED_ANEW)?;
    Ok(are_affected(alloc, subscribers, &old, &new, due)?)
}

const CALLER: &[&[u8]] = &[b"unix:uid:1"];

/// Whether one who comes after others have left is somebody new, and is affected alone.
fn is_newcomer_told(
    alloc: Global,
    subscribers: &mut Subscribers,
    left: SubId,
) -> Result<bool, Stop> {
    let id = join(alloc, subscribers, CALLER)?;
    Ok(id != left && are_told(alloc, subscribers, &[id])?)
}

/// Whether two are affected, and the first alone when the second has left.
fn is_second_told_until_it_leaves(
    alloc: Global,
    subscribers: &mut Subscribers,
    first: SubId,
    second: SubId,
) -> Result<bool, Stop> {
    let both = are_told(alloc, subscribers, &[first, second])?;
    subscribers.leave(second);
    Ok(both && are_told(alloc, subscribers, &[first])?)
}

#[test]
fn who_has_left_is_not_affected(rt: HostRuntime) -> Result<(), Fail> {
    let mut subscribers = Subscribers::start(rt.alloc());
    let first = join(rt.alloc(), &mut subscribers, CALLER)?;
    let second = join(rt.alloc(), &mut subscribers, CALLER)?;
    assert!(rt; is_second_told_until_it_leaves(rt.alloc(), &mut subscribers, first, second)?);
    subscribers.leave(first);
    assert!(rt; is_newcomer_told(rt.alloc(), &mut subscribers, second)?);
    Ok(())
}

/// How many selectors have subscribers, and how many subscribers the first of the four has.
fn filed_counts(alloc: Global, subscribers: &Subscribers) -> Result<(usize, usize), Stop> {
    let selector = selector(alloc, b"unix:uid:1")?;
    let numbers = numbers_at(&subscribers.filed, &selector);
    Ok((subscribers.filed.len(), numbers.len()))
}

/// The same once the subscriber at this place has left.
fn counts_without(
    alloc: Global,
    subscribers: &mut Subscribers,
    ids: &[SubId],
    place: usize,
) -> Result<(usize, usize), Stop> {
    let Some(id) = ids.get(place) else {
        return Err(Stop::Place);
    };
    subscribers.leave(*id);
    filed_counts(alloc, subscribers)
}

#[test]
fn who_has_left_is_filed_nowhere(rt: HostRuntime) -> Result<(), Fail> {
    let mut subscribers = Subscribers::start(rt.alloc());
    let ids = join_all(rt.alloc(), &mut subscribers, &CALLERS)?;
    assert_eq!(rt; filed_counts(rt.alloc(), &subscribers)?, (3, 2));
    for (place, counts) in [(2, (2, 1)), (1, (1, 1)), (0, (0, 0)), (3, (0, 0))] {
        assert_eq!(rt;
            counts_without(rt.alloc(), &mut subscribers, ids.as_slice(), place)?,
            counts
        );
    }
    Ok(())
}
