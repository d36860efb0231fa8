//! Publications of one entry.

ghost use Rattle.std.specs.Prelude.{◌≡◌, ◌<◌, ◌∷◌, [], true};
ghost use Rattle.wl_entry.specs.Asks.{ask_of};
ghost use Rattle.wl_entry.specs.Limits.{EntryWithin, SignedWithin, BundleWithin};

use super::callers::selectors;
use sorted_blocks::SortedBlocks;
use spiffe_id::{SpiffeId, TrustDomain};
use std::alloc::Global;
use std::process::Abort;
use wl_entry::limits::{
    MAX_DNS_NAMES, MAX_FEDERATED, MAX_HINT_LEN, MAX_ID_LEN, MAX_PART_LEN, MAX_SELECTORS,
};
use wl_entry::{Bundle, Entry, Signed, Svid};
use wl_octets::{Octets, Row, Shared};
use wl_snapshot::Snapshot;

/// What a publication of one entry holds.
#[derive(Clone, Copy)]
struct Sample {
    id: &'static [u8],
    selector: &'static [u8],
    chain: &'static [u8],
    key: &'static [u8],
}

/// The publication of the worked document, and what changed since.
#[derive(Clone, Copy)]
pub enum State {
    Document,
    /// Its SVID was signed anew.
    Renewed,
    /// The other caller is entitled.
    Entitled,
    /// Its entry is gone, and another one is there.
    Removed,
}

impl State {
    fn sample(self) -> Sample {
        match self {
            State::Document => one_entry(b"e1", b"unix:uid:1", b"\x01", b"\x02"),
            State::Renewed => one_entry(b"e1", b"unix:uid:1", b"\x03", b"\x04"),
            State::Entitled => one_entry(b"e1", b"unix:uid:2", b"\x01", b"\x02"),
            State::Removed => one_entry(b"e2", b"unix:uid:3", b"\x01", b"\x02"),
        }
    }
}

fn one_entry(
    id: &'static [u8],
    selector: &'static [u8],
    chain: &'static [u8],
    key: &'static [u8],
) -> Sample {
    Sample {
        id,
        selector,
        chain,
        key,
    }
}

fn shared<T: Drop>(rt: &impl Abort, alloc: Global, part: T) -> Shared<T>
    ensures { result ≡ part }
{
    match Shared::new(alloc, part) {
        Ok(part) => part,
        Err(_) => panic!(rt; "memory"),
    }
}

/// The list of this part alone.
fn alone<T: Drop>(rt: &impl Abort, alloc: Global, part: T) -> Row<Shared<T>>
    ensures { result ≡ part ∷ [] }
{
    let mut items = Vec::new(alloc);
    items.push(shared(rt, alloc, part)).expect(rt, "memory");
    Row::from_vec(items)
}

fn is_entry_within(entry: &Entry) -> bool
    ensures { result ≡ true → EntryWithin entry.now }
{
    entry.id.len() <= MAX_ID_LEN
        && entry.selectors.as_slice().len() <= MAX_SELECTORS
        && entry.federates_with.len() <= MAX_FEDERATED
        && entry.dns_names.len() <= MAX_DNS_NAMES
        && entry.hint.len() <= MAX_HINT_LEN
}

/// An entry of a caller with this selector.
fn entry(rt: &impl Abort, alloc: Global, sample: Sample) -> Entry
    ensures { EntryWithin result }
{
    let entry = Entry {
        id: Octets::from_slice(alloc, sample.id).expect(rt, "memory"),
        spiffe_id: SpiffeId::parse(alloc, b"spiffe://a.b/w").expect(rt, "an id"),
        selectors: selectors(rt, alloc, sample.selector),
        federates_with: Row::empty(alloc),
        dns_names: Row::empty(alloc),
        ttl: 3600,
        hint: Octets::empty(alloc),
    };
    assert!(rt; is_entry_within(&entry));
    entry
}

fn is_signed_within(signed: &Signed) -> bool
    ensures { result ≡ true → SignedWithin signed.now }
{
    signed.chain.len() <= 100 && signed.key.len() <= 100
}

/// An identity from 100 to 200.
fn signed(rt: &impl Abort, alloc: Global, sample: Sample) -> Signed
    ensures { SignedWithin result }
{
    let signed = Signed {
        chain: Octets::from_slice(alloc, sample.chain).expect(rt, "memory"),
        key: Octets::from_slice(alloc, sample.key).expect(rt, "memory"),
        not_before: 100,
        not_after: 200,
    };
    assert!(rt; is_signed_within(&signed));
    signed
}

fn is_bundle_within(bundle: &Bundle) -> bool
    ensures { result ≡ true → BundleWithin bundle.now }
{
    bundle.x509.len() <= MAX_PART_LEN && bundle.jwks.len() <= MAX_PART_LEN
}

fn domain(rt: &impl Abort, alloc: Global) -> TrustDomain {
    TrustDomain::parse(alloc, b"a.b").expect(rt, "a domain")
}

fn bundle(rt: &impl Abort, alloc: Global) -> Bundle
    ensures { BundleWithin result }
{
    let bundle = Bundle {
        domain: domain(rt, alloc),
        x509: Octets::from_slice(alloc, b"\x03").expect(rt, "memory"),
        jwks: Octets::empty(alloc),
    };
    assert!(rt; is_bundle_within(&bundle));
    bundle
}

/// The SVID of an entry, alone.
fn svid(rt: &impl Abort, alloc: Global, entry: &Entry, signed: Signed) -> SortedBlocks<Svid>
    ensures { result ≡ record { ask = ask_of entry.now; signed = signed } ∷ [] }
{
    let ask = entry.ask(alloc).expect(rt, "memory");
    let svids = alone(rt, alloc, Svid { ask, signed });
    SortedBlocks::of(alloc, svids.as_slice()).expect(rt, "memory")
}

/// A publication of an entry, its SVID and a bundle.
fn listed(
    rt: &impl Abort,
    alloc: Global,
    number: u64,
    entry: Entry,
    signed: Signed,
    bundle: Bundle,
) -> Snapshot
    requires entry { EntryWithin entry }
    requires signed { SignedWithin signed }
    requires bundle { BundleWithin bundle }
    ensures { result.number ≡ number }
{
    let domain = domain(rt, alloc);
    let svids = svid(rt, alloc, &entry, signed);
    let entries = alone(rt, alloc, entry);
    let entries = shared(rt, alloc, entries);
    let bundles = alone(rt, alloc, bundle);
    let bundles = shared(rt, alloc, bundles);
    Snapshot {
        number,
        domain,
        entries,
        svids,
        bundles,
    }
}

pub fn publication(rt: &impl Abort, alloc: Global, number: u64, state: State) -> Snapshot
    ensures { result.number ≡ number }
{
    let sample = state.sample();
    let entry = entry(rt, alloc, sample);
    let signed = signed(rt, alloc, sample);
    let bundle = bundle(rt, alloc);
    listed(rt, alloc, number, entry, signed, bundle)
}

/// The publication after the one of this number.
pub fn following(rt: &impl Abort, alloc: Global, number: u64, state: State) -> Snapshot
    ensures { number < result.number }
{
    let next = number.checked_add(1).expect(rt, "a number");
    publication(rt, alloc, next, state)
}
