//! Asks, fitness, due times and copies.

ghost use Rattle.std.specs.Prelude.{◌≡◌};
ghost use Rattle.std.specs.Cmp.Lexicographic.{pointwise};
ghost use Rattle.wl_entry.specs.Same.{same_ask, same_entry, same_svid, same_bundle, same_token};

use spiffe_id::{SpiffeId, TrustDomain};
use std::alloc::Global;
use std::test::Fail;
use wl_entry::*;
use wl_octets::{Memory, Octets, Row, Shared};
use wl_selector::{Selector, Selectors};

// `==` on the types here is the test of `specs/Same.antt`, also where parts are shared in lists.

fn are_same_asks(a: &Ask, b: &Ask) -> bool
    ensures { result ≡ same_ask a.now b.now }
{
    a == b
}

fn are_same_entries(a: &Row<Shared<Entry>>, b: &Row<Shared<Entry>>) -> bool
    ensures { result ≡ pointwise same_entry a.now b.now }
{
    a == b
}

fn are_same_svids(a: &Row<Shared<Svid>>, b: &Row<Shared<Svid>>) -> bool
    ensures { result ≡ pointwise same_svid a.now b.now }
{
    a == b
}

fn are_same_bundles(a: &Row<Shared<Bundle>>, b: &Row<Shared<Bundle>>) -> bool
    ensures { result ≡ pointwise same_bundle a.now b.now }
{
    a == b
}

fn are_same_tokens(a: &JwtToken, b: &JwtToken) -> bool
    ensures { result ≡ same_token a.now b.now }
{
    a == b
}

/// An identity of one byte of chain and one of key, with these times.
fn signed(alloc: Global, not_before: u64, not_after: u64) -> Result<Signed, Memory> {
    Ok(Signed {
        chain: Octets::from_slice(alloc, b"c")?,
        key: Octets::from_slice(alloc, b"k")?,
        not_before,
        not_after,
    })
}

/// The entry of the worked document.
fn entry(alloc: Global) -> Result<Entry, Fail> {
    let mut selectors = Vec::new(alloc);
    selectors.push(Selector::parse(alloc, b"unix:uid:1")?)?;
    Ok(Entry {
        id: Octets::from_slice(alloc, b"e1")?,
        spiffe_id: SpiffeId::parse(alloc, b"spiffe://a.b/w")?,
        selectors: Selectors::from_list(alloc, selectors, 64)?,
        federates_with: Row::empty(alloc),
        dns_names: Row::empty(alloc),
        ttl: 3600,
        hint: Octets::empty(alloc),
    })
}

/// Whether an ask is that of the worked document's entry.
fn is_worked_ask(ask: &Ask) -> bool {
    ask.entry_id.as_slice() == b"e1".as_slice()
        && ask.spiffe_id.as_bytes() == b"spiffe://a.b/w".as_slice()
        && ask.dns_names.len() == 0
        && ask.ttl == 3600
}

#[test]
fn entry_ask(rt: HostRuntime) -> Result<(), Fail> {
    let entry = entry(rt.alloc())?;
    let ask = entry.ask(rt.alloc())?;
    assert!(rt; is_worked_ask(&ask) && entry.asks(&ask));
    Ok(())
}

/// Whether the entry with another hint and another time to live still has this ask.
fn asks_with(alloc: Global, ask: &Ask, hint: &[u8], ttl: u32) -> Result<bool, Fail> {
    let mut entry = entry(alloc)?;
    entry.hint = Octets::from_slice(alloc, hint)?;
    entry.ttl = ttl;
    Ok(entry.asks(ask))
}

#[test]
fn asks_of_a_changed_entry(rt: HostRuntime) -> Result<(), Fail> {
    let ask = entry(rt.alloc())?.ask(rt.alloc())?;
    assert!(rt; asks_with(rt.alloc(), &ask, b"h", 3600)?);
    assert!(rt; !asks_with(rt.alloc(), &ask, b"", 3601)?);
    Ok(())
}

/// Whether an identity with these times is due at a second.
fn is_due_at(alloc: Global, not_before: u64, not_after: u64, now: u64) -> Result<bool, Memory> {
    let signed = signed(alloc, not_before, not_after)?;
    Ok(signed.is_due(now))
}

static DUE: [(u64, u64, u64, bool); 7] = [
    (100, 200, 149, false),
    (100, 200, 150, true),
    (100, 200, 0, false),
    (100, 201, 150, false),
    (100, 201, 151, true),
    (u64::MAX - 1, u64::MAX, u64::MAX - 1, false),
    (u64::MAX - 1, u64::MAX, u64::MAX, true),
];

#[test]
fn first_due_second(rt: HostRuntime) -> Result<(), Fail> {
    for (not_before, not_after, now, due) in &DUE {
        assert!(rt; is_due_at(rt.alloc(), *not_before, *not_after, *now)? == *due);
    }
    Ok(())
}

/// Whether this is the first reason against an identity at a second.
fn has_reason(
    alloc: Global,
    chain: &[u8],
    key: &[u8],
    times: (u64, u64),
    now: u64,
    reason: Option<&Unfit>,
) -> Result<bool, Memory> {
    let signed = Signed {
        chain: Octets::from_slice(alloc, chain)?,
        key: Octets::from_slice(alloc, key)?,
        not_before: times.0,
        not_after: times.1,
    };
    Ok(signed.unfit(now).as_ref() == reason)
}

#[test]
fn times_of_identities(rt: HostRuntime) -> Result<(), Fail> {
    assert!(rt; has_reason(rt.alloc(), b"c", b"k", (100, 200), 0, None)?);
    assert!(rt; has_reason(rt.alloc(), b"c", b"k", (100, 200), 199, None)?);
    assert!(rt;
        has_reason(
            rt.alloc(),
            b"c",
            b"k",
            (100, 200),
            200,
            Some(&Unfit::Expired)
        )?
    );
    assert!(rt; has_reason(rt.alloc(), b"c", b"k", (200, 200), 300, Some(&Unfit::Times))?);
    Ok(())
}

#[test]
fn empty_identities(rt: HostRuntime) -> Result<(), Fail> {
    assert!(rt; has_reason(rt.alloc(), b"c", b"", (100, 200), 0, Some(&Unfit::EmptyKey))?);
    assert!(rt;
        has_reason(
            rt.alloc(),
            b"",
            b"",
            (100, 200),
            0,
            Some(&Unfit::EmptyChain)
        )?
    );
    Ok(())
}

#[test]
fn longest_identity(rt: HostRuntime) -> Result<(), Fail> {
    let alloc = rt.alloc();
    let mut chain = Vec::new(alloc);
    for _ in 0..65535u32 {
        chain.push(0)?;
    }
    let mut long = signed(alloc, 100, 200)?;
    long.chain = Octets::from_vec(chain);
    assert!(rt; long.unfit(100) == None);
    long.key = Octets::from_slice(alloc, b"kk")?;
    assert!(rt; long.unfit(100) == Some(Unfit::TooLong(65537)));
    Ok(())
}

/// A token of these bytes, from 100 to 200.
fn token(alloc: Global, text: &[u8]) -> Result<JwtToken, Memory> {
    Ok(JwtToken {
        token: Octets::from_slice(alloc, text)?,
        issued_at: 100,
        expires_at: 200,
    })
}

/// The first reason against a token of these bytes and times, at a second.
fn token_reason(
    alloc: Global,
    text: &[u8],
    expires_at: u64,
    now: u64,
) -> Result<Option<JwtUnfit>, Memory> {
    let mut token = token(alloc, text)?;
    token.expires_at = expires_at;
    Ok(token.unfit(now))
}

static TOKENS: [(&[u8], u64, u64, Option<JwtUnfit>); 5] = [
    (b"aZ0-_.b", 200, 199, None),
    (b"aZ0-_.b", 200, 200, Some(JwtUnfit::Expired)),
    (b"", 200, 0, Some(JwtUnfit::Empty)),
    (b"a=b", 200, 0, Some(JwtUnfit::TokenByte(1))),
    (b"aZ0-_.b", 100, 300, Some(JwtUnfit::Times)),
];

#[test]
fn reasons_of_tokens(rt: HostRuntime) -> Result<(), Fail> {
    for (text, expires_at, now, reason) in &TOKENS {
        assert!(rt; token_reason(rt.alloc(), text, *expires_at, *now)? == *reason);
    }
    Ok(())
}

#[test]
fn fresh_tokens(rt: HostRuntime) -> Result<(), Fail> {
    let token = token(rt.alloc(), b"t")?;
    assert!(rt; token.is_fresh(149) && !token.is_fresh(150));
    Ok(())
}

#[test]
fn longest_token(rt: HostRuntime) -> Result<(), Fail> {
    let alloc = rt.alloc();
    let mut text = Vec::new(alloc);
    for _ in 0..8192u32 {
        text.push(b'a')?;
    }
    assert!(rt; token(alloc, text.as_slice())?.unfit(0) == None);
    text.push(b'a')?;
    assert!(rt; token(alloc, text.as_slice())?.unfit(0) == Some(JwtUnfit::TooLong(8193)));
    text.push(b'=')?;
    assert!(rt; token(alloc, text.as_slice())?.unfit(0) == Some(JwtUnfit::TokenByte(8193)));
    Ok(())
}

/// The entry with a domain with which it federates and a DNS name.
fn full_entry(alloc: Global) -> Result<Entry, Fail> {
    let mut full = entry(alloc)?;
    full.federates_with = Row::from_vec(vec![in alloc; TrustDomain::parse(alloc, b"c.d")?]?);
    full.dns_names = Row::from_vec(vec![in alloc; Octets::from_slice(alloc, b"d")?]?);
    Ok(full)
}

#[test]
fn copy_of_an_entry(rt: HostRuntime) -> Result<(), Fail> {
    let full = full_entry(rt.alloc())?;
    let copy = full.copy(rt.alloc())?;
    assert!(rt; copy == full);
    Ok(())
}

/// The SVID of the worked document's entry.
fn svid(alloc: Global) -> Result<Svid, Fail> {
    Ok(Svid {
        ask: entry(alloc)?.ask(alloc)?,
        signed: signed(alloc, 1, 2)?,
    })
}

#[test]
fn copy_of_an_svid(rt: HostRuntime) -> Result<(), Fail> {
    let svid = svid(rt.alloc())?;
    let copy = svid.copy(rt.alloc())?;
    assert!(rt; copy == svid && are_same_asks(&copy.ask, &svid.ask));
    Ok(())
}

#[test]
fn copy_of_a_bundle(rt: HostRuntime) -> Result<(), Fail> {
    let alloc = rt.alloc();
    let bundle = Bundle {
        domain: TrustDomain::parse(alloc, b"a.b")?,
        x509: Octets::from_slice(alloc, b"x")?,
        jwks: Octets::from_slice(alloc, b"j")?,
    };
    let copy = bundle.copy(alloc)?;
    assert!(rt; copy == bundle);
    Ok(())
}

#[test]
fn copy_of_a_token(rt: HostRuntime) -> Result<(), Fail> {
    let token = token(rt.alloc(), b"t")?;
    let copy = token.copy(rt.alloc())?;
    assert!(rt; are_same_tokens(&copy, &token));
    Ok(())
}

#[test]
fn copy_of_a_reason(rt: HostRuntime) -> Result<(), Fail> {
    let alloc = rt.alloc();
    let unfit = Unfit::OtherId {
        asked: Octets::from_slice(alloc, b"a")?,
        named: Octets::from_slice(alloc, b"b")?,
    };
    let copy = unfit.copy(alloc)?;
    assert!(rt; copy == unfit);
    Ok(())
}

fn shared(alloc: Global, entry: Entry) -> Result<Shared<Entry>, Memory> {
    Ok(Shared::new(alloc, entry)?)
}

#[test]
fn lists_of_shared_entries(rt: HostRuntime) -> Result<(), Fail> {
    let alloc = rt.alloc();
    let entries = Row::from_vec(vec![in alloc; shared(alloc, entry(alloc)?)?]?);
    let none = Row::empty(alloc);
    assert!(rt; are_same_entries(&entries, &entries) && !are_same_entries(&entries, &none));
    Ok(())
}

#[test]
fn lists_of_no_parts(rt: HostRuntime) {
    let svids = Row::empty(rt.alloc());
    assert!(rt; are_same_svids(&svids, &svids));
    let bundles = Row::empty(rt.alloc());
    assert!(rt; are_same_bundles(&bundles, &bundles));
}
