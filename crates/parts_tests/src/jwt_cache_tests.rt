//! Kept tokens.

use jwt_cache::*;
use spiffe_id::SpiffeId;
use std::alloc::{AllocGlobal, Global};
use std::test::Fail;
use wl_entry::{Ask, JwtToken};
use wl_octets::{Memory, Octets, Row};

/// The ask of an entry.
fn ask(alloc: Global, entry_id: &[u8]) -> Result<Ask, Fail> {
    Ok(Ask {
        entry_id: Octets::from_slice(alloc, entry_id)?,
        spiffe_id: SpiffeId::parse(alloc, b"spiffe://a.b/w")?,
        dns_names: Row::empty(alloc),
        ttl: 3600,
    })
}

/// A list of two audiences.
fn audiences(alloc: Global, first: &[u8], second: &[u8]) -> Result<Vec<Octets>, Memory> {
    let mut list = Vec::new(alloc);
    list.push(Octets::from_slice(alloc, first)?)?;
    list.push(Octets::from_slice(alloc, second)?)?;
    Ok(list)
}

/// Keeps a token of these bytes from 100 to 200.
fn keep(
    alloc: Global,
    tokens: &mut Tokens,
    ask: &Ask,
    audience: &[Octets],
    text: &[u8],
) -> Result<(), Memory> {
    let token = JwtToken {
        token: Octets::from_slice(alloc, text)?,
        issued_at: 100,
        expires_at: 200,
    };
    tokens.keep(alloc, ask, audience, token)
}

/// Whether a token of these bytes is found: issued since the first of these seconds, at the second one.
fn finds(
    alloc: Global,
    tokens: &Tokens,
    ask: &Ask,
    audience: &[Octets],
    (renew_before, now): (u64, u64),
    text: &[u8],
) -> Result<bool, Memory> {
    match tokens.find(alloc, ask, audience, renew_before, now)? {
        Some(token) => Ok(token.token.as_slice() == text),
        None => Ok(text.is_empty()),
    }
}

/// The same for two audiences.
fn finds_for(
    alloc: Global,
    tokens: &Tokens,
    ask: &Ask,
    audience: (&[u8], &[u8]),
    text: &[u8],
) -> Result<bool, Memory> {
    let audience = audiences(alloc, audience.0, audience.1)?;
    finds(alloc, tokens, ask, audience.as_slice(), (0, 149), text)
}

/// A token `t` for the audiences `b` and `a` is kept.
fn kept(alloc: Global, ask: &Ask) -> Result<Tokens, Memory> {
    let audience = audiences(alloc, b"b", b"a")?;
    let mut tokens = Tokens::start(alloc);
    keep(alloc, &mut tokens, ask, audience.as_slice(), b"t")?;
    Ok(tokens)
}

/// Whether these are found for the audiences `b` and `a`: each issued since a second, at another one.
fn are_found(
    alloc: Global,
    tokens: &Tokens,
    ask: &Ask,
    due: &[(u64, u64, &[u8])],
) -> Result<bool, Memory> {
    let audience = audiences(alloc, b"b", b"a")?;
    for (renew_before, now, text) in due {
        let times = (*renew_before, *now);
        if !finds(alloc, tokens, ask, audience.as_slice(), times, text)? {
            return Ok(false);
        }
    }
    Ok(true)
}

#[test]
fn token_calls(rt: HostRuntime) -> Result<(), Fail> {
    let ask = ask(rt.alloc(), b"e1")?;
    let tokens = kept(rt.alloc(), &ask)?;
    assert!(rt;
        are_found(
            rt.alloc(),
            &Tokens::start(rt.alloc()),
            &ask,
            &[(0, 149, b"")]
        )?
    );
    assert!(rt; are_found(rt.alloc(), &tokens, &ask, &[(0, 149, b"t"), (0, 150, b"")])?);
    Ok(())
}

/// The token is issued at second 100.
#[test]
fn tokens_of_an_old_root_or_a_clock_ahead(rt: HostRuntime) -> Result<(), Fail> {
    let ask = ask(rt.alloc(), b"e1")?;
    let tokens = kept(rt.alloc(), &ask)?;
    let renewed_root: &[(u64, u64, &[u8])] = &[
        (100, 120, b"t"),
        (101, 120, b""),
        (u64::MAX, 120, b""),
    ];
    let clock_went_back: &[(u64, u64, &[u8])] = &[(0, 0, b""), (0, 99, b""), (0, 100, b"t")];
    assert!(rt; are_found(rt.alloc(), &tokens, &ask, renewed_root)?);
    assert!(rt; are_found(rt.alloc(), &tokens, &ask, clock_went_back)?);
    Ok(())
}

#[test]
fn tokens_are_forgotten(rt: HostRuntime) -> Result<(), Fail> {
    let ask = ask(rt.alloc(), b"e1")?;
    let mut tokens = kept(rt.alloc(), &ask)?;
    tokens.forget(b"e1");
    assert!(rt; are_found(rt.alloc(), &tokens, &ask, &[(0, 149, b"")])?);
    Ok(())
}

/// Keeps a token `u` for the audience `a`, written twice.
fn keep_single(alloc: Global, tokens: &mut Tokens, ask: &Ask) -> Result<(), Memory> {
    let audience = audiences(alloc, b"a", b"a")?;
    keep(alloc, tokens, ask, audience.as_slice(), b"u")
}

/// Whether it is found for the audience `a`, written once.
fn finds_single(alloc: Global, tokens: &Tokens, ask: &Ask) -> Result<bool, Memory> {
    let audience = [Octets::from_slice(alloc, b"a")?];
    finds(alloc, tokens, ask, &audience, (0, 149), b"u")
}

#[test]
fn audiences_are_a_set(rt: HostRuntime) -> Result<(), Fail> {
    let ask = ask(rt.alloc(), b"e1")?;
    let mut tokens = kept(rt.alloc(), &ask)?;
    assert!(rt; finds_for(rt.alloc(), &tokens, &ask, (b"a", b"b"), b"t")?);
    assert!(rt; finds_for(rt.alloc(), &tokens, &ask, (b"a", b"a"), b"")?);
    keep_single(rt.alloc(), &mut tokens, &ask)?;
    assert!(rt; finds_single(rt.alloc(), &tokens, &ask)?);
    Ok(())
}

/// Keeps a token, and then sixteen others for another audience.
fn keep_seventeen(
    alloc: Global,
    tokens: &mut Tokens,
    ask: &Ask,
    others: u32,
) -> Result<(), Memory> {
    let first = audiences(alloc, b"a", b"a")?;
    keep(alloc, tokens, ask, first.as_slice(), b"first")?;
    let other = audiences(alloc, b"b", b"b")?;
    for _ in 0..others {
        keep(alloc, tokens, ask, other.as_slice(), b"other")?;
    }
    Ok(())
}

/// The tokens of two entries: sixteen of the first, and seventeen of the second.
fn many(alloc: Global, one: &Ask, two: &Ask) -> Result<Tokens, Memory> {
    let mut tokens = Tokens::start(alloc);
    keep_seventeen(alloc, &mut tokens, one, 15)?;
    keep_seventeen(alloc, &mut tokens, two, 16)?;
    Ok(tokens)
}

#[test]
fn a_seventeenth_pushes_out_the_oldest(rt: HostRuntime) -> Result<(), Fail> {
    let (one, two) = (ask(rt.alloc(), b"e1")?, ask(rt.alloc(), b"e2")?);
    let tokens = many(rt.alloc(), &one, &two)?;
    let first = finds_for(rt.alloc(), &tokens, &one, (b"a", b"a"), b"first")?;
    let pushed = finds_for(rt.alloc(), &tokens, &two, (b"a", b"a"), b"")?;
    let other = finds_for(rt.alloc(), &tokens, &two, (b"b", b"b"), b"other")?;
    assert!(rt; first && pushed && other);
    Ok(())
}
