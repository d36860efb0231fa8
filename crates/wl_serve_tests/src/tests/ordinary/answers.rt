//! What is due to each client.

use super::bytes::{
    BEFORE_BUNDLE, BEFORE_CHAIN, BEFORE_DOMAIN, BEFORE_KEY, BEFORE_NAME, BEFORE_OWN_BUNDLE,
    BEFORE_TIMES, BEHIND_NAME, BEHIND_TIMES, BETWEEN_TIMES, BUNDLE, BUNDLES, CHAIN_REST, Client,
    DOMAINS, Domain, ENTRIES, FEDERATED, FIRST, JWT, KEY, NEXT, SOCKETS, Signing, X509,
};
use wl_octets::{Memory, Octets};

/// Puts these so many times after others.
pub fn put_often(into: &mut Octets, bytes: &[u8], count: usize) -> Result<(), Memory> {
    for _ in 0..count {
        into.push_slice(bytes)?;
    }
    Ok(())
}

/// The last two bytes of an entry's id and name.
pub fn digits(number: u8) -> [u8; 2] {
    [b'0' + number / 10, b'0' + number % 10]
}

/// Puts a certificate up to what stands after its times.
fn put_times(into: &mut Octets, signing: &Signing) -> Result<(), Memory> {
    into.push_slice(BEFORE_TIMES)?;
    into.push_slice(signing.from_text)?;
    into.push_slice(BETWEEN_TIMES)?;
    into.push_slice(signing.to_text)
}

/// Puts the certificate of an entry: for its name and these times.
fn put_leaf(into: &mut Octets, number: u8, signing: &Signing) -> Result<(), Memory> {
    put_times(into, signing)?;
    into.push_slice(BEHIND_TIMES)?;
    into.push_slice(&digits(number))?;
    into.push_slice(BEHIND_NAME)
}

/// Puts the chain of an entry: its certificate, and more.
pub fn put_chain(into: &mut Octets, number: u8, signing: &Signing) -> Result<(), Memory> {
    put_leaf(into, number, signing)?;
    put_often(into, &[0; 10], CHAIN_REST)
}

/// Puts a key of these times.
pub fn put_key(into: &mut Octets, signing: &Signing) -> Result<(), Memory> {
    put_often(into, &[signing.key; 10], KEY)
}

/// Puts a bundle of this byte, and what stands before it.
fn put_bundle(into: &mut Octets, before: &[u8], byte: u8) -> Result<(), Memory> {
    into.push_slice(before)?;
    put_often(into, &[byte; 10], BUNDLE)
}

/// Puts the beginning of an entry's identity.
fn put_name(into: &mut Octets, number: u8) -> Result<(), Memory> {
    into.push_slice(BEFORE_NAME)?;
    into.push_slice(&digits(number))
}

/// Puts the identity of an entry.
fn put_identity(into: &mut Octets, number: u8, signing: &Signing) -> Result<(), Memory> {
    put_name(into, number)?;
    into.push_slice(BEFORE_CHAIN)?;
    put_chain(into, number, signing)?;
    into.push_slice(BEFORE_KEY)?;
    put_key(into, signing)?;
    put_bundle(into, BEFORE_OWN_BUNDLE, DOMAINS[0].x509)
}

/// Puts a domain with its bundle, of this byte.
fn put_pair(into: &mut Octets, tag: u8, domain: &Domain, byte: u8) -> Result<(), Memory> {
    into.push_slice(&[tag])?;
    into.push_slice(BEFORE_DOMAIN)?;
    into.push_slice(domain.name)?;
    put_bundle(into, BEFORE_BUNDLE, byte)
}

/// Puts the X.509 bundles of these domains.
fn put_x509_bundles(into: &mut Octets, tag: u8, domains: &[Domain]) -> Result<(), Memory> {
    for domain in domains {
        put_pair(into, tag, domain, domain.x509)?;
    }
    Ok(())
}

/// Puts the bundles for tokens.
fn put_jwt_bundles(into: &mut Octets) -> Result<(), Memory> {
    for domain in &DOMAINS {
        put_pair(into, JWT, domain, domain.jwt)?;
    }
    Ok(())
}

/// Puts the identities of a client.
fn put_own(into: &mut Octets, client: &Client, signing: &Signing) -> Result<(), Memory> {
    for number in 0..ENTRIES {
        if number % SOCKETS == client.socket {
            put_identity(into, number, signing)?;
        }
    }
    Ok(())
}

/// Puts the message of a client's identities.
fn put_response(into: &mut Octets, client: &Client, signing: &Signing) -> Result<(), Memory> {
    into.push_slice(client.prefix)?;
    put_own(into, client, signing)?;
    put_x509_bundles(into, FEDERATED, &DOMAINS[1..])
}

/// Puts what a client is due on a stream: the identities, and again those that were signed anew; the bundles; the bundles
/// for tokens.
pub fn put_due(into: &mut Octets, client: &Client, stream: u32) -> Result<(), Memory> {
    if stream == 1 {
        put_response(into, client, &FIRST)?;
        return put_response(into, client, &NEXT);
    }
    into.push_slice(BUNDLES)?;
    if stream == 3 {
        put_x509_bundles(into, X509, &DOMAINS)
    } else {
        put_jwt_bundles(into)
    }
}
