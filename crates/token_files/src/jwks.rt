//! The caller's own JWT bundle.

ghost use Rattle.std.specs.Prelude.{◌≡◌, ◌<◌, length, position, option_map, IfOk, IfSome};
ghost use Rattle.svid_files.specs.Names.{domain_of};
ghost use Rattle.token_files.specs.Tokens.{is_slash, trust_domain, bundle_for, jwks_of};

use std::alloc::Global;
use wl_client::{MapItem, decode_jwt_bundles};
use wl_octets::{Memory, Octets};
use workload_proto::ProtoFault;

/// The scheme of a SPIFFE ID, and what follows it.
const SCHEME: &[u8] = b"spiffe://";

/// What stands after the scheme, where there is one.
fn domain_of(key: &[u8]) -> &[u8]
    ensures { result.now ≡ domain_of key.now }
{
    if key.starts_with(SCHEME) {
        key.split_at(9).1
    } else {
        key
    }
}

/// The first slash.
fn slash(text: &[u8]) -> Option<usize>
    ensures place { result ≡ position is_slash text.now }
    ensures bound { IfSome result (λ at. at < length text.now) }
{
    text.iter().position(|byte| *byte == b'/')
}

/// The trust domain of a SPIFFE ID.
#[tactic(auto, unfolding(crate::specs::Tokens::trust_domain))]
fn trust_domain(id: &[u8]) -> &[u8]
    ensures { result.now ≡ trust_domain id.now }
{
    let text = domain_of(id);
    match slash(text) {
        Some(at) => text.split_at(at).0,
        None => text,
    }
}

/// The bundle of this trust domain.
fn bundle_for(alloc: Global, domain: &[u8], bundles: &[MapItem]) -> Result<Option<Octets>, Memory>
    ensures { IfOk result (λ jwks. jwks ≡ bundle_for domain.now bundles.now) }
{
    for (at, bundle) in bundles.iter().enumerate() {
        if domain_of(bundle.key.as_slice()) == domain {
            return Ok(Some(Octets::from_slice(alloc, bundle.value.as_slice())?));
        }
    }
    Ok(None)
}

/// The JWT bundle of this id's trust domain in a `JWTBundlesResponse`; none where it isn't there or the message can't be read.
#[tactic(auto, unfolding(crate::specs::Tokens::jwks_of))]
pub fn jwks_of(alloc: Global, id: &[u8], message: &[u8]) -> Result<Option<Octets>, Memory>
    ensures { IfOk result (λ jwks. jwks ≡ jwks_of id.now message.now) }
{
    match decode_jwt_bundles(alloc, message) {
        Ok(message) => bundle_for(alloc, trust_domain(id), message.bundles.as_slice()),
        Err(ProtoFault::Memory) => Err(Memory),
        Err(_) => Ok(None),
    }
}
