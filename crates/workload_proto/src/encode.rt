//! Messages to bytes: the size is counted first, and the message is made in one allocation.

ghost use Rattle.std.specs.Prelude.{◌≡◌, ◌≤◌, ◌^◌, ◌++◌, length, IfOk, OnOk};
ghost use Rattle.workload_proto.specs.Spelling.{spell_x509, spell_bundles, spell_jwt_bundles, spell_jwt};

use crate::field_number;
use crate::items::{put_jwt_items, put_map_items, put_x509_items};
use crate::message::{BundlesResponse, JwtBundlesResponse, JwtResponse, X509Response};
use crate::size::{size_bundles, size_jwt, size_jwt_bundles, size_x509};
use std::alloc::Global;
use wl_octets::{Memory, Octets};

#[tactic(auto, unfolding(crate::specs::Spelling::spell_x509))]
fn put_x509(out: &mut Vec<u8>, message: &X509Response) -> Result<(), Memory>
    requires { length (spell_x509 message.now) ≤ 2 ^ 31 }
    ensures { OnOk result (out.new.items ≡ out.old.items ++ spell_x509 message.now) }
{
    put_x509_items(out, message.svids.as_slice())?;
    put_map_items(
        out,
        field_number::X509_RESPONSE_FEDERATED_BUNDLES,
        message.federated.as_slice(),
    )
}

/// The encoding of an `X509SVIDResponse`, which has at most 2^31 bytes. Its map's keys are written in their order.
pub fn encode_x509(alloc: Global, message: &X509Response) -> Result<Octets, Memory>
    requires { length (spell_x509 message.now) ≤ 2 ^ 31 }
    ensures { IfOk result (λ o. o ≡ spell_x509 message.now) }
{
    let mut out = Vec::with_capacity(alloc, size_x509(message) as usize)?;
    put_x509(&mut out, message)?;
    Ok(Octets::from_vec(out))
}

/// The encoding of an `X509BundlesResponse`, which has at most 2^31 bytes. Its map's keys are written in their order.
#[tactic(auto, unfolding(crate::specs::Spelling::spell_bundles))]
pub fn encode_bundles(alloc: Global, message: &BundlesResponse) -> Result<Octets, Memory>
    requires { length (spell_bundles message.now) ≤ 2 ^ 31 }
    ensures { IfOk result (λ o. o ≡ spell_bundles message.now) }
{
    let mut out = Vec::with_capacity(alloc, size_bundles(message) as usize)?;
    put_map_items(
        &mut out,
        field_number::X509_BUNDLES_BUNDLES,
        message.bundles.as_slice(),
    )?;
    Ok(Octets::from_vec(out))
}

/// The encoding of a `JWTBundlesResponse`, which has at most 2^31 bytes. Its map's keys are written in their order.
#[tactic(auto, unfolding(crate::specs::Spelling::spell_jwt_bundles))]
pub fn encode_jwt_bundles(alloc: Global, message: &JwtBundlesResponse) -> Result<Octets, Memory>
    requires { length (spell_jwt_bundles message.now) ≤ 2 ^ 31 }
    ensures { IfOk result (λ o. o ≡ spell_jwt_bundles message.now) }
{
    let mut out = Vec::with_capacity(alloc, size_jwt_bundles(message) as usize)?;
    put_map_items(
        &mut out,
        field_number::JWT_BUNDLES_BUNDLES,
        message.bundles.as_slice(),
    )?;
    Ok(Octets::from_vec(out))
}

/// The encoding of a `JWTSVIDResponse`, which has at most 2^31 bytes.
#[tactic(auto, unfolding(crate::specs::Spelling::spell_jwt))]
pub fn encode_jwt(alloc: Global, message: &JwtResponse) -> Result<Octets, Memory>
    requires { length (spell_jwt message.now) ≤ 2 ^ 31 }
    ensures { IfOk result (λ o. o ≡ spell_jwt message.now) }
{
    let mut out = Vec::with_capacity(alloc, size_jwt(message) as usize)?;
    put_jwt_items(&mut out, message.svids.as_slice())?;
    Ok(Octets::from_vec(out))
}
