//! The names of files.

ghost use Rattle.std.specs.Prelude.{◌≡◌, ◌<◌, ◌-◌, ◌^◌, IfOk};
ghost use Rattle.std.specs.List.{list_all};
ghost use Rattle.svid_files.specs.Names.{called, numbered, domain_of, is_domain_byte, is_domain, federated_call, federated_name};

use std::alloc::Global;
use std::string::ToString;
use wl_octets::{Memory, Octets};

/// How many bytes the name of a trust domain may have in a file's name.
const MAX_DOMAIN_LEN: usize = 200;

/// What belongs to the SVID at this place and is called by this word.
#[tactic(auto, unfolding(crate::specs::Names::called))]
pub(crate) fn called(alloc: Global, word: &[u8], at: u32) -> Result<Octets, Memory>
    requires { at < 2 ^ 32 - 1 }
    ensures { IfOk result (λ name. name ≡ called word.now at) }
{
    let mut name = Octets::from_slice(alloc, word)?;
    if at > 0 {
        let number = (at + 1).to_string(alloc)?;
        name.push_slice(b".")?;
        name.push_slice(number.as_bytes())?;
    }
    Ok(name)
}

/// The name of its file.
#[tactic(auto, unfolding(crate::specs::Names::numbered))]
pub(crate) fn numbered(alloc: Global, word: &[u8], at: u32) -> Result<Octets, Memory>
    requires { at < 2 ^ 32 - 1 }
    ensures { IfOk result (λ name. name ≡ numbered word.now at) }
{
    let mut name = called(alloc, word, at)?;
    name.push_slice(b".pem")?;
    Ok(name)
}

/// The name of a trust domain, whose id may stand in place of it.
pub fn domain_of(key: &[u8]) -> &[u8]
    ensures { result.now ≡ domain_of key.now }
{
    if key.starts_with(b"spiffe://") {
        key.split_at(9).1
    } else {
        key
    }
}

fn is_domain_byte(byte: u8) -> bool
    ensures { result ≡ is_domain_byte byte }
{
    matches!(byte, b'a'..=b'z' | b'0'..=b'9' | b'-' | b'.' | b'_')
}

fn are_domain_bytes(name: &[u8]) -> bool
    ensures { result ≡ list_all is_domain_byte name.now }
{
    name.iter().all(|byte| is_domain_byte(*byte))
}

/// Whether these bytes may name a trust domain, and a file: 1 to 200 small letters, digits, `-`, `.`, `_`. Then they aren't a path.
#[tactic(auto, unfolding(crate::specs::Names::is_domain))]
pub fn is_domain(name: &[u8]) -> bool
    ensures { result ≡ is_domain name.now }
{
    name.len() >= 1 && name.len() <= MAX_DOMAIN_LEN && are_domain_bytes(name)
}

/// How a federated bundle is called.
#[tactic(auto, unfolding(crate::specs::Names::federated_call))]
pub(crate) fn federated_call(alloc: Global, name: &[u8]) -> Result<Octets, Memory>
    ensures { IfOk result (λ call. call ≡ federated_call name.now) }
{
    let mut call = Octets::from_slice(alloc, b"federated/")?;
    call.push_slice(name)?;
    Ok(call)
}

/// The name of its file.
#[tactic(auto, unfolding(crate::specs::Names::federated_name))]
pub(crate) fn federated_name(alloc: Global, name: &[u8]) -> Result<Octets, Memory>
    ensures { IfOk result (λ file. file ≡ federated_name name.now) }
{
    let mut file = federated_call(alloc, name)?;
    file.push_slice(b".pem")?;
    Ok(file)
}
