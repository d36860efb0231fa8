//! The files of a message.

ghost use Rattle.std.specs.Prelude.{◌≡◌, ◌++◌, ◌∷◌, [], ◌<◌, ◌-◌, ◌^◌, IfOk, OnOk, length, map};
ghost use Rattle.svid_forms.specs.Blocks.{certificates, private_key};
ghost use Rattle.svid_files.specs.Files.{svid_files, federated_file, svids_from, files_of};

use crate::names::{domain_of, federated_name, numbered};
use file_sets::File;
use std::alloc::Global;
use svid_forms::{put_certificates, put_key};
use wl_client::{MapItem, X509Item, X509Response};
use wl_octets::{Memory, Octets, Row};

fn certificates(alloc: Global, der: &[u8]) -> Result<Octets, Memory>
    ensures { IfOk result (λ text. text ≡ certificates der.now) }
{
    let mut text = Vec::new(alloc);
    put_certificates(alloc, &mut text, der)?;
    Ok(Octets::from_vec(text))
}

fn private_key(alloc: Global, der: &[u8]) -> Result<Octets, Memory>
    ensures { IfOk result (λ text. text ≡ private_key der.now) }
{
    let mut text = Vec::new(alloc);
    put_key(alloc, &mut text, der)?;
    Ok(Octets::from_vec(text))
}

/// Puts one more file.
pub(crate) fn put(
    files: &mut Row<File>,
    name: Octets,
    is_secret: bool,
    bytes: Octets,
) -> Result<(), Memory>
    ensures { OnOk result (files.new ≡ files.old ++ record { name = name; is_secret = is_secret; bytes = bytes } ∷ []) }
{
    files.push(File {
        name,
        is_secret,
        bytes,
    })?;
    Ok(())
}

#[tactic(auto, unfolding(crate::specs::Files::svid_files))]
fn put_svid(alloc: Global, files: &mut Row<File>, at: u32, svid: &X509Item) -> Result<(), Memory>
    requires { at < 2 ^ 32 - 1 }
    ensures { OnOk result (files.new ≡ files.old ++ svid_files at svid.now) }
{
    let name = numbered(alloc, b"svid", at)?;
    put(
        files,
        name,
        false,
        certificates(alloc, svid.chain.as_slice())?,
    )?;
    let name = numbered(alloc, b"key", at)?;
    put(files, name, true, private_key(alloc, svid.key.as_slice())?)?;
    let name = numbered(alloc, b"bundle", at)?;
    put(
        files,
        name,
        false,
        certificates(alloc, svid.bundle.as_slice())?,
    )
}

fn put_svids(alloc: Global, files: &mut Row<File>, svids: &[X509Item]) -> Result<(), Memory>
    ensures { OnOk result (files.new ≡ files.old ++ svids_from 0 svids.now) }
{
    for (at, svid) in svids.iter().enumerate() {
        if at >= u32::MAX as usize {
            return Err(Memory);
        }
        put_svid(alloc, files, at as u32, svid)?;
    }
    Ok(())
}

#[tactic(auto, unfolding(crate::specs::Files::federated_file))]
fn put_bundle(alloc: Global, files: &mut Row<File>, bundle: &MapItem) -> Result<(), Memory>
    ensures { OnOk result (files.new ≡ files.old ++ federated_file bundle.now ∷ []) }
{
    let name = federated_name(alloc, domain_of(bundle.key.as_slice()))?;
    put(
        files,
        name,
        false,
        certificates(alloc, bundle.value.as_slice())?,
    )
}

fn put_federated(alloc: Global, files: &mut Row<File>, bundles: &[MapItem]) -> Result<(), Memory>
    ensures { OnOk result (files.new ≡ files.old ++ map federated_file bundles.now) }
{
    for bundle in bundles {
        put_bundle(alloc, files, bundle)?;
    }
    Ok(())
}

/// The files of a message that has files ([`crate::has_files`]); one of 2^32 SVIDs or more is out of memory.
#[tactic(auto, unfolding(crate::specs::Files::files_of))]
pub fn files_of(alloc: Global, message: &X509Response) -> Result<Row<File>, Memory>
    ensures { IfOk result (λ files. files ≡ files_of message.now) }
{
    let mut files = Row::empty(alloc);
    put_svids(alloc, &mut files, message.svids.as_slice())?;
    put_federated(alloc, &mut files, message.federated.as_slice())?;
    Ok(files)
}
