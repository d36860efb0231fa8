//! SVIDs and bundles as PEM.

ghost use Rattle.std.specs.Prelude.{◌≡◌, ◌++◌, IfOk, OnOk, map};
ghost use Rattle.std.specs.List.{flat_map, list_all};
ghost use Rattle.svid_forms.specs.Elements.{pieces_of};
ghost use Rattle.svid_forms.specs.Blocks.{certificate, certificates, private_key, title, svid_blocks, bundle_blocks, is_svid_whole, is_bundle_whole};

use crate::elements::{is_whole, split};
use crate::json::put_escaped;
use pem_text::put_pem;
use std::alloc::Global;
use wl_client::{MapItem, X509Item};
use wl_octets::Memory;

/// The values of DER that these bytes are; nothing where they aren't such values.
#[tactic(auto, unfolding(crate::specs::Elements::pieces_of))]
fn pieces<'a>(alloc: Global, bytes: &'a [u8]) -> Result<Vec<&'a [u8]>, Memory>
    ensures { IfOk result (λ v. map (λ s. s.now) v.items ≡ pieces_of bytes.now) }
{
    match split(alloc, bytes)? {
        Some(pieces) => Ok(pieces),
        None => Ok(Vec::new(alloc)),
    }
}

fn put_certificate(alloc: Global, out: &mut Vec<u8>, der: &[u8]) -> Result<(), Memory>
    ensures { OnOk result (out.new.items ≡ out.old.items ++ certificate der.now) }
{
    put_pem(alloc, out, b"CERTIFICATE", der)?;
    Ok(())
}

fn put_pieces(alloc: Global, out: &mut Vec<u8>, pieces: &[&[u8]]) -> Result<(), Memory>
    ensures { OnOk result (out.new.items ≡ out.old.items ++ flat_map (λ piece. certificate piece.now) pieces.now) }
{
    for piece in pieces {
        put_certificate(alloc, out, piece)?;
    }
    Ok(())
}

/// A block `CERTIFICATE` for each value of DER that these bytes are; nothing where they aren't such values.
#[tactic(auto, using(crate::proofs::Values::blocks_of_slices), unfolding(crate::specs::Blocks::certificates))]
pub fn put_certificates(alloc: Global, out: &mut Vec<u8>, der: &[u8]) -> Result<(), Memory>
    ensures { OnOk result (out.new.items ≡ out.old.items ++ certificates der.now) }
{
    let pieces = pieces(alloc, der)?;
    put_pieces(alloc, out, pieces.as_slice())
}

/// A block `PRIVATE KEY` of these bytes, which aren't judged.
#[tactic(auto, unfolding(crate::specs::Blocks::private_key))]
pub fn put_key(alloc: Global, out: &mut Vec<u8>, der: &[u8]) -> Result<(), Memory>
    ensures { OnOk result (out.new.items ≡ out.old.items ++ private_key der.now) }
{
    put_pem(alloc, out, b"PRIVATE KEY", der)?;
    Ok(())
}

#[tactic(auto, unfolding(crate::specs::Blocks::title))]
fn put_title(out: &mut Vec<u8>, word: &[u8], name: &[u8]) -> Result<(), Memory>
    ensures { OnOk result (out.new.items ≡ out.old.items ++ title word.now name.now) }
{
    out.extend_from_slice(word)?;
    put_escaped(out, name)?;
    out.push(b'\n')?;
    Ok(())
}

#[tactic(auto, unfolding(crate::specs::Blocks::svid_blocks))]
fn put_svid(alloc: Global, out: &mut Vec<u8>, svid: &X509Item) -> Result<(), Memory>
    ensures { OnOk result (out.new.items ≡ out.old.items ++ svid_blocks svid.now) }
{
    put_title(out, b"svid ", svid.spiffe_id.as_slice())?;
    put_certificates(alloc, out, svid.chain.as_slice())?;
    put_key(alloc, out, svid.key.as_slice())?;
    put_title(out, b"bundle ", svid.spiffe_id.as_slice())?;
    put_certificates(alloc, out, svid.bundle.as_slice())
}

#[tactic(auto, unfolding(crate::specs::Blocks::bundle_blocks))]
fn put_bundle(alloc: Global, out: &mut Vec<u8>, bundle: &MapItem) -> Result<(), Memory>
    ensures { OnOk result (out.new.items ≡ out.old.items ++ bundle_blocks bundle.now) }
{
    put_title(out, b"bundle ", bundle.key.as_slice())?;
    put_certificates(alloc, out, bundle.value.as_slice())
}

/// For each SVID a line `svid ID`, the blocks of its chain and of its key, a line `bundle ID`, and the blocks of its bundle.
pub fn put_svids_pem(alloc: Global, out: &mut Vec<u8>, svids: &[X509Item]) -> Result<(), Memory>
    ensures { OnOk result (out.new.items ≡ out.old.items ++ flat_map svid_blocks svids.now) }
{
    for svid in svids {
        put_svid(alloc, out, svid)?;
    }
    Ok(())
}

/// For each bundle a line `bundle DOMAIN` and its blocks.
pub fn put_bundles_pem(alloc: Global, out: &mut Vec<u8>, bundles: &[MapItem]) -> Result<(), Memory>
    ensures { OnOk result (out.new.items ≡ out.old.items ++ flat_map bundle_blocks bundles.now) }
{
    for bundle in bundles {
        put_bundle(alloc, out, bundle)?;
    }
    Ok(())
}

fn is_svid_whole(alloc: Global, svid: &X509Item) -> Result<bool, Memory>
    ensures { IfOk result (λ is. is ≡ is_svid_whole svid.now) }
{
    Ok(is_whole(alloc, svid.chain.as_slice())? && is_whole(alloc, svid.bundle.as_slice())?)
}

/// Whether the chain and the bundle of each SVID are whole certificates, as far as their lengths say.
pub fn are_svids_whole(alloc: Global, svids: &[X509Item]) -> Result<bool, Memory>
    ensures { IfOk result (λ are. are ≡ list_all is_svid_whole svids.now) }
{
    for svid in svids {
        if !is_svid_whole(alloc, svid)? {
            return Ok(false);
        }
    }
    Ok(true)
}

/// Whether each bundle is whole certificates, as far as their lengths say.
pub fn are_bundles_whole(alloc: Global, bundles: &[MapItem]) -> Result<bool, Memory>
    ensures { IfOk result (λ are. are ≡ list_all is_bundle_whole bundles.now) }
{
    for bundle in bundles {
        if !is_whole(alloc, bundle.value.as_slice())? {
            return Ok(false);
        }
    }
    Ok(true)
}
