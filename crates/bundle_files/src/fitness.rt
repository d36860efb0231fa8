//! Which bundles have files.

ghost use Rattle.std.specs.Prelude.{◌≡◌, IfOk};
ghost use Rattle.std.specs.List.{list_all};
ghost use Rattle.bundle_files.specs.Files.{is_whole_as, is_fit, have_files};

use crate::kind::BundleKind;
use std::alloc::Global;
use svid_files::{domain_of, is_domain};
use svid_forms::is_whole;
use wl_client::MapItem;
use wl_octets::Memory;

/// Whether a bundle is whole. A JWT bundle isn't judged.
fn is_whole_as(alloc: Global, kind: BundleKind, bundle: &[u8]) -> Result<bool, Memory>
    ensures { IfOk result (λ is. is ≡ is_whole_as kind bundle.now) }
{
    match kind {
        BundleKind::X509 => is_whole(alloc, bundle),
        BundleKind::Jwt => Ok(true),
    }
}

fn is_fit(alloc: Global, kind: BundleKind, bundle: &MapItem) -> Result<bool, Memory>
    ensures { IfOk result (λ is. is ≡ is_fit kind bundle.now) }
{
    let whole = is_whole_as(alloc, kind, bundle.value.as_slice())?;
    Ok(is_domain(domain_of(bundle.key.as_slice())) && whole)
}

fn are_fit(alloc: Global, kind: BundleKind, bundles: &[MapItem]) -> Result<bool, Memory>
    ensures { IfOk result (λ are. are ≡ list_all (is_fit kind) bundles.now) }
{
    for bundle in bundles {
        if !is_fit(alloc, kind, bundle)? {
            return Ok(false);
        }
    }
    Ok(true)
}

/// Whether bundles have files: there is one at least, each is a trust domain's, and certificates are whole as far as their lengths
/// say.
#[tactic(auto, unfolding(crate::specs::Files::have_files))]
pub fn have_files(alloc: Global, kind: BundleKind, bundles: &[MapItem]) -> Result<bool, Memory>
    ensures { IfOk result (λ have. have ≡ have_files kind bundles.now) }
{
    let fit = are_fit(alloc, kind, bundles)?;
    Ok(bundles.len() >= 1 && fit)
}
