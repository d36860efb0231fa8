//! Which messages have files.

ghost use Rattle.std.specs.Prelude.{◌≡◌, IfOk};
ghost use Rattle.std.specs.List.{list_all};
ghost use Rattle.svid_files.specs.Files.{is_bundle_fit, has_files};

use crate::names::{domain_of, is_domain};
use std::alloc::Global;
use svid_forms::{are_svids_whole, is_whole};
use wl_client::{MapItem, X509Response};
use wl_octets::Memory;

fn is_bundle_fit(alloc: Global, bundle: &MapItem) -> Result<bool, Memory>
    ensures { IfOk result (λ is. is ≡ is_bundle_fit bundle.now) }
{
    let whole = is_whole(alloc, bundle.value.as_slice())?;
    Ok(is_domain(domain_of(bundle.key.as_slice())) && whole)
}

fn are_bundles_fit(alloc: Global, bundles: &[MapItem]) -> Result<bool, Memory>
    ensures { IfOk result (λ are. are ≡ list_all is_bundle_fit bundles.now) }
{
    for bundle in bundles {
        if !is_bundle_fit(alloc, bundle)? {
            return Ok(false);
        }
    }
    Ok(true)
}

/// Whether a message has files: at least one SVID, certificates that are whole as far as their lengths say, and federated
/// bundles of trust domains.
#[tactic(auto, unfolding(crate::specs::Files::has_files))]
pub fn has_files(alloc: Global, message: &X509Response) -> Result<bool, Memory>
    ensures { IfOk result (λ has. has ≡ has_files message.now) }
{
    let svids = are_svids_whole(alloc, message.svids.as_slice())?;
    let bundles = are_bundles_fit(alloc, message.federated.as_slice())?;
    Ok(message.svids.len() >= 1 && svids && bundles)
}
