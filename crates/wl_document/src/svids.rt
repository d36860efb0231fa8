//! The signed identities of a document.

ghost use Rattle.std.specs.Prelude.{◌≡◌, ℕ, ◌≤◌, length, map, IfOk};
ghost use Rattle.serde_json.specs.View.{view};
ghost use Rattle.wl_document.specs.declared.limits.TheConstants.{MAX_SVIDS};
ghost use Rattle.wl_document.specs.Checks.{Gives};
ghost use Rattle.wl_document.specs.Kept.{kept_has};
ghost use Rattle.wl_document.specs.Svids.{svid_name_of, svid_of};
ghost use Rattle.wl_document.specs.Walks.{kept_svids};

use crate::fault::{DocFault, Place};
use crate::kept::{add, given};
use crate::members::number_of;
use crate::names::{base64_of, name_of};
use crate::state::DocSvid;
use json_members::object_at;
use serde_json::Value;
use std::alloc::Global;
use std::collections::BTreeMap;
use wl_entry::Signed;
use wl_octets::Octets;

/// The id of an entry that no signed identity before it has.
#[tactic(auto, unfolding(crate::specs::Svids::svid_name_of))]
fn svid_name(
    alloc: Global,
    index: u32,
    before: &BTreeMap<Octets, DocSvid>,
    value: &Value,
) -> Result<Octets, DocFault>
    ensures { Gives (λ o. o) result (svid_name_of index (kept_has before.now.entries) (view value.now)) }
{
    object_at(DocFault::Kind(Place::svid(index, 0)), value)?;
    let place = Place::svid(index, 1);
    let id = name_of(alloc, place, "entry", value)?;
    if given(before, &id) {
        return Err(DocFault::Duplicate(place));
    }
    Ok(id)
}

/// The signed identity at this index, beside those before it.
#[tactic(auto, unfolding(crate::specs::Svids::svid_of))]
fn svid(
    alloc: Global,
    index: u32,
    before: &BTreeMap<Octets, DocSvid>,
    value: &Value,
) -> Result<DocSvid, DocFault>
    ensures { Gives (λ s. s) result (svid_of index (kept_has before.now.entries) (view value.now)) }
{
    let entry_id = svid_name(alloc, index, before, value)?;
    let chain = base64_of(alloc, Place::svid(index, 2), "chain", value)?;
    let key = base64_of(alloc, Place::svid(index, 3), "key", value)?;
    let not_before = number_of(Place::svid(index, 4), "not_before", value)?;
    let not_after = number_of(Place::svid(index, 5), "not_after", value)?;
    let signed = Signed {
        chain,
        key,
        not_before,
        not_after,
    };
    Ok(DocSvid { entry_id, signed })
}

/// The signed identities of an array, each at the id of its entry.
pub(crate) fn svids(alloc: Global, values: &[Value]) -> Result<BTreeMap<Octets, DocSvid>, DocFault>
    requires { length values.now ≤ MAX_SVIDS }
    ensures { Gives (λ m. m.entries) result (kept_svids (map view values.now)) }
{
    let mut done = BTreeMap::new(alloc);
    let mut index: u32 = 0;
    for value in values {
        let svid = svid(alloc, index, &done, value)?;
        let key = svid.entry_id.copy(alloc)?;
        add(&mut done, key, svid)?;
        index += 1;
    }
    Ok(done)
}
