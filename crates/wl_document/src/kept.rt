//! What was read of an array, each item at its key.

ghost use Rattle.std.specs.Prelude.{◌≡◌, ℕ, ◌+◌, ◌≤◌, length, IfOk, IfErr, OnOk, option_map};
ghost use Rattle.std.specs.Map.{keys_of, values_of};
ghost use Rattle.list_laws.specs.Lists.{Rises};
ghost use Rattle.wl_document.specs.Kept.{kept_has, put, kept_at};
ghost use Rattle.wl_document.specs.declared.fault.DocFault.TheVariants.{Memory};

use crate::fault::DocFault;
use std::alloc::Global;
use std::collections::BTreeMap;
use wl_octets::Octets;

/// Whether this key was given before.
#[tactic(auto, unfolding(crate::specs::Kept::kept_has))]
pub(crate) fn given<V>(kept: &BTreeMap<Octets, V>, key: &Octets) -> bool
    ensures { result ≡ kept_has kept.now.entries key.now }
{
    kept.contains_key(key)
}

/// What has this key.
#[tactic(auto, unfolding(crate::specs::Kept::kept_at))]
pub(crate) fn find<'a, V>(kept: &'a BTreeMap<Octets, V>, key: &Octets) -> Option<&'a V>
    ensures { option_map (λ v. v.now) result ≡ kept_at kept.now.entries key.now }
{
    kept.get(key)
}

/// Keeps one more.
#[tactic(auto, unfolding(crate::specs::Kept::put))]
pub(crate) fn add<V: Drop>(
    kept: &mut BTreeMap<Octets, V>,
    key: Octets,
    value: V,
) -> Result<(), DocFault>
    ensures ok { OnOk result (kept.new.entries ≡ put kept.old.entries key value) }
    ensures err { IfErr result (λ e. e ≡ Memory) }
{
    match kept.insert(key, value) {
        Ok(_) => Ok(()),
        Err(_) => Err(DocFault::Memory),
    }
}

/// All of them, by ascending key.
pub(crate) fn values<V: Drop>(alloc: Global, kept: BTreeMap<Octets, V>) -> Result<Vec<V>, DocFault>
    ensures ok { IfOk result (λ v. v.items ≡ values_of kept.entries) }
    ensures err { IfErr result (λ e. e ≡ Memory) }
    ensures ordered { Rises (keys_of kept.entries) }
    ensures len { IfOk result (λ v. length v.items ≡ length kept.entries) }
{
    let _ = kept.len();
    match kept.into_values().collect(alloc) {
        Ok(values) => Ok(values),
        Err(_) => Err(DocFault::Memory),
    }
}
