//! Whether what a signer gave is of use.

ghost use Rattle.std.specs.Prelude.{◌≡◌, IfOk, None, true};
ghost use Rattle.svid_cache.specs.Caches.{is_listed};
ghost use Rattle.wl_store.specs.Stores.{Store, asks_of, refusal, as_unfit};

use std::alloc::Global;
use wl_entry::{Ask, Signed, Unfit};
use wl_octets::Memory;
use wl_x509::leaf_unfit;

/// The first reason against a signed identity at this time: that of each store that judges leaves and has an entry for the ask.
#[tactic(auto, unfolding(wl_store::specs::Stores::refusal))]
pub(crate) fn unfit_reason(
    alloc: Global,
    ask: &Ask,
    signed: &Signed,
    now: u64,
) -> Result<Option<Unfit>, Memory>
    ensures { (s : Store) → s.strict ≡ true → is_listed (asks_of s.entries) ask.now ≡ true
        → IfOk result (λ reason. refusal now ask.now signed.now s ≡ as_unfit reason None) }
{
    if let Some(reason) = signed.unfit(now) {
        return Ok(Some(reason));
    }
    leaf_unfit(alloc, ask, signed)
}
