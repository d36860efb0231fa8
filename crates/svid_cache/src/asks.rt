//! Finding an ask by its entry.

ghost use Rattle.std.specs.Prelude.{◌≡◌, map};
ghost use Rattle.list_laws.specs.Lists.{Rises};
ghost use Rattle.wl_entry.specs.Keys.{ask_key};
ghost use Rattle.svid_cache.specs.Caches.{is_listed};

use sorted_lists::find_by_key;
use wl_entry::Ask;

/// Whether the ask is among these, by binary search.
#[tactic(auto, using(crate::proofs::KeyTests::listed_found))]
pub(crate) fn lists(asks: &[Ask], ask: &Ask) -> bool
    requires { Rises (map ask_key asks.now) }
    ensures { result ≡ is_listed asks.now ask.now }
{
    match find_by_key(asks, ask.entry_id.as_slice()) {
        Some(listed) => listed == ask,
        None => false,
    }
}
