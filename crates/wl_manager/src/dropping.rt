//! Tokens of entries whose ask was changed or removed.

ghost use Rattle.std.specs.Prelude.{◌≡◌, ℕ, List, [], if◌then◌else◌, map, IfOk};
ghost use Rattle.list_laws.specs.Lists.{Rises};
ghost use Rattle.wl_selector.specs.Selectors.{has_text};
ghost use Rattle.wl_store.specs.Stores.{asks_of};
ghost use Rattle.jwt_cache.specs.Rings.{tokens_for};
ghost use Rattle.wl_manager.specs.Tokens.{changed_ids};

use jwt_cache::Tokens;
use std::alloc::Global;
use wl_entry::{Ask, Voucher};
use wl_octets::{Memory, Octets, Row};
use wl_store::Store;

/// The entry ids of the asks that are not among those of the later store.
#[tactic(auto, unfolding(crate::specs::Tokens::changed_ids))]
pub(crate) fn changed_ids<V: Voucher>(
    alloc: Global,
    asks: &[Ask],
    after: &Store<V>,
) -> Result<Row<Octets>, Memory>
    ensures { IfOk result (λ ids. ids ≡ changed_ids asks.now (asks_of after.now.store.entries)) }
{
    let mut ids = Vec::new(alloc);
    for ask in asks {
        if !after.lists(ask) {
            ids.push(ask.entry_id.copy(alloc)?)?;
        }
    }
    Ok(Row::from_vec(ids))
}

/// Drops the tokens of these entries. It takes no memory.
pub(crate) fn forget_all(tokens: &mut Tokens, ids: &[Octets])
    ensures kept { (q : List ℕ)
        → tokens_for tokens.new q ≡ (if has_text ids.now q then [] else tokens_for tokens.old q) }
    ensures none { ids.now ≡ [] → tokens.new ≡ tokens.old }
{
    for id in ids {
        tokens.forget(id.as_slice());
    }
}
