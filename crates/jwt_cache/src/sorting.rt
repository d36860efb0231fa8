//! Audiences in order.

ghost use Rattle.std.specs.Prelude.{◌≡◌, IfOk};
ghost use Rattle.wl_selector.specs.Selectors.{sorted_texts};

use std::alloc::Global;
use std::collections::BTreeSet;
use wl_octets::{Memory, Octets, Row};

/// The audiences by ascending bytes, each once.
#[tactic(auto, unfolding(wl_selector::specs::Selectors::sorted_texts))]
pub fn sort_audience(alloc: Global, audience: &[Octets]) -> Result<Row<Octets>, Memory>
    ensures { IfOk result (λ r. r ≡ sorted_texts audience.now) }
{
    let mut kept = BTreeSet::new(alloc);
    for one in audience {
        kept.insert(one.copy(alloc)?)?;
    }
    Ok(Row::from_vec(kept.into_iter().collect(alloc)?))
}
