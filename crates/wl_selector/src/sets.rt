//! Sets of selectors.

ghost use Rattle.std.specs.Prelude.{◌≡◌, ◌<◌, ◌≤◌, ℕ, List, length, IfOk, IfErr, IsErrOf};
ghost use Rattle.wl_selector.specs.Selectors.{has_text, has_texts, sorted_texts, IsAscending};

use crate::faults::SelectorsFault;
use crate::selector::Selector;
use std::alloc::Global;
use std::cmp::Ordering;
use std::collections::BTreeSet;
use std::marker::Model;
use wl_octets::{Memory, Row, TryClone, clone_all};

/// A set of selectors, by ascending bytes.
#[derive(Drop, PartialEq, Eq)]
pub struct Selectors {
    items: Row<Selector>,
}

impl Model for Selectors {
    ghost use Rattle.std.specs.Prelude.{List, ℕ};
    ghost use Rattle.wl_selector.specs.Selectors.{IsAscending};

    ghost Value = { List (List ℕ) };

    ghost view = { λ s. s.items };

    ghost invariant = { λ s. IsAscending s.items };

    ghost inverse = { λ items. record { items = items } };
}

/// The items by ascending bytes, each once.
#[tactic(auto, unfolding(crate::specs::Selectors::sorted_texts))]
fn in_order(alloc: Global, items: Vec<Selector>) -> Result<Row<Selector>, SelectorsFault>
    ensures ok { IfOk result (λ row. row ≡ sorted_texts items.items) }
    ensures ascending { IfOk result IsAscending }
    ensures err { IfErr result (λ e. e ≡ SelectorsFault.Memory) }
{
    let mut kept = BTreeSet::new(alloc);
    for item in items {
        kept.insert(item)?;
    }
    Ok(Row::from_vec(kept.into_iter().collect(alloc)?))
}

impl Selectors {
    /// The set of the items, where there are no more than the limit, repeats counted.
    pub fn from_list(
        alloc: Global,
        items: Vec<Selector>,
        limit: u32,
    ) -> Result<Selectors, SelectorsFault>
        ensures ok { IfOk result (λ s. s ≡ sorted_texts items.items) }
        ensures at_most { IfOk result (λ _. length items.items ≤ limit) }
        ensures short { IfOk result (λ s. length s ≤ length items.items) }
        ensures ascending { IfOk result IsAscending }
        ensures members { IfOk result (λ s. (text : List ℕ) → has_text s text ≡ has_text items.items text) }
        ensures many { (n : ℕ) → IsErrOf result (SelectorsFault.TooMany n) → (n ≡ length items.items)
            × (limit < n) }
    {
        let count = items.len();
        if count > limit as usize {
            return Err(SelectorsFault::TooMany(count));
        }
        Ok(Selectors {
            items: in_order(alloc, items)?,
        })
    }

    /// The selectors, by ascending bytes.
    pub fn as_slice(&self) -> &[Selector]
        ensures value { result.now ≡ self.now }
        ensures ascending { IsAscending self.now }
    {
        self.items.as_slice()
    }

    /// Whether each of these is among the others.
    pub fn is_subset(&self, of: &Selectors) -> bool
        ensures { result ≡ has_texts of.now self.now }
    {
        let others = of.items.as_slice();
        let mut rest = self.items.as_slice();
        for other in others {
            let Some((first, later)) = rest.split_first() else {
                return true;
            };
            match first.cmp(other) {
                Ordering::Less => return false,
                Ordering::Equal => rest = later,
                Ordering::Greater => {}
            }
        }
        rest.is_empty()
    }

    /// A copy.
    pub fn copy(&self, alloc: Global) -> Result<Selectors, Memory>
        ensures { IfOk result (λ s. s ≡ self.now) }
    {
        Ok(Selectors {
            items: clone_all(alloc, self.items.as_slice())?,
        })
    }
}

impl TryClone for Selectors {
    fn try_clone(&self, alloc: Global) -> Result<Selectors, Memory> {
        self.copy(alloc)
    }
}
