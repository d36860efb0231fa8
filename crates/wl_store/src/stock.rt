//! What a publication shows beside its SVIDs.

ghost use Rattle.std.specs.Prelude.{◌≡◌, List, IfOk};
ghost use Rattle.std.specs.Cmp.Lexicographic.{pointwise};
ghost use Rattle.wl_entry.specs.Same.{same_svid};
ghost use Rattle.wl_entry.specs.declared.signing.Svid.{Svid};
ghost use Rattle.wl_store.specs.Stores.{shows_parts};
ghost use Rattle.wl_store.specs.Steps.{IsStock};

use crate::store::Store;
use wl_entry::{Bundle, Entry, Voucher};
use wl_match::Index;
use wl_octets::{Memory, Row, Shared};

/// The entries of a publication with their index, and its bundles.
#[derive(Drop)]
pub(crate) struct Stock {
    pub entries: Shared<Row<Shared<Entry>>>,
    pub index: Shared<Index>,
    pub bundles: Shared<Row<Shared<Bundle>>>,
}

impl<V: Voucher> Store<V> {
    /// What the last publication shows, shared.
    pub(crate) fn shared_stock(&self) -> Result<Stock, Memory>
        ensures entries { IfOk result (λ s. s.entries ≡ self.now.store.entries) }
        ensures index { IfOk result (λ s. s.index ≡ self.now.store.entries) }
        ensures bundles { IfOk result (λ s. s.bundles ≡ self.now.store.bundles) }
        ensures stock { IfOk result (λ s. IsStock s.entries s.bundles) }
        // With it the last publication shows those SVIDs that it has.
        ensures shown { IfOk result (λ s. (svids : List Svid) →
            shows_parts self.now.published s.entries svids s.bundles ≡ pointwise same_svid self.now.store.svids svids) }
    {
        let index = self.index.share()?;
        let old = self.published.part();
        Ok(Stock {
            entries: old.entries.share()?,
            index,
            bundles: old.bundles.share()?,
        })
    }
}
