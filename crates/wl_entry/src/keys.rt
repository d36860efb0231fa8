//! The keys by which entries, asks, SVIDs and bundles are put in order and found.

ghost use Rattle.wl_entry.specs.Keys.{entry_key, ask_key, svid_key, bundle_key};

use crate::asks::Ask;
use crate::bundles::Bundle;
use crate::entries::Entry;
use crate::signing::Svid;
use sorted_lists::Keyed;

impl Keyed for Entry {
    ghost key = { entry_key };

    fn key(&self) -> &[u8] {
        self.id.as_slice()
    }
}

impl Keyed for Ask {
    ghost key = { ask_key };

    fn key(&self) -> &[u8] {
        self.entry_id.as_slice()
    }
}

impl Keyed for Svid {
    ghost key = { svid_key };

    fn key(&self) -> &[u8] {
        self.ask.entry_id.as_slice()
    }
}

impl Keyed for Bundle {
    ghost key = { bundle_key };

    fn key(&self) -> &[u8] {
        self.domain.as_bytes()
    }
}
