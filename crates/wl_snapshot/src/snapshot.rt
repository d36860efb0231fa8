//! Publications.

use sorted_blocks::SortedBlocks;
use spiffe_id::TrustDomain;
use std::marker::Model;
use wl_entry::{Bundle, Entry, Svid};
use wl_octets::{Row, Shared};

/// A publication: its number, the entries by ascending id, the kept SVIDs by ascending entry id and the bundles by
/// ascending domain. Each SVID's ask is the ask of an entry in it. It shares what did not change with others: entries and
/// bundles as whole lists, where nothing in them did, and SVIDs in blocks.
#[derive(Drop)]
pub struct Snapshot {
    pub number: u64,
    /// The own trust domain.
    pub domain: TrustDomain,
    pub entries: Shared<Row<Shared<Entry>>>,
    pub svids: SortedBlocks<Svid>,
    pub bundles: Shared<Row<Shared<Bundle>>>,
}

impl Model for Snapshot {
    ghost use Rattle.wl_snapshot.specs.Snapshots.{Publication, IsPublication};

    ghost Value = { Publication };

    ghost view = { λ s. record { number = s.number; domain = s.domain; entries = s.entries; svids = s.svids; bundles = s.bundles } };

    ghost invariant = { λ s. IsPublication (record { number = s.number; domain = s.domain; entries = s.entries; svids = s.svids; bundles = s.bundles }) };
}
