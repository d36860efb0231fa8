//! Making publications.

ghost use Rattle.std.specs.Prelude.{◌≡◌, IfOk};
ghost use Rattle.wl_snapshot.specs.Snapshots.{IsPublication};

use sorted_blocks::SortedBlocks;
use spiffe_id::TrustDomain;
use std::alloc::Global;
use wl_entry::{Bundle, Entry, Svid};
use wl_octets::{Memory, Row, Shared};
use wl_snapshot::Snapshot;

/// A publication of these parts.
pub(crate) fn publication(
    alloc: Global,
    number: u64,
    domain: TrustDomain,
    entries: Shared<Row<Shared<Entry>>>,
    svids: SortedBlocks<Svid>,
    bundles: Shared<Row<Shared<Bundle>>>,
) -> Result<Shared<Snapshot>, Memory>
    requires { IsPublication
        (record { number = number; domain = domain; entries = entries; svids = svids; bundles = bundles }) }
    ensures { IfOk result
        (λ p. p
        ≡ record { number = number; domain = domain; entries = entries; svids = svids; bundles = bundles }) }
{
    Ok(Shared::new(
        alloc,
        Snapshot {
            number,
            domain,
            entries,
            svids,
            bundles,
        },
    )?)
}
