//! What becomes of a signed identity.

use wl_entry::Unfit;

/// What became of a signed identity that came back from the signer.
#[derive(PartialEq, Drop)]
pub enum Installed {
    /// It is the kept one of its entry now.
    Kept,
    /// No entry has the ask, or not any more.
    NoSuchAsk,
    /// It is of no use, for this reason.
    Unfit(Unfit),
    /// The kept one is still wanted and ends at this second, in Unix time, and the new one not later.
    Older(u64),
    /// Its ticket is not in flight. A cache never answers this.
    Spent,
}
