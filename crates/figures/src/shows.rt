//! Who has figures to show.

use crate::figures::Figures;
use crate::health::Health;
use wl_octets::Memory;

/// What pages are made of, as it stands at the moment of a call.
pub trait Shows {
    /// The figures.
    fn figures(&self) -> Result<Figures, Memory>;

    /// How the agent does.
    fn health(&self) -> Result<Health, Memory>;
}
