//! What can be wrong with a text that is to be an id or a name.

use wl_octets::Memory;

/// The first fault of a text. Places count bytes of the text from 0.
#[derive(Clone, Copy, Debug, PartialEq, Eq)]
pub enum IdFault {
    /// The whole has so many bytes, more than 2,048, or the trust domain name has, more than 255.
    TooLong(usize),
    /// It does not begin with `spiffe://`.
    NotSpiffe,
    /// The trust domain name is empty.
    EmptyDomain,
    /// The byte at this place may not stand in a trust domain name.
    DomainByte(usize),
    /// The segment after the `/` at this place is empty.
    EmptySegment(usize),
    /// The byte at this place may not stand in a segment.
    PathByte(usize),
    /// The segment after the `/` at this place is `.` or `..`.
    DotSegment(usize),
    /// Memory ran out.
    Memory,
}

impl From<Memory> for IdFault {
    ghost use Rattle.std.specs.Prelude.{◌≡◌};
    ghost use Rattle.spiffe_id.specs.declared.faults.IdFault.TheVariants.{Memory};

    ghost from_gives = { λ _ fault. fault ≡ Memory };

    fn from(_: Memory) -> IdFault {
        IdFault::Memory
    }
}
