//! Why a signed identity, a token or a leaf certificate is of no use.

ghost use Rattle.std.specs.Prelude.{◌≡◌, IfOk};

use std::alloc::Global;
use wl_octets::{Memory, Octets};

/// What is wrong with the leaf of a chain (RFC 5280, section 4.1). Places count bytes from the start
/// of the chain.
#[derive(Clone, Copy, Debug, PartialEq, Eq)]
pub enum CertFault {
    /// The value passes the end of what holds it, or that end stands where a part is still due.
    Truncated(usize),
    /// Another tag is due here.
    Tag(usize),
    /// The length here is not in its definite and shortest form.
    Length(usize),
    /// The time here isn't a real date and time from 1970 on.
    Time(usize),
    /// Content stands here, after the last part.
    Extra(usize),
    /// There is no URI among its names.
    NoUri,
    /// There are so many URIs among its names.
    ManyUris(usize),
    /// Memory ran out.
    Memory,
}

/// Why a signed identity is of no use: the first five by its times and lengths alone, the others by
/// its leaf.
#[derive(PartialEq, Drop)]
pub enum Unfit {
    /// `not_after` is at or before `not_before`.
    Times,
    /// `not_after` is reached.
    Expired,
    /// The chain has no byte.
    EmptyChain,
    /// The key has no byte.
    EmptyKey,
    /// Chain and key have so many bytes together, more than 65,536.
    TooLong(usize),
    /// The leaf can't be read; never because memory ran out.
    Cert(CertFault),
    /// The leaf names another id than the one asked for.
    OtherId { asked: Octets, named: Octets },
    /// The leaf has these times, in Unix seconds, which are others.
    OtherTimes { before: u64, after: u64 },
}

impl Unfit {
    /// A copy of the reason.
    pub fn copy(&self, alloc: Global) -> Result<Unfit, Memory>
        ensures { IfOk result (λ u. u ≡ self.now) }
    {
        Ok(match self {
            Unfit::Times => Unfit::Times,
            Unfit::Expired => Unfit::Expired,
            Unfit::EmptyChain => Unfit::EmptyChain,
            Unfit::EmptyKey => Unfit::EmptyKey,
            Unfit::TooLong(size) => Unfit::TooLong(*size),
            Unfit::Cert(fault) => Unfit::Cert(*fault),
            Unfit::OtherId { asked, named } => Unfit::OtherId {
                asked: asked.copy(alloc)?,
                named: named.copy(alloc)?,
            },
            Unfit::OtherTimes { before, after } => Unfit::OtherTimes {
                before: *before,
                after: *after,
            },
        })
    }
}

/// Why a token is of no use.
#[derive(Clone, Copy, Debug, PartialEq, Eq)]
pub enum JwtUnfit {
    /// `expires_at` is at or before `issued_at`.
    Times,
    /// `expires_at` is reached.
    Expired,
    /// It has no byte.
    Empty,
    /// The byte at this place is none of `A-Z a-z 0-9 - _ .`.
    TokenByte(usize),
    /// It has so many bytes, more than 8,192.
    TooLong(usize),
}
