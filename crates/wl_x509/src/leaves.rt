//! The leaf of a chain.

ghost use Rattle.std.specs.Prelude.{◌≡◌, length, IfOk, IfErr, Ok, Err};
ghost use Rattle.wl_x509.specs.Leaves.{leaf_of, Refuses};
ghost use Rattle.wl_x509.specs.Certificates.{IsLeafOf, IsOnlyLeafOf, HasNoLeaf};
ghost use Rattle.wl_x509.specs.Tallies.{found_in, chosen, IsMet};

use crate::names::{Uris, meet_part};
use crate::parts::{Frame, read_frame, read_signature};
use crate::values::{Span, content};
use std::alloc::Global;
use wl_entry::CertFault;
use wl_octets::{Memory, Octets};

/// What the first certificate of a chain names. Times are Unix seconds.
#[derive(Drop)]
pub struct Leaf {
    /// The one URI among the names of its subject.
    pub uri: Octets,
    pub not_before: u64,
    pub not_after: u64,
}

/// The frame of the first certificate, and the URIs in it.
#[tactic(auto, unfolding(crate::specs::Tallies::found_in))]
fn read_found(chain: &[u8]) -> Result<(Frame, Uris), CertFault>
    ensures value { result ≡ found_in chain.now }
    ensures met { IfOk result (λ found. IsMet chain.now (length chain.now) found.1) }
{
    let none = Uris {
        count: 0,
        first: Span { start: 0, next: 0 },
    };
    let frame = read_frame(chain)?;
    let found = meet_part(chain, frame.at, frame.body, none)?;
    read_signature(chain, frame.body, frame.whole)?;
    Ok((frame, found))
}

/// The one URI of those that were met.
fn one_uri(alloc: Global, chain: &[u8], found: Uris) -> Result<Octets, CertFault>
    requires { IsMet chain.now (length chain.now) found }
    ensures ok { IfOk result (λ uri. chosen chain.now found ≡ Ok uri) }
    ensures err { IfErr result (λ e. Refuses e (chosen chain.now found ≡ Err e)) }
{
    match found.count {
        0 => Err(CertFault::NoUri),
        1 => match Octets::from_slice(alloc, content(chain, found.first)) {
            Ok(uri) => Ok(uri),
            Err(Memory) => Err(CertFault::Memory),
        },
        count => Err(CertFault::ManyUris(count)),
    }
}

/// The leaf of a chain: the URI and the times of its first certificate. What follows that certificate is not looked at.
///
/// A fault is the one at the first byte where the reading goes wrong; that there is no URI, or more than one, is reported
/// where nothing else is wrong. `CertFault::Memory` says that memory ran out.
pub fn read_leaf(alloc: Global, chain: &[u8]) -> Result<Leaf, CertFault>
    ensures ok { IfOk result (λ leaf. leaf_of chain.now ≡ Ok leaf) }
    ensures err { IfErr result (λ e. Refuses e (leaf_of chain.now ≡ Err e)) }
    // What is read is the leaf of the chain, which has no other; a chain that is refused has none.
    ensures found { IfOk result (λ leaf. IsLeafOf chain.now leaf) }
    ensures only { IfOk result (λ leaf. IsOnlyLeafOf chain.now leaf) }
    ensures none { IfErr result (λ e. Refuses e (HasNoLeaf chain.now)) }
{
    let (frame, found) = read_found(chain)?;
    let uri = one_uri(alloc, chain, found)?;
    Ok(Leaf {
        uri,
        not_before: frame.before,
        not_after: frame.after,
    })
}
