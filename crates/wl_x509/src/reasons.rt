//! Whether a signed identity names its ask.

ghost use Rattle.std.specs.Prelude.{◌≡◌, IfOk, None};
ghost use Rattle.wl_x509.specs.Leaves.{leaf_reason, NamesAsk};

use crate::leaves::read_leaf;
use std::alloc::Global;
use wl_entry::{Ask, CertFault, Signed, Unfit};
use wl_octets::{Memory, Octets};

/// The first reason that the leaf of the chain gives against a signed identity: it can't be read (never because
/// memory ran out), it names another id than the ask's, or it has other times than the identity.
#[tactic(auto, unfolding(crate::specs::Leaves::leaf_reason))]
pub fn leaf_unfit(alloc: Global, ask: &Ask, signed: &Signed) -> Result<Option<Unfit>, Memory>
    ensures value { IfOk result (λ unfit. unfit ≡ leaf_reason ask.now signed.now) }
    // Where there is no reason the leaf has the ask's id and the identity's times.
    ensures named { IfOk result (λ unfit. unfit ≡ None → NamesAsk ask.now signed.now) }
{
    let leaf = match read_leaf(alloc, signed.chain.as_slice()) {
        Ok(leaf) => leaf,
        Err(CertFault::Memory) => return Err(Memory),
        Err(fault) => return Ok(Some(Unfit::Cert(fault))),
    };
    if leaf.uri.as_slice() != ask.spiffe_id.as_bytes() {
        return Ok(Some(Unfit::OtherId {
            asked: Octets::from_slice(alloc, ask.spiffe_id.as_bytes())?,
            named: leaf.uri,
        }));
    }
    if leaf.not_before != signed.not_before || leaf.not_after != signed.not_after {
        return Ok(Some(Unfit::OtherTimes {
            before: leaf.not_before,
            after: leaf.not_after,
        }));
    }
    Ok(None)
}
