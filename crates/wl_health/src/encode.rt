//! A response to bytes.

ghost use Rattle.std.specs.Prelude.{◌≡◌, ◌≤◌, ◌++◌, length, IfOk, OnOk};
ghost use Rattle.wl_health.specs.declared.health.TheConstants.{SERVING, SERVICE_UNKNOWN};
ghost use Rattle.wl_health.specs.Messages.{spell_state};

use crate::field_number;
use pb_wire::put_varint;
use std::alloc::Global;
use wl_octets::{Memory, Octets};

#[tactic(auto, unfolding(crate::specs::Messages::spell_state))]
fn put_state(out: &mut Vec<u8>, state: u32) -> Result<(), Memory>
    ensures { OnOk result (out.new.items ≡ out.old.items ++ spell_state state) }
{
    put_varint(out, field_number::RESPONSE_STATUS_TAG)?;
    put_varint(out, u64::from(state))
}

/// The encoding of a `HealthCheckResponse` of this state, which is one of those of [`state`](crate::state): two bytes.
pub fn encode_health(alloc: Global, state: u32) -> Result<Octets, Memory>
    requires least { SERVING ≤ state }
    requires most { state ≤ SERVICE_UNKNOWN }
    ensures value { IfOk result (λ o. o ≡ spell_state state) }
    ensures size { IfOk result (λ o. length o ≡ 2) }
{
    let mut out = Vec::with_capacity(alloc, 2)?;
    put_state(&mut out, state)?;
    Ok(Octets::from_vec(out))
}
