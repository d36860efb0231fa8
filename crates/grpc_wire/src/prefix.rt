//! The five bytes before a message.

ghost use Rattle.std.specs.Prelude.{◌≡◌, ◌≤◌, length, IfOk, OnSome, IfSome};
ghost use Rattle.grpc_wire.specs.declared.prefix.TheConstants.{PREFIX_LEN};
ghost use Rattle.grpc_wire.specs.Messages.{prefix_of};

use crate::fault::MessageFault;

/// How many bytes a prefix has: a flag, and a length of four bytes.
pub const PREFIX_LEN: usize = 5;

/// The length of the message that begins here, once the five bytes before it have come. A flag other than 0 is refused
/// at the first byte, and a length above the limit with the fifth. It takes no memory and never answers Memory.
#[tactic(auto, unfolding(crate::specs::Messages::prefix_of))]
pub fn judge_prefix(limit: u32, bytes: &[u8]) -> Result<Option<u32>, MessageFault>
    ensures says { result ≡ prefix_of limit bytes.now }
    ensures come { IfOk result (λ length_said. OnSome length_said (PREFIX_LEN ≤ length bytes.now)) }
    ensures small { IfOk result (λ length_said. IfSome length_said (λ n. n ≤ limit)) }
{
    if bytes.is_empty() {
        return Ok(None);
    }
    if bytes[0] != 0 {
        return Err(MessageFault::Flag(bytes[0]));
    }
    if bytes.len() < PREFIX_LEN {
        return Ok(None);
    }
    let length = u32::from_be_bytes([bytes[1], bytes[2], bytes[3], bytes[4]]);
    if length > limit {
        return Err(MessageFault::TooLong(length));
    }
    Ok(Some(length))
}
