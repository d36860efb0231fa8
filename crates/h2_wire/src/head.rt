//! The nine bytes before each payload.

ghost use Rattle.std.specs.Prelude.{◌≡◌};
ghost use Rattle.h2_wire.specs.Encoding.{head_bytes};

/// The head of a frame: the payload's length in bytes, which has 24 bits, the type, the
/// flags, and the stream's number after a reserved bit of 0 (RFC 9113, section 4.1).
#[tactic(auto, unfolding(crate::specs::Encoding::head_bytes))]
pub fn head_of_frame(length: u32, kind: u8, flags: u8, stream: u32) -> [u8; 9]
    ensures { result ≡ head_bytes length kind flags stream }
{
    let [_, high, middle, low] = length.to_be_bytes();
    let [first, second, third, fourth] = stream.to_be_bytes();
    [high, middle, low, kind, flags, first, second, third, fourth]
}
