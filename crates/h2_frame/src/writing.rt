//! Frames as bytes.

ghost use Rattle.std.specs.Prelude.{◌≡◌, ◌≤◌, ◌<◌, ◌^◌, ℕ, if◌then◌else◌, List, flat_map, length, OnOk, nat_le, ◌++◌};
ghost use Rattle.h2_wire.specs.declared.limit.TheConstants.{MAX_FRAME_SIZE};
ghost use Rattle.h2_frame.specs.Reading.{first_frame, whole};
ghost use Rattle.h2_frame.specs.Writing.{frame_encoding, payload_of, kind_of, flags_of, setting_bytes, IsWritable};
ghost use Rattle.list_laws.specs.Lists.{GainsFront};

use crate::frame::{Body, Frame, Setting};
use h2_wire::limit::MAX_FRAME_SIZE;
use h2_wire::{flag, frame_type, head_of_frame};
use wl_octets::{Memory, Octets};

/// Writes one frame after what `out` holds, without padding and priority fields. A frame
/// of PUSH_PROMISE or of an unknown type gets an empty payload, and PRIORITY five zeros.
///
/// Its payload has at most 16,384 bytes, which any peer takes (RFC 9113, section 4.2).
#[tactic(auto, using(crate::proofs::FrameRoundTrip::read_again), unfolding(crate::specs::Writing::frame_encoding, h2_wire::specs::Encoding::frame_bytes))]
pub fn put_frame(out: &mut Octets, frame: &Frame) -> Result<(), Memory>
    requires { length (payload_of frame.now.body) ≤ MAX_FRAME_SIZE }
    ensures ok { OnOk result (out.new ≡ out.old ++ frame_encoding frame.now) }
    ensures prefix { GainsFront (frame_encoding frame.now) out.old out.new }
    ensures read_again { IsWritable frame.now.body → frame.now.stream < 2 ^ 31 → (rest : List ℕ)
        → first_frame (frame_encoding frame.now ++ rest) ≡ whole frame.now rest }
{
    let body = &frame.body;
    let head = head_of_frame(payload_len(body), kind(body), flags(body), frame.stream);
    out.push_slice(&head)?;
    put_payload(out, body)
}

impl Body {
    /// Whether the payload has at most 16,384 bytes, as `put_frame` asks.
    #[tactic(auto, using(crate::proofs::Settings::settings_length))]
    pub fn fits(&self) -> bool
        ensures { result ≡ nat_le (length (payload_of self.now)) MAX_FRAME_SIZE }
    {
        match self {
            Body::Bytes { bytes, .. } => bytes.len() <= MAX_FRAME_SIZE as usize,
            Body::Headers { block, .. } => block.len() <= MAX_FRAME_SIZE as usize,
            Body::Continuation { block, .. } => block.len() <= MAX_FRAME_SIZE as usize,
            Body::Settings { pairs } => pairs.len() <= 2730,
            _ => true,
        }
    }
}

fn kind(body: &Body) -> u8
    ensures { result ≡ kind_of body.now }
{
    match body {
        Body::Bytes { .. } => frame_type::DATA,
        Body::Headers { .. } => frame_type::HEADERS,
        Body::Priority => frame_type::PRIORITY,
        Body::Reset { .. } => frame_type::RST_STREAM,
        Body::Settings { .. } | Body::SettingsAck => frame_type::SETTINGS,
        Body::PushPromise => frame_type::PUSH_PROMISE,
        Body::Ping { .. } => frame_type::PING,
        Body::GoAway { .. } => frame_type::GOAWAY,
        Body::WindowUpdate { .. } => frame_type::WINDOW_UPDATE,
        Body::Continuation { .. } => frame_type::CONTINUATION,
        Body::Unknown { kind } => *kind,
    }
}

/// A flag where it is set.
fn flag_if(set: bool, mask: u8) -> u8
    ensures { result ≡ (if set then mask else 0) }
{
    if set { mask } else { 0 }
}

fn flags(body: &Body) -> u8
    ensures { result ≡ flags_of body.now }
{
    match body {
        Body::Bytes { ended, .. } => flag_if(*ended, flag::END_STREAM),
        Body::Headers { ended, whole, .. } => {
            flag_if(*ended, flag::END_STREAM) + flag_if(*whole, flag::END_HEADERS)
        }
        Body::SettingsAck => flag::ACK,
        Body::Ping { ack, .. } => flag_if(*ack, flag::ACK),
        Body::Continuation { whole, .. } => flag_if(*whole, flag::END_HEADERS),
        _ => 0,
    }
}

/// The length of the payload, in bytes.
#[tactic(auto, using(crate::proofs::Settings::settings_length))]
fn payload_len(body: &Body) -> u32
    requires { length (payload_of body.now) ≤ MAX_FRAME_SIZE }
    ensures { result ≡ length (payload_of body.now) }
{
    match body {
        Body::Bytes { bytes, .. } => bytes.len() as u32,
        Body::Headers { block, .. } | Body::Continuation { block, .. } => block.len() as u32,
        Body::Priority => 5,
        Body::Reset { .. } | Body::WindowUpdate { .. } => 4,
        Body::Settings { pairs } => 6 * pairs.len() as u32,
        Body::Ping { .. } | Body::GoAway { .. } => 8,
        Body::SettingsAck | Body::PushPromise | Body::Unknown { .. } => 0,
    }
}

fn put_payload(out: &mut Octets, body: &Body) -> Result<(), Memory>
    ensures ok { OnOk result (out.new ≡ out.old ++ payload_of body.now) }
    ensures prefix { GainsFront (payload_of body.now) out.old out.new }
{
    match body {
        Body::Bytes { bytes, .. } => out.push_slice(bytes.as_slice()),
        Body::Headers { block, .. } => out.push_slice(block.as_slice()),
        Body::Continuation { block, .. } => out.push_slice(block.as_slice()),
        Body::Priority => out.push_slice(&[0; 5]),
        Body::Reset { code } => out.push_slice(&code.to_be_bytes()),
        Body::Settings { pairs } => put_settings(out, pairs.as_slice()),
        Body::Ping { word, .. } => out.push_slice(&word.to_be_bytes()),
        Body::GoAway { last, code } => {
            out.push_slice(&last.to_be_bytes())?;
            out.push_slice(&code.to_be_bytes())
        }
        Body::WindowUpdate { step } => out.push_slice(&step.to_be_bytes()),
        Body::SettingsAck | Body::PushPromise | Body::Unknown { .. } => Ok(()),
    }
}

/// Two bytes and four for each pair.
fn put_settings(out: &mut Octets, pairs: &[Setting]) -> Result<(), Memory>
    ensures ok { OnOk result (out.new ≡ out.old ++ flat_map setting_bytes pairs.now) }
    ensures prefix { GainsFront (flat_map setting_bytes pairs.now) out.old out.new }
{
    for pair in pairs {
        let [high, low] = pair.id.to_be_bytes();
        let [a, b, c, d] = pair.value.to_be_bytes();
        out.push_slice(&[high, low, a, b, c, d])?;
    }
    Ok(())
}
