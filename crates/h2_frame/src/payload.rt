//! What a payload says (RFC 9113, section 6).

ghost use Rattle.std.specs.Prelude.{◌≡◌, ◌≤◌, false, length, Ok};
ghost use Rattle.std.specs.Int.{w32, w64, from_be_bytes};
ghost use Rattle.h2_frame.specs.Heads.{front_of, is_wrong_length};
ghost use Rattle.h2_frame.specs.Payloads.{content_of, settings_of, body_of};
ghost use Rattle.h2_frame.specs.Reading.{Gives};

use crate::fault::FrameFault;
use crate::frame::{Body, Setting};
use crate::head::Head;
use h2_wire::{flag, frame_type};
use std::alloc::Global;
use wl_octets::{Octets, Row};

/// How many bytes a setting takes.
const SETTING: usize = 6;

/// The content of DATA and HEADERS.
#[tactic(auto, unfolding(crate::specs::Payloads::content_of, crate::specs::Heads::front_of))]
fn content<'a>(head: Head, payload: &'a [u8]) -> Result<&'a [u8], FrameFault>
    requires { front_of head ≤ length payload.now }
    ensures { Gives (λ content. content.now) result (content_of head payload.now) }
{
    let padding = if head.flags & flag::PADDED != 0 {
        payload[0] as usize
    } else {
        0
    };
    let (_, content) = payload.split_at(head.front() as usize);
    if content.len() < padding {
        return Err(FrameFault::BadPadding);
    }
    let (content, _) = content.split_at(content.len() - padding);
    Ok(content)
}

/// The pairs of SETTINGS.
#[tactic(auto, using(crate::proofs::Settings::settings_step, crate::proofs::Settings::settings_end))]
fn settings(alloc: Global, payload: &[u8]) -> Result<Row<Setting>, FrameFault>
    ensures { Gives (λ pairs. pairs) result (Ok (settings_of payload.now)) }
{
    let Ok(mut pairs) = Vec::with_capacity(alloc, payload.len() / SETTING) else {
        return Err(FrameFault::Memory);
    };
    let mut rest = payload;
    while rest.len() >= SETTING {
        let (pair, after) = rest.split_at(SETTING);
        let setting = Setting {
            id: u16::from_be_bytes([pair[0], pair[1]]),
            value: number(pair.split_at(2).1),
        };
        match pairs.push(setting) {
            Ok(()) => rest = after,
            Err(_) => return Err(FrameFault::Memory),
        }
    }
    Ok(Row::from_vec(pairs))
}

fn octets(alloc: Global, bytes: &[u8]) -> Result<Octets, FrameFault>
    ensures { Gives (λ octets. octets) result (Ok bytes.now) }
{
    match Octets::from_slice(alloc, bytes) {
        Ok(octets) => Ok(octets),
        Err(_) => Err(FrameFault::Memory),
    }
}

/// What a frame with this head says.
#[tactic(auto, unfolding(crate::specs::Payloads::body_of, crate::specs::Heads::is_wrong_length))]
pub(crate) fn body(alloc: Global, head: Head, payload: &[u8]) -> Result<Body, FrameFault>
    requires fits { length payload.now ≡ head.length }
    requires right { is_wrong_length head ≡ false }
    ensures { Gives (λ body. body) result (body_of head payload.now) }
{
    let body = match head.kind {
        frame_type::DATA => Body::Bytes {
            bytes: octets(alloc, content(head, payload)?)?,
            size: head.length,
            ended: head.flags & flag::END_STREAM != 0,
        },
        frame_type::HEADERS => Body::Headers {
            block: octets(alloc, content(head, payload)?)?,
            ended: head.flags & flag::END_STREAM != 0,
            whole: head.flags & flag::END_HEADERS != 0,
        },
        frame_type::PRIORITY => Body::Priority,
        frame_type::RST_STREAM => Body::Reset {
            code: number(payload),
        },
        frame_type::SETTINGS => {
            if head.flags & flag::ACK != 0 {
                Body::SettingsAck
            } else {
                Body::Settings {
                    pairs: settings(alloc, payload)?,
                }
            }
        }
        frame_type::PUSH_PROMISE => Body::PushPromise,
        frame_type::PING => Body::Ping {
            ack: head.flags & flag::ACK != 0,
            word: word(payload),
        },
        frame_type::GOAWAY => Body::GoAway {
            last: number(payload) % 0x8000_0000,
            code: number(payload.split_at(4).1),
        },
        frame_type::WINDOW_UPDATE => Body::WindowUpdate {
            step: number(payload) % 0x8000_0000,
        },
        frame_type::CONTINUATION => Body::Continuation {
            block: octets(alloc, payload)?,
            whole: head.flags & flag::END_HEADERS != 0,
        },
        kind => Body::Unknown { kind },
    };
    Ok(body)
}

/// The big-endian number of the first four bytes.
fn number(bytes: &[u8]) -> u32
    requires { 4 ≤ length bytes.now }
    ensures { result ≡ from_be_bytes w32 bytes.now }
{
    u32::from_be_bytes([bytes[0], bytes[1], bytes[2], bytes[3]])
}

/// The big-endian number of the first eight bytes.
fn word(bytes: &[u8]) -> u64
    requires { 8 ≤ length bytes.now }
    ensures { result ≡ from_be_bytes w64 bytes.now }
{
    u64::from_be_bytes([
        bytes[0], bytes[1], bytes[2], bytes[3], bytes[4], bytes[5], bytes[6], bytes[7],
    ])
}
