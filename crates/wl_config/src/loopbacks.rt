//! Loopback addresses.

ghost use Rattle.std.specs.Prelude.{◌≡◌, ◌==◌, ◌<◌, ◌≤◌, length, position, option_copied, option_and_then, IfSome};
ghost use Rattle.std.specs.List.{slice_get, slice_split};
ghost use Rattle.wl_config.specs.Loopbacks.{plain_number, port_of, ipv4_by, ipv4_of, end_of, loopback_of, IsLoopbackIp, IsLoopbackEnd};

use decimal_text::number_up_to;
use std::net::{IpAddr, Ipv4Addr, Ipv6Addr, SocketAddr};

/// What the text of an IPv6 address begins with: there is one loopback address.
const IPV6: &[u8] = b"[::1]:";

/// A decimal number at most the limit, with no zero before it.
#[tactic(auto, unfolding(crate::specs::Loopbacks::plain_number))]
fn plain_number(limit: u64, text: &[u8]) -> Option<u64>
    ensures value { result ≡ plain_number limit text.now }
    ensures within { IfSome result (λ n. n ≤ limit) }
{
    if text.len() > 1 && text.starts_with(b"0") {
        return None;
    }
    number_up_to(limit, text)
}

/// A number of one byte.
fn octet(text: &[u8]) -> Option<u8>
    ensures { result ≡ plain_number 255 text.now }
{
    match plain_number(255, text) {
        Some(number) => Some(number as u8),
        None => None,
    }
}

/// A port: 1 to 65535.
fn port(text: &[u8]) -> Option<u16>
    ensures value { result ≡ port_of text.now }
    ensures some { IfSome result (λ n. 0 < n) }
{
    match plain_number(65_535, text) {
        Some(0) | None => None,
        Some(number) => Some(number as u16),
    }
}

/// The part of a host at this place, from 0. Dots part it.
fn part(host: &[u8], place: usize) -> Option<&[u8]>
    ensures { option_copied result ≡ slice_get (slice_split (λ b. b == 46) host.now) place }
{
    host.split(|byte| *byte == b'.').nth(place)
}

/// 127.B.C.D.
fn ipv4_by(b: Option<u8>, c: Option<u8>, d: Option<u8>) -> Option<IpAddr>
    ensures value { result ≡ ipv4_by b c d }
    ensures loopback { IfSome result IsLoopbackIp }
{
    Some(IpAddr::V4(Ipv4Addr::new(127, b?, c?, d?)))
}

/// The address that a host of four parts is.
#[tactic(auto, using(crate::proofs::Parts::by_places))]
fn ipv4(host: &[u8]) -> Option<IpAddr>
    ensures value { result ≡ ipv4_of (slice_split (λ b. b == 46) host.now) }
    ensures loopback { IfSome result IsLoopbackIp }
{
    match (
        part(host, 0),
        part(host, 1),
        part(host, 2),
        part(host, 3),
        part(host, 4),
    ) {
        (Some(a), Some(b), Some(c), Some(d), None) if a == b"127".as_slice() => {
            ipv4_by(octet(b), octet(c), octet(d))
        }
        _ => None,
    }
}

/// An address with a port.
fn end(address: Option<IpAddr>, port: Option<u16>) -> Option<SocketAddr>
    requires address { IfSome address IsLoopbackIp }
    requires port { IfSome port (λ n. 0 < n) }
    ensures value { result ≡ end_of address port }
    ensures loopback { IfSome result IsLoopbackEnd }
{
    Some(SocketAddr::new(address?, port?))
}

/// Where the first colon stands.
fn colon(text: &[u8]) -> Option<usize>
    ensures place { result ≡ position (λ b. b == 58) text.now }
    ensures bound { IfSome result (λ at. at < length text.now) }
{
    text.iter().position(|byte| *byte == b':')
}

/// The loopback address with a port that a text is.
#[tactic(auto, unfolding(crate::specs::Loopbacks::loopback_of))]
pub(crate) fn loopback(text: &[u8]) -> Option<SocketAddr>
    ensures value { result ≡ loopback_of text.now }
    ensures loopback { IfSome result IsLoopbackEnd }
{
    if text.starts_with(IPV6) {
        let localhost = Ipv6Addr::new(0, 0, 0, 0, 0, 0, 0, 1);
        return end(Some(IpAddr::V6(localhost)), port(&text[IPV6.len()..]));
    }
    match colon(text) {
        Some(at) => end(ipv4(&text[..at]), port(&text[at + 1..])),
        None => None,
    }
}
