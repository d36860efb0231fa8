//! Where the agent is.

ghost use Rattle.std.specs.Prelude.{◌≡◌};
ghost use Rattle.std.specs.Option.{option_copied};
ghost use Rattle.wlctl.specs.Endpoints.{path_in, tcp_in};

use std::alloc::Global;
use std::env::{Env, VarError, var};
use std::net::SocketAddr;
use std::str;
use std::string::String;
use wl_edge_real::Address;
use wl_octets::Memory;

/// The variable that names the agent's socket (SPIFFE Workload Endpoint, section 4).
const VARIABLE: &str = "SPIFFE_ENDPOINT_SOCKET";

/// The option that names the agent's socket.
const OPTION: &str = "--socket";

/// The address and port in the address of a socket over TCP.
#[tactic(auto, unfolding(crate::specs::Endpoints::tcp_in))]
fn tcp_in(address: &[u8]) -> Option<&[u8]>
    ensures { option_copied result ≡ tcp_in address.now }
{
    if address.starts_with(b"tcp://") {
        return Some(address.split_at(6).1);
    }
    None
}

/// Whether the word after `--socket` is an address and no path: it has a scheme.
fn is_address(word: &str) -> bool {
    word.contains("://") || word.starts_with("unix:")
}

/// The path in the address of a socket.
#[tactic(auto, unfolding(crate::specs::Endpoints::path_in))]
fn path_in(address: &[u8]) -> Option<&[u8]>
    ensures { option_copied result ≡ path_in address.now }
{
    if address.starts_with(b"unix:///") {
        return Some(address.split_at(7).1);
    }
    if address.starts_with(b"unix://") {
        return None;
    }
    if address.starts_with(b"unix:/") {
        return Some(address.split_at(5).1);
    }
    None
}

/// Which socket is used.
#[derive(Drop)]
pub enum Socket {
    /// That of this address.
    At(Address),
    /// None is named.
    Unnamed,
    /// An address of another kind is named.
    Unusable,
}

/// The socket of an IP address and a port.
fn socket_over_tcp(text: &[u8]) -> Socket {
    let Ok(text) = str::from_utf8(text) else {
        return Socket::Unusable;
    };
    match text.parse::<SocketAddr>() {
        Ok(address) => Socket::At(Address::Tcp(address)),
        Err(_) => Socket::Unusable,
    }
}

/// The socket of an address.
fn socket_at(alloc: Global, address: &[u8]) -> Result<Socket, Memory> {
    if let Some(text) = tcp_in(address) {
        return Ok(socket_over_tcp(text));
    }
    let Some(path) = path_in(address) else {
        return Ok(Socket::Unusable);
    };
    match String::from_utf8(Vec::from_slice(alloc, path)?) {
        Ok(path) => Ok(Socket::At(Address::Path(path))),
        Err(_) => Ok(Socket::Unusable),
    }
}

/// The socket that the environment names.
fn socket_of_environment<R: Env + Alloc<A = Global>>(rt: &R) -> Result<Socket, Memory> {
    match var(rt, VARIABLE) {
        Ok(address) => socket_at(rt.alloc(), address.as_bytes()),
        Err(VarError::NotPresent) => Ok(Socket::Unnamed),
        Err(VarError::NotUnicode) => Ok(Socket::Unusable),
        Err(VarError::OutOfMemory) => Err(Memory),
    }
}

/// Takes the socket out of the words: a first word that holds a `/` and is a path, or the word after `--socket`, a path or an
/// address; else the socket is that
/// of the environment.
pub fn take_socket(rt: &HostRuntime, words: &mut Vec<String>) -> Result<Socket, Memory> {
    let Some(first) = words.first() else {
        return socket_of_environment(rt);
    };
    if first.as_bytes().contains(&b'/') {
        return Ok(Socket::At(Address::Path(words.remove(0))));
    }
    if first.as_str() == OPTION && words.len() >= 2 {
        words.remove(0);
        let named = words.remove(0);
        if is_address(named.as_str()) {
            return socket_at(rt.alloc(), named.as_bytes());
        }
        return Ok(Socket::At(Address::Path(named)));
    }
    socket_of_environment(rt)
}
