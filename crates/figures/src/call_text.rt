//! The figures of calls, as text.

ghost use Rattle.std.specs.Prelude.{◌≡◌, ◌++◌, OnOk};
ghost use Rattle.figures.specs.Labels.{escaped};
ghost use Rattle.figures.specs.Calls.{begun_sample, streams_lines, ended_line, ended_lines, method_lines, calls_of, calls_lines, message_line, messages_of, messages_lines, calls_part};

use crate::call_figures::{CallFigures, MethodFigures};
use crate::escapes::put_escaped;
use crate::family::Family;
use crate::figures::SocketFigures;
use crate::lines::{put_head, put_number_end, put_socket_line};
use call_counts::{CallMethod, CallStatus};
use std::alloc::Global;
use wl_octets::{Memory, Octets};

fn put_streams_lines(
    alloc: Global,
    out: &mut Octets,
    sockets: &[SocketFigures],
) -> Result<(), Memory>
    ensures { OnOk result (out.new ≡ out.old ++ streams_lines sockets.now) }
{
    for (at, socket) in sockets.iter().enumerate() {
        put_socket_line(alloc, out, Family::Streams, socket, socket.streams)?;
    }
    Ok(())
}

/// Writes how a sample of a socket and a method begins. The socket's path stands within the quotes already.
#[tactic(auto, unfolding(crate::specs::Calls::begun_sample))]
fn put_begun_sample(
    out: &mut Octets,
    family: Family,
    socket: &[u8],
    method: CallMethod,
) -> Result<(), Memory>
    ensures { OnOk result (out.new ≡ out.old ++ begun_sample family socket.now method) }
{
    out.push_slice(family.name())?;
    out.push_slice(b"{socket=\"")?;
    out.push_slice(socket)?;
    out.push_slice(b"\",method=\"")?;
    out.push_slice(method.name())?;
    out.push_slice(b"\"")
}

/// Writes how many calls ended with a status, where there are any. The sample begins with this text.
#[tactic(auto, unfolding(crate::specs::Calls::ended_line))]
fn put_ended(
    alloc: Global,
    out: &mut Octets,
    begun: &[u8],
    figures: &MethodFigures,
    status: CallStatus,
) -> Result<(), Memory>
    ensures { OnOk result (out.new ≡ out.old ++ ended_line begun.now figures.now status) }
{
    let number = figures.ended(status);
    if number == 0 {
        return Ok(());
    }
    out.push_slice(begun)?;
    out.push_slice(b",status=\"")?;
    out.push_slice(status.name())?;
    out.push_slice(b"\"}")?;
    put_number_end(alloc, out, number)
}

#[tactic(auto, unfolding(crate::specs::Calls::ended_lines))]
fn put_ended_lines(
    alloc: Global,
    out: &mut Octets,
    begun: &[u8],
    figures: &MethodFigures,
) -> Result<(), Memory>
    ensures { OnOk result (out.new ≡ out.old ++ ended_lines begun.now figures.now) }
{
    put_ended(alloc, out, begun, figures, CallStatus::Ok)?;
    put_ended(alloc, out, begun, figures, CallStatus::Cancelled)?;
    put_ended(alloc, out, begun, figures, CallStatus::InvalidArgument)?;
    put_ended(alloc, out, begun, figures, CallStatus::NotFound)?;
    put_ended(alloc, out, begun, figures, CallStatus::PermissionDenied)?;
    put_ended(alloc, out, begun, figures, CallStatus::ResourceExhausted)?;
    put_ended(alloc, out, begun, figures, CallStatus::Unimplemented)?;
    put_ended(alloc, out, begun, figures, CallStatus::Internal)?;
    put_ended(alloc, out, begun, figures, CallStatus::Unavailable)?;
    put_ended(alloc, out, begun, figures, CallStatus::Http)
}

/// Writes with which statuses calls of a method ended.
#[tactic(auto, unfolding(crate::specs::Calls::method_lines))]
fn put_method_lines(
    alloc: Global,
    out: &mut Octets,
    socket: &[u8],
    calls: &CallFigures,
    method: CallMethod,
) -> Result<(), Memory>
    ensures { OnOk result (out.new ≡ out.old ++ method_lines socket.now calls.now method) }
{
    let mut begun = Octets::empty(alloc);
    put_begun_sample(&mut begun, Family::Calls, socket, method)?;
    put_ended_lines(alloc, out, begun.as_slice(), calls.of(method))
}

#[tactic(auto, unfolding(crate::specs::Calls::calls_of))]
fn put_calls_of(
    alloc: Global,
    out: &mut Octets,
    socket: &[u8],
    calls: &CallFigures,
) -> Result<(), Memory>
    ensures { OnOk result (out.new ≡ out.old ++ calls_of socket.now calls.now) }
{
    put_method_lines(alloc, out, socket, calls, CallMethod::FetchX509Svid)?;
    put_method_lines(alloc, out, socket, calls, CallMethod::FetchX509Bundles)?;
    put_method_lines(alloc, out, socket, calls, CallMethod::FetchJwtSvid)?;
    put_method_lines(alloc, out, socket, calls, CallMethod::FetchJwtBundles)?;
    put_method_lines(alloc, out, socket, calls, CallMethod::Check)?;
    put_method_lines(alloc, out, socket, calls, CallMethod::Watch)?;
    put_method_lines(alloc, out, socket, calls, CallMethod::Unread)
}

/// Writes how the calls of a socket ended.
fn put_socket_calls(alloc: Global, out: &mut Octets, socket: &SocketFigures) -> Result<(), Memory>
    ensures { OnOk result (out.new ≡ out.old ++ calls_of (escaped socket.now.path) socket.now.calls) }
{
    let mut path = Octets::empty(alloc);
    put_escaped(&mut path, socket.path.as_slice())?;
    put_calls_of(alloc, out, path.as_slice(), &socket.calls)
}

fn put_calls_lines(alloc: Global, out: &mut Octets, sockets: &[SocketFigures]) -> Result<(), Memory>
    ensures { OnOk result (out.new ≡ out.old ++ calls_lines sockets.now) }
{
    for (at, socket) in sockets.iter().enumerate() {
        put_socket_calls(alloc, out, socket)?;
    }
    Ok(())
}

/// Writes how many messages answered calls of a method, where there are any.
#[tactic(auto, unfolding(crate::specs::Calls::message_line))]
fn put_messages(
    alloc: Global,
    out: &mut Octets,
    socket: &[u8],
    calls: &CallFigures,
    method: CallMethod,
) -> Result<(), Memory>
    ensures { OnOk result (out.new ≡ out.old ++ message_line socket.now calls.now method) }
{
    let number = calls.of(method).messages;
    if number == 0 {
        return Ok(());
    }
    put_begun_sample(out, Family::Messages, socket, method)?;
    out.push_slice(b"}")?;
    put_number_end(alloc, out, number)
}

#[tactic(auto, unfolding(crate::specs::Calls::messages_of))]
fn put_messages_of(
    alloc: Global,
    out: &mut Octets,
    socket: &[u8],
    calls: &CallFigures,
) -> Result<(), Memory>
    ensures { OnOk result (out.new ≡ out.old ++ messages_of socket.now calls.now) }
{
    put_messages(alloc, out, socket, calls, CallMethod::FetchX509Svid)?;
    put_messages(alloc, out, socket, calls, CallMethod::FetchX509Bundles)?;
    put_messages(alloc, out, socket, calls, CallMethod::FetchJwtSvid)?;
    put_messages(alloc, out, socket, calls, CallMethod::FetchJwtBundles)?;
    put_messages(alloc, out, socket, calls, CallMethod::Check)?;
    put_messages(alloc, out, socket, calls, CallMethod::Watch)?;
    put_messages(alloc, out, socket, calls, CallMethod::Unread)
}

/// Writes how many messages answered the calls of a socket.
fn put_socket_messages(
    alloc: Global,
    out: &mut Octets,
    socket: &SocketFigures,
) -> Result<(), Memory>
    ensures { OnOk result (out.new ≡ out.old ++ messages_of (escaped socket.now.path) socket.now.calls) }
{
    let mut path = Octets::empty(alloc);
    put_escaped(&mut path, socket.path.as_slice())?;
    put_messages_of(alloc, out, path.as_slice(), &socket.calls)
}

fn put_messages_lines(
    alloc: Global,
    out: &mut Octets,
    sockets: &[SocketFigures],
) -> Result<(), Memory>
    ensures { OnOk result (out.new ≡ out.old ++ messages_lines sockets.now) }
{
    for (at, socket) in sockets.iter().enumerate() {
        put_socket_messages(alloc, out, socket)?;
    }
    Ok(())
}

/// Writes the figures of the calls of these sockets.
#[tactic(auto, unfolding(crate::specs::Calls::calls_part))]
pub(crate) fn put_calls(
    alloc: Global,
    out: &mut Octets,
    sockets: &[SocketFigures],
) -> Result<(), Memory>
    ensures { OnOk result (out.new ≡ out.old ++ calls_part sockets.now) }
{
    put_head(out, Family::Streams)?;
    put_streams_lines(alloc, out, sockets)?;
    put_head(out, Family::Calls)?;
    put_calls_lines(alloc, out, sockets)?;
    put_head(out, Family::Messages)?;
    put_messages_lines(alloc, out, sockets)
}
