//! The line of an event.

ghost use Rattle.std.specs.Prelude.{◌≡◌, ◌++◌, OnOk, codes};
ghost use Rattle.event_log.specs.Texts.{word_field, number_field, text_field};
ghost use Rattle.figures.specs.Labels.{link_name, late_name};
ghost use Rattle.event_log.specs.Events.{error_name, pull_name};
ghost use Rattle.event_log.specs.Lines.{bind_fields, sign_fields, fault_fields, change_fields, count_fields, taken_fields, uid_field, call_fields, fields, repeated, said, line};

use crate::causes::{BindCause, ErrorCode, PullCause, SignCause};
use crate::event::{DocumentCounts, EndedCall, Event, SocketChanges};
use crate::fault_line::FaultLine;
use crate::path_text::PathText;
use crate::texts::{put_escaped, put_number, put_text, put_word};
use crate::time_text::TimeText;
use fault_lines::explain_text;
use figures::{LateCause, LinkCause};
use std::alloc::Global;
use wl_entry::Ask;
use wl_octets::{Memory, Octets};

/// Writes why a path could not be bound.
#[tactic(auto, unfolding(crate::specs::Lines::bind_fields))]
fn put_bind(out: &mut Octets, cause: BindCause) -> Result<(), Memory>
    ensures { OnOk result (out.new ≡ out.old ++ bind_fields cause) }
{
    put_word(out, b"cause", cause.name())?;
    match cause {
        BindCause::Taken | BindCause::NotASocket | BindCause::StaleOfOtherUser => Ok(()),
        BindCause::Refused(reason) => put_word(out, b"reason", reason.name()),
    }
}

/// Writes a path, and why it could not be bound.
fn put_unbound(out: &mut Octets, path: &PathText, cause: BindCause) -> Result<(), Memory>
    ensures { OnOk result (out.new ≡ out.old ++ text_field (codes "path") path.now ++ bind_fields cause) }
{
    put_text(out, b"path", path.as_slice())?;
    put_bind(out, cause)
}

/// Writes a fault line and its sentence.
#[tactic(auto, unfolding(crate::specs::Lines::fault_fields))]
fn put_fault(alloc: Global, out: &mut Octets, fault: &FaultLine) -> Result<(), Memory>
    ensures { OnOk result (out.new ≡ out.old ++ fault_fields fault.now) }
{
    put_text(out, b"fault", fault.as_slice())?;
    let text = explain_text(alloc, fault.as_slice())?;
    put_text(out, b"text", text.as_slice())
}

/// Writes how many sockets a configuration adds and removes.
#[tactic(auto, unfolding(crate::specs::Lines::change_fields))]
fn put_changes(alloc: Global, out: &mut Octets, changes: SocketChanges) -> Result<(), Memory>
    ensures { OnOk result (out.new ≡ out.old ++ change_fields changes) }
{
    put_number(alloc, out, b"added", u64::from(changes.added))?;
    put_number(alloc, out, b"removed", u64::from(changes.removed))
}

/// Writes the number of a socket, and its path.
fn put_socket(alloc: Global, out: &mut Octets, socket: u32, path: &PathText) -> Result<(), Memory>
    ensures { OnOk result (out.new ≡ out.old
        ++ number_field (codes "socket") socket ++ text_field (codes "path") path.now) }
{
    put_number(alloc, out, b"socket", u64::from(socket))?;
    put_text(out, b"path", path.as_slice())
}

/// Writes from where no document came, and since when.
fn put_unpulled(out: &mut Octets, cause: PullCause, since: &TimeText) -> Result<(), Memory>
    ensures { OnOk result (out.new ≡ out.old
        ++ word_field (codes "cause") (pull_name cause) ++ text_field (codes "since") since.now) }
{
    put_word(out, b"cause", cause.name())?;
    put_text(out, b"since", since.as_slice())
}

/// Writes why nothing was signed.
#[tactic(auto, unfolding(crate::specs::Lines::sign_fields))]
fn put_sign(out: &mut Octets, cause: SignCause) -> Result<(), Memory>
    ensures { OnOk result (out.new ≡ out.old ++ sign_fields cause) }
{
    put_word(out, b"cause", cause.name())?;
    match cause {
        SignCause::NotReached
        | SignCause::TimedOut
        | SignCause::NotAnAnswer
        | SignCause::NotInDocument => Ok(()),
        SignCause::Unfit(fault) => put_word(out, b"fault", fault.name()),
    }
}

/// Writes the entry of an ask, and why nothing was signed for it.
fn put_unsigned(out: &mut Octets, ask: &Ask, cause: SignCause) -> Result<(), Memory>
    ensures { OnOk result (out.new ≡ out.old
        ++ text_field (codes "entry") ask.now.entry_id ++ sign_fields cause) }
{
    put_text(out, b"entry", ask.entry_id.as_slice())?;
    put_sign(out, cause)
}

/// Writes the entry of an ask, and a Unix second of its identity.
fn put_moment(
    alloc: Global,
    out: &mut Octets,
    ask: &Ask,
    key: &[u8],
    second: u64,
) -> Result<(), Memory>
    ensures { OnOk result (out.new ≡ out.old
        ++ text_field (codes "entry") ask.now.entry_id ++ number_field key.now second) }
{
    put_text(out, b"entry", ask.entry_id.as_slice())?;
    put_number(alloc, out, key, second)
}

/// Writes the socket of a connection, and a word on it.
fn put_connection(
    alloc: Global,
    out: &mut Octets,
    socket: u32,
    key: &[u8],
    word: &[u8],
) -> Result<(), Memory>
    ensures { OnOk result (out.new ≡ out.old
        ++ number_field (codes "socket") socket ++ word_field key.now word.now) }
{
    put_number(alloc, out, b"socket", u64::from(socket))?;
    put_word(out, key, word)
}

/// Writes the socket of a connection whose peer broke a rule, and the code with which it was ended.
fn put_broken(alloc: Global, out: &mut Octets, socket: u32, code: ErrorCode) -> Result<(), Memory>
    ensures { OnOk result (out.new ≡ out.old
        ++ number_field (codes "socket") socket ++ word_field (codes "code") (error_name code)) }
{
    put_connection(alloc, out, socket, b"code", code.name())
}

/// Writes the socket of a connection that was given up, and why.
fn put_late(alloc: Global, out: &mut Octets, socket: u32, cause: LateCause) -> Result<(), Memory>
    ensures { OnOk result (out.new ≡ out.old
        ++ number_field (codes "socket") socket ++ word_field (codes "cause") (late_name cause)) }
{
    put_connection(alloc, out, socket, b"cause", cause.name())
}

/// Writes the socket of a connection that failed, and why.
fn put_failed(alloc: Global, out: &mut Octets, socket: u32, cause: LinkCause) -> Result<(), Memory>
    ensures { OnOk result (out.new ≡ out.old
        ++ number_field (codes "socket") socket ++ word_field (codes "cause") (link_name cause)) }
{
    put_connection(alloc, out, socket, b"cause", cause.name())
}

/// Writes what a document has.
#[tactic(auto, unfolding(crate::specs::Lines::count_fields))]
fn put_counts(alloc: Global, out: &mut Octets, counts: DocumentCounts) -> Result<(), Memory>
    ensures { OnOk result (out.new ≡ out.old ++ count_fields counts) }
{
    put_number(alloc, out, b"entries", counts.entries)?;
    put_number(alloc, out, b"bundles", counts.bundles)?;
    put_number(alloc, out, b"changed", counts.changed)?;
    put_number(alloc, out, b"removed", counts.removed)
}

/// Writes the publication that shows a document, and what the document has.
#[tactic(auto, unfolding(crate::specs::Lines::taken_fields))]
fn put_taken(
    alloc: Global,
    out: &mut Octets,
    publication: u64,
    counts: DocumentCounts,
) -> Result<(), Memory>
    ensures { OnOk result (out.new ≡ out.old ++ taken_fields publication counts) }
{
    put_number(alloc, out, b"publication", publication)?;
    put_counts(alloc, out, counts)
}

/// Writes the socket of a caller, and its user.
fn put_user(alloc: Global, out: &mut Octets, socket: u32, uid: u32) -> Result<(), Memory>
    ensures { OnOk result (out.new ≡ out.old
        ++ number_field (codes "socket") socket ++ number_field (codes "uid") uid) }
{
    put_number(alloc, out, b"socket", u64::from(socket))?;
    put_number(alloc, out, b"uid", u64::from(uid))
}

/// Writes the user of a caller, where it is known.
#[tactic(auto, unfolding(crate::specs::Lines::uid_field))]
fn put_uid(alloc: Global, out: &mut Octets, uid: Option<u32>) -> Result<(), Memory>
    ensures { OnOk result (out.new ≡ out.old ++ uid_field uid) }
{
    match uid {
        Some(uid) => put_number(alloc, out, b"uid", u64::from(uid)),
        None => Ok(()),
    }
}

/// Writes a call that ended.
#[tactic(auto, unfolding(crate::specs::Lines::call_fields))]
fn put_call(alloc: Global, out: &mut Octets, call: EndedCall) -> Result<(), Memory>
    ensures { OnOk result (out.new ≡ out.old ++ call_fields call) }
{
    put_number(alloc, out, b"socket", u64::from(call.socket))?;
    put_word(out, b"method", call.method.name())?;
    put_word(out, b"status", call.status.name())?;
    put_uid(alloc, out, call.uid)
}

/// Writes the socket of a caller, and the entry of an ask.
fn put_waiting(alloc: Global, out: &mut Octets, socket: u32, ask: &Ask) -> Result<(), Memory>
    ensures { OnOk result (out.new ≡ out.old
        ++ number_field (codes "socket") socket ++ text_field (codes "entry") ask.now.entry_id) }
{
    put_number(alloc, out, b"socket", u64::from(socket))?;
    put_text(out, b"entry", ask.entry_id.as_slice())
}

/// Writes what an event says beside its name.
#[tactic(auto, unfolding(crate::specs::Lines::fields))]
fn put_fields(alloc: Global, out: &mut Octets, event: &Event<'_>) -> Result<(), Memory>
    ensures { OnOk result (out.new ≡ out.old ++ fields event.now) }
{
    match event {
        Event::BindFailed(path, cause) => put_unbound(out, path, *cause),
        Event::ConfigurationRefused(fault)
        | Event::LaterConfigurationRefused(fault)
        | Event::FirstDocumentRefused(fault)
        | Event::DocumentRefused(fault) => put_fault(alloc, out, fault),
        Event::ConfigurationTaken(changes) => put_changes(alloc, out, *changes),
        Event::RestartWanted(member) => put_text(out, b"member", member.name()),
        Event::SocketAdded(socket, path) => put_socket(alloc, out, *socket, path),
        Event::SocketRemoved(socket, path) => put_socket(alloc, out, *socket, path),
        Event::SocketOpenToAll(socket, path) => put_socket(alloc, out, *socket, path),
        Event::DocumentTaken(publication, counts) => put_taken(alloc, out, *publication, *counts),
        Event::ListenFailed(socket)
        | Event::AttestationFailed(socket)
        | Event::Connected(socket)
        | Event::Closed(socket) => put_number(alloc, out, b"socket", u64::from(*socket)),
        Event::AuthorityFailed(cause, since) => put_unpulled(out, *cause, since),
        Event::SigningFailed(ask, cause) => put_unsigned(out, ask, *cause),
        Event::TokenFailed(ask, cause) => put_unsigned(out, ask, *cause),
        Event::IdentityEnded(ask) => put_text(out, b"entry", ask.entry_id.as_slice()),
        Event::IdentityNotYetValid(ask, at) => put_moment(alloc, out, ask, b"not_before", *at),
        Event::CallerWaits(socket, ask) => put_waiting(alloc, out, *socket, ask),
        Event::ConnectionBroken(socket, code) => put_broken(alloc, out, *socket, *code),
        Event::LinkLate(socket, cause) => put_late(alloc, out, *socket, *cause),
        Event::ConnectionFailed(socket, cause) => put_failed(alloc, out, *socket, *cause),
        Event::ConnectionsOfUidFull(socket, uid) => put_user(alloc, out, *socket, *uid),
        Event::SocketBoundAnew(path) => put_text(out, b"path", path.as_slice()),
        Event::Signed(ask, not_after) => put_moment(alloc, out, ask, b"not_after", *not_after),
        Event::Serving(sockets) => put_number(alloc, out, b"sockets", u64::from(*sockets)),
        Event::Call(call) => put_call(alloc, out, *call),
        Event::Stopping(status) => put_number(alloc, out, b"status", u64::from(*status)),
        Event::ConfigurationUnread
        | Event::NoFirstDocument
        | Event::NoThread
        | Event::HostFailed
        | Event::OutputFailed
        | Event::OutOfMemory
        | Event::AuthorityBack
        | Event::SignerBack => Ok(()),
    }
}

/// Writes how many lines like it were held back before it.
#[tactic(auto, unfolding(crate::specs::Lines::repeated))]
fn put_repeated(alloc: Global, out: &mut Octets, held: u64) -> Result<(), Memory>
    ensures { OnOk result (out.new ≡ out.old ++ repeated held) }
{
    if held == 0 {
        return Ok(());
    }
    put_number(alloc, out, b"repeated", held)
}

/// Writes the line of an event at a time, of which so many like it were held back before.
#[tactic(auto, unfolding(crate::specs::Lines::line, crate::specs::Lines::said))]
pub fn put_line(
    alloc: Global,
    out: &mut Octets,
    time: &TimeText,
    event: &Event<'_>,
    held: u64,
) -> Result<(), Memory>
    ensures { OnOk result (out.new ≡ out.old ++ line time.now event.now held) }
{
    out.push_slice(b"ts=")?;
    put_escaped(out, time.as_slice())?;
    put_word(out, b"level", event.level().name())?;
    put_word(out, b"event", event.name())?;
    put_fields(alloc, out, event)?;
    put_repeated(alloc, out, held)?;
    out.push_slice(b"\n")
}
