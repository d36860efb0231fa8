//! What is said of an event.

ghost use Rattle.std.specs.Prelude.{◌≡◌, ◌∷◌, [], ◌++◌, IfOk, OnOk};
ghost use Rattle.list_laws.specs.Lists.{GainsFront};
ghost use Rattle.wl_core.specs.Lines.{out_lines, failure_lines, idle_lines};

use output_parts::Output;
use std::alloc::Global;
use wl_document::DocFault;
use wl_entry::Unfit;
use wl_octets::{Memory, Octets, Row};
use wl_session::SessionFault;

/// A line of a transcript. A lone number of 32 bits is the connection.
#[derive(Drop)]
pub enum Line {
    /// The document was refused.
    Refused(DocFault),
    /// The document changed nothing that is published.
    Same,
    /// The publication of this number was made.
    Published(u64),
    /// A ticket was given for the entry of this id.
    Ticket { number: u64, entry_id: Octets },
    /// The ticket is not in flight.
    Spent,
    /// No entry has the ticket's ask any more.
    UnknownAsk,
    /// The signed identity is of no use.
    Unfit(Unfit),
    /// The kept identity ends at this time, and the new one not later.
    Older(u64),
    /// The signed identity is kept.
    Kept,
    /// The ticket came back without an identity.
    Failed,
    /// There is a session on the connection already.
    Busy(u32),
    /// A session begins on the connection.
    Joined(u32),
    /// There is no session on the connection.
    Absent(u32),
    /// These bytes were written to the caller.
    Out { conn: u32, bytes: Octets },
    /// The session has failed, with this error code of HTTP/2.
    Ended { conn: u32, code: u32 },
    /// No ask waits.
    Idle(u32),
    /// The session has ended with its connection.
    Closed(u32),
    /// The session's calls are attested with new selectors from now on.
    Named(u32),
    /// The session's calls can't be attested from now on.
    Unnamed(u32),
}

/// One line.
pub fn one_line(alloc: Global, line: Line) -> Result<Row<Line>, Memory>
    ensures { IfOk result (λ l. l ≡ line ∷ []) }
{
    let mut lines = Row::empty(alloc);
    lines.push(line)?;
    Ok(lines)
}

/// Appends lines; out of memory, a prefix of them was appended.
pub fn say_all(said: &mut Row<Line>, lines: Row<Line>) -> Result<(), Memory>
    ensures ok { OnOk result (said.new ≡ said.old ++ lines) }
    ensures prefix { GainsFront lines said.old said.new }
{
    for line in lines.into_vec() {
        said.push(line)?;
    }
    Ok(())
}

/// What a session wrote, and that it has failed.
pub fn session_lines(
    alloc: Global,
    conn: u32,
    out: Output,
    failure: Option<SessionFault>,
) -> Result<Row<Line>, Memory>
    ensures { IfOk result (λ l. l ≡ out_lines conn out ++ failure_lines conn failure) }
{
    let mut lines = Row::empty(alloc);
    if out.len() > 0 {
        let bytes = out.into_octets(alloc)?;
        lines.push(Line::Out { conn, bytes })?;
    }
    if let Some(SessionFault::Protocol(fault)) = failure {
        lines.push(Line::Ended {
            conn,
            code: fault.code,
        })?;
    }
    Ok(lines)
}

/// That no ask waits, in a session that may have failed.
pub fn idle_lines(
    alloc: Global,
    conn: u32,
    failure: Option<SessionFault>,
) -> Result<Row<Line>, Memory>
    ensures { IfOk result (λ l. l ≡ idle_lines conn failure) }
{
    match failure {
        None => one_line(alloc, Line::Idle(conn)),
        Some(SessionFault::Protocol(fault)) => one_line(
            alloc,
            Line::Ended {
                conn,
                code: fault.code,
            },
        ),
        Some(SessionFault::Memory) => Ok(Row::empty(alloc)),
    }
}
