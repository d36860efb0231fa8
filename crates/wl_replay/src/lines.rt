//! The lines of a transcript.

ghost use Rattle.std.specs.Prelude.{◌≡◌, ◌++◌, IfOk, OnOk, OnErr};
ghost use Rattle.wl_replay.specs.Lines.{line_text, word_line, text_line, unfit_number};

use crate::doc_faults::put_fault;
use crate::hex::put_hex;
use crate::numbers::{put_all, put_spaced};
use std::alloc::Global;
use wl_core::Line;
use wl_document::DocFault;
use wl_entry::Unfit;
use wl_octets::{Memory, Octets};

/// The number of a reason.
#[tactic(auto, unfolding(crate::specs::Lines::unfit_number))]
fn unfit_number(reason: &Unfit) -> u64
    ensures { result ≡ unfit_number reason.now }
{
    match reason {
        Unfit::Times => 1,
        Unfit::Expired => 2,
        Unfit::EmptyChain => 3,
        Unfit::EmptyKey => 4,
        Unfit::TooLong(_) => 5,
        Unfit::Cert(_) => 6,
        Unfit::OtherId { asked: _, named: _ } => 7,
        Unfit::OtherTimes {
            before: _,
            after: _,
        } => 8,
    }
}

/// A word and numbers.
fn word_line(alloc: Global, word: &[u8], numbers: &[u64]) -> Result<Octets, Memory>
    ensures { IfOk result (λ o. o ≡ word_line word.now numbers.now) }
{
    let mut text = Vec::from_slice(alloc, word)?;
    put_all(&mut text, numbers)?;
    text.push(b'\n')?;
    Ok(Octets::from_vec(text))
}

/// A word, a number and a text.
fn text_line(alloc: Global, word: &[u8], number: u64, text: &[u8]) -> Result<Octets, Memory>
    ensures { IfOk result (λ o. o ≡ text_line word.now number text.now) }
{
    let mut line = Vec::from_slice(alloc, word)?;
    put_spaced(&mut line, number)?;
    line.push(b' ')?;
    line.extend_from_slice(text)?;
    line.push(b'\n')?;
    Ok(Octets::from_vec(line))
}

/// A refused document.
#[tactic(auto, unfolding(crate::specs::Lines::line_text))]
fn refused_line(alloc: Global, fault: DocFault) -> Result<Octets, Memory>
    ensures { IfOk result (λ o. o ≡ line_text (Line.Refused fault)) }
{
    let mut text = Vec::from_slice(alloc, b"refused")?;
    put_fault(&mut text, fault)?;
    text.push(b'\n')?;
    Ok(Octets::from_vec(text))
}

/// Bytes that were written.
#[tactic(auto, unfolding(crate::specs::Lines::line_text))]
fn out_line(alloc: Global, conn: u32, bytes: &[u8]) -> Result<Octets, Memory>
    ensures { IfOk result (λ o. o ≡ line_text (Line.Out conn bytes.now)) }
{
    let mut text = Vec::from_slice(alloc, b"out")?;
    put_spaced(&mut text, u64::from(conn))?;
    text.push(b' ')?;
    put_hex(&mut text, bytes)?;
    text.push(b'\n')?;
    Ok(Octets::from_vec(text))
}

/// The text of a line.
#[tactic(auto, unfolding(crate::specs::Lines::line_text))]
fn text_of(alloc: Global, line: &Line) -> Result<Octets, Memory>
    ensures { IfOk result (λ o. o ≡ line_text line.now) }
{
    match line {
        Line::Refused(fault) => refused_line(alloc, *fault),
        Line::Same => word_line(alloc, b"same", &[]),
        Line::Published(number) => word_line(alloc, b"published", &[*number]),
        Line::Ticket { number, entry_id } => {
            text_line(alloc, b"ticket", *number, entry_id.as_slice())
        }
        Line::Spent => word_line(alloc, b"spent", &[]),
        Line::UnknownAsk => word_line(alloc, b"unknown-ask", &[]),
        Line::Unfit(reason) => word_line(alloc, b"unfit", &[unfit_number(reason)]),
        Line::Older(end) => word_line(alloc, b"older", &[*end]),
        Line::Kept => word_line(alloc, b"kept", &[]),
        Line::Failed => word_line(alloc, b"failed", &[]),
        Line::Busy(conn) => word_line(alloc, b"busy", &[u64::from(*conn)]),
        Line::Joined(conn) => word_line(alloc, b"joined", &[u64::from(*conn)]),
        Line::Absent(conn) => word_line(alloc, b"absent", &[u64::from(*conn)]),
        Line::Out { conn, bytes } => out_line(alloc, *conn, bytes.as_slice()),
        Line::Ended { conn, code } => {
            word_line(alloc, b"ended", &[u64::from(*conn), u64::from(*code)])
        }
        Line::Idle(conn) => word_line(alloc, b"idle", &[u64::from(*conn)]),
        Line::Closed(conn) => word_line(alloc, b"closed", &[u64::from(*conn)]),
        Line::Named(conn) => word_line(alloc, b"named", &[u64::from(*conn)]),
        Line::Unnamed(conn) => word_line(alloc, b"unnamed", &[u64::from(*conn)]),
    }
}

/// Appends the text of a line, with its newline. When memory runs out nothing changes.
pub fn put_line(alloc: Global, line: &Line, out: &mut Octets) -> Result<(), Memory>
    ensures ok { OnOk result (out.new ≡ out.old ++ line_text line.now) }
    ensures err { OnErr result (out.new ≡ out.old) }
{
    let text = text_of(alloc, line)?;
    out.push_slice(text.as_slice())
}
