//! What goes out: bytes to the server, lines to the sink.

ghost use Rattle.std.specs.Prelude.{◌≡◌, ◌++◌, IfOk, OnOk, option_map};
ghost use Rattle.wl_control.specs.Runs.{line_of, verdict_line};
ghost use Rattle.wl_control.specs.Ends.{moment, status_of, Delivers, SendsAll};

use crate::asked::Verdict;
use crate::lines::{put_fault, put_status};
use crate::status::{CLIENT_FAULT, DENIED, DONE, WRITE_FAILED};
use wl_edge::{Link, Sent, Sink, write_all};
use wl_octets::{Memory, Octets};

/// What is due: bytes for the server, lines for the sink, and how the call was decided, if it was.
#[derive(Drop)]
pub(crate) struct Turn {
    pub(crate) sent: Octets,
    pub(crate) text: Vec<u8>,
    pub(crate) verdict: Option<Verdict>,
}

/// Sends all of the bytes. False where a sending failed; then a prefix of them was sent.
pub(crate) fn send_all<L: Link>(link: &mut L, bytes: &[u8]) -> bool
    ensures sends { SendsAll (L.told link.old) (L.told link.new) (L.failed_sends link.old) (L.failed_sends link.new) bytes.now result }
    ensures receives { L.failed_receives link.new ≡ L.failed_receives link.old }
{
    let mut rest = bytes;
    'sends: while !rest.is_empty() {
        match link.send(rest) {
            Sent::Took(count) => rest = rest.split_at(count).1,
            Sent::Failed => return false,
        }
    }
    true
}

/// The status of a verdict, whose line goes after the others.
fn put_verdict(text: &mut Vec<u8>, verdict: &Verdict) -> Result<u8, Memory>
    ensures status { IfOk result (λ status. status ≡ status_of verdict.now) }
    ensures line { OnOk result (text.new.items ≡ text.old.items ++ line_of verdict.now) }
{
    match verdict {
        Verdict::Done => Ok(DONE),
        Verdict::Denied { code, text: why } => {
            put_status(text, *code, why.as_slice())?;
            Ok(DENIED)
        }
        Verdict::Faulted(fault) => {
            put_fault(text, *fault)?;
            Ok(CLIENT_FAULT)
        }
    }
}

/// The same of a verdict that may not be there yet.
fn put_ending(text: &mut Vec<u8>, verdict: &Option<Verdict>) -> Result<Option<u8>, Memory>
    ensures status { IfOk result (λ status. status ≡ option_map status_of verdict.now) }
    ensures line { OnOk result (text.new.items ≡ text.old.items ++ verdict_line verdict.now) }
{
    match verdict {
        Some(verdict) => Ok(Some(put_verdict(text, verdict)?)),
        None => Ok(None),
    }
}

/// Writes and sends what is due: the lines first, since a server may close right after its answer. The status, where the
/// call is over.
pub(crate) fn deliver<L: Link, K: Sink>(
    turn: Turn,
    link: &mut L,
    sink: &mut K,
) -> Result<Option<u8>, Memory>
    ensures { Delivers turn.sent turn.text.items turn.verdict
        (moment (L.told link.old) (K.taken sink.old) (L.failed_receives link.old) (L.failed_sends link.old) (K.faults sink.old))
        (moment (L.told link.new) (K.taken sink.new) (L.failed_receives link.new) (L.failed_sends link.new) (K.faults sink.new)) result }
{
    let mut text = turn.text;
    let status = put_ending(&mut text, &turn.verdict)?;
    if !write_all(sink, text.as_slice()) {
        return Ok(Some(WRITE_FAILED));
    }
    if !send_all(link, turn.sent.as_slice()) {
        return Ok(Some(WRITE_FAILED));
    }
    Ok(status)
}
