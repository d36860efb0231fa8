//! Calls that ended, as lines.

use call_counts::{CallCounts, CallMethod, CallStatus, MethodCounts};
use event_log::{EndedCall, Event};
use log_output::Log;

/// The socket of a connection, and the user of its caller where the kernel names it.
#[derive(Clone, Copy, Debug, Drop)]
struct Caller {
    socket: u32,
    uid: Option<u32>,
}

/// Says a call so many times.
fn say_ended(log: &Log, now: u64, call: EndedCall, count: u32) {
    for _ in 0..count {
        log.say_after(now, &Event::Call(call), 0);
    }
}

/// Says the calls of a method that ended, by their status.
fn say_method(log: &Log, now: u64, caller: Caller, method: CallMethod, counts: &MethodCounts) {
    for status in CallStatus::all() {
        let call = EndedCall {
            socket: caller.socket,
            uid: caller.uid,
            method,
            status,
        };
        say_ended(log, now, call, counts.ended(status));
    }
}

/// Says each call of a connection that ended, by method and status.
pub(crate) fn say_calls(log: &Log, socket: u32, uid: Option<u32>, calls: &CallCounts) {
    let now = log.now();
    let caller = Caller { socket, uid };
    for method in CallMethod::all() {
        let counts = calls.of(method);
        if counts.is_empty() {
            continue;
        }
        say_method(log, now, caller, method, counts);
    }
}
