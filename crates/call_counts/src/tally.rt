//! The calls of one connection that have not ended, and what became of them since one asked last.

use crate::counts::CallCounts;
use crate::labels::{CallMethod, CallStatus};
use std::alloc::Global;
use std::mem;
use wl_octets::Memory;

/// A call that has not ended.
#[derive(Clone, Copy, Debug, Drop, PartialEq, Eq)]
struct LiveCall {
    stream: u32,
    method: CallMethod,
}

/// The calls of a connection, by their streams.
#[derive(Drop)]
pub struct CallTally {
    live: Vec<LiveCall>,
    counts: CallCounts,
}

impl CallTally {
    /// No call began.
    pub fn start(alloc: Global) -> CallTally {
        CallTally {
            live: Vec::new(alloc),
            counts: CallCounts::zero(),
        }
    }

    /// The request of a call of this method was read on this stream.
    pub fn begin(&mut self, stream: u32, method: CallMethod) -> Result<(), Memory> {
        self.live.push(LiveCall { stream, method })?;
        self.counts.count_begin(method);
        Ok(())
    }

    /// Forgets the call on this stream, where there is one, and answers its method.
    fn forget(&mut self, stream: u32) -> Option<CallMethod> {
        let call = *self.live.iter().find(|call| call.stream == stream)?;
        self.live.retain(|other| other.stream != stream);
        Some(call.method)
    }

    /// A message answers the call on this stream.
    pub fn note_message(&mut self, stream: u32) {
        let found = self.live.iter().find(|call| call.stream == stream);
        if let Some(call) = found {
            self.counts.count_message(call.method);
        }
    }

    /// The call on this stream ended with this status. One that did not begin was refused before its request was read.
    pub fn end(&mut self, stream: u32, status: CallStatus) {
        let method = match self.forget(stream) {
            Some(method) => method,
            None => {
                self.counts.count_begin(CallMethod::Unread);
                CallMethod::Unread
            }
        };
        self.counts.count_end(method, status);
    }

    /// The stream is gone. Its call, where it has one, ended with that.
    pub fn cancel(&mut self, stream: u32) {
        if let Some(method) = self.forget(stream) {
            self.counts.count_end(method, CallStatus::Cancelled);
        }
    }

    /// The connection is gone, and all its calls with it.
    pub fn cancel_all(&mut self) {
        for call in self.live.iter() {
            self.counts.count_end(call.method, CallStatus::Cancelled);
        }
        self.live.clear();
    }

    /// What became of calls since this was asked last.
    pub fn take(&mut self) -> CallCounts {
        mem::replace(&mut self.counts, CallCounts::zero())
    }
}
