//! The log of `keep` and of tokens, on standard error.

use event_log::TimeText;
use keep_log::{KeepEvent, put_line};
use log_output::LogOutput;
use std::alloc::{AllocGlobal, Global};
use wl_edge::Clock;
use wl_edge_real::RealClock;
use wl_octets::{Memory, Octets};

/// How many bytes of a text from outside a line has at most: escaped, it still is part of a line of 4,096 bytes.
const MAX_TEXT_LEN: usize = 500;

/// A log on standard error, whose lines are dropped where a write would wait.
#[derive(Drop)]
pub struct KeepLog {
    rt: HostRuntime,
    alloc: Global,
    output: LogOutput,
}

/// The first bytes of a text from outside.
pub fn shortened(alloc: Global, text: &[u8]) -> Result<Octets, Memory> {
    let len = text.len().min(MAX_TEXT_LEN);
    Octets::from_slice(alloc, text.split_at(len).0)
}

impl KeepLog {
    /// A log on standard error.
    pub fn start(rt: HostRuntime) -> KeepLog {
        let output = LogOutput::to_standard_error(&rt);
        let alloc = rt.alloc();
        KeepLog { rt, alloc, output }
    }

    fn now(&self) -> Result<TimeText, Memory> {
        let mut clock = RealClock::start(self.rt.clone()?);
        TimeText::at(self.alloc, clock.now())
    }

    fn line_of(&self, event: &KeepEvent) -> Result<Octets, Memory> {
        let time = self.now()?;
        let mut line = Octets::empty(self.alloc);
        put_line(self.alloc, &mut line, &time, event)?;
        Ok(line)
    }

    /// Says an event of now. An event or a line for which there is no memory is dropped.
    pub fn say(&self, event: Result<KeepEvent, Memory>) {
        let Ok(event) = event else {
            return;
        };
        if let Ok(line) = self.line_of(&event) {
            self.output.write_line(line.as_slice());
        }
    }
}
