//! The log of a program.

use crate::notifier::Notifier;
use crate::output::LogOutput;
use event_log::{Event, Level, TimeText, put_line};
use std::alloc::{AllocGlobal, Global};
use std::rt::Clock;
use std::sync::atomic::{AtomicU8, Ordering};
use std::time::{SystemTime, UNIX_EPOCH};
use wl_octets::{Memory, Octets};

/// What a supervisor gets once the program serves.
const READY: &[u8] = b"READY=1";

/// What stands before the state of a program.
const STATUS: &[u8] = b"STATUS=";

/// The log of a program, of events that are as grave as its level or graver. Threads may share it.
#[derive(Drop)]
pub struct Log {
    rt: HostRuntime,
    alloc: Global,
    output: LogOutput,
    rank: AtomicU8,
    supervisor: Option<Notifier>,
}

impl Log {
    /// A log to standard error, at this level, with the supervisor that the environment names.
    pub fn start(rt: HostRuntime, level: Level) -> Log {
        let output = LogOutput::to_standard_error(&rt);
        let supervisor = Notifier::of_environment(&rt);
        Log::over(rt, output, level, supervisor)
    }

    /// A log to this output, at this level, with this supervisor.
    pub fn over(
        rt: HostRuntime,
        output: LogOutput,
        level: Level,
        supervisor: Option<Notifier>,
    ) -> Log {
        let alloc = rt.alloc();
        Log {
            rt,
            alloc,
            output,
            rank: AtomicU8::new(level.rank()),
            supervisor,
        }
    }

    /// From now on says what is as grave as this level or graver.
    pub fn set_level(&self, level: Level) {
        self.rank.store(level.rank(), Ordering::SeqCst);
    }

    /// Whether it says events of this level. A warning or graver one goes to a supervisor whatever the level is.
    pub fn says(&self, level: Level) -> bool {
        level.rank() <= self.rank.load(Ordering::SeqCst)
    }

    /// The runtime that it has.
    pub fn runtime(&self) -> &HostRuntime {
        &self.rt
    }

    /// The Unix time in seconds; 0 where the system gives none.
    pub fn now(&self) -> u64 {
        match SystemTime::now(&self.rt) {
            Ok(now) => match now.duration_since(UNIX_EPOCH) {
                Ok(since) => since.as_secs(),
                Err(_) => 0,
            },
            Err(_) => 0,
        }
    }

    /// The text of a Unix time.
    pub fn time_text(&self, seconds: u64) -> Result<TimeText, Memory> {
        TimeText::at(self.alloc, seconds)
    }

    /// The line of an event at this time.
    fn line_of(&self, now: u64, event: &Event<'_>, held: u64) -> Result<Octets, Memory> {
        let time = self.time_text(now)?;
        let mut line = Octets::empty(self.alloc);
        put_line(self.alloc, &mut line, &time, event, held)?;
        Ok(line)
    }

    /// Tells a supervisor the line of a grave event, without its time.
    fn tell_state(&self, line: &[u8]) -> Result<(), Memory> {
        let Some(supervisor) = &self.supervisor else {
            return Ok(());
        };
        let mut words = line.splitn(2, |byte| *byte == b' ');
        let (_, Some(said)) = (words.next(), words.next()) else {
            return Ok(());
        };
        let mut message = Octets::from_slice(self.alloc, STATUS)?;
        message.push_slice(said)?;
        supervisor.tell(message.as_slice());
        Ok(())
    }

    /// Writes an event of this time as a line, and tells a supervisor the last one that is a warning or graver.
    fn say_line(&self, now: u64, event: &Event<'_>, held: u64) -> Result<(), Memory> {
        let level = event.level();
        let is_said = self.says(level);
        let is_state = level.rank() <= Level::Warn.rank() && self.supervisor.is_some();
        if !is_said && !is_state {
            return Ok(());
        }
        let line = self.line_of(now, event, held)?;
        if is_said {
            self.output.write_line(line.as_slice());
        }
        if is_state {
            self.tell_state(line.as_slice())?;
        }
        Ok(())
    }

    /// Says an event of this time, of which so many like it were held back before, where it is grave enough. A supervisor gets
    /// a message once the program serves, and one for each warning or graver event, whatever the level.
    pub fn say_after(&self, now: u64, event: &Event<'_>, held: u64) {
        if self.say_line(now, event, held).is_err() {
            self.output.note_dropped();
        }
        if let (Event::Serving(_), Some(supervisor)) = (event, &self.supervisor) {
            supervisor.tell(READY);
        }
    }

    /// Says an event now, where it is grave enough.
    pub fn say(&self, event: &Event<'_>) {
        self.say_after(self.now(), event, 0);
    }

    /// How many lines were dropped.
    pub fn dropped(&self) -> u64 {
        self.output.dropped()
    }
}
