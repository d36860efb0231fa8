//! The files of the last message, with tokens that are asked for again before they end.

use crate::content::Content;
use crate::folder_writer::FolderWriter;
use crate::token_asks::{Missing, TokenAsker, earliest_end};
use std::alloc::Global;
use std::io;
use token_files::Answers;
use wl_edge::Clock;
use wl_edge_real::RealClock;
use wl_octets::{Memory, Octets};

/// How many seconds are waited at most until the next try of what failed.
pub const MAX_WAIT_SECONDS: u64 = 30;

/// How many seconds pass at most until the JWT bundle is asked for again, and tokens of which it isn't known when they end.
const MAX_AGE_SECONDS: u64 = 30;

/// How many seconds are waited after so many, where it failed again.
pub fn next_wait(seconds: u64) -> u64 {
    seconds.saturating_add(seconds).min(MAX_WAIT_SECONDS)
}

/// After how many seconds tokens are asked for again of which the first ends then: half of the time that is left, but one at
/// least.
fn half_until(now: u64, end: Option<u64>) -> u64 {
    match end {
        Some(end) if end > now => ((end - now) / 2).max(1),
        _ => MAX_AGE_SECONDS,
    }
}

/// What is due, and when, in Unix seconds.
#[derive(Clone, Copy, Drop)]
struct Due {
    /// When the tokens are asked for again.
    tokens: u64,
    /// When anything is.
    next: u64,
    /// When it was asked for last: a clock that was set back before this is due at once.
    last: u64,
    /// How many seconds are waited after the next failure.
    wait: u64,
}

/// Writes the files of each message, and keeps their tokens fresh.
#[derive(Drop)]
pub struct Keeper<'a> {
    alloc: Global,
    writer: FolderWriter<'a>,
    asker: TokenAsker,
    clock: RealClock<HostRuntime>,
    is_kept: bool,
    message: Option<Octets>,
    /// The answers that belong to the set that stands, where that is one of this message.
    stood: Option<Answers>,
    due: Due,
    status: Option<u8>,
}

impl<'a> Keeper<'a> {
    /// A keeper with this writer. Without audiences it asks for nothing.
    pub fn start(
        rt: HostRuntime,
        writer: FolderWriter<'a>,
        asker: TokenAsker,
        is_kept: bool,
    ) -> Result<Keeper<'a>, Memory> {
        let alloc = rt.alloc();
        let clock = RealClock::start(rt);
        let due = Due {
            tokens: 0,
            next: 0,
            last: 0,
            wait: 1,
        };
        Ok(Keeper {
            alloc,
            writer,
            asker,
            clock,
            is_kept,
            message: None,
            stood: None,
            due,
            status: None,
        })
    }

    /// What writes the files.
    pub fn writer(&self) -> &FolderWriter<'a> {
        &self.writer
    }

    /// Whether tokens are asked for.
    pub fn has_audiences(&self) -> bool {
        self.asker.is_wanted()
    }

    /// The status with which a program ends for which a token can't be had.
    pub fn status(&self) -> Option<u8> {
        self.status
    }

    /// Forgets the last message: its call has ended.
    pub fn forget(&mut self) {
        self.message = None;
    }

    /// Says what can't be had, and when it is tried again.
    fn miss(&mut self, missing: &Missing, now: u64) {
        let wait = self.due.wait;
        let told = if self.is_kept { Some(wait) } else { None };
        self.writer.log().say(missing.event(self.alloc, told));
        self.status = Some(missing.status());
        self.due.next = now.saturating_add(wait);
        self.due.wait = next_wait(wait);
    }

    /// Notes when the next answers are due.
    fn note(&mut self, now: u64, tokens: u64) {
        self.due.tokens = tokens;
        self.due.next = tokens.min(now.saturating_add(MAX_AGE_SECONDS));
        self.due.wait = 1;
    }

    /// Writes the set with these answers, unless they are those of the set that stands.
    fn write(&mut self, message: &[u8], answers: Answers) -> io::Result<()> {
        let fresh = Some(answers);
        if self.stood != fresh {
            self.stood = None;
            self.writer.publish(&Content::Svids {
                message,
                answers: &fresh,
            })?;
        }
        self.stood = fresh;
        Ok(())
    }

    /// Asks for the tokens and the bundle, and writes the set where any is new.
    fn renew_all(&mut self, message: &[u8], now: u64) -> Result<io::Result<()>, Missing> {
        let tokens = self.asker.tokens()?;
        let bundles = self.asker.bundles(message)?;
        let Ok(end) = earliest_end(self.alloc, tokens.as_slice()) else {
            return Ok(Err(io::ErrorKind::OutOfMemory.into()));
        };
        let written = self.write(message, Answers { tokens, bundles });
        if written.is_ok() {
            self.note(now, now.saturating_add(half_until(now, end)));
        }
        Ok(written)
    }

    /// Asks for the bundle alone, and writes the set where it is new. The tokens are those that stand.
    fn renew_bundle(
        &mut self,
        message: &[u8],
        now: u64,
        stood: Answers,
    ) -> Result<io::Result<()>, Missing> {
        let bundles = match self.asker.bundles(message) {
            Ok(bundles) => bundles,
            Err(missing) => {
                self.stood = Some(stood);
                return Err(missing);
            }
        };
        let is_same = bundles.as_slice() == stood.bundles.as_slice();
        let answers = Answers {
            tokens: stood.tokens,
            bundles,
        };
        let written = if is_same {
            self.stood = Some(answers);
            Ok(())
        } else {
            self.write(message, answers)
        };
        if written.is_ok() {
            self.note(now, self.due.tokens);
        }
        Ok(written)
    }

    /// Renews what is due at this time.
    fn renew(&mut self, message: &[u8], now: u64) -> io::Result<()> {
        let are_due = now >= self.due.tokens || now < self.due.last;
        self.due.last = now;
        let renewed = match self.stood.take() {
            Some(stood) if !are_due => self.renew_bundle(message, now, stood),
            stood => {
                self.stood = stood;
                self.renew_all(message, now)
            }
        };
        match renewed {
            Ok(written) => written,
            Err(missing) => {
                self.miss(&missing, now);
                Ok(())
            }
        }
    }

    /// Takes a message: its files are written, with the tokens that belong to it. Whether the call is to go on, which it isn't
    /// where a token can't be had and nothing is kept.
    pub fn take(&mut self, message: &[u8]) -> io::Result<bool> {
        if !self.asker.is_wanted() {
            self.writer.publish(&Content::Svids {
                message,
                answers: &None,
            })?;
            return Ok(true);
        }
        let Ok(own) = Octets::from_slice(self.alloc, message) else {
            return Err(io::ErrorKind::OutOfMemory.into());
        };
        self.stood = None;
        self.status = None;
        let now = self.clock.now();
        let renewed = self.renew(message, now);
        self.message = Some(own);
        renewed?;
        Ok(self.is_kept || self.status.is_none())
    }

    /// Renews what is due by now. False where a file that isn't its own stands in the way. Where a set can't be written it is
    /// tried again as with a token that can't be had.
    pub fn tick(&mut self) -> bool {
        let Some(message) = self.message.take() else {
            return true;
        };
        let now = self.clock.now();
        if now >= self.due.next || now < self.due.last {
            if let Err(error) = self.renew(message.as_slice(), now) {
                self.writer.say(&error);
                self.due.next = now.saturating_add(self.due.wait);
                self.due.wait = next_wait(self.due.wait);
            }
        }
        self.message = Some(message);
        !self.writer.is_refused()
    }
}
