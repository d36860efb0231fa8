//! Whether so many threads can be had.

ghost use Rattle.std.specs.Prelude.{◌≤◌};

use crate::for_each_beside;
use std::rt::Clock;
use std::sync::atomic::{AtomicBool, AtomicU32, Ordering};
use std::thread;
use std::thread::Threads;
use std::time::Duration;

/// How many threads can be asked for at most.
const MAX_THREADS: usize = 64;

/// How often a thread looks whether all others are there.
const LOOKS: u32 = 500;

/// How many milliseconds it sleeps after each look: five seconds in all.
const PAUSE_MILLIS: u64 = 10;

/// Threads that wait for one another.
#[derive(Drop)]
struct Muster {
    /// How many have to come.
    count: u32,
    /// How many have come.
    here: AtomicU32,
    /// Whether one of them waited in vain.
    is_short: AtomicBool,
}

impl Muster {
    /// Nobody has come yet.
    fn start(count: u32) -> Muster {
        Muster {
            count,
            here: AtomicU32::new(0),
            is_short: AtomicBool::new(false),
        }
    }

    /// Comes, and waits until all others are there, or one of them has waited in vain. Gives whether all are there.
    fn attend(&self, clock: &impl Clock) -> bool {
        self.here.fetch_add(1, Ordering::SeqCst);
        for _ in 0..LOOKS {
            if self.is_short.load(Ordering::SeqCst) {
                return false;
            }
            if self.here.load(Ordering::SeqCst) >= self.count {
                return true;
            }
            thread::sleep(clock, Duration::from_millis(PAUSE_MILLIS));
        }
        self.is_short.store(true, Ordering::SeqCst);
        false
    }
}

/// Whether so many threads, from 2 to 64 and this one among them, work at once now. They have ended when it returns, after five
/// seconds at most where a thread is missing. They sleep by this clock.
pub fn can_start<R: Threads + Sync, C: Clock + Sync>(rt: &R, clock: &C, count: u32) -> bool
    requires some { 2 ≤ count }
    requires at_most { count ≤ 64 }
{
    let muster = Muster::start(count);
    let mut is_whole = false;
    let mut others = [false; MAX_THREADS];
    for_each_beside(
        rt,
        &|_, other: &mut bool| *other = muster.attend(clock),
        &mut || is_whole = muster.attend(clock),
        &mut others[1..count as usize],
    );
    is_whole && !muster.is_short.load(Ordering::SeqCst)
}
