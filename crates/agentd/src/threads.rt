//! The threads that serving needs.

ghost use Rattle.std.specs.Prelude.{◌≤◌};

use at_once::can_start;
use std::alloc::Global;
use std::rt::Clock;
use std::thread::Threads;
use wl_config::{Config, read_config};
use wl_dealing::seat_count;

/// The keeper and the puller.
const UPKEEP_THREADS: u32 = 2;

/// So many threads can be asked for at most; a configuration needs fewer.
const MOST_THREADS: u32 = 64;

/// How many threads a configuration needs: one for each seat and each signer, those of upkeep, and one for the pages.
fn needed_threads(config: &Config) -> u32
    ensures some { 2 ≤ result }
    ensures at_most { result ≤ 64 }
{
    let seats = seat_count(config.threads, config.sockets.as_slice());
    let pages = u32::from(config.metrics.is_some());
    seats
        .saturating_add(config.signers)
        .saturating_add(pages)
        .saturating_add(UPKEEP_THREADS)
        .min(MOST_THREADS)
}

/// Whether the threads that this configuration needs can be had now. One with a fault needs none: serving names its fault.
pub(crate) fn has_threads<R: Threads + Sync, C: Clock + Sync>(
    threads: &R,
    clock: &C,
    alloc: Global,
    configuration: &[u8],
) -> bool {
    match read_config(alloc, configuration) {
        Ok(config) => can_start(threads, clock, needed_threads(&config)),
        Err(_) => true,
    }
}
