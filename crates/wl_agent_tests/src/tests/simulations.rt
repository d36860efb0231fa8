//! Simulations.

use super::{USAGE, ends, ran, sink, source};
use std::process::Abort;
use std::sync::Wait;
use std::thread::Threads;
use wl_edge::MemorySink;

/// Words, with the status and the text that are due. Nothing is read.
type Run = (&'static [&'static str], u8, &'static str);

const SIMULATIONS: [Run; 6] = [
    (
        &["simulate", "7", "1", "1", "0"],
        0,
        "entries=1 callers=1 steps=0 publications=1 responses=0 bytes=0\n",
    ),
    (
        &["simulate", "0", "1", "1", "4"],
        0,
        "entries=1 callers=1 steps=4 publications=2 responses=0 bytes=21\n",
    ),
    (
        &["simulate", "1234567", "1", "1", "5"],
        0,
        "entries=1 callers=1 steps=5 publications=1 responses=0 bytes=60\n",
    ),
    (
        &["simulate", "+0", "--", "+1", "01", "4"],
        0,
        "entries=1 callers=1 steps=4 publications=2 responses=0 bytes=21\n",
    ),
    (
        &["simulate", "18446744073709551615", "10000", "32", "0"],
        0,
        "entries=10000 callers=32 steps=0 publications=1 responses=0 bytes=0\n",
    ),
    (
        &["simulate", "7", "1", "1", "0", "--"],
        0,
        "entries=1 callers=1 steps=0 publications=1 responses=0 bytes=0\n",
    ),
];

#[test]
fn simulations(rt: HostRuntime) {
    for (words, status, text) in &SIMULATIONS {
        ends(&rt, words, "{", *status, text);
    }
}

/// Words that fit nothing.
const UNFIT: [&[&str]; 16] = [
    &["simulate"],
    &["simulate", "1", "1", "1"],
    &["simulate", "1", "1", "1", "0", "0"],
    &["simulate", "7", "1", "1", "0", "--x"],
    &["simulate", "-7", "1", "1", "0"],
    &["simulate", "--", "-7", "1", "1", "0"],
    &["simulate", "18446744073709551616", "1", "1", "0"],
    &["simulate", "", "1", "1", "0"],
    &["simulate", "+", "1", "1", "0"],
    &["simulate", "++7", "1", "1", "0"],
    &["simulate", "7.0", "1", "1", "0"],
    &["simulate", "1", "0", "1", "0"],
    &["simulate", "7", "10001", "1", "0"],
    &["simulate", "7", "1", "0", "0"],
    &["simulate", "7", "1", "33", "0"],
    &["simulate", "7", "1", "1", "100001"],
];

#[test]
fn unfit_simulations(rt: HostRuntime) {
    for words in &UNFIT {
        ends(&rt, words, "{", 2, USAGE);
    }
}

/// What a run of these words that reads nothing writes.
fn simulated(
    rt: &(impl AllocGlobal + Abort + Threads + Wait + Sync),
    words: &[&str],
) -> MemorySink {
    let (status, output) = ran(rt, words, source(rt, b"", 64, &[]), sink(rt, 1_000, &[]));
    assert_eq!(rt; status, 0);
    output
}

#[test]
fn simulation_repeats(rt: HostRuntime) {
    let words = &["simulate", "1", "20", "4", "100"];
    let first = simulated(&rt, words);
    let again = simulated(&rt, words);
    assert_eq!(rt; first.bytes(), again.bytes());
}
