//! Words that fit no command: the usage on the output, nothing read, and why in words.

use super::{DOC, USAGE, ends, word_list};
use std::alloc::AllocGlobal;
use std::process::Abort;
use wl_agent::refusal;
use wl_agent::status::USAGE as USAGE_STATUS;

/// Words that are those of no command.
const UNFIT: [&[&str]; 13] = [
    &[],
    &["preview"],
    &["preview", "x"],
    &["preview", "-x:y"],
    &["preview", "a:b", "--help"],
    &["check", "--help"],
    &["check", "-h"],
    &["--help"],
    &["--version"],
    &["help"],
    &["--", "check"],
    &["simulate", "1", "0", "1", "0"],
    &["simulate", "1", "1", "1", "--help"],
];

#[test]
fn words_that_fit_nothing(rt: HostRuntime) {
    for words in &UNFIT {
        ends(&rt, words, DOC, USAGE_STATUS, USAGE);
    }
}

/// What is said of these words.
fn said(rt: &(impl AllocGlobal + Abort), words: &[&str]) -> String {
    let words = word_list(rt, words);
    refusal(rt.alloc(), words.as_slice()).expect(rt, "memory")
}

/// Words, and how what is said of them begins.
const SAID: [(&[&str], &str); 8] = [
    (&["check"], ""),
    (&["preview", "x"], "error: SELECTOR is type:value"),
    (
        &["preview"],
        "error: the following required arguments were not provided",
    ),
    (
        &["check", "--all"],
        "error: unexpected argument '--all' found",
    ),
    (&["chek"], "error: unrecognized subcommand 'chek'"),
    (&["--version"], "agentd 0.2.0"),
    (&["preview", "a:b", "--help"], "Writes what a caller"),
    (&[], "error: 'agentd' requires a subcommand"),
];

#[test]
fn refusals(rt: HostRuntime) {
    for (words, start) in &SAID {
        assert!(rt; said(&rt, words).as_str().starts_with(*start), "{start}");
    }
}

/// Nothing is said of words that fit.
#[test]
fn words_that_fit(rt: HostRuntime) {
    for words in [["check", "--"], ["serve", "a.json"], ["preview", "a:b"]] {
        assert!(rt; said(&rt, &words).is_empty());
    }
}

/// How many words a long command line has.
const MANY: usize = 100_000;

#[test]
fn many_words(rt: HostRuntime) {
    let mut words = Vec::new(rt.alloc());
    words.push("preview").expect(&rt, "memory");
    for _ in 0..MANY {
        words.push("a:b").expect(&rt, "memory");
    }
    ends(&rt, words.as_slice(), DOC, USAGE_STATUS, USAGE);
}
