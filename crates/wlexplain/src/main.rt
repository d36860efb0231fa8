//! wlexplain: fault lines in, sentences out.
//!
//! It reads standard input to its end, and writes for each fault line of `agentd` one sentence with the place in words,
//! and every other line as it is, each as soon as it is whole.
#![tactic(auto)]

mod lines;
mod run;

use run::explain;
use std::alloc::AllocGlobal;
use std::process::ExitCode;
use wl_edge::{RealSink, RealSource};

fn main(rt: HostRuntime) -> ExitCode {
    let mut input = RealSource::start(rt.stdin());
    let mut output = RealSink::start(rt.stdout());
    ExitCode::from(explain(rt.alloc(), &mut input, &mut output))
}
