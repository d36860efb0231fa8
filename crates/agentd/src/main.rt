//! agentd: the node agent of SPIFFE.
//!
//! It hands its words, its input, standard output and the operating system to `wl_agent::run`, and ends with its status.
//! The input is standard input, and for `serve CONFIG` that file. Standard error has the log of `serve`, and of each other
//! command why it ended with a status but 0.
#![tactic(auto)]

mod agent_socket;
mod agent_sockets;
mod bells;
mod bound;
mod documents;
mod doors;
mod ending;
mod figuring;
mod host;
mod lazy_file;
mod listening;
mod mending;
mod owners;
mod rereading;
mod running;
mod seats;
mod settings;
mod signers;
mod targets;
mod threads;

use crate::ending::{explain_end, say_end};
use crate::host::RealHost;
use crate::lazy_file::LazyFile;
use crate::rereading::{ConfigFile, FileMark};
use crate::running::serve_here;
use crate::settings::DEFAULT_LEVEL;
use crate::threads::has_threads;
use event_log::Event;
use log_output::Log;
use std::alloc::{AllocGlobal, Global};
use std::process::ExitCode;
use std::string::String;
use std::sync::{Arc, Wait};
use std::thread::Threads;
use wl_agent::status::{HOST_FAILED, OUT_OF_MEMORY, USAGE};
use wl_agent::{Host, READ_LIMIT, config_path, refusal, run};
use wl_edge::{RealSource, Source, read_all};
use wl_edge_real::{RealOutput, words};
use wl_octets::Memory;
use wl_saying::KeepingSink;

/// Writes why the words fit no command to standard error. Where that fails nobody reads it.
fn explain(rt: &HostRuntime, alloc: Global, words: &[String]) {
    if let Ok(text) = refusal(alloc, words) {
        let _ = eprint!(rt; "{text}");
    }
}

/// The status of a process that found no memory to begin, and its sentence.
fn without_memory(rt: &HostRuntime, alloc: Global) -> u8 {
    explain_end(rt, alloc, OUT_OF_MEMORY, &[]);
    OUT_OF_MEMORY
}

/// The log of this process.
fn start_log(rt: &HostRuntime, alloc: Global) -> Result<Arc<Log>, Memory> {
    let own = rt.clone().map_err(|_| Memory)?;
    Arc::new(alloc, Log::start(own, DEFAULT_LEVEL)).map_err(|_| Memory)
}

/// The real host, which has this log, and reads this configuration again where there is one.
fn start_host(
    rt: &HostRuntime,
    alloc: Global,
    log: &Arc<Log>,
    file: Option<ConfigFile>,
) -> Result<RealHost<HostRuntime>, Memory> {
    let own = rt.clone().map_err(|_| Memory)?;
    let log = Arc::try_clone(log).map_err(|_| Memory)?;
    RealHost::start(own, alloc, log, file)
}

/// Serves by the configuration that this source has, and by this file where that is read again. The log says why it ended.
fn serve_by(
    rt: &HostRuntime,
    threads: &(impl Threads + Wait + Sync),
    alloc: Global,
    configuration: impl Source + Drop,
    words: &[String],
    log: &Arc<Log>,
    file: Option<ConfigFile>,
) -> u8 {
    let Ok(binder) = start_host(rt, alloc, log, file) else {
        return without_memory(rt, alloc);
    };
    let mut host = Host {
        input: configuration,
        output: KeepingSink::start(alloc, RealOutput::start(rt.stdout())),
        binder,
        parts: None,
    };
    let status = serve_here(threads, alloc, words, &mut host);
    let is_prepared = host.parts.is_some();
    host.binder.remove_files(alloc);
    say_end(log, alloc, status, host.output.first_line(), is_prepared);
    status
}

/// Serves by the configuration in this file, which is read again once it changes. Where the threads that it needs can't be had,
/// nothing is bound.
fn serve_file(
    rt: &HostRuntime,
    threads: &(impl Threads + Wait + Sync),
    alloc: Global,
    path: &str,
    words: &[String],
) -> u8 {
    let Ok(log) = start_log(rt, alloc) else {
        return without_memory(rt, alloc);
    };
    let mark = FileMark::at(rt, path).ok();
    let mut file = RealSource::start(LazyFile::start(rt, path));
    let Ok(configuration) = read_all(alloc, &mut file, READ_LIMIT) else {
        // serving fails at the same, and says so
        let again = RealSource::start(LazyFile::start(rt, path));
        return serve_by(rt, threads, alloc, again, words, &log, None);
    };
    if !has_threads(threads, rt, alloc, configuration.as_slice()) {
        log.say(&Event::NoThread);
        say_end(&log, alloc, HOST_FAILED, &[], false);
        return HOST_FAILED;
    }
    let Ok(file) = ConfigFile::start(alloc, path, mark, configuration.as_slice()) else {
        return without_memory(rt, alloc);
    };
    let source = RealSource::start(configuration.as_slice());
    serve_by(rt, threads, alloc, source, words, &log, file)
}

/// Runs a command on standard input, and writes why it ended.
fn run_on_input(
    rt: &HostRuntime,
    threads: &(impl Threads + Wait + Sync),
    alloc: Global,
    words: &[String],
) -> u8 {
    let Ok(log) = start_log(rt, alloc) else {
        return without_memory(rt, alloc);
    };
    let Ok(binder) = start_host(rt, alloc, &log, None) else {
        return without_memory(rt, alloc);
    };
    let mut host = Host {
        input: RealSource::start(rt.stdin()),
        output: KeepingSink::start(alloc, RealOutput::start(rt.stdout())),
        binder,
        parts: None,
    };
    let status = run(threads, alloc, words, &mut host);
    explain_end(rt, alloc, status, host.output.first_line());
    status
}

fn main(rt: HostRuntime) -> ExitCode {
    let alloc = rt.alloc();
    let Ok(words) = words(&rt, alloc) else {
        return ExitCode::from(without_memory(&rt, alloc));
    };
    let status = match config_path(words.as_slice()) {
        Some(path) => serve_file(&rt, &rt, alloc, path, words.as_slice()),
        None => run_on_input(&rt, &rt, alloc, words.as_slice()),
    };
    if status == USAGE {
        explain(&rt, alloc, words.as_slice());
    }
    ExitCode::from(status)
}
