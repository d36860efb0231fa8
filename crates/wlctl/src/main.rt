//! wlctl: what an agent answers.
//!
//! `wlctl SOCKET ..` makes the call that the words after SOCKET ask for over a connection to that Unix socket, writes
//! what it is answered to standard output, and ends with the status of `wl_control::control`. SOCKET is a first word that
//! holds a `/`, or `--socket PATH` or `--socket ADDRESS`; else `SPIFFE_ENDPOINT_SOCKET` names the socket. Why words fit nothing is written to
//! standard error.
#![tactic(auto)]

mod ask;
mod asks;
mod audiences;
mod content;
mod endpoint;
mod files;
mod folder_sink;
mod folder_writer;
mod keeper;
mod saying;
mod telling;
mod ticking_link;
mod token_asks;
mod written_set;

use asks::{bundles_to, kept_in, written_to};
use audiences::{audiences_in, cut};
use endpoint::{Socket, take_socket};
use files::{Job, stay, write, write_bundles};
use folder_writer::Wanted;
use std::alloc::{AllocGlobal, Global};
use std::process::ExitCode;
use std::string::String;
use std::sync::Wait;
use wl_control::status::{OUT_OF_MEMORY, USAGE};
use wl_control::{control, refusal};
use wl_edge_real::{Address, DialedLink, RealOutput, words};
use wl_octets::Memory;

/// What is said where no socket is named.
const UNNAMED: &str =
    "error: no socket is named: begin with its path or --socket ADDRESS, or set SPIFFE_ENDPOINT_SOCKET\n";

/// What is said where an address can't be used.
const UNUSABLE: &str =
    "error: the address is not of the form unix:///path, unix:/path or tcp://127.0.0.1:PORT\n";

/// What is said of words that ask for files and don't fit.
const FILES_FAULT: &str =
    "error: files are asked for by keep FOLDER or fetch x509 --write FOLDER, and --envoy after that, or by fetch bundles or \
fetch jwt-bundles --write FOLDER; FOLDER isn't empty and doesn't begin with -, and with --envoy it begins with /\n";

/// What is said of audiences that can't be asked for.
const AUDIENCES_FAULT: &str =
    "error: tokens are asked for by --jwt AUDIENCE at the end of fetch x509 --write FOLDER or keep FOLDER, 1 to 8 times; \
no audience is empty or given twice, and percent-encoded each has at most 234 bytes\n";

/// What the help says of tokens, after the options of `wl_control`.
const TOKENS_HELP: &str = "
Tokens beside these files, at the end of the words, 1 to 8 times:
  --jwt AUDIENCE              jwt.AUDIENCE-1.token, and jwks.json; keep asks again before a token ends
";

/// Whether a text is the help: it has the usage, and no error before it.
fn is_help(text: &str) -> bool {
    text.contains("Usage:") && !text.starts_with("error:")
}

/// Writes why the words fit nothing to standard error, or else this. Where that fails nobody reads it.
fn explain(rt: &HostRuntime, alloc: Global, words: &[String], otherwise: &str) {
    if let Ok(text) = refusal(alloc, words) {
        if text.is_empty() {
            let _ = eprint!(rt; "{otherwise}");
        } else if is_help(text.as_str()) {
            let _ = eprint!(rt; "{text}{TOKENS_HELP}");
        } else {
            let _ = eprint!(rt; "{text}");
        }
    }
}

/// Whether words that don't fit were to ask for files.
fn asks_for_files(words: &[String]) -> bool {
    words.iter().any(|word| matches!(word.as_str(), "keep" | "--write" | "--envoy"))
}

/// Makes the call that the words ask for over this socket.
fn call(rt: HostRuntime, address: Address, words: &[String]) -> u8 {
    let alloc = rt.alloc();
    let Ok(mut link) = DialedLink::start_at(rt, alloc, address) else {
        return OUT_OF_MEMORY;
    };
    let mut sink = RealOutput::start(rt.stdout());
    let status = control(&rt, alloc, words, &mut link, &mut sink);
    if status == USAGE && asks_for_files(words) {
        let _ = eprint!(rt; "{FILES_FAULT}");
    } else if status == USAGE {
        explain(&rt, alloc, words, "");
    }
    status
}

/// What is asked of files by words, and whether it is kept: the folder, and whether Envoy's file is due.
fn folder_in(words: &[String]) -> Option<(&str, bool, bool)> {
    if let Some((folder, for_envoy)) = kept_in(words) {
        return Some((folder, for_envoy, true));
    }
    let (folder, for_envoy) = written_to(words)?;
    Some((folder, for_envoy, false))
}

/// Makes the call that the words ask for over this socket, or writes the files.
fn serve(
    waits: &impl Wait,
    rt: HostRuntime,
    address: Address,
    words: &[String],
) -> Result<u8, Memory> {
    let alloc = rt.alloc();
    if let Some((kind, folder)) = bundles_to(words) {
        let wanted = Wanted::start(alloc, folder, false)?;
        return write_bundles(&rt, address, kind, wanted);
    }
    let (front, pairs) = cut(words);
    let Some((folder, for_envoy, is_kept)) = folder_in(front) else {
        return Ok(call(rt, address, words));
    };
    let Some(audiences) = audiences_in(alloc, pairs)? else {
        let _ = eprint!(rt; "{AUDIENCES_FAULT}");
        return Ok(USAGE);
    };
    let wanted = Wanted::start(alloc, folder, for_envoy)?;
    let job = Job {
        address,
        wanted,
        audiences,
    };
    if is_kept {
        stay(waits, &rt, job)
    } else {
        write(&rt, job)
    }
}

/// Makes the call of a command line.
fn run(waits: &impl Wait, rt: HostRuntime) -> u8 {
    let alloc = rt.alloc();
    let Ok(mut words) = words(&rt, alloc) else {
        return OUT_OF_MEMORY;
    };
    let otherwise = match take_socket(&rt, &mut words) {
        Ok(Socket::At(address)) => return serve(waits, rt, address, words.as_slice()).unwrap_or(
            OUT_OF_MEMORY,
        ),
        Ok(Socket::Unnamed) => UNNAMED,
        Ok(Socket::Unusable) => UNUSABLE,
        Err(_) => return OUT_OF_MEMORY,
    };
    explain(&rt, alloc, words.as_slice(), otherwise);
    USAGE
}

fn main(rt: HostRuntime) -> ExitCode {
    let Ok(own) = rt.clone() else {
        return ExitCode::from(OUT_OF_MEMORY);
    };
    ExitCode::from(run(&rt, own))
}
