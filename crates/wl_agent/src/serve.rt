//! The one call, and its command `serve`.

ghost use Rattle.std.specs.Prelude.{◌≡◌, ◌∷◌, [], map, codes, string_bytes, option_map, option_and_then, None, false, IsSome};
ghost use Rattle.std.specs.Str.{bytes_eq};
ghost use Rattle.clap_words.specs.Operands.{operands, is_option};
ghost use Rattle.wl_agent.specs.Args.{command_of};
ghost use Rattle.wl_agent.specs.Ends.{reads, StatusExplains, StatusGiven};
ghost use Rattle.wl_agent.specs.ServeWords.{config_of, sole};
ghost use Rattle.wl_agent.specs.ServeEnds.{ServeExplains};
ghost use Rattle.wl_agent.specs.Headline.{Headline};

use crate::program::{READ_LIMIT, run_command};
use crate::serve_ends::serve_outcome;
use crate::status::{OUT_OF_MEMORY, READ_FAILED, WRITE_FAILED};
use ask_mail::TokenAsks;
use laws_headline::headline_holds;
use std::alloc::Global;
use std::string::String;
use std::sync::Wait;
use std::thread::Threads;
use wl_edge::{ReadFault, Signer, Sink, Source, read_all, write_all};
use wl_serve::{Binder, Parts, PartsShown, serve};
use wl_worker::SeatAsks;

/// What the program is given beside its words.
#[derive(Drop)]
pub struct Host<I, O, B: Binder>
where
    SeatAsks<<B::Sign as Signer>::V>: TokenAsks,
{
    pub input: I,
    pub output: O,
    /// What prepares sockets and all else that serving needs.
    pub binder: B,
    /// What was prepared; none when [`run`] is called.
    pub parts: Option<Parts<B>>,
}

/// Whether the word is `--`.
fn is_marker(word: &String) -> bool
    ensures { result ≡ bytes_eq (string_bytes word.now) (codes "--") }
{
    word.as_bytes() == b"--".as_slice()
}

/// Whether a word has two bytes or more, the first of them `-`.
fn is_flag(word: &String) -> bool
    ensures { result ≡ is_option (string_bytes word.now) }
{
    match word.as_bytes() {
        [first, _, ..] => *first == b'-',
        _ => false,
    }
}

/// The word itself, where it is an operand.
fn sole_of_one(name: &String) -> Option<&str>
    ensures { option_map (λ name. name.now) result
        ≡ option_and_then sole (operands (string_bytes name.now ∷ [])) }
{
    if is_flag(name) {
        return None;
    }
    Some(name.as_str())
}

/// The operand of two words, where one of them is `--`.
fn sole_of_two<'a>(first: &'a String, second: &'a String) -> Option<&'a str>
    ensures { option_map (λ name. name.now) result
        ≡ option_and_then sole (operands (string_bytes first.now ∷ string_bytes second.now ∷ [])) }
{
    if is_marker(first) {
        return Some(second.as_str());
    }
    if is_flag(first) || !is_marker(second) {
        return None;
    }
    Some(first.as_str())
}

/// The one operand of these words, if they have one: a word that is no option, or whatever stands after `--`.
fn sole_operand(words: &[String]) -> Option<&str>
    ensures { option_map (λ name. name.now) result
        ≡ option_and_then sole (operands (map string_bytes words.now)) }
{
    match words {
        [] => None,
        [name] => sole_of_one(name),
        [first, second] => sole_of_two(first, second),
        [_, _, _, ..] => None,
    }
}

/// The name of the configuration, where the words are those of `serve CONFIG`. It takes no memory.
#[tactic(auto, unfolding(crate::specs::ServeWords::config_of))]
pub fn config_path(words: &[String]) -> Option<&str>
    ensures { option_map (λ name. name.now) result ≡ config_of (map string_bytes words.now) }
{
    let (first, after) = words.split_first()?;
    if first.as_bytes() != b"serve".as_slice() {
        return None;
    }
    sole_operand(after)
}

/// Serves by the configuration that is read, and writes the line of its first fault, or of the first document's.
fn run_serve<I: Source, O: Sink, B: Binder, R: Threads + Wait + Sync>(
    rt: &R,
    alloc: Global,
    host: &mut Host<I, O, B>,
) -> u8
    requires { host.old.parts ≡ None }
    ensures { ServeExplains B.Sign.V.token ((l : B.Listen.L) → IsSome (B.Listen.L.told l)) B.tells
        (record {
          content = I.left host.old.input;
          before = O.taken host.old.output;
          after = O.taken host.new.output;
          reads_before = I.faults host.old.input;
          reads_after = I.faults host.new.input;
          writes_before = O.faults host.old.output;
          writes_after = O.faults host.new.output;
        })
        (record {
          before = B.faults host.old.binder;
          now = B.faults host.new.binder;
          parts = option_map ⟦<Parts<B> as PartsShown>⟧.shown host.new.parts;
        }) result }
{
    let configuration = match read_all(alloc, &mut host.input, READ_LIMIT) {
        Ok(configuration) => configuration,
        Err(ReadFault::Failed) => return READ_FAILED,
        Err(ReadFault::Memory) => return OUT_OF_MEMORY,
    };
    let end = serve(
        rt,
        alloc,
        configuration.as_slice(),
        &mut host.binder,
        &mut host.parts,
    );
    let Ok(outcome) = serve_outcome(alloc, end) else {
        return OUT_OF_MEMORY;
    };
    if write_all(&mut host.output, outcome.output.as_slice()) {
        outcome.status
    } else {
        WRITE_FAILED
    }
}

/// Runs a command: `preview SELECTOR..` writes the response of a caller with these selectors, `check` what the document
/// holds, `replay` the transcript of the script, `simulate SEED ENTRIES CALLERS STEPS` the counts of a simulation, for which
/// nothing is read, and `serve CONFIG` serves. The document or the configuration comes from `host.input`, of which at most
/// [`READ_LIMIT`] bytes are read; all that is written goes to `host.output`. `serve` has `host.binder` prepare its sockets,
/// and keeps what was prepared in `host.parts`; it may wait for as long as links stand.
///
/// The status is one of [`crate::status`]: `DONE` where that was done, for `serve` where every listener came to its end;
/// `USAGE` where the words fit no command, and then nothing is read; `DOCUMENT_FAULT` where the document, the
/// configuration or the first document has a fault; `DENIED`, `NO_SVID` or `TOO_LONG` where the caller is entitled to
/// nothing, an SVID is missing or the message is above 4,194,304 bytes; `READ_FAILED` where a read and `WRITE_FAILED` where
/// a write failed; `NO_DOCUMENT` where the upstream gave no first document; `HOST_FAILED` where the host, a listener or
/// what watches its links failed; `OUT_OF_MEMORY`.
pub fn run<I: Source, O: Sink, B: Binder, R: Threads + Wait + Sync>(
    rt: &R,
    alloc: Global,
    words: &[String],
    host: &mut Host<I, O, B>,
) -> u8
    requires { host.old.parts ≡ None }
    // each status with its cause, and what was written
    ensures sound { config_of (map string_bytes words.now) ≡ None → StatusExplains (command_of (map string_bytes words.now))
        (record {
          content = I.left host.old.input;
          before = O.taken host.old.output;
          after = O.taken host.new.output;
          reads_before = I.faults host.old.input;
          reads_after = I.faults host.new.input;
          writes_before = O.faults host.old.output;
          writes_after = O.faults host.new.output;
        }) result }
    // the status that is due is given, except a failed read or write and where memory runs out
    ensures complete { config_of (map string_bytes words.now) ≡ None
        → StatusGiven (command_of (map string_bytes words.now)) (I.left host.old.input) result }
    // where the words fit no command, or a simulation, nothing is read
    ensures idle { config_of (map string_bytes words.now) ≡ None → reads (command_of (map string_bytes words.now)) ≡ false
        → host.new.input ≡ host.old.input }
    // no other command touches the binder, or prepares anything
    ensures apart { config_of (map string_bytes words.now) ≡ None
        → (host.new.binder ≡ host.old.binder) × (host.new.parts ≡ None) }
    // `serve`: each status with its cause, what was written, what its connections were sent, and the laws of the headline
    ensures headline { IsSome (config_of (map string_bytes words.now)) → Headline B.Sign.V.token ((l : B.Listen.L) → IsSome (B.Listen.L.told l)) B.tells
        (record {
          content = I.left host.old.input;
          before = O.taken host.old.output;
          after = O.taken host.new.output;
          reads_before = I.faults host.old.input;
          reads_after = I.faults host.new.input;
          writes_before = O.faults host.old.output;
          writes_after = O.faults host.new.output;
        })
        (record {
          before = B.faults host.old.binder;
          now = B.faults host.new.binder;
          parts = option_map ⟦<Parts<B> as PartsShown>⟧.shown host.new.parts;
        }) result }
{
    if config_path(words).is_some() {
        headline_holds();
        return run_serve(rt, alloc, host);
    }
    run_command(alloc, words, &mut host.input, &mut host.output)
}
