//! Reading the words of a command line.

ghost use Rattle.std.specs.Prelude.{◌≡◌, ◌⊎◌, ◌≤◌, length, map, option_map, string_bytes, if◌then◌else◌, IfOk, IfErr, IfSome, Some, None};
ghost use Rattle.std.specs.List.{list_all};
ghost use Rattle.clap.specs.Words.{kind_of};
ghost use Rattle.clap.specs.declared.error.ErrorKind.TheVariants.{OutOfMemory};
ghost use Rattle.wl_selector.specs.Selectors.{sorted_texts};
ghost use Rattle.wl_agent.specs.Args.{command_of, preview_of, alone, unsigned, number_of, simulate_of, command_by, CommandFits, is_selector};

use crate::command::{Command, Reading, Simulation};
use agent_words::{Request, read};
use clap::Error;
use clap::error::ErrorKind;
use std::alloc::Global;
use std::string::String;
use wl_core::CONNS;
use wl_octets::{Memory, Octets, Row};
use wl_replay::{MAX_ENTRIES, MAX_STEPS, number_in};
use wl_selector::{Selector, SelectorFault, Selectors, SelectorsFault};

/// The most selectors of a caller.
const SELECTORS: u32 = 256;

/// A selector, where the text is one.
fn read_selector(alloc: Global, text: &[u8]) -> Result<Option<Selector>, Memory>
    ensures { IfOk result (λ o. o ≡ (if is_selector text.now then Some text.now else None)) }
{
    match Selector::parse(alloc, text) {
        Ok(selector) => Ok(Some(selector)),
        Err(SelectorFault::Memory) => Err(Memory),
        Err(SelectorFault::NoColon) => Ok(None),
        Err(SelectorFault::EmptyKind) => Ok(None),
        Err(SelectorFault::EmptyValue) => Ok(None),
        Err(SelectorFault::NotUtf8) => Ok(None),
    }
}

/// The selectors, where each text is one.
fn read_selectors(alloc: Global, texts: &[Octets]) -> Result<Option<Vec<Selector>>, Memory>
    ensures { IfOk result (λ o. option_map (λ v. v.items) o ≡
        (if list_all is_selector texts.now then Some texts.now else None)) }
{
    let mut done = Vec::new(alloc);
    for text in texts {
        match read_selector(alloc, text.as_slice())? {
            Some(selector) => done.push(selector)?,
            None => return Ok(None),
        }
    }
    Ok(Some(done))
}

/// The set of so many selectors, which are not too many.
fn selector_set(alloc: Global, selectors: Vec<Selector>) -> Result<Selectors, Memory>
    requires { length selectors.items ≤ 256 }
    ensures { IfOk result (λ s. s ≡ sorted_texts selectors.items) }
{
    match Selectors::from_list(alloc, selectors, SELECTORS) {
        Ok(set) => Ok(set),
        Err(SelectorsFault::TooMany(_)) => unreachable!(),
        Err(SelectorsFault::Memory) => Err(Memory),
    }
}

/// `preview SELECTOR..`, where these are its operands.
#[tactic(auto, unfolding(crate::specs::Args::preview_of))]
fn preview(alloc: Global, texts: &[Octets]) -> Result<Option<Command>, Memory>
    ensures value { IfOk result (λ o. o ≡ preview_of texts.now) }
    ensures fits { IfOk result (λ o. IfSome o CommandFits) }
{
    if texts.is_empty() || texts.len() > SELECTORS as usize {
        return Ok(None);
    }
    match read_selectors(alloc, texts)? {
        Some(selectors) => Ok(Some(Command::Read(Reading::Preview(selector_set(
            alloc, selectors,
        )?)))),
        None => Ok(None),
    }
}

/// A command that stands alone, where these are its operands.
fn alone(command: Command, texts: &[Octets]) -> Option<Command>
    ensures value { result ≡ alone command texts.now }
    ensures same { IfSome result (λ c. c ≡ command) }
{
    match texts {
        [] => Some(command),
        _ => None,
    }
}

/// A number without its `+`, where it has one.
fn unsigned(word: &[u8]) -> &[u8]
    ensures { result.now ≡ unsigned word.now }
{
    match word.split_first() {
        Some((b'+', rest)) => rest,
        _ => word,
    }
}

/// The number that a word is, where it is one from `least` to `most`.
#[tactic(auto, unfolding(crate::specs::Args::number_of))]
fn number(word: &[u8], least: u64, most: u64) -> Option<u64>
    ensures value { result ≡ number_of least most word.now }
    ensures within { IfSome result (λ n. (least ≤ n) × (n ≤ most)) }
{
    let number = number_in(unsigned(word))?;
    if number < least || number > most {
        return None;
    }
    Some(number)
}

/// `simulate SEED ENTRIES CALLERS STEPS`, where these are its operands.
#[tactic(auto, unfolding(crate::specs::Args::simulate_of))]
fn simulate(texts: &[Octets]) -> Option<Command>
    ensures value { result ≡ simulate_of texts.now }
    ensures fits { IfSome result CommandFits }
{
    let [seed, entries, callers, steps] = texts else {
        return None;
    };
    let seed = number(seed.as_slice(), 0, u64::MAX)?;
    let entries = number(entries.as_slice(), 1, u64::from(MAX_ENTRIES))?;
    let callers = number(callers.as_slice(), 1, u64::from(CONNS))?;
    let steps = number(steps.as_slice(), 0, u64::from(MAX_STEPS))?;
    Some(Command::Simulate(Simulation {
        seed,
        entries: entries as u32,
        callers: callers as u32,
        steps: steps as u32,
    }))
}

/// The command of this name with these operands, where they fit one.
fn command_by(alloc: Global, name: &[u8], texts: &[Octets]) -> Result<Option<Command>, Memory>
    ensures value { IfOk result (λ o. o ≡ command_by name.now texts.now) }
    ensures fits { IfOk result (λ o. IfSome o CommandFits) }
{
    if name == b"preview".as_slice() {
        return preview(alloc, texts);
    }
    if name == b"check".as_slice() {
        return Ok(alone(Command::Read(Reading::Check), texts));
    }
    if name == b"replay".as_slice() {
        return Ok(alone(Command::Read(Reading::Replay), texts));
    }
    if name == b"simulate".as_slice() {
        return Ok(simulate(texts));
    }
    Ok(None)
}

/// Operands as texts of their own.
fn copy_operands(alloc: Global, operands: &[&str]) -> Result<Row<Octets>, Memory>
    ensures { IfOk result (λ texts. texts ≡ map (λ s. s.now) operands.now) }
{
    let mut texts = Row::empty(alloc);
    for operand in operands {
        texts.push(Octets::from_slice(alloc, operand.as_bytes())?)?;
    }
    Ok(texts)
}

/// The command of a request, where its operands fit one.
fn command_asked(alloc: Global, request: &Request<'_>) -> Result<Option<Command>, Memory>
    ensures value { IfOk result (λ o. o ≡ command_by request.now.name.now (map (λ s. s.now) request.now.operands.items)) }
    ensures fits { IfOk result (λ o. IfSome o CommandFits) }
{
    let texts = copy_operands(alloc, request.operands.as_slice())?;
    command_by(alloc, request.name.as_bytes(), texts.as_slice())
}

/// Why there is no command.
#[derive(Drop)]
pub(crate) enum NoCommand {
    Memory,
    /// The words fit none: why clap refuses them, where it does.
    Unfit(Option<Error>),
}

/// What an error of clap says of the words.
fn no_command(error: Error) -> NoCommand
    ensures { kind_of error ≡ OutOfMemory → result ≡ NoCommand.Memory }
{
    if error.kind() == ErrorKind::OutOfMemory {
        NoCommand::Memory
    } else {
        NoCommand::Unfit(Some(error))
    }
}

/// The command that the words fit.
pub(crate) fn read_command(alloc: Global, words: &[String]) -> Result<Command, NoCommand>
    ensures value { IfOk result (λ c. command_of (map string_bytes words.now) ≡ Some c) }
    ensures fits { IfOk result CommandFits }
    ensures unfit { IfErr result (λ e. (e ≡ NoCommand.Memory) ⊎ (command_of (map string_bytes words.now) ≡ None)) }
{
    let request = match read(alloc, words) {
        Ok(request) => request,
        Err(error) => return Err(no_command(error)),
    };
    match command_asked(alloc, &request) {
        Ok(Some(command)) => Ok(command),
        Ok(None) => Err(NoCommand::Unfit(None)),
        Err(Memory) => Err(NoCommand::Memory),
    }
}
