//! The words of a command line, read with clap.
#![tactic(auto)]

ghost use Rattle.std.specs.Prelude.{◌≡◌, ◌⊎◌, IfOk, IfErr, Some, None, map, string_bytes, false, option_map};
ghost use Rattle.clap.specs.Words.{app_of, found_of, kind_of, rows_of, rule_of, subcommand_rows_of};
ghost use Rattle.clap.specs.Kinds.{HasKind};
ghost use Rattle.clap.specs.Faults.{fault_of};
ghost use Rattle.clap.specs.Simple.{shape_of};
ghost use Rattle.clap.specs.declared.builder.command.Command.TheViews.{out-Command};
ghost use Rattle.agent_words.specs.Commands.{operand, selectors, bare, agentd, preview, check, replay, simulate, serve};
ghost use Rattle.agent_words.specs.Found.{operands_in};
ghost use Rattle.agent_words.specs.Asked.{asked};
ghost use Rattle.clap.specs.declared.error.ErrorKind.TheVariants.{OutOfMemory};
ghost use Rattle.agent_words.specs.Requests.{request_of};

use clap::{Arg, ArgMatches, Command, Error};
use clap_words::{text, texts};
use std::alloc::{AllocError, Global};
use std::string::String;

/// What the words ask for: a command's name and its operands.
#[derive(Drop)]
pub struct Request<'a> {
    pub name: &'a str,
    pub operands: Vec<&'a str>,
}

/// An operand, which has to be there.
fn operand<'a>(alloc: Global, id: &'a str, help: &'a str) -> Arg<'a>
    ensures rule { rule_of result ≡ operand id.entry.now }
    ensures local { result.global ≡ false }
{
    Arg::new(alloc, id).required(true).help(help)
}

/// The selectors.
fn selectors<'a>(alloc: Global) -> Arg<'a>
    ensures rule { rule_of result ≡ selectors }
    ensures local { result.global ≡ false }
{
    operand(alloc, "SELECTOR", "a selector of the caller, type:value").num_args(1..=256)
}

/// `preview SELECTOR..`.
fn preview_command<'a>(alloc: Global) -> Result<Command<'a>, AllocError>
    ensures shape { IfOk result (λ c. shape_of c ≡ preview) }
    ensures local { IfOk result (λ c. (out-Command c).has_globals ≡ false) }
{
    Command::new(alloc, "preview")
        .about(
            "Writes what a caller with these selectors is answered on the document of standard input",
        )
        .arg(selectors(alloc))
}

/// `check`.
fn check_command<'a>(alloc: Global) -> Command<'a>
    ensures shape { shape_of result ≡ check }
    ensures local { (out-Command result).has_globals ≡ false }
{
    Command::new(alloc, "check").about("Writes what the document of standard input holds")
}

/// `replay`.
fn replay_command<'a>(alloc: Global) -> Command<'a>
    ensures shape { shape_of result ≡ replay }
    ensures local { (out-Command result).has_globals ≡ false }
{
    Command::new(alloc, "replay").about("Writes the transcript of the script of standard input")
}

/// `serve CONFIG`.
fn serve_command<'a>(alloc: Global) -> Result<Command<'a>, AllocError>
    ensures shape { IfOk result (λ c. shape_of c ≡ serve) }
    ensures local { IfOk result (λ c. (out-Command c).has_globals ≡ false) }
{
    let config = operand(alloc, "CONFIG", "the configuration's file");
    Command::new(alloc, "serve")
        .about("Serves the sockets of a configuration")
        .arg(config)
}

/// `simulate SEED ENTRIES CALLERS STEPS`.
fn simulate_command<'a>(alloc: Global) -> Result<Command<'a>, AllocError>
    ensures shape { IfOk result (λ c. shape_of c ≡ simulate) }
    ensures local { IfOk result (λ c. (out-Command c).has_globals ≡ false) }
{
    let seed = operand(alloc, "SEED", "0 to 2^64-1");
    let entries = operand(alloc, "ENTRIES", "1 to 10000");
    let callers = operand(alloc, "CALLERS", "1 to 32");
    let steps = operand(alloc, "STEPS", "0 to 100000");
    Command::new(alloc, "simulate")
        .about("Writes the counts of a simulated agent")
        .arg(seed)?
        .arg(entries)?
        .arg(callers)?
        .arg(steps)
}

/// The command without its subcommands.
fn top_command<'a>(alloc: Global) -> Result<Command<'a>, AllocError>
    ensures app { IfOk result (λ c. app_of c ≡ bare) }
    ensures local { IfOk result (λ c. (out-Command c).has_globals ≡ false) }
{
    Command::new(alloc, "agentd")
        .version("0.2.0")
        .no_binary_name(true)
        .disable_help_subcommand(true)
        .subcommand_required(true)
        .bin_name("agentd")
}

/// The command with its subcommands.
fn agent_command<'a>(alloc: Global) -> Result<Command<'a>, AllocError>
    ensures { IfOk result (λ c. app_of c ≡ agentd) }
{
    top_command(alloc)?
        .subcommand(preview_command(alloc)?)?
        .subcommand(check_command(alloc))?
        .subcommand(replay_command(alloc))?
        .subcommand(simulate_command(alloc)?)?
        .subcommand(serve_command(alloc)?)
}

/// The operands that were found for the command of this name.
fn operands<'a>(
    alloc: Global,
    name: &str,
    found: &ArgMatches<'a>,
) -> Result<Vec<&'a str>, AllocError>
    ensures { IfOk result (λ v. map (λ s. s.now) v.items ≡ operands_in name.now (rows_of (found_of found.now))) }
{
    if name == "preview" {
        return texts(alloc, found, "SELECTOR");
    }
    if name == "simulate" {
        let texts = vec![in alloc;
            text(found, "SEED"),
            text(found, "ENTRIES"),
            text(found, "CALLERS"),
            text(found, "STEPS"),
        ]?;
        return Ok(texts);
    }
    if name == "serve" {
        return Ok(vec![in alloc; text(found, "CONFIG")]?);
    }
    Ok(Vec::new(alloc))
}

/// The request in what was found.
fn found_request<'a>(
    alloc: Global,
    found: &ArgMatches<'a>,
) -> Result<Option<Request<'a>>, AllocError>
    ensures { IfOk result (λ o. option_map asked o ≡ option_map (λ p. (p.0, operands_in p.0 p.1)) (subcommand_rows_of found.now)) }
{
    match found.subcommand() {
        Some((name, inner)) => {
            let operands = operands(alloc, name, inner)?;
            Ok(Some(Request { name, operands }))
        }
        None => Ok(None),
    }
}

/// What the words ask for; else an error, which says why they fit no command, or has the help or the version that they
/// ask for.
pub fn read<'a>(alloc: Global, words: &'a [String]) -> Result<Request<'a>, Error>
    ensures fits { IfOk result (λ r. request_of (map string_bytes words.now) ≡ Some (asked r)) }
    ensures kinds { IfErr result (HasKind (fault_of agentd (map string_bytes words.now))) }
    ensures unfit { IfErr result (λ e. (kind_of e ≡ OutOfMemory) ⊎ (request_of (map string_bytes words.now) ≡ None)) }
{
    let matches = agent_command(alloc)?.try_get_matches_from(words)?;
    match found_request(alloc, &matches)? {
        Some(request) => Ok(request),
        None => unreachable!(),
    }
}
