//! The words of `wlctl`, read with clap.
//!
//! [`read`] gives a command's name and its operands. Which words fit is a definition of its own (specs/Requests), which
//! says nothing of clap: the first word is the command, and its operands are all words after it but the first `--`,
//! before which no word of two bytes or more begins with `-`.
#![tactic(auto)]

ghost use Rattle.std.specs.Prelude.{◌≡◌, ◌⊎◌, IfOk, IfErr, Some, None, map, string_bytes, false, option_map};
ghost use Rattle.clap.specs.Words.{app_of, found_of, kind_of, rows_of, rule_of, subcommand_rows_of};
ghost use Rattle.clap.specs.Simple.{shape_of};
ghost use Rattle.clap.specs.declared.builder.command.Command.TheViews.{out-Command};
ghost use Rattle.clap.specs.declared.error.ErrorKind.TheVariants.{OutOfMemory};
ghost use Rattle.control_words.specs.Commands.{operand, what, count_rule, service_rule, bare, wlctl, fetch, watch, health, health_watch};
ghost use Rattle.control_words.specs.Found.{operands_in};
ghost use Rattle.control_words.specs.Asked.{asked};
ghost use Rattle.control_words.specs.Requests.{request_of};

use clap::{Arg, ArgMatches, Command, Error};
use clap_words::{text, texts};
use std::alloc::{AllocError, Global};
use std::string::String;

/// What the words ask for: a command's name and its operands.
#[derive(Drop)]
pub struct Request<'a> {
    pub name: &'a str,
    pub operands: Vec<&'a str>,
}

/// An operand that has to be there.
fn operand<'a>(alloc: Global, id: &'a str, help: &'a str) -> Arg<'a>
    ensures rule { rule_of result ≡ operand id.entry.now }
    ensures local { result.global ≡ false }
{
    Arg::new(alloc, id).required(true).help(help)
}

/// What is fetched.
fn what<'a>(alloc: Global) -> Arg<'a>
    ensures rule { rule_of result ≡ what }
    ensures local { result.global ≡ false }
{
    operand(
        alloc,
        "WHAT",
        "x509, bundles, jwt-bundles, or jwt and 1 to 64 audiences; --pem or --json; x509 --write FOLDER",
    )
    .num_args(1..=65)
}

/// `fetch WHAT..`.
fn fetch_command<'a>(alloc: Global) -> Result<Command<'a>, AllocError>
    ensures shape { IfOk result (λ c. shape_of c ≡ fetch) }
    ensures local { IfOk result (λ c. (out-Command c).has_globals ≡ false) }
{
    Command::new(alloc, "fetch")
        .about("Writes what the agent answers one call")
        .arg(what(alloc))
}

/// How many messages are watched for.
fn count<'a>(alloc: Global) -> Arg<'a>
    ensures rule { rule_of result ≡ count_rule }
    ensures local { result.global ≡ false }
{
    Arg::new(alloc, "COUNT").help("how many messages, 1 to 1000; without it they don't end")
}

/// `watch`, `watch COUNT`.
fn watch_command<'a>(alloc: Global) -> Result<Command<'a>, AllocError>
    ensures shape { IfOk result (λ c. shape_of c ≡ watch) }
    ensures local { IfOk result (λ c. (out-Command c).has_globals ≡ false) }
{
    Command::new(alloc, "watch")
        .about("Writes the X.509 SVIDs of so many messages, as they come")
        .arg(count(alloc))
}

/// The service whose state is asked for.
fn service<'a>(alloc: Global) -> Arg<'a>
    ensures rule { rule_of result ≡ service_rule }
    ensures local { result.global ≡ false }
{
    Arg::new(alloc, "SERVICE").help("the service; none is the whole server")
}

/// `health`, `health SERVICE`.
fn health_command<'a>(alloc: Global) -> Result<Command<'a>, AllocError>
    ensures shape { IfOk result (λ c. shape_of c ≡ health) }
    ensures local { IfOk result (λ c. (out-Command c).has_globals ≡ false) }
{
    Command::new(alloc, "health")
        .about("Writes the state of the agent or of a service")
        .arg(service(alloc))
}

/// `health-watch COUNT`.
fn health_watch_command<'a>(alloc: Global) -> Result<Command<'a>, AllocError>
    ensures shape { IfOk result (λ c. shape_of c ≡ health_watch) }
    ensures local { IfOk result (λ c. (out-Command c).has_globals ≡ false) }
{
    let count = operand(alloc, "COUNT", "how many messages, 1 to 1000");
    Command::new(alloc, "health-watch")
        .about("Writes the states of so many messages, as they come")
        .arg(count)
}

/// The command without its subcommands.
fn top_command<'a>(alloc: Global) -> Result<Command<'a>, AllocError>
    ensures app { IfOk result (λ c. app_of c ≡ bare) }
    ensures local { IfOk result (λ c. (out-Command c).has_globals ≡ false) }
{
    Command::new(alloc, "wlctl")
        .version("0.2.0")
        .no_binary_name(true)
        .disable_help_subcommand(true)
        .subcommand_required(true)
        .bin_name("wlctl")
}

/// The command with its subcommands.
fn wlctl_command<'a>(alloc: Global) -> Result<Command<'a>, AllocError>
    ensures { IfOk result (λ c. app_of c ≡ wlctl) }
{
    top_command(alloc)?
        .subcommand(fetch_command(alloc)?)?
        .subcommand(watch_command(alloc)?)?
        .subcommand(health_command(alloc)?)?
        .subcommand(health_watch_command(alloc)?)
}

/// The operands that were found for the command of this name.
fn operands<'a>(
    alloc: Global,
    name: &str,
    found: &ArgMatches<'a>,
) -> Result<Vec<&'a str>, AllocError>
    ensures { IfOk result (λ v. map (λ s. s.now) v.items ≡ operands_in name.now (rows_of (found_of found.now))) }
{
    if name == "fetch" {
        return texts(alloc, found, "WHAT");
    }
    if name == "watch" {
        return texts(alloc, found, "COUNT");
    }
    if name == "health" {
        return texts(alloc, found, "SERVICE");
    }
    if name == "health-watch" {
        return Ok(vec![in alloc; text(found, "COUNT")]?);
    }
    Ok(Vec::new(alloc))
}

/// The request in what was found.
fn found_request<'a>(
    alloc: Global,
    found: &ArgMatches<'a>,
) -> Result<Option<Request<'a>>, AllocError>
    ensures { IfOk result (λ o. option_map asked o ≡ option_map (λ p. (p.0, operands_in p.0 p.1)) (subcommand_rows_of found.now)) }
{
    match found.subcommand() {
        Some((name, inner)) => {
            let operands = operands(alloc, name, inner)?;
            Ok(Some(Request { name, operands }))
        }
        None => Ok(None),
    }
}

/// What the words ask for; else an error, which says why they fit no command, or has the help or the version that they
/// ask for.
pub fn read<'a>(alloc: Global, words: &'a [String]) -> Result<Request<'a>, Error>
    ensures fits { IfOk result (λ r. request_of (map string_bytes words.now) ≡ Some (asked r)) }
    ensures unfit { IfErr result (λ e. (kind_of e ≡ OutOfMemory) ⊎ (request_of (map string_bytes words.now) ≡ None)) }
{
    let matches = wlctl_command(alloc)?.try_get_matches_from(words)?;
    match found_request(alloc, &matches)? {
        Some(request) => Ok(request),
        None => unreachable!(),
    }
}
