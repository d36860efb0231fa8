//! Why words fit no command, for a person.

ghost use Rattle.std.specs.Prelude.{◌≡◌, ◌⊎◌, [], map, string_bytes, IfOk, IsSome};
ghost use Rattle.wl_agent.specs.Args.{command_of};
ghost use Rattle.wl_agent.specs.ServeWords.{config_of};

use crate::args::{NoCommand, read_command};
use crate::serve::config_path;
use std::alloc::Global;
use std::string::String;
use wl_octets::Memory;

/// What is wrong with operands that are as many as their command has.
const OPERAND_FAULT: &str =
    "error: SELECTOR is type:value; SEED is 0 to 2^64-1, ENTRIES 1 to 10000, CALLERS 1 to 32, STEPS 0 to 100000\n";

/// Why these words fit no command: which word is wrong, the help or the version; nothing where they fit one.
pub fn refusal(alloc: Global, words: &[String]) -> Result<String, Memory>
    ensures fits { IfOk result (λ text. IsSome (config_of (map string_bytes words.now)) ⊎ IsSome (command_of (map string_bytes words.now))
        → string_bytes text ≡ []) }
{
    if config_path(words).is_some() {
        return Ok(String::new(alloc));
    }
    match read_command(alloc, words) {
        Ok(_) => Ok(String::new(alloc)),
        Err(NoCommand::Memory) => Err(Memory),
        Err(NoCommand::Unfit(Some(error))) => Ok(format!(in alloc; "{error}")?),
        Err(NoCommand::Unfit(None)) => Ok(String::from_str(alloc, OPERAND_FAULT)?),
    }
}
