//! Words read with clap: what serves the commands of several programs.
//!
//! `proofs/Past` holds for any command whose flags all ask for help or for the version: the words after its name come to
//! what their operands come to after a `--`, or have a fault where an option is among them. `proofs/Declares` has the
//! steps of a declaration. Each program has its own commands, and its own definition of the words that fit.
#![tactic(auto)]

ghost use Rattle.std.specs.Prelude.{◌≡◌, IfOk, map};
ghost use Rattle.clap.specs.Words.{found_of, rows_of};
ghost use Rattle.clap_words.specs.Found.{text_of, texts_of};

use clap::ArgMatches;
use std::alloc::{AllocError, Global};

/// The text of an operand, or nothing where it is not there.
pub fn text<'a>(found: &ArgMatches<'a>, id: &str) -> &'a str
    ensures { result.now ≡ text_of id.now (rows_of (found_of found.now)) }
{
    match found.get_str(id) {
        Some(text) => text,
        None => "",
    }
}

/// The texts of an operand.
pub fn texts<'a>(
    alloc: Global,
    found: &ArgMatches<'a>,
    id: &str,
) -> Result<Vec<&'a str>, AllocError>
    ensures { IfOk result (λ v. map (λ s. s.now) v.items ≡ texts_of id.now (rows_of (found_of found.now))) }
{
    match found.get_strs(id) {
        Some(texts) => Vec::from_slice(alloc, texts),
        None => Ok(Vec::new(alloc)),
    }
}
