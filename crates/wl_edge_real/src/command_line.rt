//! The words of a command line.

use std::alloc::Global;
use std::env::{Env, FillError};
use std::string::String;
use wl_octets::Memory;

/// How many bytes of a word are read at first; where it is longer, twice as many, and so on.
const FIRST_ROOM: usize = 256;

/// The word at this place, counted from the program's name at 0; none after the last.
fn word<R: Env>(rt: &R, alloc: Global, at: usize) -> Result<Option<Vec<u8>>, Memory> {
    let mut room = FIRST_ROOM;
    for _ in 0..usize::BITS {
        let mut bytes = Vec::from_elem(alloc, 0, room)?;
        match rt.arg(at, bytes.as_mut_slice()) {
            Ok(count) => {
                bytes.truncate(count);
                return Ok(Some(bytes));
            }
            Err(FillError::NotPresent) => return Ok(None),
            Err(FillError::TooLong) => room = room.saturating_add(room),
        }
    }
    Err(Memory)
}

/// The words after the program's name, which itself is not read. None where one of them is not UTF-8, since such words
/// fit no command.
pub fn words<R: Env>(rt: &R, alloc: Global) -> Result<Vec<String>, Memory> {
    let mut words = Vec::new(alloc);
    for at in 1..usize::MAX {
        let Some(bytes) = word(rt, alloc, at)? else {
            return Ok(words);
        };
        match String::from_utf8(bytes) {
            Ok(word) => words.push(word)?,
            Err(_) => return Ok(Vec::new(alloc)),
        }
    }
    Ok(words)
}
