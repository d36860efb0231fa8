//! The options among the words.

ghost use Rattle.std.specs.Prelude.{◌≡◌, ◌++◌, IfOk, OnOk, map, string_bytes};
ghost use Rattle.wl_control.specs.declared.choices.Place.TheVariants.{Front};
ghost use Rattle.wl_control.specs.Choices.{awaits_value, choice_in, is_option, choice_at, is_other, place_after, choices_with, others_with, left_over, choices_from, others_from};

use crate::request::Choice;
use std::alloc::Global;
use std::string::String;
use wl_octets::{Memory, Octets};

/// Where a word stands.
#[derive(Clone, Copy, Drop, PartialEq, Eq)]
pub(crate) enum Place {
    /// Before the first `--`.
    Front,
    /// After `--id`, whose value it is.
    Value,
    /// After the first `--`.
    Behind,
}

/// What the words choose, and the other words.
#[derive(Drop)]
pub(crate) struct Chosen {
    pub(crate) choices: Vec<Choice>,
    pub(crate) others: Vec<String>,
}

/// Whether the value of `--id` is the next word.
fn awaits_value(word: &[u8]) -> bool
    ensures { result ≡ awaits_value word.now }
{
    word == b"--id".as_slice()
}

/// What a word chooses.
fn choice_in(alloc: Global, word: &[u8]) -> Result<Option<Choice>, Memory>
    ensures { IfOk result (λ choice. choice ≡ choice_in word.now) }
{
    if word == b"--pem".as_slice() {
        return Ok(Some(Choice::Pem));
    }
    if word == b"--json".as_slice() {
        return Ok(Some(Choice::Json));
    }
    if word == b"--decode".as_slice() {
        return Ok(Some(Choice::Decode));
    }
    if word.starts_with(b"--id=") {
        let id = Octets::from_slice(alloc, word.split_at(5).1)?;
        return Ok(Some(Choice::Id(id)));
    }
    Ok(None)
}

fn is_option(word: &[u8]) -> bool
    ensures { result ≡ is_option word.now }
{
    word == b"--pem".as_slice()
        || word == b"--json".as_slice()
        || word == b"--decode".as_slice()
        || word.starts_with(b"--id=")
        || awaits_value(word)
}

/// The same of a word in this place.
fn choice_at(alloc: Global, place: Place, word: &[u8]) -> Result<Option<Choice>, Memory>
    ensures { IfOk result (λ choice. choice ≡ choice_at place word.now) }
{
    match place {
        Place::Front => choice_in(alloc, word),
        Place::Value => Ok(Some(Choice::Id(Octets::from_slice(alloc, word)?))),
        Place::Behind => Ok(None),
    }
}

fn is_other(place: Place, word: &[u8]) -> bool
    ensures { result ≡ is_other place word.now }
{
    match place {
        Place::Front => !is_option(word),
        Place::Value => false,
        Place::Behind => true,
    }
}

/// The place of the next word.
fn place_after(place: Place, word: &[u8]) -> Place
    ensures { result ≡ place_after place word.now }
{
    match place {
        Place::Front => {
            if word == b"--".as_slice() {
                Place::Behind
            } else if awaits_value(word) {
                Place::Value
            } else {
                Place::Front
            }
        }
        Place::Value => Place::Front,
        Place::Behind => Place::Behind,
    }
}

fn put_choice(choices: &mut Vec<Choice>, choice: Option<Choice>) -> Result<(), Memory>
    ensures { OnOk result (choices.new.items ≡ choices.old.items ++ choices_with choice) }
{
    if let Some(choice) = choice {
        choices.push(choice)?;
    }
    Ok(())
}

fn put_other(
    alloc: Global,
    others: &mut Vec<String>,
    is_other: bool,
    word: &str,
) -> Result<(), Memory>
    ensures { OnOk result (map string_bytes others.new.items ≡ map string_bytes others.old.items ++ others_with is_other word.now) }
{
    if is_other {
        others.push(String::from_str(alloc, word)?)?;
    }
    Ok(())
}

/// An `--id` without a value.
fn put_left_over(alloc: Global, others: &mut Vec<String>, place: Place) -> Result<(), Memory>
    ensures { OnOk result (map string_bytes others.new.items ≡ map string_bytes others.old.items ++ left_over place) }
{
    match place {
        Place::Value => others.push(String::from_str(alloc, "--id")?)?,
        Place::Front | Place::Behind => {}
    }
    Ok(())
}

impl Chosen {
    /// Takes a word in this place.
    fn take(&mut self, alloc: Global, place: Place, word: &str) -> Result<(), Memory>
        ensures choices { OnOk result (self.new.choices.items ≡ self.old.choices.items ++ choices_with (choice_at place word.now)) }
        ensures others { OnOk result (map string_bytes self.new.others.items ≡ map string_bytes self.old.others.items ++ others_with (is_other place word.now) word.now) }
    {
        let choice = choice_at(alloc, place, word.as_bytes())?;
        put_choice(&mut self.choices, choice)?;
        put_other(
            alloc,
            &mut self.others,
            is_other(place, word.as_bytes()),
            word,
        )
    }
}

/// What these words choose before the first `--`, and the other words.
pub(crate) fn read_choices(alloc: Global, words: &[String]) -> Result<Chosen, Memory>
    ensures choices { IfOk result (λ chosen. chosen.choices.items ≡ choices_from Front (map string_bytes words.now)) }
    ensures others { IfOk result (λ chosen. map string_bytes chosen.others.items ≡ others_from Front (map string_bytes words.now)) }
{
    let mut chosen = Chosen {
        choices: Vec::new(alloc),
        others: Vec::new(alloc),
    };
    let mut place = Place::Front;
    for (at, word) in words.iter().enumerate() {
        chosen.take(alloc, place, word.as_str())?;
        place = place_after(place, word.as_bytes());
    }
    put_left_over(alloc, &mut chosen.others, place)?;
    Ok(chosen)
}
