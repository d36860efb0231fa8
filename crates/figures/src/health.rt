//! Whether the agent lives and is ready.

ghost use Rattle.std.specs.Prelude.{◌≡◌, ◌++◌, OnOk, IfOk};
ghost use Rattle.figures.specs.Health.{is_ready, live_text, lacking_line, lacking_lines, ready_text};

use crate::escapes::put_escaped;
use std::alloc::Global;
use std::marker::Model;
use std::string::ToString;
use wl_octets::{Memory, Octets, Row};

/// The id of an entry. It is made from nothing else: see that no other text comes here.
#[derive(Drop)]
pub struct EntryId {
    id: Octets,
}

impl Model for EntryId {
    ghost use Rattle.std.specs.Prelude.{List, ℕ};

    ghost Value = { List ℕ };

    ghost view = { λ e. e.id };
}

impl EntryId {
    /// The id of an entry of a document.
    pub fn of_entry(alloc: Global, id: &Octets) -> Result<EntryId, Memory>
        ensures { IfOk result (λ e. e ≡ id.now) }
    {
        let id = id.copy(alloc)?;
        Ok(EntryId { id })
    }

    /// Its bytes.
    fn as_slice(&self) -> &[u8]
        ensures { result.now ≡ self.now }
    {
        self.id.as_slice()
    }
}

/// An entry that has had no identity for so many seconds.
#[derive(Drop)]
pub struct Lacking {
    pub entry: EntryId,
    pub seconds: u64,
}

/// How the agent does, at one moment.
#[derive(Drop)]
pub struct Health {
    /// Whether the keeper's step ended a short while ago.
    pub is_live: bool,
    /// Whether a document was taken.
    pub has_document: bool,
    /// The entries that have had no identity for too long.
    pub lacking: Row<Lacking>,
}

impl Health {
    /// Whether a document was taken, and each entry has an identity or has lacked one for a short while alone.
    #[tactic(auto, unfolding(crate::specs::Health::is_ready))]
    pub fn is_ready(&self) -> bool
        ensures { result ≡ is_ready self.now }
    {
        self.has_document && self.lacking.len() == 0
    }
}

/// The text of the page `/live`.
#[tactic(auto, unfolding(crate::specs::Health::live_text))]
pub fn live_text(is_live: bool) -> &'static [u8]
    ensures { result.now ≡ live_text is_live }
{
    if is_live { b"live\n" } else { b"not live\n" }
}

#[tactic(auto, unfolding(crate::specs::Health::lacking_line))]
fn put_lacking_line(alloc: Global, out: &mut Octets, lacking: &Lacking) -> Result<(), Memory>
    ensures { OnOk result (out.new ≡ out.old ++ lacking_line lacking.now) }
{
    out.push_slice(b"entry \"")?;
    put_escaped(out, lacking.entry.as_slice())?;
    out.push_slice(b"\" has had no identity for ")?;
    let text = lacking.seconds.to_string(alloc)?;
    out.push_slice(text.as_bytes())?;
    out.push_slice(b" s\n")
}

fn put_lacking_lines(alloc: Global, out: &mut Octets, all: &[Lacking]) -> Result<(), Memory>
    ensures { OnOk result (out.new ≡ out.old ++ lacking_lines all.now) }
{
    for (at, lacking) in all.iter().enumerate() {
        put_lacking_line(alloc, out, lacking)?;
    }
    Ok(())
}

/// The text of the page `/ready`: a line, or one for each entry that has had no identity for too long.
#[tactic(auto, unfolding(crate::specs::Health::ready_text, crate::specs::Health::is_ready))]
pub fn ready_text(alloc: Global, health: &Health) -> Result<Octets, Memory>
    ensures { IfOk result (λ text. text ≡ ready_text health.now) }
{
    if health.is_ready() {
        return Octets::from_slice(alloc, b"ready\n");
    }
    if !health.has_document {
        return Octets::from_slice(alloc, b"no document was taken\n");
    }
    let mut out = Octets::empty(alloc);
    put_lacking_lines(alloc, &mut out, health.lacking.as_slice())?;
    Ok(out)
}
