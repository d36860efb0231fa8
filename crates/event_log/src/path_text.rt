//! A path, as text of a line.

ghost use Rattle.std.specs.Prelude.{◌≡◌, IfOk};

use std::alloc::Global;
use std::marker::Model;
use wl_octets::{Memory, Octets};

/// The path of a socket or a file that a configuration names. It is made from nothing else: see that no other text comes here.
#[derive(Drop)]
pub struct PathText {
    path: Octets,
}

impl Model for PathText {
    ghost use Rattle.std.specs.Prelude.{List, ℕ};

    ghost Value = { List ℕ };

    ghost view = { λ p. p.path };
}

impl PathText {
    /// The path that a configuration names.
    pub fn of_configuration(alloc: Global, path: &Octets) -> Result<PathText, Memory>
        ensures { IfOk result (λ p. p ≡ path.now) }
    {
        let path = path.copy(alloc)?;
        Ok(PathText { path })
    }

    /// Its bytes.
    pub(crate) fn as_slice(&self) -> &[u8]
        ensures { result.now ≡ self.now }
    {
        self.path.as_slice()
    }
}
