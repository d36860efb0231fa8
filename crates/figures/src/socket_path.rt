//! The path of a socket, as the value of a label.

ghost use Rattle.std.specs.Prelude.{◌≡◌, IfOk};

use std::alloc::Global;
use std::marker::Model;
use wl_octets::{Memory, Octets};

/// The path of a socket that a configuration names. It is made from nothing else: see that no other text comes here.
#[derive(Drop)]
pub struct SocketPath {
    path: Octets,
}

impl Model for SocketPath {
    ghost use Rattle.std.specs.Prelude.{List, ℕ};

    ghost Value = { List ℕ };

    ghost view = { λ p. p.path };
}

impl SocketPath {
    /// The path that a configuration names.
    pub fn of_configuration(alloc: Global, path: &Octets) -> Result<SocketPath, Memory>
        ensures { IfOk result (λ p. p ≡ path.now) }
    {
        let path = path.copy(alloc)?;
        Ok(SocketPath { path })
    }

    /// A copy of it.
    pub(crate) fn copy(&self, alloc: Global) -> Result<SocketPath, Memory>
        ensures { IfOk result (λ p. p ≡ self.now) }
    {
        let path = self.path.copy(alloc)?;
        Ok(SocketPath { path })
    }

    /// Its bytes.
    pub(crate) fn as_slice(&self) -> &[u8]
        ensures { result.now ≡ self.now }
    {
        self.path.as_slice()
    }
}
