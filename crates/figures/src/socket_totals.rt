//! Figures of sockets, of each path once.

use crate::figures::SocketFigures;
use std::alloc::Global;
use wl_octets::{Memory, Row};

/// Figures of sockets by ascending number, of each path once: those of a socket that was given up and of the ones that came to its path
/// after it are summed, since a page may have a label's value once.
#[derive(Drop)]
pub(crate) struct SocketTotals {
    all: Vec<SocketFigures>,
    /// Where sockets stand that were given up: others of the same path come after them.
    given_up: Vec<usize>,
}

impl SocketTotals {
    /// Of no socket.
    pub(crate) fn start(alloc: Global) -> SocketTotals {
        SocketTotals {
            all: Vec::new(alloc),
            given_up: Vec::new(alloc),
        }
    }

    /// Where a socket of the same path stands that was given up.
    fn place_of(&self, figures: &SocketFigures) -> Option<usize> {
        for at in self.given_up.iter() {
            if let Some(other) = self.all.get(*at) {
                if other.path.as_slice() == figures.path.as_slice() {
                    return Some(*at);
                }
            }
        }
        None
    }

    /// Adds one whose path nothing has before it.
    fn push(&mut self, figures: SocketFigures, is_given_up: bool) -> Result<(), Memory> {
        if is_given_up {
            self.given_up.push(self.all.len())?;
        }
        self.all.push(figures)?;
        Ok(())
    }

    /// Takes the figures of the next socket.
    pub(crate) fn take(&mut self, figures: SocketFigures, is_given_up: bool) -> Result<(), Memory> {
        let at = self.place_of(&figures).unwrap_or(usize::MAX);
        if let Some(other) = self.all.get_mut(at) {
            other.add(&figures);
            return Ok(());
        }
        self.push(figures, is_given_up)
    }

    /// All of them.
    pub(crate) fn into_row(self) -> Row<SocketFigures> {
        let SocketTotals {
            all,
            given_up: _given_up,
        } = self;
        Row::from_vec(all)
    }
}
