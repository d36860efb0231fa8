//! The links that are due. Sockets take turns, so that one with many links holds up no other.

use std::alloc::Global;
use std::collections::VecDeque;
use wl_octets::Memory;

/// How many links of a socket take their turn together, while links of other sockets are due.
const SHARE: usize = 1;

/// How many links of the only socket with due ones take their turn together. They are few, since a link of another socket that becomes due
/// meanwhile waits for them.
const SHARE_ALONE: usize = 2;

/// Numbers of links that are due, by socket.
#[derive(Drop)]
pub(crate) struct Turns {
    alloc: Global,
    /// By the number of the socket: its links that are due, in the order in which they became so.
    queues: Vec<VecDeque<u32>>,
    /// The sockets that have due links, the next one first.
    sockets: VecDeque<u32>,
}

/// Takes so many numbers out of a queue, and says whether it has more.
fn take_share(
    queue: &mut VecDeque<u32>,
    share: usize,
    into: &mut Vec<u32>,
) -> Result<bool, Memory> {
    for _ in 0..share {
        let Some(number) = queue.pop_front() else {
            break;
        };
        into.push(number)?;
    }
    Ok(!queue.is_empty())
}

impl Turns {
    /// No link is due.
    pub(crate) fn start(alloc: Global) -> Turns {
        Turns {
            alloc,
            queues: Vec::new(alloc),
            sockets: VecDeque::new(alloc),
        }
    }

    /// Whether no link is due.
    pub(crate) fn is_empty(&self) -> bool {
        self.sockets.is_empty()
    }

    /// Makes a queue for the links of this socket.
    pub(crate) fn make_queue(&mut self, socket: u32) -> Result<(), Memory> {
        let count = (socket as usize).saturating_add(1);
        for _ in self.queues.len()..count {
            self.queues.push(VecDeque::new(self.alloc))?;
        }
        Ok(())
    }

    /// A link of this socket is due, and was not. A socket without a queue has none.
    pub(crate) fn push(&mut self, socket: u32, number: u32) -> Result<(), Memory> {
        let Some(queue) = self.queues.get_mut(socket as usize) else {
            return Err(Memory);
        };
        if queue.is_empty() {
            self.sockets.push_back(socket).map_err(|_| Memory)?;
        }
        queue.push_back(number).map_err(|_| Memory)
    }

    /// The link of this number is due no more.
    pub(crate) fn remove(&mut self, socket: u32, number: u32) {
        if let Some(queue) = self.queues.get_mut(socket as usize) {
            queue.retain(|other| *other != number);
        }
    }

    /// No link is due any more.
    pub(crate) fn clear(&mut self) {
        for queue in self.queues.iter_mut() {
            queue.clear();
        }
        self.sockets.clear();
    }

    /// Takes the links whose turn it is: a share of each socket. Where memory runs out some of them may be lost.
    pub(crate) fn take(&mut self, into: &mut Vec<u32>) -> Result<(), Memory> {
        let count = self.sockets.len();
        let share = if count == 1 { SHARE_ALONE } else { SHARE };
        for _ in 0..count {
            let Some(socket) = self.sockets.pop_front() else {
                break;
            };
            let Some(queue) = self.queues.get_mut(socket as usize) else {
                continue;
            };
            if take_share(queue, share, into)? {
                self.sockets.push_back(socket).map_err(|_| Memory)?;
            }
        }
        Ok(())
    }
}
