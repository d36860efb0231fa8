//! Descriptors that are held back.

use crate::connecting::connect;
use std::io;
use std::net::Net;
use std::os::fd::OwnedFd;
use std::os::unix::net::UnixStream;

/// The system has no descriptor left (the number of errno(3) on Linux, as the next).
const ENFILE: i32 = 23;

/// The process has no descriptor left.
const EMFILE: i32 = 24;

/// A descriptor that is held back for an exchange, so that one is left where others have taken all.
#[derive(Drop)]
pub struct Spare {
    held: Option<OwnedFd>,
}

/// Whether no descriptor was left.
fn is_out_of_descriptors(error: &io::Error) -> bool {
    matches!(error.raw_os_error(), Some(ENFILE | EMFILE))
}

impl Spare {
    /// Holds one back, where one is left.
    pub fn hold(net: &impl Net) -> Spare {
        Spare {
            held: net.unix_socket().ok(),
        }
    }

    /// Holds one back again, where it was given up and one is left. Call it after each exchange, once its stream is closed.
    pub fn hold_again(&mut self, net: &impl Net) {
        if self.held.is_none() {
            self.held = net.unix_socket().ok();
        }
    }

    /// Connects as [`connect`] does. Where no descriptor is left it gives up the one that is held back, and connects again.
    pub fn connect(&mut self, net: &impl Net, path: &str) -> io::Result<UnixStream> {
        match connect(net, path) {
            Err(error) if is_out_of_descriptors(&error) && self.held.is_some() => {
                self.held = None;
                connect(net, path)
            }
            done => done,
        }
    }
}
