//! What `event=written` says of a leaf.

use event_log::TimeText;
use keep_log::WrittenSet;
use std::alloc::Global;
use svid_files::serial_of;
use wl_client::decode_x509;
use wl_octets::{Memory, Octets};
use wl_x509::read_leaf;

/// The chain of the first SVID of a message.
fn chain_of(alloc: Global, message: &[u8]) -> Option<Octets> {
    let message = decode_x509(alloc, message).ok()?;
    let svid = message.svids.get(0)?;
    Octets::from_slice(alloc, svid.chain.as_slice()).ok()
}

/// The serial number of the first certificate of a chain.
fn serial_in(alloc: Global, chain: &[u8]) -> Result<Option<Octets>, Memory> {
    match serial_of(chain) {
        Some(serial) => Ok(Some(Octets::from_slice(alloc, serial)?)),
        None => Ok(None),
    }
}

/// When the leaf of a chain ends.
fn end_in(alloc: Global, chain: &[u8]) -> Result<Option<TimeText>, Memory> {
    match read_leaf(alloc, chain) {
        Ok(leaf) => Ok(Some(TimeText::at(alloc, leaf.not_after)?)),
        Err(_) => Ok(None),
    }
}

/// What is said of the set of this number, whose files are those of this message.
pub fn set_of_message(
    alloc: Global,
    number: u64,
    count: u64,
    message: &[u8],
) -> Result<WrittenSet, Memory> {
    let chain = match chain_of(alloc, message) {
        Some(chain) => chain,
        None => Octets::empty(alloc),
    };
    let serial = serial_in(alloc, chain.as_slice())?;
    let not_after = end_in(alloc, chain.as_slice())?;
    Ok(WrittenSet {
        serial,
        not_after,
        number,
        count,
    })
}
