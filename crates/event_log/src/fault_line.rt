//! A fault line, as text of a line.

ghost use Rattle.std.specs.Prelude.{◌≡◌, true, IfOk, IfSome};
ghost use Rattle.event_log.specs.Texts.{is_fault_byte, are_fault_bytes};

use std::alloc::Global;
use std::marker::Model;
use wl_octets::{Memory, Octets};

/// The line of a first fault, as `agentd` writes it to standard output: small letters, digits and spaces. No PEM, base64 or
/// DER is all of these.
#[derive(Drop)]
pub struct FaultLine {
    line: Octets,
}

impl Model for FaultLine {
    ghost use Rattle.std.specs.Prelude.{List, ℕ};

    ghost Value = { List ℕ };

    ghost view = { λ f. f.line };
}

/// Whether a fault line may have this byte.
fn is_fault_byte(byte: u8) -> bool
    ensures { result ≡ is_fault_byte byte }
{
    (byte >= b'a' && byte <= b'z') || (byte >= b'0' && byte <= b'9') || byte == b' '
}

/// Whether a fault line may have these bytes.
fn are_fault_bytes(bytes: &[u8]) -> bool
    ensures { result ≡ are_fault_bytes bytes.now }
{
    for byte in bytes {
        if !is_fault_byte(*byte) {
            return false;
        }
    }
    true
}

impl FaultLine {
    /// The line without its newline, where it is one of small letters, digits and spaces.
    pub fn read(alloc: Global, line: &[u8]) -> Result<Option<FaultLine>, Memory>
        ensures value { IfOk result (λ f. IfSome f (λ f. f ≡ line.now)) }
        ensures plain { IfOk result (λ f. IfSome f (λ f. are_fault_bytes line.now ≡ true)) }
    {
        if !are_fault_bytes(line) {
            return Ok(None);
        }
        let line = Octets::from_slice(alloc, line)?;
        Ok(Some(FaultLine { line }))
    }

    /// Its bytes.
    pub(crate) fn as_slice(&self) -> &[u8]
        ensures { result.now ≡ self.now }
    {
        self.line.as_slice()
    }
}
