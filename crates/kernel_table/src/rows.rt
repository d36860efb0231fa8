//! The rows of the table.

ghost use Rattle.std.specs.Prelude.{◌≡◌, ◌==◌, option_copied, IfSome};
ghost use Rattle.std.specs.List.{filter, slice_get};
ghost use Rattle.kernel_table.specs.Ends.{end_text};
ghost use Rattle.kernel_table.specs.Rows.{word_at, says, is_of, rows_of, uid_in, uid_of};

use crate::ends::end_text;
use decimal_text::number_up_to;
use std::net::SocketAddr;

/// A connection that both ends have.
const ESTABLISHED: &[u8] = b"01";

/// The word at this place of a line, from 0. Spaces part the words.
fn word_at(line: &[u8], place: usize) -> Option<&[u8]>
    ensures { option_copied result ≡ word_at place line.now }
{
    line.split(|byte| *byte == b' ')
        .filter(|word| !word.is_empty())
        .nth(place)
}

/// Whether the word at this place of a line is this text.
fn says(line: &[u8], place: usize, text: &[u8]) -> bool
    ensures { result ≡ says place text.now line.now }
{
    match word_at(line, place) {
        Some(word) => word == text,
        None => false,
    }
}

/// Whether a line is the row of the connection with these ends.
#[tactic(auto, unfolding(crate::specs::Rows::is_of))]
fn is_of(line: &[u8], local: &[u8], remote: &[u8]) -> bool
    ensures { result ≡ is_of local.now remote.now line.now }
{
    says(line, 1, local) && says(line, 2, remote) && says(line, 3, ESTABLISHED)
}

/// The row at this place, from 0, of those of the connection with these ends.
fn row_at<'a>(table: &'a [u8], local: &[u8], remote: &[u8], place: usize) -> Option<&'a [u8]>
    ensures { option_copied result ≡ slice_get (rows_of local.now remote.now table.now) place }
{
    table
        .split(|byte| *byte == b'\n')
        .filter(|line| is_of(line, local, remote))
        .nth(place)
}

/// The uid that a row names.
fn uid_in(line: &[u8]) -> Option<u32>
    ensures { result ≡ uid_in line.now }
{
    match number_up_to(u64::from(u32::MAX), word_at(line, 7)?) {
        Some(uid) => Some(uid as u32),
        None => None,
    }
}

/// The uid of the process that has the local end of a connection, by the kernel's table of TCP connections:
/// the text of `/proc/net/tcp` where the ends are IPv4, of `/proc/net/tcp6` where they are IPv6.
///
/// None where no row has these ends in the state ESTABLISHED, where more than one has, or where the row names no uid.
#[tactic(auto, using(crate::proofs::Places::one_row, crate::proofs::Places::no_row, crate::proofs::Places::two_rows), unfolding(crate::specs::Rows::uid_of))]
pub fn uid_of(table: &[u8], local: SocketAddr, remote: SocketAddr) -> Option<u32>
    ensures { result ≡ uid_of table.now local remote }
{
    let local = end_text(local);
    let remote = end_text(remote);
    match row_at(table, local.as_slice(), remote.as_slice(), 1) {
        Some(_) => None,
        None => uid_in(row_at(table, local.as_slice(), remote.as_slice(), 0)?),
    }
}
