//! Representations and blocks (RFC 7541, sections 3.2 and 6).
#![tactic(auto)]

ghost use Rattle.std.specs.Prelude.{◌<◌};
ghost use Rattle.hpack.specs.Outcomes.{Gives};
ghost use Rattle.hpack.specs.Reading.{name_at, literal_at, representation_at, block_of};

use crate::dynamic_table::{DynamicTable, size};
use crate::fault::HpackFault;
use crate::integers::{integer, string};
use crate::limit::{MAX_LIST_SIZE, MAX_TABLE_SIZE};
use std::alloc::Global;
use wl_octets::{Header, Octets, Row};

/// The name that the bytes begin with, by an index of this prefix or as a string, and what stands after it.
#[tactic(auto, unfolding(crate::specs::Reading::name_at))]
fn name<'a>(
    alloc: Global,
    table: &DynamicTable,
    full: u8,
    bytes: &'a [u8],
) -> Result<(Octets, &'a [u8]), HpackFault>
    requires { full < 128 }
    ensures { Gives (λ read. (read.0, read.1.now)) result (name_at table.now.items full bytes.now) }
{
    let (index, rest) = integer(full, bytes)?;
    if index == 0 {
        return string(alloc, rest);
    }
    Ok((table.name(alloc, index)?, rest))
}

/// The literal that the bytes begin with, and what stands after it.
#[tactic(auto, unfolding(crate::specs::Reading::literal_at))]
fn literal<'a>(
    alloc: Global,
    table: &DynamicTable,
    full: u8,
    bytes: &'a [u8],
) -> Result<(Header, &'a [u8]), HpackFault>
    requires { full < 128 }
    ensures { Gives (λ read. (read.0, read.1.now)) result (literal_at table.now.items full bytes.now) }
{
    let (name, rest) = name(alloc, table, full, bytes)?;
    let (value, rest) = string(alloc, rest)?;
    Ok((Header { name, value }, rest))
}

/// The representation that the bytes begin with: the header that it names, if any, and what stands after it. The table
/// changes with it.
#[tactic(auto, unfolding(crate::specs::Reading::representation_at))]
fn representation<'a>(
    alloc: Global,
    table: &mut DynamicTable,
    begun: bool,
    first: u8,
    bytes: &'a [u8],
) -> Result<(Option<Header>, &'a [u8]), HpackFault>
    ensures { Gives (λ read. (read.0, table.new, read.1.now)) result
        (representation_at table.old begun first bytes.now) }
{
    if first >= 128 {
        let (index, rest) = integer(127, bytes)?;
        let header = table.header(alloc, index)?;
        Ok((Some(header), rest))
    } else if first >= 64 {
        let (header, rest) = literal(alloc, table, 63, bytes)?;
        table.insert(alloc, &header)?;
        Ok((Some(header), rest))
    } else if first >= 32 {
        let (most, rest) = integer(31, bytes)?;
        if begun || most > MAX_TABLE_SIZE {
            return Err(HpackFault::SizeUpdate);
        }
        table.resize(most);
        Ok((None, rest))
    } else {
        let (header, rest) = literal(alloc, table, 15, bytes)?;
        Ok((Some(header), rest))
    }
}

/// The headers of a block. The table changes with each representation.
pub(crate) fn headers(
    alloc: Global,
    table: &mut DynamicTable,
    block: &[u8],
) -> Result<Row<Header>, HpackFault>
    ensures { Gives (λ headers. (headers, table.new)) result (block_of table.old block.now) }
{
    // A header takes a byte at least.
    let mut headers = Vec::with_capacity(alloc, block.len().min(16))?;
    let mut begun = false;
    let mut room = u128::from(MAX_LIST_SIZE);
    let mut rest = block;
    'each: while let Some(first) = rest.first() {
        let (named, after) = representation(alloc, table, begun, *first, rest)?;
        rest = after;
        let Some(header) = named else {
            continue;
        };
        let size = size(&header);
        if room < size {
            return Err(HpackFault::ListTooLong);
        }
        room -= size;
        begun = true;
        headers.push(header)?;
    }
    Ok(Row::from_vec(headers))
}
