mod memory;

ghost use Rattle.std.specs.Prelude.{◌<◌, ◌^◌};

use std::alloc::{AllocGlobal, Global};
use std::io::{Read, Write};
use std::test::Fail;
use std::{fs, io};
use wl_edge::{
    MemorySink, MemorySource, ReadFault, RealSink, RealSource, Sent, Sink, Source, Taken, read_all,
    write_all,
};
use wl_octets::{Memory, Octets, Row};

/// The list of one number.
fn only(alloc: Global, number: u64) -> Result<Row<u64>, Memory> {
    let mut row = Row::empty(alloc);
    row.push(number)?;
    Ok(row)
}

/// A source of `abcdef`, of which the reads of these numbers fail.
fn source(alloc: Global, piece: usize, failing: Row<u64>) -> Result<MemorySource, Memory> {
    let bytes = Octets::from_slice(alloc, b"abcdef")?;
    Ok(MemorySource::start(bytes, piece, failing))
}

/// Whether so much of the source is read as is due, and then the next byte.
fn reads(
    alloc: Global,
    piece: usize,
    limit: usize,
    due: &[u8],
    next: (Taken, [u8; 1]),
) -> Result<bool, Fail>
    requires { limit < 2 ^ 60 }
{
    let mut source = source(alloc, piece, Row::empty(alloc))?;
    let bytes = read_all(alloc, &mut source, limit)?;
    let mut one = [0];
    let taken = source.read(&mut one);
    Ok(bytes.as_slice() == due && (taken, one) == next)
}

#[test]
fn reads_to_the_end(rt: HostRuntime) -> Result<(), Fail> {
    for piece in 0..8 {
        assert!(rt; reads(rt.alloc(), piece, 100, b"abcdef", (Taken::End, [0]))?);
    }
    assert!(rt; reads(rt.alloc(), 4, 5, b"abcde", (Taken::Got(1), *b"f"))?);
    Ok(())
}

/// Whether a read of the source fails, and not for lack of memory.
fn read_fails(alloc: Global, source: &mut MemorySource) -> Result<bool, ReadFault> {
    match read_all(alloc, source, 100) {
        Ok(_) => Ok(false),
        Err(ReadFault::Failed) => Ok(true),
        Err(ReadFault::Memory) => Err(ReadFault::Memory),
    }
}

#[test]
fn a_failing_read_is_told_and_the_next_goes_on(rt: HostRuntime) -> Result<(), Fail> {
    let failing = only(rt.alloc(), 1)?;
    let mut source = source(rt.alloc(), 4, failing)?;
    assert!(rt; read_fails(rt.alloc(), &mut source)?);
    let second = read_all(rt.alloc(), &mut source, 100)?;
    assert_eq!(rt; second.as_slice(), b"ef".as_slice());
    Ok(())
}

/// Whether a sink with so much room, which takes two bytes at once, takes this front of `abcde`, and tells
/// whether that is the whole.
fn takes(
    alloc: Global,
    sendings: u64,
    room: usize,
    failing: Row<u64>,
    due: (bool, &[u8]),
) -> Result<bool, Memory> {
    let mut sink = MemorySink::start(alloc, sendings, room, 2, failing)?;
    let whole = write_all(&mut sink, b"abcde");
    Ok((whole, sink.bytes()) == due)
}

#[test]
fn writes_the_whole_or_a_front(rt: HostRuntime) -> Result<(), Fail> {
    let cases: [(u64, usize, (bool, &[u8])); 3] = [
        (10, 100, (true, b"abcde")),
        (10, 3, (false, b"abc")),
        (1, 100, (false, b"ab")),
    ];
    for (sendings, room, due) in cases {
        assert!(rt; takes(rt.alloc(), sendings, room, Row::empty(rt.alloc()), due)?);
    }
    Ok(())
}

#[test]
fn a_failing_write_is_told(rt: HostRuntime) -> Result<(), Fail> {
    let failing = only(rt.alloc(), 1)?;
    assert!(rt; takes(rt.alloc(), 10, 100, failing, (false, b"ab"))?);
    Ok(())
}

/// The file of the test, where the tests run.
const FILE: &str = "wl_edge_adapters";

#[test]
fn real_streams(rt: HostRuntime) -> Result<(), Fail> {
    let alloc = rt.alloc();
    let mut sink = RealSink::start(fs::create(&rt, FILE)?);
    assert!(rt; write_all(&mut sink, b"abc"));
    let mut source = RealSource::start(fs::open(&rt, FILE)?);
    let bytes = read_all(alloc, &mut source, 9)?;
    fs::remove_file(&rt, FILE)?;
    assert_eq!(rt; bytes.as_slice(), b"abc".as_slice());
    Ok(())
}

/// A stream of which each call fails.
#[derive(Drop)]
struct Broken;

impl Read for Broken {
    fn read(&mut self, _: &mut [u8]) -> io::Result<usize> {
        Err(io::Error::from(io::ErrorKind::BrokenPipe))
    }
}

impl Write for Broken {
    fn write(&mut self, _: &[u8]) -> io::Result<usize> {
        Err(io::Error::from(io::ErrorKind::BrokenPipe))
    }

    fn flush(&mut self) -> io::Result<()> {
        Ok(())
    }
}

#[test]
fn real_streams_that_fail(rt: HostRuntime) {
    let mut one = [0];
    assert_eq!(rt; RealSource::start(Broken).read(&mut one), Taken::Failed);
    assert_eq!(rt; RealSink::start(Broken).write(b"ab"), Sent::Failed);
}
