//! Examples of the standard and of another encoder, refusals, integers, Huffman texts and plain blocks.

mod vectors;

ghost use Rattle.std.specs.Prelude.{◌<◌};

use hpack::{Decoder, HpackFault, encode_plain, huff_decode, huff_len};
use std::alloc::AllocGlobal;
use std::process::Abort;
use vectors::{EXAMPLES, OTHERS, REFUSALS};
use wl_octets::{Header, Octets};

fn digit(byte: u8) -> u8
    ensures { result < 16 }
{
    match byte {
        b'0'..=b'9' => byte - b'0',
        b'a'..=b'f' => byte - b'a' + 10,
        _ => 0,
    }
}

fn bytes_of(rt: &(impl AllocGlobal + Abort), hex: &str) -> Vec<u8> {
    let mut bytes = Vec::new(rt.alloc());
    let mut high = None;
    for byte in hex.as_bytes() {
        match high {
            None => high = Some(digit(*byte)),
            Some(first) => {
                bytes
                    .push(first % 16 * 16 + digit(*byte))
                    .expect(rt, "memory");
                high = None;
            }
        }
    }
    bytes
}

fn fault_name(fault: HpackFault) -> &'static str {
    match fault {
        HpackFault::Index => "! Index\n",
        HpackFault::Integer => "! Integer\n",
        HpackFault::Truncated => "! Truncated\n",
        HpackFault::Padding => "! Padding\n",
        HpackFault::SizeUpdate => "! SizeUpdate\n",
        HpackFault::ListTooLong => "! ListTooLong\n",
        HpackFault::Memory => "! Memory\n",
    }
}

fn put(rt: &(impl AllocGlobal + Abort), into: &mut Vec<u8>, more: &[u8]) {
    into.extend_from_slice(more).expect(rt, "memory");
}

/// Writes the headers as lines, and gives the sum of their sizes.
fn write_headers(rt: &(impl AllocGlobal + Abort), into: &mut Vec<u8>, headers: &[Header]) -> u64 {
    let mut sum: u64 = 0;
    for header in headers {
        put(rt, into, header.name.as_slice());
        put(rt, into, b": ");
        put(rt, into, header.value.as_slice());
        put(rt, into, b"\n");
        sum = sum.wrapping_add(
            (header.name.len() as u64)
                .wrapping_add(header.value.len() as u64)
                .wrapping_add(32),
        );
    }
    sum
}

/// A connection, what its last block gave, and what was due.
#[derive(Drop)]
struct Run {
    decoder: Decoder,
    given: Vec<u8>,
    wanted: Vec<u8>,
    /// The sum of the sizes of the last headers.
    sum: u64,
}

/// Asserts that the last block gave what was due.
fn is_as_due(rt: &(impl AllocGlobal + Abort), run: &Run, line: usize) {
    assert_eq!(rt;
        run.given.as_slice(),
        run.wanted.as_slice(),
        "before line {line}"
    );
}

/// Takes the next block.
fn take_block(rt: &(impl AllocGlobal + Abort), run: &mut Run, hex: &str) {
    run.wanted.clear();
    run.given.clear();
    let block = bytes_of(rt, hex);
    match run.decoder.block(rt.alloc(), block.as_slice()) {
        Ok(headers) => run.sum = write_headers(rt, &mut run.given, headers.as_slice()),
        Err(fault) => put(rt, &mut run.given, fault_name(fault).as_bytes()),
    }
}

/// Takes a line of what is due.
fn take_wanted(rt: &(impl AllocGlobal + Abort), run: &mut Run, line: &str) {
    put(rt, &mut run.wanted, line.as_bytes());
    put(rt, &mut run.wanted, b"\n");
    if line.starts_with("size ") {
        let size = format!(in rt.alloc(); "size {}\n", run.sum).expect(rt, "memory");
        put(rt, &mut run.given, size.as_bytes());
    }
}

fn runs(rt: &(impl AllocGlobal + Abort), script: &str) {
    let mut run = Run {
        decoder: Decoder::start(rt.alloc()),
        given: Vec::new(rt.alloc()),
        wanted: Vec::new(rt.alloc()),
        sum: 0,
    };
    for (number, line) in script.lines().enumerate() {
        if line == "new" {
            run.decoder = Decoder::start(rt.alloc());
        } else if let Some(hex) = line.strip_prefix("> ") {
            is_as_due(rt, &run, number);
            take_block(rt, &mut run, hex);
        } else {
            take_wanted(rt, &mut run, line);
        }
    }
    is_as_due(rt, &run, usize::MAX);
}

#[test]
fn examples_of_the_standard(rt: HostRuntime) {
    runs(&rt, EXAMPLES);
}

#[test]
fn refusals(rt: HostRuntime) {
    runs(&rt, REFUSALS);
}

#[test]
fn blocks_of_another_encoder(rt: HostRuntime) {
    runs(&rt, OTHERS);
}

/// Asserts how many headers a block of so many times `:method: GET` has.
fn repeats(rt: &(impl AllocGlobal + Abort), count: usize, due: Result<usize, HpackFault>) {
    let block = vec![in rt.alloc(); 0x82u8; count].expect(rt, "memory");
    let read = Decoder::start(rt.alloc()).block(rt.alloc(), block.as_slice());
    assert_eq!(rt; read.map(|headers| headers.len()), due);
}

/// `:method: GET` has a size of 42, of which 390 go into 16,384.
#[test]
fn list_limit(rt: HostRuntime) {
    repeats(&rt, 390, Ok(390));
    repeats(&rt, 391, Err(HpackFault::ListTooLong));
}

/// RFC 7541, C.1: the integers 10, 42 and 14 within prefixes of four, six and seven bits, as indexes of the static table.
const INDEXES: &str = "new
> 8a
:status: 206
> aa
if-range: 
> 6a0178
if-range: x
> 0e0178
:status: x
";

#[test]
fn integers(rt: HostRuntime) {
    runs(&rt, INDEXES);
}

/// Asserts what the newest item of the dynamic table is after a size update and a field of the name `a` with a value of so
/// many bytes, whose length is coded so.
fn stays(
    rt: &(impl AllocGlobal + Abort),
    update: &[u8],
    length: &[u8],
    count: usize,
    due: Result<usize, HpackFault>,
) {
    let mut decoder = Decoder::start(rt.alloc());
    let mut block = Vec::new(rt.alloc());
    put(rt, &mut block, update);
    put(rt, &mut block, b"\x40\x01a");
    put(rt, &mut block, length);
    let value = vec![in rt.alloc(); b'v'; count].expect(rt, "memory");
    put(rt, &mut block, value.as_slice());
    let read = decoder
        .block(rt.alloc(), block.as_slice())
        .expect(rt, "a block");
    assert_eq!(rt; read.len(), 1);
    let newest = decoder.block(rt.alloc(), &[0xbe]);
    assert_eq!(rt; newest.map(|headers| headers.len()), due);
}

/// RFC 7541, C.1: the integers 10 and 1,337 in a prefix of five bits, as sizes of the dynamic table. A field with one
/// byte of name has a size of 33 and its value.
#[test]
fn integers_of_five_bits(rt: HostRuntime) {
    stays(&rt, b"\x2a", b"\0", 0, Err(HpackFault::Index));
    stays(&rt, b"\x3f\x9a\x0a", b"\x7f\x99\x09", 1304, Ok(1));
    stays(
        &rt,
        b"\x3f\x9a\x0a",
        b"\x7f\x9a\x09",
        1305,
        Err(HpackFault::Index),
    );
}

/// Asserts the text that is coded so.
fn decodes(rt: &(impl AllocGlobal + Abort), hex: &str, text: &str) {
    let coded = bytes_of(rt, hex);
    let decoded = huff_decode(rt.alloc(), coded.as_slice()).expect(rt, "a text");
    assert_eq!(rt; decoded.as_slice(), text.as_bytes());
}

/// Asserts that a text is refused for its padding.
fn is_padded_wrong(rt: &(impl AllocGlobal + Abort), hex: &str) {
    let coded = bytes_of(rt, hex);
    let refused = huff_decode(rt.alloc(), coded.as_slice());
    assert_eq!(rt;
        refused.map(|text| text.len()),
        Err(HpackFault::Padding),
        "at {hex}"
    );
}

#[test]
fn huffman_texts(rt: HostRuntime) {
    for (hex, text) in [
        ("f1e3c2e5f23a6ba0ab90f4ff", "www.example.com"),
        ("a8eb10649cbf", "no-cache"),
        ("25a849e95ba97d7f", "custom-key"),
        ("fe3f", "!"),
        ("", ""),
    ] {
        decodes(&rt, hex, text);
    }
    // Three zero bits, fourteen ones, eight, eleven, and the end of a string.
    for hex in ["18", "00ffff", "ff", "1fff", "ffffffff", "fffffffc"] {
        is_padded_wrong(&rt, hex);
    }
    assert_eq!(rt; huff_len(b"www.example.com"), 89);
    assert_eq!(rt; huff_len(b"no-cache"), 43);
}

/// A header of this name and this value.
fn header(rt: &(impl AllocGlobal + Abort), name: &[u8], value: &[u8]) -> Header {
    Header {
        name: Octets::from_slice(rt.alloc(), name).expect(rt, "memory"),
        value: Octets::from_slice(rt.alloc(), value).expect(rt, "memory"),
    }
}

/// Asserts the plain block of a header, and that it is read as the header.
fn is_written(rt: &(impl AllocGlobal + Abort), name: &str, value: &str, hex: &str) {
    let headers = [header(rt, name.as_bytes(), value.as_bytes())];
    let block = encode_plain(rt.alloc(), &headers).expect(rt, "memory");
    let wanted = bytes_of(rt, hex);
    assert_eq!(rt; block.as_slice(), wanted.as_slice(), "at {name}");
    let read = Decoder::start(rt.alloc()).block(rt.alloc(), block.as_slice());
    let read = read.expect(rt, "a block");
    assert!(rt; read.as_slice() == headers.as_slice());
}

#[test]
fn plain_blocks(rt: HostRuntime) {
    for (name, value, hex) in [
        (":status", "200", "88"),
        (":status", "404", "8d"),
        (":status", "201", "0803323031"),
        (":method", "GET", "82"),
        ("www-authenticate", "", "bd"),
        ("www-authenticate", "x", "0f2e0178"),
        (
            "content-type",
            "application/grpc",
            "0f10106170706c69636174696f6e2f67727063",
        ),
        ("grpc-status", "0", "000b677270632d7374617475730130"),
    ] {
        is_written(&rt, name, value, hex);
    }
}

/// A length of 200 takes a full prefix and one byte more.
#[test]
fn long_values(rt: HostRuntime) {
    let headers = [header(&rt, b"te", &[b'v'; 200])];
    let block = encode_plain(rt.alloc(), &headers).expect(&rt, "memory");
    assert_eq!(rt; block.len(), 206);
    let front = block.as_slice().get(..7);
    assert_eq!(rt; front, Some(b"\0\x02te\x7f\x49v".as_slice()));
}
