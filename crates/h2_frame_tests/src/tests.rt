//! Outside bytes, read and written. Those of `vectors` were printed by `tests/vectors/frame_vectors.py`.

use h2_frame::{Body, Frame, FrameFault, Parser, Setting, put_frame};
use std::alloc::{AllocGlobal, Global};
use std::process::Abort;
use std::test::Fail;
use wl_octets::{Octets, Row};

/// The connection preface and an empty SETTINGS.
const OPENING: &[u8] = b"PRI * HTTP/2.0\r\n\r\nSM\r\n\r\n\0\0\0\x04\0\0\0\0\0";

fn failed(_fault: FrameFault) -> Fail {
    Fail::from("a fault")
}

fn octets(alloc: Global, bytes: &[u8]) -> Result<Octets, Fail> {
    Ok(Octets::from_slice(alloc, bytes)?)
}

/// The frames of some bytes without a preface, cut into pieces of this length.
fn read(
    alloc: Global,
    bytes: &[u8],
    length: usize,
) -> Result<(Row<Frame>, Option<FrameFault>), Fail> {
    let mut parser = Parser::start_bare(alloc);
    let mut frames = Row::empty(alloc);
    let mut fault = None;
    for piece in bytes.chunks(length.max(1)) {
        if let Err(why) = parser.feed(alloc, piece, &mut frames) {
            fault = Some(why);
        }
    }
    Ok((frames, fault))
}

fn data(alloc: Global, bytes: &[u8], size: u32, ended: bool) -> Result<Body, Fail> {
    let bytes = octets(alloc, bytes)?;
    Ok(Body::Bytes { bytes, size, ended })
}

fn headers(alloc: Global, block: &[u8], ended: bool, whole: bool) -> Result<Body, Fail> {
    let block = octets(alloc, block)?;
    Ok(Body::Headers {
        block,
        ended,
        whole,
    })
}

fn settings(alloc: Global, pairs: &[(u16, u32)]) -> Result<Body, Fail> {
    let mut row = Row::empty(alloc);
    for (id, value) in pairs {
        let pair = Setting {
            id: *id,
            value: *value,
        };
        if row.push(pair).is_err() {
            return Err(Fail::from("no memory"));
        }
    }
    Ok(Body::Settings { pairs: row })
}

/// Asserts that the bytes are the frame, cut anywhere.
fn reads(
    rt: &impl Abort,
    alloc: Global,
    bytes: &[u8],
    stream: u32,
    body: Body,
) -> Result<Frame, Fail> {
    let expected = Frame { stream, body };
    for length in [1, 2, 5, 9, 64] {
        let (frames, fault) = read(alloc, bytes, length)?;
        assert_eq!(rt; fault, None);
        assert_eq!(rt; frames.len(), 1);
        assert!(rt; frames.get(0) == Some(&expected));
    }
    Ok(expected)
}

fn put(rt: &impl Abort, out: &mut Octets, stream: u32, body: Body) -> Result<(), Fail> {
    assert!(rt; body.fits());
    Ok(put_frame(out, &Frame { stream, body })?)
}

/// Asserts that the bytes are the frame and the frame's one encoding.
fn spells(
    rt: &impl Abort,
    alloc: Global,
    bytes: &[u8],
    stream: u32,
    body: Body,
) -> Result<(), Fail> {
    let frame = reads(rt, alloc, bytes, stream, body)?;
    let mut out = octets(alloc, b"-")?;
    put(rt, &mut out, frame.stream, frame.body)?;
    let mut expected = octets(alloc, b"-")?;
    expected.push_slice(bytes)?;
    assert!(rt; out == expected);
    Ok(())
}

#[test]
fn vectors_of_streams(rt: HostRuntime) -> Result<(), Fail> {
    let alloc = rt.alloc();
    spells(
        &rt,
        alloc,
        b"\0\0\x05\0\x01\0\0\0\x01hello",
        1,
        data(alloc, b"hello", 5, true)?,
    )?;
    spells(
        &rt,
        alloc,
        b"\0\0\0\0\0\0\0\0\x03",
        3,
        data(alloc, b"", 0, false)?,
    )?;
    reads(
        &rt,
        alloc,
        b"\0\0\x06\0\x08\0\0\0\x05\x02hey\0\0",
        5,
        data(alloc, b"hey", 6, false)?,
    )?;
    spells(
        &rt,
        alloc,
        b"\0\0\x02\x01\x05\0\0\0\x01\x82\x84",
        1,
        headers(alloc, b"\x82\x84", true, true)?,
    )?;
    spells(
        &rt,
        alloc,
        b"\0\0\x01\x01\0\0\0\0\x01\x82",
        1,
        headers(alloc, b"\x82", false, false)?,
    )?;
    let padded = b"\0\0\x0b\x01\x2c\0\0\0\x07\x03\x80\0\0\x01\x0f\x82\x86\0\0\0";
    reads(
        &rt,
        alloc,
        padded,
        7,
        headers(alloc, b"\x82\x86", false, true)?,
    )?;
    reads(
        &rt,
        alloc,
        b"\0\0\x05\x02\0\0\0\0\x05\0\0\0\x03\xc8",
        5,
        Body::Priority,
    )?;
    spells(
        &rt,
        alloc,
        b"\0\0\x04\x03\0\0\0\0\x03\0\0\0\x08",
        3,
        Body::Reset { code: 8 },
    )?;
    reads(
        &rt,
        alloc,
        b"\0\0\x05\x05\x04\0\0\0\x01\0\0\0\x02\x82",
        1,
        Body::PushPromise,
    )?;
    spells(
        &rt,
        alloc,
        b"\0\0\x04\x08\0\0\0\0\x09\0\0\xff\xff",
        9,
        Body::WindowUpdate { step: 65535 },
    )?;
    let block = octets(alloc, b"\x88")?;
    spells(
        &rt,
        alloc,
        b"\0\0\x01\x09\x04\0\0\0\x07\x88",
        7,
        Body::Continuation { block, whole: true },
    )?;
    reads(
        &rt,
        alloc,
        b"\0\0\x09\x0a\0\0\0\0\x01\0\0h2=\":1\"",
        1,
        Body::Unknown { kind: 10 },
    )?;
    spells(
        &rt,
        alloc,
        b"\0\0\0\x0a\0\0\0\0\x01",
        1,
        Body::Unknown { kind: 10 },
    )?;
    Ok(())
}

#[test]
fn vectors_of_connections(rt: HostRuntime) -> Result<(), Fail> {
    let alloc = rt.alloc();
    let pairs = b"\0\0\x0c\x04\0\0\0\0\0\0\x03\0\0\0\x10\0\x06\0\0\x40\0";
    spells(
        &rt,
        alloc,
        pairs,
        0,
        settings(alloc, &[(3, 16), (6, 16384)])?,
    )?;
    spells(
        &rt,
        alloc,
        b"\0\0\0\x04\0\0\0\0\0",
        0,
        settings(alloc, &[])?,
    )?;
    spells(&rt, alloc, b"\0\0\0\x04\x01\0\0\0\0", 0, Body::SettingsAck)?;
    let ping = Body::Ping { ack: true, word: 1 };
    spells(
        &rt,
        alloc,
        b"\0\0\x08\x06\x01\0\0\0\0\0\0\0\0\0\0\0\x01",
        0,
        ping,
    )?;
    let word = 0x0102_0304_0506_0708;
    let ping = Body::Ping { ack: false, word };
    spells(
        &rt,
        alloc,
        b"\0\0\x08\x06\0\0\0\0\0\x01\x02\x03\x04\x05\x06\x07\x08",
        0,
        ping,
    )?;
    let away = Body::GoAway { last: 7, code: 11 };
    spells(
        &rt,
        alloc,
        b"\0\0\x08\x07\0\0\0\0\0\0\0\0\x07\0\0\0\x0b",
        0,
        away,
    )?;
    let away = Body::GoAway { last: 7, code: 2 };
    reads(
        &rt,
        alloc,
        b"\0\0\x0b\x07\0\0\0\0\0\0\0\0\x07\0\0\0\x02bye",
        0,
        away,
    )?;
    Ok(())
}

#[test]
fn zeros_for_what_is_dropped(rt: HostRuntime) -> Result<(), Fail> {
    let alloc = rt.alloc();
    spells(
        &rt,
        alloc,
        b"\0\0\x05\x02\0\0\0\0\x05\0\0\0\0\0",
        5,
        Body::Priority,
    )?;
    spells(&rt, alloc, b"\0\0\0\x05\0\0\0\0\x01", 1, Body::PushPromise)?;
    // the reserved bits of a stream, a last stream and a step
    reads(
        &rt,
        alloc,
        b"\0\0\x04\x08\0\x80\0\0\x09\x80\0\0\x05",
        9,
        Body::WindowUpdate { step: 5 },
    )?;
    let away = Body::GoAway { last: 7, code: 2 };
    reads(
        &rt,
        alloc,
        b"\0\0\x08\x07\0\0\0\0\0\x80\0\0\x07\0\0\0\x02",
        0,
        away,
    )?;
    Ok(())
}

#[test]
fn after_the_preface(rt: HostRuntime) -> Result<(), Fail> {
    let alloc = rt.alloc();
    let mut whole = Parser::start(alloc);
    let mut frames = Row::empty(alloc);
    whole.feed(alloc, OPENING, &mut frames).map_err(failed)?;
    assert_eq!(rt; frames.len(), 1);

    let mut cut = Parser::start(alloc);
    let mut others = Row::empty(alloc);
    for byte in OPENING {
        cut.feed(alloc, &[*byte], &mut others).map_err(failed)?;
    }
    assert!(rt; frames == others);

    // a length of 16,385 is refused when its head is whole, and ever after
    let mut parser = Parser::start(alloc);
    let (preface, _) = OPENING.split_at(24);
    let mut frames = Row::empty(alloc);
    parser.feed(alloc, preface, &mut frames).map_err(failed)?;
    let head = [0x00, 0x40, 0x01, 0x04, 0x00, 0x00, 0x00, 0x00, 0x00];
    let refused = Err(FrameFault::TooLarge(16385));
    assert_eq!(rt; parser.feed(alloc, &head, &mut frames), refused);
    assert_eq!(rt; parser.feed(alloc, OPENING, &mut frames), refused);
    assert_eq!(rt; frames.len(), 0);
    Ok(())
}

#[test]
fn another_preface(rt: HostRuntime) -> Result<(), Fail> {
    let alloc = rt.alloc();
    let mut frames = Row::empty(alloc);
    let mut parser = Parser::start(alloc);
    assert_eq!(rt;
        parser.feed(alloc, b"X", &mut frames),
        Err(FrameFault::BadPreface(0))
    );
    assert_eq!(rt;
        parser.feed(alloc, b"PRI", &mut frames),
        Err(FrameFault::BadPreface(0))
    );
    let mut parser = Parser::start(alloc);
    parser
        .feed(alloc, b"PRI * HTTP/2.0\r", &mut frames)
        .map_err(failed)?;
    assert_eq!(rt;
        parser.feed(alloc, b"\r\n", &mut frames),
        Err(FrameFault::BadPreface(15))
    );
    assert_eq!(rt; frames.len(), 0);
    // what a server answers with
    let mut out = Octets::empty(alloc);
    let stream = 0;
    let body = settings(alloc, &[(3, 16), (6, 16384)])?;
    put(&rt, &mut out, stream, body)?;
    let body = Body::GoAway { last: 0, code: 1 };
    put(&rt, &mut out, stream, body)?;
    let expected =
        b"\0\0\x0c\x04\0\0\0\0\0\0\x03\0\0\0\x10\0\x06\0\0\x40\0\0\0\x08\x07\0\0\0\0\0\0\0\0\0\0\0\0\x01";
    assert_eq!(rt; out.as_slice(), expected.as_slice());
    Ok(())
}

#[test]
fn faults(rt: HostRuntime) -> Result<(), Fail> {
    let alloc = rt.alloc();
    let wrong: [(&[u8], FrameFault); 13] = [
        (b"\0\0\0\0\x08\0\0\0\x01", FrameFault::WrongLength(0, 0)),
        (b"\0\0\x05\x01\x28\0\0\0\x01", FrameFault::WrongLength(1, 5)),
        (b"\0\0\x04\x02\0\0\0\0\x01", FrameFault::WrongLength(2, 4)),
        (b"\0\0\x05\x03\0\0\0\0\x01", FrameFault::WrongLength(3, 5)),
        (b"\0\0\x07\x04\0\0\0\0\0", FrameFault::WrongLength(4, 7)),
        (b"\0\0\x06\x04\x01\0\0\0\0", FrameFault::WrongLength(4, 6)),
        (b"\0\0\x09\x06\0\0\0\0\0", FrameFault::WrongLength(6, 9)),
        (b"\0\0\x07\x07\0\0\0\0\0", FrameFault::WrongLength(7, 7)),
        (b"\0\0\x03\x08\0\0\0\0\0", FrameFault::WrongLength(8, 3)),
        (
            b"\xff\xff\xff\x63\0\0\0\0\0",
            FrameFault::TooLarge(0x00ff_ffff),
        ),
        (b"\0\x40\x01\0\0\0\0\0\x01", FrameFault::TooLarge(16385)),
        (b"\0\0\x02\0\x08\0\0\0\x01\x02\0", FrameFault::BadPadding),
        (
            b"\0\0\x07\x01\x28\0\0\0\x01\x02\0\0\0\0\0\x82",
            FrameFault::BadPadding,
        ),
    ];
    for (bytes, fault) in wrong.iter() {
        for length in [1, 3, 64] {
            let (frames, found) = read(alloc, bytes, length)?;
            assert_eq!(rt; frames.len(), 0);
            assert_eq!(rt; found, Some(*fault));
        }
    }
    Ok(())
}

#[test]
fn largest_frame(rt: HostRuntime) -> Result<(), Fail> {
    let alloc = rt.alloc();
    let content = [0x61; 16384];
    let body = data(alloc, &content, 16384, false)?;
    let mut out = Octets::empty(alloc);
    put(&rt, &mut out, 1, body)?;
    put(&rt, &mut out, 0, Body::SettingsAck)?;
    for length in [1, 1000, 16393, 20000] {
        let (frames, fault) = read(alloc, out.as_slice(), length)?;
        assert_eq!(rt; fault, None);
        assert_eq!(rt; frames.len(), 2);
    }
    Ok(())
}
