//! Files of tokens, their names, and when tokens end.

use file_sets::MemoryShelf;
use std::alloc::Global;
use std::test::*;
use svid_files::WriteFault;
use token_files::*;
use wl_octets::{Memory, Octets, Row};

/// An `X509SVIDResponse` with the SVID of spiffe://a.b/w, whose certificates are SEQUENCEs of a few bytes.
const MESSAGE: &[u8] =
    b"\n\x1f\n\x0espiffe://a.b/w\x12\x020\x00\x1a\x030\x01\x09\"\x040\x81\x01\x07";

/// A `JWTSVIDResponse` with two tokens, with one, with an empty one, and with none; and one that can't be read.
const TWO: &[u8] =
    b"\n\x17\n\x0espiffe://a.b/w\x12\x05h.c.s\n\x17\n\x0espiffe://a.b/x\x12\x05i.d.t";

const ONE: &[u8] = b"\n\x17\n\x0espiffe://a.b/w\x12\x05h.c.s";

const EMPTY: &[u8] = b"\n\x12\n\x0espiffe://a.b/w\x12\x00";

const NONE: &[u8] = b"";

const CUT: &[u8] = b"\n\x17\n";

/// A `JWTBundlesResponse` with the bundles of three names, of which the second and the third are that of the trust domain a.b;
/// one that has it without the scheme, and one that has only names that begin as it does.
const BUNDLES: &[u8] =
    b"\n\x1c\n\x0cspiffe://c.d\x12\x0c{\"keys\":[1]}\n\x1b\n\x0cspiffe://a.b\x12\x0b{\"keys\":[]}\n\x09\n\x03a.b\x12\x02{}";

const BARE: &[u8] = b"\n\x09\n\x03a.b\x12\x02{}";

const OTHERS: &[u8] = b"\n\x14\n\x0espiffe://a.b.c\x12\x02{}\n\x10\n\nspiffe://a\x12\x02{}";

/// The answers for the audiences `shop` and `https://a.b/c d%`.
fn answers(alloc: Global, first: &[u8], second: &[u8], bundles: &[u8]) -> Result<Answers, Memory> {
    let mut tokens = Row::empty(alloc);
    tokens.push(TokenAnswer {
        audience: Octets::from_slice(alloc, b"shop")?,
        message: Octets::from_slice(alloc, first)?,
    })?;
    tokens.push(TokenAnswer {
        audience: Octets::from_slice(alloc, b"https://a.b/c d%")?,
        message: Octets::from_slice(alloc, second)?,
    })?;
    let bundles = Octets::from_slice(alloc, bundles)?;
    Ok(Answers { tokens, bundles })
}

#[test]
fn answers_have_files(rt: HostRuntime) -> Result<(), Fail> {
    let alloc = rt.alloc();
    let table: [(&[u8], bool, &[u8]); 4] = [
        (b"jwt.shop-1.token", true, b"h.c.s"),
        (b"jwt.shop-2.token", true, b"i.d.t"),
        (b"jwt.https%3A%2F%2Fa.b%2Fc%20d%25-1.token", true, b"h.c.s"),
        (b"jwks.json", false, b"{\"keys\":[]}"),
    ];
    let answers = answers(alloc, TWO, ONE, BUNDLES)?;
    let files = set_of(alloc, &None, MESSAGE, &answers)?.expect(&rt, "files");
    assert_eq!(rt; files.len(), 3 + table.len());
    let (message, tokens) = files.as_slice().split_at(3);
    for (file, name) in message.iter().zip([
        b"svid.pem".as_slice(),
        b"key.pem".as_slice(),
        b"bundle.pem".as_slice(),
    ]) {
        assert_eq!(rt; file.name.as_slice(), name);
    }
    for (file, (name, is_secret, bytes)) in tokens.iter().zip(table) {
        assert_eq!(rt; file.name.as_slice(), name);
        assert_eq!(rt; file.is_secret, is_secret, "of {name:?}");
        assert_eq!(rt; file.bytes.as_slice(), bytes, "of {name:?}");
    }
    let folder = Some(Octets::from_slice(alloc, b"/w")?);
    let files = set_of(alloc, &folder, MESSAGE, &answers)?.expect(&rt, "files");
    assert_eq!(rt; files.len(), 8);
    assert_eq!(rt; files.as_slice()[3].name.as_slice(), b"sds.yaml".as_slice());
    Ok(())
}

#[test]
fn sets_that_lack_a_part_change_nothing(rt: HostRuntime) -> Result<(), Fail> {
    let alloc = rt.alloc();
    let table: [(&[u8], &[u8], &[u8], &[u8]); 7] = [
        (MESSAGE, ONE, NONE, BUNDLES),
        (MESSAGE, EMPTY, ONE, BUNDLES),
        (MESSAGE, ONE, CUT, BUNDLES),
        (MESSAGE, ONE, ONE, OTHERS),
        (MESSAGE, ONE, ONE, NONE),
        (MESSAGE, ONE, ONE, CUT),
        (NONE, ONE, ONE, BUNDLES),
    ];
    for (message, first, second, bundles) in table {
        let mut shelf = MemoryShelf::start(alloc, u64::MAX);
        let whole = answers(alloc, ONE, TWO, BARE)?;
        assert_eq!(rt;
            publish_set(alloc, &mut shelf, 1, &None, MESSAGE, &whole),
            Ok(())
        );
        assert_eq!(rt; (shelf.link(), shelf.count()), (Some(1), 7));
        let lacking = answers(alloc, first, second, bundles)?;
        assert_eq!(rt;
            publish_set(alloc, &mut shelf, 2, &None, message, &lacking),
            Err(WriteFault::NoFiles),
            "of {first:?} {second:?} {bundles:?}"
        );
        assert_eq!(rt; (shelf.link(), shelf.count()), (Some(1), 7));
    }
    Ok(())
}

#[test]
fn each_call_fails_in_turn(rt: HostRuntime) -> Result<(), Fail> {
    let alloc = rt.alloc();
    let first = answers(alloc, ONE, ONE, BUNDLES)?;
    let second = answers(alloc, TWO, TWO, BUNDLES)?;
    // The first set takes the calls 0 to 8 (make, six files, sync, point), the second one 9 to 19; 20 is no call.
    for failing in 9..=20 {
        let mut shelf = MemoryShelf::start(alloc, failing);
        let shown = publish_set(alloc, &mut shelf, 1, &None, MESSAGE, &first);
        assert_eq!(rt; (shown, shelf.link()), (Ok(()), Some(1)), "at {failing}");
        let shown = publish_set(alloc, &mut shelf, 2, &None, MESSAGE, &second);
        let seen = (shelf.link(), shelf.count());
        if failing == 20 {
            assert_eq!(rt; (shown, seen), (Ok(()), (Some(2), 8)));
        } else {
            assert_eq!(rt;
                (shown, seen),
                (Err(WriteFault::Shelf), (Some(1), 6)),
                "at {failing}"
            );
        }
    }
    Ok(())
}

#[test]
fn audiences_are_encoded(rt: HostRuntime) -> Result<(), Fail> {
    let alloc = rt.alloc();
    // As Python's urllib.parse.quote(text, safe="") has them.
    let table: [(&[u8], &[u8]); 6] = [
        (b"shop", b"shop"),
        (b"AZaz09-._~", b"AZaz09-._~"),
        (b"../x", b"..%2Fx"),
        (b"a%2Fb", b"a%252Fb"),
        (b"\x00\n\x7f", b"%00%0A%7F"),
        (b"\xc3\xa4!*'()", b"%C3%A4%21%2A%27%28%29"),
    ];
    for (audience, name) in table {
        assert_eq!(rt; encoded(alloc, audience)?.as_slice(), name);
        assert_eq!(rt; is_audience(alloc, audience)?, true);
    }
    for (byte, count, fits) in [
        (b'a', 234, true),
        (b'a', 235, false),
        (b'/', 78, true),
        (b'/', 79, false),
    ] {
        let text = Vec::from_elem(alloc, byte, count)?;
        assert_eq!(rt;
            is_audience(alloc, text.as_slice())?,
            fits,
            "{count} times {byte}"
        );
    }
    assert_eq!(rt; is_audience(alloc, b"")?, false);
    Ok(())
}

#[test]
fn tokens_end(rt: HostRuntime) -> Result<(), Fail> {
    let alloc = rt.alloc();
    // By Python's base64 and json: claims with an end, with 0, with no whole number, with 2^64, and without one.
    let table: [(&[u8], Option<u64>); 9] = [
        (
            b"eyJhbGciOiJFUzI1NiJ9.eyJleHAiOjE3MDAwMDAwMDB9.c2ln",
            Some(1_700_000_000),
        ),
        (b"eyJhbGciOiJFUzI1NiJ9.eyJleHAiOjB9.c2ln", Some(0)),
        (
            b"eyJhbGciOiJFUzI1NiJ9.eyJleHAiOjE3MDAwMDAwMDAuNX0.c2ln",
            None,
        ),
        (b"eyJhbGciOiJFUzI1NiJ9.eyJleHAiOiIxIn0.c2ln", None),
        (b"eyJhbGciOiJFUzI1NiJ9.eyJleHAiOi0xfQ.c2ln", None),
        (
            b"eyJhbGciOiJFUzI1NiJ9.eyJleHAiOjE4NDQ2NzQ0MDczNzA5NTUxNjE2fQ.c2ln",
            None,
        ),
        (b"eyJhbGciOiJFUzI1NiJ9.eyJhdWQiOiJ4In0.c2ln", None),
        (b"h.c.s", None),
        (b"", None),
    ];
    for (token, end) in table {
        assert_eq!(rt; end_of(alloc, token)?, end, "of {token:?}");
    }
    Ok(())
}

#[test]
fn bundles_have_owners(rt: HostRuntime) -> Result<(), Fail> {
    let alloc = rt.alloc();
    assert_eq!(rt;
        id_of(alloc, MESSAGE)?.as_slice(),
        b"spiffe://a.b/w".as_slice()
    );
    assert_eq!(rt; id_of(alloc, CUT)?.len(), 0);
    let table: [(&[u8], &[u8], Option<&[u8]>); 5] = [
        (b"spiffe://a.b/w", BUNDLES, Some(b"{\"keys\":[]}")),
        (b"spiffe://a.b", BUNDLES, Some(b"{\"keys\":[]}")),
        (b"spiffe://c.d/a.b", BUNDLES, Some(b"{\"keys\":[1]}")),
        (b"spiffe://a.b/w", BARE, Some(b"{}")),
        (b"spiffe://a.b/w", OTHERS, None),
    ];
    for (id, bundles, jwks) in table {
        let found = jwks_of(alloc, id, bundles)?;
        assert_eq!(rt;
            found.as_ref().map(|found| found.as_slice()),
            jwks,
            "of {id:?}"
        );
    }
    Ok(())
}
