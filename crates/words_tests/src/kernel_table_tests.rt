//! Rows that Linux 6 wrote on a little-endian machine, and tables that name nobody.

use kernel_table::*;
use std::alloc::Global;
use std::net::SocketAddr;
use std::process::Abort;

/// A listener at 127.0.0.1:8082, a caller of uid 65534 and one of uid 0, each seen from both sides. A third is over.
const TCP: &str =
    "  sl  local_address rem_address   st tx_queue rx_queue tr tm->when retrnsmt   uid  timeout inode
   0: 0100007F:1F92 00000000:0000 0A 00000000:00000000 00:00000000 00000000     0        0 49532 1 000000003d1916db 100 0 0 10 0
   1: 0100007F:1F92 0100007F:A352 01 00000000:00000000 00:00000000 00000000     0        0 49536 1 00000000859ee6a6 20 0 0 10 -1
   2: 0100007F:A352 0100007F:1F92 01 00000000:00000000 00:00000000 00000000 65534        0 49550 2 000000004fd91333 20 0 0 10 -1
   3: 0100007F:A362 0100007F:1F92 01 00000000:00000000 00:00000000 00000000     0        0 49551 2 000000003b91f6fd 20 0 0 10 -1
   4: 0100007F:1F92 0100007F:A362 01 00000000:00000000 00:00000000 00000000     0        0 49552 1 00000000d3bfca5a 20 0 0 10 -1
   5: 0100007F:A370 0100007F:1F92 06 00000000:00000000 03:00001770 00000000     0        0 0 3 00000000c2137250
";

/// The same at [::1]:8082, and a row whose address has sixteen bytes that differ.
const TCP6: &str =
    "  sl  local_address                         remote_address                        st tx_queue rx_queue tr tm->when retrnsmt   uid  timeout inode
   0: 00000000000000000000000001000000:1F92 00000000000000000000000000000000:0000 0A 00000000:00000000 00:00000000 00000000     0        0 49554 1 00000000ebd8b85e 100 0 0 10 0
   1: 00000000000000000000000001000000:8E7C 00000000000000000000000001000000:1F92 01 00000000:00000000 00:00000000 00000000 65534        0 51420 2 000000001839447e 20 0 0 10 -1
   2: 00000000000000000000000001000000:1F92 00000000000000000000000001000000:8E7C 01 00000000:00000000 00:00000000 00000000     0        0 49558 1 0000000007720684 20 0 0 10 -1
   3: B80D01200302010007060504FE0F0E0D:1234 00000000000000000000000001000000:1F92 01 00000000:00000000 00:00000000 00000000  1000        0 51421 2 00000000c60ad76c 20 0 0 10 -1
";

/// Asserts the uid of the local end, by a table.
fn names(rt: &impl Abort, table: &str, ends: (&str, &str), uid: Option<u32>, why: &str) {
    let local = ends.0.parse::<SocketAddr>().expect(rt, "an address");
    let remote = ends.1.parse::<SocketAddr>().expect(rt, "an address");
    assert_eq!(rt; uid_of(table.as_bytes(), local, remote), uid, "{why}");
}

#[test]
fn ends_over_ipv4(rt: HostRuntime) {
    for (table, local, remote, uid, why) in [
        (
            TCP,
            "127.0.0.1:41810",
            "127.0.0.1:8082",
            Some(65_534),
            "a caller",
        ),
        (
            TCP,
            "127.0.0.1:41826",
            "127.0.0.1:8082",
            Some(0),
            "another caller",
        ),
        (
            TCP,
            "127.0.0.1:8082",
            "127.0.0.1:41810",
            Some(0),
            "the agent's own end",
        ),
        (TCP, "127.0.0.1:41840", "127.0.0.1:8082", None, "it is over"),
        (
            TCP,
            "127.0.0.1:41811",
            "127.0.0.1:8082",
            None,
            "no such port",
        ),
        (
            TCP,
            "1.0.0.127:41810",
            "1.0.0.127:8082",
            None,
            "the bytes the other way round",
        ),
        (
            TCP6,
            "127.0.0.1:36476",
            "127.0.0.1:8082",
            None,
            "the other table",
        ),
    ] {
        names(&rt, table, (local, remote), uid, why);
    }
}

#[test]
fn ends_over_ipv6(rt: HostRuntime) {
    for (table, local, uid, why) in [
        (TCP6, "[::1]:36476", Some(65_534), "a caller"),
        (
            TCP6,
            "[2001:db8:1:203:405:607:d0e:ffe]:4660",
            Some(1_000),
            "another caller",
        ),
        (TCP6, "[::1]:36477", None, "no such port"),
        (TCP, "[::1]:36476", None, "the other table"),
    ] {
        names(&rt, table, (local, "[::1]:8082"), uid, why);
    }
}

/// Puts a row of the caller at 127.0.0.1:1 with the agent at 127.0.0.1:2, of this state and uid.
fn put_row(rt: &impl Abort, table: &mut String, state: &str, uid: &str) {
    for text in [
        "1: 0100007F:0001 0100007F:0002 ",
        state,
        " 0:0 0:0 0 ",
        uid,
        " 0 1\n",
    ] {
        table.push_str(text).expect(rt, "memory");
    }
}

/// Asserts the uid of the caller by rows of such states and uids.
fn rows_name(rt: &impl Abort, alloc: Global, rows: &[(&str, &str)], uid: Option<u32>, why: &str) {
    let mut table = String::new(alloc);
    for (state, uid) in rows {
        put_row(rt, &mut table, state, uid);
    }
    names(rt, table.as_str(), ("127.0.0.1:1", "127.0.0.1:2"), uid, why);
}

#[test]
fn rows_that_name_nobody(rt: HostRuntime) {
    let rows: [(&[(&str, &str)], Option<u32>, &str); 8] = [
        (&[("01", "7")], Some(7), "one row"),
        (&[("06", "0"), ("01", "7")], Some(7), "one of two is over"),
        (&[("01", "7"), ("01", "7")], None, "two rows"),
        (&[("0A", "7")], None, "another state"),
        (&[("01", "4294967295")], Some(u32::MAX), "the largest uid"),
        (&[("01", "4294967296")], None, "no uid"),
        (&[("01", "-1")], None, "no number"),
        (&[], None, "an empty table"),
    ];
    for (rows, uid, why) in rows {
        rows_name(&rt, rt.alloc(), rows, uid, why);
    }
    let cut = "1: 0100007F:0001 0100007F:0002 01 0:0";
    names(
        &rt,
        cut,
        ("127.0.0.1:1", "127.0.0.1:2"),
        None,
        "a row that ends early",
    );
}
