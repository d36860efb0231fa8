//! Configurations with one fault each, at every member.

use std::alloc::Global;
use std::process::Abort;
use wl_config::*;
use wl_document::Place;

/// A fault by its numbers: its own, its place as part, index, field and item, and its count; 0 where there is none.
type Numbers = [usize; 6];

fn at(number: usize, place: &Place, count: usize) -> Numbers {
    let (index, item) = (place.index as usize, place.item as usize);
    [
        number,
        place.part as usize,
        index,
        place.field as usize,
        item,
        count,
    ]
}

fn numbers_of(fault: &ConfigFault) -> Numbers {
    match fault {
        ConfigFault::NotJson => [1, 0, 0, 0, 0, 0],
        ConfigFault::Version => [2, 0, 0, 0, 0, 0],
        ConfigFault::Missing(place) => at(3, place, 0),
        ConfigFault::Kind(place) => at(4, place, 0),
        ConfigFault::EmptyText(place) => at(5, place, 0),
        ConfigFault::Selector(place) => at(6, place, 0),
        ConfigFault::TooMany(place, count) => at(7, place, *count),
        ConfigFault::Duplicate(place) => at(8, place, 0),
        ConfigFault::TooLong(count) => [9, 0, 0, 0, 0, *count],
        ConfigFault::Memory => [10, 0, 0, 0, 0, 0],
    }
}

/// What reading these bytes comes to: the numbers of their fault, or else only zeros.
fn outcome(rt: &impl Abort, alloc: Global, bytes: &[u8]) -> Numbers {
    match read_config(alloc, bytes) {
        Ok(_) => [0; 6],
        Err(ConfigFault::Memory) => panic!(rt; "memory"),
        Err(fault) => numbers_of(&fault),
    }
}

fn put(rt: &impl Abort, out: &mut String, text: &str) {
    out.push_str(text).expect(rt, "memory");
}

/// Asserts what a configuration comes to: a row has the numbers of its outcome, a colon, and what stands between two
/// texts.
fn is_read_as(rt: &impl Abort, alloc: Global, front: &str, row: &str, back: &str) {
    let (_, text) = row.split_once("]:").expect(rt, "numbers");
    let mut config = String::new(alloc);
    put(rt, &mut config, front);
    put(rt, &mut config, text);
    put(rt, &mut config, back);
    let found = outcome(rt, alloc, config.as_bytes());
    let found = format!(in alloc; "{found:?}:{text}").expect(rt, "memory");
    assert_eq!(rt; found.as_str(), row);
}

/// Asserts what each configuration comes to, between these two texts: a line is a row.
fn are_read_as(rt: &impl Abort, alloc: Global, front: &str, rows: &str, back: &str) {
    for row in rows.trim().lines() {
        is_read_as(rt, alloc, front, row, back);
    }
}

const TOPS: &str = r#"
[1, 0, 0, 0, 0, 0]:
[1, 0, 0, 0, 0, 0]:{
[1, 0, 0, 0, 0, 0]:{}}
[4, 0, 0, 0, 0, 0]:[]
[4, 0, 0, 0, 0, 0]:null
[3, 0, 0, 1, 0, 0]:{}
[4, 0, 0, 1, 0, 0]:{"version":null}
[4, 0, 0, 1, 0, 0]:{"version":"1"}
[4, 0, 0, 1, 0, 0]:{"version":true}
[4, 0, 0, 1, 0, 0]:{"version":1.0}
[4, 0, 0, 1, 0, 0]:{"version":1e0}
[4, 0, 0, 1, 0, 0]:{"version":-1}
[4, 0, 0, 1, 0, 0]:{"version":-0}
[4, 0, 0, 1, 0, 0]:{"version":18446744073709551616}
[2, 0, 0, 0, 0, 0]:{"version":18446744073709551615}
[2, 0, 0, 0, 0, 0]:{"version":0}
[2, 0, 0, 0, 0, 0]:{"version":2}
[3, 0, 0, 2, 0, 0]:{"version":1}
[3, 0, 0, 2, 0, 0]:{"version":2,"version":1}
[2, 0, 0, 0, 0, 0]:{"version":1,"version":2}
[4, 0, 0, 2, 0, 0]:{"version":1,"upstream":null}
[4, 0, 0, 2, 0, 0]:{"version":1,"upstream":["/u"]}
[5, 0, 0, 2, 0, 0]:{"version":1,"upstream":""}
[4, 0, 0, 2, 0, 0]:{"version":1,"document":7}
[5, 0, 0, 2, 0, 0]:{"version":1,"document":""}
[3, 0, 0, 2, 0, 0]:{"version":1,"upstream":"/u","document":"/d"}
[3, 0, 0, 5, 0, 0]:{"version":1,"upstream":"/u"}
[3, 0, 0, 5, 0, 0]:{"version":1,"document":"/d"}
[4, 0, 0, 3, 0, 0]:{"version":1,"upstream":"/u","signer":7}
[5, 0, 0, 3, 0, 0]:{"version":1,"upstream":"/u","signer":""}
[3, 0, 0, 5, 0, 0]:{"version":1,"upstream":"/u","signer":"/s"}
[4, 0, 0, 4, 0, 0]:{"version":1,"upstream":"/u","signer":"/s","poll_seconds":0}
[3, 0, 0, 2, 0, 0]:{"version":1,"sockets":[],"signer":"","poll_seconds":0}
"#;

const POLLS: &str = r#"
[4, 0, 0, 4, 0, 0]:null
[4, 0, 0, 4, 0, 0]:"5"
[4, 0, 0, 4, 0, 0]:5.5
[4, 0, 0, 4, 0, 0]:-5
[4, 0, 0, 4, 0, 0]:3601
[4, 0, 0, 4, 0, 0]:18446744073709551615
[0, 0, 0, 0, 0, 0]:3600
[0, 0, 0, 0, 0, 0]:1
"#;

const SOCKETS: &str = r#"
[4, 0, 0, 5, 0, 0]:null
[4, 0, 0, 5, 0, 0]:{}
[4, 0, 0, 5, 0, 0]:"/w"
[4, 0, 0, 5, 0, 0]:[]
[4, 4, 0, 0, 0, 0]:[null]
[4, 4, 0, 0, 0, 0]:[[]]
[3, 4, 0, 1, 0, 0]:[{}]
[4, 4, 0, 1, 0, 0]:[{"path":null}]
[4, 4, 0, 1, 0, 0]:[{"path":1}]
[5, 4, 0, 1, 0, 0]:[{"path":""}]
[3, 4, 0, 3, 0, 0]:[{"path":"/a"}]
[4, 4, 0, 3, 0, 0]:[{"path":"/a","selectors":null}]
[4, 4, 0, 3, 0, 0]:[{"path":"/a","selectors":"a:b"}]
[4, 4, 0, 3, 0, 0]:[{"path":"/a","selectors":{}}]
[4, 4, 0, 3, 0, 0]:[{"path":"/a","selectors":[]}]
[4, 4, 0, 3, 0, 0]:[{"path":"/a","selectors":[1]}]
[6, 4, 0, 3, 0, 0]:[{"path":"/a","selectors":["a"]}]
[6, 4, 0, 3, 1, 0]:[{"path":"/a","selectors":["a:b",":b"]}]
[6, 4, 0, 3, 1, 0]:[{"path":"/a","selectors":["a:b","a:"]}]
[4, 4, 0, 3, 2, 0]:[{"path":"/a","selectors":["a:b","c:d",null]}]
[0, 0, 0, 0, 0, 0]:[{"path":"/a","selectors":["a:b","a:b"],"unknown":null}]
[8, 4, 1, 1, 0, 0]:[{"path":"/a","selectors":["a:b"]},{"path":"/a","selectors":["a:b"]}]
[8, 4, 2, 1, 0, 0]:[{"path":"/a","selectors":["a:b"]},{"path":"/b","selectors":["a:b"]},{"path":"/a"}]
[6, 4, 1, 3, 0, 0]:[{"path":"/a","selectors":["a:b"]},{"path":"/b","selectors":["a"]}]
[0, 0, 0, 0, 0, 0]:[{"path":"/a","selectors":["a:b"]},{"path":"/A","selectors":["a:b"]}]
[4, 4, 1, 0, 0, 0]:[{"path":"/a","selectors":["a:b"]},7]
[8, 4, 1, 1, 0, 0]:[{"path":"/a","workers":16384,"selectors":["a:b"]},{"path":"/a","workers":1}]
[3, 4, 0, 7, 0, 0]:[{"path":"/a{uid}"}]
[4, 4, 0, 1, 0, 0]:[{"path":"/{uid}{uid}","uids":["1"]}]
[4, 4, 0, 7, 0, 0]:[{"path":"/{uid","uids":["1"]}]
[4, 4, 0, 7, 0, 0]:[{"path":"/a","uids":null,"mode":7}]
[4, 4, 0, 4, 0, 0]:[{"path":"/{uid}","owner":1,"uids":["1"]}]
[4, 4, 0, 5, 0, 0]:[{"path":"/{uid}","group":1,"uids":["1"]}]
[4, 4, 0, 6, 0, 0]:[{"path":"/{uid}","mode":"0600","uids":["1"]}]
[8, 4, 1, 1, 0, 0]:[{"path":"/7","selectors":["a:b"]},{"path":"/{uid}","uids":["6-8"]}]
[8, 4, 0, 1, 0, 0]:[{"path":"/{uid}","uids":["6-8","08"]}]
"#;

/// Members of the top that say how the agent runs.
const MANNERS: &str = r#"
[4, 0, 0, 6, 0, 0]:"signers":null
[4, 0, 0, 6, 0, 0]:"signers":0
[4, 0, 0, 6, 0, 0]:"signers":17
[4, 0, 0, 6, 0, 0]:"signers":"4"
[0, 0, 0, 0, 0, 0]:"signers":1
[0, 0, 0, 0, 0, 0]:"signers":16
[4, 0, 0, 7, 0, 0]:"log":null
[4, 0, 0, 7, 0, 0]:"log":""
[4, 0, 0, 7, 0, 0]:"log":"Info"
[4, 0, 0, 7, 0, 0]:"log":"trace"
[0, 0, 0, 0, 0, 0]:"log":"error"
[0, 0, 0, 0, 0, 0]:"log":"warn"
[0, 0, 0, 0, 0, 0]:"log":"info"
[0, 0, 0, 0, 0, 0]:"log":"debug"
[4, 0, 0, 8, 0, 0]:"metrics":null
[5, 0, 0, 8, 0, 0]:"metrics":""
[4, 0, 0, 8, 0, 0]:"metrics":"run/m.sock"
[0, 0, 0, 0, 0, 0]:"metrics":"/run/m.sock"
[0, 0, 0, 0, 0, 0]:"metrics":"/127.0.0.1"
[0, 0, 0, 0, 0, 0]:"metrics":"127.0.0.1:9469"
[0, 0, 0, 0, 0, 0]:"metrics":"[::1]:9469"
[4, 0, 0, 8, 0, 0]:"metrics":"0.0.0.0:9469"
[4, 0, 0, 8, 0, 0]:"metrics":"127.0.0.1"
[4, 0, 0, 8, 0, 0]:"metrics":"127.0.0.1:0"
[4, 0, 0, 8, 0, 0]:"metrics":":9469"
[4, 0, 0, 8, 0, 0]:"metrics":" /m"
[4, 0, 0, 9, 0, 0]:"threads":null
[4, 0, 0, 9, 0, 0]:"threads":0
[4, 0, 0, 9, 0, 0]:"threads":17
[0, 0, 0, 0, 0, 0]:"threads":1
[0, 0, 0, 0, 0, 0]:"threads":16
[4, 0, 0, 10, 0, 0]:"stall_seconds":"30"
[4, 0, 0, 10, 0, 0]:"stall_seconds":0
[4, 0, 0, 10, 0, 0]:"stall_seconds":3601
[0, 0, 0, 0, 0, 0]:"stall_seconds":1
[0, 0, 0, 0, 0, 0]:"stall_seconds":3600
[4, 0, 0, 11, 0, 0]:"opening_seconds":[20]
[4, 0, 0, 11, 0, 0]:"opening_seconds":0
[4, 0, 0, 11, 0, 0]:"opening_seconds":3601
[0, 0, 0, 0, 0, 0]:"opening_seconds":1
[0, 0, 0, 0, 0, 0]:"opening_seconds":3600
[4, 0, 0, 12, 0, 0]:"memory_mib":1.5
[4, 0, 0, 12, 0, 0]:"memory_mib":15
[4, 0, 0, 12, 0, 0]:"memory_mib":65537
[0, 0, 0, 0, 0, 0]:"memory_mib":16
[0, 0, 0, 0, 0, 0]:"memory_mib":65536
[4, 0, 0, 9, 0, 0]:"memory_mib":0,"threads":0
[4, 0, 0, 10, 0, 0]:"opening_seconds":0,"stall_seconds":0
[4, 0, 0, 11, 0, 0]:"memory_mib":0,"opening_seconds":0
[4, 0, 0, 6, 0, 0]:"log":"off","signers":0
[4, 0, 0, 7, 0, 0]:"metrics":7,"log":"off"
[4, 0, 0, 4, 0, 0]:"metrics":7,"poll_seconds":0
"#;

/// Members of a socket that say who may open its file, and how many connections it serves.
const GUARDS: &str = r#"
[4, 4, 0, 4, 0, 0]:"owner":null
[4, 4, 0, 4, 0, 0]:"owner":"1000"
[4, 4, 0, 4, 0, 0]:"owner":-1
[4, 4, 0, 4, 0, 0]:"owner":4294967295
[0, 0, 0, 0, 0, 0]:"owner":4294967294
[0, 0, 0, 0, 0, 0]:"owner":0
[4, 4, 0, 5, 0, 0]:"group":null
[4, 4, 0, 5, 0, 0]:"group":1.0
[4, 4, 0, 5, 0, 0]:"group":4294967295
[0, 0, 0, 0, 0, 0]:"group":4294967294
[4, 4, 0, 4, 0, 0]:"owner":"","group":""
[4, 4, 0, 6, 0, 0]:"mode":null
[4, 4, 0, 6, 0, 0]:"mode":600
[4, 4, 0, 6, 0, 0]:"mode":""
[4, 4, 0, 6, 0, 0]:"mode":"0999"
[4, 4, 0, 6, 0, 0]:"mode":"1777"
[4, 4, 0, 6, 0, 0]:"mode":"1000"
[4, 4, 0, 6, 0, 0]:"mode":"00600"
[4, 4, 0, 6, 0, 0]:"mode":"+600"
[4, 4, 0, 6, 0, 0]:"mode":"0o60"
[4, 4, 0, 6, 0, 0]:"mode":"068"
[4, 4, 0, 6, 0, 0]:"mode":"rw"
[0, 0, 0, 0, 0, 0]:"mode":"0777"
[0, 0, 0, 0, 0, 0]:"mode":"660"
[0, 0, 0, 0, 0, 0]:"mode":"0"
[4, 4, 0, 5, 0, 0]:"group":"","mode":""
[4, 4, 0, 2, 0, 0]:"workers":null
[4, 4, 0, 2, 0, 0]:"workers":"4"
[4, 4, 0, 2, 0, 0]:"workers":0
[4, 4, 0, 2, 0, 0]:"workers":16385
[4, 4, 0, 2, 0, 0]:"workers":4.0
[0, 0, 0, 0, 0, 0]:"workers":16384
[4, 4, 0, 8, 0, 0]:"connections":null
[4, 4, 0, 8, 0, 0]:"connections":null,"workers":1
[0, 0, 0, 0, 0, 0]:"connections":1,"workers":0
[4, 4, 0, 8, 0, 0]:"connections":0
[4, 4, 0, 8, 0, 0]:"connections":16385
[0, 0, 0, 0, 0, 0]:"connections":16384
[0, 0, 0, 0, 0, 0]:"connections":1
[4, 4, 0, 6, 0, 0]:"mode":"","connections":0
[4, 4, 0, 7, 0, 0]:"uids":["1"]
[4, 4, 0, 7, 0, 0]:"uids":[],"owner":""
[3, 4, 0, 1, 0, 0]:"tcp":"127.0.0.1:1"
[3, 4, 0, 1, 0, 0]:"tcp":null,"owner":""
[4, 4, 0, 10, 0, 0]:"connections_per_uid":64
[4, 4, 0, 10, 0, 0]:"connections_per_uid":null,"uids":7
"#;

/// Texts that are a loopback address with a port, and texts that are not.
const ADDRESSES: &str = r#"
[0, 0, 0, 0, 0, 0]:127.0.0.1:8082
[0, 0, 0, 0, 0, 0]:127.255.0.3:1
[0, 0, 0, 0, 0, 0]:127.0.0.0:65535
[0, 0, 0, 0, 0, 0]:127.255.255.255:80
[0, 0, 0, 0, 0, 0]:[::1]:65535
[0, 0, 0, 0, 0, 0]:[::1]:1
[4, 4, 0, 9, 0, 0]:
[4, 4, 0, 9, 0, 0]:128.0.0.1:80
[4, 4, 0, 9, 0, 0]:126.255.255.255:80
[4, 4, 0, 9, 0, 0]:0.0.0.0:80
[4, 4, 0, 9, 0, 0]:10.0.0.1:80
[4, 4, 0, 9, 0, 0]:127.0.0.1
[4, 4, 0, 9, 0, 0]:127.0.0.1:
[4, 4, 0, 9, 0, 0]:127.0.0.1:0
[4, 4, 0, 9, 0, 0]:127.0.0.1:080
[4, 4, 0, 9, 0, 0]:127.0.0.1:65536
[4, 4, 0, 9, 0, 0]:127.0.0.1:18446744073709551617
[4, 4, 0, 9, 0, 0]:127.0.0.1:80:80
[4, 4, 0, 9, 0, 0]:127.0.0.1:+80
[4, 4, 0, 9, 0, 0]:127.0.0.1:http
[4, 4, 0, 9, 0, 0]:127.0.0.1:80/
[4, 4, 0, 9, 0, 0]:127.00.0.1:1
[4, 4, 0, 9, 0, 0]:127.0.0.01:1
[4, 4, 0, 9, 0, 0]:0127.0.0.1:1
[4, 4, 0, 9, 0, 0]:127.0.256.1:1
[4, 4, 0, 9, 0, 0]:127.0.0.:1
[4, 4, 0, 9, 0, 0]:127..0.1:1
[4, 4, 0, 9, 0, 0]:127.0.1:1
[4, 4, 0, 9, 0, 0]:127.1:1
[4, 4, 0, 9, 0, 0]:127.0.0.0.1:1
[4, 4, 0, 9, 0, 0]:127.0.0.1.:1
[4, 4, 0, 9, 0, 0]:127.0.0x0.1:1
[4, 4, 0, 9, 0, 0]:2130706433:1
[4, 4, 0, 9, 0, 0]: 127.0.0.1:1
[4, 4, 0, 9, 0, 0]:127.0.0.1:1 
[4, 4, 0, 9, 0, 0]:127.0.0.1 :1
[4, 4, 0, 9, 0, 0]:tcp://127.0.0.1:1
[4, 4, 0, 9, 0, 0]:[127.0.0.1]:1
[4, 4, 0, 9, 0, 0]:localhost:80
[4, 4, 0, 9, 0, 0]::80
[4, 4, 0, 9, 0, 0]:80
[4, 4, 0, 9, 0, 0]:[::2]:1
[4, 4, 0, 9, 0, 0]:[::]:1
[4, 4, 0, 9, 0, 0]:::1:1
[4, 4, 0, 9, 0, 0]:[::1]
[4, 4, 0, 9, 0, 0]:[::1]:
[4, 4, 0, 9, 0, 0]:[::1]:0
[4, 4, 0, 9, 0, 0]:[::1]:01
[4, 4, 0, 9, 0, 0]:[::1]:65536
[4, 4, 0, 9, 0, 0]:[::1%0]:1
[4, 4, 0, 9, 0, 0]:[0:0:0:0:0:0:0:1]:1
[4, 4, 0, 9, 0, 0]:[::ffff:127.0.0.1]:1
"#;

/// Sockets with an address, by all of their members.
const ENDPOINTS: &str = r#"
[0, 0, 0, 0, 0, 0]:{"tcp":"127.0.0.1:1"}
[4, 4, 0, 9, 0, 0]:{"tcp":null}
[4, 4, 0, 9, 0, 0]:{"tcp":8082}
[4, 4, 0, 9, 0, 0]:{"tcp":["127.0.0.1:1"]}
[3, 4, 0, 1, 0, 0]:{"path":"/a","tcp":"127.0.0.1:1"}
[3, 4, 0, 1, 0, 0]:{"path":null,"tcp":"x"}
[3, 4, 0, 1, 0, 0]:{"owner":null}
[4, 4, 0, 4, 0, 0]:{"tcp":"127.0.0.1:1","owner":1,"group":1,"mode":"0600","uids":["1"]}
[4, 4, 0, 5, 0, 0]:{"tcp":"127.0.0.1:1","group":1,"mode":"0600","uids":["1"]}
[4, 4, 0, 6, 0, 0]:{"tcp":"127.0.0.1:1","mode":"0600","uids":["1"]}
[4, 4, 0, 7, 0, 0]:{"tcp":"127.0.0.1:1","uids":["1"],"connections_per_uid":0}
[4, 4, 0, 9, 0, 0]:{"tcp":"127.0.0.1","owner":1}
[4, 4, 0, 10, 0, 0]:{"tcp":"127.0.0.1:1","connections_per_uid":0,"connections":0}
[4, 4, 0, 10, 0, 0]:{"tcp":"127.0.0.1:1","connections_per_uid":16385}
[4, 4, 0, 10, 0, 0]:{"tcp":"127.0.0.1:1","connections_per_uid":"64"}
[4, 4, 0, 10, 0, 0]:{"tcp":"127.0.0.1:1","connections_per_uid":null}
[0, 0, 0, 0, 0, 0]:{"tcp":"127.0.0.1:1","connections_per_uid":1}
[0, 0, 0, 0, 0, 0]:{"tcp":"127.0.0.1:1","connections_per_uid":16384}
[4, 4, 0, 8, 0, 0]:{"tcp":"127.0.0.1:1","connections":0,"selectors":[]}
[4, 4, 0, 2, 0, 0]:{"tcp":"127.0.0.1:1","workers":0}
[4, 4, 0, 3, 0, 0]:{"tcp":"127.0.0.1:1","selectors":[]}
[6, 4, 0, 3, 1, 0]:{"tcp":"127.0.0.1:1","selectors":["a:b","a"]}
[0, 0, 0, 0, 0, 0]:{"tcp":"127.0.0.1:1","selectors":["a:b"]}
[8, 4, 1, 9, 0, 0]:{"tcp":"127.0.0.1:1"},{"tcp":"127.0.0.1:1","connections":0}
[8, 4, 1, 9, 0, 0]:{"path":"127.0.0.1:1","selectors":["a:b"]},{"tcp":"127.0.0.1:1"}
[8, 4, 1, 1, 0, 0]:{"tcp":"127.0.0.1:1"},{"path":"127.0.0.1:1"}
[0, 0, 0, 0, 0, 0]:{"tcp":"127.0.0.1:1"},{"tcp":"127.0.0.1:2"},{"tcp":"127.0.0.2:1"},{"tcp":"[::1]:1"}
[4, 4, 0, 10, 0, 0]:{"path":"/{uid}","uids":["1"],"connections_per_uid":64}
[4, 4, 0, 10, 0, 0]:{"path":"/{uid}{uid}","connections_per_uid":64}
[5, 4, 0, 1, 0, 0]:{"path":"","connections_per_uid":64}
"#;

/// The uids of a socket.
const UIDS: &str = r#"
[4, 4, 0, 7, 0, 0]:null
[4, 4, 0, 7, 0, 0]:1
[4, 4, 0, 7, 0, 0]:"1"
[4, 4, 0, 7, 0, 0]:[]
[4, 4, 0, 7, 0, 0]:[1]
[4, 4, 0, 7, 1, 0]:["1",2]
[4, 4, 0, 7, 0, 0]:[""]
[4, 4, 0, 7, 0, 0]:["-"]
[4, 4, 0, 7, 0, 0]:["1-"]
[4, 4, 0, 7, 0, 0]:["-1"]
[4, 4, 0, 7, 0, 0]:["1-2-3"]
[4, 4, 0, 7, 0, 0]:["1--2"]
[4, 4, 0, 7, 0, 0]:["1 - 2"]
[4, 4, 0, 7, 0, 0]:["0x1"]
[4, 4, 0, 7, 0, 0]:["web"]
[4, 4, 0, 7, 2, 0]:["1","2","3-2"]
[4, 4, 0, 7, 0, 0]:["4294967295"]
[4, 4, 0, 7, 0, 0]:["4294967294-4294967295"]
[4, 4, 0, 7, 0, 0]:["18446744073709551616"]
[0, 0, 0, 0, 0, 0]:["4294967294"]
[0, 0, 0, 0, 0, 0]:["0"]
[0, 0, 0, 0, 0, 0]:["33","1000-1031"]
[0, 0, 0, 0, 0, 0]:["5-5"]
[0, 0, 0, 0, 0, 0]:["1-64"]
[7, 4, 0, 7, 0, 4097]:["1-4097"]
[7, 4, 0, 7, 0, 4294967295]:["0-4294967294"]
[7, 4, 0, 7, 0, 8589934590]:["0","0-4294967294","1-4294967294"]
[7, 4, 0, 7, 0, 4097]:["1-4096","1"]
[8, 4, 0, 1, 0, 0]:["1-63","1"]
[8, 4, 0, 1, 0, 0]:["1","1"]
[4, 4, 0, 8, 0, 0]:["1"],"connections":0
[0, 0, 0, 0, 0, 0]:["1-64"],"connections":16384
[0, 0, 0, 0, 0, 0]:["1-5"],"workers":16384
[4, 4, 0, 3, 0, 0]:["1"],"selectors":[]
[6, 4, 0, 3, 0, 0]:["1"],"selectors":["a"]
"#;

/// Several sockets, by their other members.
const SEVERAL: &str = r#"
[0, 0, 0, 0, 0, 0]:{"selectors":["a:b"],"path":"/a","connections":16384},{"selectors":["a:b"],"path":"/b","connections":16384},{"selectors":["a:b"],"path":"/c","connections":16384},{"selectors":["a:b"],"path":"/d","connections":16384},{"selectors":["a:b"],"path":"/e","connections":1}
[4, 4, 1, 8, 0, 0]:{"selectors":["a:b"],"path":"/a","connections":16384},{"selectors":["a:b"],"path":"/b","connections":16385}
[0, 0, 0, 0, 0, 0]:{"path":"/{uid}","uids":["1-32"]},{"path":"/{uid}.b","uids":["1-32"]}
[7, 4, 1, 7, 0, 4097]:{"selectors":["a:b"],"path":"/a"},{"path":"/{uid}","uids":["1-4096"]}
[7, 4, 1, 7, 0, 4097]:{"path":"/{uid}","uids":["1-32"]},{"path":"/{uid}.b","uids":["1-4065"]}
"#;

/// All sockets that there may be, and one more.
#[test]
fn many_sockets(rt: HostRuntime) {
    let front = r#"{"version":1,"document":"d","sockets":[{"path":"{uid}","uids":["1-4096"]}"#;
    for (more, wanted) in [
        ("", [0; 6]),
        (
            r#",{"path":"/a","selectors":["a:b"]}"#,
            [7, 0, 0, 5, 0, 4_097],
        ),
        (r#",{"tcp":"[::1]:1"}"#, [7, 0, 0, 5, 0, 4_097]),
    ] {
        let config = repeated(&rt, rt.alloc(), front, more, 1, "]}");
        assert_eq!(rt; outcome(&rt, rt.alloc(), config.as_bytes()), wanted);
    }
}

#[test]
fn first_faults(rt: HostRuntime) {
    let alloc = rt.alloc();
    are_read_as(&rt, alloc, "", TOPS, "");
    let front =
        r#"{"version":1,"upstream":"/u","signer":"/s","sockets":[{"path":"/w","selectors":["a:b"]}],"poll_seconds":"#;
    are_read_as(&rt, alloc, front, POLLS, "}");
    let front = r#"{"version":1,"upstream":"/u","signer":"/s","sockets":"#;
    are_read_as(&rt, alloc, front, SOCKETS, "}");
    assert_eq!(rt; outcome(&rt, alloc, b"\"\xff\""), [1, 0, 0, 0, 0, 0]);
}

#[test]
fn faults_of_guards(rt: HostRuntime) {
    let alloc = rt.alloc();
    let front = r#"{"version":1,"document":"/d","sockets":[{"path":"/w","selectors":["a:b"]}],"#;
    are_read_as(&rt, alloc, front, MANNERS, "}");
    let front = r#"{"version":1,"document":"/d","sockets":[{"path":"/w","selectors":["a:b"],"#;
    are_read_as(&rt, alloc, front, GUARDS, "}]}");
    let front = r#"{"version":1,"document":"/d","sockets":[{"path":"/{uid}/s","uids":"#;
    are_read_as(&rt, alloc, front, UIDS, "}]}");
    let front = r#"{"version":1,"document":"/d","sockets":["#;
    are_read_as(&rt, alloc, front, SEVERAL, "]}");
}

#[test]
fn faults_of_addresses(rt: HostRuntime) {
    let alloc = rt.alloc();
    let front = r#"{"version":1,"document":"/d","sockets":["#;
    are_read_as(&rt, alloc, front, ENDPOINTS, "]}");
    let front = r#"{"version":1,"document":"/d","sockets":[{"tcp":""#;
    are_read_as(&rt, alloc, front, ADDRESSES, r#""}]}"#);
}

/// A text with a part that is repeated.
fn repeated(
    rt: &impl Abort,
    alloc: Global,
    front: &str,
    part: &str,
    count: u32,
    back: &str,
) -> String {
    let mut text = String::new(alloc);
    put(rt, &mut text, front);
    for _ in 0..count {
        put(rt, &mut text, part);
    }
    put(rt, &mut text, back);
    text
}

/// An array of so many sockets, which have no member.
#[test]
fn sockets_at_their_limit(rt: HostRuntime) {
    let front = r#"{"version":1,"document":"/d","sockets":[{}"#;
    for (more, wanted) in [(1_024, [7, 0, 0, 5, 0, 1_025]), (1_023, [3, 4, 0, 1, 0, 0])] {
        let config = repeated(&rt, rt.alloc(), front, ",{}", more, "]}");
        assert_eq!(rt; outcome(&rt, rt.alloc(), config.as_bytes()), wanted);
    }
}

/// One socket with so many selectors and one.
#[test]
fn selectors_at_their_limit(rt: HostRuntime) {
    let front =
        r#"{"version":1,"upstream":"/u","signer":"/s","sockets":[{"path":"/w","selectors":["a:b""#;
    for (more, wanted) in [(255, [0; 6]), (256, [7, 4, 0, 3, 0, 257])] {
        let config = repeated(&rt, rt.alloc(), front, r#","a:b""#, more, "]}]}");
        assert_eq!(rt; outcome(&rt, rt.alloc(), config.as_bytes()), wanted);
    }
}

#[test]
fn bytes_at_their_limit(rt: HostRuntime) {
    for (len, wanted) in [
        (CONFIG_LIMIT, [1, 0, 0, 0, 0, 0]),
        (CONFIG_LIMIT + 1, [9, 0, 0, 0, 0, 1_048_577]),
    ] {
        let text = Vec::from_elem(rt.alloc(), b' ', len).expect(&rt, "memory");
        assert_eq!(rt; outcome(&rt, rt.alloc(), &text), wanted);
    }
}
