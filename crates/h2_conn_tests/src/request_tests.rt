//! The rows of the connection table on bodies, heads and trailers, a scene for each row and each of its branches.

use crate::scenes::play_all;

const BODIES: &str = "\
scene DATA
client S H1 D1
told H1 :method=GET B1:78
wrote A W0 W1

scene DATA without bytes
client S H1 000000.00.00.00000001
told H1 :method=GET B1:
wrote A

scene DATA and its padding
client S H1 000005.00.08.00000001.02'xy'0000
told H1 :method=GET B1:7879
wrote A 000004.08.00.00000000.00000005 000004.08.00.00000001.00000005

scene padding alone
client S H1 000003.00.08.00000001.020000
told H1 :method=GET B1:
wrote A 000004.08.00.00000000.00000003 000004.08.00.00000001.00000003

scene DATA that ends the request
client S H1 D1_END
told H1 :method=GET B1:78 .
wrote A W0

scene no bytes end the request
client S H1 000000.00.01.00000001
told H1 :method=GET B1: .
wrote A

scene DATA after the end
client S H1 D1_END D1
told H1 :method=GET B1:78 . G1
wrote A W0 W0 RST1_5

scene DATA after a head that ends
client S H1_END D1
told H1 :method=GET . G1
wrote A W0 RST1_5
";

const HEADS: &str = "\
scene a head
client S H1
told H1 :method=GET
wrote A

scene a head that ends
client S H1_END
told H1 :method=GET .
wrote A

scene a head in three pieces
client S H1_OPEN 000001.09.00.00000001.84 000001.09.04.00000001.86
told H1 :method=GET :path=/ :scheme=http
wrote A

scene a head that ends, in two pieces
client S 000001.01.01.00000001.82 000000.09.04.00000001
told H1 :method=GET .
wrote A

scene a head on an even stream
client S 000001.01.04.00000002.82
told nothing
fault 1 0 EvenStream
wrote A G0_1

scene an index of 0
client S 000001.01.04.00000001.80
told nothing
fault 9 0 Hpack(Index)
wrote A G0_9

scene a fault of a later block names the stream before
client S H1 000001.01.04.00000003.80
told H1 :method=GET
fault 9 1 Hpack(Index)
wrote A 000008.07.00.00000000.0000000100000009

scene a head on a closed stream
client S H1 R1 H1
told H1 :method=GET G1
wrote A

scene a head on a skipped stream
client S H3 H1
told H3 :method=GET
wrote A

scene a head after the end
client S H1_END H1_END
told H1 :method=GET . G1
wrote A RST1_5

scene a closed stream still fills the table
client S H3 000005.01.04.00000001.4001610162 000001.01.05.00000005.be
told H3 :method=GET H5 a=b .
wrote A

scene and without that there is no such item
client S 000001.01.05.00000005.be
told nothing
fault 9 0 Hpack(Index)
wrote A G0_9
";

const TRAILERS: &str = "\
scene trailers
client S H1 000005.01.05.00000001.0001610162
told H1 :method=GET E1
wrote A

scene no trailers at all
client S H1 000000.01.05.00000001
told H1 :method=GET E1
wrote A

scene trailers that do not end the request
client S H1 000005.01.04.00000001.0001610162
told H1 :method=GET G1
wrote A RST1_1

scene trailers with a pseudo-header
client S H1 H1_END
told H1 :method=GET G1
wrote A RST1_1

scene trailers with an upper-case name
client S H1 000005.01.05.00000001.0001410162
told H1 :method=GET G1
wrote A RST1_1

scene DATA after trailers
client S H1 000000.01.05.00000001 D1
told H1 :method=GET E1 G1
wrote A W0 RST1_5
";

#[test]
fn bodies(rt: HostRuntime) {
    play_all(&rt, rt.alloc(), BODIES);
}

#[test]
fn heads(rt: HostRuntime) {
    play_all(&rt, rt.alloc(), HEADS);
}

#[test]
fn trailers(rt: HostRuntime) {
    play_all(&rt, rt.alloc(), TRAILERS);
}
