//! The states of a stream and the frames of a client there, after RFC 9113. `tests/vectors/h2_states.py` writes this file: it
//! has the standard's rules with their sections, and what is taken where they leave a choice.

/// How each state is reached, a line for each in the order of the letters of `ROWS`: the stream, the client's frames,
/// what the server does, and the client's frames after it. The states are:
///
/// - before the client's SETTINGS
/// - idle
/// - idle, of the server's numbers
/// - open
/// - half-closed (remote)
/// - half-closed (local)
/// - closed by END_STREAM, the server's last
/// - closed by END_STREAM, the client's last
/// - closed by RST_STREAM of the server
/// - half-closed (remote), closed by RST_STREAM of the server
/// - refused above the limit of streams
/// - closed by RST_STREAM of the client
/// - closed since a higher stream was opened
/// - idle, its header block unfinished
/// - open, another stream's header block unfinished
pub const STARTS: &str = "\
1 | . | nothing | .
1 | 000000040000000000 | nothing | .
2 | 000000040000000000000003010400000003838684 | nothing | .
1 | 000000040000000000000003010400000001838684 | nothing | .
1 | 000000040000000000000003010500000001838684 | nothing | .
1 | 000000040000000000000003010400000001838684 | finish 1 | .
1 | 000000040000000000000003010500000001838684 | finish 1 | .
1 | 000000040000000000000003010400000001838684 | finish 1 | 000000000100000001
1 | 000000040000000000000003010400000001838684 | reset 1 8 | .
1 | 000000040000000000000003010500000001838684 | reset 1 8 | .
33 | 00000004000000000000000301040000000183868400000301040000000383868400000301040000000583868400000301040000000783868400000301040000000983868400000301040000000b83868400000301040000000d83868400000301040000000f83868400000301040000001183868400000301040000001383868400000301040000001583868400000301040000001783868400000301040000001983868400000301040000001b83868400000301040000001d83868400000301040000001f838684 | nothing | 000003010400000021838684
1 | 000000040000000000000003010400000001838684 | nothing | 00000403000000000100000008
1 | 000000040000000000000003010400000003838684 | nothing | .
1 | 00000004000000000000000101000000000183 | nothing | .
1 | 00000004000000000000000301040000000183868400000101000000000383 | nothing | .
";

/// What comes of a client's frames in each state, a line for each row: its name, the frames (those of stream 1 are for
/// the stream of the state), and a letter for each state of what is seen, and of the stream's state after it.
///
/// Seen is the code of GOAWAY (`P` PROTOCOL_ERROR, `F` FLOW_CONTROL_ERROR, `S` STREAM_CLOSED, `L` FRAME_SIZE_ERROR,
/// `C` COMPRESSION_ERROR) or of RST_STREAM, in small letters; else `a` for an acknowledgement, `h`, `b`, `e` and `g` for
/// what is reported (a head, a body, the end, the stream is gone), and `.` for nothing. After it the stream is idle or a
/// block is unfinished (`i`), open (`o`), half-closed (`r` remote, `l` local) or closed (`x`), or the connection has
/// failed (`-`).
pub const ROWS: &str = "\
DATA | 00000100000000000178 | PPPbsb.......PP | ---oxlxxxxxxx--
DATA, END_STREAM | 00000100010000000178 | PPPbsb.......PP | ---rxxxxxxxxx--
DATA without bytes | 000000000000000001 | PPPbsb.......PP | ---oxlxxxxxxx--
DATA without bytes, END_STREAM | 000000000100000001 | PPPbsb.......PP | ---rxxxxxxxxx--
DATA, padded | 0000050008000000010278790000 | PPPbsb.......PP | ---oxlxxxxxxx--
DATA, too much padding | 0000020008000000010278 | PPPPPPPPPPPPPPP | ---------------
DATA, no pad length | 000000000800000001 | LLLLLLLLLLLLLLL | ---------------
DATA, too large | 004001000000000001 | LLLLLLLLLLLLLLL | ---------------
HEADERS, request | 000003010400000001838684 | PhPpsp.......PP | -o-xxxxxxxxxx--
HEADERS, request, END_STREAM | 000003010500000001838684 | PhPpsp.......PP | -r-xxxxxxxxxx--
HEADERS, request, END_STREAM, padded, with priority | 00000a012d0000000101000000000083868400 | PhPpsp.......PP | -r-xxxxxxxxxx--
HEADERS and CONTINUATION, request, END_STREAM | 000001010100000001830000020904000000018684 | PhPpsp.......PP | -r-xxxxxxxxxx--
HEADERS, trailers | 0000050104000000010001610162 | PhPpsp.......PP | -o-xxxxxxxxxx--
HEADERS, trailers, END_STREAM | 0000050105000000010001610162 | PhPese.......PP | -r-rxxxxxxxxx--
HEADERS and CONTINUATION, trailers, END_STREAM | 0000010101000000010000000409040000000101610162 | PhPese.......PP | -r-rxxxxxxxxx--
HEADERS without END_HEADERS | 000003010000000001838684 | P.P..........PP | -i-iiiiiiiiii--
HEADERS, no block | 00000101040000000180 | PCPCCCCCCCCCCPP | ---------------
HEADERS, too much padding | 000002010c000000010282 | PPPPPPPPPPPPPPP | ---------------
HEADERS, no priority fields | 00000401240000000100000000 | LLLLLLLLLLLLLLL | ---------------
HEADERS, too large | 004001010400000001 | LLLLLLLLLLLLLLL | ---------------
PRIORITY | 0000050200000000010000000000 | P............PP | -iiorlxxxxxxx--
PRIORITY of 4 bytes | 00000402000000000100000000 | LLLLLLLLLLLLLLL | ---------------
RST_STREAM | 00000403000000000100000008 | PPPggg.......PP | ---xxxxxxxxxx--
RST_STREAM of 3 bytes | 000003030000000001000000 | LLLLLLLLLLLLLLL | ---------------
PUSH_PROMISE | 00000705040000000100000002838684 | PPPPPPPPPPPPPPP | ---------------
WINDOW_UPDATE by 1 | 00000408000000000100000001 | PPP..........PP | ---orlxxxxxxx--
WINDOW_UPDATE by 0 | 00000408000000000100000000 | PPPppp.......PP | ---xxxxxxxxxx--
WINDOW_UPDATE past the largest | 0000040800000000017fffffff | PPPfff.......PP | ---xxxxxxxxxx--
WINDOW_UPDATE of 3 bytes | 000003080000000001000000 | LLLLLLLLLLLLLLL | ---------------
CONTINUATION | 0000020904000000018684 | PPPPPPPPPPPPPhP | -------------o-
type 10, all flags | 0000030aff000000016e6577 | P............PP | -iiorlxxxxxxx--
SETTINGS on a stream | 000000040000000001 | PPPPPPPPPPPPPPP | ---------------
SETTINGS, ACK, on a stream | 000000040100000001 | PPPPPPPPPPPPPPP | ---------------
PING on a stream | 0000080600000000010000000000000000 | PPPPPPPPPPPPPPP | ---------------
PING, ACK, on a stream | 0000080601000000010000000000000000 | PPPPPPPPPPPPPPP | ---------------
GOAWAY on a stream | 0000080700000000010000000000000000 | PPPPPPPPPPPPPPP | ---------------
DATA on 0 | 00000100000000000078 | PPPPPPPPPPPPPPP | ---------------
HEADERS on 0 | 000003010400000000838684 | PPPPPPPPPPPPPPP | ---------------
PRIORITY on 0 | 0000050200000000000000000000 | PPPPPPPPPPPPPPP | ---------------
RST_STREAM on 0 | 00000403000000000000000008 | PPPPPPPPPPPPPPP | ---------------
PUSH_PROMISE on 0 | 00000705040000000000000002838684 | PPPPPPPPPPPPPPP | ---------------
CONTINUATION on 0 | 000003090400000000838684 | PPPPPPPPPPPPPPP | ---------------
type 10 on 0 | 0000030a00000000006e6577 | P............PP | -iiorlxxxxxxx--
SETTINGS | 000000040000000000 | aaaaaaaaaaaaaPP | iiiorlxxxxxxx--
SETTINGS, the reserved bit | 000000040080000000 | aaaaaaaaaaaaaPP | iiiorlxxxxxxx--
SETTINGS, unknown | 000006040000000000009900000007 | aaaaaaaaaaaaaPP | iiiorlxxxxxxx--
SETTINGS, pushing 2 | 000006040000000000000200000002 | PPPPPPPPPPPPPPP | ---------------
SETTINGS, a window of 2^31 | 000006040000000000000480000000 | FFFFFFFFFFFFFPP | ---------------
SETTINGS, frames of 16,383 | 000006040000000000000500003fff | PPPPPPPPPPPPPPP | ---------------
SETTINGS, frames of 2^24 | 000006040000000000000501000000 | PPPPPPPPPPPPPPP | ---------------
SETTINGS of 5 bytes | 0000050400000000000000000000 | LLLLLLLLLLLLLLL | ---------------
SETTINGS, ACK | 000000040100000000 | P............PP | -iiorlxxxxxxx--
SETTINGS, ACK, of 6 bytes | 000006040100000000000300000001 | LLLLLLLLLLLLLLL | ---------------
PING | 0000080600000000000102030405060708 | PaaaaaaaaaaaaPP | -iiorlxxxxxxx--
PING, all flags but ACK | 00000806fe000000000000000000000000 | PaaaaaaaaaaaaPP | -iiorlxxxxxxx--
PING, ACK | 0000080601000000000000000000000000 | P............PP | -iiorlxxxxxxx--
PING of 7 bytes | 00000706000000000000000000000000 | LLLLLLLLLLLLLLL | ---------------
GOAWAY | 0000080700000000000000000000000000 | P............PP | -iiorlxxxxxxx--
GOAWAY of 7 bytes | 00000707000000000000000000000000 | LLLLLLLLLLLLLLL | ---------------
WINDOW_UPDATE on 0 by 1 | 00000408000000000000000001 | P............PP | -iiorlxxxxxxx--
WINDOW_UPDATE on 0 by 0 | 00000408000000000000000000 | PPPPPPPPPPPPPPP | ---------------
WINDOW_UPDATE on 0 past the largest | 0000040800000000007fffffff | PFFFFFFFFFFFFPP | ---------------
WINDOW_UPDATE on 0 of 3 bytes | 000003080000000000000000 | LLLLLLLLLLLLLLL | ---------------
";
