//! The connection table, a scene for each row and each of its branches. The bytes are worked out
//! from RFC 9113 and RFC 7541, and the answers from the table.

use crate::scenes::play_all;

const FIRST_FRAMES: &str = "\
scene a first PING
client 000008.06.00.00000000.0102030405060708
told nothing
fault 1 0 FirstFrame
wrote G0_1

scene a first acknowledgement
client A
told nothing
fault 1 0 FirstFrame
wrote G0_1

scene a first head
client H1
told nothing
fault 1 0 FirstFrame
wrote G0_1

scene a first SETTINGS
client S
told nothing
wrote A
";

const HEADER_BLOCKS_ARE_WHOLE: &str = "\
scene PING in a block
client S H1_OPEN 000008.06.00.00000000.0102030405060708
told nothing
fault 1 0 BlockOpen
wrote A G0_1

scene a head in a block
client S H1_OPEN H3
told nothing
fault 1 0 BlockOpen
wrote A G0_1

scene an unknown frame in a block
client S H1_OPEN 000000.0a.00.00000001
told nothing
fault 1 0 BlockOpen
wrote A G0_1

scene SETTINGS in a block
client S H1_OPEN S
told nothing
fault 1 0 BlockOpen
wrote A G0_1

scene CONTINUATION elsewhere in a block
client S H1_OPEN 000001.09.04.00000003.84
told nothing
fault 1 0 BlockOpen
wrote A G0_1

scene CONTINUATION without a block
client S 000001.09.04.00000001.84
told nothing
fault 1 0 NoBlock
wrote A G0_1

scene CONTINUATION after a whole block
client S H1 000001.09.04.00000001.84
told H1 :method=GET
fault 1 1 NoBlock
wrote A G1_1
";

const FRAMES_ARE_IN_THEIR_PLACE: &str = "\
scene DATA on the connection
client S 000001.00.00.00000000.'x'
told nothing
fault 1 0 StreamZero
wrote A G0_1

scene HEADERS on the connection
client S 000001.01.04.00000000.82
told nothing
fault 1 0 StreamZero
wrote A G0_1

scene PRIORITY on the connection
client S 000005.02.00.00000000.0000000000
told nothing
fault 1 0 StreamZero
wrote A G0_1

scene RST_STREAM on the connection
client S 000004.03.00.00000000.00000008
told nothing
fault 1 0 StreamZero
wrote A G0_1

scene SETTINGS on a stream
client 000000.04.00.00000001
told nothing
fault 1 0 StreamZero
wrote G0_1

scene an acknowledgement on a stream
client S 000000.04.01.00000001
told nothing
fault 1 0 StreamZero
wrote A G0_1

scene PING on a stream
client S 000008.06.00.00000001.0000000000000000
told nothing
fault 1 0 StreamZero
wrote A G0_1

scene GOAWAY on a stream
client S 000008.07.00.00000001.0000000000000000
told nothing
fault 1 0 StreamZero
wrote A G0_1

scene PUSH_PROMISE on the connection
client S 000005.05.04.00000000.0000000282
told nothing
fault 1 0 Push
wrote A G0_1

scene PUSH_PROMISE
client S 000005.05.04.00000001.0000000282
told nothing
fault 1 0 Push
wrote A G0_1
";

const FRAMES_OF_THE_CONNECTION: &str = "\
scene frames without effect
client S 000005.02.00.00000005.0000000000 000003.0a.00.00000007.'abc' A 000008.06.01.00000000.0000000000000000
told nothing
wrote A

scene PING
client S 000008.06.00.00000000.0102030405060708
told nothing
wrote A 000008.06.01.00000000.0102030405060708

scene GOAWAY, and a head after it
client S 000008.07.00.00000000.0000000000000000 H1
told H1 :method=GET
wrote A

scene a step of the connection
client S W0
told nothing
wrote A

scene the largest step of the connection
client S 000004.08.00.00000000.7fff0000
told nothing
wrote A

scene a step of 0 on the connection
client S 000004.08.00.00000000.00000000
told nothing
fault 1 0 ZeroStep
wrote A G0_1

scene a step too much on the connection
client S 000004.08.00.00000000.7fff0001
told nothing
fault 3 0 Overflow
wrote A G0_3
";

const SETTINGS_ONE_BY_ONE: &str = "\
scene settings without meaning here
client 00001e.04.00.00000000.0002000000000002000000010003000000050006000000070063ffffffff
told nothing
wrote A

scene a table of 4,096, and one of 4,095 twice
client 000012.04.00.00000000.000100001000000100000fff000100000000
told nothing
wrote A

scene the largest window
client 000006.04.00.00000000.00047fffffff
told nothing
wrote A

scene the sizes of frames
client 00000c.04.00.00000000.000500004000000500ffffff
told nothing
wrote A

scene pushing by 2
client S 000006.04.00.00000000.000200000002
told nothing
fault 1 0 Setting(2)
wrote A G0_1

scene a window too large
client S 000006.04.00.00000000.000480000000
told nothing
fault 3 0 Setting(4)
wrote A G0_3

scene a frame too small
client S 000006.04.00.00000000.000500003fff
told nothing
fault 1 0 Setting(5)
wrote A G0_1

scene a frame too large
client S 000006.04.00.00000000.000501000000
told nothing
fault 1 0 Setting(5)
wrote A G0_1

scene a later pair
client 00000c.04.00.00000000.000100000000000200000002
told nothing
fault 1 0 Setting(2)
wrote G0_1

scene a window that passes the largest with its steps
client S H1 W1 000006.04.00.00000000.00047fffffff
told H1 :method=GET
fault 3 1 Overflow
wrote A G1_3
";

const IDLE_AND_CLOSED_STREAMS: &str = "\
scene DATA on an idle stream
client S D1
told nothing
fault 1 0 Idle
wrote A G0_1

scene RST_STREAM on an idle stream
client S R1
told nothing
fault 1 0 Idle
wrote A G0_1

scene WINDOW_UPDATE on an idle stream
client S W1
told nothing
fault 1 0 Idle
wrote A G0_1

scene RST_STREAM on an even stream
client S H3 000004.03.00.00000002.00000008
told H3 :method=GET
fault 1 3 Idle
wrote A G3_1

scene HEADERS on an even stream below the last
client S H3 000001.01.04.00000002.82
told H3 :method=GET
fault 1 3 EvenStream
wrote A G3_1

scene DATA on an even stream
client S H3 000001.00.00.00000002.'x'
told H3 :method=GET
fault 1 3 Idle
wrote A G3_1

scene RST_STREAM on a live stream
client S H1 R1
told H1 :method=GET G1
wrote A

scene RST_STREAM on a closed stream
client S H1 R1 R1
told H1 :method=GET G1
wrote A

scene WINDOW_UPDATE on a closed stream
client S H1 R1 000004.08.00.00000001.00000000
told H1 :method=GET G1
wrote A

scene DATA on a closed stream
client S H1 R1 D1
told H1 :method=GET G1
wrote A W0

scene DATA without bytes on a closed stream
client S H1 R1 000000.00.00.00000001
told H1 :method=GET G1
wrote A

scene DATA on a skipped stream
client S H3 D1
told H3 :method=GET
wrote A W0
";

const WINDOWS_OF_STREAMS: &str = "\
scene a step of a stream
client S H1 W1
told H1 :method=GET
wrote A

scene a step of 0 on a stream
client S H1 000004.08.00.00000001.00000000
told H1 :method=GET G1
wrote A RST1_1

scene a step too much on a stream
client S H1 000004.08.00.00000001.7fff0001
told H1 :method=GET G1
wrote A RST1_3

scene the largest step on a stream
client S H1 000004.08.00.00000001.7fff0000
told H1 :method=GET
wrote A
";

#[test]
fn first_frames(rt: HostRuntime) {
    play_all(&rt, rt.alloc(), FIRST_FRAMES);
}

#[test]
fn header_blocks_are_whole(rt: HostRuntime) {
    play_all(&rt, rt.alloc(), HEADER_BLOCKS_ARE_WHOLE);
}

#[test]
fn frames_are_in_their_place(rt: HostRuntime) {
    play_all(&rt, rt.alloc(), FRAMES_ARE_IN_THEIR_PLACE);
}

#[test]
fn frames_of_the_connection(rt: HostRuntime) {
    play_all(&rt, rt.alloc(), FRAMES_OF_THE_CONNECTION);
}

#[test]
fn settings_one_by_one(rt: HostRuntime) {
    play_all(&rt, rt.alloc(), SETTINGS_ONE_BY_ONE);
}

#[test]
fn idle_and_closed_streams(rt: HostRuntime) {
    play_all(&rt, rt.alloc(), IDLE_AND_CLOSED_STREAMS);
}

#[test]
fn windows_of_streams(rt: HostRuntime) {
    play_all(&rt, rt.alloc(), WINDOWS_OF_STREAMS);
}
