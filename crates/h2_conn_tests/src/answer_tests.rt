//! What a server says, and what streams close by it.

use crate::scenes::{headers, play_all};
use h2_conn::judge_trailers;
use std::alloc::Global;
use std::process::Abort;

const CONNECTIONS: &str = "\
scene SETTINGS, and a client that goes
see live 0
see going 0
see begun 0
client S
wrote A
client 000008.07.00.00000000.0000000000000000
see going 1

scene the first fault stays, and nothing comes after GOAWAY
breaks BadPadding
fault 1 0 BadPadding
breaks TooLarge 20000
fault 1 0 BadPadding
wrote G0_1
breaks BadPadding
fault 1 0 BadPadding
wrote nothing

scene a wrong preface
client S POST
wrote A
breaks BadPreface 7
fault 1 1 Preface(7)
see live 0

scene a frame that is too large
client S POST
wrote A
breaks TooLarge 16385
fault 6 1 TooLarge(16385)
see live 0

scene a frame of a wrong length
client S POST
wrote A
breaks WrongLengthOfPing 7
fault 6 1 WrongLength(6, 7)
see live 0
";

/// What python3-h2 sends after the preface in two calls, printed by `tests/vectors/h2_client.py`, and when it leaves.
const ORDINARY_CLIENT: &str = "\
scene an ordinary client
client 00002a.04.00.00000000.00010000100000020000000100040000ffff000500004000000800000000000300000064000600010000
client 000004.08.00.00000000.000f4240
client 000039.01.04.00000001.83864495626b2b22f394742675fb857c651d099d8bd3949d7f4186a0e41d139d095f8b1d75d0620d263d4c4d65644082497f864d833505b11f
client 000005.00.01.00000001.0000000000
told H1 :method=POST :scheme=http :path=/grpc.health.v1.Health/Check :authority=localhost content-type=application/grpc te=trailers B1:0000000000 .
server head 1 :status=200|content-type=application/grpc
server offer 1 00000000020801
server finish 1 grpc-status=0
wrote A 000004.08.00.00000000.00000005 000014.01.04.00000001.880f1010'application/grpc' \
000007.00.00.00000001.00000000020801 00000f.01.05.00000001.000b'grpc-status'01'0'
client 000000.04.01.00000000
client 000006.01.04.00000003.8386c1c0bfbe
client 000005.00.00.00000003.0000000000
told H3 :method=POST :scheme=http :path=/grpc.health.v1.Health/Check :authority=localhost content-type=application/grpc te=trailers B3:0000000000
client 000004.03.00.00000003.00000008
client 000008.06.00.00000000.6b656570616c6976
client 000008.07.00.00000000.0000000000000000
told G3
see going 1
see live 0
";

/// On stream 1: the head of a response is the frame 000014.01.04.., and trailers are 000030.01.05...
const ANSWERS: &str = "\
scene a head, and nothing on a stream that is not live
client S POST
wrote A
see live_stream 1
server head 1 :status=200|content-type=application/grpc
wrote 000014.01.04.00000001.880f1010'application/grpc'
server head 3 :status=200|content-type=application/grpc
wrote nothing

scene trailers: the stream takes nothing more, and is live until its request has ended
client S POST
wrote A
server finish 1 grpc-status=7|grpc-message=no identity issued
server offer 1 'late!'
server finish 1 :status=200|content-type=application/grpc
wrote 000030.01.05.00000001.000b'grpc-status'01'7'000c'grpc-message'12'no identity issued'
see live_stream 1
told H1 :method=POST
client D1_END
told B1:78 .
see dead_stream 1

scene a reset
client S POST
wrote A
server reset 1 1
server reset 3 1
see live 0
wrote RST1_1

scene a whole answer, with which the stream ends
client S POST_END
wrote A
server head 1 :status=200|content-type=application/grpc
server offer 1 'hello'
server finish 1 grpc-status=7|grpc-message=no identity issued
wrote 000014.01.04.00000001.880f1010'application/grpc' 000005.00.00.00000001.'hello' \
000030.01.05.00000001.000b'grpc-status'01'7'000c'grpc-message'12'no identity issued'
see dead_stream 1
see live 0
see begun 1

scene trailers of the client after the answer
client S POST
wrote A
server finish 1 grpc-status=7|grpc-message=no identity issued
wrote 000030.01.05.00000001.000b'grpc-status'01'7'000c'grpc-message'12'no identity issued'
told H1 :method=POST
client 000000.01.05.00000001
told E1
see dead_stream 1

scene a message that is withdrawn before it begins
client S POST
wrote A
server offer 1 'hello'
server withdraw 1
server withdraw 3
wrote nothing
see begun 0

scene seventeen heads: the last is refused, and a fault names it
client S SIXTEEN 000001.01.04.00000021.82
see live 16
see live_stream 31
see dead_stream 33
client 000004.08.00.00000000.00000000
fault 1 33 ZeroStep
wrote A 000004.03.00.00000021.00000007 000008.07.00.00000000.0000002100000001

scene a refused head: its stream is closed, its headers are in the table, and a fault names it
client S
client SIXTEEN
told H1 :method=GET H3 :method=GET H5 :method=GET H7 :method=GET H9 :method=GET H11 :method=GET H13 :method=GET \
H15 :method=GET H17 :method=GET H19 :method=GET H21 :method=GET H23 :method=GET H25 :method=GET H27 :method=GET \
H29 :method=GET H31 :method=GET
client 000005.01.04.00000021.4001610162
told nothing
client 000000.00.00.00000021
told nothing
client R1
told G1
client 000001.01.04.00000023.be
told H35 a=b
client 000004.08.00.00000000.00000000
fault 1 35 ZeroStep
";

const WINDOWS: &str = "\
scene a window below zero: an initial window of 10 makes the stream's -22
client S POST
wrote A
server offer 1 'thirty-two bytes of one message.'
wrote 000020.00.00.00000001.'thirty-two bytes of one message.'
client 000006.04.00.00000000.00040000000a
server offer 1 'another'
wrote A
client 000004.08.00.00000001.00000016
wrote nothing
client W1
wrote 000001.00.00.00000001.'a'
server withdraw 1
see begun 2

scene a reset in the middle of a message: no larger window lets the rest through
client S POST
wrote A
client 000006.04.00.00000000.000400000005
server offer 1 'thirty-two bytes of one message.'
wrote A 000005.00.00.00000001.'thirt'
client R1
client 000004.08.00.00000001.00000100
wrote nothing
client 000006.04.00.00000000.000400000064
wrote A
see begun 1
";

const TABLES: &str = "\
scene a header table of 0 bytes, twice: one size update
client S POST
wrote A
client 000006.04.00.00000000.000100000000
client 000006.04.00.00000000.000100000000
server head 1 :status=200
server finish 1 :status=200
wrote A A 000002.01.04.00000001.2088 000001.01.05.00000001.88

scene a header table of 4,095 bytes: a size update
client S POST
wrote A
client 000006.04.00.00000000.000100000fff
server head 1 :status=200
wrote A 000002.01.04.00000001.2088

scene a header table of 4,096 bytes: none
client S POST
wrote A
client 000006.04.00.00000000.000100001000
server head 1 :status=200
wrote A 000001.01.04.00000001.88

scene 391 headers of 42 bytes each are more than 16,384
client S
client 000187.01.04.00000001 82*391
fault 11 0 Hpack(ListTooLong)

scene a block of 16,384 bytes, to which nothing is added at first
client S
client 004000.01.00.00000001 82*16384 000000.09.00.00000001 000001.09.00.00000001.82
fault 11 0 BlockTooLong
";

#[test]
fn connections(rt: HostRuntime) {
    play_all(&rt, rt.alloc(), CONNECTIONS);
}

#[test]
fn answers(rt: HostRuntime) {
    play_all(&rt, rt.alloc(), ANSWERS);
}

#[test]
fn windows(rt: HostRuntime) {
    play_all(&rt, rt.alloc(), WINDOWS);
}

#[test]
fn tables_and_blocks(rt: HostRuntime) {
    play_all(&rt, rt.alloc(), TABLES);
}

#[test]
fn ordinary_client(rt: HostRuntime) {
    play_all(&rt, rt.alloc(), ORDINARY_CLIENT);
}

fn judges(rt: &impl Abort, alloc: Global, field: &str, is_good: bool) {
    let trailers = headers(rt, alloc, field);
    assert_eq!(rt; judge_trailers(trailers.as_slice()), is_good, "{field}");
}

#[test]
fn rules_on_trailers(rt: HostRuntime) {
    for (field, is_good) in [
        ("grpc-status=0", true),
        ("te=trailers", true),
        ("te=gzip", false),
        (":status=200", false),
        ("connection=close", false),
        ("x= 1", false),
    ] {
        judges(&rt, rt.alloc(), field, is_good);
    }
}
