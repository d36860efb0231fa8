//! The floods, at one below their limits, at them, and one above.

use crate::scenes::play_all;

const SETTINGS: &str = "\
scene each of the first 100 is acknowledged, and then the connection ends
client S*100
client S
fault 11 0 Flood(4, 101)
wrote A*100 000008.07.00.00000000.000000000000000b

scene a head and a byte of DATA end the count, DATA without bytes does not
client S*100
client H1 S*100
client D1 S*99 E1 S
client S
fault 11 1 Flood(4, 101)

scene DATA that only ends its request does not end the count
client S H1
client S*100 E1_END
client S
fault 11 1 Flood(4, 101)
";

const EMPTY_DATA: &str = "\
scene DATA that only ends its request does not end the count
client S H1
client E1*100 E1_END
client E1
fault 11 1 Flood(0, 101)

scene a byte of DATA ends the count, SETTINGS does not
client S H1
client E1*100 D1 E1*99
client S E1
client E1
fault 11 1 Flood(0, 101)

scene a head ends the count
client S H1
client E1*100 H3 E1

scene a byte of DATA on a closed stream ends it
client S H1 H3 R3
client E1*100 D3 E1

scene a head on a closed stream ends it
client S H1 H3 R3
client E1*100 H3 E1

scene on a closed stream they count
client S H1 R1
client E1*100
client E1
fault 11 1 Flood(0, 101)

scene the flood is judged before the stream is
client S H1
client E1*100
client E3
fault 11 1 Flood(0, 101)

scene DATA that ends its request is not counted
client S H1 R1
client E1_END*101 E1
";

const CONTINUATION: &str = "\
scene a block of one piece and 64 CONTINUATION frames is whole, and one more is a flood
client S H1_OPEN
client 000001.09.00.00000001.84*63 000000.09.04.00000001
see live_stream 1
client 000001.01.00.00000003.82
client 000001.09.00.00000003.84*64
client 000001.09.00.00000003.84
fault 11 1 Flood(9, 65)
";

const RESETS: &str = "\
scene 10,000 early ones, and one more
client S
leaves 1 10000
client 000001.01.04.00004e21.82
client 000004.03.00.00004e21.00000008
fault 11 20001 Flood(3, 10001)

scene a message that began and END_STREAM each end the count
client S
leaves 1 10000
client 000001.01.04.00004e21.82
server offer 20001 'hello'
flush
leaves 20003 10000
server finish 20001
flush
leaves 40003 1

scene streams on which a frame was written are not counted
client S
answered 1 10001
leaves 20003 1

scene those of this side, which DATA after the end of a request provokes, are not counted
client S
provoked 1 10000
leaves 20001 1
";

#[test]
fn floods_of_settings(rt: HostRuntime) {
    play_all(&rt, rt.alloc(), SETTINGS);
}

#[test]
fn floods_of_empty_data(rt: HostRuntime) {
    play_all(&rt, rt.alloc(), EMPTY_DATA);
}

#[test]
fn floods_of_continuation(rt: HostRuntime) {
    play_all(&rt, rt.alloc(), CONTINUATION);
}

#[test]
fn floods_of_resets(rt: HostRuntime) {
    play_all(&rt, rt.alloc(), RESETS);
}
