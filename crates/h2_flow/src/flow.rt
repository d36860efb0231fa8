//! What all streams of a connection share.

ghost use Rattle.std.specs.Prelude.{◌≡◌, ◌≤◌, min, pos, ◌+ℤ◌};
ghost use Rattle.h2_wire.specs.declared.limit.TheConstants.{MAX_FRAME_SIZE};
ghost use Rattle.h2_flow.specs.Windows.{room_of, allowed_of};

use h2_wire::limit::MAX_FRAME_SIZE;

/// Where the size update of a header block stands (RFC 7541, section 4.2).
#[derive(Clone, Copy, Debug, PartialEq, Eq)]
pub enum TableSizeUpdate {
    Unasked,
    /// The next block begins with it.
    Due,
    Written,
}

/// The windows and counts of a connection.
#[derive(Clone, Copy)]
pub struct Flow {
    /// The connection's window, in bytes of DATA.
    pub connection_window: u32,
    /// The peer's last initial window of a stream, in bytes.
    pub initial_window_size: u32,
    pub update: TableSizeUpdate,
    /// How many messages began.
    pub begun: u64,
}

/// A stream's window, as far as one frame can use it.
fn window(initial: u32, credit: i64) -> u32
    ensures { result ≡ min MAX_FRAME_SIZE (room_of (pos initial +ℤ credit)) }
{
    let window = i128::from(initial) + i128::from(credit);
    if window <= 0 {
        0
    } else if window >= i128::from(MAX_FRAME_SIZE) {
        MAX_FRAME_SIZE
    } else {
        window as u32
    }
}

/// How many bytes of DATA a stream may write in one frame, of so many that are left.
pub(crate) fn allowed(flow: Flow, credit: i64, left: usize) -> u32
    ensures { result ≡ allowed_of flow credit left }
{
    let most = flow
        .connection_window
        .min(window(flow.initial_window_size, credit));
    if (most as usize) < left {
        most
    } else {
        left as u32
    }
}
