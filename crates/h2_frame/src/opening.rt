//! The connection preface (RFC 9113, section 3.4).

ghost use Rattle.std.specs.Prelude.{◌≡◌, ◌≢◌, ◌<◌, ◌≤◌, length, drop, slice_index};
ghost use Rattle.h2_frame.specs.Reading.{preface, after_preface};
ghost use Rattle.h2_frame.specs.Parsing.{Greets};

/// What each client sends first.
pub(crate) const PREFACE: [u8; 24] = *b"PRI * HTTP/2.0\r\n\r\nSM\r\n\r\n";

/// How a piece goes on with the preface.
pub enum Greeting {
    /// The preface is whole after so many bytes of the piece.
    Whole(usize),
    /// So many bytes of the preface have come, and no piece is left.
    Partly(usize),
    /// This byte of the preface differs.
    Wrong(usize),
}

/// How many bytes two strings begin with in common.
fn common(left: &[u8], piece: &[u8]) -> usize
    ensures left { result ≤ length left.now }
    ensures piece { result ≤ length piece.now }
    ensures same { after_preface left.now piece.now
        ≡ after_preface (drop result left.now) (drop result piece.now) }
    ensures ends { result < length left.now → result < length piece.now
        → slice_index left.now result ≢ slice_index piece.now result }
{
    let mut count = 0;
    while count < left.len() && count < piece.len() && left[count] == piece[count] {
        count += 1;
    }
    count
}

/// Goes on with a preface of which so many bytes have come.
pub(crate) fn greet(matched: usize, piece: &[u8]) -> Greeting
    requires { matched ≤ 24 }
    ensures { Greets result (after_preface (drop matched preface) piece.now) piece.now }
{
    let (_, left) = PREFACE.split_at(matched);
    let count = common(left, piece);
    if count == left.len() {
        Greeting::Whole(count)
    } else if count == piece.len() {
        Greeting::Partly(matched + count)
    } else {
        Greeting::Wrong(matched + count)
    }
}
