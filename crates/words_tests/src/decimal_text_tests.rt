//! Numbers at their limits, and texts that are none.

use decimal_text::*;
use std::test::Fail;

/// Each text, its limit, and the number that it says.
#[test]
fn numbers(rt: HostRuntime) -> Result<(), Fail> {
    for (text, limit, wanted) in [
        ("0", 0, Some(0)),
        ("007", 7, Some(7)),
        ("8", 7, None),
        ("1000", 1_000, Some(1_000)),
        ("1001", 1_000, None),
        ("4294967295", 4_294_967_295, Some(4_294_967_295)),
        ("4294967296", 4_294_967_295, None),
        ("18446744073709551615", u64::MAX, Some(u64::MAX)),
        ("18446744073709551616", u64::MAX, None),
        ("184467440737095516150", u64::MAX, None),
        ("", u64::MAX, None),
        ("1/", u64::MAX, None),
        (":1", u64::MAX, None),
        ("+1", u64::MAX, None),
        ("1 ", u64::MAX, None),
    ] {
        assert_eq!(rt; number_up_to(limit, text.as_bytes()), wanted, "{text}");
    }
    Ok(())
}
