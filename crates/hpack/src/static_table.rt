//! The static table (RFC 7541, appendix A).
#![tactic(auto)]

ghost use Rattle.std.specs.Prelude.{◌≡◌, slice_index_or};
ghost use Rattle.hpack.specs.Tables.{static_table, no_field};

/// How many entries the static table has.
pub const COUNT: usize = 61;

/// The name of the entry at a place, which counts from 0; it is empty past the end.
#[tactic(auto, unfolding(crate::specs::Tables::static_table))]
pub fn static_name(place: usize) -> &'static [u8]
    ensures { result.now ≡ (slice_index_or static_table place no_field).name }
{
    match place {
        0 => b":authority",
        1..=2 => b":method",
        3..=4 => b":path",
        5..=6 => b":scheme",
        7..=13 => b":status",
        14 => b"accept-charset",
        15 => b"accept-encoding",
        16 => b"accept-language",
        17 => b"accept-ranges",
        18 => b"accept",
        19 => b"access-control-allow-origin",
        20 => b"age",
        21 => b"allow",
        22 => b"authorization",
        23 => b"cache-control",
        24 => b"content-disposition",
        25 => b"content-encoding",
        26 => b"content-language",
        27 => b"content-length",
        28 => b"content-location",
        29 => b"content-range",
        30 => b"content-type",
        31 => b"cookie",
        32 => b"date",
        33 => b"etag",
        34 => b"expect",
        35 => b"expires",
        36 => b"from",
        37 => b"host",
        38 => b"if-match",
        39 => b"if-modified-since",
        40 => b"if-none-match",
        41 => b"if-range",
        42 => b"if-unmodified-since",
        43 => b"last-modified",
        44 => b"link",
        45 => b"location",
        46 => b"max-forwards",
        47 => b"proxy-authenticate",
        48 => b"proxy-authorization",
        49 => b"range",
        50 => b"referer",
        51 => b"refresh",
        52 => b"retry-after",
        53 => b"server",
        54 => b"set-cookie",
        55 => b"strict-transport-security",
        56 => b"transfer-encoding",
        57 => b"user-agent",
        58 => b"vary",
        59 => b"via",
        60 => b"www-authenticate",
        _ => b"",
    }
}

/// The value of the entry at a place, which counts from 0; most are empty.
#[tactic(auto, unfolding(crate::specs::Tables::static_table))]
pub fn static_value(place: usize) -> &'static [u8]
    ensures { result.now ≡ (slice_index_or static_table place no_field).value }
{
    match place {
        1 => b"GET",
        2 => b"POST",
        3 => b"/",
        4 => b"/index.html",
        5 => b"http",
        6 => b"https",
        7 => b"200",
        8 => b"204",
        9 => b"206",
        10 => b"304",
        11 => b"400",
        12 => b"404",
        13 => b"500",
        15 => b"gzip, deflate",
        0 => b"",
        14 => b"",
        _ => b"",
    }
}
