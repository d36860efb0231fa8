//! Bytes that stay where they lie.

ghost use Rattle.std.specs.Prelude.{◌≡◌, List, [], ℕ, length};
ghost use Rattle.std.specs.Str.{bytes_eq};
ghost use Rattle.std.specs.Cmp.{partial_equiv_from_equiv};
ghost use Rattle.std.specs.Cmp.Lexicographic.{nat_list_eq_equiv};

use std::marker::Model;

/// A byte string in a message, which lends it. Contracts see the bytes, and two are equal where their bytes are.
#[derive(Drop)]
pub struct Lent<'a> {
    bytes: &'a [u8],
}

impl<'a> Model for Lent<'a> {
    ghost Value = { List ℕ };

    ghost view = { λ lent. lent.bytes.now };
}

impl<'a> Lent<'a> {
    /// The empty byte string.
    pub(crate) fn empty() -> Lent<'a>
        ensures { result ≡ [] }
    {
        Lent { bytes: &[] }
    }

    /// These bytes.
    pub(crate) fn from_slice(bytes: &'a [u8]) -> Lent<'a>
        ensures { result ≡ bytes.now }
    {
        Lent { bytes }
    }

    /// The bytes, for as long as the message lends them. It takes no memory.
    pub fn as_slice(&self) -> &'a [u8]
        ensures { result.now ≡ self.now }
    {
        self.bytes
    }

    /// How many bytes there are. It takes no memory.
    pub fn len(&self) -> usize
        ensures { result ≡ length self.now }
    {
        self.bytes.len()
    }
}

impl PartialEq for Lent<'_> {
    ghost eq = { λ a b. bytes_eq a b };

    ghost laws = { partial_equiv_from_equiv nat_list_eq_equiv };

    fn eq(&self, other: &Self) -> bool {
        self.bytes == other.bytes
    }
}
