//! Things that have a key.

ghost use Rattle.std.specs.Prelude.{◌≡◌, ℕ, List};

use wl_octets::Shared;

/// A thing with a key, which is a byte string.
pub trait Keyed {
    /// The key, as contracts see it.
    ghost key: { Self → List ℕ };

    /// The key.
    fn key(&self) -> &[u8]
        ensures { result.now ≡ key self.now };
}

impl<T: Keyed> Keyed for Shared<T> {
    ghost key = { T.key };

    fn key(&self) -> &[u8] {
        self.part().key()
    }
}
