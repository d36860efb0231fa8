//! Messages of streams.

ghost use Rattle.std.specs.Prelude.{◌≡◌, ◌^◌, ◌<◌, [], length, IfSome};
ghost use Rattle.std.specs.Str.{bytes_eq};
ghost use Rattle.std.specs.Cmp.{partial_equiv_from_equiv};
ghost use Rattle.std.specs.Cmp.Lexicographic.{nat_list_eq_equiv};

use std::alloc::Global;
use std::marker::Model;
use wl_octets::{Octets, Shared};

/// Whose the bytes of a message are.
#[derive(Drop)]
pub enum Holding {
    Own(Octets),
    Common(Shared<Octets>),
}

/// The bytes of a message, which several streams may share. A contract sees the bytes.
#[derive(Drop)]
pub struct Message {
    holding: Holding,
}

impl Model for Message {
    ghost use Rattle.std.specs.Prelude.{List, ℕ};
    ghost use Rattle.h2_flow.specs.Messages.{bytes_held};

    ghost Value = { List ℕ };

    ghost view = { λ m. bytes_held m.holding };
}

impl Message {
    /// No bytes. It takes no memory.
    pub fn empty(alloc: Global) -> Message
        ensures { result ≡ [] }
    {
        Message::own(Octets::empty(alloc))
    }

    /// These bytes, as they lie. It takes no memory.
    pub fn own(bytes: Octets) -> Message
        ensures { result ≡ bytes }
    {
        Message {
            holding: Holding::Own(bytes),
        }
    }

    /// These bytes, which others have too. It takes no memory.
    pub fn common(bytes: Shared<Octets>) -> Message
        ensures { result ≡ bytes }
    {
        Message {
            holding: Holding::Common(bytes),
        }
    }

    /// The bytes, where others have them too.
    pub fn shared(&self) -> Option<&Shared<Octets>>
        ensures { IfSome result (λ s. s.now ≡ self.now) }
    {
        match &self.holding {
            Holding::Own(_) => None,
            Holding::Common(bytes) => Some(bytes),
        }
    }

    pub fn as_slice(&self) -> &[u8]
        ensures { result.now ≡ self.now }
    {
        match &self.holding {
            Holding::Own(bytes) => bytes.as_slice(),
            Holding::Common(bytes) => bytes.part().as_slice(),
        }
    }

    pub fn len(&self) -> usize
        ensures value { result ≡ length self.now }
        ensures bound { length self.now < 2 ^ 63 }
    {
        self.as_slice().len()
    }
}

impl PartialEq for Message {
    ghost eq = { λ a b. bytes_eq a b };

    ghost laws = { partial_equiv_from_equiv nat_list_eq_equiv };

    fn eq(&self, other: &Message) -> bool {
        self.as_slice() == other.as_slice()
    }
}
