ghost use Rattle.std.specs.Prelude.{ℕ, List};

use sorted_lists::{Keyed, find_by_key, place_by_key};
use std::alloc::AllocGlobal;
use std::test::Fail;
use wl_octets::Shared;

/// A word, which is its own key.
#[derive(Drop)]
struct Word {
    text: &'static [u8],
}

impl Keyed for Word {
    ghost key = { λ w. w.text.now };

    fn key(&self) -> &[u8] {
        self.text
    }
}

/// Whether a word is among three.
fn is_there(key: &[u8]) -> bool {
    let words = [
        Word { text: b"a" },
        Word { text: b"ab" },
        Word { text: b"c" },
    ];
    match find_by_key(&words, key) {
        Some(word) => word.text == key,
        None => false,
    }
}

#[test]
fn finds_each_and_no_other(rt: HostRuntime) {
    for key in [b"a".as_slice(), b"ab".as_slice(), b"c".as_slice()] {
        assert!(rt; is_there(key));
    }
    for key in [
        b"".as_slice(),
        b"aa".as_slice(),
        b"b".as_slice(),
        b"d".as_slice(),
    ] {
        assert!(rt; !is_there(key));
    }
}

/// The place of a word among three.
fn place_of(key: &[u8]) -> Option<usize> {
    let words = [
        Word { text: b"a" },
        Word { text: b"ab" },
        Word { text: b"c" },
    ];
    place_by_key(&words, key)
}

#[test]
fn places_from_0(rt: HostRuntime) {
    assert_eq!(rt; place_of(b"a"), Some(0));
    assert_eq!(rt; place_of(b"c"), Some(2));
    assert_eq!(rt; place_of(b"b"), None);
}

#[test]
fn a_shared_part_has_its_key(rt: HostRuntime) -> Result<(), Fail> {
    match Shared::new(rt.alloc(), Word { text: b"a" }) {
        Ok(word) => assert_eq!(rt; word.key(), b"a".as_slice()),
        Err(_) => return Err(Fail::from("no memory")),
    }
    Ok(())
}
