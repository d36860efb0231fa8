use file_sets::{File, MemoryShelf, publish};
use std::alloc::Global;
use std::test::*;
use wl_octets::{Memory, Octets};

fn file(alloc: Global, name: &[u8], is_secret: bool) -> Result<File, Memory> {
    Ok(File {
        name: Octets::from_slice(alloc, name)?,
        is_secret,
        bytes: Octets::from_slice(alloc, b"x")?,
    })
}

#[test]
fn each_call_fails_in_turn(rt: HostRuntime) -> Result<(), Fail> {
    let alloc = rt.alloc();
    let two = [
        file(alloc, b"svid.pem", false)?,
        file(alloc, b"key.pem", true)?,
    ];
    let one = [file(alloc, b"svid.pem", false)?];
    // By the call that fails: the link and the count of files after the first set, and after the second.
    // The first set takes the calls 0 to 4 (make, put, put, sync, point), the second one 5 to 8; 9 isn't a call.
    for failing in 0..=9 {
        let mut shelf = MemoryShelf::start(alloc, failing);
        let first = publish(&mut shelf, 1, &two).is_ok();
        let sees_first = if failing < 5 { (None, 0) } else { (Some(1), 2) };
        assert_eq!(rt; first, failing >= 5, "at {failing}");
        assert_eq!(rt; (shelf.link(), shelf.count()), sees_first, "at {failing}");
        let second = publish(&mut shelf, 2, &one).is_ok();
        let is_second = failing < 5 || failing == 9;
        let sees_second = if is_second {
            (Some(2), 1)
        } else {
            (Some(1), 2)
        };
        assert_eq!(rt; second, is_second, "at {failing}");
        assert_eq!(rt; (shelf.link(), shelf.count()), sees_second, "at {failing}");
    }
    Ok(())
}
