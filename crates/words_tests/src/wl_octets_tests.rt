use std::alloc::{AllocGlobal, Global};
use std::cmp::Ordering;
use std::process::Abort;
use std::test::Fail;
use wl_octets::{Header, Memory, Octets, Row, Shared, TryClone, clone_all, share_all};

#[test]
fn octets_calls(rt: HostRuntime) -> Result<(), Fail> {
    let alloc = rt.alloc();
    let mut text = Octets::from_slice(alloc, &[1])?;
    assert_eq!(rt; text.as_slice(), [1].as_slice());
    text.push_slice(&[2])?;
    assert_eq!(rt; text.as_slice(), [1, 2].as_slice());
    assert_eq!(rt; text.len(), 2);
    let copy = text.copy(alloc)?;
    assert_eq!(rt; copy.as_slice(), [1, 2].as_slice());
    assert!(rt; copy == text);
    assert_eq!(rt; Octets::empty(alloc).cmp(&text), Ordering::Less);
    assert_eq!(rt; Octets::from_vec(text.into_vec()).len(), 2);
    Ok(())
}

#[test]
fn row_push(rt: HostRuntime) -> Result<(), Fail> {
    let mut row: Row<u32> = Row::empty(rt.alloc());
    match row.push(5) {
        Ok(()) => {}
        Err((_, Memory)) => return Err(Fail::from("no memory")),
    }
    assert_eq!(rt; row.as_slice(), [5].as_slice());
    assert_eq!(rt; row.get(0).copied(), Some(5));
    assert_eq!(rt; row.get(1).copied(), None);
    assert_eq!(rt; row.len(), 1);
    assert_eq!(rt; row.remove(0), 5);
    assert_eq!(rt; row.into_vec().len(), 0);
    Ok(())
}

fn octets(rt: &impl Abort, alloc: Global, bytes: &[u8]) -> Octets {
    Octets::from_slice(alloc, bytes).expect(rt, "memory")
}

fn header(rt: &impl Abort, alloc: Global) -> Header {
    Header {
        name: octets(rt, alloc, b"te"),
        value: octets(rt, alloc, b"trailers"),
    }
}

#[test]
fn copy_of_a_header(rt: HostRuntime) {
    let header = header(&rt, rt.alloc());
    let copy = header.copy(rt.alloc()).expect(&rt, "memory");
    assert!(rt; copy == header);
    drop(copy);
    drop(header);
}

fn shared(rt: &impl Abort, alloc: Global) -> Shared<Header> {
    match Shared::new(alloc, header(rt, alloc)) {
        Ok(part) => part,
        Err(_) => panic!(rt; "memory"),
    }
}

#[test]
fn shared_parts(rt: HostRuntime) {
    let part = shared(&rt, rt.alloc());
    let other = part.share().expect(&rt, "memory");
    assert!(rt; other == part);
    assert_eq!(rt; other.part().value.as_slice(), b"trailers".as_slice());
}

#[test]
fn rows_of_shared_parts(rt: HostRuntime) {
    let alloc = rt.alloc();
    let mut row = Row::empty(alloc);
    let pushed = row.push(shared(&rt, alloc));
    assert!(rt; pushed.is_ok());
    assert!(rt; row == row);
    let others = share_all(alloc, row.as_slice()).expect(&rt, "memory");
    assert!(rt; others == row);
}

#[test]
fn copies_of_octets(rt: HostRuntime) {
    let alloc = rt.alloc();
    let name = octets(&rt, alloc, b"te");
    let copy = name.try_clone(alloc).expect(&rt, "memory");
    let names = [copy, octets(&rt, alloc, b"trailers")];
    let copies = clone_all(alloc, &names).expect(&rt, "memory");
    assert!(rt; copies.as_slice() == names.as_slice());
}
