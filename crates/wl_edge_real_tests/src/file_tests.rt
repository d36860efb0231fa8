//! Documents from a file.

use crate::tests::path_of;
use std::fs;
use std::test::Fail;
use wl_edge::{EdgeFault, Upstream};
use wl_edge_real::FileUpstream;
use wl_octets::Octets;

#[test]
fn a_file_gives_its_document_at_each_pull(rt: HostRuntime) -> Result<(), Fail> {
    let alloc = rt.alloc();
    let (path, other) = (path_of(&rt, "document")?, path_of(&rt, "new_document")?);
    let mut upstream = FileUpstream::start(rt, alloc, String::from_str(alloc, path.as_str())?);
    let mut into = Octets::from_slice(alloc, b"a")?;
    assert_eq!(rt; upstream.pull(&mut into), Err(EdgeFault::Failed));
    fs::write(&rt, path.as_str(), "{}")?;
    assert_eq!(rt; upstream.pull(&mut into), Ok(()));
    fs::write(&rt, other.as_str(), "[1]")?;
    fs::rename(&rt, other.as_str(), path.as_str())?;
    assert_eq!(rt; upstream.pull(&mut into), Ok(()));
    assert_eq!(rt; into.as_slice(), b"a{}[1]".as_slice());
    fs::remove_file(&rt, path.as_str())?;
    fs::create_dir(&rt, path.as_str())?;
    assert_eq!(rt; upstream.pull(&mut into), Err(EdgeFault::Failed));
    fs::remove_dir(&rt, path.as_str())?;
    assert_eq!(rt; into.as_slice(), b"a{}[1]".as_slice());
    Ok(())
}
