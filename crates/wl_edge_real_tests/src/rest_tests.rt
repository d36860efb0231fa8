//! Files at rest.

use crate::tests::path_of;
use std::alloc::Global;
use std::fs::OpenOptions;
use std::test::Fail;
use std::time::{Duration, SystemTime, UNIX_EPOCH};
use std::{fs, thread};
use wl_edge::Upstream;
use wl_edge_real::FileUpstream;
use wl_octets::Octets;

/// What may become of a file.
#[derive(Clone, Copy, Debug)]
enum Change {
    Longer,
    /// Another content of the same length, with the time of writing that there was.
    SameLength,
    /// Another time of writing alone.
    Time,
    /// Another file of the same content takes its name.
    Replaced,
    Removed,
}

const CHANGES: [Change; 5] = [
    Change::Longer,
    Change::SameLength,
    Change::Time,
    Change::Replaced,
    Change::Removed,
];

/// How often a file is pulled, a tenth of a second apart, until it rests.
const PULLS: u32 = 100;

/// An upstream at a file of its own.
#[derive(Drop)]
struct Place {
    path: String,
    upstream: FileUpstream<HostRuntime>,
}

impl Place {
    /// With a file that is new.
    fn start(rt: HostRuntime, change: Change) -> Result<Place, Fail> {
        let alloc = rt.alloc();
        let name = format!(in alloc; "rest-{change:?}")?;
        let path = path_of(&rt, name.as_str())?;
        fs::write(&rt, path.as_str(), "{}")?;
        let copy = String::from_str(alloc, path.as_str())?;
        Ok(Place {
            path,
            upstream: FileUpstream::start(rt, alloc, copy),
        })
    }
}

/// The document of a pull, where one comes.
fn pulled(alloc: Global, upstream: &mut impl Upstream) -> Option<Octets> {
    let mut document = Octets::empty(alloc);
    upstream.pull(&mut document).ok()?;
    Some(document)
}

/// Whether an upstream is unchanged after a pull, sooner or later.
fn comes_to_rest(rt: &HostRuntime, upstream: &mut impl Upstream) -> bool {
    for _ in 0..PULLS {
        if pulled(rt.alloc(), upstream).is_some() && upstream.is_unchanged() {
            return true;
        }
        thread::sleep(rt, Duration::from_millis(100));
    }
    false
}

fn set_written(rt: &HostRuntime, path: &str, time: SystemTime) -> Result<(), Fail> {
    let file = OpenOptions::new().write(true).open(rt, path)?;
    file.set_modified(time)?;
    Ok(())
}

fn apply(rt: &HostRuntime, path: &str, change: Change) -> Result<(), Fail> {
    match change {
        Change::Longer => fs::write(rt, path, "{} ")?,
        Change::SameLength => {
            let before = fs::metadata(rt, path)?.modified()?;
            fs::write(rt, path, "[]")?;
            set_written(rt, path, before)?;
        }
        Change::Time => set_written(rt, path, UNIX_EPOCH)?,
        Change::Replaced => {
            let other = path_of(rt, "rest-other")?;
            fs::write(rt, other.as_str(), "{}")?;
            fs::rename(rt, other.as_str(), path)?;
        }
        Change::Removed => fs::remove_file(rt, path)?,
    }
    Ok(())
}

#[test]
fn a_file_rests_until_it_changes(rt: HostRuntime) -> Result<(), Fail> {
    let alloc = rt.alloc();
    let mut places = Vec::new(alloc);
    for change in CHANGES {
        let mut place = Place::start(rt, change)?;
        assert!(rt; !place.upstream.is_unchanged());
        // a file that was written just now may be written again within the same tick
        assert!(rt; pulled(alloc, &mut place.upstream).is_some() && !place.upstream.is_unchanged());
        places.push(place)?;
    }
    for (place, change) in places.iter_mut().zip(CHANGES) {
        assert!(rt; comes_to_rest(&rt, &mut place.upstream) && place.upstream.is_unchanged());
        apply(&rt, place.path.as_str(), change)?;
        assert!(rt; !place.upstream.is_unchanged(), "{change:?}");
        let came = pulled(alloc, &mut place.upstream).is_some();
        assert_eq!(rt; came, !matches!(change, Change::Removed));
        assert!(rt; !place.upstream.is_unchanged(), "{change:?}");
        let _ = fs::remove_file(&rt, place.path.as_str());
    }
    Ok(())
}
