//! The names of pages.

use status_pages::{Asked, page_named};

#[test]
fn pages_have_their_names(rt: HostRuntime) {
    assert_eq!(rt; page_named(true, b"GET", b"/metrics"), Asked::Metrics);
    assert_eq!(rt; page_named(true, b"HEAD", b"/ready"), Asked::Ready);
    assert_eq!(rt; page_named(true, b"POST", b"/live"), Asked::NoMethod);
    assert_eq!(rt; page_named(true, b"POST", b"/stop"), Asked::Stop);
    assert_eq!(rt; page_named(true, b"GET", b"/stop"), Asked::NoPost);
    assert_eq!(rt; page_named(true, b"GET", b"/metrics/"), Asked::NoPage);
}

#[test]
fn stop_is_no_page_of_pages_that_take_none(rt: HostRuntime) {
    assert_eq!(rt; page_named(false, b"POST", b"/stop"), Asked::NoPage);
    assert_eq!(rt; page_named(false, b"GET", b"/stop"), Asked::NoPage);
    assert_eq!(rt; page_named(false, b"GET", b"/live"), Asked::Live);
}
