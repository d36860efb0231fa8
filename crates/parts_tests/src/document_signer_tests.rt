//! Identities of documents, asked for.

use document_signer::{DocumentSigner, SharingUpstream, share_identities};
use spiffe_id::SpiffeId;
use std::alloc::Global;
use std::test::Fail;
use wl_edge::{EdgeFault, MemoryUpstream, Script, Signer, Upstream};
use wl_entry::Ask;
use wl_octets::{Memory, Octets, Row};

/// Two entries, of which the first has an identity.
const FIRST: &[u8] =
    br#"{"version":1,"trust_domain":"a.b","bundles":[{"trust_domain":"a.b","x509":"AQ=="}],"entries":[
    {"id":"e1","spiffe_id":"spiffe://a.b/one","selectors":["k:1"]},
    {"id":"e2","spiffe_id":"spiffe://a.b/two","selectors":["k:2"]}],
    "svids":[{"entry":"e1","chain":"Yw==","key":"aw==","not_before":1,"not_after":9}]}"#;
/// The second has one, too, and the first another.
const SECOND: &[u8] =
    br#"{"version":1,"trust_domain":"a.b","bundles":[{"trust_domain":"a.b","x509":"AQ=="}],"entries":[
    {"id":"e1","spiffe_id":"spiffe://a.b/one","selectors":["k:1"]},
    {"id":"e2","spiffe_id":"spiffe://a.b/two","selectors":["k:2"]}],
    "svids":[{"entry":"e1","chain":"Yw==","key":"aw==","not_before":5,"not_after":19},
             {"entry":"e2","chain":"Yw==","key":"aw==","not_before":7,"not_after":9}]}"#;

/// The identity's first second; none where the ask failed.
fn first_second(
    alloc: Global,
    signer: &mut DocumentSigner,
    entry: &[u8],
) -> Result<Option<u64>, Fail> {
    let ask = Ask {
        entry_id: Octets::from_slice(alloc, entry)?,
        spiffe_id: SpiffeId::parse(alloc, b"spiffe://a.b/one")?,
        dns_names: Row::empty(alloc),
        ttl: 60,
    };
    match signer.sign_x509(&ask) {
        Ok(signed) => Ok(Some(signed.not_before)),
        Err(EdgeFault::Failed) => Ok(None),
        Err(EdgeFault::Memory) => Err(Memory.into()),
    }
}

/// An upstream that gives these documents.
fn upstream_of(
    alloc: Global,
    documents: &[(&[u8], [Option<u64>; 2])],
) -> Result<MemoryUpstream, Memory> {
    let mut answers = Row::empty(alloc);
    for (document, _) in documents {
        answers.push(Octets::from_slice(alloc, document)?)?;
    }
    Ok(MemoryUpstream::start(alloc, Script::start(answers, Row::empty(alloc))))
}

/// After each pull, what is answered for the first and for the second entry.
const DOCUMENTS: [(&[u8], [Option<u64>; 2]); 5] = [
    (b"{", [None, None]),
    (FIRST, [Some(1), None]),
    (FIRST, [Some(1), None]),
    // one with a fault changes nothing
    (b"{}", [Some(1), None]),
    (SECOND, [Some(5), Some(7)]),
];

#[test]
fn documents_give_identities(rt: HostRuntime) -> Result<(), Fail> {
    let alloc = rt.alloc();
    let identities = share_identities(alloc)?;
    let mut signer = DocumentSigner::start(alloc, identities.clone()?);
    let inner = upstream_of(alloc, &DOCUMENTS)?;
    let mut upstream = SharingUpstream::start(inner, alloc, Some(identities));
    for (document, answered) in DOCUMENTS {
        let mut pulled = Octets::empty(alloc);
        assert!(rt; upstream.pull(&mut pulled).is_ok());
        assert!(rt; pulled.as_slice() == document);
        assert_eq!(rt; first_second(alloc, &mut signer, b"e1")?, answered[0]);
        assert_eq!(rt; first_second(alloc, &mut signer, b"e2")?, answered[1]);
    }
    Ok(())
}

/// An upstream may rest once the identities of its document are shared: not before the first pull, nor where a signer looked when a
/// new document came.
#[test]
fn shared_documents_rest(rt: HostRuntime) -> Result<(), Fail> {
    let alloc = rt.alloc();
    let identities = share_identities(alloc)?;
    let mut inner = upstream_of(alloc, &[(FIRST, [None; 2]), (SECOND, [None; 2])])?;
    inner.rests = true;
    let mut upstream = SharingUpstream::start(inner, alloc, Some(identities.clone()?));
    assert!(rt; !upstream.is_unchanged());
    let mut pulled = Octets::empty(alloc);
    assert!(rt; upstream.pull(&mut pulled).is_ok() && upstream.is_unchanged());
    let looking = identities.try_read();
    assert!(rt; upstream.pull(&mut pulled).is_ok() && !upstream.is_unchanged());
    drop(looking);
    assert!(rt; upstream.pull(&mut pulled).is_ok() && upstream.is_unchanged());
    Ok(())
}
