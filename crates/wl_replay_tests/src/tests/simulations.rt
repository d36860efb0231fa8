//! Simulations whose steps were worked out by hand; and laws: what is drawn, and a document, by the definitions alone.

ghost use Rattle.std.specs.Prelude.{◌≡◌, ◌∷◌, [], ◌++◌, map, true, false, codes};
ghost use Rattle.std.specs.Fn.{iterate};
ghost use Rattle.wl_replay.specs.Draws.{state_after, drawn};
ghost use Rattle.wl_replay.specs.Generated.{document_text};

use std::test::Fail;
use wl_core::Counts;
use wl_replay::simulate;

/// The first draws of the seed 1234567, as other writings of SplitMix64 give them.
fn first_draws()
    ensures { map (λ n. drawn (iterate state_after n 1234567)) (1 ∷ 2 ∷ 3 ∷ 4 ∷ 5 ∷ [])
        ≡ 6457827717110365317 ∷ 3203168211198807973 ∷ 9817491932198370423
        ∷ 4593380528125082431 ∷ 16408922859458223821 ∷ [] }
{}

/// The document of two callers and of three entries, of which the second has the DNS name.
fn generated_document()
    ensures { document_text 2 (false ∷ true ∷ false ∷ [])
        ≡ codes "{\"version\":1,\"trust_domain\":\"sim.test\",\"bundles\":[{\"trust_domain\":\"sim.test\",\"x509\":\"c2lt\"}],\"entries\":["
        ++ codes "{\"id\":\"e00000\",\"spiffe_id\":\"spiffe://sim.test/w/0\",\"selectors\":[\"sim:caller:0\"],\"dns_names\":[],\"ttl\":3600},"
        ++ codes "{\"id\":\"e00001\",\"spiffe_id\":\"spiffe://sim.test/w/1\",\"selectors\":[\"sim:caller:1\"],\"dns_names\":[\"alt\"],\"ttl\":3600},"
        ++ codes "{\"id\":\"e00002\",\"spiffe_id\":\"spiffe://sim.test/w/2\",\"selectors\":[\"sim:caller:0\"],\"dns_names\":[],\"ttl\":3600}"
        ++ codes "]}" }
{}

/// A seed, so many entries, callers and steps, and what is counted.
type Case = (u64, [u32; 3], Counts);

const CASES: [Case; 5] = [
    (7, [1, 1, 0], ONE_PUBLICATION),
    // a wait, a claim that is answered, a wait, and the SETTINGS of a caller that sent nothing
    (
        0,
        [1, 1, 4],
        Counts {
            publications: 2,
            responses: 0,
            octets: 21,
        },
    ),
    // a call, a wait, a PING, a wait, and a turn at which there is no identity yet
    (
        1_234_567,
        [1, 1, 5],
        Counts {
            publications: 1,
            responses: 0,
            octets: 60,
        },
    ),
    // the most entries and callers
    (u64::MAX, [10_000, 32, 0], ONE_PUBLICATION),
    (7, [1, 32, 0], ONE_PUBLICATION),
];

/// A world in which nothing happened.
const ONE_PUBLICATION: Counts = Counts {
    publications: 1,
    responses: 0,
    octets: 0,
};

#[test]
fn simulations(rt: HostRuntime) -> Result<(), Fail> {
    for (seed, [entries, callers, steps], counts) in &CASES {
        let found = simulate(rt.alloc(), *seed, *entries, *callers, *steps)?;
        assert_eq!(rt; found, *counts, "{seed}");
    }
    Ok(())
}
