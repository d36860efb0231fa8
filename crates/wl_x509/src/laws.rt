//! What holds of the definitions alone.

ghost use Rattle.std.specs.Prelude.{◌≡◌, ℕ, List, Err};
ghost use Rattle.wl_entry.specs.declared.unfit.CertFault.TheVariants.{Memory};
ghost use Rattle.wl_x509.specs.Encodings.{ReadsEncodings, ReadsEachEncoding};
ghost use Rattle.wl_x509.specs.Leaves.{leaf_of, ReadsLeaves, ReadsEachLeaf};

/// What is read at a place is the DER encoding of a content: the tag there, the length of the content in its one shortest
/// form, and the content. And each encoding that begins at a place, and ends no later than what holds it, is read.
pub fn values_are_encodings()
    ensures found { ReadsEncodings }
    ensures only { ReadsEachEncoding }
{}

/// What is read of a chain is the leaf that it has: the chain is the DER encoding of a certificate, which names this one
/// URI and has these times, and anything after it. And each leaf that a chain has is read.
pub fn leaves_are_certificates()
    ensures found { ReadsLeaves }
    ensures only { ReadsEachLeaf }
{}

/// What is read of a chain is never that memory ran out, so no reason that a leaf gives against an identity is that.
#[tactic(auto, using(crate::proofs::Faults::never_memory))]
pub fn faults_are_no_memory()
    ensures { (chain : List ℕ) → leaf_of chain ≡ Err Memory → ⊥ }
{}
