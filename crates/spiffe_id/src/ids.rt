//! SPIFFE IDs.

ghost use Rattle.std.specs.Prelude.{◌≡◌, ◌≤◌, ℕ, List, length, drop, IfOk, IfErr};
ghost use Rattle.spiffe_id.specs.Grammar.{path_of, IsIdOf, IsId};
ghost use Rattle.spiffe_id.specs.Faults.{id_fault, id_domain, id_path, Reads};

use crate::faults::IdFault;
use crate::finding::{cut, fault_of_id};
use std::alloc::Global;
use std::marker::Model;
use wl_octets::{Memory, Octets, TryClone};

/// A SPIFFE ID: `spiffe://`, a trust domain name and a path (SPIFFE-ID, section 2), at most 2,048
/// bytes (own rule). Two are ordered by their bytes.
#[derive(Drop, PartialEq, Eq, PartialOrd, Ord)]
pub struct SpiffeId {
    text: Octets,
}

impl Model for SpiffeId {
    ghost use Rattle.std.specs.Prelude.{◌≡◌, List, ℕ, None};
    ghost use Rattle.spiffe_id.specs.Faults.{id_fault};

    ghost Value = { List ℕ };

    ghost view = { λ i. i.text };

    ghost invariant = { λ i. id_fault i.text ≡ None };

    ghost inverse = { λ text. record { text = text } };
}

impl SpiffeId {
    /// Reads an id. A text that is none has its first fault.
    pub fn parse(alloc: Global, text: &[u8]) -> Result<SpiffeId, IdFault>
        ensures reads { Reads text.now (id_fault text.now) result }
        ensures refused { IfErr result (λ e. IsId text.now → e ≡ IdFault.Memory) }
    {
        match fault_of_id(text) {
            Some(fault) => Err(fault),
            None => Ok(SpiffeId {
                text: Octets::from_slice(alloc, text)?,
            }),
        }
    }

    /// The bytes of the whole id.
    pub fn as_bytes(&self) -> &[u8]
        ensures value { result.now ≡ self.now }
        ensures id { IsId self.now }
    {
        self.text.as_slice()
    }

    /// What follows the scheme.
    fn parts(&self) -> &[u8]
        ensures { result.now ≡ drop 9 self.now }
    {
        &self.text.as_slice()[9..]
    }

    /// The name of its trust domain, which is a prefix of what follows the scheme.
    #[tactic(auto, unfolding(crate::specs::Faults::id_domain))]
    fn name(&self) -> &[u8]
        ensures value { result.now ≡ id_domain self.now }
        ensures prefix { length result.now ≤ length (drop 9 self.now) }
    {
        let parts = self.parts();
        match cut(parts) {
            Some((name, _)) => name,
            None => parts,
        }
    }

    /// The name of its trust domain.
    pub fn domain(&self) -> &[u8]
        ensures value { result.now ≡ id_domain self.now }
        ensures grammar { (name : List ℕ) (segments : List (List ℕ)) → IsIdOf name segments self.now
            → result.now ≡ name }
    {
        self.name()
    }

    /// Its path, with the leading `/`; empty where there is none.
    #[tactic(auto, unfolding(crate::specs::Faults::id_path))]
    pub fn path(&self) -> &[u8]
        ensures value { result.now ≡ id_path self.now }
        ensures grammar { (name : List ℕ) (segments : List (List ℕ)) → IsIdOf name segments self.now
            → result.now ≡ path_of segments }
    {
        &self.parts()[self.name().len()..]
    }

    /// A copy.
    pub fn copy(&self, alloc: Global) -> Result<SpiffeId, Memory>
        ensures { IfOk result (λ i. i ≡ self.now) }
    {
        Ok(SpiffeId {
            text: self.text.copy(alloc)?,
        })
    }
}

impl TryClone for SpiffeId {
    fn try_clone(&self, alloc: Global) -> Result<SpiffeId, Memory> {
        self.copy(alloc)
    }
}
