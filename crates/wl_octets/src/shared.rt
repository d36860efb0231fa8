//! Parts that several values share.

ghost use Rattle.std.specs.Prelude.{◌≡◌, IfOk, IfErr};

use crate::memory::Memory;
use std::alloc::{AllocFailed, Global};
use std::marker::Model;
use std::ops::Deref;
use std::sync::Arc;

/// A part that several values share. A contract sees the part itself.
#[derive(Drop)]
pub struct Shared<T> {
    part: Arc<T>,
}

impl<T> Model for Shared<T> {
    ghost use Rattle.std.specs.Arc.{arc_value};

    ghost Value = { T };

    ghost coded = { T.code };

    ghost view = { λ s. arc_value s.part };
}

impl<T> Shared<T> {
    /// Makes a part that can be shared; when memory runs out it is given back.
    pub fn new(alloc: Global, part: T) -> Result<Shared<T>, (T, Memory)>
        ensures ok { IfOk result (λ s. s ≡ part) }
        ensures back { IfErr result (λ e. e.0 ≡ part) }
    {
        match Arc::new(alloc, part) {
            Ok(part) => Ok(Shared { part }),
            Err(AllocFailed { value }) => Err((value, Memory)),
        }
    }

    /// The part.
    pub fn part(&self) -> &T
        ensures { result.now ≡ self.now }
    {
        &self.part
    }
}

impl<T: Drop> Shared<T> {
    /// One more owner of the same part.
    pub fn share(&self) -> Result<Shared<T>, Memory>
        ensures { IfOk result (λ s. s ≡ self.now) }
    {
        Ok(Shared {
            part: self.part.clone()?,
        })
    }
}

impl<T: PartialEq> PartialEq for Shared<T> {
    ghost eq = { T.eq };

    ghost laws = { T.laws };

    fn eq(&self, other: &Shared<T>) -> bool {
        let a: &T = &self.part;
        let b: &T = &other.part;
        a == b
    }
}

impl<T: Eq> Eq for Shared<T> {
    ghost laws = { T.Eq.laws };
}
