//! A bell that several ring.

use crate::owners::one_more;
use std::sync::Arc;
use wl_edge::Bell;
use wl_edge_real::RealBell;
use wl_octets::Memory;

/// A bell of which there are several owners.
#[derive(Drop)]
pub struct SharedBell {
    bell: Arc<RealBell>,
}

impl SharedBell {
    /// This bell.
    pub(crate) fn share(bell: &Arc<RealBell>) -> Result<SharedBell, Memory> {
        let bell = one_more(bell)?;
        Ok(SharedBell { bell })
    }
}

impl Bell for SharedBell {
    fn ring(&self) {
        self.bell.ring();
    }
}
