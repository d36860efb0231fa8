//! One more of what several parts hold.

use std::sync::Arc;
use wl_octets::Memory;

/// A copy of the runtime.
pub(crate) fn copy_of<R: Clone>(rt: &R) -> Result<R, Memory> {
    match rt.clone() {
        Ok(rt) => Ok(rt),
        Err(_) => Err(Memory),
    }
}

/// One more owner of it.
pub(crate) fn one_more<T>(owned: &Arc<T>) -> Result<Arc<T>, Memory> {
    match Arc::try_clone(owned) {
        Ok(owned) => Ok(owned),
        Err(_) => Err(Memory),
    }
}
