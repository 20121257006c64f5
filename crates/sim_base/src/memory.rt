use std::alloc::{AllocError, AllocFailed};

/// No memory was found. No clause says when: it is the one answer that any call that takes memory may give.
#[derive(Clone, Copy, Debug, PartialEq, Eq, thiserror::Error)]
#[error("no memory")]
pub struct OutOfMemory;

impl From<AllocError> for OutOfMemory {
    fn from(_error: AllocError) -> Self {
        OutOfMemory
    }
}

impl<T: Drop> From<AllocFailed<T>> for OutOfMemory {
    fn from(_failed: AllocFailed<T>) -> Self {
        OutOfMemory
    }
}

#[cfg(test)]
mod tests {
    use super::*;

    #[test]
    fn a_value_that_was_not_stored_is_no_memory(rt: HostRuntime) {
        let failed = AllocFailed { value: 7u8 };
        assert_eq!(rt; OutOfMemory::from(failed), OutOfMemory);
    }
}
