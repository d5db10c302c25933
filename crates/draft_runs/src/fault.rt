use node_store::StoreFault;
use std::alloc::{AllocError, AllocFailed};
use thiserror::Error;
use value_json::JsonFault;

/// Why a word of a call wasn't read.
#[derive(Debug, Drop, Error)]
pub enum WordFault {
    #[error("memory ran out")]
    Memory,
    /// The word is none that the call takes.
    #[error("the word is none that the call takes")]
    Unexpected,
}

impl From<AllocError> for WordFault {
    fn from(_: AllocError) -> Self {
        WordFault::Memory
    }
}

impl<T: Drop> From<AllocFailed<T>> for WordFault {
    fn from(_: AllocFailed<T>) -> Self {
        WordFault::Memory
    }
}

impl From<JsonFault> for WordFault {
    fn from(fault: JsonFault) -> Self {
        match fault {
            JsonFault::Memory => WordFault::Memory,
            JsonFault::Refused(_) => WordFault::Unexpected,
        }
    }
}

impl From<StoreFault> for WordFault {
    fn from(fault: StoreFault) -> Self {
        match fault {
            StoreFault::Memory => WordFault::Memory,
            StoreFault::Full => WordFault::Unexpected,
        }
    }
}
