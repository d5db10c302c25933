//! What a call's answer is printed as.
use draft_core::DraftFault;
use draft_runs::name_of;
use std::alloc::{AllocError, Global};

/// `done`, or the refusal's name.
pub(crate) fn done(alloc: Global, answer: Result<(), DraftFault>) -> Result<String, AllocError> {
    match answer {
        Ok(()) => String::from_str(alloc, "done"),
        Err(fault) => String::from_str(alloc, name_of(fault)),
    }
}

/// `true`, `false`, or the refusal's name.
pub(crate) fn truth(alloc: Global, answer: Result<bool, DraftFault>) -> Result<String, AllocError> {
    match answer {
        Ok(b) => String::from_str(alloc, if b { "true" } else { "false" }),
        Err(fault) => String::from_str(alloc, name_of(fault)),
    }
}

/// A count, or the refusal's name.
pub(crate) fn count(alloc: Global, answer: Result<u64, DraftFault>) -> Result<String, AllocError> {
    match answer {
        Ok(n) => format!(in alloc; "{n}"),
        Err(fault) => String::from_str(alloc, name_of(fault)),
    }
}

/// An index, or the refusal's name.
pub(crate) fn index(alloc: Global, answer: Result<i64, DraftFault>) -> Result<String, AllocError> {
    match answer {
        Ok(n) => format!(in alloc; "{n}"),
        Err(fault) => String::from_str(alloc, name_of(fault)),
    }
}
