//! What calls answer, in words.

use crate::Answer;
use sd_io::DiskFault;
use std::alloc::Global;

/// A text as an answer.
pub fn said(alloc: Global, text: &str) -> Answer {
    Ok(Some(text.as_bytes().to_vec(alloc)?))
}

/// The name of a fault.
pub fn refused(alloc: Global, fault: DiskFault) -> Answer {
    Ok(Some(format!(in alloc; "{fault:?}")?.into_bytes()))
}

/// `done`, or the name of the fault.
pub fn done(alloc: Global, answer: Result<(), DiskFault>) -> Answer {
    match answer {
        Ok(()) => said(alloc, "done"),
        Err(fault) => refused(alloc, fault),
    }
}

/// Bytes, or the name of the fault.
pub fn bytes(alloc: Global, answer: Result<Vec<u8>, DiskFault>) -> Answer {
    match answer {
        Ok(bytes) => Ok(Some(bytes)),
        Err(fault) => refused(alloc, fault),
    }
}
