// What may be wrong with a file of cases.
use aso_memory::NoMemory;
use std::alloc::{AllocError, AllocFailed};
use std::io;
use thiserror::Error;

/// Why cases can't be read, or a trial can't go on.
#[derive(Debug, Drop, Error)]
pub enum CaseFault {
    #[error("no memory")]
    NoMemory,
    #[error("a file can't be read, or the output not be written")]
    Io,
    #[error("the file holds no JSON list")]
    NoList,
    /// The field is missing, or of another type.
    #[error("a case has no such field: {name}")]
    Field { name: &'static str },
    #[error("a value of a case is out of form")]
    Value,
}

impl From<AllocError> for CaseFault {
    fn from(_error: AllocError) -> CaseFault {
        CaseFault::NoMemory
    }
}

impl From<NoMemory> for CaseFault {
    fn from(_error: NoMemory) -> CaseFault {
        CaseFault::NoMemory
    }
}

impl<T: Drop> From<AllocFailed<T>> for CaseFault {
    fn from(_failed: AllocFailed<T>) -> CaseFault {
        CaseFault::NoMemory
    }
}

impl From<io::Error> for CaseFault {
    fn from(_error: io::Error) -> CaseFault {
        CaseFault::Io
    }
}
