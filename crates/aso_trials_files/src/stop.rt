// Where the trial of a cell file ends early.
use aso_cellfile::{BlockFault, OpenFault, WriteFault};
use aso_disk::{Failed, Trouble};
use aso_memory::NoMemory;
use aso_trials_cases::CaseFault;
use std::alloc::{AllocError, AllocFailed, Global};
use thiserror::Error;

/// The call that gives an error, and the error; or what is wrong with the case.
#[derive(Debug, Drop, Error)]
pub enum Stop {
    #[error("the case can't be tried")]
    Case(CaseFault),
    #[error("new: {0}")]
    New(Trouble),
    #[error("add: {0}")]
    Add(WriteFault),
    #[error("finish: {0}")]
    Finish(Trouble),
    #[error("find: {0}")]
    Find(Trouble),
    #[error("read: {0}")]
    Read(Failed),
    #[error("open: {0}")]
    Open(OpenFault),
    #[error("block: {0}")]
    Block(BlockFault),
    #[error("scan: {0}")]
    Scan(BlockFault),
}

impl From<CaseFault> for Stop {
    fn from(fault: CaseFault) -> Stop {
        Stop::Case(fault)
    }
}

impl From<NoMemory> for Stop {
    fn from(_error: NoMemory) -> Stop {
        Stop::Case(CaseFault::NoMemory)
    }
}

impl From<AllocError> for Stop {
    fn from(_error: AllocError) -> Stop {
        Stop::Case(CaseFault::NoMemory)
    }
}

impl<T: Drop> From<AllocFailed<T>> for Stop {
    fn from(_failed: AllocFailed<T>) -> Stop {
        Stop::Case(CaseFault::NoMemory)
    }
}

/// What a trial gives as text: what it tells, or where it ends.
pub fn outcome(alloc: Global, told: Result<String, Stop>) -> Result<String, CaseFault> {
    match told {
        Ok(text) => Ok(text),
        Err(Stop::Case(fault)) => Err(fault),
        Err(stop) => Ok(format!(in alloc; "{stop}")?),
    }
}
