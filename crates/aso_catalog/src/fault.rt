ghost use Rattle.std.specs.Prelude.{◌≡◌};
ghost use Rattle.aso_catalog.specs.declared.fault.RecordFault.TheVariants.{NoMemory as OutOfMemory};

use aso_memory::NoMemory;
use std::alloc::{AllocError, AllocFailed};
use thiserror::Error;

/// Why bytes gave no record.
#[derive(Clone, Copy, Debug, PartialEq, Eq, Error)]
pub enum RecordFault {
    /// The bytes spell no record. The place is 0.
    #[error("a bad record at byte {at}")]
    Bad { at: usize },
    /// No memory was left.
    #[error("no memory")]
    NoMemory,
}

impl From<NoMemory> for RecordFault {
    ghost from_gives = { λ _ fault. fault ≡ OutOfMemory };

    fn from(_: NoMemory) -> RecordFault {
        RecordFault::NoMemory
    }
}

impl From<AllocError> for RecordFault {
    ghost from_gives = { λ _ fault. fault ≡ OutOfMemory };

    fn from(_: AllocError) -> RecordFault {
        RecordFault::NoMemory
    }
}

impl<T: Drop> From<AllocFailed<T>> for RecordFault {
    ghost from_gives = { λ _ fault. fault ≡ OutOfMemory };

    fn from(_: AllocFailed<T>) -> RecordFault {
        RecordFault::NoMemory
    }
}

/// Why a catalog could not be opened.
#[derive(Clone, Copy, Debug, PartialEq, Eq, Error)]
pub enum CatalogFault {
    /// The device has fewer bytes than the two areas.
    #[error("the catalog has {size} bytes")]
    Short { size: u64 },
    /// The open area holds no record. The place is 0.
    #[error("area {area} is bad at byte {at}")]
    BadArea { area: u8, at: u32 },
    /// Both areas are open and hold records of this layout.
    #[error("both areas have layout {layout}")]
    Twin { layout: u64 },
    /// A device call failed.
    #[error("a device call failed")]
    Fault,
    /// No memory was left.
    #[error("no memory")]
    NoMemory,
}

/// Why a record was not published.
#[derive(Clone, Copy, Debug, PartialEq, Eq, Error)]
pub enum PublishFault {
    /// A device call failed. The record is in doubt where its gate was begun to be opened.
    #[error("a device call failed")]
    Fault { in_doubt: bool },
    /// The current layout is the last.
    #[error("there is no greater layout")]
    SeqEnd,
}
