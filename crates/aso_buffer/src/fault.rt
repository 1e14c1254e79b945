use aso_memory::NoMemory;
use aso_num::List;
use thiserror::Error;

/// Why a buffer gives no cells.
#[derive(Debug, Drop, Error)]
pub enum BufferFault {
    /// At these data leaves, one for each base dimension in outline order, the combined amount is out of the range of amounts. It is this
    /// many units of 1/10000.
    #[error("a combined amount past the range of amounts")]
    Range { leaves: List<u32>, sum: i128 },
    /// No memory was left.
    #[error("no memory")]
    NoMemory(NoMemory),
}

impl From<NoMemory> for BufferFault {
    ghost use Rattle.std.specs.Prelude.{◌≡◌};
    ghost use Rattle.aso_buffer.specs.declared.fault.BufferFault.TheVariants.{NoMemory as OutOfMemory};

    ghost from_gives = { λ e t. t ≡ OutOfMemory e };

    fn from(e: NoMemory) -> BufferFault {
        BufferFault::NoMemory(e)
    }
}
