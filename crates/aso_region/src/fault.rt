use aso_memory::NoMemory;
use aso_num::Text;
use thiserror::Error;

/// Why a text is no region.
#[derive(Debug, Drop, Error)]
pub enum RegionFault {
    /// The byte, counted from 0, at which the first token begins that can't stand there, the first byte that begins no
    /// token, or the text's end.
    #[error("syntax: byte {at}")]
    Syntax { at: usize },
    /// The first name in text order that no member has.
    #[error("unknown member {name:?}")]
    UnknownMember { name: Text },
    /// The first name in text order that breaks a rule of dimensions, or is that of a computed member or of one of an attribute
    /// dimension.
    #[error("wrong dimension: {name:?}")]
    Dimension { name: Text },
    /// There are more than 100,000 tuples: so many, or 2^64 - 1 where they are more than that.
    #[error("{cells} tuples are too many")]
    TooLarge { cells: u64 },
    /// No memory was left.
    #[error("no memory")]
    NoMemory(NoMemory),
}

impl From<NoMemory> for RegionFault {
    ghost use Rattle.std.specs.Prelude.{◌≡◌};
    ghost use Rattle.aso_region.specs.declared.fault.RegionFault.TheVariants.{NoMemory as OutOfMemory};

    ghost from_gives = { λ e t. t ≡ OutOfMemory e };

    fn from(e: NoMemory) -> RegionFault {
        RegionFault::NoMemory(e)
    }
}
