use aso_memory::NoMemory;
use aso_num::{List, Text};
use aso_outline::DimRef;
use thiserror::Error;

/// The tuples of an axis: the dimensions that each of them names, and for each tuple the numbers of its members in this order.
#[derive(Debug, Drop)]
pub struct AxisTuples {
    pub dims: List<DimRef>,
    pub rows: List<List<u32>>,
}

/// Why a set or a query has no tuples.
#[derive(Debug, Drop, Error)]
pub enum AxisFault {
    /// The first name in text order that no member has.
    #[error("unknown member {name:?}")]
    UnknownMember { name: Text },
    /// The first name in text order that breaks a rule of dimensions.
    #[error("wrong dimension: {name:?}")]
    Dimension { name: Text },
    /// There are more than 100,000 tuples or cells: so many, or 2^64 - 1 where they are more than that.
    #[error("{cells} tuples or cells are too many")]
    TooLarge { cells: u64 },
    /// No memory was left.
    #[error("no memory")]
    NoMemory(NoMemory),
}

impl From<NoMemory> for AxisFault {
    ghost use Rattle.std.specs.Prelude.{◌≡◌};
    ghost use Rattle.aso_axes.specs.declared.fault.AxisFault.TheVariants.{NoMemory as OutOfMemory};

    ghost from_gives = { λ e t. t ≡ OutOfMemory e };

    fn from(e: NoMemory) -> AxisFault {
        AxisFault::NoMemory(e)
    }
}
