use aso_memory::NoMemory;
use aso_num::{List, Text};
use thiserror::Error;

/// Why a query is refused.
#[derive(Debug, Drop, Error)]
pub enum QueryRefusal {
    /// The first name in text order that no member has.
    #[error("unknown member {name:?}")]
    UnknownMember { name: Text },
    /// The first name in text order that breaks a rule of dimensions.
    #[error("wrong dimension: {name:?}")]
    Dimension { name: Text },
    /// The formula of the query's own member of this name: the byte at fault, counted in the formula's text from 0; 0 where the name
    /// is in use or the formula goes too deep.
    #[error("the formula of {name:?} is wrong at byte {at}")]
    Formula { name: Text, at: usize },
    /// More than 100,000 columns, rows or cells: so many, or 2^64 - 1 where they are more than that.
    #[error("{cells} cells are too many")]
    TooLarge { cells: u64 },
    /// The names of the members of the first cell, row by row, whose value is past ±10^30 units: one for each base dimension,
    /// in outline order, and then those of the attribute dimensions that are asked.
    #[error("a value past the range of values")]
    Range { names: List<Text> },
}

/// Why there is no answer.
#[derive(Debug, Drop, Error)]
pub enum AskFault {
    #[error("the query is refused")]
    Refused(QueryRefusal),
    /// No memory was left.
    #[error("no memory")]
    NoMemory(NoMemory),
}

impl From<NoMemory> for AskFault {
    ghost use Rattle.std.specs.Prelude.{◌≡◌};
    ghost use Rattle.aso_query.specs.declared.refusal.AskFault.TheVariants.{NoMemory as OutOfMemory};

    ghost from_gives = { λ e t. t ≡ OutOfMemory e };

    fn from(e: NoMemory) -> AskFault {
        AskFault::NoMemory(e)
    }
}
