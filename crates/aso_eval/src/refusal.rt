use aso_memory::NoMemory;
use aso_num::{List, Text as Name};
use aso_outtext::TextFault;
use aso_query::QueryRefusal;
use thiserror::Error;

/// Why a sheet has no grid.
#[derive(Debug, Drop, Error)]
pub enum SheetRefusal {
    /// The text is no sheet, or its outline breaks a rule.
    #[error("no sheet")]
    Text(TextFault),
    /// A name that no member has, a name that is wrong in its cell or axis, or a size.
    #[error("no grid")]
    Names(QueryRefusal),
    /// The names of the leaves of the least cell, in the order of leaf ordinals, whose amounts sum past the range of amounts, one for
    /// each base dimension in outline order, and the sum in units of 1/10000.
    #[error("an amount past the range of amounts")]
    Amount { names: List<Name>, sum: i128 },
}

/// Why there is no answer.
#[derive(Debug, Drop, Error)]
pub enum EvalFault {
    #[error("the sheet is refused")]
    Refused(SheetRefusal),
    /// No memory was left.
    #[error("no memory")]
    NoMemory(NoMemory),
}

impl From<NoMemory> for EvalFault {
    ghost use Rattle.std.specs.Prelude.{◌≡◌};
    ghost use Rattle.aso_eval.specs.declared.refusal.EvalFault.TheVariants.{NoMemory as OutOfMemory};

    ghost from_gives = { λ e t. t ≡ OutOfMemory e };

    fn from(e: NoMemory) -> EvalFault {
        EvalFault::NoMemory(e)
    }
}
