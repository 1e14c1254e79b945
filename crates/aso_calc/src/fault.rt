use aso_memory::NoMemory;
use aso_outline::Tuple;
use thiserror::Error;

/// Why a tuple has no value.
#[derive(Debug, Drop, Error)]
pub enum CalcFault {
    /// A value that it needs, or its own, is past ±10^30 units. The tuple is the one that was asked.
    #[error("a value past the range of values")]
    Range { tuple: Tuple },
    /// No memory was left.
    #[error("no memory")]
    NoMemory(NoMemory),
}

impl From<NoMemory> for CalcFault {
    ghost use Rattle.std.specs.Prelude.{◌≡◌};
    ghost use Rattle.aso_calc.specs.declared.fault.CalcFault.TheVariants.{NoMemory as OutOfMemory};

    ghost from_gives = { λ e t. t ≡ OutOfMemory e };

    fn from(e: NoMemory) -> CalcFault {
        CalcFault::NoMemory(e)
    }
}
