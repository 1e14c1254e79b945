use aso_memory::NoMemory;
use aso_num::Text;
use thiserror::Error;

/// Why a text is no formula, or none that an outline has. Places are bytes of the text, counted from 0.
#[derive(Debug, Drop, Error)]
pub enum FormulaFault {
    /// The place at which the first token begins that no formula has there, the first byte that begins no token, or the text's
    /// end.
    #[error("no formula: byte {at}")]
    Syntax { at: usize },
    /// The first name that no member of the outline has, and the place of its bracket.
    #[error("no member {name:?}: byte {at}")]
    Unknown { name: Text, at: usize },
    /// The place of the first atom that a formula of the dimension can't have: that of its bracket, or of its parenthesis.
    #[error("not one of the dimension: byte {at}")]
    Foreign { at: usize },
    /// No memory was left.
    #[error("no memory")]
    NoMemory(NoMemory),
}

impl From<NoMemory> for FormulaFault {
    ghost use Rattle.std.specs.Prelude.{◌≡◌};
    ghost use Rattle.aso_formula.specs.declared.fault.FormulaFault.TheVariants.{NoMemory as OutOfMemory};

    ghost from_gives = { λ e t. t ≡ OutOfMemory e };

    fn from(e: NoMemory) -> FormulaFault {
        FormulaFault::NoMemory(e)
    }
}
