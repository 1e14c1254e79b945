use aso_memory::NoMemory;
use thiserror::Error;

/// Why a text is no sheet, or no outline.
#[derive(Clone, Copy, Debug, PartialEq, Eq, Error)]
pub enum SheetFault {
    /// The byte, counted from 0, at which the first faulty line begins, or the text's end where a line is lacking.
    #[error("the line at byte {at} can't stand there")]
    Line { at: usize },
    /// No memory was left.
    #[error("no memory")]
    NoMemory(NoMemory),
}

impl From<NoMemory> for SheetFault {
    ghost use Rattle.std.specs.Prelude.{◌≡◌};
    ghost use Rattle.aso_sheettext.specs.declared.fault.SheetFault.TheVariants.{NoMemory as OutOfMemory};

    ghost from_gives = { λ e t. t ≡ OutOfMemory e };

    fn from(e: NoMemory) -> SheetFault {
        SheetFault::NoMemory(e)
    }
}
