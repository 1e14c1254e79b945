use aso_memory::NoMemory;
use aso_outjson::JsonFault;
use thiserror::Error;

/// Why a text gives no outline.
#[derive(Debug, Drop, Error)]
pub enum TextFault {
    /// Its lines say none: the byte, counted from 0, at which the first faulty line begins.
    #[error("the line at byte {at} can't stand there")]
    Line { at: usize },
    /// The first rule of outlines that its lines' outline breaks, with the number of the least member that breaks it.
    #[error("the outline breaks rule {rule} at member {member}")]
    Refused { rule: u8, member: u32 },
    /// What stands in braces is the JSON of no outline.
    #[error("the text gives no outline")]
    Json(JsonFault),
    /// No memory was left.
    #[error("no memory")]
    NoMemory(NoMemory),
}

impl From<NoMemory> for TextFault {
    ghost use Rattle.std.specs.Prelude.{◌≡◌};
    ghost use Rattle.aso_outtext.specs.declared.fault.TextFault.TheVariants.{NoMemory as OutOfMemory};

    ghost from_gives = { λ e t. t ≡ OutOfMemory e };

    fn from(e: NoMemory) -> TextFault {
        TextFault::NoMemory(e)
    }
}
