use aso_memory::NoMemory;
use thiserror::Error;

/// Why a text gives no outline.
#[derive(Debug, Drop, Error)]
pub enum JsonFault {
    /// It is no JSON.
    #[error("the outline is no JSON")]
    NotJson,
    /// The JSON Pointer of the first field that lacks, has a wrong value or has an unknown name.
    #[error("the outline is wrong at {path}")]
    Field { path: String },
    /// The first formula that is none: its member's number, and the byte at fault in its text, counted from 0. A number that 32
    /// bits don't hold is told as the greatest that they hold.
    #[error("the formula of member {member} is wrong at byte {at}")]
    Formula { member: u32, at: u32 },
    /// The first rule of outlines that it breaks, with the number of the least member that breaks it.
    #[error("the outline breaks rule {rule} at member {member}")]
    Refused { rule: u8, member: u32 },
    /// No memory was left.
    #[error("no memory")]
    NoMemory(NoMemory),
}

impl From<NoMemory> for JsonFault {
    ghost use Rattle.std.specs.Prelude.{◌≡◌};
    ghost use Rattle.aso_outjson.specs.declared.fault.JsonFault.TheVariants.{NoMemory as OutOfMemory};

    ghost from_gives = { λ e t. t ≡ OutOfMemory e };

    fn from(e: NoMemory) -> JsonFault {
        JsonFault::NoMemory(e)
    }
}
