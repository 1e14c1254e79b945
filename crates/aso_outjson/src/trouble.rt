ghost use Rattle.std.specs.Prelude.{◌≡◌, IfOk, string_bytes};
ghost use Rattle.std.specs.Fmt.{decimal};
ghost use Rattle.aso_outjson.specs.declared.trouble.Trouble.TheVariants.{Memory};

use crate::path::Path;
use aso_memory::NoMemory;
use std::alloc::{AllocError, AllocFailed, Global};
use std::fmt::Write;

/// Why a part could not be read.
#[derive(Debug, Drop)]
pub enum Trouble {
    Memory,
    /// It has a fault at this place.
    Fault(Path),
}

impl From<NoMemory> for Trouble {
    ghost from_gives = { λ _ t. t ≡ Memory };

    fn from(_: NoMemory) -> Trouble {
        Trouble::Memory
    }
}

impl From<AllocError> for Trouble {
    ghost from_gives = { λ _ t. t ≡ Memory };

    fn from(_: AllocError) -> Trouble {
        Trouble::Memory
    }
}

impl<T: Drop> From<AllocFailed<T>> for Trouble {
    ghost from_gives = { λ _ t. t ≡ Memory };

    fn from(_: AllocFailed<T>) -> Trouble {
        Trouble::Memory
    }
}

impl Trouble {
    ghost use Rattle.std.specs.Prelude.{[]};
    ghost use Rattle.aso_outjson.specs.declared.trouble.Trouble.TheVariants.{Fault};
    ghost use Rattle.aso_outjson.specs.Gives.{IsUnder};

    /// The part itself is at fault.
    pub fn here(alloc: Global) -> Trouble
        ensures { result ≡ Fault [] }
    {
        Trouble::Fault(Path::here(alloc))
    }

    /// The trouble of the part that has this one's under a name.
    pub fn under(self, alloc: Global, name: &str) -> Trouble
        ensures { IsUnder name.now self result }
    {
        match self {
            Trouble::Memory => Trouble::Memory,
            Trouble::Fault(path) => match path.under(alloc, name) {
                Ok(path) => Trouble::Fault(path),
                Err(_) => Trouble::Memory,
            },
        }
    }

    /// The trouble of the part that has this one's at the item of a number.
    pub fn under_number(self, alloc: Global, number: usize) -> Trouble
        ensures { IsUnder (decimal number) self result }
    {
        match decimal(alloc, number) {
            Ok(name) => self.under(alloc, name.as_str()),
            Err(_) => Trouble::Memory,
        }
    }
}

fn decimal(alloc: Global, number: usize) -> Result<String, AllocError>
    ensures { IfOk result (λ s. string_bytes s ≡ decimal number) }
{
    let mut text = String::new(alloc);
    write!(text, "{number}")?;
    Ok(text)
}
