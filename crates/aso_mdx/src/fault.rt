use aso_memory::NoMemory;
use thiserror::Error;

/// Why a text is no query, or no set.
#[derive(Clone, Copy, Debug, PartialEq, Eq, Error)]
pub enum SyntaxFault {
    /// The byte, counted from 0, at which the first token begins that can't stand there, the first byte that begins no
    /// token, or the text's end.
    #[error("syntax: byte {at}")]
    Syntax { at: usize },
    /// No memory was left.
    #[error("no memory")]
    NoMemory(NoMemory),
}

impl From<NoMemory> for SyntaxFault {
    ghost use Rattle.std.specs.Prelude.{◌≡◌};
    ghost use Rattle.aso_mdx.specs.declared.fault.SyntaxFault.TheVariants.{NoMemory as OutOfMemory};

    ghost from_gives = { λ e t. t ≡ OutOfMemory e };

    fn from(e: NoMemory) -> SyntaxFault {
        SyntaxFault::NoMemory(e)
    }
}
