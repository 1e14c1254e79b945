use aso_num::NoMemory;
use thiserror::Error;

/// Why a text gives no rules.
#[derive(Clone, Copy, Debug, PartialEq, Eq, Error)]
pub enum RulesFault {
    /// It is no JSON.
    #[error("the rules file is no JSON")]
    NotJson,
    /// The first rule of rules files that it breaks, 1 to 6.
    #[error("the rules file breaks rule {number}")]
    Rule { number: u8 },
    /// No memory was left.
    #[error("no memory")]
    NoMemory(NoMemory),
}

impl From<NoMemory> for RulesFault {
    ghost use Rattle.std.specs.Prelude.{◌≡◌};
    ghost use Rattle.aso_rules.specs.declared.fault.RulesFault.TheVariants.{NoMemory as OutOfMemory};

    ghost from_gives = { λ e t. t ≡ OutOfMemory e };

    fn from(e: NoMemory) -> RulesFault {
        RulesFault::NoMemory(e)
    }
}
