// Why a record is rejected.
ghost use Rattle.std.specs.Prelude.{◌≡◌};
ghost use Rattle.aso_load.specs.Records.{fault_of, first_reason, lesser};

use crate::told::Told;

// The lesser reason of what was found and of one field more.
fn lesser(reason: Option<u8>, told: Told) -> Option<u8>
    ensures { result ≡ lesser reason (fault_of told) }
{
    match (reason, told) {
        (None, Told::Fault { reason }) => Some(reason),
        (Some(found), Told::Fault { reason }) => Some(found.min(reason)),
        (found, _) => found,
    }
}

/// The first reason that holds of some field.
pub fn first_reason(told: &[Told]) -> Option<u8>
    ensures { result ≡ first_reason told.now }
{
    let mut reason = None;
    for field in told {
        reason = lesser(reason, *field);
    }
    reason
}
