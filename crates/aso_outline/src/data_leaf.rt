// Which members are data leaves.
ghost use Rattle.std.specs.Prelude.{◌≡◌, is_none};
ghost use Rattle.aso_outline.specs.Members.{has, is_data_leaf};
ghost use Rattle.aso_outline.specs.Small.{HasTrees};

use crate::draft::Draft;
use crate::look::member_at;
use crate::seat::Seat;
use crate::trees::is_childless;

fn is_without_formula(draft: &Draft, seat: Seat) -> bool
    ensures { result ≡ has (λ m. is_none m.formula) draft.now seat }
{
    match member_at(draft, seat) {
        Some(member) => member.formula.is_none(),
        None => false,
    }
}

/// The member is a leaf of a dimension's first hierarchy and has no formula.
pub fn is_data_leaf(draft: &Draft, seat: Seat) -> bool
    requires { HasTrees draft.now }
    ensures { result ≡ is_data_leaf draft.now seat }
{
    match seat {
        Seat::Inner { hier: 0, .. } => is_childless(draft, seat) && is_without_formula(draft, seat),
        _ => false,
    }
}
