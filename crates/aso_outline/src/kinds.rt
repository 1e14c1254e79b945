// O7: what stands in a stored hierarchy, and in an alternate one.
ghost use Rattle.std.specs.Prelude.{◌≡◌, ◌&&◌, ◌||◌, not, is_some};
ghost use Rattle.aso_outline.specs.Members.{has, is_dynamic};
ghost use Rattle.aso_outline.specs.Rules.{breaks_kinds, is_stored_kind, is_plus, is_skip, is_alternate, is_shared, is_under_label, has_formula};
ghost use Rattle.aso_outline.specs.Small.{HasTrees};

use crate::draft::{Draft, Op};
use crate::labels::{is_dynamic, is_under_label};
use crate::look::member_at;
use crate::seat::Seat;
use crate::trees::is_childless;

pub fn has_formula(draft: &Draft, seat: Seat) -> bool
    ensures { result ≡ has_formula draft.now seat }
{
    match member_at(draft, seat) {
        Some(member) => member.formula.is_some(),
        None => false,
    }
}

pub fn is_shared(draft: &Draft, seat: Seat) -> bool
    ensures { result ≡ is_shared draft.now seat }
{
    match member_at(draft, seat) {
        Some(member) => member.shared,
        None => false,
    }
}

fn is_plus(draft: &Draft, seat: Seat) -> bool
    ensures { result ≡ has (λ m. is_plus m.op) draft.now seat }
{
    match member_at(draft, seat) {
        Some(member) => match member.op {
            Op::Plus => true,
            _ => false,
        },
        None => false,
    }
}

fn is_skip(draft: &Draft, seat: Seat) -> bool
    ensures { result ≡ has (λ m. is_skip m.op) draft.now seat }
{
    match member_at(draft, seat) {
        Some(member) => match member.op {
            Op::Skip => true,
            _ => false,
        },
        None => false,
    }
}

/// No formula, and the operator `+`; beneath a label-only parent, and for a root, `~` serves as well.
fn is_stored_kind(draft: &Draft, seat: Seat) -> bool
    ensures { result ≡ is_stored_kind draft.now seat }
{
    !has_formula(draft, seat)
        && (is_plus(draft, seat) || is_skip(draft, seat) && is_under_label(draft, seat))
}

/// The member stands in a hierarchy that isn't the first of its dimension.
pub fn is_alternate(seat: Seat) -> bool
    ensures { result ≡ is_alternate seat }
{
    match seat {
        Seat::Inner { hier, .. } => hier > 0,
        _ => false,
    }
}

fn is_allowed_leaf(draft: &Draft, seat: Seat) -> bool
    ensures { result ≡ (is_shared draft.now seat || (is_dynamic draft.now seat && has_formula draft.now seat)) }
{
    is_shared(draft, seat) || is_dynamic(draft, seat) && has_formula(draft, seat)
}

/// O7: a formula or an operator that a stored hierarchy doesn't have, or a leaf that an alternate one doesn't have.
pub fn breaks_kinds(draft: &Draft, seat: Seat) -> bool
    requires { HasTrees draft.now }
    ensures { result ≡ breaks_kinds draft.now seat }
{
    let Seat::Inner { .. } = seat else {
        return false;
    };
    let fits = is_dynamic(draft, seat) || is_stored_kind(draft, seat);
    let is_other_leaf = is_alternate(seat) && is_childless(draft, seat);
    !(fits && (!is_other_leaf || is_allowed_leaf(draft, seat)))
}
