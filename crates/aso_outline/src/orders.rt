// O9: solve orders.
ghost use Rattle.std.specs.Prelude.{◌≡◌, ◌&&◌, not, nat_le, unwrap_or, is_some};
ghost use Rattle.aso_outline.specs.Members.{has, is_computed};
ghost use Rattle.aso_outline.specs.Rules.{breaks_orders};
ghost use Rattle.aso_outline.specs.Small.{HasTrees};

use crate::draft::{Draft, DraftMember};
use crate::look::member_at;
use crate::resolve::is_computed;
use crate::seat::Seat;

fn is_wrong_order(member: &DraftMember, is_computed: bool) -> bool
    ensures { result ≡ (is_some member.now.solve && not (nat_le (unwrap_or member.now.solve 0) 127 && (is_computed && not member.now.label_only))) }
{
    match member.solve {
        Some(order) => !(order <= 127 && is_computed && !member.label_only),
        None => false,
    }
}

/// O9: a solve order past 127, or on a member that is label only or isn't computed.
pub fn breaks_orders(draft: &Draft, seat: Seat) -> bool
    requires { HasTrees draft.now }
    ensures { result ≡ breaks_orders draft.now seat }
{
    match member_at(draft, seat) {
        Some(member) => is_wrong_order(member, is_computed(draft, seat)),
        None => false,
    }
}
