// What a label-only member stands for, and which members are computed.
ghost use Rattle.std.specs.Prelude.{◌≡◌, ◌<◌, ◌≤◌, ◌^◌, drop, length};
ghost use Rattle.aso_outline.specs.Members.{past_labels, resolve, is_computed};
ghost use Rattle.aso_outline.specs.Small.{HasTrees};

use crate::draft::{Draft, DraftMember};
use crate::kinds::has_formula;
use crate::labels::is_dynamic;
use crate::seat::Seat;
use crate::trees::{is_childless, sound_tree};

/// The first place from `at` on that isn't label only.
fn past_labels(members: &[DraftMember], at: u32) -> u32
    requires { length members.now < 2 ^ 32 }
    ensures { result ≡ past_labels (drop at members.now) at }
{
    let mut place = at;
    while (place as usize) < members.len() && members[place as usize].label_only {
        place += 1;
    }
    place
}

/// The member itself, or what it stands for: the first below it that isn't label only.
pub fn resolve(draft: &Draft, seat: Seat) -> Seat
    requires { HasTrees draft.now }
    ensures { result ≡ resolve draft.now seat }
{
    match seat {
        Seat::Whole { dim } => Seat::Inner {
            dim,
            hier: 0,
            at: past_labels(
                sound_tree(
                    draft,
                    Seat::Inner {
                        dim,
                        hier: 0,
                        at: 0,
                    },
                ),
                0,
            ),
        },
        Seat::Inner { dim, hier, at } => Seat::Inner {
            dim,
            hier,
            at: past_labels(sound_tree(draft, seat), at),
        },
        Seat::Carried { attr, at } => Seat::Carried { attr, at },
    }
}

/// What it stands for has a formula or, in a dynamic hierarchy, children.
pub fn is_computed(draft: &Draft, seat: Seat) -> bool
    requires { HasTrees draft.now }
    ensures { result ≡ is_computed draft.now seat }
{
    let target = resolve(draft, seat);
    has_formula(draft, target) || is_dynamic(draft, target) && !is_childless(draft, target)
}
