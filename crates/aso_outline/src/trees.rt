// O4: trees in preorder; and which members have no child.
ghost use Rattle.std.specs.Prelude.{◌≡◌, ◌<◌, ◌^◌, length};
ghost use Rattle.aso_tree.specs.Trees.{IsTree};
ghost use Rattle.aso_outline.specs.Members.{is_childless, parents_of, place_of, tree_of};
ghost use Rattle.aso_outline.specs.Rules.{breaks_preorder};
ghost use Rattle.aso_outline.specs.Small.{HasTrees};

use crate::draft::{Draft, DraftMember};
use crate::look::tree_of;
use crate::seat::Seat;
use aso_tree::{Node, is_leaf, is_misplaced};

impl Node for DraftMember {
    ghost use Rattle.aso_outline.specs.Members.{parents_of};
    ghost use Rattle.aso_outline.specs.Parents.{one_parent_each};

    ghost parents_in = { parents_of };

    ghost one_each = { one_parent_each };

    fn parent_at(nodes: &[DraftMember], node: u32) -> u32 {
        nodes[node as usize].parent
    }
}

/// The place of a member in its tree.
pub fn place_of(seat: Seat) -> u32
    ensures { result ≡ place_of seat }
{
    match seat {
        Seat::Whole { .. } => 0,
        Seat::Inner { at, .. } => at,
        Seat::Carried { at, .. } => at,
    }
}

/// The tree in which a seat stands, where all trees are trees.
pub fn sound_tree(draft: &Draft, seat: Seat) -> &[DraftMember]
    requires { HasTrees draft.now }
    ensures value { result.now ≡ tree_of draft.now seat }
    ensures tree { IsTree (parents_of result.now) }
    ensures short { length result.now < 2 ^ 32 }
{
    tree_of(draft, seat)
}

/// O4: the member is out of preorder, or too deep.
pub fn breaks_preorder(draft: &Draft, seat: Seat) -> bool
    ensures { result ≡ breaks_preorder draft.now seat }
{
    let tree = tree_of(draft, seat);
    let place = place_of(seat);
    (place as usize) < tree.len() && is_misplaced(tree, place)
}

/// The member has no child.
pub fn is_childless(draft: &Draft, seat: Seat) -> bool
    requires { HasTrees draft.now }
    ensures { result ≡ is_childless draft.now seat }
{
    let tree = tree_of(draft, seat);
    let place = place_of(seat);
    (place as usize) < tree.len() && is_leaf(tree, place)
}
