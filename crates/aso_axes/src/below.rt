// The members at or below a member have the numbers from its own on.
ghost use Rattle.std.specs.Prelude.{◌≡◌, ◌<◌, ◌≤◌, ◌+◌, ◌-◌, ◌^◌, length};
ghost use Rattle.std.specs.List.{range_with_len};
ghost use Rattle.aso_tree.specs.Trees.{IsTree, under};
ghost use Rattle.aso_outline.specs.declared.seat.Seat.TheVariants.{Whole};
ghost use Rattle.aso_outline.specs.Members.{parents_of, place_of as place_in, seats, tree_of};
ghost use Rattle.aso_outline.specs.Numbers.{IsNumberOf, IsSeat, seat_of};
ghost use Rattle.aso_axes.specs.Members.{below};

use aso_outline::{DraftMember, Outline, Seat};
use aso_tree::is_under;

/// One past the last node of a tree that is the node or lies below it.
fn end_of(tree: &[DraftMember], place: u32) -> u32
    requires short { length tree.now < 2 ^ 32 }
    requires tree { IsTree (parents_of tree.now) }
    requires within { place < length tree.now }
    ensures places { under (parents_of tree.now) place ≡ range_with_len place (result - place) }
    ensures above { place < result }
    ensures bound { result ≤ length tree.now }
{
    let len = tree.len() as u32;
    let mut end = place + 1;
    while end < len && is_under(tree, place, end) {
        end += 1;
    }
    end
}

fn place_of(seat: Seat) -> u32
    ensures { result ≡ place_in seat }
{
    match seat {
        Seat::Whole { .. } => 0,
        Seat::Inner { at, .. } => at,
        Seat::Carried { at, .. } => at,
    }
}

fn length_of(tree: &[DraftMember]) -> u32
    requires { length tree.now < 2 ^ 32 }
    ensures { result ≡ length tree.now }
{
    tree.len() as u32
}

fn end_in_tree(outline: &Outline, m: u32, seat: Seat) -> u32
    requires there { IsSeat outline.now seat }
    requires number { IsNumberOf outline.now seat m }
    requires placed { place_in seat < length (tree_of outline.now seat) }
    ensures members { below outline.now m seat ≡ range_with_len m (result - m) }
    ensures above { m < result }
    ensures bound { result ≤ length (seats outline.now) }
{
    outline.keeps_counts();
    let tree = outline.tree(seat);
    let place = place_of(seat);
    let end = end_of(tree, place);
    m + (end - place)
}

fn end_of_dim(outline: &Outline, m: u32, dim: u32) -> u32
    requires there { IsSeat outline.now (Whole dim) }
    requires number { IsNumberOf outline.now (Whole dim) m }
    ensures members { below outline.now m (Whole dim) ≡ range_with_len m (result - m) }
    ensures above { m < result }
    ensures bound { result ≤ length (seats outline.now) }
{
    outline.keeps_roots();
    outline.keeps_counts();
    outline.keeps_numbers();
    let hiers = outline.hiers(dim);
    let last = Seat::Inner {
        dim,
        hier: hiers - 1,
        at: 0,
    };
    let first = outline.number(last);
    let tree = outline.tree(last);
    let len = length_of(tree);
    first + len
}

/// One past the number of the last member that is the member or lies below it.
pub fn end_below(outline: &Outline, m: u32) -> u32
    requires { m < length (seats outline.now) }
    ensures members { below outline.now m (seat_of outline.now m) ≡ range_with_len m (result - m) }
    ensures above { m < result }
    ensures bound { result ≤ length (seats outline.now) }
{
    let seat = outline.seat(m);
    match seat {
        Seat::Whole { dim } => end_of_dim(outline, m, dim),
        Seat::Inner { .. } => end_in_tree(outline, m, seat),
        Seat::Carried { .. } => end_in_tree(outline, m, seat),
    }
}
