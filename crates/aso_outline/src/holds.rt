// Which data leaves a member holds.
ghost use Rattle.std.specs.Prelude.{◌≡◌, ◌<◌, ◌&&◌, ◌^◌, length};
ghost use Rattle.aso_tree.specs.Trees.{is_under, IsTree};
ghost use Rattle.aso_outline.specs.Leaves.{name_in};
ghost use Rattle.aso_outline.specs.Members.{has_under, parents_of, same_name};

use crate::draft::DraftMember;
use crate::labels::is_dynamic;
use crate::outline::Outline;
use crate::seat::Seat;
use aso_tree::{is_leaf, is_under};

/// The member at a place has the name.
fn is_named(members: &[DraftMember], place: u32, name: &str) -> bool
    requires { place < length members.now }
    ensures { result ≡ same_name name.now (name_in members.now place) }
{
    name == members[place as usize].name.as_str()
}

/// The member at a place has the name and lies at or below the top.
fn is_named_below(members: &[DraftMember], top: u32, place: u32, name: &str) -> bool
    requires { place < length members.now }
    ensures { result ≡ (is_under (parents_of members.now) top place && same_name name.now (name_in members.now place)) }
{
    is_under(members, top, place) && is_named(members, place, name)
}

/// Some member at or below the top has the name.
fn any_named_below(members: &[DraftMember], top: u32, name: &str) -> bool
    requires { length members.now < 2 ^ 32 }
    ensures { result ≡ has_under members.now top name.now }
{
    for place in 0..members.len() as u32 {
        if is_named_below(members, top, place, name) {
            return true;
        }
    }
    false
}

/// The same, at once where the top is a leaf.
fn has_under(members: &[DraftMember], top: u32, name: &str) -> bool
    requires short { length members.now < 2 ^ 32 }
    requires tree { IsTree (parents_of members.now) }
    requires within { top < length members.now }
    ensures { result ≡ has_under members.now top name.now }
{
    if is_leaf(members, top) {
        return is_named(members, top, name);
    }
    any_named_below(members, top, name)
}

impl Outline {
    ghost use Rattle.std.specs.Prelude.{◌≡◌, ◌<◌, length, slice_index, false};
    ghost use Rattle.aso_outline.specs.declared.seat.Seat.TheVariants.{Inner};
    ghost use Rattle.aso_outline.specs.Classes.{holds_place, leaf_count};
    ghost use Rattle.aso_outline.specs.Leaves.{name_in};
    ghost use Rattle.aso_outline.specs.Members.{data_leaves, dim_at, holds, is_dynamic, seats, tree};
    ghost use Rattle.aso_outline.specs.Numbers.{IsSeat, seat_of};

    /// The hierarchy is dynamic.
    pub fn is_dynamic(&self, dim: u32, hier: u32) -> bool
        requires dim { dim < length self.now.dims }
        requires hier { hier < length (dim_at self.now dim).hiers }
        ensures { result ≡ is_dynamic self.now (Inner dim hier 0) }
    {
        is_dynamic(self.sound_draft(), Seat::Inner { dim, hier, at: 0 })
    }

    fn leaf_name(&self, dim: u32, leaf: u32) -> &str
        requires dim { dim < length self.now.dims }
        requires leaf { leaf < leaf_count self.now dim }
        ensures { result.now ≡ name_in (tree (dim_at self.now dim) 0) (slice_index (data_leaves (dim_at self.now dim)) leaf) }
    {
        let members = self.tree(Seat::Inner {
            dim,
            hier: 0,
            at: 0,
        });
        members[self.own_place(dim, leaf) as usize].name.as_str()
    }

    fn holds_by_name(&self, dim: u32, hier: u32, at: u32, leaf: u32) -> bool
        requires there { IsSeat self.now (Inner dim hier at) }
        requires leaf { leaf < leaf_count self.now dim }
        ensures { result ≡ holds_place self.now dim hier at leaf }
    {
        let members = self.tree(Seat::Inner { dim, hier, at });
        has_under(members, at, self.leaf_name(dim, leaf))
    }

    fn holds_by_place(&self, dim: u32, hier: u32, at: u32, leaf: u32) -> bool
        requires there { IsSeat self.now (Inner dim hier at) }
        requires leaf { leaf < leaf_count self.now dim }
        requires stored { 0 < hier → is_dynamic self.now (Inner dim hier 0) ≡ false }
        ensures { result ≡ holds_place self.now dim hier at leaf }
    {
        self.keeps();
        match self.leaf_place(dim, hier, leaf) {
            Some(place) => self.tree_table(dim, hier).forest.is_under(place, at),
            None => false,
        }
    }

    fn holds_at(&self, dim: u32, hier: u32, at: u32, leaf: u32) -> bool
        requires { IsSeat self.now (Inner dim hier at) }
        ensures { result ≡ holds_place self.now dim hier at leaf }
    {
        if leaf >= self.leaf_count(dim) {
            return false;
        }
        if hier == 0 {
            return self.holds_by_place(dim, hier, at, leaf);
        }
        if self.is_dynamic(dim, hier) {
            return self.holds_by_name(dim, hier, at, leaf);
        }
        self.holds_by_place(dim, hier, at, leaf)
    }

    /// The member holds the data leaf of its dimension that has this ordinal: it lies at or below what the member stands for.
    /// Of a stored member this takes a climb; of a computed member of an alternate hierarchy a pass over the hierarchy.
    pub fn holds(&self, m: u32, leaf: u32) -> bool
        requires { m < length (seats self.now) }
        ensures { result ≡ holds self.now (seat_of self.now m) leaf }
    {
        self.keeps();
        match self.resolved(self.seat(m)) {
            Seat::Whole { .. } => false,
            Seat::Inner { dim, hier, at } => self.holds_at(dim, hier, at, leaf),
            Seat::Carried { .. } => false,
        }
    }
}
