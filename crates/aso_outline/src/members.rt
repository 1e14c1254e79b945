// The members of an outline by what their numbers stand for.
use crate::data_leaf::is_data_leaf;
use crate::draft::DraftMember;
use crate::outline::Outline;
use crate::resolve::resolve;
use crate::seat::Seat;
use crate::seats::seats;
use crate::trees::sound_tree;
use aso_num::NoMemory;
use std::alloc::Global;

impl Outline {
    ghost use Rattle.std.specs.Prelude.{◌≡◌, ◌<◌, ◌^◌, length, IfOk};
    ghost use Rattle.aso_tree.specs.Trees.{IsTree};
    ghost use Rattle.aso_outline.specs.Members.{seats, resolve, tree_of, parents_of, is_data_leaf};

    /// What each member number stands for, in the order of the numbers.
    pub fn seats(&self, alloc: Global) -> Result<Vec<Seat>, NoMemory>
        ensures { IfOk result (λ all. all.items ≡ seats self.now) }
    {
        let all = seats(alloc, self.sound_draft())?;
        Ok(all)
    }

    /// The member itself, or what a label-only member stands for.
    pub fn resolved(&self, seat: Seat) -> Seat
        ensures { result ≡ resolve self.now seat }
    {
        resolve(self.sound_draft(), seat)
    }

    /// The member is a leaf of a dimension's first hierarchy and has no formula.
    pub fn is_data_leaf(&self, seat: Seat) -> bool
        ensures { result ≡ is_data_leaf self.now seat }
    {
        is_data_leaf(self.sound_draft(), seat)
    }

    /// The tree in which a member stands.
    pub fn tree(&self, seat: Seat) -> &[DraftMember]
        ensures value { result.now ≡ tree_of self.now seat }
        ensures tree { IsTree (parents_of result.now) }
        ensures short { length result.now < 2 ^ 32 }
    {
        sound_tree(self.sound_draft(), seat)
    }
}
