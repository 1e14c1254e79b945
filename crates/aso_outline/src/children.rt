// The children of a member in one list.
ghost use Rattle.std.specs.Prelude.{◌≡◌, ◌<◌, ◌≤◌, ◌^◌, ◌+◌, ◌++◌, ◌==◌, length, map, slice_index, OnOk};
ghost use Rattle.std.specs.List.{filter};
ghost use Rattle.aso_tree.specs.Trees.{places_of};

use crate::outline::Outline;
use crate::seat::Seat;
use aso_num::NoMemory;
use aso_tree::Forest;
use std::alloc::Global;

/// Adds the children of a node, each by its place counted from a number on.
fn push_nodes(
    forest: &Forest,
    node: u32,
    first: u32,
    numbers: &mut Vec<u32>,
) -> Result<(), NoMemory>
    requires node { node < length forest.now }
    requires fits { first + length forest.now ≤ 2 ^ 32 }
    ensures { OnOk result (numbers.new.items ≡ numbers.old.items ++ map (λ j. first + j) (filter (λ j. slice_index forest.now j == node) (places_of forest.now))) }
{
    let mut next = forest.first_child(node);
    while let Some(child) = next {
        numbers.push(first + child)?;
        next = forest.next_child(child);
    }
    Ok(())
}

impl Outline {
    ghost use Rattle.std.specs.Prelude.{◌≡◌, ◌<◌, ◌++◌, ℕ, length, Some, slice_get, IfOk, OnOk};
    ghost use Rattle.aso_outline.specs.Members.{seats};
    ghost use Rattle.aso_outline.specs.Numbers.{IsNumberOf, IsSeat, seat_of};
    ghost use Rattle.aso_outline.specs.Ranks.{children};

    /// Adds the children of a member in its tree. A dimension's own member above several hierarchies has none in a tree of its own.
    fn push_children(&self, _m: u32, seat: Seat, numbers: &mut Vec<u32>) -> Result<(), NoMemory>
        requires number { IsNumberOf self.now seat _m }
        requires there { IsSeat self.now seat }
        ensures { OnOk result (numbers.new.items ≡ numbers.old.items ++ children self.now _m seat) }
    {
        self.keeps_counts();
        match seat {
            Seat::Whole { .. } => Ok(()),
            Seat::Inner { dim, hier, at } => {
                let table = self.tree_table(dim, hier);
                push_nodes(&table.forest, at, table.first, numbers)
            }
            Seat::Carried { attr, at } => {
                let table = self.attr_table(attr);
                push_nodes(&table.forest, at, table.first, numbers)
            }
        }
    }

    /// The numbers of the children of a member in its tree, in outline order. It takes time in proportion to them.
    pub fn children(&self, alloc: Global, m: u32) -> Result<Vec<u32>, NoMemory>
        requires { m < length (seats self.now) }
        ensures value { IfOk result (λ v. v.items ≡ children self.now m (seat_of self.now m)) }
        ensures there { (k c : ℕ) → slice_get (children self.now m (seat_of self.now m)) k ≡ Some c → c < length (seats self.now) }
    {
        let mut numbers = Vec::new(alloc);
        self.push_children(m, self.seat(m), &mut numbers)?;
        Ok(numbers)
    }
}
