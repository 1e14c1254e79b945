// Data leaves, their classes, what a member holds and what a leaf carries.
use crate::outline::Outline;
use crate::seat::Seat;

impl Outline {
    ghost use Rattle.std.specs.Prelude.{◌≡◌, ◌<◌, ◌≤◌, length, true, Some, IfSome, slice_index};
    ghost use Rattle.aso_tree.specs.Trees.{is_leaf};
    ghost use Rattle.aso_outline.specs.Classes.{class_at, classes_at, leaf_count, leaf_of, leaf_place, leaf_seat};
    ghost use Rattle.aso_outline.specs.Heights.{top_of};
    ghost use Rattle.aso_outline.specs.declared.seat.Seat.TheVariants.{Inner};
    ghost use Rattle.aso_outline.specs.Leaves.{is_data_place};
    ghost use Rattle.aso_outline.specs.Members.{data_leaves, dim_at, dim_of, parents_of, seats, tree};
    ghost use Rattle.aso_outline.specs.Numbers.{IsNumberOf, IsSeat, seat_of};

    /// How many data leaves a base dimension has. Their ordinals are the numbers below.
    pub fn leaf_count(&self, dim: u32) -> u32
        requires { dim < length self.now.dims }
        ensures { result ≡ leaf_count self.now dim }
    {
        self.keeps();
        let table = self.dim_table(dim);
        table.leaves.len() as u32
    }

    /// The place of a data leaf in its dimension's first hierarchy.
    pub(crate) fn own_place(&self, dim: u32, leaf: u32) -> u32
        requires dim { dim < length self.now.dims }
        requires leaf { leaf < leaf_count self.now dim }
        ensures value { leaf_place self.now dim 0 leaf ≡ Some result }
        ensures index { result ≡ slice_index (data_leaves (dim_at self.now dim)) leaf }
        ensures within { result < length (tree (dim_at self.now dim) 0) }
        ensures leaf { is_data_place (tree (dim_at self.now dim) 0) result ≡ true }
    {
        let table = self.dim_table(dim);
        table.leaves[leaf as usize]
    }

    /// The number of a data leaf.
    pub fn leaf_member(&self, dim: u32, leaf: u32) -> u32
        requires dim { dim < length self.now.dims }
        requires leaf { leaf < leaf_count self.now dim }
        ensures { IsNumberOf self.now (leaf_seat self.now dim leaf) result }
    {
        self.keeps_roots();
        let at = self.own_place(dim, leaf);
        self.number(Seat::Inner { dim, hier: 0, at })
    }

    fn own_leaf(&self, dim: u32, at: u32) -> Option<u32>
        requires { IsSeat self.now (Inner dim 0 at) }
        ensures value { result ≡ leaf_of self.now (Inner dim 0 at) }
        ensures below { IfSome result (λ leaf. leaf < leaf_count self.now dim) }
    {
        let table = self.dim_table(dim);
        table.ordinals[at as usize]
    }

    pub(crate) fn other_leaf(&self, dim: u32, hier: u32, at: u32) -> Option<u32>
        requires there { IsSeat self.now (Inner dim hier at) }
        requires alternate { 0 < hier }
        ensures value { result ≡ leaf_of self.now (Inner dim hier at) }
        ensures below { IfSome result (λ leaf. leaf < leaf_count self.now dim) }
    {
        let table = self.tree_table(dim, hier);
        table.shared[at as usize]
    }

    /// The data leaf that a member is: itself, or the one that it shares.
    pub fn leaf_of(&self, m: u32) -> Option<u32>
        requires { m < length (seats self.now) }
        ensures value { result ≡ leaf_of self.now (seat_of self.now m) }
        ensures below { IfSome result (λ leaf. leaf < leaf_count self.now (dim_of (seat_of self.now m))) }
    {
        match self.seat(m) {
            Seat::Inner { dim, hier: 0, at } => self.own_leaf(dim, at),
            Seat::Inner { dim, hier, at } => self.other_leaf(dim, hier, at),
            _ => None,
        }
    }

    fn sharer(&self, dim: u32, hier: u32, leaf: u32) -> Option<u32>
        requires dim { dim < length self.now.dims }
        requires hier { hier < length (dim_at self.now dim).hiers }
        requires alternate { 0 < hier }
        requires leaf { leaf < leaf_count self.now dim }
        ensures value { result ≡ leaf_place self.now dim hier leaf }
        ensures within { IfSome result (λ at. at < length (tree (dim_at self.now dim) hier)) }
        ensures leaf { IfSome result (λ at. is_leaf (parents_of (tree (dim_at self.now dim) hier)) at ≡ true) }
    {
        self.keeps();
        let table = self.tree_table(dim, hier);
        table.sharers[leaf as usize]
    }

    /// The place of a data leaf in a hierarchy, if the hierarchy has it.
    pub(crate) fn leaf_place(&self, dim: u32, hier: u32, leaf: u32) -> Option<u32>
        requires dim { dim < length self.now.dims }
        requires hier { hier < length (dim_at self.now dim).hiers }
        requires leaf { leaf < leaf_count self.now dim }
        ensures value { result ≡ leaf_place self.now dim hier leaf }
        ensures within { IfSome result (λ at. at < length (tree (dim_at self.now dim) hier)) }
        ensures leaf { IfSome result (λ at. is_leaf (parents_of (tree (dim_at self.now dim) hier)) at ≡ true) }
    {
        if hier == 0 {
            Some(self.own_place(dim, leaf))
        } else {
            self.sharer(dim, hier, leaf)
        }
    }

    fn count_above(&self, dim: u32, hier: u32, level: u32) -> u32
        requires dim { dim < length self.now.dims }
        requires hier { hier < length (dim_at self.now dim).hiers }
        requires level { level ≤ top_of self.now dim hier }
        requires above { 0 < level }
        ensures { result ≡ classes_at self.now dim hier level }
    {
        self.keeps();
        self.tree_table(dim, hier).forest.classes(level)
    }

    fn class_above(&self, dim: u32, hier: u32, level: u32, leaf: u32) -> Option<u32>
        requires dim { dim < length self.now.dims }
        requires hier { hier < length (dim_at self.now dim).hiers }
        requires level { level ≤ top_of self.now dim hier }
        requires above { 0 < level }
        requires leaf { leaf < leaf_count self.now dim }
        ensures value { result ≡ class_at self.now dim hier level leaf }
        ensures below { IfSome result (λ class. class < classes_at self.now dim hier level) }
    {
        self.keeps();
        match self.leaf_place(dim, hier, leaf) {
            Some(place) => Some(self.tree_table(dim, hier).forest.class_of(place, level)),
            None => None,
        }
    }

    /// How many classes the data leaves of a dimension have at a level of a hierarchy.
    pub fn classes(&self, dim: u32, hier: u32, level: u32) -> u32
        requires dim { dim < length self.now.dims }
        requires hier { hier < length (dim_at self.now dim).hiers }
        requires level { level ≤ top_of self.now dim hier }
        ensures { result ≡ classes_at self.now dim hier level }
    {
        if level == 0 {
            self.leaf_count(dim)
        } else {
            self.count_above(dim, hier, level)
        }
    }

    /// The class of a data leaf at a level of a hierarchy: the leaf itself at level 0, else the highest member at or above it
    /// whose height is at most the level, numbered in the hierarchy's order. A leaf that the hierarchy doesn't have has none.
    pub fn class_of(&self, dim: u32, hier: u32, level: u32, leaf: u32) -> Option<u32>
        requires dim { dim < length self.now.dims }
        requires hier { hier < length (dim_at self.now dim).hiers }
        requires level { level ≤ top_of self.now dim hier }
        requires leaf { leaf < leaf_count self.now dim }
        ensures value { result ≡ class_at self.now dim hier level leaf }
        ensures below { IfSome result (λ class. class < classes_at self.now dim hier level) }
    {
        if level == 0 {
            return Some(leaf);
        }
        self.class_above(dim, hier, level, leaf)
    }
}
