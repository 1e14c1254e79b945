// The classes of a level that a member holds stand in a row.
use crate::kinds::is_shared;
use crate::outline::Outline;
use crate::seat::Seat;

impl Outline {
    ghost use Rattle.std.specs.Prelude.{◌≡◌, ◌<◌, ◌≤◌, ◌+◌, ℕ, length, Some, false, true};
    ghost use Rattle.aso_tree.specs.Trees.{height};
    ghost use Rattle.aso_outline.specs.declared.seat.Seat.TheVariants.{Inner};
    ghost use Rattle.aso_outline.specs.ClassLeaves.{HasLeaf};
    ghost use Rattle.aso_outline.specs.Classes.{class_at, classes_at, has_range, holds_place, is_in, leaf_count};
    ghost use Rattle.aso_outline.specs.Leaves.{leaves_before};
    ghost use Rattle.aso_outline.specs.Members.{dim_at, dim_of, holds, is_dynamic, parents_of, resolve, seats, tree};
    ghost use Rattle.aso_outline.specs.Numbers.{IsSeat, hier_of, seat_of};
    ghost use Rattle.aso_outline.specs.Rules.{is_shared};

    fn leaves_before(&self, dim: u32, place: u32) -> u32
        requires dim { dim < length self.now.dims }
        requires place { place ≤ length (tree (dim_at self.now dim) 0) }
        ensures { result ≡ leaves_before (tree (dim_at self.now dim) 0) place }
    {
        let table = self.dim_table(dim);
        table.counts[place as usize]
    }

    /// The ordinals of the data leaves at or below a place of the first hierarchy.
    fn leaf_range(&self, dim: u32, at: u32) -> (u32, u32)
        requires { IsSeat self.now (Inner dim 0 at) }
        ensures exactly { (leaf : ℕ) → leaf < leaf_count self.now dim → is_in result leaf ≡ holds_place self.now dim 0 at leaf }
        ensures in_order { result.0 ≤ result.1 }
        ensures within { result.1 ≤ leaf_count self.now dim }
    {
        self.keeps();
        let end = self.tree_table(dim, 0).forest.end(at);
        (self.leaves_before(dim, at), self.leaves_before(dim, end))
    }

    /// The data leaf that is shared at a place of a hierarchy.
    fn shared_range(&self, dim: u32, hier: u32, at: u32) -> (u32, u32)
        requires there { IsSeat self.now (Inner dim hier at) }
        requires alternate { 0 < hier }
        requires shared { is_shared self.now (Inner dim hier at) ≡ true }
        ensures exactly { (leaf : ℕ) → leaf < leaf_count self.now dim → is_in result leaf ≡ holds_place self.now dim hier at leaf }
        ensures in_order { result.0 ≤ result.1 }
        ensures within { result.1 ≤ leaf_count self.now dim }
    {
        self.keeps();
        match self.other_leaf(dim, hier, at) {
            Some(leaf) => (leaf, leaf + 1),
            None => (0, 0),
        }
    }

    /// The classes of a level above 0 at or below a place of a stored hierarchy.
    fn range_above(&self, dim: u32, hier: u32, at: u32, level: u32) -> (u32, u32)
        requires there { IsSeat self.now (Inner dim hier at) }
        requires above { 0 < level }
        requires level { level ≤ height (parents_of (tree (dim_at self.now dim) hier)) at }
        requires stored { is_dynamic self.now (Inner dim hier at) ≡ false }
        ensures exactly { (leaf class : ℕ) → leaf < leaf_count self.now dim → class_at self.now dim hier level leaf ≡ Some class → is_in result class ≡ holds_place self.now dim hier at leaf }
        ensures in_order { result.0 ≤ result.1 }
        ensures within { result.1 ≤ classes_at self.now dim hier level }
    {
        self.keeps();
        self.tree_table(dim, hier).forest.class_range(at, level)
    }

    fn range_at(&self, dim: u32, hier: u32, at: u32, level: u32) -> (u32, u32)
        requires there { IsSeat self.now (Inner dim hier at) }
        requires range { has_range self.now (Inner dim hier at) level ≡ true }
        ensures exactly { (leaf class : ℕ) → leaf < leaf_count self.now dim → class_at self.now dim hier level leaf ≡ Some class → is_in result class ≡ holds_place self.now dim hier at leaf }
        ensures in_order { result.0 ≤ result.1 }
        ensures within { result.1 ≤ classes_at self.now dim hier level }
    {
        if level > 0 {
            return self.range_above(dim, hier, at, level);
        }
        if hier == 0 {
            return self.leaf_range(dim, at);
        }
        self.shared_range(dim, hier, at)
    }

    /// Each class of a stored hierarchy is that of a data leaf.
    pub fn keeps_classes(&self, dim: u32, hier: u32, level: u32)
        requires dim { dim < length self.now.dims }
        requires hier { hier < length (dim_at self.now dim).hiers }
        requires stored { is_dynamic self.now (Inner dim hier 0) ≡ false }
        ensures { (class : ℕ) → class < classes_at self.now dim hier level → HasLeaf self.now dim hier level class }
    {
        self.keeps();
    }

    fn keeps_fewer_above(&self, dim: u32, hier: u32, fine: u32, coarse: u32)
        requires dim { dim < length self.now.dims }
        requires hier { hier < length (dim_at self.now dim).hiers }
        requires above { 0 < fine }
        requires coarser { fine ≤ coarse }
        ensures { classes_at self.now dim hier coarse ≤ classes_at self.now dim hier fine }
    {
        self.tree_table(dim, hier).forest.keeps_fewer(fine, coarse);
    }

    /// A hierarchy has no more classes at a coarser level than at a finer one. Than data leaves that is said of stored hierarchies.
    pub fn keeps_fewer(&self, dim: u32, hier: u32, fine: u32, coarse: u32)
        requires dim { dim < length self.now.dims }
        requires hier { hier < length (dim_at self.now dim).hiers }
        requires stored { fine ≡ 0 → is_dynamic self.now (Inner dim hier 0) ≡ false }
        requires coarser { fine ≤ coarse }
        ensures { classes_at self.now dim hier coarse ≤ classes_at self.now dim hier fine }
    {
        if fine > 0 {
            self.keeps_fewer_above(dim, hier, fine, coarse);
        } else {
            self.keeps_classes(dim, hier, coarse);
        }
    }

    fn has_range_above(&self, dim: u32, hier: u32, at: u32, level: u32) -> bool
        requires there { IsSeat self.now (Inner dim hier at) }
        requires above { 0 < level }
        ensures { result ≡ has_range self.now (Inner dim hier at) level }
    {
        let height = self.tree_table(dim, hier).forest.height(at);
        level <= height && !self.is_dynamic(dim, hier)
    }

    fn has_range_at(&self, dim: u32, hier: u32, at: u32, level: u32) -> bool
        requires { IsSeat self.now (Inner dim hier at) }
        ensures { result ≡ has_range self.now (Inner dim hier at) level }
    {
        if level > 0 {
            return self.has_range_above(dim, hier, at, level);
        }
        hier == 0 || is_shared(self.sound_draft(), Seat::Inner { dim, hier, at })
    }

    /// The classes of a level that the member holds stand in a row, which `class_range` gives. Above level 0 that is where what the member
    /// stands for is in a stored hierarchy and at least as high as the level; at level 0 where it is in the first hierarchy, or shared.
    pub fn has_range(&self, m: u32, level: u32) -> bool
        requires { m < length (seats self.now) }
        ensures { result ≡ has_range self.now (resolve self.now (seat_of self.now m)) level }
    {
        self.keeps();
        match self.resolved(self.seat(m)) {
            Seat::Whole { .. } => false,
            Seat::Inner { dim, hier, at } => self.has_range_at(dim, hier, at, level),
            Seat::Carried { .. } => false,
        }
    }

    /// The classes of a level that a member holds: the number of the first, and the one behind the last. A data leaf of the dimension
    /// that has a class at the level of the member's hierarchy has it in the range exactly where the member holds the leaf. A
    /// shared member counts as its data leaf.
    pub fn class_range(&self, m: u32, level: u32) -> (u32, u32)
        requires member { m < length (seats self.now) }
        requires range { has_range self.now (resolve self.now (seat_of self.now m)) level ≡ true }
        ensures exactly { (leaf class : ℕ) → leaf < leaf_count self.now (dim_of (seat_of self.now m)) → class_at self.now (dim_of (seat_of self.now m)) (hier_of (resolve self.now (seat_of self.now m))) level leaf ≡ Some class → is_in result class ≡ holds self.now (seat_of self.now m) leaf }
        ensures in_order { result.0 ≤ result.1 }
        ensures within { result.1 ≤ classes_at self.now (dim_of (seat_of self.now m)) (hier_of (resolve self.now (seat_of self.now m))) level }
    {
        self.keeps();
        match self.resolved(self.seat(m)) {
            Seat::Inner { dim, hier, at } => self.range_at(dim, hier, at, level),
            Seat::Whole { .. } => unreachable!(),
            Seat::Carried { .. } => unreachable!(),
        }
    }
}
