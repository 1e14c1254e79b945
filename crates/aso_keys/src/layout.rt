ghost use Rattle.std.specs.Prelude.{◌≡◌, ◌≢◌, ◌↔◌, ℕ, ◌*◌, ◌<◌, ◌≤◌, ◌^◌, List, length, Some, None, IsTrue, true};
ghost use Rattle.std.specs.Option.{option_map};
ghost use Rattle.std.specs.Ordering.{nat_cmp};
ghost use Rattle.std.specs.Cmp.Lexicographic.{slice_cmp};
ghost use Rattle.aso_keys.specs.Axes.{bits_of, AreClasses, key_of, fields_of, classes_of, AreCoarser, range_in, has_range};

use crate::axis::Axis;
use crate::keys::{are_classes, fields_in, key_in, roll_in};
use crate::making::dim_axis;
use crate::ranges::range_in;
use aso_memory::NoMemory;
use aso_num::List;
use aso_outline::{Outline, View};
use aso_words::Words;
use std::alloc::Global;
use std::marker::Model;

/// Where the class of each dimension stands in the keys of a view. To a contract it is the list of its dimensions.
/// No call but the making of one takes memory, and each costs a few operations a dimension.
#[derive(Debug, Drop)]
pub struct Layout {
    axes: List<Axis>,
    bits: u16,
}

impl Model for Layout {
    ghost use Rattle.std.specs.Prelude.{◌≡◌, List};
    ghost use Rattle.aso_keys.specs.declared.axis.Axis.{Axis};
    ghost use Rattle.aso_keys.specs.Axes.{bits_of, ArePlaced};

    ghost Value = { List Axis };

    ghost view = { λ l. l.axes };

    ghost invariant = { λ l. ArePlaced l.axes × (l.bits ≡ bits_of l.axes) };
}

impl Layout {
    ghost use Rattle.std.specs.Prelude.{IfOk};
    ghost use Rattle.aso_keys.specs.Axes.{ArePlaced};
    ghost use Rattle.aso_outline.specs.declared.draft.Draft.{Draft};
    ghost use Rattle.aso_outline.specs.Numbers.{seat_of};
    ghost use Rattle.aso_keys.specs.Layouts.{AreRanges, IsLayout};
    ghost use Rattle.aso_keys.specs.Leaves.{HaveLeaves};
    ghost use Rattle.aso_keys.specs.Ranges.{IsRange};
    ghost use Rattle.aso_keys.specs.Views.{Choice, choice_at, IsView, IsCoarserView};

    /// The layout of a view: for each dimension level 0, or a level of a stored hierarchy from 1 to its top. Shifts, widths
    /// and the tables of classes and ranges are made here, in memory in proportion to the members.
    pub fn new(alloc: Global, outline: &Outline, view: &View) -> Result<Layout, NoMemory>
        requires { IsView outline.now view.now.choices }
        ensures { IfOk result (IsLayout outline.now view.now.choices) }
    {
        outline.keeps_counts();
        let dims = outline.dims();
        let mut axes = Vec::new(alloc);
        let mut bits = 0u32;
        for back in 0..dims {
            let axis = dim_axis(alloc, outline, view, dims - 1 - back, bits)?;
            bits += axis.width;
            axes.push(axis)?;
        }
        axes.reverse();
        Ok(Layout {
            axes: List::of(axes),
            bits: bits as u16,
        })
    }

    /// Each dimension has the least number of bits that writes its classes, above those of the dimensions behind it.
    pub fn keeps(&self)
        ensures { ArePlaced self.now }
    {
        let _axes = &self.axes;
    }

    /// The layout of a coarser view is coarser, so keys can be rolled up to it.
    pub fn keeps_coarser(&self, outline: &Outline, view: &View, to: &Layout, coarser: &View)
        requires view { IsView outline.now view.now.choices }
        requires own { IsLayout outline.now view.now.choices self.now }
        requires other { IsLayout outline.now coarser.now.choices to.now }
        requires coarser { IsCoarserView coarser.now.choices view.now.choices }
        ensures { AreCoarser to.now self.now }
    {}

    /// Keys have at most 128 bits.
    pub fn keeps_bits(&self, outline: &Outline, view: &View)
        requires view { IsView outline.now view.now.choices }
        requires own { IsLayout outline.now view.now.choices self.now }
        ensures { bits_of self.now ≤ 128 }
    {
        outline.keeps();
        let _axes = &self.axes;
    }

    /// The keys of a coarser view take no more bits.
    pub fn keeps_narrower(&self, outline: &Outline, view: &View, to: &Layout, coarser: &View)
        requires view { IsView outline.now view.now.choices }
        requires other_view { IsView outline.now coarser.now.choices }
        requires own { IsLayout outline.now view.now.choices self.now }
        requires other { IsLayout outline.now coarser.now.choices to.now }
        requires coarser { IsCoarserView coarser.now.choices view.now.choices }
        ensures { bits_of to.now ≤ bits_of self.now }
    {
        outline.keeps();
        let _axes = &self.axes;
        let _others = &to.axes;
    }

    /// Classes of each dimension are those of some data leaves, whichever are chosen. So `roll` finds no key only where a field is no class,
    /// or where the leaves of one have no class at the coarser view.
    pub fn keeps_leaves(&self, outline: &Outline, view: &View)
        requires view { IsView outline.now view.now.choices }
        requires own { IsLayout outline.now view.now.choices self.now }
        ensures { HaveLeaves self.now }
    {
        outline.keeps();
    }

    /// A member has a range exactly where it is stored, and what it stands for is in the view's hierarchy of its dimension and at least
    /// as high as the view's level there, at level 0 in the first hierarchy. A shared member counts as its data leaf. A class that a
    /// data leaf has is in the range exactly where the member holds the leaf.
    pub fn keeps_ranges(&self, outline: &Outline, view: &View)
        requires { IsLayout outline.now view.now.choices self.now }
        ensures { AreRanges outline.now view.now.choices self.now }
    {}

    /// How many dimensions it has.
    pub fn dims(&self) -> usize
        ensures { result ≡ length self.now }
    {
        self.axes.items().len()
    }

    /// Whether the list has one class of each dimension.
    pub fn are_classes(&self, classes: &[u32]) -> bool
        ensures { IsTrue result ↔ AreClasses self.now classes.now }
    {
        are_classes(self.axes.items(), classes)
    }

    /// How many bits a key has.
    pub fn bits(&self) -> u16
        ensures { result ≡ bits_of self.now }
    {
        self.bits
    }

    /// The key that a class of each dimension writes. Keys stand in the order of the lists of classes.
    pub fn key_of<const W: usize>(&self, classes: &[u32]) -> Words<W>
        requires some { 1 ≤ W }
        requires few { W ≤ 4 }
        requires wide { bits_of self.now ≤ 64 * W }
        requires classes { AreClasses self.now classes.now }
        ensures written { result ≡ key_of self.now classes.now }
        ensures bounded { result < 2 ^ bits_of self.now }
        ensures read_back { fields_of self.now result ≡ classes.now }
        ensures order { (others : List ℕ) → AreClasses self.now others → slice_cmp nat_cmp classes.now others ≡ nat_cmp result (key_of self.now others) }
    {
        key_in(self.axes.items(), classes)
    }

    /// The number in the bits of each dimension: the classes that the key was written of.
    pub fn classes_of<const W: usize>(&self, key: &Words<W>, into: &mut [u32])
        requires some { 1 ≤ W }
        requires few { W ≤ 4 }
        requires wide { bits_of self.now ≤ 64 * W }
        requires long { length into.old ≡ length self.now }
        ensures fields { into.new ≡ fields_of self.now key.now }
        ensures read_back { (classes : List ℕ) → AreClasses self.now classes → key.now ≡ key_of self.now classes → into.new ≡ classes }
        ensures written_again { key.now < 2 ^ bits_of self.now → key_of self.now into.new ≡ key.now }
    {
        fields_in(self.axes.items(), key, into);
    }

    /// The key at a coarser view. None exactly where a field is no class that a data leaf has, or where
    /// the leaves of a class have no class at the coarser view.
    pub fn roll<const W: usize>(&self, key: &Words<W>, to: &Layout) -> Option<Words<W>>
        requires some { 1 ≤ W }
        requires few { W ≤ 4 }
        requires wide { bits_of self.now ≤ 64 * W }
        requires wide_to { bits_of to.now ≤ 64 * W }
        requires coarser { AreCoarser to.now self.now }
        ensures rolled { (leaves : List ℕ) → classes_of self.now leaves ≡ Some (fields_of self.now key.now) → result ≡ option_map (key_of to.now) (classes_of to.now leaves) }
        ensures outside { ((leaves : List ℕ) → classes_of self.now leaves ≢ Some (fields_of self.now key.now)) → result ≡ None }
    {
        roll_in(self.axes.items(), to.axes.items(), key)
    }

    /// Whether a member has a range of classes in a dimension. By `keeps_ranges` that is a stored member of the dimension
    /// which the view answers there.
    pub fn has_range(&self, dim: u32, member: u32) -> bool
        ensures { result ≡ has_range self.now dim member }
    {
        range_in(self.axes.items(), dim, member).is_some()
    }

    /// The classes in a dimension that a member holds: the number of the first, and the one behind the last. A class that a data leaf has
    /// is among them exactly where the member holds the leaf.
    pub fn range_of(&self, dim: u32, member: u32) -> (u32, u32)
        requires { has_range self.now dim member ≡ true }
        ensures value { range_in self.now dim member ≡ Some result }
        ensures held { (o : Draft) (xs : List Choice) → IsLayout o xs self.now → IsRange o dim (choice_at xs dim) (seat_of o member) result }
    {
        match range_in(self.axes.items(), dim, member) {
            Some(range) => range,
            None => unreachable!(),
        }
    }
}
