// Keys of dimensions at a view.
ghost use Rattle.std.specs.Prelude.{◌≡◌, ◌↔◌, ℕ, ◌+◌, ◌*◌, ◌<◌, ◌≤◌, List, length, IsTrue};
ghost use Rattle.aso_keys.specs.Axes.{bits_of, AreClasses, key_of, fields_of, AreCoarser, ArePlaced, rolled, rolled_class};

use crate::axis::Axis;
use aso_words::Words;

// One class of each dimension.
pub fn are_classes(axes: &[Axis], classes: &[u32]) -> bool
    ensures { IsTrue result ↔ AreClasses axes.now classes.now }
{
    let [axis, axes @ ..] = axes else {
        return classes.is_empty();
    };
    let [class, classes @ ..] = classes else {
        return false;
    };
    *class < axis.count && are_classes(axes, classes)
}

// The key that the classes write.
pub fn key_in<const W: usize>(axes: &[Axis], classes: &[u32]) -> Words<W>
    requires some { 1 ≤ W }
    requires few { W ≤ 4 }
    requires wide { bits_of axes.now ≤ 64 * W }
    requires placed { ArePlaced axes.now }
    requires classes { AreClasses axes.now classes.now }
    ensures { result ≡ key_of axes.now classes.now }
{
    let mut key = Words::zero();
    for (at, axis) in axes.iter().enumerate() {
        key.put_field(axis.shift, axis.width, classes[at]);
    }
    key
}

// The number in the bits of each dimension.
pub fn fields_in<const W: usize>(axes: &[Axis], key: &Words<W>, into: &mut [u32])
    requires some { 1 ≤ W }
    requires few { W ≤ 4 }
    requires wide { bits_of axes.now ≤ 64 * W }
    requires placed { ArePlaced axes.now }
    requires long { length into.old ≡ length axes.now }
    ensures { into.new ≡ fields_of axes.now key.now }
{
    for (at, axis) in axes.iter().enumerate() {
        into[at] = key.field(axis.shift, axis.width);
    }
}

// The class at a coarser view of the leaves of a class, if it is one and they have one.
fn rolled_class(from: &Axis, to: &Axis, class: u32) -> Option<u32>
    ensures { result ≡ rolled_class from.now to.now class }
{
    let leaf = (*from.leaves.items().get(class as usize)?)?;
    *to.classes.items().get(leaf as usize)?
}

// The key at a coarser view of the leaves that the key's classes have.
pub fn roll_in<const W: usize>(from: &[Axis], to: &[Axis], key: &Words<W>) -> Option<Words<W>>
    requires some { 1 ≤ W }
    requires few { W ≤ 4 }
    requires wide { bits_of from.now ≤ 64 * W }
    requires wide_to { bits_of to.now ≤ 64 * W }
    requires placed { ArePlaced from.now }
    requires placed_to { ArePlaced to.now }
    requires coarser { AreCoarser to.now from.now }
    ensures { result ≡ rolled from.now to.now key.now }
{
    let mut rolled = Words::zero();
    for (at, axis) in from.iter().enumerate() {
        let coarse = &to[at];
        let class = rolled_class(axis, coarse, key.field(axis.shift, axis.width))?;
        rolled.put_field(coarse.shift, coarse.width, class);
    }
    Some(rolled)
}
