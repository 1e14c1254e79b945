// The dimensions of a layout, from an outline.
ghost use Rattle.std.specs.Prelude.{◌≡◌, ◌<◌, ◌≤◌, ◌^◌, length, map, IfOk};
ghost use Rattle.std.specs.List.{range_with_len};
ghost use Rattle.aso_outline.specs.Classes.{class_at, classes_at, leaf_count};
ghost use Rattle.aso_outline.specs.Heights.{top_of};
ghost use Rattle.aso_outline.specs.Members.{dim_at};
ghost use Rattle.aso_keys.specs.Axes.{AreBelow, IsAxis};
ghost use Rattle.aso_keys.specs.Layouts.{IsAxisOf};
ghost use Rattle.aso_keys.specs.Views.{choice_at, IsView};

use crate::axis::Axis;
use crate::build::axis_of;
use crate::ranges::ranges_of;
use aso_memory::NoMemory;
use aso_outline::{Outline, View};
use std::alloc::Global;

// The class of each data leaf at a level of a hierarchy.
fn classes_of(
    alloc: Global,
    outline: &Outline,
    dim: u32,
    hier: u32,
    level: u32,
) -> Result<Vec<Option<u32>>, NoMemory>
    requires dim { dim < length outline.now.dims }
    requires hier { hier < length (dim_at outline.now dim).hiers }
    requires level { level ≤ top_of outline.now dim hier }
    ensures classes { IfOk result (λ all. all.items ≡ map (class_at outline.now dim hier level) (range_with_len 0 (leaf_count outline.now dim))) }
    ensures below { IfOk result (λ all. AreBelow (classes_at outline.now dim hier level) all.items) }
    ensures short { IfOk result (λ all. length all.items < 2 ^ 32) }
{
    let mut classes = Vec::new(alloc);
    for leaf in 0..outline.leaf_count(dim) {
        classes.push(outline.class_of(dim, hier, level, leaf))?;
    }
    Ok(classes)
}

// What a view chooses of a dimension.
fn choice(outline: &Outline, view: &View, dim: u32) -> (u32, u32)
    requires view { IsView outline.now view.now.choices }
    requires dim { dim < length outline.now.dims }
    ensures value { result ≡ choice_at view.now.choices dim }
    ensures hier { result.0 < length (dim_at outline.now dim).hiers }
    ensures level { result.1 ≤ top_of outline.now dim result.0 }
{
    outline.keeps_roots();
    match view.choices.items().get(dim as usize) {
        Some(choice) => *choice,
        None => (0, 0),
    }
}

// A dimension at a view, with the bits of its keys from `shift` on.
pub fn dim_axis(
    alloc: Global,
    outline: &Outline,
    view: &View,
    dim: u32,
    shift: u32,
) -> Result<Axis, NoMemory>
    requires view { IsView outline.now view.now.choices }
    requires dim { dim < length outline.now.dims }
    ensures axis { IfOk result IsAxis }
    ensures of { IfOk result (IsAxisOf outline.now dim (choice_at view.now.choices dim)) }
    ensures shift { IfOk result (λ a. a.shift ≡ shift) }
{
    let (hier, level) = choice(outline, view, dim);
    let classes = classes_of(alloc, outline, dim, hier, level)?;
    let count = outline.classes(dim, hier, level);
    let ranges = ranges_of(alloc, outline, dim, hier, level)?;
    axis_of(alloc, classes, count, ranges, shift)
}
