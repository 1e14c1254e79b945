// The parts of a layout, as they are made.
ghost use Rattle.std.specs.Prelude.{◌≡◌, ℕ, ◌<◌, ◌≤◌, ◌^◌, List, length, Some, IfOk, nat_le};
ghost use Rattle.aso_keys.specs.Axes.{IsWidth, IsAxis, AreBelow, AreLeaves, entry};

use crate::axis::{Axis, Ranges};
use aso_memory::NoMemory;
use aso_num::List;
use std::alloc::Global;

// The numbers below the count can be written in so many bits.
fn writes(bits: u32, count: u32) -> bool
    requires { bits < 32 }
    ensures { result ≡ nat_le count (2 ^ bits) }
{
    u64::from(count) <= (1u64 << bits)
}

// The least number of bits that writes `count - 1`.
fn width_for(count: u32) -> u32
    ensures width { IsWidth count result }
    ensures narrow { result ≤ 32 }
{
    for bits in 0..32u32 {
        if writes(bits, count) {
            return bits;
        }
    }
    32
}

// A data leaf of each class, where there is one.
fn leaves_of(
    alloc: Global,
    classes: &[Option<u32>],
    count: u32,
) -> Result<Vec<Option<u32>>, NoMemory>
    requires short { length classes.now < 2 ^ 32 }
    requires below { AreBelow count classes.now }
    ensures { IfOk result (λ leaves. AreLeaves count classes.now leaves.items) }
{
    let mut leaves = vec![in alloc; None; count as usize]?;
    for (leaf, class) in classes.iter().enumerate() {
        if let Some(class) = *class {
            leaves[class as usize] = Some(leaf as u32);
        }
    }
    Ok(leaves)
}

// The dimension whose data leaves have these classes and whose members these ranges, with the bits of its keys from `shift` on.
pub fn axis_of(
    alloc: Global,
    classes: Vec<Option<u32>>,
    count: u32,
    ranges: Ranges,
    shift: u32,
) -> Result<Axis, NoMemory>
    requires short { length classes.items < 2 ^ 32 }
    requires below { AreBelow count classes.items }
    ensures axis { IfOk result IsAxis }
    ensures classes { IfOk result (λ a. a.classes ≡ classes.items) }
    ensures count { IfOk result (λ a. a.count ≡ count) }
    ensures ranges { IfOk result (λ a. a.ranges ≡ ranges) }
    ensures shift { IfOk result (λ a. a.shift ≡ shift) }
{
    let leaves = leaves_of(alloc, classes.as_slice(), count)?;
    Ok(Axis {
        count,
        shift,
        width: width_for(count),
        classes: List::of(classes),
        leaves: List::of(leaves),
        ranges,
    })
}
