// The classes at or below a node stand in a row.
ghost use Rattle.std.specs.Prelude.{◌≡◌, ◌<◌, ◌≤◌, ◌+◌, ◌^◌, ◌&&◌, ℕ, length, map, nat_le, nat_lt, Some};
ghost use Rattle.aso_tree.specs.Trees.{class_count, class_of, height, is_under, places_of, under, IsTree};
ghost use Rattle.aso_tree.specs.Levels.{AreLevels};

use crate::level::{Level, classes_before};
use crate::table::end_of;

/// The numbers of the classes of a level at or below a node that is at least as high, from the tables.
pub fn class_range(
    parents: &[u32],
    heights: &[u32],
    spans: &[u32],
    levels: &[Level],
    node: u32,
    level: u32,
) -> (u32, u32)
    requires short { length parents.now < 2 ^ 32 }
    requires tree { IsTree parents.now }
    requires heights { heights.now ≡ map (height parents.now) (places_of parents.now) }
    requires spans { spans.now ≡ map (λ i. length (under parents.now i)) (places_of parents.now) }
    requires known { AreLevels parents.now (height parents.now 0 + 1) levels.now }
    requires within { node < length parents.now }
    requires level { level ≤ height parents.now node }
    ensures exactly { (i class : ℕ) → i < length parents.now → class_of parents.now level i ≡ Some class → (nat_le result.0 class && nat_lt class result.1) ≡ is_under parents.now node i }
    ensures in_order { result.0 < result.1 }
    ensures within { result.1 ≤ class_count parents.now level }
{
    let end = end_of(parents, spans, node);
    (
        classes_before(parents, heights, levels, level, node),
        classes_before(parents, heights, levels, level, end),
    )
}
