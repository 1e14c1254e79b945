// Tables with an entry for each node.
ghost use Rattle.std.specs.Prelude.{◌≡◌, ◌+◌, ◌<◌, ◌≤◌, ◌^◌, ◌∷◌, [], length, map, slice_range, IfOk};
ghost use Rattle.std.specs.List.{filter, range_with_len};
ghost use Rattle.aso_tree.specs.Trees.{height, is_leaf, leaves, leaves_before, places_of, under, IsTree};

use crate::climb::is_leaf;
use crate::forest::{height, span};
use aso_memory::NoMemory;
use std::alloc::Global;

/// The height of each node.
pub fn heights_of(alloc: Global, parents: &[u32]) -> Result<Vec<u32>, NoMemory>
    requires short { length parents.now < 2 ^ 32 }
    requires tree { IsTree parents.now }
    ensures { IfOk result (λ v. v.items ≡ map (height parents.now) (places_of parents.now)) }
{
    let mut heights = Vec::new(alloc);
    for node in 0..parents.len() as u32 {
        heights.push(height(parents, node))?;
    }
    Ok(heights)
}

/// How many nodes lie at or below each node.
pub fn spans_of(alloc: Global, parents: &[u32]) -> Result<Vec<u32>, NoMemory>
    requires short { length parents.now < 2 ^ 32 }
    requires tree { IsTree parents.now }
    ensures { IfOk result (λ v. v.items ≡ map (λ i. length (under parents.now i)) (places_of parents.now)) }
{
    let mut spans = Vec::new(alloc);
    for node in 0..parents.len() as u32 {
        spans.push(span(parents, node))?;
    }
    Ok(spans)
}

/// 1 for a leaf, else 0.
fn leaf_weight(parents: &[u32], node: u32) -> u32
    requires short { length parents.now < 2 ^ 32 }
    requires tree { IsTree parents.now }
    requires within { node < length parents.now }
    ensures value { result ≡ length (filter (is_leaf parents.now) (node ∷ [])) }
    ensures bound { result ≤ 1 }
{
    if is_leaf(parents, node) { 1 } else { 0 }
}

/// How many leaves stand before each place, the end among them.
pub fn leaf_counts(alloc: Global, parents: &[u32]) -> Result<Vec<u32>, NoMemory>
    requires short { length parents.now < 2 ^ 32 }
    requires tree { IsTree parents.now }
    ensures { IfOk result (λ v. v.items ≡ map (leaves_before parents.now) (range_with_len 0 (length parents.now + 1))) }
{
    let mut counts = Vec::new(alloc);
    let mut count: u32 = 0;
    counts.push(count)?;
    for node in 0..parents.len() as u32 {
        count += leaf_weight(parents, node);
        counts.push(count)?;
    }
    Ok(counts)
}

/// The ordinals of the leaves at or below a node, from the tables of spans and of leaves.
pub fn leaf_range(parents: &[u32], spans: &[u32], counts: &[u32], node: u32) -> (u32, u32)
    requires short { length parents.now < 2 ^ 32 }
    requires tree { IsTree parents.now }
    requires spans { spans.now ≡ map (λ i. length (under parents.now i)) (places_of parents.now) }
    requires counts { counts.now ≡ map (leaves_before parents.now) (range_with_len 0 (length parents.now + 1)) }
    requires within { node < length parents.now }
    ensures leaves { slice_range (leaves parents.now) result.0 result.1 ≡ filter (is_leaf parents.now) (under parents.now node) }
    ensures in_order { result.0 ≤ result.1 }
    ensures within { result.1 ≤ length (leaves parents.now) }
{
    let end = end_of(parents, spans, node);
    (
        count_at(parents, counts, node),
        count_at(parents, counts, end),
    )
}

/// The place behind the last node at or below a node.
pub fn end_of(parents: &[u32], spans: &[u32], node: u32) -> u32
    requires short { length parents.now < 2 ^ 32 }
    requires tree { IsTree parents.now }
    requires spans { spans.now ≡ map (λ i. length (under parents.now i)) (places_of parents.now) }
    requires within { node < length parents.now }
    ensures end { result ≡ node + length (under parents.now node) }
    ensures fits { result ≤ length parents.now }
{
    node + spans[node as usize]
}

fn count_at(parents: &[u32], counts: &[u32], place: u32) -> u32
    requires counts { counts.now ≡ map (leaves_before parents.now) (range_with_len 0 (length parents.now + 1)) }
    requires within { place ≤ length parents.now }
    ensures { result ≡ leaves_before parents.now place }
{
    counts[place as usize]
}
