// The children of a node.
ghost use Rattle.std.specs.Prelude.{◌≡◌, ◌<◌, ◌^◌, length, map};
ghost use Rattle.aso_tree.specs.Trees.{first_child, next_child, places_of, under, IsTree};

use crate::table::end_of;

/// The first node whose parent it is: the node behind it, or none.
pub fn first_child(parents: &[u32], node: u32) -> Option<u32>
    requires short { length parents.now < 2 ^ 32 }
    requires tree { IsTree parents.now }
    requires within { node < length parents.now }
    ensures { result ≡ first_child parents.now node }
{
    let next = node + 1;
    if next as usize == parents.len() {
        return None;
    }
    if parents[next as usize] == node {
        Some(next)
    } else {
        None
    }
}

/// The first node after it that has its parent: the node behind what lies below it, or none.
pub fn next_child(parents: &[u32], spans: &[u32], node: u32) -> Option<u32>
    requires short { length parents.now < 2 ^ 32 }
    requires tree { IsTree parents.now }
    requires spans { spans.now ≡ map (λ i. length (under parents.now i)) (places_of parents.now) }
    requires within { node < length parents.now }
    ensures { result ≡ next_child parents.now node }
{
    if node == 0 {
        return None;
    }
    let end = end_of(parents, spans, node);
    if end as usize == parents.len() {
        return None;
    }
    if parents[end as usize] == parents[node as usize] {
        Some(end)
    } else {
        None
    }
}
