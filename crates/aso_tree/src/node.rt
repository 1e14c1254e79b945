ghost use Rattle.std.specs.Prelude.{◌≡◌, ◌<◌, List, ℕ, length, refl, slice_index};

/// What stands in a list of nodes in preorder: it knows the place of its parent in the list.
pub trait Node: Sized {
    ghost parents_in: { List Self → List ℕ };

    /// The place of its parent, or the greatest number where it has none.
    fn parent_at(nodes: &[Self], node: u32) -> u32
        requires { node < length nodes.now }
        ensures { result ≡ slice_index (parents_in nodes.now) node };

    ghost one_each: { (nodes : List Self) → length (parents_in nodes) ≡ length nodes };
}

impl Node for u32 {
    ghost parents_in = { λ nodes. nodes };

    ghost one_each = { λ _. refl };

    fn parent_at(nodes: &[u32], node: u32) -> u32 {
        nodes[node as usize]
    }
}
