// Where a node stands, by climbing to its root.
ghost use Rattle.std.specs.Prelude.{◌≡◌, ◌<◌, ◌≤◌, ◌^◌, length};
ghost use Rattle.aso_tree.specs.Trees.{is_under, depth, stands, is_misplaced, is_leaf, IsTree};

use crate::node::Node;

/// The node is `top`, or lies below it.
pub fn is_under<N: Node>(nodes: &[N], top: u32, node: u32) -> bool
    requires { node < length nodes.now }
    ensures { result ≡ is_under (N.parents_in nodes.now) top node }
{
    if node == top {
        return true;
    }
    let parent = N::parent_at(nodes, node);
    parent < node && is_under(nodes, top, parent)
}

/// How far a node stands below its root.
pub fn depth<N: Node>(nodes: &[N], node: u32) -> u32
    requires { node < length nodes.now }
    ensures value { result ≡ depth (N.parents_in nodes.now) node }
    ensures bound { result ≤ node }
{
    let parent = N::parent_at(nodes, node);
    if parent < node {
        depth(nodes, parent) + 1
    } else {
        0
    }
}

/// The node is the first and has no parent, or its parent is the node before it or lies above that one.
pub fn stands<N: Node>(nodes: &[N], node: u32) -> bool
    requires { node < length nodes.now }
    ensures { result ≡ stands (N.parents_in nodes.now) node }
{
    let parent = N::parent_at(nodes, node);
    if node == 0 {
        parent == u32::MAX
    } else {
        is_under(nodes, parent, node - 1)
    }
}

/// The node is out of preorder, or more than 31 below its root.
pub fn is_misplaced<N: Node>(nodes: &[N], node: u32) -> bool
    requires { node < length nodes.now }
    ensures { result ≡ is_misplaced (N.parents_in nodes.now) node }
{
    !stands(nodes, node) || depth(nodes, node) > 31
}

/// The node has no child: the next node, if there is one, has another parent.
pub fn is_leaf<N: Node>(nodes: &[N], node: u32) -> bool
    requires short { length nodes.now < 2 ^ 32 }
    requires tree { IsTree (N.parents_in nodes.now) }
    requires within { node < length nodes.now }
    ensures { result ≡ is_leaf (N.parents_in nodes.now) node }
{
    let next = node + 1;
    if next as usize == nodes.len() {
        return true;
    }
    N::parent_at(nodes, next) != node
}
