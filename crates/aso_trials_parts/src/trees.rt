// Trees in preorder: the places of the nodes, or the first fault. The parent of a root is null.
ghost use Rattle.std.specs.Prelude.{◌<◌, length};

use crate::reading::small;
use aso_tree::Forest;
use aso_trials_cases::{CaseFault, field, list};
use serde_json::Value;
use std::alloc::{AllocError, Global};
use std::fmt::Write;

fn parents(alloc: Global, value: &Value) -> Result<Vec<u32>, CaseFault> {
    let mut all = Vec::new(alloc);
    for item in list(value)? {
        let parent = if item.is_null() {
            u32::MAX
        } else {
            small(item)?
        };
        all.push(parent)?;
    }
    Ok(all)
}

fn put_place(place: Option<u32>, out: &mut String) -> Result<(), AllocError> {
    match place {
        Some(place) => write!(out, "{place}"),
        None => out.push_str("none"),
    }
}

fn put_node(tree: &Forest, node: u32, out: &mut String) -> Result<(), AllocError>
    requires { node < length tree.now }
{
    let parent = tree.parents()[node as usize];
    write!(out, "node {node}: parent ")?;
    put_place(
        if parent == u32::MAX {
            None
        } else {
            Some(parent)
        },
        out,
    )?;
    write!(out, ", height {}", tree.height(node))?;
    let (first, end) = tree.leaf_range(node);
    write!(out, ", leaves {first} to {end}, first child ")?;
    put_place(tree.first_child(node), out)?;
    out.push_str(", next child ")?;
    put_place(tree.next_child(node), out)?;
    out.push('\n')
}

fn put_nodes(tree: &Forest, out: &mut String) -> Result<(), AllocError> {
    for node in 0..tree.parents().len() as u32 {
        put_node(tree, node, out)?;
    }
    Ok(())
}

/// The nodes of a tree, or the first fault of a list of parents.
pub fn told(alloc: Global, case: &Value) -> Result<String, CaseFault> {
    let parents = parents(alloc, field(case, "parents")?)?;
    if parents.len() >= 4_294_967_296 {
        return Err(CaseFault::Value);
    }
    let mut out = String::new(alloc);
    match Forest::new(alloc, &parents) {
        Ok(tree) => put_nodes(&tree, &mut out)?,
        Err(fault) => write!(out, "{fault}")?,
    }
    Ok(out)
}
