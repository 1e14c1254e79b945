// Members, and trees of them in preorder.
ghost use Rattle.std.specs.Prelude.{◌≡◌, [], length, codes, map};
ghost use Rattle.serde_json.specs.View.{view};
ghost use Rattle.aso_outjson.specs.Fields.{joined, lists_in, may};
ghost use Rattle.aso_outjson.specs.Gives.{Adds, Gives};
ghost use Rattle.aso_outjson.specs.Members.{member_in, tree_at, tree_in};
ghost use Rattle.aso_outjson.specs.Words.{capped};

use crate::fields::{may, need, no_others, object};
use crate::object::Object;
use crate::part::Part;
use crate::parts::Parts;
use crate::trouble::Trouble;
use crate::values::items;
use crate::written::{WrittenMember, WrittenTree};
use aso_outline::Op;
use serde_json::Value;
use std::alloc::Global;

/// Objects and lists nest no deeper in a JSON text.
const MOST_LEVELS: u8 = 127;

/// A number in 32 bits, which hold none past the greatest.
pub fn capped(number: usize) -> u32
    ensures { result ≡ capped number }
{
    if number <= u32::MAX as usize {
        number as u32
    } else {
        u32::MAX
    }
}

#[tactic(auto, unfolding(crate::specs::Members::member_in))]
fn member_in(alloc: Global, parent: u32, value: &Value) -> Result<WrittenMember, Trouble>
    ensures { Gives result (member_in parent (view value.now)) }
{
    object(alloc, value)?;
    let name = need(alloc, value, "name")?;
    let shared = may(alloc, value, "shared", false)?;
    let label_only = may(alloc, value, "label_only", false)?;
    let op = may(alloc, value, "op", Op::Plus)?;
    let solve = may(alloc, value, "solve", None)?;
    let formula = may(alloc, value, "formula", None)?;
    let carries = may(alloc, value, "attributes", Parts::of(Vec::new(alloc)))?;
    Ok(WrittenMember {
        name,
        parent,
        shared,
        label_only,
        op,
        solve,
        formula,
        carries,
    })
}

#[cycle(tree)]
#[tactic(auto, unfolding(crate::specs::Members::tree_at))]
fn tree_at(
    alloc: Global,
    levels: u8,
    parent: u32,
    value: &Value,
    members: &mut Vec<WrittenMember>,
) -> Result<(), Trouble>
    ensures { Adds result members.old.items members.new.items (tree_at levels parent (length members.old.items) (view value.now)) }
{
    if levels == 0 {
        return Err(Trouble::here(alloc));
    }
    let member = member_in(alloc, parent, value)?;
    let at = capped(members.len());
    members.push(member)?;
    match children(alloc, levels - 1, at, value, members) {
        Ok(()) => no_others(alloc, value, Object::Member),
        Err(trouble) => Err(trouble),
    }
}

#[cycle(tree)]
fn children(
    alloc: Global,
    levels: u8,
    parent: u32,
    value: &Value,
    members: &mut Vec<WrittenMember>,
) -> Result<(), Trouble>
    ensures { Adds result members.old.items members.new.items (may (lists_in (tree_at levels parent) (length members.old.items)) [] (codes "children") (view value.now)) }
{
    match value.get("children") {
        Some(said) => match trees(alloc, levels, parent, said, members) {
            Ok(()) => Ok(()),
            Err(trouble) => Err(trouble.under(alloc, "children")),
        },
        None => Ok(()),
    }
}

#[cycle(tree)]
fn trees(
    alloc: Global,
    levels: u8,
    parent: u32,
    value: &Value,
    members: &mut Vec<WrittenMember>,
) -> Result<(), Trouble>
    ensures { Adds result members.old.items members.new.items (lists_in (tree_at levels parent) (length members.old.items) (view value.now)) }
{
    match items(value) {
        Some(values) => each_tree(alloc, levels, parent, values, members),
        None => Err(Trouble::here(alloc)),
    }
}

#[cycle(tree)]
fn each_tree(
    alloc: Global,
    levels: u8,
    parent: u32,
    values: &[Value],
    members: &mut Vec<WrittenMember>,
) -> Result<(), Trouble>
    ensures { Adds result members.old.items members.new.items (joined (tree_at levels parent) 0 (length members.old.items) (map view values.now)) }
{
    for (number, value) in values.iter().enumerate() {
        if let Err(trouble) = tree_at(alloc, levels, parent, value, members) {
            return Err(trouble.under_number(alloc, number));
        }
    }
    Ok(())
}

impl Part for WrittenTree {
    ghost reads = { tree_in };

    #[tactic(auto, unfolding(crate::specs::Members::tree_in))]
    fn read(alloc: Global, value: &Value) -> Result<WrittenTree, Trouble> {
        let mut members = Vec::new(alloc);
        tree_at(alloc, MOST_LEVELS, u32::MAX, value, &mut members)?;
        Ok(WrittenTree {
            members: Parts::of(members),
        })
    }
}
