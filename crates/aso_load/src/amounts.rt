// The amounts of a record, each at its data leaves.
ghost use Rattle.std.specs.Prelude.{◌≡◌, ◌++◌, ◌∷◌, [], IfOk, OnOk, set};
ghost use Rattle.std.specs.List.{cons_option};
ghost use Rattle.aso_load.specs.Records.{amount_in, amounts_in, fixed_leaves, member_pair, put_members, shared_leaves};

use crate::members::dim_of;
use crate::told::Told;
use aso_num::{Amount, List, NoMemory};
use aso_outline::Outline;
use aso_rules::Column;
use std::alloc::Global;

// The dimension and the data leaf of a member that is one.
fn member_pair(outline: &Outline, m: u32) -> (u32, u32)
    ensures { result ≡ member_pair outline.now m }
{
    if m < outline.members() {
        (dim_of(outline.seat(m)), outline.leaf_of(m).unwrap_or(0))
    } else {
        (0, 0)
    }
}

fn put_leaf(leaves: &mut [u32], dim: u32, leaf: u32)
    ensures { leaves.new ≡ set leaves.old dim leaf }
{
    if (dim as usize) < leaves.len() {
        leaves[dim as usize] = leaf;
    }
}

fn put_members(outline: &Outline, members: &[u32], leaves: &mut [u32])
    ensures { leaves.new ≡ put_members outline.now leaves.old members.now }
{
    for m in members {
        let (dim, leaf) = member_pair(outline, *m);
        put_leaf(leaves, dim, leaf);
    }
}

/// One entry for each base dimension, with the leaves of the fixed members.
pub fn fixed_leaves(alloc: Global, outline: &Outline, fixed: &[u32]) -> Result<Vec<u32>, NoMemory>
    ensures { IfOk result (λ leaves. leaves.items ≡ fixed_leaves outline.now fixed.now) }
{
    let mut leaves = vec![in alloc; 0; outline.dims() as usize]?;
    put_members(outline, fixed, &mut leaves);
    Ok(leaves)
}

fn put_told(leaves: &mut [u32], told: Told)
    ensures { leaves.new ≡ shared_leaves leaves.old (told ∷ []) }
{
    if let Told::Leaf { dim, leaf } = told {
        put_leaf(leaves, dim, leaf);
    }
}

/// The leaves that all amounts of a record share: those of the fixed members, and those that its fields name.
pub fn shared_leaves(fixed: &[u32], told: &[Told], leaves: &mut Vec<u32>) -> Result<(), NoMemory>
    ensures { OnOk result (leaves.new.items ≡ shared_leaves fixed.now told.now) }
{
    leaves.clear();
    leaves.extend_from_slice(fixed)?;
    for field in told {
        put_told(leaves, *field);
    }
    Ok(())
}

fn amount_in(
    alloc: Global,
    outline: &Outline,
    shared: &[u32],
    column: &Column,
    told: Told,
) -> Result<Option<(List<u32>, Amount)>, NoMemory>
    ensures { IfOk result (λ a. a ≡ amount_in outline.now shared.now column.now told) }
{
    match (column, told) {
        (Column::Amounts { members }, Told::Amount(amount)) => {
            let mut leaves = shared.to_vec(alloc)?;
            put_members(outline, members.items(), &mut leaves);
            Ok(Some((List::of(leaves), amount)))
        }
        _ => Ok(None),
    }
}

fn push_some(
    amounts: &mut Vec<(List<u32>, Amount)>,
    amount: Option<(List<u32>, Amount)>,
) -> Result<(), NoMemory>
    ensures { OnOk result (amounts.new.items ≡ amounts.old.items ++ cons_option amount []) }
{
    if let Some(amount) = amount {
        amounts.push(amount)?;
    }
    Ok(())
}

/// Adds the amounts of a record that isn't rejected, in the order of its fields.
pub fn push_amounts(
    alloc: Global,
    outline: &Outline,
    shared: &[u32],
    columns: &[Column],
    told: &[Told],
    amounts: &mut Vec<(List<u32>, Amount)>,
) -> Result<(), NoMemory>
    ensures { OnOk result (amounts.new.items ≡ amounts.old.items ++ amounts_in outline.now shared.now columns.now told.now) }
{
    for (i, column) in columns.iter().enumerate() {
        let Some(field) = told.get(i) else {
            return Ok(());
        };
        push_some(amounts, amount_in(alloc, outline, shared, column, *field)?)?;
    }
    Ok(())
}
