// The tuples of a set, each member with the data leaves that it holds.
ghost use Rattle.std.specs.Prelude.{◌≡◌, map, true, IfOk};
ghost use Rattle.std.specs.List.{list_all, All};
ghost use Rattle.aso_axes.specs.Members.{may_have};
ghost use Rattle.aso_axes.specs.declared.part.Purpose.TheVariants.{Region as Covers};
ghost use Rattle.aso_region.specs.Kept.{AreChosen, members_of};

use crate::chosen::{Chosen, chosen_of};
use aso_memory::NoMemory;
use aso_num::List;
use aso_outline::Outline;
use std::alloc::Global;

fn row_of(alloc: Global, outline: &Outline, members: &[u32]) -> Result<List<Chosen>, NoMemory>
    requires { list_all (may_have outline.now Covers) members.now ≡ true }
    ensures members { IfOk result (λ row. members_of row ≡ members.now) }
    ensures exact { IfOk result (AreChosen outline.now) }
{
    let mut row = Vec::new(alloc);
    for m in members {
        let chosen = chosen_of(outline, *m);
        row.push(chosen)?;
    }
    Ok(List::of(row))
}

pub fn rows_of(
    alloc: Global,
    outline: &Outline,
    tuples: &[List<u32>],
) -> Result<List<List<Chosen>>, NoMemory>
    requires { list_all (list_all (may_have outline.now Covers)) tuples.now ≡ true }
    ensures members { IfOk result (λ rows. map members_of rows ≡ tuples.now) }
    ensures exact { IfOk result (All (AreChosen outline.now)) }
{
    let mut rows = Vec::new(alloc);
    for members in tuples {
        let row = row_of(alloc, outline, members.items())?;
        rows.push(row)?;
    }
    Ok(List::of(rows))
}
