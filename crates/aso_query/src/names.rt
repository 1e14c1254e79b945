// The names of the members of a cell.
ghost use Rattle.std.specs.Prelude.{◌≡◌, ◌++◌, ◌∷◌, [], map, IfOk, OnOk};
ghost use Rattle.std.specs.List.{filter_map};
ghost use Rattle.aso_axes.specs.Members.{name_of as name_of_member};
ghost use Rattle.aso_query.specs.Answers.{names_of};

use aso_axes::{copied, name_of};
use aso_memory::NoMemory;
use aso_num::Text;
use aso_outline::{ExtraMember, Outline, Tuple};
use std::alloc::Global;

fn push_name(
    alloc: Global,
    outline: &Outline,
    own: &[ExtraMember],
    n: u32,
    names: &mut Vec<Text>,
) -> Result<(), NoMemory>
    ensures { OnOk result (names.new.items ≡ names.old.items ++ name_of_member outline.now own.now n ∷ []) }
{
    let name = copied(alloc, name_of(outline, own, n))?;
    names.push(name)?;
    Ok(())
}

/// Appends the names of the members of the base dimensions.
fn push_names(
    alloc: Global,
    outline: &Outline,
    own: &[ExtraMember],
    members: &[u32],
    names: &mut Vec<Text>,
) -> Result<(), NoMemory>
    ensures { OnOk result (names.new.items ≡ names.old.items ++ map (name_of_member outline.now own.now) members.now) }
{
    for n in members {
        push_name(alloc, outline, own, *n, names)?;
    }
    Ok(())
}

/// The members of the attribute dimensions that are asked.
fn asked_of(alloc: Global, attrs: &[Option<u32>]) -> Result<Vec<u32>, NoMemory>
    ensures { IfOk result (λ v. v.items ≡ filter_map (λ a. a) attrs.now) }
{
    let mut members = Vec::new(alloc);
    for attr in attrs {
        if let Some(n) = attr {
            members.push(*n)?;
        }
    }
    Ok(members)
}

/// The names of a cell's members: one for each base dimension, then those of the attribute dimensions that are asked.
pub fn cell_names(
    alloc: Global,
    outline: &Outline,
    own: &[ExtraMember],
    cell: &Tuple,
) -> Result<Vec<Text>, NoMemory>
    ensures { IfOk result (λ names. names.items ≡ names_of outline.now own.now cell.now) }
{
    let mut names = Vec::new(alloc);
    push_names(alloc, outline, own, cell.base.items(), &mut names)?;
    let attrs = asked_of(alloc, cell.attrs.items())?;
    push_names(alloc, outline, own, &attrs, &mut names)?;
    Ok(names)
}
