// The members of a set in text order, and their names.
ghost use Rattle.std.specs.Prelude.{◌≡◌, ◌++◌, ◌∷◌, [], map, OnOk};
ghost use Rattle.std.specs.List.{flat_map};
ghost use Rattle.aso_axes.specs.Sets.{paths_of};

use aso_mdx::SetText;
use aso_memory::NoMemory;
use aso_num::{List, Text};

fn push_path<'a>(path: &'a [Text], all: &mut Vec<&'a [Text]>) -> Result<(), NoMemory>
    ensures { OnOk result (map (λ a. a.now) all.new.items ≡ map (λ a. a.now) all.old.items ++ path.now ∷ []) }
{
    all.push(path)?;
    Ok(())
}

/// Adds the members of a tuple.
pub fn push_tuple<'a>(paths: &'a [List<Text>], all: &mut Vec<&'a [Text]>) -> Result<(), NoMemory>
    ensures { OnOk result (map (λ a. a.now) all.new.items ≡ map (λ a. a.now) all.old.items ++ paths.now) }
{
    for path in paths {
        all.push(path.items())?;
    }
    Ok(())
}

#[cycle(paths)]
fn push_items<'a>(items: &'a [SetText], all: &mut Vec<&'a [Text]>) -> Result<(), NoMemory>
    ensures { OnOk result (map (λ a. a.now) all.new.items ≡ map (λ a. a.now) all.old.items ++ flat_map paths_of items.now) }
{
    for item in items {
        push_paths(item, all)?;
    }
    Ok(())
}

/// Adds the members of a set in text order, each by its parts.
#[cycle(paths)]
#[tactic(auto, using(crate::proofs::SetSteps::paths_braced, crate::proofs::SetSteps::paths_member, crate::proofs::SetSteps::paths_tuple, crate::proofs::SetSteps::paths_children, crate::proofs::SetSteps::paths_members, crate::proofs::SetSteps::paths_descendants, crate::proofs::SetSteps::paths_leaves, crate::proofs::SetSteps::paths_crossjoin))]
pub fn push_paths<'a>(set: &'a SetText, all: &mut Vec<&'a [Text]>) -> Result<(), NoMemory>
    ensures { OnOk result (map (λ a. a.now) all.new.items ≡ map (λ a. a.now) all.old.items ++ paths_of set.now) }
{
    match set {
        SetText::Braced(items) => push_items(items.as_slice(), all),
        SetText::Member(path) => push_path(path.items(), all),
        SetText::Tuple(paths) => push_tuple(paths.items(), all),
        SetText::Children(path) => push_path(path.items(), all),
        SetText::Members(path) => push_path(path.items(), all),
        SetText::Descendants(path) => push_path(path.items(), all),
        SetText::Leaves(path) => push_path(path.items(), all),
        SetText::Crossjoin(left, right) => {
            push_paths(left.get(), all)?;
            push_paths(right.get(), all)?;
            Ok(())
        }
    }
}
