// The list of dimensions of a set, and its first member.
ghost use Rattle.std.specs.Prelude.{◌≡◌, ◌++◌, ◌∷◌, [], map, slice_get, unwrap_or, OnOk, IfOk};
ghost use Rattle.aso_axes.specs.Members.{IsNumbered};
ghost use Rattle.aso_axes.specs.Sets.{dim_at as dim_named, said_of, said_of_both, said_of_items};

use crate::names::dim_at;
use crate::part::Purpose;
use aso_mdx::SetText;
use aso_memory::NoMemory;
use aso_num::{List, Text};
use aso_outline::{DimRef, ExtraMember, Outline};

fn said_of_member<'a>(
    outline: &Outline,
    own: &[ExtraMember],
    path: &'a [Text],
    dims: &mut Vec<DimRef>,
) -> Result<&'a [Text], NoMemory>
    requires { IsNumbered outline.now own.now }
    ensures dims { OnOk result (dims.new.items ≡ dims.old.items ++ dim_named outline.now own.now path.now ∷ []) }
    ensures first { IfOk result (λ p. p.now ≡ path.now) }
{
    dims.push(dim_at(outline, own, path))?;
    Ok(path)
}

/// The first of some members.
fn first_of(paths: &[List<Text>]) -> &[Text]
    ensures { result.now ≡ unwrap_or (slice_get paths.now 0) [] }
{
    match paths.get(0) {
        Some(path) => path.items(),
        None => &[],
    }
}

pub fn said_of_tuple<'a>(
    outline: &Outline,
    own: &[ExtraMember],
    paths: &'a [List<Text>],
    dims: &mut Vec<DimRef>,
) -> Result<&'a [Text], NoMemory>
    requires { IsNumbered outline.now own.now }
    ensures dims { OnOk result (dims.new.items ≡ dims.old.items ++ map (dim_named outline.now own.now) paths.now) }
    ensures first { IfOk result (λ p. p.now ≡ unwrap_or (slice_get paths.now 0) []) }
{
    for path in paths {
        dims.push(dim_at(outline, own, path.items()))?;
    }
    Ok(first_of(paths))
}

#[cycle(said)]
fn said_of_braces<'a>(
    outline: &Outline,
    own: &[ExtraMember],
    purpose: Purpose,
    items: &'a [SetText],
    dims: &mut Vec<DimRef>,
) -> Result<&'a [Text], NoMemory>
    requires { IsNumbered outline.now own.now }
    ensures dims { OnOk result (dims.new.items ≡ dims.old.items ++ (said_of_items outline.now own.now (map (said_of outline.now own.now purpose) items.now)).dims) }
    ensures first { IfOk result (λ p. p.now ≡ (said_of_items outline.now own.now (map (said_of outline.now own.now purpose) items.now)).first) }
{
    match items {
        [] => Ok(&[]),
        [first, ..] => said_of_set(outline, own, purpose, first, dims),
    }
}

/// Adds the list of dimensions of a set, and gives its first member.
#[cycle(said)]
#[tactic(auto, using(crate::proofs::SetSteps::said_braced, crate::proofs::SetSteps::said_member, crate::proofs::SetSteps::said_tuple, crate::proofs::SetSteps::said_children, crate::proofs::SetSteps::said_members, crate::proofs::SetSteps::said_descendants, crate::proofs::SetSteps::said_leaves, crate::proofs::SetSteps::said_crossjoin))]
pub fn said_of_set<'a>(
    outline: &Outline,
    own: &[ExtraMember],
    purpose: Purpose,
    set: &'a SetText,
    dims: &mut Vec<DimRef>,
) -> Result<&'a [Text], NoMemory>
    requires { IsNumbered outline.now own.now }
    ensures dims { OnOk result (dims.new.items ≡ dims.old.items ++ (said_of outline.now own.now purpose set.now).dims) }
    ensures first { IfOk result (λ p. p.now ≡ (said_of outline.now own.now purpose set.now).first) }
{
    match set {
        SetText::Braced(items) => said_of_braces(outline, own, purpose, items.as_slice(), dims),
        SetText::Member(path) => said_of_member(outline, own, path.items(), dims),
        SetText::Tuple(paths) => said_of_tuple(outline, own, paths.items(), dims),
        SetText::Children(path) => said_of_member(outline, own, path.items(), dims),
        SetText::Members(path) => said_of_member(outline, own, path.items(), dims),
        SetText::Descendants(path) => said_of_member(outline, own, path.items(), dims),
        SetText::Leaves(path) => said_of_member(outline, own, path.items(), dims),
        SetText::Crossjoin(left, right) => {
            let first = said_of_set(outline, own, purpose, left.get(), dims)?;
            said_of_set(outline, own, purpose, right.get(), dims)?;
            Ok(first)
        }
    }
}
