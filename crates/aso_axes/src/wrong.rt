// The first name of a set that breaks a rule of dimensions.
ghost use Rattle.std.specs.Prelude.{◌≡◌, ◌<◌, ◌++◌, ◌∷◌, ◌&&◌, [], drop, length, map, not, nat_lt, IfOk};
ghost use Rattle.std.specs.Option.{option_copied, option_map};
ghost use Rattle.std.specs.List.{list_any, find as first};
ghost use Rattle.aso_axes.specs.Members.{IsNumbered, can_give as can_give_part, may_have as may_have_member, same_dim as same_dims};
ghost use Rattle.aso_axes.specs.Sets.{Said, first_refused as first_refused_of, is_beginning as is_beginning_of, is_misplaced as is_misplaced_at, is_wanted as is_wanted_by, past as past_of, said_of, said_of_both, said_of_items, too_short, wrong_items as wrong_items_of, wrong_member as wrong_member_of, wrong_tuple as wrong_tuple_of};

use crate::given::{given, may_have};
use crate::members::{is_root, name_of, same_dim};
use crate::names::{dim_at, member_at, strange_part, told};
use crate::part::{Part, Purpose};
use crate::said::said_of_set;
use aso_mdx::SetText;
use aso_memory::NoMemory;
use aso_num::{List, Text};
use aso_outline::{DimRef, ExtraMember, Outline};
use std::alloc::Global;

fn has_dim(dims: &[DimRef], dim: DimRef) -> bool
    ensures { result ≡ list_any (same_dims dim) dims.now }
{
    dims.iter().any(|other| same_dim(dim, *other))
}

/// The dimension is the first of those that are wanted, where some are.
fn is_wanted(wanted: Option<&[DimRef]>, dim: DimRef) -> bool
    ensures { result ≡ is_wanted_by (option_map (λ w. w.now) wanted.entry) dim }
{
    match wanted {
        None => true,
        Some([]) => false,
        Some([first, ..]) => same_dim(*first, dim),
    }
}

/// What is wanted behind so many dimensions.
fn past<'w>(count: usize, wanted: Option<&'w [DimRef]>) -> Option<&'w [DimRef]>
    ensures { option_map (λ w. w.now) result ≡ past_of count (option_map (λ w. w.now) wanted.entry) }
{
    match wanted {
        None => None,
        Some(wanted) => Some(behind(count, wanted)),
    }
}

fn behind(count: usize, dims: &[DimRef]) -> &[DimRef]
    ensures { result.now ≡ drop count dims.now }
{
    if count < dims.len() {
        &dims[count..]
    } else {
        &[]
    }
}

fn can_give(outline: &Outline, part: Part, n: u32) -> bool
    ensures { result ≡ can_give_part outline.now part n }
{
    match part {
        Part::Members => is_root(outline, n),
        _ => true,
    }
}

fn is_misplaced(
    outline: &Outline,
    own: &[ExtraMember],
    part: Part,
    path: &[Text],
    before: &[DimRef],
    wanted: Option<&[DimRef]>,
) -> bool
    requires { IsNumbered outline.now own.now }
    ensures { result ≡ is_misplaced_at outline.now own.now part path.now before.now (option_map (λ w. w.now) wanted.entry) }
{
    let dim = dim_at(outline, own, path);
    strange_part(outline, own, path).is_some()
        || has_dim(before, dim)
        || !is_wanted(wanted, dim)
        || !can_give(outline, part, member_at(outline, own, path))
}

fn is_refused(outline: &Outline, purpose: Purpose, n: u32) -> bool
    ensures { result ≡ not (may_have_member outline.now purpose n) }
{
    !may_have(outline, purpose, n)
}

fn find_refused<'m>(outline: &Outline, purpose: Purpose, members: &'m [u32]) -> Option<&'m u32>
    ensures { option_copied result ≡ first (λ n. not (may_have_member outline.now purpose n)) members.now }
{
    members.iter().find(|n| is_refused(outline, purpose, **n))
}

fn refused_in(outline: &Outline, purpose: Purpose, members: &[u32]) -> Option<u32>
    ensures { result ≡ first (λ n. not (may_have_member outline.now purpose n)) members.now }
{
    find_refused(outline, purpose, members).copied()
}

/// The first member that is given and may not be. An axis may have each.
#[tactic(auto, using(crate::proofs::WrongLemmas::none_refused))]
fn first_refused<'a>(
    alloc: Global,
    outline: &'a Outline,
    own: &'a [ExtraMember],
    purpose: Purpose,
    part: Part,
    path: &[Text],
) -> Result<Option<&'a str>, NoMemory>
    requires { IsNumbered outline.now own.now }
    ensures { IfOk result (λ found. option_map (λ s. s.now) found ≡ first_refused_of outline.now own.now purpose part path.now) }
{
    match purpose {
        Purpose::Axis => Ok(None),
        Purpose::Region => {
            let members = given(alloc, outline, part, member_at(outline, own, path))?;
            match refused_in(outline, purpose, members.as_slice()) {
                Some(n) => Ok(Some(name_of(outline, own, n))),
                None => Ok(None),
            }
        }
    }
}

fn wrong_member<'a>(
    alloc: Global,
    outline: &'a Outline,
    own: &'a [ExtraMember],
    purpose: Purpose,
    part: Part,
    path: &'a [Text],
    before: &[DimRef],
    wanted: Option<&[DimRef]>,
) -> Result<Option<&'a str>, NoMemory>
    requires { IsNumbered outline.now own.now }
    ensures { IfOk result (λ found. option_map (λ s. s.now) found ≡ wrong_member_of outline.now own.now purpose part path.now before.now (option_map (λ w. w.now) wanted.entry)) }
{
    if is_misplaced(outline, own, part, path, before, wanted) {
        return Ok(Some(told(outline, own, path)));
    }
    first_refused(alloc, outline, own, purpose, part, path)
}

#[tactic(auto, using(crate::proofs::WrongLemmas::longer))]
fn is_beginning(dims: &[DimRef], wanted: &[DimRef]) -> bool
    ensures { result ≡ is_beginning_of dims.now wanted.now }
{
    let [dim, later @ ..] = dims else {
        return true;
    };
    let [first, rest @ ..] = wanted else {
        return false;
    };
    same_dim(*dim, *first) && is_beginning(later, rest)
}

/// The list is a mere beginning of the wanted one.
fn is_short(dims: &[DimRef], wanted: &[DimRef]) -> bool
    ensures { result ≡ (nat_lt (length dims.now) (length wanted.now) && is_beginning_of dims.now wanted.now) }
{
    dims.len() < wanted.len() && is_beginning(dims, wanted)
}

/// The dimensions that were named before, and one more.
fn with_dim(alloc: Global, before: &[DimRef], dim: DimRef) -> Result<Vec<DimRef>, NoMemory>
    ensures { IfOk result (λ v. v.items ≡ before.now ++ dim ∷ []) }
{
    let mut named = Vec::new(alloc);
    named.extend_from_slice(before)?;
    named.push(dim)?;
    Ok(named)
}

/// Each member of a tuple stands behind the dimensions of those before it, which are few: a dimension that comes again is wrong.
#[tactic(auto, using(crate::proofs::WrongLemmas::some_first, crate::proofs::WrongLemmas::none_first, crate::proofs::WrongLemmas::some_mapped))]
pub fn wrong_tuple<'a>(
    alloc: Global,
    outline: &'a Outline,
    own: &'a [ExtraMember],
    purpose: Purpose,
    paths: &'a [List<Text>],
    before: &[DimRef],
    wanted: Option<&[DimRef]>,
) -> Result<Option<&'a str>, NoMemory>
    requires { IsNumbered outline.now own.now }
    ensures { IfOk result (λ found. option_map (λ s. s.now) found ≡ wrong_tuple_of outline.now own.now purpose paths.now before.now (option_map (λ w. w.now) wanted.entry)) }
{
    let [path, rest @ ..] = paths else {
        return Ok(None);
    };
    let path = path.items();
    let found = wrong_member(
        alloc,
        outline,
        own,
        purpose,
        Part::Itself,
        path,
        before,
        wanted,
    )?;
    if found.is_some() {
        return Ok(found);
    }
    let named = with_dim(alloc, before, dim_at(outline, own, path))?;
    wrong_tuple(
        alloc,
        outline,
        own,
        purpose,
        rest,
        named.as_slice(),
        past(1, wanted),
    )
}

/// A later item of braces has the list of the first.
#[cycle(wrong)]
#[tactic(auto, using(crate::proofs::WrongLemmas::some_first, crate::proofs::WrongLemmas::none_first, crate::proofs::WrongLemmas::some_mapped))]
fn wrong_item<'a>(
    alloc: Global,
    outline: &'a Outline,
    own: &'a [ExtraMember],
    purpose: Purpose,
    item: &'a SetText,
    before: &[DimRef],
    wanted: &[DimRef],
) -> Result<Option<&'a str>, NoMemory>
    requires { IsNumbered outline.now own.now }
    ensures { IfOk result (λ found. option_map (λ s. s.now) found ≡ wrong_items_of outline.now own.now before.now wanted.now (said_of outline.now own.now purpose item.now ∷ [])) }
{
    let mut dims = Vec::new(alloc);
    let first = said_of_set(outline, own, purpose, item, &mut dims)?;
    if is_short(dims.as_slice(), wanted) {
        return Ok(Some(told(outline, own, first)));
    }
    wrong_in(alloc, outline, own, purpose, item, before, Some(wanted))
}

/// The first wrong name of the items behind the first.
#[cycle(wrong)]
fn wrong_items<'a>(
    alloc: Global,
    outline: &'a Outline,
    own: &'a [ExtraMember],
    purpose: Purpose,
    items: &'a [SetText],
    before: &[DimRef],
    wanted: &[DimRef],
) -> Result<Option<&'a str>, NoMemory>
    requires { IsNumbered outline.now own.now }
    ensures { IfOk result (λ found. option_map (λ s. s.now) found ≡ wrong_items_of outline.now own.now before.now wanted.now (map (said_of outline.now own.now purpose) (drop 1 items.now))) }
{
    for at in 1..items.len() {
        let item = &items[at];
        let found = wrong_item(alloc, outline, own, purpose, item, before, wanted)?;
        if found.is_some() {
            return Ok(found);
        }
    }
    Ok(None)
}

#[cycle(wrong)]
#[tactic(auto, using(crate::proofs::WrongLemmas::some_first, crate::proofs::WrongLemmas::none_first, crate::proofs::WrongLemmas::some_mapped))]
fn wrong_braces<'a>(
    alloc: Global,
    outline: &'a Outline,
    own: &'a [ExtraMember],
    purpose: Purpose,
    items: &'a [SetText],
    before: &[DimRef],
    wanted: Option<&[DimRef]>,
) -> Result<Option<&'a str>, NoMemory>
    requires { IsNumbered outline.now own.now }
    ensures { IfOk result (λ found. option_map (λ s. s.now) found ≡ (said_of_items outline.now own.now (map (said_of outline.now own.now purpose) items.now)).wrong before.now (option_map (λ w. w.now) wanted.entry)) }
{
    let [first, ..] = items else {
        return Ok(None);
    };
    let found = wrong_in(alloc, outline, own, purpose, first, before, wanted)?;
    if found.is_some() {
        return Ok(found);
    }
    let mut dims = Vec::new(alloc);
    said_of_set(outline, own, purpose, first, &mut dims)?;
    wrong_items(alloc, outline, own, purpose, items, before, dims.as_slice())
}

/// The dimensions that were named before, and those of a set behind them.
fn named_behind(
    alloc: Global,
    outline: &Outline,
    own: &[ExtraMember],
    purpose: Purpose,
    set: &SetText,
    before: &[DimRef],
) -> Result<Vec<DimRef>, NoMemory>
    requires { IsNumbered outline.now own.now }
    ensures { IfOk result (λ v. v.items ≡ before.now ++ (said_of outline.now own.now purpose set.now).dims) }
{
    let mut named = Vec::new(alloc);
    named.extend_from_slice(before)?;
    said_of_set(outline, own, purpose, set, &mut named)?;
    Ok(named)
}

/// The first name of a set, in text order, that is wrong behind the dimensions that were named before it, where a list is wanted
/// of it.
#[cycle(wrong)]
#[tactic(auto, using(crate::proofs::SetSteps::said_braced, crate::proofs::SetSteps::said_member, crate::proofs::SetSteps::said_tuple, crate::proofs::SetSteps::said_children, crate::proofs::SetSteps::said_members, crate::proofs::SetSteps::said_descendants, crate::proofs::SetSteps::said_leaves, crate::proofs::SetSteps::said_crossjoin, crate::proofs::WrongLemmas::some_first, crate::proofs::WrongLemmas::none_first, crate::proofs::WrongLemmas::some_mapped))]
pub fn wrong_in<'a>(
    alloc: Global,
    outline: &'a Outline,
    own: &'a [ExtraMember],
    purpose: Purpose,
    set: &'a SetText,
    before: &[DimRef],
    wanted: Option<&[DimRef]>,
) -> Result<Option<&'a str>, NoMemory>
    requires { IsNumbered outline.now own.now }
    ensures { IfOk result (λ found. option_map (λ s. s.now) found ≡ (said_of outline.now own.now purpose set.now).wrong before.now (option_map (λ w. w.now) wanted.entry)) }
{
    match set {
        SetText::Braced(items) => {
            wrong_braces(
                alloc,
                outline,
                own,
                purpose,
                items.as_slice(),
                before,
                wanted,
            )
        }
        SetText::Member(path) => wrong_member(
            alloc,
            outline,
            own,
            purpose,
            Part::Itself,
            path.items(),
            before,
            wanted,
        ),
        SetText::Tuple(paths) => {
            wrong_tuple(alloc, outline, own, purpose, paths.items(), before, wanted)
        }
        SetText::Children(path) => wrong_member(
            alloc,
            outline,
            own,
            purpose,
            Part::Children,
            path.items(),
            before,
            wanted,
        ),
        SetText::Members(path) => wrong_member(
            alloc,
            outline,
            own,
            purpose,
            Part::Members,
            path.items(),
            before,
            wanted,
        ),
        SetText::Descendants(path) => wrong_member(
            alloc,
            outline,
            own,
            purpose,
            Part::Descendants,
            path.items(),
            before,
            wanted,
        ),
        SetText::Leaves(path) => wrong_member(
            alloc,
            outline,
            own,
            purpose,
            Part::Leaves,
            path.items(),
            before,
            wanted,
        ),
        SetText::Crossjoin(left, right) => {
            let found = wrong_in(alloc, outline, own, purpose, left.get(), before, wanted)?;
            if found.is_some() {
                return Ok(found);
            }
            let named = named_behind(alloc, outline, own, purpose, left.get(), before)?;
            let wanted = past(named.len() - before.len(), wanted);
            wrong_in(
                alloc,
                outline,
                own,
                purpose,
                right.get(),
                named.as_slice(),
                wanted,
            )
        }
    }
}
