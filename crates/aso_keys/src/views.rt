ghost use Rattle.std.specs.Prelude.{◌≡◌, ◌↔◌, ℕ, ◌+◌, ◌*◌, ◌<◌, ◌≤◌, ◌⊎◌, ◌++◌, List, length, map, replicate, IfOk, IfSome, IfNone, IsTrue, OnOk};
ghost use Rattle.aso_outline.specs.declared.seat.Seat.TheVariants.{Inner};
ghost use Rattle.aso_outline.specs.Members.{dim_at, is_dynamic};
ghost use Rattle.aso_outline.specs.Heights.{top_of};
ghost use Rattle.aso_outline.specs.declared.draft.Aggregate.TheVariants.{All};
ghost use Rattle.aso_keys.specs.Views.{levels, hier_choices, choices, all_choices, views, IsNumbered, IsBase, IsView, IsCoarserChoice, IsCoarserView};

use aso_memory::NoMemory;
use aso_num::List;
use aso_outline::{Aggregate, Draft, Outline, View};
use std::alloc::Global;

// Whether a hierarchy of a dimension is dynamic.
fn is_dynamic(draft: &Draft, dim: u32, hier: u32) -> bool
    ensures { result ≡ is_dynamic draft.now (Inner dim hier 0) }
{
    match draft.dims.items().get(dim as usize) {
        Some(dim) => match dim.hiers.items().get(hier as usize) {
            Some(hier) => hier.dynamic,
            None => false,
        },
        None => false,
    }
}

// Which levels a dimension offers.
fn aggregate(draft: &Draft, dim: u32) -> Aggregate
    ensures { result ≡ (dim_at draft.now dim).aggregate }
{
    match draft.dims.items().get(dim as usize) {
        Some(dim) => dim.aggregate,
        None => Aggregate::All,
    }
}

fn add_all(offered: &mut Vec<(u32, u32)>, hier: u32, top: u32) -> Result<(), NoMemory>
    ensures { OnOk result (offered.new.items ≡ offered.old.items ++ map (λ (level : ℕ). (hier, level)) (levels All top)) }
{
    for level in 0..top {
        offered.push((hier, level + 1))?;
    }
    Ok(())
}

// Adds the levels of a hierarchy that are offered.
fn add_levels(
    offered: &mut Vec<(u32, u32)>,
    aggregate: Aggregate,
    hier: u32,
    top: u32,
) -> Result<(), NoMemory>
    ensures { OnOk result (offered.new.items ≡ offered.old.items ++ map (λ (level : ℕ). (hier, level)) (levels aggregate top)) }
{
    match aggregate {
        Aggregate::All => add_all(offered, hier, top),
        Aggregate::Top => {
            if top > 0 {
                offered.push((hier, top))?;
            }
            Ok(())
        }
        Aggregate::Bottom => Ok(()),
    }
}

// Adds the choices of a hierarchy.
fn add_hier(
    offered: &mut Vec<(u32, u32)>,
    outline: &Outline,
    dim: u32,
    hier: u32,
) -> Result<(), NoMemory>
    requires dim { dim < length outline.now.dims }
    requires hier { hier < length (dim_at outline.now dim).hiers }
    ensures { OnOk result (offered.new.items ≡ offered.old.items ++ hier_choices outline.now dim hier) }
{
    let draft = outline.draft();
    if is_dynamic(draft, dim, hier) {
        return Ok(());
    }
    add_levels(offered, aggregate(draft, dim), hier, outline.top(dim, hier))
}

// What views choose of a dimension.
fn offered(alloc: Global, outline: &Outline, dim: u32) -> Result<Vec<(u32, u32)>, NoMemory>
    requires { dim < length outline.now.dims }
    ensures { IfOk result (λ offered. offered.items ≡ choices outline.now dim) }
{
    let mut offered = vec![in alloc; (0, 0)]?;
    for hier in 0..outline.hiers(dim) {
        add_hier(&mut offered, outline, dim, hier)?;
    }
    Ok(offered)
}

// Level 0 of each dimension.
fn base(alloc: Global, outline: &Outline) -> Result<View, NoMemory>
    ensures { IfOk result (λ v. v.choices ≡ replicate (length outline.now.dims) (0, 0)) }
{
    let choices = vec![in alloc; (0, 0); outline.dims() as usize]?;
    Ok(View {
        choices: List::of(choices),
    })
}

/// The view with a number: its choices read as a number with one digit for each dimension, the last the fastest. The
/// choices of a dimension are level 0 and then, for each stored hierarchy in order, those of its levels from 1 to its top
/// that the dimension offers. View 0 is at level 0 everywhere. None where the outline has no view of the number, or more
/// than 4096 views and the number isn't 0.
pub fn view_of(alloc: Global, outline: &Outline, number: u32) -> Result<Option<View>, NoMemory>
    ensures given { IfOk result (λ o. IfSome o (λ v. IsNumbered (all_choices outline.now) number v.choices)) }
    ensures few { IfOk result (λ o. IfSome o (λ v. (number ≡ 0) ⊎ (views (all_choices outline.now) ≤ 4096))) }
    ensures none { IfOk result (λ o. IfNone o ((1 ≤ number) × ((4096 < views (all_choices outline.now)) ⊎ (views (all_choices outline.now) ≤ number)))) }
    ensures view { IfOk result (λ o. IfSome o (λ v. IsView outline.now v.choices)) }
    ensures base { number ≡ 0 → IfOk result (λ o. IfSome o (λ v. IsBase v.choices)) }
{
    if number == 0 {
        let base = base(alloc, outline)?;
        return Ok(Some(base));
    }
    let dims = outline.dims();
    let mut choices = Vec::new(alloc);
    let mut rest = u64::from(number);
    let mut views = 1u128;
    for back in 0..dims {
        let offered = offered(alloc, outline, dims - 1 - back)?;
        let count = offered.len();
        choices.push(offered[(rest % count as u64) as usize])?;
        rest /= count as u64;
        views *= count as u128;
        if views > 4096 {
            return Ok(None);
        }
    }
    if rest > 0 {
        return Ok(None);
    }
    choices.reverse();
    Ok(Some(View {
        choices: List::of(choices),
    }))
}

// Whether a choice is coarser than another, or the same.
fn is_coarser_choice(coarse: (u32, u32), fine: (u32, u32)) -> bool
    ensures { IsTrue result ↔ IsCoarserChoice coarse fine }
{
    fine.1 == 0 || (coarse.0 == fine.0 && fine.1 <= coarse.1)
}

fn are_coarser(coarse: &[(u32, u32)], fine: &[(u32, u32)]) -> bool
    ensures { IsTrue result ↔ IsCoarserView coarse.now fine.now }
{
    let [choice, coarse @ ..] = coarse else {
        return fine.is_empty();
    };
    let [other, fine @ ..] = fine else {
        return false;
    };
    is_coarser_choice(*choice, *other) && are_coarser(coarse, fine)
}

/// Whether a view is coarser than another, or the same: of each dimension the finer is at level 0, or both are in one
/// hierarchy and the coarser at no lower a level.
pub fn is_coarser(coarse: &View, fine: &View) -> bool
    ensures { IsTrue result ↔ IsCoarserView coarse.now.choices fine.now.choices }
{
    are_coarser(coarse.choices.items(), fine.choices.items())
}
