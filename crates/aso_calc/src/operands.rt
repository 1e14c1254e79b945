// Tuples in which a member is replaced by what its value needs.
ghost use Rattle.std.specs.Prelude.{◌≡◌, ◌<◌, ◌++◌, [], None, Some, map, length, set, unwrap_or, if◌then◌else◌, IfOk, OnOk};
ghost use Rattle.std.specs.List.{cons_option, filter, filter_map, last_or};
ghost use Rattle.aso_outline.specs.Members.{find};
ghost use Rattle.aso_outline.specs.Ranks.{at_number, is_of_dim};
ghost use Rattle.aso_calc.specs.Values.{replaced, resolved};

use crate::members::target;
use aso_memory::NoMemory;
use aso_num::Text;
use aso_outline::{DimRef, Outline};
use std::alloc::Global;

fn push_found(found: Option<u32>, all: &mut Vec<u32>) -> Result<(), NoMemory>
    ensures { OnOk result (all.new.items ≡ all.old.items ++ cons_option found []) }
{
    if let Some(member) = found {
        all.push(member)?;
    }
    Ok(())
}

/// The members that an atom names.
fn members_named(alloc: Global, outline: &Outline, names: &[Text]) -> Result<Vec<u32>, NoMemory>
    ensures { IfOk result (λ v. v.items ≡ filter_map (find outline.now) names.now) }
{
    let mut all = Vec::new(alloc);
    for name in names {
        push_found(outline.find(name.as_str()), &mut all)?;
    }
    Ok(all)
}

/// The member is one of the base dimension.
fn is_of_dim(outline: &Outline, dim: usize, member: u32) -> bool
    ensures { result ≡ at_number (is_of_dim dim) outline.now member }
{
    if member < outline.members() {
        match outline.dim_of(member) {
            DimRef::Base(other) => dim == other as usize,
            DimRef::Attr(_) => false,
        }
    } else {
        false
    }
}

fn choose(is_new: bool, member: u32, found: Option<u32>) -> Option<u32>
    ensures { result ≡ (if is_new then Some member else found) }
{
    if is_new { Some(member) } else { found }
}

/// The last of the members that is one of the dimension.
fn last_of_dim(outline: &Outline, dim: usize, members: &[u32]) -> Option<u32>
    ensures { result ≡ last_or None (filter (at_number (is_of_dim dim) outline.now) members.now) }
{
    let mut found = None;
    for member in members {
        let is_new = is_of_dim(outline, dim, *member);
        found = choose(is_new, *member, found);
    }
    found
}

fn or_else(found: Option<u32>, other: u32) -> u32
    ensures { result ≡ unwrap_or found other }
{
    match found {
        Some(member) => member,
        None => other,
    }
}

/// The members of an atom in place of those of their dimensions.
pub fn replaced(
    alloc: Global,
    outline: &Outline,
    base: &[u32],
    names: &[Text],
) -> Result<Vec<u32>, NoMemory>
    ensures { IfOk result (λ v. v.items ≡ replaced outline.now base.now names.now) }
{
    let members = members_named(alloc, outline, names)?;
    let mut all = Vec::new(alloc);
    for at in 0..base.len() {
        let found = last_of_dim(outline, at, members.as_slice());
        all.push(or_else(found, base[at]))?;
    }
    Ok(all)
}

/// What each member stands for.
pub fn resolved(alloc: Global, outline: &Outline, base: &[u32]) -> Result<Vec<u32>, NoMemory>
    ensures { IfOk result (λ v. v.items ≡ resolved outline.now base.now) }
{
    let mut all = Vec::new(alloc);
    for member in base {
        all.push(target(outline, *member))?;
    }
    Ok(all)
}

/// The child in place of the member at a place.
pub fn with_child(alloc: Global, base: &[u32], at: usize, child: u32) -> Result<Vec<u32>, NoMemory>
    requires { at < length base.now }
    ensures { IfOk result (λ v. v.items ≡ set base.now at child) }
{
    let mut all = Vec::new(alloc);
    all.extend_from_slice(base)?;
    all[at] = child;
    Ok(all)
}
