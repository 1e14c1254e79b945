// The members that share data leaves, found by their names.
ghost use Rattle.std.specs.Prelude.{◌≡◌, ◌<◌, ◌≤◌, ◌^◌, ◌++◌, ℕ, List, length, map, Some, None, is_some, option_to_list, OnOk, IfOk, if◌then◌else◌};
ghost use Rattle.std.specs.HashMap.{get_by_text};
ghost use Rattle.std.specs.List.{filter, position};
ghost use Rattle.std.specs.Option.{option_map, option_and_then};
ghost use Rattle.aso_tree.specs.Trees.{places_of, IsTree};
ghost use Rattle.aso_outline.specs.Leaves.{is_data_place, name_in, shared_in};
ghost use Rattle.aso_outline.specs.Members.{member_is, names_at, parents_of, same_name};
ghost use Rattle.aso_outline.specs.Rules.{same_own, shares};

use crate::build::ordinal_step;
use crate::draft::DraftMember;
use crate::leaves::is_data_place;
use crate::table::NameTable;
use aso_num::NoMemory;
use std::alloc::Global;

/// The name of the data leaf at a place, if there is one.
fn leaf_name(members: &[DraftMember], place: u32) -> Option<&str>
    requires short { length members.now < 2 ^ 32 }
    requires tree { IsTree (parents_of members.now) }
    requires within { place < length members.now }
    ensures { option_map (λ n. n.now) result ≡ (if is_data_place members.now place then Some (name_in members.now place) else None) }
{
    if is_data_place(members, place) {
        Some(members[place as usize].name.as_str())
    } else {
        None
    }
}

/// The name that a shared member shares.
fn sharer_name(members: &[DraftMember], place: u32) -> Option<&str>
    requires { place < length members.now }
    ensures { option_map (λ n. n.now) result ≡ (if member_is (λ m. m.shared) members.now place then Some (name_in members.now place) else None) }
{
    if members[place as usize].shared {
        Some(members[place as usize].name.as_str())
    } else {
        None
    }
}

fn note_name(alloc: Global, names: &mut NameTable, name: &str, number: u32) -> Result<(), NoMemory>
    ensures { OnOk result ((q : List ℕ) → get_by_text names.new.map q ≡ (if is_some (get_by_text names.old.map q) then get_by_text names.old.map q else (if same_name q name.now then Some number else None))) }
{
    if names.find(name).is_some() {
        return Ok(());
    }
    names.add(alloc, name, number)?;
    Ok(())
}

/// Notes a name under this number, unless it is known already.
fn note(
    alloc: Global,
    names: &mut NameTable,
    name: Option<&str>,
    number: u32,
) -> Result<(), NoMemory>
    ensures { OnOk result ((q : List ℕ) → get_by_text names.new.map q ≡ (if is_some (get_by_text names.old.map q) then get_by_text names.old.map q else (if same_own (Some q) (option_map (λ n. n.now) name.entry) then Some number else None))) }
{
    match name {
        Some(name) => note_name(alloc, names, name, number),
        None => Ok(()),
    }
}

/// The ordinals of the data leaves by their names.
pub fn leaf_names(alloc: Global, members: &[DraftMember]) -> Result<NameTable, NoMemory>
    requires short { length members.now < 2 ^ 32 }
    requires tree { IsTree (parents_of members.now) }
    ensures { IfOk result (λ t. (q : List ℕ) → get_by_text t.map q ≡ position (same_name q) (names_at members.now (filter (is_data_place members.now) (places_of members.now)))) }
{
    let mut names = NameTable::new(alloc);
    let mut count = 0;
    for place in 0..members.len() as u32 {
        note(alloc, &mut names, leaf_name(members, place), count)?;
        count = ordinal_step(members, place, count).1;
    }
    Ok(names)
}

/// The places of the members that share, by the names that they share: the first of each name.
pub fn sharer_names(alloc: Global, members: &[DraftMember]) -> Result<NameTable, NoMemory>
    requires { length members.now < 2 ^ 32 }
    ensures { IfOk result (λ t. (q : List ℕ) → get_by_text t.map q ≡ position (shares q) members.now) }
{
    let mut names = NameTable::new(alloc);
    for place in 0..members.len() as u32 {
        note(alloc, &mut names, sharer_name(members, place), place)?;
    }
    Ok(names)
}

fn push_found(
    found: &mut Vec<Option<u32>>,
    names: &NameTable,
    name: Option<&str>,
) -> Result<(), NoMemory>
    ensures { OnOk result (found.new.items ≡ found.old.items ++ map (get_by_text names.now.map) (option_to_list (option_map (λ n. n.now) name.entry))) }
{
    if let Some(name) = name {
        found.push(names.find(name))?;
    }
    Ok(())
}

/// Of each data leaf, by ordinal, what its name is noted under.
pub fn leaf_sharers(
    alloc: Global,
    members: &[DraftMember],
    names: &NameTable,
) -> Result<Vec<Option<u32>>, NoMemory>
    requires short { length members.now < 2 ^ 32 }
    requires tree { IsTree (parents_of members.now) }
    ensures { IfOk result (λ v. v.items ≡ map (get_by_text names.now.map) (names_at members.now (filter (is_data_place members.now) (places_of members.now)))) }
{
    let mut found = Vec::new(alloc);
    for place in 0..members.len() as u32 {
        push_found(&mut found, names, leaf_name(members, place))?;
    }
    Ok(found)
}

fn found_if(names: &NameTable, name: Option<&str>) -> Option<u32>
    ensures { result ≡ option_and_then (get_by_text names.now.map) (option_map (λ n. n.now) name.entry) }
{
    match name {
        Some(name) => names.find(name),
        None => None,
    }
}

/// Of each place what the name that is shared there is noted under.
pub fn shared_leaves(
    alloc: Global,
    members: &[DraftMember],
    names: &NameTable,
) -> Result<Vec<Option<u32>>, NoMemory>
    requires { length members.now < 2 ^ 32 }
    ensures { IfOk result (λ v. v.items ≡ map (shared_in (get_by_text names.now.map) members.now) (places_of members.now)) }
{
    let mut found = Vec::new(alloc);
    for place in 0..members.len() as u32 {
        found.push(found_if(names, sharer_name(members, place)))?;
    }
    Ok(found)
}
