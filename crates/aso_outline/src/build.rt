// The tables of an outline: one pass over the members of each tree for each table.
ghost use Rattle.std.specs.Prelude.{◌≡◌, ◌+◌, ◌<◌, ◌≤◌, ◌^◌, ◌++◌, ◌∷◌, [], max, not, map, length, None, IfOk, OnOk, if◌then◌else◌};
ghost use Rattle.std.specs.List.{filter, range_with_len};
ghost use Rattle.aso_tree.specs.Trees.{height, places_of, IsTree};
ghost use Rattle.aso_outline.specs.Classes.{leaf_count, leaf_ordinal, shared_leaf, sharer_of};
ghost use Rattle.aso_outline.specs.Graph.{AreRanks};
ghost use Rattle.aso_outline.specs.Heights.{top_height};
ghost use Rattle.aso_outline.specs.Leaves.{is_data_place, leaves_before, ordinal_in};
ghost use Rattle.aso_outline.specs.Members.{attr_tree, data_leaves, dim_at, member_is, parents_of, seats, tree, tree_of, whole_seats};
ghost use Rattle.aso_outline.specs.Rules.{broken};
ghost use Rattle.aso_outline.specs.Small.{HasTrees, IsSmall};
ghost use Rattle.aso_outline.specs.Tables.{AreEach, AreLeafNames, AreTables, IsAttrTable, IsDimTable, IsTreeTable, before_attr, before_dim, before_hier};

use crate::draft::{Draft, DraftMember};
use crate::leaves::is_data_place;
use crate::seat::Seat;
use crate::seats::seats;
use crate::sharers::{leaf_names, leaf_sharers, shared_leaves, sharer_names};
use crate::table::NameTable;
use crate::tables::{AttrTable, DimTable, Tables, TreeTable};
use crate::trees::sound_tree;
use aso_num::NoMemory;
use aso_tree::{Forest, TreeFault};
use std::alloc::Global;

/// The place of each member's parent.
fn parents(alloc: Global, members: &[DraftMember]) -> Result<Vec<u32>, NoMemory>
    ensures { IfOk result (λ v. v.items ≡ parents_of members.now) }
{
    let mut parents = Vec::new(alloc);
    for member in members {
        parents.push(member.parent)?;
    }
    Ok(parents)
}

/// The tree that some members are.
fn forest(alloc: Global, members: &[DraftMember]) -> Result<Forest, NoMemory>
    requires short { length members.now < 2 ^ 32 }
    requires tree { IsTree (parents_of members.now) }
    ensures { IfOk result (λ f. f ≡ parents_of members.now) }
{
    let parents = parents(alloc, members)?;
    match Forest::new(alloc, parents.as_slice()) {
        Ok(forest) => Ok(forest),
        Err(TreeFault::NotPreorder { .. }) => unreachable!(),
        Err(TreeFault::Deep { .. }) => unreachable!(),
        Err(TreeFault::NoMemory) => Err(NoMemory),
    }
}

/// The greater of `top` and the height of the member at a place, if it isn't label only.
fn raised(members: &[DraftMember], forest: &Forest, place: u32, top: u32) -> u32
    requires forest { forest.now ≡ parents_of members.now }
    requires within { place < length members.now }
    ensures { result ≡ (if member_is (λ m. not m.label_only) members.now place then max top (height (parents_of members.now) place) else top) }
{
    if members[place as usize].label_only {
        return top;
    }
    let height = forest.height(place);
    if top < height { height } else { top }
}

/// The height of its highest member without a label-only mark.
fn top_height(members: &[DraftMember], forest: &Forest) -> u32
    requires short { length members.now < 2 ^ 32 }
    requires forest { forest.now ≡ parents_of members.now }
    ensures { result ≡ top_height members.now }
{
    let mut top = 0;
    for place in 0..members.len() as u32 {
        top = raised(members, forest, place, top);
    }
    top
}

fn push_if(places: &mut Vec<u32>, place: u32, is_one: bool) -> Result<(), NoMemory>
    ensures { OnOk result (places.new.items ≡ places.old.items ++ (if is_one then place ∷ [] else [])) }
{
    if is_one {
        places.push(place)?;
    }
    Ok(())
}

/// The places of the data leaves.
fn leaf_places(alloc: Global, members: &[DraftMember]) -> Result<Vec<u32>, NoMemory>
    requires short { length members.now < 2 ^ 32 }
    requires tree { IsTree (parents_of members.now) }
    ensures { IfOk result (λ v. v.items ≡ filter (is_data_place members.now) (places_of members.now)) }
{
    let mut leaves = Vec::new(alloc);
    for place in 0..members.len() as u32 {
        push_if(&mut leaves, place, is_data_place(members, place))?;
    }
    Ok(leaves)
}

/// The ordinal of the data leaf at a place, where so many stand before it, and how many stand before the next place.
pub fn ordinal_step(members: &[DraftMember], place: u32, before: u32) -> (Option<u32>, u32)
    requires short { length members.now < 2 ^ 32 }
    requires tree { IsTree (parents_of members.now) }
    requires within { place < length members.now }
    requires before { before ≡ length (filter (is_data_place members.now) (range_with_len 0 place)) }
    requires few { before ≤ place }
    ensures ordinal { result.0 ≡ ordinal_in members.now place }
    ensures next { result.1 ≡ length (filter (is_data_place members.now) (range_with_len 0 (place + 1))) }
    ensures few { result.1 ≤ place + 1 }
{
    if is_data_place(members, place) {
        (Some(before), before + 1)
    } else {
        (None, before)
    }
}

/// Of each place the ordinal of the data leaf there.
fn ordinals(alloc: Global, members: &[DraftMember]) -> Result<Vec<Option<u32>>, NoMemory>
    requires short { length members.now < 2 ^ 32 }
    requires tree { IsTree (parents_of members.now) }
    ensures { IfOk result (λ v. v.items ≡ map (ordinal_in members.now) (places_of members.now)) }
{
    let mut ordinals = Vec::new(alloc);
    let mut count = 0;
    for place in 0..members.len() as u32 {
        let (ordinal, next) = ordinal_step(members, place, count);
        ordinals.push(ordinal)?;
        count = next;
    }
    Ok(ordinals)
}

/// How many data leaves stand before each place, and before the end.
fn leaf_counts(alloc: Global, members: &[DraftMember]) -> Result<Vec<u32>, NoMemory>
    requires short { length members.now < 2 ^ 32 }
    requires tree { IsTree (parents_of members.now) }
    ensures { IfOk result (λ v. v.items ≡ map (leaves_before members.now) (range_with_len 0 (length members.now + 1))) }
{
    let mut counts = Vec::new(alloc);
    let mut count = 0;
    for place in 0..members.len() as u32 {
        counts.push(count)?;
        let (_ordinal, next) = ordinal_step(members, place, count);
        count = next;
    }
    counts.push(count)?;
    Ok(counts)
}

/// Of each data leaf the place of the first member of a hierarchy that shares it.
fn sharers(alloc: Global, draft: &Draft, dim: u32, hier: u32) -> Result<Vec<Option<u32>>, NoMemory>
    requires { HasTrees draft.now }
    ensures { IfOk result (λ v. v.items ≡ map (sharer_of draft.now dim hier) (range_with_len 0 (leaf_count draft.now dim))) }
{
    let own = sound_tree(draft, Seat::Inner { dim, hier, at: 0 });
    let first = sound_tree(
        draft,
        Seat::Inner {
            dim,
            hier: 0,
            at: 0,
        },
    );
    let names = sharer_names(alloc, own)?;
    let found = leaf_sharers(alloc, first, &names)?;
    Ok(found)
}

/// Of each place of a hierarchy the data leaf that is shared there.
fn shared(
    alloc: Global,
    draft: &Draft,
    names: &NameTable,
    dim: u32,
    hier: u32,
) -> Result<Vec<Option<u32>>, NoMemory>
    requires trees { HasTrees draft.now }
    requires names { AreLeafNames draft.now dim names.now }
    ensures { IfOk result (λ v. v.items ≡ map (shared_leaf draft.now dim hier) (places_of (tree (dim_at draft.now dim) hier))) }
{
    let own = sound_tree(draft, Seat::Inner { dim, hier, at: 0 });
    let found = shared_leaves(alloc, own, names)?;
    Ok(found)
}

/// The table of a hierarchy, whose root has this number.
fn tree_table(
    alloc: Global,
    draft: &Draft,
    names: &NameTable,
    dim: u32,
    hier: u32,
    first: u32,
) -> Result<TreeTable, NoMemory>
    requires trees { HasTrees draft.now }
    requires names { AreLeafNames draft.now dim names.now }
    requires first { first ≡ before_hier draft.now dim hier }
    ensures { IfOk result (IsTreeTable draft.now dim hier) }
{
    let members = sound_tree(draft, Seat::Inner { dim, hier, at: 0 });
    let forest = forest(alloc, members)?;
    let top = top_height(members, &forest);
    let sharers = sharers(alloc, draft, dim, hier)?;
    let shared = shared(alloc, draft, names, dim, hier)?;
    Ok(TreeTable {
        first,
        forest,
        top,
        sharers,
        shared,
    })
}

/// The number behind the last member of a hierarchy, whose root has this number.
fn behind_hier(draft: &Draft, dim: u32, hier: u32, first: u32) -> u32
    requires trees { HasTrees draft.now }
    requires few { length (seats draft.now) < 2 ^ 32 }
    requires dim { dim < length draft.now.dims }
    requires hier { hier < length (dim_at draft.now dim).hiers }
    requires first { first ≡ before_hier draft.now dim hier }
    ensures { result ≡ before_hier draft.now dim (hier + 1) }
{
    first + sound_tree(draft, Seat::Inner { dim, hier, at: 0 }).len() as u32
}

/// How many hierarchies a dimension has.
pub fn hier_count(draft: &Draft, dim: u32) -> u32
    requires small { IsSmall draft.now }
    ensures { result ≡ length (dim_at draft.now dim).hiers }
{
    match draft.dims.items().get(dim as usize) {
        Some(dim) => dim.hiers.items().len() as u32,
        None => 0,
    }
}

/// How many members stand above a dimension's hierarchies.
fn whole_count(draft: &Draft, dim: u32) -> u32
    requires small { IsSmall draft.now }
    ensures { result ≡ length (whole_seats (dim_at draft.now dim) dim) }
{
    if hier_count(draft, dim) > 1 { 1 } else { 0 }
}

/// The number of the first root of a dimension that begins with this number.
fn first_root(draft: &Draft, dim: u32, first: u32) -> u32
    requires small { IsSmall draft.now }
    requires few { length (seats draft.now) < 2 ^ 32 }
    requires dim { dim < length draft.now.dims }
    requires first { first ≡ before_dim draft.now dim }
    ensures { result ≡ before_hier draft.now dim 0 }
{
    first + whole_count(draft, dim)
}

/// The tables of a dimension's hierarchies, and the number behind its last member.
fn tree_tables(
    alloc: Global,
    draft: &Draft,
    names: &NameTable,
    dim: u32,
    first: u32,
) -> Result<(Vec<TreeTable>, u32), NoMemory>
    requires trees { HasTrees draft.now }
    requires small { IsSmall draft.now }
    requires few { length (seats draft.now) < 2 ^ 32 }
    requires names { AreLeafNames draft.now dim names.now }
    requires dim { dim < length draft.now.dims }
    requires first { first ≡ before_dim draft.now dim }
    ensures { IfOk result (λ r. AreEach (IsTreeTable draft.now dim) (length (dim_at draft.now dim).hiers) r.0.items × (r.1 ≡ before_dim draft.now (dim + 1))) }
{
    let mut tables = Vec::new(alloc);
    let mut number = first_root(draft, dim, first);
    for hier in 0..hier_count(draft, dim) {
        tables.push(tree_table(alloc, draft, names, dim, hier, number)?)?;
        number = behind_hier(draft, dim, hier, number);
    }
    Ok((tables, number))
}

/// The table of a dimension that begins with this number.
fn dim_table(alloc: Global, draft: &Draft, dim: u32, first: u32) -> Result<DimTable, NoMemory>
    requires trees { HasTrees draft.now }
    requires small { IsSmall draft.now }
    requires few { length (seats draft.now) < 2 ^ 32 }
    requires dim { dim < length draft.now.dims }
    requires first { first ≡ before_dim draft.now dim }
    ensures { IfOk result (IsDimTable draft.now dim) }
{
    let members = sound_tree(
        draft,
        Seat::Inner {
            dim,
            hier: 0,
            at: 0,
        },
    );
    let leaves = leaf_places(alloc, members)?;
    let ordinals = ordinals(alloc, members)?;
    let counts = leaf_counts(alloc, members)?;
    let names = leaf_names(alloc, members)?;
    let (trees, end) = tree_tables(alloc, draft, &names, dim, first)?;
    Ok(DimTable {
        first,
        end,
        leaves,
        ordinals,
        counts,
        trees,
    })
}

/// The tables of the base dimensions, and the number behind the last base member.
fn dim_tables(alloc: Global, draft: &Draft) -> Result<(Vec<DimTable>, u32), NoMemory>
    requires trees { HasTrees draft.now }
    requires small { IsSmall draft.now }
    requires few { length (seats draft.now) < 2 ^ 32 }
    ensures { IfOk result (λ r. AreEach (IsDimTable draft.now) (length draft.now.dims) r.0.items × (r.1 ≡ before_dim draft.now (length draft.now.dims))) }
{
    let mut tables = Vec::new(alloc);
    let mut number = 0;
    for dim in 0..draft.dims.items().len() as u32 {
        let table = dim_table(alloc, draft, dim, number)?;
        number = table.end;
        tables.push(table)?;
    }
    Ok((tables, number))
}

/// The table of an attribute dimension, whose root has this number.
fn attr_table(alloc: Global, draft: &Draft, attr: u32, first: u32) -> Result<AttrTable, NoMemory>
    requires trees { HasTrees draft.now }
    requires first { first ≡ before_attr draft.now attr }
    ensures { IfOk result (IsAttrTable draft.now attr) }
{
    let forest = forest(alloc, sound_tree(draft, Seat::Carried { attr, at: 0 }))?;
    Ok(AttrTable { first, forest })
}

/// The number behind the last member of an attribute dimension, whose root has this number.
fn behind_attr(draft: &Draft, attr: u32, first: u32) -> u32
    requires trees { HasTrees draft.now }
    requires few { length (seats draft.now) < 2 ^ 32 }
    requires attr { attr < length draft.now.attrs }
    requires first { first ≡ before_attr draft.now attr }
    ensures { result ≡ before_attr draft.now (attr + 1) }
{
    first + sound_tree(draft, Seat::Carried { attr, at: 0 }).len() as u32
}

/// The tables of the attribute dimensions, whose members' numbers begin with this one.
fn attr_tables(alloc: Global, draft: &Draft, first: u32) -> Result<Vec<AttrTable>, NoMemory>
    requires trees { HasTrees draft.now }
    requires small { IsSmall draft.now }
    requires few { length (seats draft.now) < 2 ^ 32 }
    requires first { first ≡ before_dim draft.now (length draft.now.dims) }
    ensures { IfOk result (λ v. AreEach (IsAttrTable draft.now) (length draft.now.attrs) v.items) }
{
    let mut tables = Vec::new(alloc);
    let mut number = first;
    for attr in 0..draft.attrs.items().len() as u32 {
        tables.push(attr_table(alloc, draft, attr, number)?)?;
        number = behind_attr(draft, attr, number);
    }
    Ok(tables)
}

fn sound_tables(alloc: Global, draft: &Draft, ranks: Vec<Option<u32>>) -> Result<Tables, NoMemory>
    requires trees { HasTrees draft.now }
    requires small { IsSmall draft.now }
    requires few { length (seats draft.now) < 2 ^ 32 }
    requires ranks { AreRanks draft.now ranks.items }
    ensures { IfOk result (AreTables draft.now) }
{
    let seats = seats(alloc, draft)?;
    let (dims, end) = dim_tables(alloc, draft)?;
    let attrs = attr_tables(alloc, draft, end)?;
    Ok(Tables {
        seats,
        dims,
        attrs,
        ranks,
    })
}

/// The tables of a draft that keeps the rules, with its ranks.
pub fn tables_of(alloc: Global, draft: &Draft, ranks: Vec<Option<u32>>) -> Result<Tables, NoMemory>
    requires kept { broken draft.now ≡ None }
    requires ranks { AreRanks draft.now ranks.items }
    ensures { IfOk result (AreTables draft.now) }
{
    sound_tables(alloc, draft, ranks)
}
