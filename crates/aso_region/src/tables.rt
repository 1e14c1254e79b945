// The classes of data leaves at level 1 of the stored hierarchies behind the first.
ghost use Rattle.std.specs.Prelude.{◌≡◌, ◌<◌, ◌≤◌, length, map, IfOk};
ghost use Rattle.std.specs.List.{list_any, range_with_len};
ghost use Rattle.aso_outline.specs.Classes.{class_at, leaf_count};
ghost use Rattle.aso_outline.specs.Heights.{top_of};
ghost use Rattle.aso_outline.specs.Members.{dim_at};
ghost use Rattle.aso_region.specs.Kept.{class_in as class_in_tables, goes_by as goes_by_at, has_table as has_table_at, is_needed as is_needed_at, table_of as table_at, tables_for as tables_of_rows, tables_in as tables_at};

use crate::chosen::Chosen;
use aso_memory::NoMemory;
use aso_num::List;
use aso_outline::Outline;
use std::alloc::Global;

/// By base dimension and hierarchy the class of each data leaf, if it has one; empty where nothing needs it.
pub type Tables = List<List<List<Option<u32>>>>;

fn classes_of(
    alloc: Global,
    outline: &Outline,
    dim: u32,
    hier: u32,
) -> Result<List<Option<u32>>, NoMemory>
    requires dim { dim < length outline.now.dims }
    requires hier { hier < length (dim_at outline.now dim).hiers }
    requires level { 1 ≤ top_of outline.now dim hier }
    ensures { IfOk result (λ r. r ≡ map (class_at outline.now dim hier 1) (range_with_len 0 (leaf_count outline.now dim))) }
{
    let mut all = Vec::new(alloc);
    for leaf in 0..outline.leaf_count(dim) {
        let class = outline.class_of(dim, hier, 1, leaf);
        all.push(class)?;
    }
    Ok(List::of(all))
}

fn has_table(outline: &Outline, dim: u32, hier: u32) -> bool
    requires dim { dim < length outline.now.dims }
    requires hier { hier < length (dim_at outline.now dim).hiers }
    ensures { result ≡ has_table_at outline.now dim hier }
{
    hier > 0 && !outline.is_dynamic(dim, hier) && outline.top(dim, hier) > 0
}

fn goes_by(chosen: &Chosen, dim: u32, hier: u32) -> bool
    ensures { result ≡ goes_by_at dim hier chosen.now }
{
    match chosen.hier {
        Some(own) => chosen.dim == dim && own == hier,
        None => false,
    }
}

fn some_goes_by(row: &[Chosen], dim: u32, hier: u32) -> bool
    ensures { result ≡ list_any (goes_by_at dim hier) row.now }
{
    for chosen in row {
        if goes_by(chosen, dim, hier) {
            return true;
        }
    }
    false
}

/// Some member of the tuples finds its leaves by their classes in the hierarchy.
fn is_needed(rows: &[List<Chosen>], dim: u32, hier: u32) -> bool
    ensures { result ≡ is_needed_at rows.now dim hier }
{
    for row in rows {
        if some_goes_by(row.items(), dim, hier) {
            return true;
        }
    }
    false
}

fn table_of(
    alloc: Global,
    outline: &Outline,
    rows: &[List<Chosen>],
    dim: u32,
    hier: u32,
) -> Result<List<Option<u32>>, NoMemory>
    requires dim { dim < length outline.now.dims }
    requires hier { hier < length (dim_at outline.now dim).hiers }
    ensures { IfOk result (λ r. r ≡ table_at outline.now rows.now dim hier) }
{
    if has_table(outline, dim, hier) && is_needed(rows, dim, hier) {
        classes_of(alloc, outline, dim, hier)
    } else {
        Ok(List::of(Vec::new(alloc)))
    }
}

fn tables_in(
    alloc: Global,
    outline: &Outline,
    rows: &[List<Chosen>],
    dim: u32,
) -> Result<List<List<Option<u32>>>, NoMemory>
    requires { dim < length outline.now.dims }
    ensures { IfOk result (λ r. r ≡ tables_at outline.now rows.now dim) }
{
    let mut all = Vec::new(alloc);
    for hier in 0..outline.hiers(dim) {
        let table = table_of(alloc, outline, rows, dim, hier)?;
        all.push(table)?;
    }
    Ok(List::of(all))
}

/// The tables of each base dimension: one for each stored hierarchy behind the first whose classes these tuples need, in memory in
/// proportion to its dimension's data leaves.
pub fn tables_of(
    alloc: Global,
    outline: &Outline,
    rows: &[List<Chosen>],
) -> Result<Tables, NoMemory>
    ensures { IfOk result (λ r. r ≡ tables_of_rows outline.now rows.now) }
{
    let mut all = Vec::new(alloc);
    for dim in 0..outline.dims() {
        let tables = tables_in(alloc, outline, rows, dim)?;
        all.push(tables)?;
    }
    Ok(List::of(all))
}

/// The class of a data leaf in a hierarchy's table.
pub fn class_in(tables: &[List<List<Option<u32>>>], dim: u32, hier: u32, leaf: u32) -> Option<u32>
    ensures { result ≡ class_in_tables tables.now dim hier leaf }
{
    let hiers = tables.get(dim as usize)?;
    let classes = hiers.items().get(hier as usize)?;
    *classes.items().get(leaf as usize)?
}
