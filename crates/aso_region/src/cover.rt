// Whether tuples cover the cell of some data leaves.
ghost use Rattle.std.specs.Prelude.{◌≡◌};
ghost use Rattle.std.specs.List.{list_all, list_any};
ghost use Rattle.aso_region.specs.Kept.{holds_leaf as holds_leaf_of, number_of as number_of_leaf};

use crate::chosen::Chosen;
use crate::tables::class_in;
use aso_num::List;

/// The number by which a range of a member finds a data leaf.
fn number_of(tables: &[List<List<Option<u32>>>], chosen: &Chosen, leaf: u32) -> Option<u32>
    ensures { result ≡ number_of_leaf tables.now chosen.now leaf }
{
    match chosen.hier {
        None => Some(leaf),
        Some(hier) => class_in(tables, chosen.dim, hier, leaf),
    }
}

/// The member holds the leaf of its dimension.
fn holds_leaf(tables: &[List<List<Option<u32>>>], leaves: &[u32], chosen: &Chosen) -> bool
    ensures { result ≡ holds_leaf_of tables.now leaves.now chosen.now }
{
    let Some(leaf) = leaves.get(chosen.dim as usize) else {
        return false;
    };
    match number_of(tables, chosen, *leaf) {
        Some(number) => chosen.first <= number && number < chosen.end,
        None => false,
    }
}

/// Each member of a tuple holds the leaf of its dimension.
fn holds_leaves(tables: &[List<List<Option<u32>>>], leaves: &[u32], row: &[Chosen]) -> bool
    ensures { result ≡ list_all (holds_leaf_of tables.now leaves.now) row.now }
{
    for chosen in row {
        if !holds_leaf(tables, leaves, chosen) {
            return false;
        }
    }
    true
}

/// Some tuple covers the cell of these leaves.
pub fn any_holds(tables: &[List<List<Option<u32>>>], leaves: &[u32], rows: &[List<Chosen>]) -> bool
    ensures { result ≡ list_any (list_all (holds_leaf_of tables.now leaves.now)) rows.now }
{
    for row in rows {
        if holds_leaves(tables, leaves, row.items()) {
            return true;
        }
    }
    false
}
