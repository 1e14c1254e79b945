// Whether the cells of a record are cells of an outline.
ghost use Rattle.std.specs.Prelude.{◌≡◌, ◌<◌, ◌^◌, IfOk};
ghost use Rattle.std.specs.List.{list_all};
ghost use Rattle.aso_cellnames.specs.Leaves.{are_leaves, leaf_counts};
ghost use Rattle.aso_machine.specs.State.{entry, fits_outline, is_cell_of};

use aso_catalog::{LeafCell, Record};
use aso_memory::NoMemory;
use aso_outline::Outline;
use std::alloc::Global;

const LEAST_PAST_RANGE: u128 = 1_000_000_000_000_000_000;

// For each dimension how many data leaves it has.
fn leaf_counts(alloc: Global, outline: &Outline) -> Result<Vec<u32>, NoMemory>
    ensures { IfOk result (λ counts. counts.items ≡ leaf_counts outline.now) }
{
    let mut counts = Vec::new(alloc);
    for dim in 0..outline.dims() {
        counts.push(outline.leaf_count(dim))?;
    }
    Ok(counts)
}

// A leaf for each count, and below it. The depth of the calls is the number of dimensions.
fn are_leaves(counts: &[u32], leaves: &[u32]) -> bool
    ensures { result ≡ are_leaves counts.now leaves.now }
{
    let [count, counts @ ..] = counts else {
        return leaves.is_empty();
    };
    let [leaf, leaves @ ..] = leaves else {
        return false;
    };
    *leaf < *count && are_leaves(counts, leaves)
}

fn is_cell_of(counts: &[u32], cell: &LeafCell) -> bool
    ensures { result ≡ is_cell_of counts.now (entry cell.now) }
{
    are_leaves(counts, cell.leaves.items()) && cell.amount.unsigned_abs() < LEAST_PAST_RANGE
}

fn are_cells_of(counts: &[u32], cells: &[LeafCell]) -> bool
    ensures { result ≡ list_all (λ c. is_cell_of counts.now (entry c)) cells.now }
{
    for cell in cells {
        if !is_cell_of(counts, cell) {
            return false;
        }
    }
    true
}

/// Whether the record's cells are cells of the outline, each a data leaf of every dimension and an amount in range.
pub fn fits(alloc: Global, outline: &Outline, saved: &Record) -> Result<bool, NoMemory>
    ensures { IfOk result (λ fits. fits ≡ fits_outline saved.now outline.now) }
{
    if u32::from(saved.dimensions) != outline.dims() {
        return Ok(false);
    }
    let counts = leaf_counts(alloc, outline)?;
    Ok(are_cells_of(&counts, saved.cells.items()))
}
