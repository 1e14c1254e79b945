// The cells of a sheet in its outline.
ghost use Rattle.std.specs.Prelude.{◌≡◌, ◌^◌, ◌<◌, ℕ, None, true, map, nat_le, pos, unsigned_abs, unwrap_or, IfOk, OnOk};
ghost use Rattle.std.specs.BTreeMap.{get};
ghost use Rattle.std.specs.Option.{option_map};
ghost use Rattle.std.specs.List.{find};
ghost use Rattle.aso_spec.specs.Cells.{add_at};
ghost use Rattle.aso_sheettext.specs.Texts.{cell as the_cell};
ghost use Rattle.aso_cellnames.specs.Leaves.{are_leaves, leaf_counts};
ghost use Rattle.aso_cellnames.specs.Names.{told};
ghost use Rattle.aso_sums.specs.Stored.{stored_value};
ghost use Rattle.aso_eval.specs.Entries.{AreAtLeaves, cell_in, cells_in, vec_order};
ghost use Rattle.aso_eval.specs.Sheets.{cells_of as cells_said, past as past_cell, unknown_in_cells as unknown_name, wrong_in_cells as wrong_name};

use aso_cellnames::{first_unknown, key_named, wrong_in_cell};
use aso_memory::NoMemory;
use aso_num::{Amount, Val};
use aso_outline::{Outline, Tuple};
use aso_sheettext::CellText;
use aso_sums::Sums;
use std::alloc::Global;
use std::collections::BTreeMap;

const LEAST_PAST_RANGE: u128 = 1_000_000_000_000_000_000;

/// The first name in the cells' lines that no member has.
pub fn unknown_in_cells<'a>(outline: &Outline, cells: &[CellText<'a>]) -> Option<&'a str>
    ensures { told result ≡ unknown_name outline.now (map the_cell cells.now) }
{
    for cell in cells {
        if let Some(name) = first_unknown(outline, &cell.names) {
            return Some(name);
        }
    }
    None
}

/// The first name that keeps the names of a line from being those of a cell.
pub fn wrong_in_cells<'a>(
    alloc: Global,
    outline: &'a Outline,
    cells: &'a [CellText<'a>],
) -> Result<Option<&'a str>, NoMemory>
    ensures { IfOk result (λ found. told found ≡ wrong_name outline.now (map the_cell cells.now)) }
{
    for cell in cells {
        if let Some(name) = wrong_in_cell(alloc, outline, &cell.names)? {
            return Ok(Some(name));
        }
    }
    Ok(None)
}

// The amount of a cell so far, 0 where it is missing.
fn amount_at(cells: &BTreeMap<Vec<u32>, i128>, key: &Vec<u32>) -> i128
    ensures { result ≡ unwrap_or (get vec_order cells.now key.now) (pos 0) }
{
    match cells.get(key) {
        Some(amount) => *amount,
        None => 0,
    }
}

// Adds an amount to a cell. A sum past 128 bits would need more lines than memory holds.
fn add(cells: &mut BTreeMap<Vec<u32>, i128>, key: Vec<u32>, amount: Amount) -> Result<(), NoMemory>
    ensures { OnOk result (cells_in cells.new.entries ≡ add_at key.items amount (cells_in cells.old.entries)) }
{
    let before = amount_at(cells, &key);
    let Some(sum) = before.checked_add(i128::from(amount.units())) else {
        return Err(NoMemory);
    };
    cells.insert(key, sum)?;
    Ok(())
}

// The cells that the lines make, by their leaves.
fn sums_of(
    alloc: Global,
    outline: &Outline,
    lines: &[CellText],
) -> Result<BTreeMap<Vec<u32>, i128>, NoMemory>
    ensures cells { IfOk result (λ cells. cells_in cells.entries ≡ cells_said outline.now (map the_cell lines.now)) }
    ensures leaves { IfOk result (λ cells. AreAtLeaves outline.now (cells_in cells.entries)) }
{
    let mut cells = BTreeMap::new(alloc);
    for line in lines {
        let key = key_named(alloc, outline, &line.names)?;
        add(&mut cells, key, line.amount)?;
    }
    Ok(cells)
}

/// The cells that the lines make: the leaves of each and its amount, in the order of the leaves.
pub fn cells_of(
    alloc: Global,
    outline: &Outline,
    lines: &[CellText],
) -> Result<Vec<(Vec<u32>, i128)>, NoMemory>
    ensures cells { IfOk result (λ v. cells_in v.items ≡ cells_said outline.now (map the_cell lines.now)) }
    ensures leaves { IfOk result (λ v. AreAtLeaves outline.now (cells_in v.items)) }
{
    let cells = sums_of(alloc, outline, lines)?;
    Ok(cells.into_iter().collect(alloc)?)
}

fn is_past(cell: &(Vec<u32>, i128)) -> bool
    ensures { result ≡ nat_le (10 ^ 18) (unsigned_abs cell.now.1) }
{
    cell.1.unsigned_abs() >= LEAST_PAST_RANGE
}

/// The least cell whose amount is out of range.
pub fn past(cells: &[(Vec<u32>, i128)]) -> Option<&(Vec<u32>, i128)>
    ensures { option_map (λ c. cell_in c.now) result ≡ past_cell (cells_in cells.now) }
{
    for cell in cells {
        if is_past(cell) {
            return Some(cell);
        }
    }
    None
}

// The amount of a cell, which is in range.
fn amount_of(cell: &(Vec<u32>, i128)) -> Amount
    requires { unsigned_abs cell.now.1 < 10 ^ 18 }
    ensures { result ≡ cell.now.1 }
{
    match Amount::new(cell.1 as i64) {
        Some(amount) => amount,
        None => unreachable!(),
    }
}

/// The stored values of tuples over cells whose amounts are in range.
pub fn stored_values(
    alloc: Global,
    outline: &Outline,
    cells: &[(Vec<u32>, i128)],
    tuples: &[Tuple],
) -> Result<Vec<Val>, NoMemory>
    requires leaves { AreAtLeaves outline.now (cells_in cells.now) }
    requires range { past_cell (cells_in cells.now) ≡ None }
    ensures { IfOk result (λ v. v.items ≡ map (stored_value outline.now (cells_in cells.now)) tuples.now) }
{
    let mut sums = Sums::new(alloc, outline, tuples)?;
    for cell in cells {
        sums.add(alloc, outline, &cell.0, amount_of(cell))?;
    }
    Ok(sums.into_values())
}
