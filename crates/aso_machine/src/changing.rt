// What an addition comes to.
ghost use Rattle.std.specs.Prelude.{◌≡◌, ◌++◌, ◌<◌, ◌-◌, ◌^◌, true, codes, map, IfOk};
ghost use Rattle.std.specs.Fmt.{decimal};
ghost use Rattle.std.specs.String.{string_bytes};
ghost use Rattle.aso_num.specs.declared.value.Val.TheVariants.{Num};
ghost use Rattle.aso_num.specs.Numbers.{value_text};
ghost use Rattle.aso_catalog.specs.Record.{IsStorable};
ghost use Rattle.aso_cellnames.specs.Leaves.{are_leaves, leaf_counts};
ghost use Rattle.aso_cellnames.specs.Names.{cell_names as names_of_cell, texts};
ghost use Rattle.aso_script.specs.Read.{addition as the_addition};
ghost use Rattle.aso_spec.specs.Grid.{label};
ghost use Rattle.aso_spec.specs.Named.{key_named};
ghost use Rattle.aso_machine.specs.Machine.{added as added_by, added_to, changed as changed_by, unless_ended};
ghost use Rattle.aso_machine.specs.State.{entry, fits_outline, state_with};
ghost use Rattle.aso_machine.specs.Verdicts.{IsVerdictIn};

use crate::cells::{added_count, sum_in};
use crate::refusing::{addition_refusal, texts_of};
use crate::verdict::Verdict;
use aso_catalog::Record;
use aso_cellnames::{cell_names, key_named, put_label};
use aso_memory::NoMemory;
use aso_num::{Amount, Val, print_val};
use aso_outline::Outline;
use aso_script::Addition;
use std::alloc::{AllocError, Global};

const LEAST_PAST_RANGE: u128 = 1_000_000_000_000_000_000;

const MOST_CELLS: usize = 1000;

const SEQUENCE_END: &[u8] = b"215 sequence end";

// The refusal of a sum that is past the range of amounts.
fn range_text(alloc: Global, outline: &Outline, key: &[u32], sum: i128) -> Result<Vec<u8>, NoMemory>
    requires { are_leaves (leaf_counts outline.now) key.now ≡ true }
    ensures { IfOk result (λ text. text.items ≡ codes "210 amount range: " ++ label (names_of_cell outline.now key.now) ++ codes ", " ++ value_text (Num sum)) }
{
    let names = cell_names(alloc, outline, key)?;
    let mut text = Vec::from_slice(alloc, b"210 amount range: ")?;
    put_label(&mut text, &names)?;
    text.extend_from_slice(b", ")?;
    let mut value = String::new(alloc);
    print_val(Val::Num(sum), &mut value)?;
    text.extend_from_slice(value.as_bytes())?;
    Ok(text)
}

fn count_line(alloc: Global, count: usize) -> Result<String, AllocError>
    ensures { IfOk result (λ text. string_bytes text ≡ codes "213 too many cells: " ++ decimal count) }
{
    format!(in alloc; "213 too many cells: {count}")
}

// The refusal of more cells than a store may have.
fn count_text(alloc: Global, count: usize) -> Result<Vec<u8>, NoMemory>
    ensures { IfOk result (λ text. text.items ≡ codes "213 too many cells: " ++ decimal count) }
{
    let line = count_line(alloc, count)?;
    Ok(Vec::from_slice(alloc, line.as_bytes())?)
}

// What the addition of an amount to a cell comes to, where a layout is left.
fn added_to(
    alloc: Global,
    outline: &Outline,
    saved: &Record,
    key: Vec<u32>,
    amount: Amount,
) -> Result<Verdict, NoMemory>
    requires fits { fits_outline saved.now outline.now ≡ true }
    requires storable { IsStorable saved.now }
    requires room { saved.now.layout < 2 ^ 64 - 1 }
    requires leaves { are_leaves (leaf_counts outline.now) key.items ≡ true }
    ensures { IfOk result (IsVerdictIn (λ said. said ≡ added_to outline.now (map entry saved.now.cells) key.items amount) outline.now saved.now) }
{
    let cells = saved.cells.items();
    let amount = i128::from(amount.units());
    let sum = sum_in(cells, &key, amount);
    if sum.unsigned_abs() >= LEAST_PAST_RANGE {
        let text = range_text(alloc, outline, &key, sum)?;
        return Ok(Verdict::Refused { text });
    }
    let count = added_count(cells, &key);
    if count > MOST_CELLS {
        let text = count_text(alloc, count)?;
        return Ok(Verdict::Refused { text });
    }
    Ok(Verdict::Commit { key, amount })
}

// What an addition comes to that isn't refused for its database or its names.
fn changed(
    alloc: Global,
    outline: &Outline,
    saved: &Record,
    names: &[&str],
    amount: Amount,
) -> Result<Verdict, NoMemory>
    requires fits { fits_outline saved.now outline.now ≡ true }
    requires storable { IsStorable saved.now }
    ensures { IfOk result (IsVerdictIn (λ said. said ≡ unless_ended (state_with saved.now outline.now) (added_to outline.now (map entry saved.now.cells) (key_named outline.now (texts names.now)) amount)) outline.now saved.now) }
{
    if saved.layout == u64::MAX {
        let text = Vec::from_slice(alloc, SEQUENCE_END)?;
        return Ok(Verdict::Refused { text });
    }
    let key = key_named(alloc, outline, names)?;
    added_to(alloc, outline, saved, key, amount)
}

/// What an addition comes to on the state of a record that fits the outline: the first refusal, or the commit.
pub fn adds(
    alloc: Global,
    outline: &Outline,
    saved: &Record,
    addition: &Addition,
) -> Result<Verdict, NoMemory>
    requires fits { fits_outline saved.now outline.now ≡ true }
    requires storable { IsStorable saved.now }
    ensures { IfOk result (IsVerdictIn (λ said. said ≡ added_by (state_with saved.now outline.now) (the_addition addition.now)) outline.now saved.now) }
{
    let names = texts_of(alloc, addition.names.items())?;
    match addition_refusal(alloc, outline, addition, &names)? {
        Some(text) => Ok(Verdict::Refused { text }),
        None => changed(alloc, outline, saved, &names, addition.amount.amount()),
    }
}
