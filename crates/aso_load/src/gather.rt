// The records of a data file, each added to what was gathered before.
ghost use Rattle.std.specs.Prelude.{◌≡◌, ◌+◌, ◌<◌, ◌^◌, ℕ, [], Err, Ok, map, IfOk, OnOk};
ghost use Rattle.csv.specs.Records.{fields_of};
ghost use Rattle.aso_load.specs.Csv.{IsReading, left_of};
ghost use Rattle.aso_load.specs.Gathering.{Adds, IsSoFar};
ghost use Rattle.aso_load.specs.Records.{amounts_in, first_reason, fixed_leaves, judged, outcome};

use crate::amounts::{fixed_leaves, push_amounts, shared_leaves};
use crate::fields::tell_all;
use crate::gathered::{Gathered, Scratch};
use crate::loaded::Reject;
use crate::reader::next;
use crate::reasons::first_reason;
use aso_num::NoMemory;
use aso_outline::Outline;
use aso_rules::{Column, Rules};
use csv::{ByteRecord, Reader};
use std::alloc::Global;

fn reject(gathered: &mut Gathered, row: u64, reason: u8) -> Result<(), NoMemory>
    ensures { OnOk result (Adds (Err reason) row gathered.old gathered.new) }
{
    gathered.rejects.push(Reject { row, reason })?;
    Ok(())
}

// The amounts are added, or the record is skipped.
fn add_amounts(
    alloc: Global,
    outline: &Outline,
    columns: &[Column],
    scratch: &Scratch,
    row: u64,
    gathered: &mut Gathered,
) -> Result<(), NoMemory>
    requires { gathered.old.skipped + 1 < 2 ^ 64 }
    ensures { OnOk result (Adds (Ok (amounts_in outline.now scratch.now.leaves.items columns.now scratch.now.told.items)) row gathered.old gathered.new) }
{
    let before = gathered.amounts.len();
    push_amounts(
        alloc,
        outline,
        &scratch.leaves,
        columns,
        &scratch.told,
        &mut gathered.amounts,
    )?;
    if gathered.amounts.len() == before {
        gathered.skipped += 1;
    }
    Ok(())
}

// What the fields of a record come to is in the scratch.
fn add_told(
    alloc: Global,
    outline: &Outline,
    rules: &Rules,
    fixed: &[u32],
    scratch: &mut Scratch,
    row: u64,
    gathered: &mut Gathered,
) -> Result<(), NoMemory>
    requires fixed { fixed.now ≡ fixed_leaves outline.now rules.now.fixed }
    requires room { gathered.old.skipped + 1 < 2 ^ 64 }
    ensures { OnOk result (Adds (judged outline.now rules.now scratch.old.told.items (first_reason scratch.old.told.items)) row gathered.old gathered.new) }
{
    match first_reason(&scratch.told) {
        Some(reason) => reject(gathered, row, reason),
        None => {
            shared_leaves(fixed, &scratch.told, &mut scratch.leaves)?;
            add_amounts(
                alloc,
                outline,
                rules.columns.items(),
                scratch,
                row,
                gathered,
            )
        }
    }
}

fn add_record(
    alloc: Global,
    outline: &Outline,
    rules: &Rules,
    fixed: &[u32],
    fields: &ByteRecord,
    scratch: &mut Scratch,
    row: u64,
    gathered: &mut Gathered,
) -> Result<(), NoMemory>
    requires fixed { fixed.now ≡ fixed_leaves outline.now rules.now.fixed }
    requires room { gathered.old.skipped + 1 < 2 ^ 64 }
    ensures { OnOk result (Adds (outcome outline.now rules.now (fields_of fields.now)) row gathered.old gathered.new) }
{
    let columns = rules.columns.items();
    if fields.len() != columns.len() {
        return reject(gathered, row, 1);
    }
    tell_all(
        outline,
        columns,
        fields,
        &mut scratch.joined,
        &mut scratch.told,
    )?;
    add_told(alloc, outline, rules, fixed, scratch, row, gathered)
}

fn empty(alloc: Global) -> (Gathered, Scratch)
    ensures skipped { result.0.skipped ≡ 0 }
    ensures amounts { result.0.amounts.items ≡ [] }
    ensures rejects { result.0.rejects.items ≡ [] }
{
    let gathered = Gathered {
        amounts: Vec::new(alloc),
        rejects: Vec::new(alloc),
        skipped: 0,
    };
    let scratch = Scratch {
        joined: String::new(alloc),
        told: Vec::new(alloc),
        leaves: Vec::new(alloc),
    };
    (gathered, scratch)
}

/// Everything that the records left come to. The first of them has the number `first`. A text has fewer records than a
/// number can count, so the numbers last.
pub fn gather<'a>(
    alloc: Global,
    outline: &Outline,
    rules: &Rules,
    first: u64,
    reader: &mut Reader<&'a [u8]>,
    fields: &mut ByteRecord,
) -> Result<Gathered, NoMemory>
    requires reading { IsReading reader.old }
    requires first { 0 < first }
    ensures { IfOk result (λ g. (row : ℕ) × IsSoFar outline.now rules.now (map (outcome outline.now rules.now) (left_of reader.old)) first row g []) }
{
    let fixed = fixed_leaves(alloc, outline, rules.fixed.items())?;
    let (mut gathered, mut scratch) = empty(alloc);
    for row in first..u64::MAX {
        if !next(reader, fields)? {
            return Ok(gathered);
        }
        add_record(
            alloc,
            outline,
            rules,
            &fixed,
            fields,
            &mut scratch,
            row,
            &mut gathered,
        )?;
    }
    Err(NoMemory)
}
