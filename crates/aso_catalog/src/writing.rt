ghost use Rattle.std.specs.Prelude.{◌≡◌, ◌+◌, ◌*◌, ◌<◌, ◌≤◌, ◌++◌, List, ℕ, None, length, OnOk, OnErr, vec_len, vec_capacity};
ghost use Rattle.aso_bytes.specs.Spelling.{Appends};
ghost use Rattle.aso_catalog.specs.Record.{AreCells, AreRising, IsStorable, IsCell, IsRecord, AreSmall, leaves_text, longest, longest_cell};

use crate::{LeafCell, Record};
use aso_bytes::{put_u32, put_u64, put_zig};
use aso_memory::NoMemory;

const MAGIC: &[u8; 4] = b"ASO0";

/// Appends the spelling of a record that has one. It answers Ok where the capacity exceeds the length by at least the
/// longest record that has so long an outline, so many dimensions and so many cells. An error leaves the bytes as they
/// were.
pub fn encode(r: &Record, out: &mut Vec<u8>) -> Result<(), NoMemory>
    requires { IsStorable r.now }
    ensures ok { OnOk result (Appends (λ bytes. IsRecord r.now bytes) out.old.items out.new.items) }
    ensures err { OnErr result (out.new.items ≡ out.old.items) }
    ensures room { OnErr result (vec_capacity out.old < vec_len out.old + longest r.now) }
{
    let size = out.len();
    let answer = put_record(r, out);
    if answer.is_err() {
        out.truncate(size);
    }
    answer
}

// After an error the bytes that were there are followed by others.
fn put_record(r: &Record, out: &mut Vec<u8>) -> Result<(), NoMemory>
    requires { IsStorable r.now }
    ensures ok { OnOk result (Appends (λ bytes. IsRecord r.now bytes) out.old.items out.new.items) }
    ensures err { OnErr result ((more : List ℕ) × (out.new.items ≡ out.old.items ++ more)) }
    ensures room { OnErr result (vec_capacity out.old < vec_len out.old + longest r.now) }
{
    out.extend_from_slice(MAGIC)?;
    put_u64(out, r.layout)?;
    put_u64(out, r.commit)?;
    put_u32(out, r.outline.items().len() as u32)?;
    out.extend_from_slice(r.outline.items())?;
    out.push(r.dimensions)?;
    put_u32(out, r.cells.items().len() as u32)?;
    put_cells(r.cells.items(), r.dimensions, out)
}

fn put_cells(cells: &[LeafCell], dimensions: u8, out: &mut Vec<u8>) -> Result<(), NoMemory>
    requires { AreRising dimensions None cells.now }
    ensures ok { OnOk result (Appends (AreCells dimensions None cells.now) out.old.items out.new.items) }
    ensures err { OnErr result ((more : List ℕ) × (out.new.items ≡ out.old.items ++ more)) }
    ensures room { OnErr result (vec_capacity out.old < vec_len out.old + length cells.now * longest_cell dimensions) }
{
    for cell in cells {
        put_cell(cell, dimensions, out)?;
    }
    Ok(())
}

fn put_cell(cell: &LeafCell, dimensions: u8, out: &mut Vec<u8>) -> Result<(), NoMemory>
    requires { length cell.now.leaves ≡ dimensions }
    ensures ok { OnOk result (Appends (IsCell dimensions cell.now) out.old.items out.new.items) }
    ensures err { OnErr result ((more : List ℕ) × (out.new.items ≡ out.old.items ++ more)) }
    ensures room { OnErr result (vec_capacity out.old < vec_len out.old + longest_cell dimensions) }
    ensures most { OnOk result (vec_len out.new ≤ vec_len out.old + longest_cell dimensions) }
    ensures grows { vec_capacity out.old ≤ vec_capacity out.new }
{
    put_leaves(cell.leaves.items(), out)?;
    put_zig(out, cell.amount)
}

fn put_leaves(leaves: &[u32], out: &mut Vec<u8>) -> Result<(), NoMemory>
    ensures small { AreSmall leaves.now }
    ensures ok { OnOk result (out.new.items ≡ out.old.items ++ leaves_text leaves.now) }
    ensures err { OnErr result ((more : List ℕ) × (out.new.items ≡ out.old.items ++ more)) }
    ensures room { OnErr result (vec_capacity out.old < vec_len out.old + 4 * length leaves.now) }
    ensures grows { vec_capacity out.old ≤ vec_capacity out.new }
{
    for leaf in leaves {
        put_u32(out, *leaf)?;
    }
    Ok(())
}
