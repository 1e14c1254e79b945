ghost use Rattle.std.specs.Prelude.{◌≡◌, ◌≢◌, ◌<◌, ◌≤◌, ◌*◌, ◌^◌, ◌++◌, ◌↔◌, List, ℕ, None, IsTrue, length, IfOk, IfSome, IfNone, FitsSigned};
ghost use Rattle.std.specs.Int.{to_be_bytes, w32, w64, w128};
ghost use Rattle.aso_catalog.specs.declared.record.LeafCell.{LeafCell};
ghost use Rattle.aso_catalog.specs.declared.record.Record.{Record};
ghost use Rattle.aso_catalog.specs.Record.{AreCells, IsAbove, IsBelow, IsCell, IsHead, AreNumbers, last_leaves, IsRecord, AreSmall, leaves_text};
ghost use Rattle.aso_catalog.specs.Faults.{OnBad};

use crate::{LeafCell, Record, RecordFault};
use aso_bytes::{take_u32, take_u64, take_zig};
use aso_num::List;
use std::alloc::Global;

const BAD: RecordFault = RecordFault::Bad { at: 0 };

// The bytes ASO0 as a number.
const MAGIC: u32 = 0x4153_4f30;

const MOST_DIMENSIONS: u8 = 16;

/// The record that these bytes spell, all of them.
pub fn decode(alloc: Global, bytes: &[u8]) -> Result<Record, RecordFault>
    ensures found { IfOk result (λ r. IsRecord r bytes.now) }
    ensures bad { OnBad result ((r : Record) → IsRecord r bytes.now → ⊥) }
{
    let Some((head, rest)) = head_at(bytes) else {
        return Err(BAD);
    };
    let cells = match cells_at(alloc, head.dimensions, head.count, rest) {
        Ok(cells) => cells,
        Err(fault) => return Err(fault),
    };
    let outline = Vec::from_slice(alloc, head.outline)?;
    Ok(Record {
        layout: head.layout,
        commit: head.commit,
        outline: List::of(outline),
        dimensions: head.dimensions,
        cells: List::of(cells),
    })
}

#[derive(Drop)]
struct Head<'a> {
    layout: u64,
    commit: u64,
    outline: &'a [u8],
    dimensions: u8,
    count: u32,
}

#[derive(Drop)]
struct Numbers<'a> {
    layout: u64,
    commit: u64,
    rest: &'a [u8],
}

fn head_at(bytes: &[u8]) -> Option<(Head<'_>, &[u8])>
    ensures found { IfSome result (λ p. IsHead p.0.layout p.0.commit p.0.outline.now p.0.dimensions p.0.count p.1.now bytes.now) }
    ensures none { IfNone result ((layout commit : ℕ) (outline : List ℕ) (dimensions count : ℕ) (rest : List ℕ) → IsHead layout commit outline dimensions count rest bytes.now → ⊥) }
{
    let Some(numbers) = numbers_at(bytes) else {
        return None;
    };
    let Some((size, rest)) = u32_at(numbers.rest) else {
        return None;
    };
    let size = size as usize;
    if rest.len() <= size {
        return None;
    }
    let (outline, rest) = rest.split_at(size);
    let dimensions = rest[0];
    if dimensions == 0 || dimensions > MOST_DIMENSIONS {
        return None;
    }
    let Some((count, rest)) = u32_at(&rest[1..]) else {
        return None;
    };
    let (layout, commit) = (numbers.layout, numbers.commit);
    Some((
        Head {
            layout,
            commit,
            outline,
            dimensions,
            count,
        },
        rest,
    ))
}

// The magic, the layout and the commit.
fn numbers_at(bytes: &[u8]) -> Option<Numbers<'_>>
    ensures found { IfSome result (λ n. AreNumbers n.layout n.commit n.rest.now bytes.now) }
    ensures none { IfNone result ((layout commit : ℕ) (rest : List ℕ) → AreNumbers layout commit rest bytes.now → ⊥) }
{
    let Some((magic, rest)) = u32_at(bytes) else {
        return None;
    };
    if magic != MAGIC {
        return None;
    }
    let Some((layout, rest)) = u64_at(rest) else {
        return None;
    };
    let Some((commit, rest)) = u64_at(rest) else {
        return None;
    };
    if commit >= layout {
        return None;
    }
    Some(Numbers {
        layout,
        commit,
        rest,
    })
}

fn u32_at(bytes: &[u8]) -> Option<(u32, &[u8])>
    ensures found { IfSome result (λ p. bytes.now ≡ to_be_bytes w32 p.0 ++ p.1.now) }
    ensures none { IfNone result (length bytes.now < 4) }
{
    let (value, size) = take_u32(bytes)?;
    Some((value, &bytes[size..]))
}

fn u64_at(bytes: &[u8]) -> Option<(u64, &[u8])>
    ensures found { IfSome result (λ p. bytes.now ≡ to_be_bytes w64 p.0 ++ p.1.now) }
    ensures none { IfNone result (length bytes.now < 8) }
{
    let (value, size) = take_u64(bytes)?;
    Some((value, &bytes[size..]))
}

// So many cells in rising order, and nothing behind them.
fn cells_at(
    alloc: Global,
    dimensions: u8,
    count: u32,
    bytes: &[u8],
) -> Result<Vec<LeafCell>, RecordFault>
    ensures found { IfOk result (λ found. (length found.items ≡ count) × AreCells dimensions None found.items bytes.now) }
    ensures bad { OnBad result ((all : List LeafCell) → length all ≡ count → AreCells dimensions None all bytes.now → ⊥) }
{
    let mut found = Vec::new(alloc);
    let mut rest = bytes;
    for _ in 0..count {
        let (cell, behind) = match cell_at(alloc, dimensions, rest) {
            Ok(found) => found,
            Err(fault) => return Err(fault),
        };
        if !is_above(&found, cell.leaves.items()) {
            return Err(BAD);
        }
        found.push(cell)?;
        rest = behind;
    }
    if rest.is_empty() { Ok(found) } else { Err(BAD) }
}

// A cell, and what is behind it.
fn cell_at(alloc: Global, dimensions: u8, bytes: &[u8]) -> Result<(LeafCell, &[u8]), RecordFault>
    ensures found { IfOk result (λ p. (front : List ℕ) × IsCell dimensions p.0 front × (bytes.now ≡ front ++ p.1.now)) }
    ensures bad { OnBad result ((cell : LeafCell) (front rest : List ℕ) → IsCell dimensions cell front → bytes.now ≢ front ++ rest) }
{
    let (leaves, rest) = match leaves_at(alloc, dimensions, bytes) {
        Ok(found) => found,
        Err(fault) => return Err(fault),
    };
    let Some((amount, size)) = take_zig(rest) else {
        return Err(BAD);
    };
    Ok((leaf_cell(leaves, amount), &rest[size..]))
}

fn leaf_cell(leaves: Vec<u32>, amount: i128) -> LeafCell
    ensures leaves { result.leaves ≡ leaves.items }
    ensures amount { result.amount ≡ amount }
    ensures fits { FitsSigned w128 result.amount }
{
    LeafCell {
        leaves: List::of(leaves),
        amount,
    }
}

// A leaf of each dimension, and what is behind them.
fn leaves_at(alloc: Global, dimensions: u8, bytes: &[u8]) -> Result<(Vec<u32>, &[u8]), RecordFault>
    ensures count { IfOk result (λ p. length p.0.items ≡ dimensions) }
    ensures small { IfOk result (λ p. AreSmall p.0.items) }
    ensures found { IfOk result (λ p. bytes.now ≡ leaves_text p.0.items ++ p.1.now) }
    ensures bad { OnBad result (length bytes.now < 4 * dimensions) }
{
    let mut leaves = Vec::new(alloc);
    let mut rest = bytes;
    for _ in 0..dimensions {
        let Some((leaf, behind)) = u32_at(rest) else {
            return Err(BAD);
        };
        leaves.push(leaf)?;
        rest = behind;
    }
    Ok((leaves, rest))
}

// Whether leaves are above those of the last cell, if there is one.
fn is_above(cells: &[LeafCell], leaves: &[u32]) -> bool
    ensures { IsTrue result ↔ IsAbove (last_leaves cells.now) leaves.now }
{
    match cells.last() {
        None => true,
        Some(last) => is_below(last.leaves.items(), leaves),
    }
}

fn is_below(leaves: &[u32], others: &[u32]) -> bool
    ensures { IsTrue result ↔ IsBelow leaves.now others.now }
{
    let [leaf, leaves @ ..] = leaves else {
        return false;
    };
    let [other, others @ ..] = others else {
        return false;
    };
    if *leaf == *other {
        is_below(leaves, others)
    } else {
        *leaf < *other
    }
}
