// Records of cases: `layout`, `commit`, the text of the `outline`, the number of `dimensions`, and `cells`, each with `leaves` and an
// `amount` in units of 1/10000. The bytes are spelled here and read by the catalog, so that a record is one that has a spelling.
ghost use Rattle.std.specs.Prelude.{IfOk};
ghost use Rattle.aso_catalog.specs.Record.{IsStorable};

use aso_bytes::{put_u32, put_u64, put_zig};
use aso_catalog::{Record, decode};
use aso_trials_cases::{CaseFault, field, integer, list, number, text};
use serde_json::Value;
use std::alloc::Global;

fn put_word(value: u64, out: &mut Vec<u8>) -> Result<(), CaseFault> {
    match u32::try_from(value) {
        Ok(word) => Ok(put_u32(out, word)?),
        Err(_) => Err(CaseFault::Value),
    }
}

fn put_byte(value: u64, out: &mut Vec<u8>) -> Result<(), CaseFault> {
    match u8::try_from(value) {
        Ok(byte) => Ok(out.push(byte)?),
        Err(_) => Err(CaseFault::Value),
    }
}

fn put_cell(cell: &Value, out: &mut Vec<u8>) -> Result<(), CaseFault> {
    for leaf in list(field(cell, "leaves")?)? {
        put_word(number(leaf)?, out)?;
    }
    Ok(put_zig(out, integer(field(cell, "amount")?)?)?)
}

fn put_head(alloc: Global, fields: &Value, out: &mut Vec<u8>) -> Result<(), CaseFault> {
    out.extend_from_slice(b"ASO0")?;
    put_u64(out, number(field(fields, "layout")?)?)?;
    put_u64(out, number(field(fields, "commit")?)?)?;
    let outline = text(alloc, field(fields, "outline")?)?;
    put_word(outline.len() as u64, out)?;
    out.extend_from_slice(&outline)?;
    put_byte(number(field(fields, "dimensions")?)?, out)
}

fn spelled(alloc: Global, fields: &Value) -> Result<Vec<u8>, CaseFault> {
    let mut out = Vec::new(alloc);
    put_head(alloc, fields, &mut out)?;
    let cells = list(field(fields, "cells")?)?;
    put_word(cells.len() as u64, &mut out)?;
    for cell in cells {
        put_cell(cell, &mut out)?;
    }
    Ok(out)
}

/// The record of these fields.
#[tactic(auto, using(aso_stage::proofs::Taking::record_storable))]
pub fn record_of(alloc: Global, fields: &Value) -> Result<Record, CaseFault>
    ensures { IfOk result IsStorable }
{
    let bytes = spelled(alloc, fields)?;
    match decode(alloc, &bytes) {
        Ok(found) => Ok(found),
        Err(_) => Err(CaseFault::Value),
    }
}
