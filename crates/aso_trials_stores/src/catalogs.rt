// Catalogs: what a device is opened with, and records that are published over it, of one cell each.
ghost use Rattle.std.specs.Prelude.{◌≤◌, IfOk};
ghost use Rattle.aso_catalog.specs.Image.{IsBody};

use crate::records::put_record;
use crate::steps::Played;
use aso_catalog::{Catalog, LeafCell, PublishFault, Record, encode};
use aso_disk::{MemSlots, Slots};
use aso_num::List;
use aso_trials_cases::{CaseFault, integer, list};
use serde_json::Value;
use std::alloc::{AllocError, Global};
use std::fmt::Write;

// The body of a record of this layout, with one cell of this amount.
fn body_of(alloc: Global, layout: u64, amount: i128) -> Result<Vec<u8>, CaseFault>
    requires { 1 ≤ layout }
    ensures { IfOk result (λ body. IsBody layout body.items) }
{
    let leaves = vec![in alloc; 0u32, 258]?;
    let cells = vec![in alloc;
        LeafCell {
            leaves: List::of(leaves),
            amount
        },
    ]?;
    let outline = List::of(Vec::from_slice(alloc, b"dim")?);
    let r = Record {
        layout,
        commit: layout - 1,
        outline,
        dimensions: 2,
        cells: List::of(cells),
    };
    let mut body = Vec::new(alloc);
    encode(&r, &mut body)?;
    if body.len() > 131_067 {
        return Err(CaseFault::Value);
    }
    Ok(body)
}

// Publishes a record with this amount.
fn publish<C: Slots>(
    alloc: Global,
    catalog: &mut Catalog<C>,
    amount: i128,
) -> Result<Result<(), PublishFault>, CaseFault> {
    let layout = catalog.layout();
    if layout == u64::MAX {
        return Err(CaseFault::Value);
    }
    let body = body_of(alloc, layout + 1, amount)?;
    Ok(catalog.publish(&body))
}

fn put_found(found: &Option<Record>, out: &mut String) -> Result<(), AllocError> {
    match found {
        Some(r) => put_record(r, out)?,
        None => out.push_str("no record")?,
    }
    out.push('\n')
}

// The answer to the publish of an amount, and the layout of the record that the catalog then has.
fn put_published(
    amount: i128,
    answer: Result<(), PublishFault>,
    layout: u64,
    out: &mut String,
) -> Result<(), AllocError> {
    match answer {
        Ok(()) => write!(out, "{amount}: published, layout {layout}\n"),
        Err(fault) => write!(out, "{amount}: {fault:?}, layout {layout}\n"),
    }
}

fn put_all<C: Slots>(
    alloc: Global,
    catalog: &mut Catalog<C>,
    amounts: &Value,
    out: &mut String,
) -> Result<(), CaseFault> {
    for value in list(amounts)? {
        let amount = integer(value)?;
        let answer = publish(alloc, catalog, amount)?;
        put_published(amount, answer, catalog.layout(), out)?;
    }
    Ok(())
}

/// The record that a device is opened with, or what refuses it, and the answers to the publishing of some amounts.
pub fn published(alloc: Global, amounts: &Value, slots: MemSlots) -> Result<Played, CaseFault> {
    match Catalog::open(alloc, slots) {
        Ok((mut catalog, found)) => {
            let mut told = String::new(alloc);
            put_found(&found, &mut told)?;
            put_all(alloc, &mut catalog, amounts, &mut told)?;
            Ok(Played {
                told,
                slots: catalog.into_slots(),
            })
        }
        Err((slots, fault)) => Ok(Played {
            told: format!(in alloc; "{fault:?}\n")?,
            slots,
        }),
    }
}
