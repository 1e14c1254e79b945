// Regions of texts: their tuples, and which of some cells they hold.
use crate::members::{put_member, put_members};
use crate::setting::{Setting, setting_of};
use crate::tuples::tuple;
use aso_outline::Outline;
use aso_region::{Region, RegionFault, read};
use aso_trials_cases::{CaseFault, cases, field, string};
use serde_json::Value;
use std::alloc::{AllocError, Global};
use std::fmt::Write;
use std::rt::Files;

/// So many tuples of a region are told.
const TOLD: u32 = 4;

fn put_place(setting: &Setting, member: Option<u32>, out: &mut String) -> Result<(), AllocError> {
    match member {
        Some(member) => put_member(setting, member, out),
        None => out.push('-'),
    }
}

// The members of a tuple, and a dash for each dimension that it leaves open.
fn put_tuple(
    setting: &Setting,
    region: &Region,
    tuple: u32,
    out: &mut String,
) -> Result<(), AllocError> {
    let mut before = " ";
    for dim in 0..setting.outline.dims() {
        out.push_str(before)?;
        if tuple < region.tuples() {
            put_place(setting, region.member(tuple, dim), out)?;
        }
        before = "/";
    }
    Ok(())
}

fn put_tuples(setting: &Setting, region: &Region, out: &mut String) -> Result<(), AllocError> {
    let count = region.tuples();
    write!(out, "  tuples ({count})")?;
    for tuple in 0..count.min(TOLD) {
        put_tuple(setting, region, tuple, out)?;
    }
    out.push_str(if count > TOLD { " ..\n" } else { "\n" })
}

// The ordinals of data leaves.
fn leaves_of(alloc: Global, outline: &Outline, members: &[u32]) -> Result<Vec<u32>, CaseFault> {
    let mut leaves = Vec::new(alloc);
    for member in members {
        if *member >= outline.members() {
            return Err(CaseFault::Value);
        }
        match outline.leaf_of(*member) {
            Some(leaf) => leaves.push(leaf)?,
            None => return Err(CaseFault::Value),
        }
    }
    Ok(leaves)
}

// Puts the cells that the region holds.
fn put_held(
    alloc: Global,
    setting: &Setting,
    region: &Region,
    cells: &[Value],
    out: &mut String,
) -> Result<(), CaseFault> {
    out.push_str("  holds")?;
    for cell in cells {
        let cell = tuple(alloc, setting, cell)?;
        let leaves = leaves_of(alloc, &setting.outline, cell.base.items())?;
        if region.holds(leaves.as_slice()) {
            out.push(' ')?;
            put_members(setting, cell.base.items(), out)?;
        }
    }
    Ok(out.push('\n')?)
}

fn fault_of(alloc: Global, fault: &RegionFault) -> Result<String, CaseFault> {
    match fault {
        RegionFault::Syntax { at } => Ok(format!(in alloc; "  syntax, byte {at}\n")?),
        RegionFault::UnknownMember { name } => {
            let name = name.as_str();
            Ok(format!(in alloc; "  unknown [{name}]\n")?)
        }
        RegionFault::Dimension { name } => {
            let name = name.as_str();
            Ok(format!(in alloc; "  wrong dimension [{name}]\n")?)
        }
        RegionFault::TooLarge { cells } => Ok(format!(in alloc; "  too large, {cells} tuples\n")?),
        RegionFault::NoMemory(_) => Err(CaseFault::NoMemory),
    }
}

fn given(
    alloc: Global,
    setting: &Setting,
    cells: &[Value],
    text: &str,
) -> Result<String, CaseFault> {
    let region = match read(alloc, &setting.outline, text) {
        Ok(region) => region,
        Err(fault) => return fault_of(alloc, &fault),
    };
    let mut out = String::new(alloc);
    put_tuples(setting, &region, &mut out)?;
    put_held(alloc, setting, &region, cells, &mut out)?;
    Ok(out)
}

/// Prints each case of a file, the text of a set. Of each region are asked the cells of another file, as tuples of data leaves.
pub fn put_all<R: Files + AllocGlobal + Print>(
    rt: &R,
    path: &str,
    cells: &str,
) -> Result<(), CaseFault> {
    let cells = cases(rt, cells)?;
    for case in cases(rt, path)?.as_slice() {
        let title = string(rt.alloc(), field(case, "title")?)?;
        let setting = setting_of(rt, case)?;
        let text = string(rt.alloc(), field(case, "text")?)?;
        let given = given(rt.alloc(), &setting, cells.as_slice(), text.as_str())?;
        print!(rt; "== {title}\n{given}")?;
    }
    Ok(())
}
