// Sheets and outlines of lines: their parts, or the byte at which the first faulty line begins.
use aso_sheettext::{CellText, OutlineText, SheetFault, SheetText, read_outline, read_sheet};
use aso_trials_cases::CaseFault;
use std::alloc::{AllocError, Global};
use std::fmt::Write;

fn put_names(names: &[&str], out: &mut String) -> Result<(), AllocError> {
    for name in names {
        write!(out, "<{name}>")?;
    }
    Ok(())
}

fn put_outline(outline: &OutlineText, out: &mut String) -> Result<(), AllocError> {
    write!(out, "{}.{}", outline.app, outline.db)?;
    for member in outline.members.as_slice() {
        write!(out, " {}<{}>", member.depth, member.name)?;
    }
    Ok(())
}

// The names of each cell and its amount in units.
fn put_cells(cells: &[CellText], out: &mut String) -> Result<(), AllocError> {
    for cell in cells {
        out.push(';')?;
        put_names(cell.names.as_slice(), out)?;
        write!(out, "{}", cell.amount.units())?;
    }
    Ok(())
}

fn put_sheet(sheet: &SheetText, out: &mut String) -> Result<(), AllocError> {
    put_outline(&sheet.outline, out)?;
    put_cells(sheet.cells.as_slice(), out)?;
    out.push_str("; ")?;
    put_names(sheet.columns.as_slice(), out)?;
    out.push('/')?;
    put_names(sheet.rows.as_slice(), out)
}

fn put_fault(fault: &SheetFault, out: &mut String) -> Result<(), AllocError> {
    match fault {
        SheetFault::Line { at } => write!(out, "line at byte {at}"),
        SheetFault::NoMemory(_) => out.push_str("no memory"),
    }
}

/// The parts of a sheet, in which \r stands for a carriage return.
pub fn sheet_told(alloc: Global, text: &[u8]) -> Result<String, CaseFault> {
    let mut out = String::new(alloc);
    match read_sheet(alloc, text) {
        Ok(sheet) => put_sheet(&sheet, &mut out)?,
        Err(fault) => put_fault(&fault, &mut out)?,
    }
    Ok(out.replace(alloc, "\r", "\\r")?)
}

/// The application and database of an outline, and each member behind its depth.
pub fn outline_told(alloc: Global, text: &[u8]) -> Result<String, CaseFault> {
    let mut out = String::new(alloc);
    match read_outline(alloc, text) {
        Ok(outline) => put_outline(&outline, &mut out)?,
        Err(fault) => put_fault(&fault, &mut out)?,
    }
    Ok(out)
}
