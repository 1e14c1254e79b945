ghost use Rattle.std.specs.Prelude.{◌≡◌, IfOk, IfErr};
ghost use Rattle.aso_sheettext.specs.Sheet.{Sheet, OneCell, Columns, Rows};
ghost use Rattle.aso_sheettext.specs.Texts.{sheet, part as the_part, cell as the_cell, names as the_names};
ghost use Rattle.aso_sheettext.specs.Reading.{sheet_with, TakesPart, TakesLine};
ghost use Rattle.aso_sheettext.specs.Held.{sheet_so_far, sheet_start};
ghost use Rattle.aso_sheettext.specs.Faults.{TextSaysSheet, IsSheetFault};
ghost use Rattle.aso_sheettext.specs.Answer.{HasFault};

use crate::fault::SheetFault;
use crate::line::Lines;
use crate::outline::OutlineReading;
use crate::part::part_of;
use crate::stage::Stage;
use crate::text::{CellText, PartText, SheetText};
use aso_memory::NoMemory;
use std::alloc::Global;

/// A sheet as far as its lines are read.
#[derive(Debug, Drop)]
pub(crate) struct SheetReading<'a> {
    pub stage: Stage,
    pub outline: OutlineReading<'a>,
    pub cells: Vec<CellText<'a>>,
    pub columns: Vec<&'a str>,
    pub rows: Vec<&'a str>,
}

impl<'a> SheetReading<'a> {
    fn new(alloc: Global) -> SheetReading<'a>
        ensures { sheet_so_far result ≡ sheet_start }
    {
        SheetReading {
            stage: Stage::InOutline,
            outline: OutlineReading::new(alloc),
            cells: Vec::new(alloc),
            columns: Vec::new(alloc),
            rows: Vec::new(alloc),
        }
    }

    fn add_cell(&mut self, cell: CellText<'a>) -> Result<bool, NoMemory>
        ensures { IfOk result (λ taken. TakesPart sheet_with (sheet_so_far self.old) (OneCell (the_cell cell.entry)) taken (sheet_so_far self.new)) }
    {
        if !self.stage.is_before_axes() {
            return Ok(false);
        }
        self.cells.push(cell)?;
        self.stage = Stage::InCells;
        Ok(true)
    }

    fn put_columns(&mut self, names: Vec<&'a str>) -> bool
        ensures { TakesPart sheet_with (sheet_so_far self.old) (Columns (the_names names.entry.items)) result (sheet_so_far self.new) }
    {
        if !self.stage.is_before_axes() {
            return false;
        }
        self.columns = names;
        self.stage = Stage::AtRows;
        true
    }

    fn put_rows(&mut self, names: Vec<&'a str>) -> bool
        ensures { TakesPart sheet_with (sheet_so_far self.old) (Rows (the_names names.entry.items)) result (sheet_so_far self.new) }
    {
        if !self.stage.is_at_rows() {
            return false;
        }
        self.rows = names;
        self.stage = Stage::AtEnd;
        true
    }

    fn take(&mut self, part: PartText<'a>) -> Result<bool, NoMemory>
        ensures { IfOk result (λ taken. TakesPart sheet_with (sheet_so_far self.old) (the_part part.entry) taken (sheet_so_far self.new)) }
    {
        match part {
            PartText::Cell(cell) => self.add_cell(cell),
            PartText::Columns(names) => Ok(self.put_columns(names)),
            PartText::Rows(names) => Ok(self.put_rows(names)),
            PartText::Database { app, db } => {
                if !self.stage.is_in_outline() {
                    return Ok(false);
                }
                Ok(self.outline.name(app, db))
            }
            PartText::Member(member) => {
                if !self.stage.is_in_outline() {
                    return Ok(false);
                }
                self.outline.add(member)
            }
        }
    }

    fn read_line(&mut self, alloc: Global, line: &'a [u8]) -> Result<bool, NoMemory>
        ensures { IfOk result (λ taken. TakesLine sheet_with (sheet_so_far self.old) line.now taken (sheet_so_far self.new)) }
    {
        let Ok(line) = str::from_utf8(line) else {
            return Ok(false);
        };
        match part_of(alloc, line) {
            Ok(Some(part)) => self.take(part),
            Ok(None) => Ok(false),
            Err(fault) => Err(fault),
        }
    }
}

/// The sheet that a text says, as docs/FORMATS.md has it. Where it says none, the answer is the place of the first faulty line.
/// It takes time in proportion to the text.
pub fn read_sheet<'a>(alloc: Global, text: &'a [u8]) -> Result<SheetText<'a>, SheetFault>
    ensures found { IfOk result (λ s. TextSaysSheet text.now (sheet s)) }
    ensures only { IfOk result (λ s. (other : Sheet) → TextSaysSheet text.now other → other ≡ sheet s) }
    ensures fault { IfErr result (HasFault (IsSheetFault text.now)) }
    ensures none { IfErr result (HasFault (λ at. (other : Sheet) → TextSaysSheet text.now other → ⊥)) }
{
    let mut reading = SheetReading::new(alloc);
    let mut lines = Lines { text, at: 0 };
    while let Some(line) = lines.next_line() {
        if !reading.read_line(alloc, line.bytes)? {
            return Err(SheetFault::Line { at: line.at });
        }
    }
    if !reading.stage.is_at_end() {
        return Err(SheetFault::Line { at: text.len() });
    }
    Ok(SheetText {
        outline: reading.outline.outline,
        cells: reading.cells,
        columns: reading.columns,
        rows: reading.rows,
    })
}
