// The reply to a sheet.
ghost use Rattle.std.specs.Prelude.{◌≡◌, ◌++◌, IfOk};
ghost use Rattle.std.specs.String.{string_bytes};
ghost use Rattle.aso_spec.specs.Grid.{end_line, grid_head};

use aso_memory::NoMemory;
use std::alloc::{AllocError, Global};
use std::fmt::Write;

// The line above a grid: its statement's number, the commit number, and the size.
#[tactic(auto, unfolding(aso_spec::specs::Grid::grid_head))]
fn grid_head(
    alloc: Global,
    statement: u64,
    commit: u64,
    rows: u32,
    columns: u32,
) -> Result<String, AllocError>
    ensures { IfOk result (λ line. string_bytes line ≡ grid_head statement commit rows columns) }
{
    let mut line = String::from_str(alloc, "GRID ")?;
    write!(line, "{statement}")?;
    line.push_str(" commit ")?;
    write!(line, "{commit}")?;
    line.push_str(" rows ")?;
    write!(line, "{rows}")?;
    line.push_str(" columns ")?;
    write!(line, "{columns}")?;
    line.push('\n')?;
    Ok(line)
}

// The line at the end of a run of statements.
#[tactic(auto, unfolding(aso_spec::specs::Grid::end_line))]
fn end_line(alloc: Global, statements: u64) -> Result<String, AllocError>
    ensures { IfOk result (λ line. string_bytes line ≡ end_line statements) }
{
    format!(in alloc; "END {statements}\n")
}

/// The reply to statement 1 at commit 0, and the line behind it.
pub fn reply(alloc: Global, rows: u32, columns: u32, lines: &[u8]) -> Result<Vec<u8>, NoMemory>
    ensures { IfOk result (λ out. out.items ≡ grid_head 1 0 rows columns ++ lines.now ++ end_line 1) }
{
    let head = grid_head(alloc, 1, 0, rows, columns)?;
    let mut out = Vec::from_slice(alloc, head.as_bytes())?;
    out.extend_from_slice(lines)?;
    let end = end_line(alloc, 1)?;
    out.extend_from_slice(end.as_bytes())?;
    Ok(out)
}
