// The cells that the records of a buffer are combined to.
ghost use Rattle.std.specs.Prelude.{◌≡◌, ◌*◌, ◌≤◌, IfOk};
ghost use Rattle.aso_keys.specs.Axes.{bits_of};
ghost use Rattle.aso_keys.specs.Views.{IsBase, IsView};
ghost use Rattle.aso_load.specs.Leaves.{StandAtLeaves};
ghost use Rattle.aso_buffer.specs.Buffers.{HaveKeys};

use aso_buffer::{Buffer, BufferFault, Kind};
use aso_keys::{Layout, View, view_of};
use aso_num::List;
use aso_outline::Outline;
use aso_runs::Cell;
use aso_trials_cases::CaseFault;
use std::alloc::{AllocError, Global};
use std::fmt::Write;

/// A buffer without records, for loads on an outline.
pub fn empty(alloc: Global, outline: &Outline, kind: Kind) -> Buffer
    ensures { StandAtLeaves outline.now result.records }
{
    let _outline = outline;
    Buffer::new(alloc, kind)
}

/// The ordinals of data leaves.
pub fn put_leaves(leaves: &List<u32>, out: &mut String) -> Result<(), AllocError> {
    for leaf in leaves.items() {
        write!(out, " {leaf}")?;
    }
    Ok(())
}

/// The keys of cells with their amounts in units.
fn put_run<const W: usize>(cells: &[Cell<W>], out: &mut String) -> Result<(), AllocError> {
    for cell in cells {
        let key = cell.key.to_u128().unwrap_or(u128::MAX);
        let amount = cell.amount;
        write!(out, " {key} has {amount};")?;
    }
    Ok(())
}

fn put_past(leaves: &List<u32>, sum: i128, out: &mut String) -> Result<(), AllocError> {
    put_leaves(leaves, out)?;
    write!(out, " past the range with {sum}")
}

/// The cells of a buffer with keys of `W` words, or the leaves and the sum that are out of range.
fn put_cells<const W: usize>(
    alloc: Global,
    layout: &Layout,
    buffer: &Buffer,
    out: &mut String,
) -> Result<(), CaseFault>
    requires some { 1 ≤ W }
    requires few { W ≤ 4 }
    requires wide { bits_of layout.now ≤ 64 * W }
    requires keys { HaveKeys layout.now buffer.now.records }
{
    let bits = 64 * W;
    write!(out, "\n  cells at keys of {bits} bits:")?;
    match buffer.cells::<W>(alloc, layout) {
        Ok(run) => put_run(run.cells(), out)?,
        Err(BufferFault::Range { leaves, sum }) => put_past(&leaves, sum, out)?,
        Err(BufferFault::NoMemory(_none)) => return Err(CaseFault::NoMemory),
    }
    Ok(())
}

fn base(alloc: Global, outline: &Outline) -> Result<View, CaseFault>
    ensures view { IfOk result (λ v. IsView outline.now v.choices) }
    ensures base { IfOk result (λ v. IsBase v.choices) }
{
    match view_of(alloc, outline, 0)? {
        Some(view) => Ok(view),
        None => Err(CaseFault::Value),
    }
}

/// The cells of a buffer: with keys of one word where they fit it, and with keys of two.
pub fn put_combined(
    alloc: Global,
    outline: &Outline,
    buffer: &Buffer,
    out: &mut String,
) -> Result<(), CaseFault>
    requires { StandAtLeaves outline.now buffer.now.records }
{
    let view = base(alloc, outline)?;
    let layout = Layout::new(alloc, outline, &view)?;
    buffer.keeps_keys(outline, &view, &layout);
    if layout.bits() <= 64 {
        put_cells::<1>(alloc, &layout, buffer, out)?;
    }
    if layout.bits() <= 128 {
        put_cells::<2>(alloc, &layout, buffer, out)?;
    }
    Ok(())
}
