// Amounts that are out of range.
ghost use Rattle.std.specs.Prelude.{◌≡◌, ◌↔◌, ℕ, ◌*◌, ◌≤◌, List, All, IfOk, IfSome, IfNone, IsTrue};
ghost use Rattle.aso_num.specs.Amount.{IsAmount};
ghost use Rattle.aso_keys.specs.Axes.{AreClasses, bits_of, key_of};
ghost use Rattle.aso_runs.specs.Cells.{entry_of};
ghost use Rattle.aso_buffer.specs.Past.{IsFirstPast};

use aso_keys::Layout;
use aso_memory::NoMemory;
use aso_num::{Amount, List};
use aso_runs::{Cell, Run};
use aso_words::Words;
use std::alloc::Global;

// Whether this many units are an amount.
fn is_amount(units: &i128) -> bool
    ensures { IsTrue result ↔ IsAmount units.now }
{
    match i64::try_from(*units) {
        Ok(units) => Amount::new(units).is_some(),
        Err(_) => false,
    }
}

/// The first cell whose amount is out of range.
pub fn first_past<const W: usize>(run: &Run<W>) -> Option<Cell<W>>
    ensures found { IfSome result (λ cell. IsFirstPast (entry_of cell) run.now) }
    ensures none { IfNone result (All (λ e. IsAmount e.1) run.now) }
{
    let cells = run.cells();
    for cell in cells {
        if !is_amount(&cell.amount) {
            return Some(*cell);
        }
    }
    None
}

/// The leaves that a key was written of.
pub fn leaves_at<const W: usize>(
    alloc: Global,
    layout: &Layout,
    key: &Words<W>,
) -> Result<List<u32>, NoMemory>
    requires some { 1 ≤ W }
    requires few { W ≤ 4 }
    requires wide { bits_of layout.now ≤ 64 * W }
    ensures { IfOk result (λ leaves. (own : List ℕ) → AreClasses layout.now own → key.now ≡ key_of layout.now own → leaves ≡ own) }
{
    let mut leaves = vec![in alloc; 0; layout.dims()]?;
    layout.classes_of(key, &mut leaves);
    Ok(List::of(leaves))
}
