// Members with what their ranks need.
ghost use Rattle.std.specs.Prelude.{◌≡◌};
ghost use Rattle.aso_outline.specs.Graph.{AreRows};
ghost use Rattle.aso_outline.specs.Ranks.{needs};

use crate::draft::Draft;

/// How a member's rank follows from the ranks that it needs: it is 0, or that of what a label-only member stands for, or one
/// more than the greatest.
#[derive(Clone, Copy, Debug, PartialEq, Eq)]
pub enum Standing {
    Stored,
    Label,
    Computed,
}

/// A member with the numbers of those whose ranks its own needs.
#[derive(Debug, Drop)]
pub struct Row {
    pub standing: Standing,
    pub needs: Vec<usize>,
}

/// The numbers of those that a member needs; past the last member nothing needs any.
pub fn needs_in<'a>(_draft: &Draft, rows: &'a [Row], member: usize) -> &'a [usize]
    requires { AreRows _draft.now rows.now }
    ensures { result.now ≡ needs _draft.now member }
{
    if member < rows.len() {
        let row = &rows[member];
        return row.needs.as_slice();
    }
    &[]
}
