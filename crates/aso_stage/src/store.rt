// The store that a record stands for.
ghost use Rattle.std.specs.Prelude.{◌≡◌, IfOk};
ghost use Rattle.aso_outline.specs.declared.draft.Draft.{Draft};
ghost use Rattle.aso_outtext.specs.Answers.{Gives};
ghost use Rattle.aso_stage.specs.Store.{Keeps};
ghost use Rattle.aso_stage.specs.Stores.{IsStoreOf};

use aso_catalog::Record;
use aso_machine::fits;
use aso_num::NoMemory;
use aso_outline::Outline;
use aso_outtext::{TextFault, read};
use std::alloc::Global;

/// An outline and the record that it stands in, with cells that fit it.
#[derive(Drop)]
pub struct Store {
    pub(crate) outline: Outline,
    pub(crate) saved: Record,
}

/// How many bytes the text of an outline may have that a store keeps.
pub const LONGEST_TEXT: usize = 50_000;

// The store of a record and the outline that its text gives, where its cells fit the outline.
fn fitted(alloc: Global, r: Record, outline: Outline) -> Result<Option<Store>, NoMemory>
    requires keeps { Keeps r.outline outline }
    requires only { (o : Draft) → Gives r.outline o → outline ≡ o }
    ensures { IfOk result (IsStoreOf r) }
{
    if fits(alloc, &outline, &r)? {
        Ok(Some(Store { outline, saved: r }))
    } else {
        Ok(None)
    }
}

/// The store that a record stands for, where its text is short enough and gives an outline that its cells fit.
pub fn recover(alloc: Global, r: Record) -> Result<Option<Store>, NoMemory>
    ensures { IfOk result (IsStoreOf r) }
{
    if r.outline.items().len() > LONGEST_TEXT {
        return Ok(None);
    }
    match read(alloc, r.outline.items()) {
        Ok(outline) => fitted(alloc, r, outline),
        Err(TextFault::NoMemory(fault)) => Err(fault),
        Err(_) => Ok(None),
    }
}
