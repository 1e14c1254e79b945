// Records as bodies of the catalog.
ghost use Rattle.std.specs.Prelude.{◌≤◌, IfOk, length};
ghost use Rattle.std.specs.List.{AllByRecursion};
ghost use Rattle.aso_catalog.specs.Record.{IsRecord, IsStorable};
ghost use Rattle.aso_machine.specs.CellSteps.{IsSmall};
ghost use Rattle.aso_stage.specs.Bodies.{longest_in_range};

use aso_catalog::{Record, encode};
use aso_num::NoMemory;
use std::alloc::Global;

/// The spelling of a record that has one, whose amounts are in range.
pub fn body_of(alloc: Global, r: &Record) -> Result<Vec<u8>, NoMemory>
    requires storable { IsStorable r.now }
    requires small { AllByRecursion IsSmall r.now.cells }
    ensures spelled { IfOk result (λ body. IsRecord r.now body.items) }
    ensures short { IfOk result (λ body. length body.items ≤ longest_in_range r.now) }
{
    let mut body = Vec::new(alloc);
    encode(r, &mut body)?;
    Ok(body)
}
