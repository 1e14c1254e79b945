// What a line of a script comes to.
ghost use Rattle.std.specs.Prelude.{◌≡◌, ◌+◌, ◌++◌, ◌<◌, ◌^◌, true, codes, length, IfOk};
ghost use Rattle.std.specs.Fmt.{decimal};
ghost use Rattle.std.specs.String.{string_bytes};
ghost use Rattle.aso_catalog.specs.Record.{IsStorable};
ghost use Rattle.aso_script.specs.Lines.{line as line_of};
ghost use Rattle.aso_machine.specs.State.{fits_outline};
ghost use Rattle.aso_machine.specs.Verdicts.{IsVerdict};

use crate::asking::asks;
use crate::changing::adds;
use crate::reading::{Reading, read_line};
use crate::verdict::Verdict;
use aso_catalog::Record;
use aso_memory::NoMemory;
use aso_outline::Outline;
use aso_script::Line;
use std::alloc::{AllocError, Global};

fn fault_line(alloc: Global, at: u128) -> Result<String, AllocError>
    ensures { IfOk result (λ text. string_bytes text ≡ codes "201 syntax: byte " ++ decimal at) }
{
    format!(in alloc; "201 syntax: byte {at}")
}

// The refusal of a line that begins at a byte and is at fault so many bytes behind it.
fn fault_text(alloc: Global, at: usize, behind: usize) -> Result<Vec<u8>, NoMemory>
    ensures { IfOk result (λ text. text.items ≡ codes "201 syntax: byte " ++ decimal (at + behind)) }
{
    let line = fault_line(alloc, at as u128 + behind as u128)?;
    Ok(Vec::from_slice(alloc, line.as_bytes())?)
}

/// What a line of a script comes to on the state of a record that fits the outline: its first refusal, its grid, or its commit. Its
/// cells are gone over once.
pub fn judge(
    alloc: Global,
    outline: &Outline,
    saved: &Record,
    line: &Line,
) -> Result<Verdict, NoMemory>
    requires fits { fits_outline saved.now outline.now ≡ true }
    requires storable { IsStorable saved.now }
    ensures { IfOk result (IsVerdict outline.now saved.now (line_of line.now)) }
{
    match read_line(alloc, line.bytes)? {
        Reading::Adds(addition) => adds(alloc, outline, saved, &addition),
        Reading::Asks(query) => asks(alloc, outline, saved, &query),
        Reading::Faulty { at } => {
            let text = fault_text(alloc, line.at, at)?;
            Ok(Verdict::Refused { text })
        }
    }
}
