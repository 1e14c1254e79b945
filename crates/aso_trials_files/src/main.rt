//! Trials of keys and of cell files: views of an outline, the keys and ranges of their layouts, files of cells that are written and read
//! again, files whose bytes are changed or cut, and shelves whose calls fail. What each case of a file gives is printed behind its title.
#![tactic(auto)]

ghost use Rattle.std.specs.Prelude.{◌≡◌, ◌<◌};

mod blocks;
mod bytes;
mod calls;
mod cells;
mod counted;
mod files;
mod kinds;
mod layouts;
mod outlines;
mod reading;
mod stop;
mod trials;
mod writing;

use aso_cellfile::Steps;
use aso_trials_cases::CaseFault;
use kinds::Kind;
use std::marker::Brand;
use std::rt::Files;
use std::sync::ledger::{Blank, Ledger};
use trials::put_all;

// The steps of all cases are counted in one.
fn run<L: Ledger, R: Files + AllocGlobal + Print>(rt: &R, blank: Blank) -> Result<(), CaseFault>
    requires name { blank.name ≡ L.name }
    requires parts { blank.parts ≡ L.parts }
    requires some { 0 < blank.parts }
{
    let mut steps = Steps::<L>::new(blank);
    put_all(rt, Kind::View, "views.json", &mut steps)?;
    put_all(rt, Kind::Key, "keys.json", &mut steps)?;
    put_all(rt, Kind::Roll, "rolls.json", &mut steps)?;
    put_all(rt, Kind::Range, "ranges.json", &mut steps)?;
    put_all(rt, Kind::Block, "blocks.json", &mut steps)?;
    put_all(rt, Kind::Bytes, "bytes.json", &mut steps)?;
    put_all(rt, Kind::File, "files.json", &mut steps)?;
    put_all(rt, Kind::Changes, "changes.json", &mut steps)?;
    put_all(rt, Kind::Cuts, "cuts.json", &mut steps)?;
    put_all(rt, Kind::Calls, "calls.json", &mut steps)
}

fn main(rt: HostRuntime) -> Result<(), CaseFault> {
    run::<Brand, HostRuntime>(&rt, Blank::new(1))
}
