//! Trials of queries on outlines, layer by layer: tuples of sets, cells by names, plans, what a query needs, grids over values, and
//! answers over stored cells. What each case of a file gives is printed behind its title.
#![tactic(auto)]

mod answers;
mod cells;
mod grids;
mod kinds;
mod members;
mod outlines;
mod plans;
mod sets;
mod texts;

use aso_trials_cases::CaseFault;
use kinds::Kind;
use outlines::put_all;

fn main(rt: HostRuntime) -> Result<(), CaseFault> {
    put_all(&rt, Kind::Set, "sets.json")?;
    put_all(&rt, Kind::Region, "regions.json")?;
    put_all(&rt, Kind::Cell, "cells.json")?;
    put_all(&rt, Kind::Plan, "plans.json")?;
    put_all(&rt, Kind::Needs, "needs.json")?;
    put_all(&rt, Kind::Grid, "grids.json")?;
    put_all(&rt, Kind::Answer, "answers.json")?;
    put_all(&rt, Kind::Answer, "refusals.json")?;
    put_all(&rt, Kind::Answer, "texts.json")?;
    put_all(&rt, Kind::Answer, "outlines.json")
}
