//! Trials of formulas, of values and of regions, on outlines as users write them: a file of cases for each, and what every case gives.
#![tactic(auto)]

mod formulas;
mod members;
mod regions;
mod setting;
mod stored;
mod tuples;
mod values;

use aso_trials_cases::CaseFault;

fn main(rt: HostRuntime) -> Result<(), CaseFault> {
    formulas::put_all(&rt, "formulas.json")?;
    values::put_all(&rt, "values.json")?;
    regions::put_all(&rt, "regions.json", "cells.json")
}
