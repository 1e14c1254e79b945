//! Trials of stores as cases of tables: commands over devices in memory whose calls fail and crash, catalogs and their records, the
//! making and the opening of stores, and what the lines of scripts say and come to.
#![tactic(auto)]

mod calls;
mod catalogs;
mod commands;
mod devices;
mod lines;
mod makings;
mod outcomes;
mod records;
mod shown;
mod spelling;
mod steps;
mod stores;
mod sweeps;
mod trials;
mod verdicts;

use aso_trials_cases::CaseFault;
use trials::{Kind, put_all};

fn main(rt: HostRuntime) -> Result<(), CaseFault> {
    put_all(&rt, "sheets.json", Kind::Devices)?;
    put_all(&rt, "commands.json", Kind::Devices)?;
    put_all(&rt, "crashes.json", Kind::Devices)?;
    put_all(&rt, "catalogs.json", Kind::Devices)?;
    put_all(&rt, "records.json", Kind::Records)?;
    put_all(&rt, "makings.json", Kind::Devices)?;
    put_all(&rt, "stores.json", Kind::Stores)?;
    put_all(&rt, "lines.json", Kind::Lines)?;
    put_all(&rt, "verdicts.json", Kind::Verdicts)
}
