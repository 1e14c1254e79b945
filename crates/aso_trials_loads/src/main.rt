//! Trials of rules files, of the data files that are loaded under them, and of the buffers that combine what is loaded, on outlines as
//! users write them. What each case of a file gives is printed behind its title.
#![tactic(auto)]

mod buffers;
mod loads;
mod outlines;
mod rules;
mod trials;

use aso_trials_cases::CaseFault;
use trials::{Kind, put_all};

fn main(rt: HostRuntime) -> Result<(), CaseFault> {
    put_all(&rt, Kind::Rules, "rules.json")?;
    put_all(&rt, Kind::Loads, "texts.json")?;
    put_all(&rt, Kind::Loads, "rejects.json")?;
    put_all(&rt, Kind::Loads, "buffers.json")
}
