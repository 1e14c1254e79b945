//! Trials of the gate with threads: each thread's entries in the history, and a pinned reader that holds the floor. What each case of a
//! file gives is printed behind its title; it is the same whatever the order in which the threads run.
#![tactic(auto)]

mod entries;
mod log;
mod pins;

use aso_trials_cases::{CaseFault, cases, field, string};

fn main(rt: HostRuntime) -> Result<(), CaseFault> {
    println!(rt; "== entries.json")?;
    for case in cases(&rt, "entries.json")?.as_slice() {
        let title = string(rt.alloc(), field(case, "title")?)?;
        let given = entries::told(&rt, case)?;
        print!(rt; "{title}:\n{given}")?;
    }
    println!(rt; "\n== pins.json")?;
    for case in cases(&rt, "pins.json")?.as_slice() {
        let title = string(rt.alloc(), field(case, "title")?)?;
        let given = pins::told(&rt, case)?;
        print!(rt; "{title}:\n{given}")?;
    }
    Ok(())
}
