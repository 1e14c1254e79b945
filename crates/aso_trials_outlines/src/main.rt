//! Trials of outlines, as cases in files: which drafts and which texts are outlines, and else the first fault; what an outline tells
//! of its members, in tables; and outlines that are printed and read again.
#![tactic(auto)]

mod classes;
mod drafts;
mod frames;
mod lines;
mod lookups;
mod members;
mod printed;
mod trees;
mod trials;
mod verdicts;

use crate::trials::{Trial, put_all};
use aso_trials_cases::{CaseFault, cases};

fn main(rt: HostRuntime) -> Result<(), CaseFault> {
    let frames = cases(&rt, "frames.json")?;
    let frames = frames.as_slice();
    put_all(&rt, frames, Trial::Verdict, "rules.json")?;
    put_all(&rt, frames, Trial::Draft, "drafts.json")?;
    put_all(&rt, frames, Trial::Verdict, "texts.json")?;
    put_all(&rt, frames, Trial::Verdict, "basic.json")?;
    put_all(&rt, frames, Trial::LookUps, "lookups.json")?;
    put_all(&rt, frames, Trial::Printed, "printed.json")
}
