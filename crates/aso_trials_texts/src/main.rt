//! Trials of texts: sheets and the grids that they come to, sets and queries, formulas, and the lines of scripts. What each case of a
//! file gives is printed behind its title.
#![tactic(auto)]

mod evals;
mod formulas;
mod kinds;
mod scripts;
mod sets;
mod sheets;
mod texts;
mod utf8;

use aso_trials_cases::CaseFault;
use kinds::Kind;
use texts::put_all;

fn main(rt: HostRuntime) -> Result<(), CaseFault> {
    put_all(&rt, Kind::Eval, "evals.json")?;
    put_all(&rt, Kind::Eval, "refusals.json")?;
    put_all(&rt, Kind::Sheet, "sheets.json")?;
    put_all(&rt, Kind::Sheet, "faulty_lines.json")?;
    put_all(&rt, Kind::Outline, "outlines.json")?;
    put_all(&rt, Kind::Set, "sets.json")?;
    put_all(&rt, Kind::Query, "queries.json")?;
    put_all(&rt, Kind::Formula, "formulas.json")?;
    put_all(&rt, Kind::Addition, "additions.json")?;
    put_all(&rt, Kind::Script, "scripts.json")
}
