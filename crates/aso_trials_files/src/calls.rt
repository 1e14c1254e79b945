// A shelf whose calls fail.
use crate::cells::cells_of;
use crate::counted::counted;
use crate::reading::bits_of;
use crate::stop::{Stop, outcome};
use crate::writing::{opened, written};
use aso_cellfile::Steps;
use aso_runs::{Cell, Run};
use aso_trials_cases::{CaseFault, field, number};
use aso_words::Words;
use serde_json::Value;
use std::alloc::Global;
use std::sync::ledger::Ledger;

// Writes a file of the cells, finds it, opens it, and reads its last block and all of its cells, where the call of that number fails.
fn done<L: Ledger>(
    alloc: Global,
    bits: u16,
    cells: &[Cell<1>],
    fail: u64,
    steps: &mut Steps<L>,
) -> Result<String, Stop> {
    let (mut shelf, _file) = written(alloc, vec![in alloc; fail]?, bits, cells)?;
    let file = opened::<1>(alloc, &mut shelf, bits)?;
    let blocks = file.blocks();
    if blocks == 0 {
        return Err(Stop::Case(CaseFault::Value));
    }
    match file.block(&mut shelf, blocks - 1, steps) {
        Ok(_cells) => {}
        Err(fault) => return Err(Stop::Block(fault)),
    }
    let mut run = Run::empty(alloc);
    match file.scan(&mut shelf, Words::zero(), None, &mut run, steps) {
        Ok(()) => {}
        Err(fault) => return Err(Stop::Scan(fault)),
    }
    let count = run.cells().len();
    Ok(format!(in alloc; "all is done, {count} cells in {blocks} blocks")?)
}

/// How far it goes where each of so many calls fails in turn.
pub fn told<L: Ledger>(
    alloc: Global,
    case: &Value,
    steps: &mut Steps<L>,
) -> Result<String, CaseFault> {
    let bits = bits_of(case)?;
    let cells = cells_of::<1>(alloc, case)?;
    let mut outcomes = Vec::new(alloc);
    for fail in 0..number(field(case, "calls")?)? {
        outcomes.push(outcome(alloc, done(alloc, bits, &cells, fail, steps))?)?;
    }
    Ok(counted(alloc, &outcomes)?)
}
