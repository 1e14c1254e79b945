// Threads that leave entries, a pass each, and the history that they leave.
ghost use Rattle.std.specs.Prelude.{◌≡◌, ℕ, ◌≤◌, All, length, IfOk};
ghost use Rattle.aso_gate.specs.Passes.{IsPassOf, IsFree};

use crate::log::{Log, Step};
use aso_gate::{Gate, Pass};
use aso_trials_cases::{CaseFault, field, number};
use serde_json::Value;
use std::alloc::AllocError;
use std::fmt::Write;
use std::sync::Wait;
use std::thread::{Threads, for_each_mut};

/// A number of passes that a gate may have.
pub fn seats(case: &Value) -> Result<u32, CaseFault>
    ensures least { IfOk result (λ n. 1 ≤ n) }
    ensures most { IfOk result (λ n. n ≤ 1024) }
{
    match u32::try_from(number(field(case, "passes")?)?) {
        Ok(seats) if seats >= 1 && seats <= 1024 => Ok(seats),
        _ => Err(CaseFault::Value),
    }
}

/// How often each pass takes a turn.
pub fn turns(case: &Value) -> Result<u32, CaseFault> {
    match u32::try_from(number(field(case, "turns")?)?) {
        Ok(turns) => Ok(turns),
        Err(_) => Err(CaseFault::Value),
    }
}

// Leaves so many entries, in a turn each.
fn leave_entries<R: Wait>(rt: &R, gate: &Gate<Log>, pass: &mut Pass<Log>, count: u32)
    requires own { IsPassOf (λ _. tt) gate.now pass.old }
    requires free { IsFree pass.old }
    ensures own { IsPassOf (λ _. tt) gate.now pass.new }
    ensures free { IsFree pass.new }
{
    for before in 0..count {
        let mut turn = gate.enter(rt, pass);
        let number = pass.number();
        let _ = turn.state_mut().steps.push(Step { number, before });
        gate.leave(turn, pass);
    }
}

// Each pass in a thread of its own.
fn leave_all<R: Threads + Wait + Sync>(
    rt: &R,
    gate: &Gate<Log>,
    passes: &mut Vec<Pass<Log>>,
    count: u32,
)
    requires { All (λ p. IsPassOf (λ _. tt) gate.now p × IsFree p) passes.old.items }
    ensures passes { All (λ p. IsPassOf (λ _. tt) gate.now p × IsFree p) passes.new.items }
    ensures count { length passes.new.items ≡ length passes.old.items }
{
    let threads = passes.len().max(1);
    for_each_mut(
        rt,
        passes.as_mut_slice(),
        threads,
        &|_, pass: &mut Pass<Log>|
            requires { IsPassOf (λ _. tt) gate.now pass.old × IsFree pass.old }
            ensures { IsPassOf (λ _. tt) gate.entry.now pass.new × IsFree pass.new }
        { leave_entries(rt, gate, pass, count) },
    );
}

// How many entries a pass has in the history, and whether each of them had so many before it.
fn put_own(steps: &[Step], number: u32, out: &mut String) -> Result<(), AllocError> {
    let mut count = 0u32;
    let mut in_order = true;
    for step in steps {
        if step.number == number {
            in_order = in_order && step.before == count;
            count = count.saturating_add(1);
        }
    }
    let order = if in_order { "in order" } else { "out of order" };
    writeln!(out, "pass {number}: {count} entries, {order}")
}

/// The history that passes leave which take their turns in a thread each.
pub fn told<R: Threads + Wait + Sync + AllocGlobal>(
    rt: &R,
    case: &Value,
) -> Result<String, CaseFault> {
    let seats = seats(case)?;
    let turns = turns(case)?;
    let log = Log {
        steps: Vec::new(rt.alloc()),
        floors: Vec::new(rt.alloc()),
        layout: 0,
        swept: 0,
    };
    let Ok((gate, mut passes)) = Gate::open(rt.alloc(), log, seats) else {
        return Err(CaseFault::NoMemory);
    };
    leave_all(rt, &gate, &mut passes, turns);
    let log = gate.close(passes);
    let mut out = String::new(rt.alloc());
    writeln!(out, "{} entries in all", log.steps.len())?;
    for number in 0..seats {
        put_own(&log.steps, number, &mut out)?;
    }
    Ok(out)
}
