// A reader that has the layout pinned while other passes raise the layout and the floor, and sweep.
ghost use Rattle.std.specs.Prelude.{◌≡◌, ℕ, ◌≤◌, All, IfSome};
ghost use Rattle.aso_gate.specs.Passes.{IsPassOf, IsFree, IsIdle, pinned_layout};

use crate::entries::{seats, turns};
use crate::log::Log;
use aso_gate::{Gate, Pass};
use aso_trials_cases::{CaseFault, field, number};
use serde_json::Value;
use std::alloc::AllocError;
use std::fmt::Write;
use std::sync::Wait;
use std::thread::{Threads, for_each_mut};

// Turns that raise the floor to the least pinned layout, note it, raise the layout by one, and sweep.
fn sweep<R: Wait>(rt: &R, gate: &Gate<Log>, pass: &mut Pass<Log>, count: u32)
    requires own { IsPassOf (λ _. tt) gate.now pass.old }
    requires idle { IsIdle pass.old }
    ensures own { IsPassOf (λ _. tt) gate.now pass.new }
    ensures idle { IsIdle pass.new }
{
    for _ in 0..count {
        let mut turn = gate.enter(rt, pass);
        let current = turn.state().layout;
        let floor = gate.least_pinned(&turn, pass, current);
        gate.raise_floor(&turn, pass, floor);
        let log = turn.state_mut();
        let _ = log.floors.push(floor);
        log.layout = current.saturating_add(1);
        log.swept = floor;
        gate.leave(turn, pass);
    }
}

// Each pass in a thread of its own.
fn sweep_all<R: Threads + Wait + Sync>(
    rt: &R,
    gate: &Gate<Log>,
    passes: &mut Vec<Pass<Log>>,
    count: u32,
)
    requires { All (λ p. IsPassOf (λ _. tt) gate.now p × IsIdle p) passes.old.items }
{
    let threads = passes.len().max(1);
    for_each_mut(
        rt,
        passes.as_mut_slice(),
        threads,
        &|_, pass: &mut Pass<Log>|
            requires { IsPassOf (λ _. tt) gate.now pass.old × IsIdle pass.old }
            ensures { IsPassOf (λ _. tt) gate.entry.now pass.new × IsIdle pass.new }
        { sweep(rt, gate, pass, count) },
    );
}

// A turn in which the layout is pinned, where it is 1 or more. Answers it.
fn pin_layout<R: Wait>(rt: &R, gate: &Gate<Log>, pass: &mut Pass<Log>) -> Option<u64>
    requires own { IsPassOf (λ _. tt) gate.now pass.old }
    requires free { IsFree pass.old }
    ensures own { IsPassOf (λ _. tt) gate.now pass.new }
    ensures idle { IsIdle pass.new }
    ensures pinned { IfSome result (λ layout. (1 ≤ layout) × (pinned_layout pass.new ≡ layout)) }
{
    let turn = gate.enter(rt, pass);
    let layout = turn.state().layout;
    if layout == 0 {
        gate.leave(turn, pass);
        return None;
    }
    gate.pin(&turn, pass, layout);
    gate.leave(turn, pass);
    Some(layout)
}

// The floors of turns, each with how often it stood there in a row.
fn put_floors(floors: &[u64], out: &mut String) -> Result<(), AllocError> {
    out.push_str("floors:")?;
    let mut last = 0;
    let mut count = 0u64;
    for floor in floors {
        if *floor != last && count > 0 {
            write!(out, " {last} x {count},")?;
            count = 0;
        }
        last = *floor;
        count = count.saturating_add(1);
    }
    writeln!(out, " {last} x {count}")
}

fn put_log(log: &Log, out: &mut String) -> Result<(), AllocError> {
    put_floors(&log.floors, out)?;
    writeln!(out, "layout {}, swept below {}", log.layout, log.swept)
}

// What the log is, in a turn of its own.
fn put_turn<R: Wait>(
    rt: &R,
    gate: &Gate<Log>,
    pass: &mut Pass<Log>,
    out: &mut String,
) -> Result<(), AllocError>
    requires own { IsPassOf (λ _. tt) gate.now pass.old }
    requires idle { IsIdle pass.old }
    ensures own { IsPassOf (λ _. tt) gate.now pass.new }
    ensures idle { IsIdle pass.new }
    ensures pin { pinned_layout pass.new ≡ pinned_layout pass.old }
{
    let turn = gate.enter(rt, pass);
    let outcome = put_log(turn.state(), out);
    gate.leave(turn, pass);
    outcome
}

/// The floors of turns while the last pass has the layout pinned, and of a turn of its own behind them.
pub fn told<R: Threads + Wait + Sync + AllocGlobal>(
    rt: &R,
    case: &Value,
) -> Result<String, CaseFault> {
    let turns = turns(case)?;
    let log = Log {
        steps: Vec::new(rt.alloc()),
        floors: Vec::new(rt.alloc()),
        layout: number(field(case, "layout")?)?,
        swept: 0,
    };
    let Ok((gate, mut passes)) = Gate::open(rt.alloc(), log, seats(case)?) else {
        return Err(CaseFault::NoMemory);
    };
    let Some(mut reader) = passes.pop() else {
        return Err(CaseFault::Value);
    };
    let Some(pinned) = pin_layout(rt, &gate, &mut reader) else {
        return Err(CaseFault::Value);
    };
    let mut out = String::new(rt.alloc());
    writeln!(out, "pass {} pins layout {pinned}", reader.number())?;
    sweep_all(rt, &gate, &mut passes, turns);
    put_turn(rt, &gate, &mut reader, &mut out)?;
    let floor = gate.unpin(&mut reader);
    writeln!(out, "unpinned at floor {floor}")?;
    sweep(rt, &gate, &mut reader, 1);
    put_turn(rt, &gate, &mut reader, &mut out)?;
    Ok(out)
}
