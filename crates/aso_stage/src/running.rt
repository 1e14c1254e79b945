// The run of a script: its statements, one behind the other.
ghost use Rattle.std.specs.Prelude.{◌≡◌, ◌+◌, ◌-◌, ◌<◌, ◌≤◌, ◌^◌, Err, map, length, IfOk, IfErr, OnErr, IsErrOf};
ghost use Rattle.aso_disk.specs.Causes.{HasCause, Rose};
ghost use Rattle.aso_spec.specs.Cells.{add_at};
ghost use Rattle.aso_script.specs.Script.{Line as ScriptLine, script_lines};
ghost use Rattle.aso_catalog.specs.View.{TellsAlike, Throughout, device_of, IsTold};
ghost use Rattle.aso_script.specs.Lines.{line as line_of};
ghost use Rattle.aso_machine.specs.Machine.{Changes, Comes, Held};
ghost use Rattle.aso_stage.specs.Runs.{Ran, left_of, now_of};
ghost use Rattle.aso_stage.specs.Session.{first_fault};
ghost use Rattle.aso_machine.specs.State.{entry};
ghost use Rattle.aso_stage.specs.Stores.{state_of};
ghost use Rattle.aso_stage.specs.Taking.{Holds, IsReady, Replies, Taken};
ghost use Rattle.aso_machine.specs.Verdicts.{MayCommit};

use crate::amount::next_body;
use crate::answer::Answer;
use crate::committing::publish_next;
use crate::replying::{doubt_line, error_line, grid_reply, ok_line, put_end, put_no_memory};
use crate::store::Store;
use aso_catalog::{Catalog, PublishFault};
use aso_disk::{Sink, Slots, Trouble};
use aso_machine::{Verdict, judge};
use aso_num::{NoMemory, Status};
use aso_script::{Line, cut_lines};
use std::alloc::Global;

// Publishes the commit of an amount, and answers it. The replies are made before, so that a commit that was published is
// told.
fn commit<C: Slots>(
    alloc: Global,
    catalog: &mut Catalog<C>,
    store: &mut Store,
    number: u64,
    key: &[u32],
    amount: i128,
) -> Result<Answer, NoMemory>
    requires ready { IsReady catalog.old store.old }
    requires may { MayCommit store.old.outline store.old.saved key.now amount }
    ensures taken { IfOk result (λ a. (h : Held) (line : ScriptLine) → Holds catalog.old store.old h → Comes (state_of store.old) line (Changes (add_at key.now amount (map entry store.old.saved.cells))) → Taken catalog.old catalog.new store.new h number line a.text.items a.status) }
    ensures stays { OnErr result ((catalog.new ≡ catalog.old) × (store.new ≡ store.old)) }
    ensures ready { IsReady catalog.new store.new }
    ensures outline { store.new.outline ≡ store.old.outline }
    ensures past { Throughout catalog.old catalog.new (λ c. Unit {0}) }
    ensures later { C.faults (device_of catalog.old) ≤ C.faults (device_of catalog.new) }
    ensures told { TellsAlike catalog.old catalog.new }
    ensures same { C.same (device_of catalog.old) (device_of catalog.new) }
{
    let next_commit = store.saved.commit + 1;
    let done = ok_line(alloc, number, next_commit)?;
    let doubtful = doubt_line(alloc, number, next_commit)?;
    let failed = error_line(alloc, number, b"301 disk fault")?;
    let (next, body) = next_body(alloc, store, key, amount)?;
    match publish_next(catalog, store, next, &body) {
        Ok(()) => Ok(Answer {
            status: Status::Done,
            text: done.into_bytes(),
        }),
        Err(PublishFault::Fault { in_doubt: true }) => Ok(Answer {
            status: Status::Disk,
            text: doubtful,
        }),
        Err(PublishFault::Fault { in_doubt: false }) => Ok(Answer {
            status: Status::Disk,
            text: failed,
        }),
        Err(PublishFault::SeqEnd) => Ok(Answer {
            status: Status::Disk,
            text: failed,
        }),
    }
}

// Answers a line. Of want of memory nothing is left.
fn take_line<C: Slots>(
    alloc: Global,
    catalog: &mut Catalog<C>,
    store: &mut Store,
    number: u64,
    line: &Line<'_>,
) -> Result<Answer, NoMemory>
    requires { IsReady catalog.old store.old }
    ensures taken { IfOk result (λ a. (h : Held) → Holds catalog.old store.old h → Taken catalog.old catalog.new store.new h number (line_of line.now) a.text.items a.status) }
    ensures stays { OnErr result ((catalog.new ≡ catalog.old) × (store.new ≡ store.old)) }
    ensures ready { IsReady catalog.new store.new }
    ensures outline { store.new.outline ≡ store.old.outline }
    ensures past { Throughout catalog.old catalog.new (λ c. Unit {0}) }
    ensures later { C.faults (device_of catalog.old) ≤ C.faults (device_of catalog.new) }
    ensures told { TellsAlike catalog.old catalog.new }
    ensures same { C.same (device_of catalog.old) (device_of catalog.new) }
{
    match judge(alloc, &store.outline, &store.saved, line)? {
        Verdict::Refused { text } => Ok(Answer {
            status: Status::Refused,
            text: error_line(alloc, number, &text)?,
        }),
        Verdict::Grid {
            rows,
            columns,
            text,
        } => Ok(Answer {
            status: Status::Done,
            text: grid_reply(alloc, number, store.saved.commit, rows, columns, &text)?,
        }),
        Verdict::Commit { key, amount } => commit(alloc, catalog, store, number, &key, amount),
    }
}

// Answers a line and puts its reply, also where there is no memory for it.
fn reply_to<C: Slots, K: Sink>(
    alloc: Global,
    catalog: &mut Catalog<C>,
    store: &mut Store,
    number: u64,
    line: &Line<'_>,
    out: &mut K,
) -> Result<Status, Trouble>
    requires { IsReady catalog.old store.old }
    ensures replies { (h : Held) → Holds catalog.old store.old h → Replies catalog.old catalog.new store.new h number (line_of line.now) (K.written out.old) (K.written out.new) result }
    ensures cause { HasCause (K.faults out.old) (K.faults out.new) (IsErrOf result Trouble.Failed) }
    ensures ready { IsReady catalog.new store.new }
    ensures outline { store.new.outline ≡ store.old.outline }
    ensures past { Throughout catalog.old catalog.new (λ c. Unit {0}) }
    ensures later { C.faults (device_of catalog.old) ≤ C.faults (device_of catalog.new) }
    ensures told { TellsAlike catalog.old catalog.new }
    ensures same { C.same (device_of catalog.old) (device_of catalog.new) }
{
    match take_line(alloc, catalog, store, number, line) {
        Ok(answer) => match out.put(&answer.text) {
            Ok(()) => Ok(answer.status),
            Err(trouble) => Err(trouble),
        },
        Err(_) => match put_no_memory(out, number) {
            Ok(()) => Ok(Status::NoMemory),
            Err(trouble) => Err(trouble),
        },
    }
}

// The status of a run that goes on.
fn first_fault(before: Status, next: Status) -> Status
    ensures { result ≡ first_fault before next }
{
    if before == Status::Done { next } else { before }
}

/// Takes the lines of a script one behind the other, puts the reply to each, and at the end the line that counts them. Its
/// answer is the status of the first that wasn't answered OK. A sink's error ends the run, and is answered in its place.
pub fn run_lines<C: Slots, K: Sink>(
    alloc: Global,
    catalog: &mut Catalog<C>,
    store: &mut Store,
    lines: &[Line<'_>],
    out: &mut K,
) -> Result<Status, Trouble>
    requires { IsReady catalog.old store.old }
    // Each reply is an outcome of its statement, and a crash at each moment leaves what is held before it or what it
    // publishes.
    ensures ran { (h : Held) → Holds catalog.old store.old h → Ran (IsTold catalog.old) (left_of catalog.new) (map line_of lines.now) (now_of catalog.old h) (C.moment (device_of catalog.new)) (C.faults (device_of catalog.new)) (K.written out.old) (K.written out.new) result }
    ensures cause { HasCause (K.faults out.old) (K.faults out.new) (IsErrOf result Trouble.Failed) }

    ensures past { Throughout catalog.old catalog.new (λ c. Unit {0}) }
    ensures later { C.faults (device_of catalog.old) ≤ C.faults (device_of catalog.new) }
    ensures told { TellsAlike catalog.old catalog.new }
    ensures same { C.same (device_of catalog.old) (device_of catalog.new) }
{
    let mut number = 0;
    let mut status = Status::Done;
    for line in lines {
        number += 1;
        match reply_to(alloc, catalog, store, number, line, out) {
            Ok(next) => status = first_fault(status, next),
            Err(trouble) => return Err(trouble),
        }
    }
    match put_end(out, number) {
        Ok(()) => Ok(status),
        Err(trouble) => Err(trouble),
    }
}

/// Runs a script over an opened store. `Err` is want of memory before its first line, and nothing was done then.
pub fn run_text<C: Slots, K: Sink>(
    alloc: Global,
    catalog: &mut Catalog<C>,
    store: &mut Store,
    text: &[u8],
    out: &mut K,
) -> Result<Result<Status, Trouble>, NoMemory>
    requires { IsReady catalog.old store.old }
    ensures ran { IfOk result (λ ended. (h : Held) → Holds catalog.old store.old h → Ran (IsTold catalog.old) (left_of catalog.new) (script_lines text.now) (now_of catalog.old h) (C.moment (device_of catalog.new)) (C.faults (device_of catalog.new)) (K.written out.old) (K.written out.new) ended) }
    ensures stays { OnErr result ((catalog.new ≡ catalog.old) × (out.new ≡ out.old)) }
    ensures cause { IfOk result (λ ended. ended ≡ Err Trouble.Failed → Rose (K.faults out.old) (K.faults out.new)) }
    ensures sink_later { K.faults out.old ≤ K.faults out.new }

    ensures past { Throughout catalog.old catalog.new (λ c. Unit {0}) }
    ensures later { C.faults (device_of catalog.old) ≤ C.faults (device_of catalog.new) }
    ensures told { TellsAlike catalog.old catalog.new }
    ensures same { C.same (device_of catalog.old) (device_of catalog.new) }
{
    let lines = cut_lines(alloc, text)?;
    Ok(run_lines(alloc, catalog, store, &lines, out))
}
