// The run of a script.
ghost use Rattle.std.specs.Prelude.{◌≡◌, ◌⊎◌, ◌≤◌, IsOkAnd, is_some};
ghost use Rattle.aso_disk.specs.Causes.{Rose};
ghost use Rattle.aso_catalog.specs.View.{IsTold, TellsAlike, Throughout, device_of};
ghost use Rattle.aso_machine.specs.Machine.{Held};
ghost use Rattle.aso_stage.specs.Runs.{left_of, now_of};
ghost use Rattle.aso_stage.specs.Taking.{Holds, IsReady};
ghost use Rattle.aso_top.specs.Ends.{EndsAs};
ghost use Rattle.aso_top.specs.Scripts.{Causes, EndedAs, RunsScript, ScriptRun};

use crate::deliver::deliver;
use crate::lines::{LIBRARY_FAULT, NO_MEMORY, no_text};
use aso_catalog::Catalog;
use aso_disk::{Library, Sink, Slots, Trouble};
use aso_num::{NoMemory, Status};
use aso_stage::{Answer, Store, open_store, run_text};
use std::alloc::Global;

// The status of a run whose output is whole, or was cut.
fn ended_as(ended: Result<Status, Trouble>) -> Status
    ensures { EndedAs ended result }
{
    match ended {
        Ok(status) => status,
        Err(Trouble::Failed) => Status::Sink,
        Err(Trouble::NoMemory) => Status::NoMemory,
    }
}

// Reads a script and runs it over an opened store.
fn run_opened<C: Slots, L: Library, K: Sink>(
    alloc: Global,
    script: &str,
    catalog: &mut Catalog<C>,
    store: &mut Store,
    library: &mut L,
    out: &mut K,
) -> Status
    requires { IsReady catalog.old store.old }
    ensures runs { (h : Held) → Holds catalog.old store.old h → RunsScript (IsTold catalog.old) (left_of catalog.new) (now_of catalog.old h) (C.moment (device_of catalog.new)) (C.faults (device_of catalog.new)) (Rose (L.faults library.old) (L.faults library.new)) (L.texts library.old) script.now (K.written out.old) (K.written out.new) result }
    ensures causes { (h : Held) → Holds catalog.old store.old h → Causes (C.faults (device_of catalog.old)) (C.faults (device_of catalog.new)) (L.faults library.old) (L.faults library.new) (K.faults out.old) (K.faults out.new) result }
    ensures past { Throughout catalog.old catalog.new (λ c. Unit {0}) }
    ensures told { TellsAlike catalog.old catalog.new }
    ensures same { C.same (device_of catalog.old) (device_of catalog.new) }
    ensures texts { L.texts library.new ≡ L.texts library.old }
    ensures library_later { L.faults library.old ≤ L.faults library.new }
    ensures catalog_later { C.faults (device_of catalog.old) ≤ C.faults (device_of catalog.new) }
    ensures sink_later { K.faults out.old ≤ K.faults out.new }
{
    match library.text(script) {
        Err(Trouble::Failed) => deliver(out, Status::Library, LIBRARY_FAULT),
        Err(Trouble::NoMemory) => deliver(out, Status::NoMemory, NO_MEMORY),
        Ok(None) => match no_text(alloc, script) {
            Ok(line) => deliver(out, Status::Refused, &line),
            Err(_) => deliver(out, Status::NoMemory, NO_MEMORY),
        },
        Ok(Some(text)) => match run_text(alloc, catalog, store, &text, out) {
            Ok(ended) => ended_as(ended),
            Err(_) => deliver(out, Status::NoMemory, NO_MEMORY),
        },
    }
}

// Puts the answer to a store that was not opened.
fn put_unopened<K: Sink>(out: &mut K, answer: Result<Answer, NoMemory>) -> Status
    ensures ends { EndsAs (K.written out.old) (K.written out.new) answer result }
    ensures sink { result ≡ Status.Sink → Rose (K.faults out.old) (K.faults out.new) ⊎ IsOkAnd answer (λ a. a.status ≡ Status.Sink) }
    ensures later { K.faults out.old ≤ K.faults out.new }
{
    match answer {
        Ok(answer) => deliver(out, answer.status, &answer.text),
        Err(_) => deliver(out, Status::NoMemory, NO_MEMORY),
    }
}

// Opens a store, runs a script over it, and hands the device back.
fn open_and_run<C: Slots, L: Library, K: Sink>(
    alloc: Global,
    script: &str,
    slots: C,
    library: &mut L,
    out: &mut K,
) -> (C, Status)
    ensures runs { ScriptRun C.seen C.moment C.left C.faults slots result.0 (Rose (L.faults library.old) (L.faults library.new)) (L.texts library.old) script.now (K.written out.old) (K.written out.new) result.1 }
    ensures causes { Causes (C.faults slots) (C.faults result.0) (L.faults library.old) (L.faults library.new) (K.faults out.old) (K.faults out.new) result.1 }
    ensures told { is_some (C.seen result.0) ≡ is_some (C.seen slots) }
    ensures same { C.same slots result.0 }
    ensures texts { L.texts library.new ≡ L.texts library.old }
    ensures library_later { L.faults library.old ≤ L.faults library.new }
    ensures catalog_later { C.faults slots ≤ C.faults result.0 }
    ensures sink_later { K.faults out.old ≤ K.faults out.new }
{
    match open_store(alloc, slots) {
        Ok((mut catalog, mut store)) => {
            let status = run_opened(alloc, script, &mut catalog, &mut store, library, out);
            (catalog.into_slots(), status)
        }
        Err((slots, answer)) => {
            let status = put_unopened(out, answer);
            (slots, status)
        }
    }
}

// Ends the loan of a device.
fn give_back<C: Slots>(_device: &mut C)
    ensures { _device.new ≡ _device.old }
{}

/// Runs a script over a store on a device that is lent.
pub fn run_script<C: Slots, L: Library, K: Sink>(
    alloc: Global,
    script: &str,
    catalog: &mut C,
    library: &mut L,
    out: &mut K,
) -> Status
    ensures runs { ScriptRun C.seen C.moment C.left C.faults catalog.old catalog.new (Rose (L.faults library.old) (L.faults library.new)) (L.texts library.old) script.now (K.written out.old) (K.written out.new) result }
    ensures library { result ≡ Status.Library → Rose (L.faults library.old) (L.faults library.new) }
    ensures sink { result ≡ Status.Sink → Rose (K.faults out.old) (K.faults out.new) }
    ensures disk { result ≡ Status.Disk → Rose (C.faults catalog.old) (C.faults catalog.new) }
    ensures texts { L.texts library.new ≡ L.texts library.old }
    ensures told { is_some (C.seen catalog.new) ≡ is_some (C.seen catalog.old) }
    ensures same { C.same catalog.old catalog.new }
    ensures library_later { L.faults library.old ≤ L.faults library.new }
    ensures catalog_later { C.faults catalog.old ≤ C.faults catalog.new }
    ensures sink_later { K.faults out.old ≤ K.faults out.new }
{
    let (device, status) = open_and_run(alloc, script, catalog, library, out);
    give_back(device);
    status
}
