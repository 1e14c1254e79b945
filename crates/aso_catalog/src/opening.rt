ghost use Rattle.std.specs.Prelude.{◌≡◌, ◌<◌, ◌≤◌, IfOk, IfErr, IfSome, IsErrOf, MatchOption, OnOk, ℕ, length};
ghost use Rattle.aso_disk.specs.Causes.{Rose};
ghost use Rattle.aso_disk.specs.Slots.{Only, Runs, Still};
ghost use Rattle.aso_catalog.specs.Faults.{OnBad};
ghost use Rattle.aso_catalog.specs.Image.{FromSync, IsSeen, SomeImage};
ghost use Rattle.aso_catalog.specs.Opening.{HasLayout, IsAreaFault, IsBad, IsShortOrFault, IsChoice, IsFound, IsOpening, IsDamage, ReadsArea};

use crate::fault::CatalogFault;
use crate::{Record, RecordFault, decode};
use aso_disk::Slots;
use std::alloc::Global;

const MOST_BODY: usize = 131_067;

/// The area of the current record, and that record.
#[derive(Drop)]
pub(crate) struct Choice {
    pub current: u64,
    pub layout: u64,
    pub present: bool,
    pub shut: bool,
    pub found: Option<Record>,
}

// The record behind the gate of an area, where that is open.
fn look(alloc: Global, bytes: &[u8]) -> Result<Option<Record>, RecordFault>
    requires { length bytes.now ≡ 131072 }
    ensures found { IfOk result (λ found. IsFound bytes.now found) }
    ensures bad { OnBad result (IsBad bytes.now) }
{
    if bytes[0] != 1 {
        return Ok(None);
    }
    let size = u32::from_be_bytes([bytes[1], bytes[2], bytes[3], bytes[4]]) as usize;
    if size > MOST_BODY {
        return Err(RecordFault::Bad { at: 0 });
    }
    match decode(alloc, &bytes[5..5 + size]) {
        Ok(found) => Ok(Some(found)),
        Err(fault) => Err(fault),
    }
}

// The record of greater layout. An error is the layout that both have.
fn choose(first: Option<Record>, second: Option<Record>) -> Result<Choice, u64>
    ensures chosen { IfOk result (λ choice. IsChoice first second choice.current choice.layout choice.present choice.shut choice.found) }
    ensures twin { IfErr result (λ layout. HasLayout first layout × HasLayout second layout) }
{
    match (first, second) {
        (None, None) => Ok(Choice {
            current: 1,
            layout: 0,
            present: false,
            shut: true,
            found: None,
        }),
        (Some(one), None) => Ok(Choice {
            current: 0,
            layout: one.layout,
            present: true,
            shut: true,
            found: Some(one),
        }),
        (None, Some(two)) => Ok(Choice {
            current: 1,
            layout: two.layout,
            present: true,
            shut: true,
            found: Some(two),
        }),
        (Some(one), Some(two)) => {
            if one.layout == two.layout {
                return Err(one.layout);
            }
            if one.layout < two.layout {
                return Ok(Choice {
                    current: 1,
                    layout: two.layout,
                    present: true,
                    shut: false,
                    found: Some(two),
                });
            }
            Ok(Choice {
                current: 0,
                layout: one.layout,
                present: true,
                shut: false,
                found: Some(one),
            })
        }
    }
}

// Syncs, and wants the size of two areas.
fn measure<C: Slots>(slots: &mut C) -> Result<(), CatalogFault>
    ensures size { OnOk result (262144 ≤ C.extent slots.new) }
    ensures short { (size : ℕ) → IsErrOf result (CatalogFault.Short size) → (size ≡ C.extent slots.old) × (size < 262144) }
    ensures others { IfErr result IsShortOrFault }
    ensures durable { OnOk result (IfSome (C.seen slots.new) (λ b. Only b (C.left slots.new (C.moment slots.new)))) }
    ensures synced { OnOk result (FromSync C.moment C.left slots.old slots.new (IsSeen (C.seen slots.old))) }
    ensures seen { C.seen slots.new ≡ C.seen slots.old }
    ensures extent { C.extent slots.new ≡ C.extent slots.old }
    ensures crash { Runs Still (C.moment slots.old) (C.moment slots.new) (C.left slots.old) (C.left slots.new) }
    ensures same { C.same slots.old slots.new }
    ensures later { C.faults slots.old ≤ C.faults slots.new }
    ensures cause { IsErrOf result CatalogFault.Fault → Rose (C.faults slots.old) (C.faults slots.new) }
{
    let Ok(()) = slots.sync() else {
        return Err(CatalogFault::Fault);
    };
    let Ok(size) = slots.size() else {
        return Err(CatalogFault::Fault);
    };
    if size < 262_144 {
        return Err(CatalogFault::Short { size });
    }
    Ok(())
}

// Reads an area, and looks behind its gate.
fn read_area<C: Slots>(
    alloc: Global,
    slots: &mut C,
    number: u8,
    buffer: &mut [u8],
) -> Result<Option<Record>, CatalogFault>
    requires number { number ≤ 1 }
    requires space { length buffer.old ≡ 131072 }
    requires size { 262144 ≤ C.extent slots.old }
    ensures found { IfOk result (λ found. ReadsArea number (C.seen slots.old) (λ bytes. IsFound bytes found)) }
    ensures bad { IfErr result (IsAreaFault number (C.seen slots.old)) }
    ensures seen { C.seen slots.new ≡ C.seen slots.old }
    ensures extent { C.extent slots.new ≡ C.extent slots.old }
    ensures crash { Runs Still (C.moment slots.old) (C.moment slots.new) (C.left slots.old) (C.left slots.new) }
    ensures same { C.same slots.old slots.new }
    ensures later { C.faults slots.old ≤ C.faults slots.new }
    ensures cause { IsErrOf result CatalogFault.Fault → Rose (C.faults slots.old) (C.faults slots.new) }
{
    let Ok(()) = slots.read(131_072 * number as u64, buffer) else {
        return Err(CatalogFault::Fault);
    };
    match look(alloc, buffer) {
        Ok(found) => Ok(found),
        Err(RecordFault::Bad { .. }) => Err(CatalogFault::BadArea {
            area: number,
            at: 0,
        }),
        Err(RecordFault::NoMemory) => Err(CatalogFault::NoMemory),
    }
}

/// Syncs, and finds the area of greater layout, with four device calls.
pub(crate) fn survey<C: Slots>(
    alloc: Global,
    slots: &mut C,
    buffer: &mut [u8],
) -> Result<Choice, CatalogFault>
    requires { length buffer.old ≡ 131072 }
    ensures size { OnOk result (262144 ≤ C.extent slots.new) }
    ensures within { IfOk result (λ choice. choice.current ≤ 1) }
    ensures found { IfOk result (λ choice. SomeImage (C.seen slots.old) (λ image. IsOpening image choice.current choice.layout choice.present choice.shut choice.found)) }
    ensures layout { IfOk result (λ choice. MatchOption choice.found (choice.layout ≡ 0) (λ r. choice.layout ≡ r.layout)) }
    ensures damaged { IfErr result (λ e. SomeImage (C.seen slots.old) (λ image. IsDamage image e)) }
    ensures short { (size : ℕ) → IsErrOf result (CatalogFault.Short size) → (size ≡ C.extent slots.old) × (size < 262144) }
    ensures durable { OnOk result (IfSome (C.seen slots.new) (λ b. Only b (C.left slots.new (C.moment slots.new)))) }
    ensures synced { OnOk result (FromSync C.moment C.left slots.old slots.new (IsSeen (C.seen slots.old))) }
    ensures seen { C.seen slots.new ≡ C.seen slots.old }
    ensures extent { C.extent slots.new ≡ C.extent slots.old }
    ensures crash { Runs Still (C.moment slots.old) (C.moment slots.new) (C.left slots.old) (C.left slots.new) }
    ensures same { C.same slots.old slots.new }
    ensures later { C.faults slots.old ≤ C.faults slots.new }
    ensures cause { IsErrOf result CatalogFault.Fault → Rose (C.faults slots.old) (C.faults slots.new) }
{
    if let Err(fault) = measure(slots) {
        return Err(fault);
    }
    let first = match read_area(alloc, slots, 0, buffer) {
        Ok(first) => first,
        Err(fault) => return Err(fault),
    };
    let second = match read_area(alloc, slots, 1, buffer) {
        Ok(second) => second,
        Err(fault) => return Err(fault),
    };
    match choose(first, second) {
        Ok(choice) => Ok(choice),
        Err(layout) => Err(CatalogFault::Twin { layout }),
    }
}
