// The opening of a store.
ghost use Rattle.std.specs.Prelude.{◌≡◌, ◌≤◌, None, IsSome, is_some, IfOk, IfErr};
ghost use Rattle.aso_disk.specs.Causes.{Rose};
ghost use Rattle.aso_disk.specs.Slots.{Runs, Still};
ghost use Rattle.aso_catalog.specs.Image.{FromSync, SomeImage};
ghost use Rattle.aso_catalog.specs.Record.{IsStorable};
ghost use Rattle.aso_catalog.specs.View.{current_layout, device_of};
ghost use Rattle.aso_stage.specs.Images.{Covers, Recovers};
ghost use Rattle.aso_machine.specs.Machine.{held};
ghost use Rattle.aso_stage.specs.Opened.{OpenAnswer};
ghost use Rattle.aso_stage.specs.Opening.{IsUntouched};
ghost use Rattle.aso_stage.specs.Stores.{IsStore, state_of};

use crate::answer::Answer;
use crate::opening::{answer_of, refused};
use crate::store::{Store, recover};
use aso_catalog::Catalog;
use aso_disk::Slots;
use aso_num::{NoMemory, Status};
use std::alloc::Global;

const NO_STORE: &[u8] = b"NOSTORE\n";

const NO_OUTLINE: &[u8] = b"DAMAGED outline\n";

/// Opens the store on a device, or hands the device back with what is to be printed.
pub fn open_store<C: Slots>(
    alloc: Global,
    slots: C,
) -> Result<(Catalog<C>, Store), (C, Result<Answer, NoMemory>)>
    // The store is that of some image: the one that the device tells, where it tells one.
    ensures opened { IfOk result (λ p. SomeImage (C.seen slots) (λ image. Recovers image (state_of p.1))) }
    ensures store { IfOk result (λ p. IsStore p.1) }
    ensures covers { IfOk result (λ p. Covers p.0 (held (state_of p.1) None)) }
    ensures layout { IfOk result (λ p. current_layout p.0 ≡ p.1.saved.layout) }
    ensures storable { IfOk result (λ p. IsStorable p.1.saved) }

    // From the sync on a crash leaves what recovers to it. Until then, what it might have left before.
    ensures synced { IfOk result (λ p. FromSync C.moment C.left slots (device_of p.0) (λ image. IsSome (C.seen slots) → Recovers image (state_of p.1))) }
    ensures crash { IfOk result (λ p. Runs Still (C.moment slots) (C.moment (device_of p.0)) (C.left slots) (C.left (device_of p.0))) }

    ensures seen { IfOk result (λ p. C.seen (device_of p.0) ≡ C.seen slots) }
    ensures same { IfOk result (λ p. C.same slots (device_of p.0)) }
    ensures later { IfOk result (λ p. C.faults slots ≤ C.faults (device_of p.0)) }

    ensures answer { IfErr result (λ e. IfOk e.1 (λ a. OpenAnswer (Rose (C.faults slots) (C.faults e.0)) (C.seen slots) a.status a.text.items)) }
    ensures untouched { IfErr result (λ e. IsUntouched C.moment C.left slots e.0) }
    ensures seen_err { IfErr result (λ e. C.seen e.0 ≡ C.seen slots) }
    ensures same_err { IfErr result (λ e. C.same slots e.0) }
    ensures later_err { IfErr result (λ e. C.faults slots ≤ C.faults e.0) }
{
    match Catalog::open(alloc, slots) {
        Ok((catalog, found)) => match found {
            Some(r) => match recover(alloc, r) {
                Ok(Some(store)) => Ok((catalog, store)),
                Ok(None) => Err((
                    catalog.into_slots(),
                    answer_of(alloc, Status::Damaged, NO_OUTLINE),
                )),
                Err(fault) => Err((catalog.into_slots(), Err(fault))),
            },
            None => Err((
                catalog.into_slots(),
                answer_of(alloc, Status::NoStore, NO_STORE),
            )),
        },
        Err((slots, fault)) => Err((slots, refused(alloc, fault))),
    }
}
