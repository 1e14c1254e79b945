// The publish of a commit.
ghost use Rattle.std.specs.Prelude.{◌≡◌, ◌≢◌, ◌⊎◌, ◌+◌, ◌-◌, ◌≤◌, ◌<◌, ◌^◌, ◌↔◌, true, Some, None, Err, OnOk, OnErr, IsOk, length};
ghost use Rattle.aso_disk.specs.Causes.{Rose};
ghost use Rattle.aso_catalog.specs.Record.{IsRecord};
ghost use Rattle.aso_catalog.specs.View.{HasBegun, IsTold, TellsAlike, Throughout, current_layout, device_of, opening};
ghost use Rattle.aso_stage.specs.Images.{Covers, IsImageOf, Recovers};
ghost use Rattle.aso_machine.specs.Machine.{Held, held};
ghost use Rattle.aso_stage.specs.Store.{Stands};
ghost use Rattle.aso_machine.specs.State.{state_with};

use crate::store::Store;
use aso_catalog::{Catalog, PublishFault, Record};
use aso_disk::Slots;

/// Publishes the next record of a store, which is then the store's. After an error the store is as it was.
pub fn publish_next<C: Slots>(
    catalog: &mut Catalog<C>,
    store: &mut Store,
    next: Record,
    body: &[u8],
) -> Result<(), PublishFault>
    requires spelled { IsRecord next body.now }
    requires short { length body.now ≤ 131067 }
    requires layout { next.layout ≡ current_layout catalog.old + 1 }
    requires room { current_layout catalog.old < 2 ^ 64 - 1 }
    requires stands { Stands next (state_with next store.old.outline) }
    ensures is { OnOk result ((store.new.saved ≡ next) × (store.new.outline ≡ store.old.outline)) }
    ensures stays { OnErr result (store.new ≡ store.old) }
    ensures published { OnOk result ((h : Held) → Covers catalog.old h → Covers catalog.new (held (state_with next store.old.outline) None)) }
    ensures doubt { result ≡ Err (PublishFault.Fault true) → (h : Held) → Covers catalog.old h → Covers catalog.new (held h.state (Some (state_with next store.old.outline))) }
    ensures keeps { OnErr result (result ≢ Err (PublishFault.Fault true) → (h : Held) → Covers catalog.old h → Covers catalog.new h) }
    ensures any_moment { (h : Held) → Covers catalog.old h → Throughout catalog.old catalog.new (λ c. IsTold catalog.old → IsImageOf h c ⊎ Recovers c (state_with next store.old.outline)) }
    ensures past { Throughout catalog.old catalog.new (λ c. Unit {0}) }
    ensures begun { HasBegun catalog.old catalog.new (opening catalog.old) ↔ (IsOk result ⊎ (result ≡ Err (PublishFault.Fault true))) }
    ensures layout { OnOk result (current_layout catalog.new ≡ current_layout catalog.old + 1) }
    ensures same_layout { OnErr result (current_layout catalog.new ≡ current_layout catalog.old) }
    ensures cause { OnErr result (Rose (C.faults (device_of catalog.old)) (C.faults (device_of catalog.new))) }
    ensures later { C.faults (device_of catalog.old) ≤ C.faults (device_of catalog.new) }
    ensures told { TellsAlike catalog.old catalog.new }
    ensures same { C.same (device_of catalog.old) (device_of catalog.new) }
{
    match catalog.publish(body) {
        Ok(()) => {
            store.saved = next;
            Ok(())
        }
        Err(fault) => Err(fault),
    }
}
