ghost use Rattle.std.specs.Prelude.{◌≡◌, ◌⊎◌, ◌+◌, ◌-◌, ◌<◌, ◌≤◌, ◌↔◌, ℕ, [], Bool, true, Some, Err, OnOk, length, map, slice_index_or};
ghost use Rattle.aso_disk.specs.Causes.{Rose};
ghost use Rattle.aso_catalog.specs.Image.{IsBody};
ghost use Rattle.aso_catalog.specs.View.{HasRecord, IsBefore, IsLastBegun, IsOneOf, TellsAlike, Throughout, current_layout, device_of, opening};

use crate::{Catalog, PublishFault};
use aso_disk::Slots;

/// Publishes one record after the other, up to the first that fails: a crash at any moment of the whole run leaves an
/// image that is opened with the record before it, or with one of these.
pub fn publish_all<C: Slots>(
    catalog: &mut Catalog<C>,
    bodies: &[Vec<u8>],
) -> Result<(), PublishFault>
    requires { (i : ℕ) → i < length bodies.now → IsBody (current_layout catalog.old + 1 + i) (slice_index_or (map (λ v. v.items) bodies.now) i []) }
    ensures published { OnOk result (0 < length bodies.now → HasRecord catalog.new (Some (slice_index_or (map (λ v. v.items) bodies.now) (length bodies.now - 1) []))) }
    ensures layout { OnOk result (current_layout catalog.new ≡ current_layout catalog.old + length bodies.now) }
    ensures any_moment { Throughout catalog.old catalog.new (λ image. IsBefore catalog.old image ⊎ IsOneOf (map (λ v. v.items) bodies.now) image) }
    ensures last { (in_doubt : Bool) → result ≡ Err (PublishFault.Fault in_doubt) → (in_doubt ≡ true) ↔ IsLastBegun catalog.new (opening catalog.new) }
    ensures cause { (in_doubt : Bool) → result ≡ Err (PublishFault.Fault in_doubt) → Rose (C.faults (device_of catalog.old)) (C.faults (device_of catalog.new)) }
    ensures later { C.faults (device_of catalog.old) ≤ C.faults (device_of catalog.new) }
    ensures told { TellsAlike catalog.old catalog.new }
    ensures same { C.same (device_of catalog.old) (device_of catalog.new) }
{
    for body in bodies {
        catalog.publish(body)?;
    }
    Ok(())
}
