ghost use Rattle.std.specs.Prelude.{◌≡◌, ◌≢◌, ◌⊎◌, ◌+◌, ◌<◌, ◌≤◌, ◌^◌, ◌-◌, ◌++◌, List, ℕ, Some, Err, true, false, length, take, IfOk, IfErr, OnOk, OnErr, IsErr, IsOk, MatchOption, is_ok, Bool, [], ◌∷◌, ◌↔◌, if◌then◌else◌};
ghost use Rattle.std.specs.Int.{to_be_bytes, w32};
ghost use Rattle.aso_disk.specs.Causes.{HasCause, Rose};
ghost use Rattle.aso_disk.specs.Slots.{Runs, Still, overwrite};
ghost use Rattle.aso_catalog.specs.Image.{FromSync, OpensWith, IsBody, IsCatalog, SomeImage};
ghost use Rattle.aso_catalog.specs.Opening.{IsDamage};

use crate::Record;
use crate::fault::{CatalogFault, PublishFault};
use crate::opening::{Choice, survey};
use aso_disk::{Failed, Slots, write_through};
use std::alloc::{AllocError, Global};

const AREA: u64 = 131_072;

/// A catalog over a device. Its ghost fields keep what a crash may leave between two calls.
#[derive(Drop)]
pub struct Catalog<C: Slots> {
    slots: C,
    buffer: Vec<u8>,
    current: u64,
    layout: u64,
    // a record is published
    present: bool,
    // the other area's gate is known to be closed on the disk
    shut: bool,
    // what stands behind that gate is on the disk
    kept: bool,
    ghost within: { current ≤ 1 },
    ghost space: { length buffer.items ≡ 131071 },
    ghost room: { 262144 ≤ C.extent slots },
    ghost known: { shut ≡ false → kept ≡ true },
    ghost stands: { (seen : List ℕ) → C.seen slots ≡ Some seen → IsCatalog current layout present shut kept seen (C.left slots (C.moment slots)) },
}

impl<C: Slots> Catalog<C> {
    ghost use Rattle.aso_catalog.specs.View.{Begins, HasBegun, HasOther, HasRecord, IsBefore, IsFilled, IsInDoubt, IsLastBegun, IsOpened, IsSettled, KeepsRecord, NoNewDoubt, TellsAlike, Throughout, closing, current_layout, device_of, filling, gate_place, is_shut, opening};

    /// Opens a catalog, with four device calls: it syncs, and takes the open area of greater layout, with the record in
    /// it, or with None where no gate is open. It takes the memory for the record and for a buffer in which later fills
    /// join a body to its length. An error hands the device back.
    pub fn open(alloc: Global, slots: C) -> Result<(Catalog<C>, Option<Record>), (C, CatalogFault)>
        // What is found, or refused, is that of some image: the one that the device tells, where it tells one.
        ensures opened { IfOk result (λ p. SomeImage (C.seen slots) (IsOpened p.0 p.1)) }
        ensures layout { IfOk result (λ p. MatchOption p.1 (current_layout p.0 ≡ 0) (λ r. current_layout p.0 ≡ r.layout)) }
        ensures settled { IfOk result (λ p. IsSettled p.0) }
        ensures damaged { IfErr result (λ e. SomeImage (C.seen slots) (λ image. IsDamage image e.1)) }
        ensures short { IfErr result (λ e. (size : ℕ) → e.1 ≡ CatalogFault.Short size → (size ≡ C.extent slots) × (size < 262144)) }

        // From the sync on, a crash leaves what is opened with the record. Until then, what it might have left before.
        ensures synced { IfOk result (λ p. FromSync C.moment C.left slots (device_of p.0) (IsBefore p.0)) }

        // The device keeps its bytes, and what crashes leave of them.
        ensures seen { IfOk result (λ p. C.seen (device_of p.0) ≡ C.seen slots) }
        ensures crash { IfOk result (λ p. Runs Still (C.moment slots) (C.moment (device_of p.0)) (C.left slots) (C.left (device_of p.0))) }
        ensures same { IfOk result (λ p. C.same slots (device_of p.0)) }
        ensures later { IfOk result (λ p. C.faults slots ≤ C.faults (device_of p.0)) }
        ensures seen_err { IfErr result (λ e. C.seen e.0 ≡ C.seen slots) }
        ensures crash_err { IfErr result (λ e. Runs Still (C.moment slots) (C.moment e.0) (C.left slots) (C.left e.0)) }
        ensures same_err { IfErr result (λ e. C.same slots e.0) }
        ensures later_err { IfErr result (λ e. C.faults slots ≤ C.faults e.0) }
        ensures cause { IfErr result (λ e. e.1 ≡ CatalogFault.Fault → Rose (C.faults slots) (C.faults e.0)) }
    {
        let mut slots = slots;
        let Ok(mut buffer) = buffer_of(alloc, 131_072) else {
            return Err((slots, CatalogFault::NoMemory));
        };
        match survey(alloc, &mut slots, &mut buffer) {
            Ok(choice) => {
                shorten(&mut buffer);
                let Choice {
                    current,
                    layout,
                    present,
                    shut,
                    found,
                } = choice;
                let kept = !shut;
                Ok((
                    Catalog {
                        slots,
                        buffer,
                        current,
                        layout,
                        present,
                        shut,
                        kept,
                    },
                    found,
                ))
            }
            Err(fault) => Err((slots, fault)),
        }
    }

    /// The layout of the current record, or 0.
    pub fn layout(&self) -> u64
        ensures { result ≡ current_layout self.now }
    {
        self.layout
    }

    /// Whether the gate of the area that a publish would fill is known to be closed on the disk.
    pub fn is_shut(&self) -> bool
        ensures { result ≡ is_shut self.now }
    {
        self.shut
    }

    /// Gives the device back.
    pub fn into_slots(self) -> C
        ensures { result ≡ device_of self }
    {
        let Catalog {
            slots,
            buffer: _,
            current: _,
            layout: _,
            present: _,
            shut: _,
            kept: _,
        } = self;
        slots
    }

    /// Closes the gate of the area that a publish would fill, with two device calls. Until it has answered Ok, a doubt
    /// may stand.
    pub fn close_area(&mut self) -> Result<(), Failed>
        requires { is_shut self.old ≡ false }
        ensures shut { OnOk result (is_shut self.new ≡ true) }
        ensures doubt { OnErr result ((body : List ℕ) → IsInDoubt self.old body → IsInDoubt self.new body) }
        ensures keeps { KeepsRecord self.old self.new }
        ensures layout { current_layout self.new ≡ current_layout self.old }
        ensures any_moment { Throughout self.old self.new (IsBefore self.old) }
        ensures begun { Begins self.old self.new (closing self.old) }
        ensures gate { gate_place self.new ≡ gate_place self.old }
        ensures told { TellsAlike self.old self.new }
        ensures same { C.same (device_of self.old) (device_of self.new) }
        ensures cause { HasCause (C.faults (device_of self.old)) (C.faults (device_of self.new)) (IsErr result) }
    {
        write_through(&mut self.slots, AREA * (1 - self.current), &[0])?;
        self.shut = true;
        self.kept = false;
        Ok(())
    }

    /// Writes length and body behind the closed gate, with two device calls. A crash within it leaves the current record.
    pub fn fill_area(&mut self, body: &[u8]) -> Result<(), Failed>
        requires shut { is_shut self.old ≡ true }
        requires body { IsBody (current_layout self.old + 1) body.now }
        ensures shut { is_shut self.new ≡ true }
        ensures filled { OnOk result (IsFilled self.new) }
        ensures other { OnOk result (HasOther self.new body.now) }
        ensures keeps { KeepsRecord self.old self.new }
        ensures layout { current_layout self.new ≡ current_layout self.old }
        ensures any_moment { Throughout self.old self.new (IsBefore self.old) }
        ensures begun { Begins self.old self.new (filling self.old body.now ∷ []) }
        ensures gate { gate_place self.new ≡ gate_place self.old }
        ensures told { TellsAlike self.old self.new }
        ensures same { C.same (device_of self.old) (device_of self.new) }
        ensures cause { HasCause (C.faults (device_of self.old)) (C.faults (device_of self.new)) (IsErr result) }
    {
        self.kept = false;
        frame(&mut self.buffer, body);
        write_through(
            &mut self.slots,
            AREA * (1 - self.current) + 1,
            &self.buffer[..4 + body.len()],
        )?;
        self.kept = true;
        Ok(())
    }

    /// Opens the gate of the area that was filled, with two device calls. It is then the current one; an error leaves its
    /// body in doubt.
    pub fn open_area(&mut self) -> Result<(), Failed>
        requires filled { IsFilled self.old }
        requires room { current_layout self.old < 2 ^ 64 - 1 }
        ensures opened { OnOk result ((body : List ℕ) → HasOther self.old body → HasRecord self.new (Some body)) }
        ensures settled { OnOk result (IsSettled self.new) }
        ensures next { OnOk result (current_layout self.new ≡ current_layout self.old + 1) }
        ensures keeps { OnErr result (KeepsRecord self.old self.new) }
        ensures doubt { OnErr result ((body : List ℕ) → HasOther self.old body → IsInDoubt self.new body) }
        ensures layout { OnErr result (current_layout self.new ≡ current_layout self.old) }
        ensures any_moment { (body : List ℕ) → HasOther self.old body → Throughout self.old self.new (λ image. IsBefore self.old image ⊎ OpensWith image (Some body)) }
        ensures begun { Begins self.old self.new (opening self.old ∷ []) }
        ensures gate { OnErr result (gate_place self.new ≡ gate_place self.old) }
        ensures told { TellsAlike self.old self.new }
        ensures same { C.same (device_of self.old) (device_of self.new) }
        ensures cause { HasCause (C.faults (device_of self.old)) (C.faults (device_of self.new)) (IsErr result) }
    {
        match write_through(&mut self.slots, AREA * (1 - self.current), &[1]) {
            Ok(()) => {
                self.current = 1 - self.current;
                self.layout += 1;
                self.shut = !self.present;
                self.kept = self.present;
                self.present = true;
                Ok(())
            }
            Err(failed) => {
                self.shut = false;
                Err(failed)
            }
        }
    }

    // Closes the gate where it isn't known to be closed.
    fn shut_area(&mut self) -> Result<(), Failed>
        ensures shut { OnOk result (is_shut self.new ≡ true) }
        ensures doubt { OnErr result (NoNewDoubt self.old self.new) }
        ensures keeps { KeepsRecord self.old self.new }
        ensures layout { current_layout self.new ≡ current_layout self.old }
        ensures any_moment { Throughout self.old self.new (IsBefore self.old) }
        ensures begun { Begins self.old self.new (closing self.old) }
        ensures lax { OnErr result (is_shut self.old ≡ false) }
        ensures gate { gate_place self.new ≡ gate_place self.old }
        ensures told { TellsAlike self.old self.new }
        ensures same { C.same (device_of self.old) (device_of self.new) }
        ensures cause { HasCause (C.faults (device_of self.old)) (C.faults (device_of self.new)) (IsErr result) }
    {
        if self.shut {
            return Ok(());
        }
        self.close_area()
    }

    /// Publishes the record of the next layout, with at most six device calls and no memory. An image that a crash at
    /// any moment of it leaves is opened with the record before or with this one, or in the first two device calls with
    /// a doubt that stood. After `Fault { in_doubt: true }` this one is in doubt until a later publish has closed its
    /// gate. After each error the catalog's record is as before.
    pub fn publish(&mut self, body: &[u8]) -> Result<(), PublishFault>
        requires { current_layout self.old < 2 ^ 64 - 1 → IsBody (current_layout self.old + 1) body.now }

        // After Ok it is the record, and no other is in doubt.
        ensures published { OnOk result (HasRecord self.new (Some body.now)) }
        ensures settled { OnOk result (IsSettled self.new) }
        ensures layout { current_layout self.new ≡ (if is_ok result then current_layout self.old + 1 else current_layout self.old) }

        // After an error the record stays, and there is no doubt but this one, where its gate was begun to be opened, or
        // one that stood before.
        ensures keeps { OnErr result (KeepsRecord self.old self.new) }
        ensures doubt { result ≡ Err (PublishFault.Fault true) → IsInDoubt self.new body.now }
        ensures no_new_doubt { OnErr result (result ≢ Err (PublishFault.Fault true) → NoNewDoubt self.old self.new) }

        // A crash leaves one of these; where the gate was not begun to be opened, not the new one.
        ensures any_moment { Throughout self.old self.new (λ image. IsBefore self.old image ⊎ OpensWith image (Some body.now)) }
        ensures not_begun { OnErr result (result ≢ Err (PublishFault.Fault true) → Throughout self.old self.new (IsBefore self.old)) }

        // The write of the byte 1 at the gate is begun exactly where it answers Ok, or a fault in doubt; and of a fault it is
        // the last write exactly where that is in doubt.
        ensures begun { HasBegun self.old self.new (opening self.old) ↔ (IsOk result ⊎ (result ≡ Err (PublishFault.Fault true))) }
        ensures last { (in_doubt : Bool) → result ≡ Err (PublishFault.Fault in_doubt) → (in_doubt ≡ true) ↔ IsLastBegun self.new (opening self.new) }

        // It doesn't give up by itself.
        ensures end { (result ≡ Err PublishFault.SeqEnd) ↔ (current_layout self.old ≡ 2 ^ 64 - 1) }
        ensures cause { (in_doubt : Bool) → result ≡ Err (PublishFault.Fault in_doubt) → Rose (C.faults (device_of self.old)) (C.faults (device_of self.new)) }
        ensures later { C.faults (device_of self.old) ≤ C.faults (device_of self.new) }
        ensures told { TellsAlike self.old self.new }
        ensures same { C.same (device_of self.old) (device_of self.new) }
    {
        if self.layout == u64::MAX {
            return Err(PublishFault::SeqEnd);
        }
        let Ok(()) = self.shut_area() else {
            return Err(PublishFault::Fault { in_doubt: false });
        };
        let Ok(()) = self.fill_area(body) else {
            return Err(PublishFault::Fault { in_doubt: false });
        };
        let Ok(()) = self.open_area() else {
            return Err(PublishFault::Fault { in_doubt: true });
        };
        Ok(())
    }
}

fn buffer_of(alloc: Global, size: usize) -> Result<Vec<u8>, AllocError>
    ensures { IfOk result (λ v. length v.items ≡ size) }
{
    vec![in alloc; 0u8; size]
}

fn shorten(buffer: &mut Vec<u8>)
    requires { length buffer.old.items ≡ 131072 }
    ensures { length buffer.new.items ≡ 131071 }
{
    let _last = buffer.pop();
}

// Puts a body behind its length.
fn frame(buffer: &mut Vec<u8>, body: &[u8])
    requires space { length buffer.old.items ≡ 131071 }
    requires fits { length body.now ≤ 131067 }
    ensures frame { take (4 + length body.now) buffer.new.items ≡ to_be_bytes w32 (length body.now) ++ body.now }
    ensures space { length buffer.new.items ≡ 131071 }
{
    let size = (body.len() as u32).to_be_bytes();
    put(buffer, 0, &size);
    put(buffer, 4, body);
}

// Writes bytes over those at an offset.
fn put(all: &mut Vec<u8>, at: usize, bytes: &[u8])
    requires { at + length bytes.now ≤ length all.old.items }
    ensures { all.new.items ≡ overwrite at bytes.now all.old.items }
{
    all[at..at + bytes.len()].copy_from_slice(bytes);
}
