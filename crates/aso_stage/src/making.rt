// The making of a store.
ghost use Rattle.std.specs.Prelude.{◌≡◌, ◌⊎◌, ◌≤◌, ◌++◌, ℕ, List as Bytes, None, true, codes, IsSome, is_some, IfOk};
ghost use Rattle.std.specs.String.{string_bytes};
ghost use Rattle.aso_num.specs.declared.status.Status.TheVariants.{Done, Refused};
ghost use Rattle.aso_outtext.specs.Texts.{fault_text};
ghost use Rattle.aso_spec.specs.Grid.{error_line};
ghost use Rattle.std.specs.Fmt.{decimal};
ghost use Rattle.aso_disk.specs.Causes.{Rose};
ghost use Rattle.aso_catalog.specs.Image.{IsBody};
ghost use Rattle.aso_catalog.specs.View.{HasRecord, IsBefore, IsSettled, IsTold, TellsAlike, Throughout, current_layout, device_of};
ghost use Rattle.aso_stage.specs.Create.{CreateAnswer, CreateLeaves, IsCreated, IsFirstAnswer, created_line, is_of_text};
ghost use Rattle.aso_stage.specs.Images.{HasNoStore, Records};
ghost use Rattle.aso_stage.specs.Store.{Keeps};
ghost use Rattle.aso_machine.specs.State.{new_store};

use crate::answer::Answer;
use crate::bits::key_bits;
use crate::bodies::body_of;
use crate::opening::{answer_of, refused};
use crate::replying::error_line as error_text;
use crate::store::LONGEST_TEXT;
use aso_catalog::{Catalog, Record};
use aso_disk::Slots;
use aso_num::{List, NoMemory, Status};
use aso_outjson::JsonFault;
use aso_outline::Outline;
use aso_outtext::{TextFault, read};
use std::alloc::{AllocError, Global};
use std::fmt::Write;

const FAULT: &[u8] = b"ERROR 0 301 disk fault\n";

const EXISTS: &[u8] = b"EXISTS\n";

// The line of a store that was made.
fn created_line(alloc: Global, outline: &Outline) -> Result<String, AllocError>
    ensures { IfOk result (λ line. string_bytes line ≡ created_line outline.now) }
{
    let mut line = String::from_str(alloc, "CREATED ")?;
    line.push_str(outline.draft().app.as_str())?;
    line.push('.')?;
    line.push_str(outline.draft().db.as_str())?;
    line.push_str(" members ")?;
    let members = outline.members();
    write!(line, "{members}")?;
    line.push_str(" bits ")?;
    let bits = key_bits(outline);
    write!(line, "{bits}")?;
    line.push('\n')?;
    Ok(line)
}

// The record of a store without cells.
fn first_body(alloc: Global, text: &[u8], outline: &Outline) -> Result<Vec<u8>, NoMemory>
    requires { Keeps text.now outline.now }
    ensures body { IfOk result (λ body. IsBody 1 body.items) }
    ensures records { IfOk result (λ body. Records body.items (new_store text.now outline.now)) }
{
    outline.keeps_counts();
    let record = Record {
        layout: 1,
        commit: 0,
        outline: List::of(Vec::from_slice(alloc, text)?),
        dimensions: outline.dims() as u8,
        cells: List::of(Vec::new(alloc)),
    };
    body_of(alloc, &record)
}

// Publishes the first record. The line is made before, so that a record that was published is told.
fn publish_first<C: Slots>(
    alloc: Global,
    catalog: &mut Catalog<C>,
    text: &[u8],
    outline: &Outline,
) -> Result<Answer, NoMemory>
    requires outline { Keeps text.now outline.now }
    requires record { HasRecord catalog.old None }
    requires settled { IsSettled catalog.old }
    requires layout { current_layout catalog.old ≡ 0 }
    ensures answer { IfOk result (λ a. IsFirstAnswer (Rose (C.faults (device_of catalog.old)) (C.faults (device_of catalog.new))) outline.now a.status a.text.items) }
    ensures any_moment { Throughout catalog.old catalog.new (λ image. IsTold catalog.old → HasNoStore image ⊎ IsCreated text.now image) }
    ensures created { IfOk result (λ a. a.status ≡ Done → IsTold catalog.old → (image : Bytes ℕ) → IsBefore catalog.new image → IsCreated text.now image) }
    ensures told { TellsAlike catalog.old catalog.new }
    ensures same { C.same (device_of catalog.old) (device_of catalog.new) }
    ensures later { C.faults (device_of catalog.old) ≤ C.faults (device_of catalog.new) }
{
    let line = created_line(alloc, outline)?;
    let done = answer_of(alloc, Status::Done, line.as_bytes())?;
    let failed = answer_of(alloc, Status::Disk, FAULT)?;
    let body = first_body(alloc, text, outline)?;
    match catalog.publish(&body) {
        Ok(()) => Ok(done),
        Err(_) => Ok(failed),
    }
}

// The answer of a refusal, before anything is opened.
fn refusal_of(alloc: Global, text: &[u8]) -> Result<Answer, NoMemory>
    ensures { IfOk result (λ a. (a.status ≡ Refused) × (a.text.items ≡ error_line 0 text.now)) }
{
    Ok(Answer {
        status: Status::Refused,
        text: error_text(alloc, 0, text)?,
    })
}

fn too_long_line(alloc: Global, length: usize) -> Result<String, AllocError>
    ensures { IfOk result (λ line. string_bytes line ≡ codes "217 outline: too long " ++ decimal length) }
{
    format!(in alloc; "217 outline: too long {length}")
}

// The answer to a text that is longer than one that is kept.
fn too_long(alloc: Global, length: usize) -> Result<Answer, NoMemory>
    ensures { IfOk result (λ a. (a.status ≡ Refused) × (a.text.items ≡ error_line 0 (codes "217 outline: too long " ++ decimal length))) }
{
    let line = too_long_line(alloc, length)?;
    refusal_of(alloc, line.as_bytes())
}

// The text is at fault, and memory isn't.
fn is_of_text(fault: &TextFault) -> bool
    ensures { result ≡ is_of_text fault.now }
{
    match fault {
        TextFault::Line { .. } => true,
        TextFault::Refused { .. } => true,
        TextFault::Json(JsonFault::NoMemory(_)) => false,
        TextFault::Json(_) => true,
        TextFault::NoMemory(_) => false,
    }
}

// The answer to a text that gives no outline.
fn refused_text(alloc: Global, fault: &TextFault) -> Result<Answer, NoMemory>
    ensures { IfOk result (λ a. (is_of_text fault.now ≡ true) × (a.status ≡ Refused) × (a.text.items ≡ error_line 0 (fault_text fault.now))) }
{
    if !is_of_text(fault) {
        return Err(NoMemory);
    }
    let text = fault.text(alloc)?;
    refusal_of(alloc, &text)
}

// Makes the store on a device.
fn make<C: Slots>(
    alloc: Global,
    slots: C,
    text: &[u8],
    outline: &Outline,
) -> (C, Result<Answer, NoMemory>)
    requires outline { Keeps text.now outline.now }
    ensures answer { IfOk result.1 (λ a. CreateAnswer (Rose (C.faults slots) (C.faults result.0)) (C.seen slots) text.now a.status a.text.items) }
    ensures crash { CreateLeaves C.moment C.left (IsSome (C.seen slots)) text.now slots result.0 }
    ensures created { IfOk result.1 (λ a. a.status ≡ Done → IsSome (C.seen slots) → (image : Bytes ℕ) → C.left result.0 (C.moment result.0) image → IsCreated text.now image) }
    ensures told { is_some (C.seen result.0) ≡ is_some (C.seen slots) }
    ensures same { C.same slots result.0 }
    ensures later { C.faults slots ≤ C.faults result.0 }
{
    match Catalog::open(alloc, slots) {
        Ok((mut catalog, None)) => {
            let answer = publish_first(alloc, &mut catalog, text, outline);
            (catalog.into_slots(), answer)
        }
        Ok((catalog, Some(_))) => (
            catalog.into_slots(),
            answer_of(alloc, Status::Exists, EXISTS),
        ),
        Err((slots, fault)) => (slots, refused(alloc, fault)),
    }
}

/// Makes a store of an outline's text on a device, with no cells and at commit 0: lines or JSON, of at most 50,000 bytes. It hands the
/// device back. A text that gives no outline, or is longer, is refused before the device is touched.
pub fn create<C: Slots>(alloc: Global, slots: C, text: &[u8]) -> (C, Result<Answer, NoMemory>)
    ensures answer { IfOk result.1 (λ a. CreateAnswer (Rose (C.faults slots) (C.faults result.0)) (C.seen slots) text.now a.status a.text.items) }

    // A crash within it leaves what was there, no store, or this one; after Done this one alone.
    ensures crash { CreateLeaves C.moment C.left (IsSome (C.seen slots)) text.now slots result.0 }
    ensures created { IfOk result.1 (λ a. a.status ≡ Done → IsSome (C.seen slots) → (image : Bytes ℕ) → C.left result.0 (C.moment result.0) image → IsCreated text.now image) }

    ensures told { is_some (C.seen result.0) ≡ is_some (C.seen slots) }
    ensures same { C.same slots result.0 }
    ensures later { C.faults slots ≤ C.faults result.0 }
{
    match read(alloc, text) {
        Ok(outline) => {
            if text.len() > LONGEST_TEXT {
                (slots, too_long(alloc, text.len()))
            } else {
                make(alloc, slots, text, &outline)
            }
        }
        Err(fault) => (slots, refused_text(alloc, &fault)),
    }
}
