// The labels of tuples.
ghost use Rattle.std.specs.Prelude.{◌≡◌, ◌++◌, map, slice_get, unwrap_or, [], OnOk};
ghost use Rattle.aso_axes.specs.Members.{name_of as name_of_member};
ghost use Rattle.aso_spec.specs.Grid.{label, shown as shown_text, shown_byte};
ghost use Rattle.aso_grid.specs.Grids.{label_of, placed};

use aso_axes::name_of;
use aso_memory::NoMemory;
use aso_num::List;
use aso_outline::{ExtraMember, Outline};

/// A control character prints as a question mark.
fn shown(byte: u8) -> u8
    ensures { result ≡ shown_byte byte }
{
    if byte < 32 || byte == 127 { b'?' } else { byte }
}

fn put_shown(out: &mut Vec<u8>, name: &[u8]) -> Result<(), NoMemory>
    ensures { OnOk result (out.new.items ≡ out.old.items ++ shown_text name.now) }
{
    for byte in name {
        out.push(shown(*byte))?;
    }
    Ok(())
}

fn put_name(
    out: &mut Vec<u8>,
    outline: &Outline,
    own: &[ExtraMember],
    n: u32,
) -> Result<(), NoMemory>
    ensures { OnOk result (out.new.items ≡ out.old.items ++ shown_text (name_of_member outline.now own.now n)) }
{
    put_shown(out, name_of(outline, own, n).as_bytes())
}

/// Appends the names of a tuple, joined by a comma and a space.
fn put_names(
    out: &mut Vec<u8>,
    outline: &Outline,
    own: &[ExtraMember],
    tuple: &[u32],
) -> Result<(), NoMemory>
    ensures { OnOk result (out.new.items ≡ out.old.items ++ label (map (name_of_member outline.now own.now) tuple.now)) }
{
    let [first, more @ ..] = tuple else {
        return Ok(());
    };
    put_name(out, outline, own, *first)?;
    for n in more {
        out.extend_from_slice(b", ")?;
        put_name(out, outline, own, *n)?;
    }
    Ok(())
}

fn tuple_at(tuples: &[List<u32>], at: usize) -> &[u32]
    ensures { result.now ≡ unwrap_or (slice_get tuples.now at) [] }
{
    match tuples.get(at) {
        Some(tuple) => tuple.items(),
        None => &[],
    }
}

/// Appends the label of the tuple at a place.
pub fn put_label(
    out: &mut Vec<u8>,
    outline: &Outline,
    own: &[ExtraMember],
    tuples: &[List<u32>],
    at: usize,
) -> Result<(), NoMemory>
    ensures { OnOk result (out.new.items ≡ out.old.items ++ label_of outline.now own.now (placed tuples.now at)) }
{
    put_names(out, outline, own, tuple_at(tuples, at))
}
