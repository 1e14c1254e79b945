// The names of a cell's leaves.
ghost use Rattle.std.specs.Prelude.{◌≡◌, ◌<◌, ◌++◌, [], true, length, slice_index_or, IfOk, OnOk};
ghost use Rattle.aso_outline.specs.Classes.{leaf_count};
ghost use Rattle.aso_outline.specs.Members.{dim_at, leaf_names};
ghost use Rattle.aso_spec.specs.Grid.{label, shown, shown_byte};
ghost use Rattle.aso_cellnames.specs.Leaves.{are_leaves, leaf_counts};
ghost use Rattle.aso_cellnames.specs.Names.{cell_names, texts};

use aso_memory::NoMemory;
use aso_outline::Outline;
use std::alloc::Global;

// A control character prints as a question mark.
fn shown(byte: u8) -> u8
    ensures { result ≡ shown_byte byte }
{
    if byte < 32 || byte == 127 { b'?' } else { byte }
}

/// Appends a text, in which a control character is a question mark.
pub fn put_shown(out: &mut Vec<u8>, text: &[u8]) -> Result<(), NoMemory>
    ensures { OnOk result (out.new.items ≡ out.old.items ++ shown text.now) }
{
    for byte in text {
        out.push(shown(*byte))?;
    }
    Ok(())
}

/// Appends some names, joined by a comma and a space.
pub fn put_label(out: &mut Vec<u8>, names: &[&str]) -> Result<(), NoMemory>
    ensures { OnOk result (out.new.items ≡ out.old.items ++ label (texts names.now)) }
{
    let [first, more @ ..] = names else {
        return Ok(());
    };
    put_shown(out, first.as_bytes())?;
    for name in more {
        out.extend_from_slice(b", ")?;
        put_shown(out, name.as_bytes())?;
    }
    Ok(())
}

// The name of a data leaf.
fn leaf_name(outline: &Outline, dim: u32, leaf: u32) -> &str
    requires dim { dim < length outline.now.dims }
    requires leaf { leaf < leaf_count outline.now dim }
    ensures { result.now ≡ slice_index_or (leaf_names (dim_at outline.now dim)) leaf [] }
{
    outline.name(outline.leaf_member(dim, leaf))
}

/// The names of a cell's leaves, in the order of the dimensions.
pub fn cell_names<'a>(
    alloc: Global,
    outline: &'a Outline,
    key: &[u32],
) -> Result<Vec<&'a str>, NoMemory>
    requires { are_leaves (leaf_counts outline.now) key.now ≡ true }
    ensures { IfOk result (λ names. texts names.items ≡ cell_names outline.now key.now) }
{
    let mut names = Vec::new(alloc);
    for dim in 0..outline.dims() {
        names.push(leaf_name(outline, dim, key[dim as usize]))?;
    }
    Ok(names)
}
