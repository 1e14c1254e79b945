// Refusals as they are printed.
ghost use Rattle.std.specs.Prelude.{◌≡◌, ◌++◌, codes, IfOk, OnOk};
ghost use Rattle.std.specs.Fmt.{decimal};
ghost use Rattle.aso_spec.specs.Grid.{label, shown as shown_text, shown_byte};

use crate::refusal::QueryRefusal;
use aso_memory::NoMemory;
use aso_num::Text;
use std::alloc::Global;

/// A control character prints as a question mark.
fn shown(byte: u8) -> u8
    ensures { result ≡ shown_byte byte }
{
    if byte < 32 || byte == 127 { b'?' } else { byte }
}

fn put_shown(out: &mut Vec<u8>, name: &[u8]) -> Result<(), NoMemory>
    ensures { OnOk result (out.new.items ≡ out.old.items ++ shown_text name.now) }
{
    for byte in name {
        out.push(shown(*byte))?;
    }
    Ok(())
}

/// Appends some names, joined by a comma and a space.
fn put_label(out: &mut Vec<u8>, names: &[Text]) -> Result<(), NoMemory>
    ensures { OnOk result (out.new.items ≡ out.old.items ++ label names.now) }
{
    let [first, more @ ..] = names else {
        return Ok(());
    };
    put_shown(out, first.as_str().as_bytes())?;
    for name in more {
        out.extend_from_slice(b", ")?;
        put_shown(out, name.as_str().as_bytes())?;
    }
    Ok(())
}

/// A text, and a name behind it.
fn named_text(alloc: Global, head: &[u8], name: &Text) -> Result<Vec<u8>, NoMemory>
    ensures { IfOk result (λ text. text.items ≡ head.now ++ shown_text name.now) }
{
    let mut text = Vec::from_slice(alloc, head)?;
    put_shown(&mut text, name.as_str().as_bytes())?;
    Ok(text)
}

fn put_number(alloc: Global, out: &mut Vec<u8>, number: u64) -> Result<(), NoMemory>
    ensures { OnOk result (out.new.items ≡ out.old.items ++ decimal number) }
{
    let digits = format!(in alloc; "{number}")?;
    out.extend_from_slice(digits.as_bytes())?;
    Ok(())
}

fn formula_text(alloc: Global, name: &Text, at: usize) -> Result<Vec<u8>, NoMemory>
    ensures { IfOk result (λ text. text.items ≡ codes "212 formula: " ++ (shown_text name.now ++ (codes " byte " ++ decimal at))) }
{
    let mut text = named_text(alloc, b"212 formula: ", name)?;
    text.extend_from_slice(b" byte ")?;
    put_number(alloc, &mut text, at as u64)?;
    Ok(text)
}

fn size_text(alloc: Global, cells: u64) -> Result<Vec<u8>, NoMemory>
    ensures { IfOk result (λ text. text.items ≡ codes "209 grid too large: " ++ (decimal cells ++ codes " cells")) }
{
    let mut text = Vec::from_slice(alloc, b"209 grid too large: ")?;
    put_number(alloc, &mut text, cells)?;
    text.extend_from_slice(b" cells")?;
    Ok(text)
}

fn range_text(alloc: Global, names: &[Text]) -> Result<Vec<u8>, NoMemory>
    ensures { IfOk result (λ text. text.items ≡ codes "211 value range: " ++ label names.now) }
{
    let mut text = Vec::from_slice(alloc, b"211 value range: ")?;
    put_label(&mut text, names)?;
    Ok(text)
}

impl QueryRefusal {
    ghost use Rattle.std.specs.Prelude.{◌≡◌, IfOk};
    ghost use Rattle.aso_query.specs.Texts.{refusal_text};

    /// What is printed of it: its number and its text. A control character of a name is a question mark there.
    pub fn text(&self, alloc: Global) -> Result<Vec<u8>, NoMemory>
        ensures { IfOk result (λ text. text.items ≡ refusal_text self.now) }
    {
        match self {
            QueryRefusal::UnknownMember { name } => named_text(
                alloc,
                b"203 unknown member: ",
                name,
            ),
            QueryRefusal::TooLarge { cells } => size_text(alloc, *cells),
            QueryRefusal::Range { names } => range_text(alloc, names.items()),
            QueryRefusal::Formula { name, at } => formula_text(alloc, name, *at),
            QueryRefusal::Dimension { name } => named_text(alloc, b"216 wrong dimension: ", name),
        }
    }
}
