// Refusals as they are printed.
ghost use Rattle.std.specs.Prelude.{◌≡◌, ◌++◌, codes, IfOk, OnOk};
ghost use Rattle.aso_spec.specs.Grid.{shown, shown_byte};
ghost use Rattle.aso_outtext.specs.Texts.{fault_text, json_text, rule_text};

use crate::fault::TextFault;
use aso_memory::NoMemory;
use aso_outjson::JsonFault;
use std::alloc::Global;
use std::fmt::Write;

// A control character prints as a question mark.
fn shown_byte(byte: u8) -> u8
    ensures { result ≡ shown_byte byte }
{
    if byte < 32 || byte == 127 { b'?' } else { byte }
}

fn put_shown(out: &mut Vec<u8>, text: &[u8]) -> Result<(), NoMemory>
    ensures { OnOk result (out.new.items ≡ out.old.items ++ shown text.now) }
{
    for byte in text {
        out.push(shown_byte(*byte))?;
    }
    Ok(())
}

fn bytes_of(alloc: Global, text: &str) -> Result<Vec<u8>, NoMemory>
    ensures { IfOk result (λ v. v.items ≡ text.now) }
{
    Ok(Vec::from_slice(alloc, text.as_bytes())?)
}

fn line_text(alloc: Global, at: usize) -> Result<Vec<u8>, NoMemory>
    ensures { IfOk result (λ v. v.items ≡ fault_text (TextFault.Line at)) }
{
    let text = format!(in alloc; "201 syntax: byte {at}")?;
    bytes_of(alloc, text.as_str())
}

fn rule_text(alloc: Global, rule: u8, member: u32) -> Result<Vec<u8>, NoMemory>
    ensures { IfOk result (λ v. v.items ≡ rule_text rule member) }
{
    let mut text = String::from_str(alloc, "217 outline: rule O")?;
    write!(text, "{rule}")?;
    text.push_str(" at member ")?;
    write!(text, "{member}")?;
    bytes_of(alloc, text.as_str())
}

fn formula_text(alloc: Global, member: u32, at: u32) -> Result<Vec<u8>, NoMemory>
    ensures { IfOk result (λ v. v.items ≡ json_text (JsonFault.Formula member at)) }
{
    let mut text = String::from_str(alloc, "217 outline: formula ")?;
    write!(text, "{member}")?;
    text.push_str(" byte ")?;
    write!(text, "{at}")?;
    bytes_of(alloc, text.as_str())
}

fn field_text(alloc: Global, path: &str) -> Result<Vec<u8>, NoMemory>
    ensures { IfOk result (λ v. v.items ≡ codes "217 outline: field " ++ shown path.now) }
{
    let mut text = bytes_of(alloc, "217 outline: field ")?;
    put_shown(&mut text, path.as_bytes())?;
    Ok(text)
}

fn json_text(alloc: Global, fault: &JsonFault) -> Result<Vec<u8>, NoMemory>
    ensures { IfOk result (λ v. v.items ≡ json_text fault.now) }
{
    match fault {
        JsonFault::NotJson => bytes_of(alloc, "217 outline: not JSON"),
        JsonFault::Field { path } => field_text(alloc, path.as_str()),
        JsonFault::Formula { member, at } => formula_text(alloc, *member, *at),
        JsonFault::Refused { rule, member } => rule_text(alloc, *rule, *member),
        JsonFault::NoMemory(_) => bytes_of(alloc, "401 no memory"),
    }
}

impl TextFault {
    /// The refusal as it is printed behind the number of its statement.
    pub fn text(&self, alloc: Global) -> Result<Vec<u8>, NoMemory>
        ensures { IfOk result (λ v. v.items ≡ fault_text self.now) }
    {
        match self {
            TextFault::Line { at } => line_text(alloc, *at),
            TextFault::Refused { rule, member } => rule_text(alloc, *rule, *member),
            TextFault::Json(fault) => json_text(alloc, fault),
            TextFault::NoMemory(_) => bytes_of(alloc, "401 no memory"),
        }
    }
}
