ghost use Rattle.std.specs.Prelude.{◌≡◌, true, false, None, Some, IfOk, IfErr};
ghost use Rattle.aso_outline.specs.declared.draft.Draft.{Draft as Plan};
ghost use Rattle.aso_outline.specs.Rules.{broken};
ghost use Rattle.aso_sheettext.specs.Sheet.{Outline as Lines};
ghost use Rattle.aso_sheettext.specs.Texts.{outline};
ghost use Rattle.aso_outtext.specs.Answers.{Gives, IsRefusal, Reads, is_blank, is_json};

use crate::drafting::draft_of;
use crate::fault::TextFault;
use aso_outjson::JsonFault;
use aso_outline::{Outline, OutlineFault};
use aso_sheettext::{SheetFault, read_outline};
use std::alloc::Global;

fn is_blank(byte: u8) -> bool
    ensures { result ≡ is_blank byte }
{
    matches!(byte, b' ' | b'\t' | b'\n' | b'\r')
}

fn is_json(text: &[u8]) -> bool
    ensures { result ≡ is_json text.now }
{
    for byte in text {
        if !is_blank(*byte) {
            return *byte == b'{';
        }
    }
    false
}

fn from_json(alloc: Global, text: &[u8]) -> Result<Outline, TextFault>
    requires { is_json text.now ≡ true }
    ensures found { IfOk result (Gives text.now) }
    ensures refused { IfErr result (IsRefusal text.now) }
    ensures only { (o : Plan) → Gives text.now o → Reads result o }
{
    match aso_outjson::read(alloc, text) {
        Ok(outline) => Ok(outline),
        Err(JsonFault::NoMemory(e)) => Err(TextFault::NoMemory(e)),
        Err(fault) => Err(TextFault::Json(fault)),
    }
}

fn from_lines(alloc: Global, text: &[u8]) -> Result<Outline, TextFault>
    requires { is_json text.now ≡ false }
    ensures found { IfOk result (Gives text.now) }
    ensures refused { IfErr result (IsRefusal text.now) }
    ensures only { (o : Plan) → Gives text.now o → Reads result o }
{
    let said = match read_outline(alloc, text) {
        Ok(said) => said,
        Err(SheetFault::Line { at }) => return Err(TextFault::Line { at }),
        Err(SheetFault::NoMemory(e)) => return Err(TextFault::NoMemory(e)),
    };
    let draft = draft_of(alloc, &said)?;
    match Outline::verify(alloc, draft) {
        Ok(outline) => Ok(outline),
        Err(OutlineFault::Refused { rule, member }) => Err(TextFault::Refused { rule, member }),
        Err(OutlineFault::NoMemory(e)) => Err(TextFault::NoMemory(e)),
    }
}

/// The outline that a text gives, as docs/FORMATS.md says: a text whose first byte past white space is `{` is read as JSON, and any
/// other as the lines of a sheet up to its cells. Else why it gives none. It takes time in proportion to the text.
pub fn read(alloc: Global, text: &[u8]) -> Result<Outline, TextFault>
    ensures found { IfOk result (Gives text.now) }
    ensures refused { IfErr result (IsRefusal text.now) }
    ensures only { (o : Plan) → Gives text.now o → Reads result o }
{
    if is_json(text) {
        from_json(alloc, text)
    } else {
        from_lines(alloc, text)
    }
}
