ghost use Rattle.std.specs.Prelude.{◌≡◌, None, Ok, IfOk, IfErr};
ghost use Rattle.serde_json.specs.View.{view};
ghost use Rattle.aso_outline.specs.Rules.{broken};
ghost use Rattle.aso_outline.specs.declared.draft.Draft.{Draft as Plan};
ghost use Rattle.aso_rules.specs.Answers.{IsJson};
ghost use Rattle.aso_outjson.specs.Answers.{IsBroken, IsFieldFault, IsNoJson, IsOutline, IsRefusal, Reads};
ghost use Rattle.aso_outjson.specs.Objects.{outline_in};

use crate::fault::JsonFault;
use crate::formulas::draft;
use crate::part::Part;
use crate::pointer::pointer;
use crate::trouble::Trouble;
use crate::written::Written;
use aso_memory::NoMemory;
use aso_outline::{Draft, Outline, OutlineFault};
use serde_json::Value;
use std::alloc::Global;

fn json(alloc: Global, text: &[u8]) -> Result<Value, JsonFault>
    ensures found { IfOk result (λ v. IsJson text.now (view v)) }
    ensures refused { IfErr result (IsNoJson text.now) }
{
    match Value::from_slice(alloc, text) {
        Ok(value) => Ok(value),
        Err(error) => if error.is_memory() {
            Err(JsonFault::NoMemory(NoMemory))
        } else {
            Err(JsonFault::NotJson)
        },
    }
}

fn written(alloc: Global, value: &Value) -> Result<Written, JsonFault>
    ensures found { IfOk result (λ w. outline_in (view value.now) ≡ Ok w) }
    ensures refused { IfErr result (IsFieldFault (outline_in (view value.now))) }
{
    match Written::read(alloc, value) {
        Ok(written) => Ok(written),
        Err(Trouble::Memory) => Err(JsonFault::NoMemory(NoMemory)),
        Err(Trouble::Fault(path)) => match pointer(alloc, &path) {
            Ok(path) => Err(JsonFault::Field { path }),
            Err(_) => Err(JsonFault::NoMemory(NoMemory)),
        },
    }
}

fn verified(alloc: Global, draft: Draft) -> Result<Outline, JsonFault>
    ensures found { IfOk result (λ o. (o ≡ draft) × (broken draft ≡ None)) }
    ensures refused { IfErr result (IsBroken draft) }
{
    match Outline::verify(alloc, draft) {
        Ok(outline) => Ok(outline),
        Err(OutlineFault::Refused { rule, member }) => Err(JsonFault::Refused { rule, member }),
        Err(OutlineFault::NoMemory(e)) => Err(JsonFault::NoMemory(e)),
    }
}

/// The outline that a JSON text writes, as docs/FORMATS.md says. Else why it writes none: it is no JSON; or the first field at
/// fault; or, where there is none, the first formula at fault; or the first broken rule. It takes time in proportion to the text.
pub fn read(alloc: Global, text: &[u8]) -> Result<Outline, JsonFault>
    ensures found { IfOk result (IsOutline text.now) }
    ensures refused { IfErr result (IsRefusal text.now) }
    ensures only { (o : Plan) → IsOutline text.now o → Reads result o }
{
    let value = json(alloc, text)?;
    let written = written(alloc, &value)?;
    let draft = draft(alloc, written)?;
    verified(alloc, draft)
}
