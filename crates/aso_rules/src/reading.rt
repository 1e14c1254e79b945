ghost use Rattle.std.specs.Prelude.{◌≡◌, Ok, IfOk, IfErr};
ghost use Rattle.serde_json.specs.View.{view};
ghost use Rattle.aso_rules.specs.Answers.{AreRules, IsBroken, IsJson, IsNoJson, IsRefusal};
ghost use Rattle.aso_rules.specs.Rules.{rules_of};

use crate::columns::{columns, fixed};
use crate::cover::are_covered;
use crate::fault::RulesFault;
use crate::fields::Fields;
use crate::has_only::has_only;
use crate::head::{delimiter, header_records};
use crate::known::{columns_in, leaves_named};
use crate::rules::Rules;
use aso_num::NoMemory;
use aso_outline::Outline;
use serde_json::Value;
use std::alloc::Global;

fn json(alloc: Global, text: &[u8]) -> Result<Value, RulesFault>
    ensures found { IfOk result (λ v. IsJson text.now (view v)) }
    ensures refused { IfErr result (IsNoJson text.now) }
{
    match Value::from_slice(alloc, text) {
        Ok(value) => Ok(value),
        Err(error) => if error.is_memory() {
            Err(RulesFault::NoMemory(NoMemory))
        } else {
            Err(RulesFault::NotJson)
        },
    }
}

fn rules_in(alloc: Global, outline: &Outline, value: &Value) -> Result<Rules, RulesFault>
    ensures found { IfOk result (λ rules. rules_of outline.now (view value.now) ≡ Ok rules) }
    ensures refused { IfErr result (IsBroken (rules_of outline.now (view value.now))) }
{
    if !has_only(value, Fields::OfFile) {
        return Err(RulesFault::Rule { number: 1 });
    }
    let Some(delimiter) = delimiter(value) else {
        return Err(RulesFault::Rule { number: 2 });
    };
    let Some(header_records) = header_records(value) else {
        return Err(RulesFault::Rule { number: 3 });
    };
    let Some(written) = columns(alloc, value)? else {
        return Err(RulesFault::Rule { number: 4 });
    };
    let Some(names) = fixed(alloc, value)? else {
        return Err(RulesFault::Rule { number: 4 });
    };
    let Some(columns) = columns_in(alloc, outline, written)? else {
        return Err(RulesFault::Rule { number: 5 });
    };
    let Some(fixed) = leaves_named(alloc, outline, names.items())? else {
        return Err(RulesFault::Rule { number: 5 });
    };
    if !are_covered(alloc, outline, columns.items(), fixed.items())? {
        return Err(RulesFault::Rule { number: 6 });
    }
    Ok(Rules {
        delimiter,
        header_records,
        columns,
        fixed,
    })
}

/// The rules that a rules file gives for an outline, or the first of the rules of rules files that it breaks. docs/FORMATS.md has
/// them.
pub fn read(alloc: Global, outline: &Outline, text: &[u8]) -> Result<Rules, RulesFault>
    ensures found { IfOk result (AreRules outline.now text.now) }
    ensures refused { IfErr result (IsRefusal outline.now text.now) }
{
    let value = json(alloc, text)?;
    rules_in(alloc, outline, &value)
}
