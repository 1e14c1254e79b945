// Tuples of cases, and as texts.
ghost use Rattle.std.specs.Prelude.{◌≡◌, ℕ, true, Some, length, slice_get};
ghost use Rattle.aso_outline.specs.declared.draft.Tuple.{Tuple as Coordinates};

use crate::members::{member, put_member, put_members};
use crate::setting::Setting;
use aso_num::List;
use aso_outline::{Outline, Tuple};
use aso_trials_cases::{CaseFault, list, optional};
use serde_json::Value;
use std::alloc::{AllocError, Global};

fn attribute(setting: &Setting, value: &Value) -> Result<Option<u32>, CaseFault> {
    match value {
        Value::Null => Ok(None),
        _ => Ok(Some(member(setting, value)?)),
    }
}

/// A tuple: a list of members, and of attributes as `{"of": member}`, where `null` asks for none.
pub fn tuple(alloc: Global, setting: &Setting, value: &Value) -> Result<Tuple, CaseFault> {
    let mut base = Vec::new(alloc);
    let mut attrs = Vec::new(alloc);
    for item in list(value)? {
        match optional(item, "of") {
            Some(asked) => attrs.push(attribute(setting, asked)?)?,
            None => base.push(member(setting, item)?)?,
        }
    }
    Ok(Tuple {
        base: List::of(base),
        attrs: List::of(attrs),
    })
}

/// The tuples of a list.
pub fn tuples(alloc: Global, setting: &Setting, value: &Value) -> Result<Vec<Tuple>, CaseFault> {
    let mut all = Vec::new(alloc);
    for item in list(value)? {
        all.push(tuple(alloc, setting, item)?)?;
    }
    Ok(all)
}

/// Each tuple has a member for each base dimension.
pub fn are_long(outline: &Outline, asked: &[Tuple]) -> bool
    ensures { result ≡ true → (k : ℕ) (t : Coordinates) → slice_get asked.now k ≡ Some t → length t.base ≡ length outline.now.dims }
{
    let dims = outline.dims() as usize;
    for tuple in asked {
        if tuple.base.items().len() != dims {
            return false;
        }
    }
    true
}

/// Puts a tuple behind a space: its members, and behind each colon an attribute.
pub fn put_tuple(setting: &Setting, tuple: &Tuple, out: &mut String) -> Result<(), AllocError> {
    out.push(' ')?;
    put_members(setting, tuple.base.items(), out)?;
    for attr in tuple.attrs.items() {
        out.push(':')?;
        match attr {
            Some(member) => put_member(setting, *member, out)?,
            None => out.push_str("any")?,
        }
    }
    Ok(())
}

pub fn put_tuples(setting: &Setting, tuples: &[Tuple], out: &mut String) -> Result<(), AllocError> {
    for tuple in tuples {
        put_tuple(setting, tuple, out)?;
    }
    Ok(())
}
