// Views of an outline, and the keys and ranges of their layouts.
ghost use Rattle.std.specs.Prelude.{◌≤◌, IfOk};
ghost use Rattle.aso_keys.specs.Views.{IsView};

use crate::reading::{small_number, small_numbers};
use aso_keys::{Layout, View, is_coarser, view_of};
use aso_outline::Outline;
use aso_trials_cases::{CaseFault, field, number};
use aso_words::Words;
use serde_json::Value;
use std::alloc::{AllocError, Global};
use std::fmt::Write;

fn view(alloc: Global, outline: &Outline, value: &Value) -> Result<View, CaseFault>
    ensures { IfOk result (λ v. IsView outline.now v.choices) }
{
    match view_of(alloc, outline, small_number(value)?)? {
        Some(view) => Ok(view),
        None => Err(CaseFault::Value),
    }
}

fn put_choices(view: &View, out: &mut String) -> Result<(), AllocError> {
    let mut between = "";
    for (hier, level) in view.choices.items() {
        write!(out, "{between}hierarchy {hier} level {level}")?;
        between = ", ";
    }
    Ok(())
}

/// What the view of a number chooses of each dimension.
pub fn view_told(alloc: Global, outline: &Outline, case: &Value) -> Result<String, CaseFault> {
    let mut out = String::new(alloc);
    match view_of(alloc, outline, small_number(field(case, "view")?)?)? {
        Some(view) => put_choices(&view, &mut out)?,
        None => out.push_str("no view")?,
    }
    Ok(out)
}

fn put_key<const W: usize>(key: &Words<W>, out: &mut String) -> Result<(), AllocError> {
    out.push_str("key")?;
    for word in key.words().as_slice() {
        write!(out, " {word:016x}")?;
    }
    Ok(())
}

fn put_classes(classes: &[u32], out: &mut String) -> Result<(), AllocError> {
    out.push_str(", classes")?;
    for class in classes {
        write!(out, " {class}")?;
    }
    Ok(())
}

/// The key of the classes, and the classes that are read of it.
fn key_in<const W: usize>(
    alloc: Global,
    layout: &Layout,
    classes: &[u32],
) -> Result<String, CaseFault>
    requires some { 1 ≤ W }
    requires few { W ≤ 4 }
{
    let bits = layout.bits();
    let mut out = format!(in alloc; "{bits} bits, ")?;
    if bits as usize > 64 * W {
        return Err(CaseFault::Value);
    }
    if !layout.are_classes(classes) {
        out.push_str("no classes")?;
        return Ok(out);
    }
    let key = layout.key_of::<W>(classes);
    put_key(&key, &mut out)?;
    let mut back = vec![in alloc; 0u32; layout.dims()]?;
    layout.classes_of(&key, back.as_mut_slice());
    put_classes(back.as_slice(), &mut out)?;
    Ok(out)
}

/// The key of a case's classes.
pub fn key_told(alloc: Global, outline: &Outline, case: &Value) -> Result<String, CaseFault> {
    let view = view(alloc, outline, field(case, "view")?)?;
    let layout = Layout::new(alloc, outline, &view)?;
    let classes = small_numbers(alloc, field(case, "classes")?)?;
    match number(field(case, "words")?)? {
        1 => key_in::<1>(alloc, &layout, &classes),
        2 => key_in::<2>(alloc, &layout, &classes),
        _ => Err(CaseFault::Value),
    }
}

/// The key of the classes, rolled up to a coarser view.
fn rolled(
    alloc: Global,
    outline: &Outline,
    fine: &View,
    coarse: &View,
    classes: &[u32],
) -> Result<String, CaseFault>
    requires fine { IsView outline.now fine.now.choices }
    requires coarse { IsView outline.now coarse.now.choices }
{
    if !is_coarser(coarse, fine) {
        return Ok(String::from_str(alloc, "no coarser view")?);
    }
    let from = Layout::new(alloc, outline, fine)?;
    let to = Layout::new(alloc, outline, coarse)?;
    from.keeps_coarser(outline, fine, &to, coarse);
    if from.bits() > 128 || to.bits() > 128 || !from.are_classes(classes) {
        return Err(CaseFault::Value);
    }
    let bits = to.bits();
    let mut out = format!(in alloc; "{bits} bits, ")?;
    match from.roll(&from.key_of::<2>(classes), &to) {
        Some(key) => put_key(&key, &mut out)?,
        None => out.push_str("no key")?,
    }
    Ok(out)
}

/// The key of a case's classes at a view, rolled up to another one.
pub fn roll_told(alloc: Global, outline: &Outline, case: &Value) -> Result<String, CaseFault> {
    let fine = view(alloc, outline, field(case, "view")?)?;
    let coarse = view(alloc, outline, field(case, "to")?)?;
    let classes = small_numbers(alloc, field(case, "classes")?)?;
    rolled(alloc, outline, &fine, &coarse, &classes)
}

/// The classes that a member holds: the first, and the one behind the last.
pub fn range_told(alloc: Global, outline: &Outline, case: &Value) -> Result<String, CaseFault> {
    let view = view(alloc, outline, field(case, "view")?)?;
    let layout = Layout::new(alloc, outline, &view)?;
    let dim = small_number(field(case, "dimension")?)?;
    let member = small_number(field(case, "member")?)?;
    if !layout.has_range(dim, member) {
        return Ok(String::from_str(alloc, "none")?);
    }
    let (first, end) = layout.range_of(dim, member);
    Ok(format!(in alloc; "from {first} to before {end}")?)
}
