// The JSON value of an outline, and its text.
ghost use Rattle.std.specs.Prelude.{◌≡◌, ◌==◌, ◌&&◌, ◌<◌, ◌^◌, ◌+◌, ◌-◌, ℕ, List, None, nat_lt, slice_index, map, length, IfOk, OnOk, option_map, string_bytes};
ghost use Rattle.serde_json.specs.Data.{string};
ghost use Rattle.serde_json.specs.View.{members_view, view};
ghost use Rattle.aso_tree.specs.Trees.{depth, under, IsTree};
ghost use Rattle.aso_outline.specs.Members.{parents_of};
ghost use Rattle.aso_outline.specs.Rules.{broken};
ghost use Rattle.aso_outjson.specs.Answers.{IsOutline};
ghost use Rattle.aso_outjson.specs.Printing.{AreSoundAttrs, AreSoundDims, AreSoundHiers, AreSpelled, IsSound, aggregate_value, always, attr_value, dim_value, formula_value, hier_value, if_set, kind_value, member_fields, member_value, object_of, op_value, outline_text, outline_value, root_value, solve_value, unless_empty, with_put};

use aso_memory::NoMemory;
use aso_num::Text;
use aso_outline::{
    Aggregate, Draft, DraftAttr, DraftDim, DraftHier, DraftMember, Expr, Op, Outline,
};
use serde_json::{Map, Value, put};
use std::alloc::{AllocError, Global};

// ---- the values of fields; nothing where a field is left out

fn text(alloc: Global, text: &str) -> Result<Value, AllocError>
    ensures { IfOk result (λ v. view v ≡ string text.now) }
{
    Value::try_from_str(alloc, text)
}

// A text that is always there.
fn always(alloc: Global, words: &str) -> Result<Option<Value>, AllocError>
    ensures { IfOk result (λ v. option_map view v ≡ always words.now) }
{
    Ok(Some(text(alloc, words)?))
}

fn if_set(flag: bool) -> Option<Value>
    ensures { option_map view result ≡ if_set flag }
{
    if flag { Some(Value::Bool(true)) } else { None }
}

fn unless_empty(values: Vec<Value>) -> Option<Value>
    ensures { option_map view result ≡ unless_empty (map view values.items) }
{
    if values.is_empty() {
        None
    } else {
        Some(Value::Array(values))
    }
}

fn op(alloc: Global, op: Op) -> Result<Option<Value>, AllocError>
    ensures { IfOk result (λ v. option_map view v ≡ op_value op) }
{
    match op {
        Op::Plus => Ok(None),
        Op::Minus => always(alloc, "-"),
        Op::Times => always(alloc, "*"),
        Op::Over => always(alloc, "/"),
        Op::Skip => always(alloc, "~"),
    }
}

fn solve(solve: Option<u8>) -> Option<Value>
    ensures { option_map view result ≡ solve_value solve }
{
    match solve {
        Some(order) => Some(Value::from(order)),
        None => None,
    }
}

fn formula(alloc: Global, formula: &Option<Expr>) -> Result<Option<Value>, NoMemory>
    ensures { IfOk result (λ v. option_map view v ≡ formula_value formula.now) }
{
    match formula {
        Some(formula) => {
            let words = aso_formula::print(alloc, formula)?;
            Ok(Some(Value::String(words)))
        }
        None => Ok(None),
    }
}

fn aggregate(alloc: Global, aggregate: Aggregate) -> Result<Option<Value>, AllocError>
    ensures { IfOk result (λ v. option_map view v ≡ aggregate_value aggregate) }
{
    match aggregate {
        Aggregate::All => Ok(None),
        Aggregate::Top => always(alloc, "top"),
        Aggregate::Bottom => always(alloc, "none"),
    }
}

fn texts(alloc: Global, names: &[Text]) -> Result<Vec<Value>, NoMemory>
    ensures { IfOk result (λ vs. map view vs.items ≡ map string names.now) }
{
    let mut values = Vec::new(alloc);
    for name in names {
        values.push(text(alloc, name.as_str())?)?;
    }
    Ok(values)
}

// ---- objects

// Puts a field, unless it is left out.
fn put_field(
    alloc: Global,
    name: &str,
    value: Option<Value>,
    fields: &mut Map<String, Value>,
) -> Result<(), NoMemory>
    ensures { OnOk result (members_view fields.new.entries ≡ with_put name.now (option_map view value) (members_view fields.old.entries)) }
{
    if let Some(value) = value {
        put(fields, alloc, name, value)?;
    }
    Ok(())
}

// A member, with the values of those below it. The fields are put from the last to the first.
fn member(alloc: Global, m: &DraftMember, below: Vec<Value>) -> Result<Value, NoMemory>
    ensures { IfOk result (λ v. view v ≡ object_of (member_fields m.now (map view below.items))) }
{
    let mut fields = Map::new(alloc);
    put_field(alloc, "solve", solve(m.solve), &mut fields)?;
    put_field(alloc, "shared", if_set(m.shared), &mut fields)?;
    put_field(alloc, "op", op(alloc, m.op)?, &mut fields)?;
    put_field(alloc, "name", always(alloc, m.name.as_str())?, &mut fields)?;
    put_field(alloc, "label_only", if_set(m.label_only), &mut fields)?;
    put_field(alloc, "formula", formula(alloc, &m.formula)?, &mut fields)?;
    put_field(alloc, "children", unless_empty(below), &mut fields)?;
    let carried = texts(alloc, m.carries.items())?;
    put_field(alloc, "attributes", unless_empty(carried), &mut fields)?;
    Ok(Value::Object(fields))
}

// A member stands there, and its parent at the first place.
fn is_child(members: &[DraftMember], parent: usize, place: usize) -> bool
    ensures { result ≡ (nat_lt place (length members.now) && (slice_index (parents_of members.now) place == parent)) }
{
    match members.get(place) {
        Some(m) => m.parent as usize == parent,
        None => false,
    }
}

// The member at a place of its tree, with all that stand below it; then the place behind these.
fn tree(alloc: Global, members: &[DraftMember], next: &mut usize) -> Result<Value, NoMemory>
    requires tree { IsTree (parents_of members.now) }
    requires short { length members.now < 2 ^ 32 }
    requires there { next.old < length members.now }
    ensures value { IfOk result (λ v. view v ≡ member_value (32 - depth (parents_of members.now) next.old) members.now next.old) }
    ensures behind { OnOk result (next.new ≡ next.old + length (under (parents_of members.now) next.old)) }
{
    let at = *next;
    *next += 1;
    let mut below = Vec::new(alloc);
    while is_child(members, at, *next) {
        let value = tree(alloc, members, next)?;
        below.push(value)?;
    }
    member(alloc, &members[at], below)
}

fn root(alloc: Global, members: &[DraftMember]) -> Result<Value, NoMemory>
    requires { IsSound members.now }
    ensures { IfOk result (λ v. view v ≡ root_value members.now) }
{
    let mut next = 0;
    tree(alloc, members, &mut next)
}

fn kind(alloc: Global, dynamic: bool) -> Result<Value, AllocError>
    ensures { IfOk result (λ v. view v ≡ kind_value dynamic) }
{
    text(alloc, if dynamic { "dynamic" } else { "stored" })
}

fn hier(alloc: Global, h: &DraftHier) -> Result<Value, NoMemory>
    requires { IsSound h.now.members }
    ensures { IfOk result (λ v. view v ≡ hier_value h.now) }
{
    let mut fields = Map::new(alloc);
    let root = root(alloc, h.members.items())?;
    put_field(alloc, "root", Some(root), &mut fields)?;
    let kind = kind(alloc, h.dynamic)?;
    put_field(alloc, "kind", Some(kind), &mut fields)?;
    Ok(Value::Object(fields))
}

fn hiers(alloc: Global, hiers: &[DraftHier]) -> Result<Vec<Value>, NoMemory>
    requires { AreSoundHiers hiers.now }
    ensures { IfOk result (λ vs. map view vs.items ≡ map hier_value hiers.now) }
{
    let mut values = Vec::new(alloc);
    for h in hiers {
        values.push(hier(alloc, h)?)?;
    }
    Ok(values)
}

fn dim(alloc: Global, d: &DraftDim) -> Result<Value, NoMemory>
    requires { AreSoundHiers d.now.hiers }
    ensures { IfOk result (λ v. view v ≡ dim_value d.now) }
{
    let mut fields = Map::new(alloc);
    put_field(alloc, "name", always(alloc, d.name.as_str())?, &mut fields)?;
    let hiers = hiers(alloc, d.hiers.items())?;
    put_field(alloc, "hierarchies", Some(Value::Array(hiers)), &mut fields)?;
    put_field(
        alloc,
        "aggregate",
        aggregate(alloc, d.aggregate)?,
        &mut fields,
    )?;
    Ok(Value::Object(fields))
}

fn dims(alloc: Global, dims: &[DraftDim]) -> Result<Vec<Value>, NoMemory>
    requires { AreSoundDims dims.now }
    ensures { IfOk result (λ vs. map view vs.items ≡ map dim_value dims.now) }
{
    let mut values = Vec::new(alloc);
    for d in dims {
        values.push(dim(alloc, d)?)?;
    }
    Ok(values)
}

fn attr(alloc: Global, a: &DraftAttr) -> Result<Value, NoMemory>
    requires { IsSound a.now.members }
    ensures { IfOk result (λ v. view v ≡ attr_value a.now) }
{
    let mut fields = Map::new(alloc);
    let root = root(alloc, a.members.items())?;
    put_field(alloc, "root", Some(root), &mut fields)?;
    put_field(alloc, "name", always(alloc, a.name.as_str())?, &mut fields)?;
    put_field(alloc, "base", always(alloc, a.base.as_str())?, &mut fields)?;
    Ok(Value::Object(fields))
}

fn attrs(alloc: Global, attrs: &[DraftAttr]) -> Result<Vec<Value>, NoMemory>
    requires { AreSoundAttrs attrs.now }
    ensures { IfOk result (λ vs. map view vs.items ≡ map attr_value attrs.now) }
{
    let mut values = Vec::new(alloc);
    for a in attrs {
        values.push(attr(alloc, a)?)?;
    }
    Ok(values)
}

fn value(alloc: Global, draft: &Draft) -> Result<Value, NoMemory>
    requires dims { AreSoundDims draft.now.dims }
    requires attrs { AreSoundAttrs draft.now.attrs }
    ensures { IfOk result (λ v. view v ≡ outline_value draft.now) }
{
    let mut fields = Map::new(alloc);
    let dims = dims(alloc, draft.dims.items())?;
    put_field(alloc, "dimensions", Some(Value::Array(dims)), &mut fields)?;
    put_field(alloc, "db", always(alloc, draft.db.as_str())?, &mut fields)?;
    let attrs = attrs(alloc, draft.attrs.items())?;
    put_field(alloc, "attributes", unless_empty(attrs), &mut fields)?;
    put_field(
        alloc,
        "app",
        always(alloc, draft.app.as_str())?,
        &mut fields,
    )?;
    Ok(Value::Object(fields))
}

// The draft of an outline has sound trees.
fn sound_draft(outline: &Outline) -> &Draft
    ensures value { result.now ≡ outline.now }
    ensures kept { broken outline.now ≡ None }
    ensures dims { AreSoundDims outline.now.dims }
    ensures attrs { AreSoundAttrs outline.now.attrs }
{
    outline.keeps();
    outline.keeps_roots();
    outline.sound_draft()
}

/// The text of an outline: JSON with no space between its parts, the fields of each object in the order of their names' bytes, and
/// none that has its default. Where each formula is one that a text spells, as in an outline that was read, the text is read as the
/// same outline: no tree of an outline is deeper than JSON may nest. It takes time in proportion to the outline.
pub fn print(alloc: Global, outline: &Outline) -> Result<String, NoMemory>
    ensures text { IfOk result (λ s. string_bytes s ≡ outline_text outline.now) }
    ensures reads_again { AreSpelled outline.now → IfOk result (λ s. IsOutline (string_bytes s) outline.now) }
    ensures as_it_was_read { (text : List ℕ) → IsOutline text outline.now → IfOk result (λ s. IsOutline (string_bytes s) outline.now) }
{
    let draft = sound_draft(outline);
    let value = value(alloc, draft)?;
    Ok(value.to_string(alloc)?)
}
