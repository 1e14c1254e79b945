// The names of a query: the first that no member has, and the first that breaks a rule of dimensions.
ghost use Rattle.std.specs.Prelude.{◌≡◌, ◌++◌, [], None, map, unwrap_or, IfOk, OnOk};
ghost use Rattle.std.specs.Option.{option_map};
ghost use Rattle.aso_axes.specs.declared.part.Purpose.{Purpose as Use};
ghost use Rattle.aso_axes.specs.declared.part.Purpose.TheVariants.{Axis as AxisUse};
ghost use Rattle.aso_axes.specs.Members.{IsNumbered};
ghost use Rattle.aso_axes.specs.Sets.{paths_of, said_of};
ghost use Rattle.aso_grid.specs.Plans.{said_of_rows, set_of_rows, unknown_in, wrong_in};

use aso_axes::{
    Purpose, first_unknown, push_paths, push_tuple, said_of_set, wrong_in, wrong_tuple,
};
use aso_mdx::Query;
use aso_memory::NoMemory;
use aso_num::Text;
use aso_outline::{DimRef, ExtraMember, Outline};
use std::alloc::Global;

/// Adds the members of the rows, where there are rows.
fn push_rows<'a>(query: &'a Query, all: &mut Vec<&'a [Text]>) -> Result<(), NoMemory>
    ensures { OnOk result (map (λ a. a.now) all.new.items ≡ map (λ a. a.now) all.old.items ++ unwrap_or (option_map paths_of (set_of_rows query.now)) []) }
{
    match &query.rows {
        Some(rows) => push_paths(&rows.set, all),
        None => Ok(()),
    }
}

/// The first name of a query that no member has.
pub fn unknown_name<'a>(
    alloc: Global,
    outline: &Outline,
    own: &[ExtraMember],
    query: &'a Query,
) -> Result<Option<&'a Text>, NoMemory>
    requires { IsNumbered outline.now own.now }
    ensures { IfOk result (λ found. option_map (λ n. n.now) found ≡ unknown_in outline.now own.now query.now) }
{
    let mut paths = Vec::new(alloc);
    push_paths(&query.columns.set, &mut paths)?;
    push_rows(query, &mut paths)?;
    push_tuple(query.slicer.items(), &mut paths)?;
    Ok(first_unknown(outline, own, paths.as_slice()))
}

/// The first name of the rows that is wrong behind the dimensions that were named before.
fn wrong_in_rows<'a>(
    alloc: Global,
    outline: &'a Outline,
    own: &'a [ExtraMember],
    query: &'a Query,
    before: &[DimRef],
) -> Result<Option<&'a str>, NoMemory>
    requires { IsNumbered outline.now own.now }
    ensures { IfOk result (λ found. option_map (λ s. s.now) found ≡ (said_of_rows outline.now own.now query.now).wrong before.now None) }
{
    match &query.rows {
        Some(rows) => wrong_in(alloc, outline, own, Purpose::Axis, &rows.set, before, None),
        None => Ok(None),
    }
}

/// Adds the dimensions of the rows.
pub fn push_row_dims(
    outline: &Outline,
    own: &[ExtraMember],
    query: &Query,
    dims: &mut Vec<DimRef>,
) -> Result<(), NoMemory>
    requires { IsNumbered outline.now own.now }
    ensures { OnOk result (dims.new.items ≡ dims.old.items ++ (said_of_rows outline.now own.now query.now).dims) }
{
    match &query.rows {
        Some(rows) => {
            said_of_set(outline, own, Purpose::Axis, &rows.set, dims)?;
            Ok(())
        }
        None => Ok(()),
    }
}

/// The first name of a query that breaks a rule of dimensions.
#[tactic(auto, using(aso_axes::proofs::WrongLemmas::some_first, aso_axes::proofs::WrongLemmas::none_first, aso_axes::proofs::WrongLemmas::some_mapped))]
pub fn wrong_name<'a>(
    alloc: Global,
    outline: &'a Outline,
    own: &'a [ExtraMember],
    query: &'a Query,
) -> Result<Option<&'a str>, NoMemory>
    requires { IsNumbered outline.now own.now }
    ensures { IfOk result (λ found. option_map (λ s. s.now) found ≡ wrong_in outline.now own.now query.now) }
{
    let purpose = Purpose::Axis;
    let columns = &query.columns.set;
    let found = wrong_in(alloc, outline, own, purpose, columns, &[], None)?;
    if found.is_some() {
        return Ok(found);
    }
    let mut named = Vec::new(alloc);
    said_of_set(outline, own, purpose, columns, &mut named)?;
    let found = wrong_in_rows(alloc, outline, own, query, named.as_slice())?;
    if found.is_some() {
        return Ok(found);
    }
    push_row_dims(outline, own, query, &mut named)?;
    let slicer = query.slicer.items();
    wrong_tuple(alloc, outline, own, purpose, slicer, named.as_slice(), None)
}
