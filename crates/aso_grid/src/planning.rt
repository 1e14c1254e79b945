// The plan of a query, or why it has none.
ghost use Rattle.std.specs.Prelude.{◌≡◌, ◌++◌, map, IfOk, IfErr, OnOk};
ghost use Rattle.aso_axes.specs.Members.{IsNumbered};
ghost use Rattle.aso_axes.specs.Sets.{dim_at as dim_named, member_at as member_named};
ghost use Rattle.aso_grid.specs.Plans.{AreLong, IsKnown, IsPlaced, IsQueryRefusal, IsSized, IsTaken, cells_over, empty_rows_of, no_axis as lone_axis, plan_of, rows_of};

use crate::cells::cells;
use crate::grid_plan::GridPlan;
use crate::names::{push_row_dims, unknown_name, wrong_name};
use crate::sizes::excess;
use aso_axes::{
    AxisFault, AxisTuples, Purpose, are_numbered, copied, make_tuples, member_at, said_of_tuple,
};
use aso_mdx::Query;
use aso_memory::NoMemory;
use aso_num::{List, Text};
use aso_outline::{DimRef, Extra, ExtraMember, Outline, Tuple};
use std::alloc::Global;

fn check_names(
    alloc: Global,
    outline: &Outline,
    own: &[ExtraMember],
    query: &Query,
) -> Result<(), AxisFault>
    requires { IsNumbered outline.now own.now }
    ensures known { OnOk result (IsKnown outline.now own.now query.now) }
    ensures refused { IfErr result (IsQueryRefusal outline.now own.now query.now) }
{
    match unknown_name(alloc, outline, own, query)? {
        Some(name) => Err(AxisFault::UnknownMember {
            name: copied(alloc, name.as_str())?,
        }),
        None => Ok(()),
    }
}

fn check_dims(
    alloc: Global,
    outline: &Outline,
    own: &[ExtraMember],
    query: &Query,
) -> Result<(), AxisFault>
    requires numbered { IsNumbered outline.now own.now }
    requires known { IsKnown outline.now own.now query.now }
    ensures placed { OnOk result (IsPlaced outline.now own.now query.now) }
    ensures refused { IfErr result (IsQueryRefusal outline.now own.now query.now) }
{
    match wrong_name(alloc, outline, own, query)? {
        Some(name) => Err(AxisFault::Dimension {
            name: copied(alloc, name)?,
        }),
        None => Ok(()),
    }
}

fn check_sizes(
    alloc: Global,
    outline: &Outline,
    own: &[ExtraMember],
    query: &Query,
) -> Result<(), AxisFault>
    requires numbered { IsNumbered outline.now own.now }
    requires placed { IsPlaced outline.now own.now query.now }
    ensures taken { OnOk result (IsTaken outline.now own.now query.now) }
    ensures refused { IfErr result (IsQueryRefusal outline.now own.now query.now) }
{
    match excess(alloc, outline, own, query)? {
        Some(cells) => Err(AxisFault::TooLarge { cells }),
        None => Ok(()),
    }
}

fn check(
    alloc: Global,
    outline: &Outline,
    own: &[ExtraMember],
    query: &Query,
) -> Result<(), AxisFault>
    requires { IsNumbered outline.now own.now }
    ensures taken { OnOk result (IsTaken outline.now own.now query.now) }
    ensures refused { IfErr result (IsQueryRefusal outline.now own.now query.now) }
{
    check_names(alloc, outline, own, query)?;
    check_dims(alloc, outline, own, query)?;
    check_sizes(alloc, outline, own, query)?;
    Ok(())
}

/// One tuple without members.
fn no_axis(alloc: Global) -> Result<AxisTuples, NoMemory>
    ensures { IfOk result (λ t. t ≡ lone_axis) }
{
    let mut rows = Vec::new(alloc);
    rows.push(List::of(Vec::new(alloc)))?;
    Ok(AxisTuples {
        dims: List::of(Vec::new(alloc)),
        rows: List::of(rows),
    })
}

fn row_tuples(
    alloc: Global,
    outline: &Outline,
    own: &[ExtraMember],
    query: &Query,
) -> Result<AxisTuples, NoMemory>
    requires { IsNumbered outline.now own.now }
    ensures { IfOk result (λ t. t ≡ rows_of outline.now own.now query.now) }
{
    match &query.rows {
        Some(rows) => make_tuples(alloc, outline, own, Purpose::Axis, &rows.set),
        None => no_axis(alloc),
    }
}

fn empty_rows(query: &Query) -> bool
    ensures { result ≡ empty_rows_of query.now }
{
    match &query.rows {
        Some(rows) => !rows.non_empty,
        None => true,
    }
}

/// The dimensions that columns, rows and slicer name.
fn dims_named(
    alloc: Global,
    outline: &Outline,
    own: &[ExtraMember],
    columns: &[DimRef],
    rows: &[DimRef],
    slicer: &[List<Text>],
) -> Result<Vec<DimRef>, NoMemory>
    requires { IsNumbered outline.now own.now }
    ensures { IfOk result (λ v. v.items ≡ columns.now ++ (rows.now ++ map (dim_named outline.now own.now) slicer.now)) }
{
    let mut dims = Vec::new(alloc);
    dims.extend_from_slice(columns)?;
    dims.extend_from_slice(rows)?;
    said_of_tuple(outline, own, slicer, &mut dims)?;
    Ok(dims)
}

fn members_of(
    alloc: Global,
    outline: &Outline,
    own: &[ExtraMember],
    slicer: &[List<Text>],
) -> Result<Vec<u32>, NoMemory>
    requires { IsNumbered outline.now own.now }
    ensures { IfOk result (λ v. v.items ≡ map (member_named outline.now own.now) slicer.now) }
{
    let mut members = Vec::new(alloc);
    for path in slicer {
        members.push(member_at(outline, own, path.items()))?;
    }
    Ok(members)
}

/// The cells of the axes and the slicer.
fn make_cells(
    alloc: Global,
    outline: &Outline,
    own: &[ExtraMember],
    columns: &AxisTuples,
    rows: &AxisTuples,
    slicer: &[List<Text>],
) -> Result<Vec<Tuple>, NoMemory>
    requires { IsNumbered outline.now own.now }
    ensures { IfOk result (λ v. v.items ≡ cells_over outline.now own.now columns.now rows.now slicer.now) }
{
    let dims = dims_named(
        alloc,
        outline,
        own,
        columns.dims.items(),
        rows.dims.items(),
        slicer,
    )?;
    let members = members_of(alloc, outline, own, slicer)?;
    cells(
        alloc,
        outline,
        &dims,
        columns.rows.items(),
        rows.rows.items(),
        &members,
    )
}

fn make_plan(
    alloc: Global,
    outline: &Outline,
    own: &[ExtraMember],
    query: &Query,
) -> Result<GridPlan, NoMemory>
    requires { IsNumbered outline.now own.now }
    ensures { IfOk result (λ p. p ≡ plan_of outline.now own.now query.now) }
{
    let columns = make_tuples(alloc, outline, own, Purpose::Axis, &query.columns.set)?;
    let rows = row_tuples(alloc, outline, own, query)?;
    let slicer = query.slicer.items();
    let cells = make_cells(alloc, outline, own, &columns, &rows, slicer)?;
    Ok(GridPlan {
        columns,
        rows,
        cells: List::of(cells),
        empty_columns: !query.columns.non_empty,
        empty_rows: empty_rows(query),
    })
}

/// The tuples of a query's axes, and the coordinates of each cell: the member that columns, rows or slicer name in a dimension, or
/// else a base dimension's own member, and in an attribute dimension none. Else it tells the first unknown name, the first name
/// that breaks a rule of dimensions, or the first of the sizes (columns, rows, cells) that is over 100,000. It takes time in
/// proportion to the members that the functions of the text go over and to the coordinates of the cells.
pub fn plan(
    alloc: Global,
    outline: &Outline,
    extra: &Extra,
    query: &Query,
) -> Result<GridPlan, AxisFault>
    ensures planned { IfOk result (λ p. p ≡ plan_of outline.now extra.now.members.items query.now) }
    ensures sized { IfOk result IsSized }
    ensures long { IfOk result (λ p. AreLong outline.now p.cells) }
    ensures accepted { OnOk result (IsTaken outline.now extra.now.members.items query.now) }
    ensures refused { IfErr result (IsQueryRefusal outline.now extra.now.members.items query.now) }
{
    let own = extra.members.as_slice();
    if !are_numbered(outline, own) {
        return Err(AxisFault::NoMemory(NoMemory));
    }
    check(alloc, outline, own, query)?;
    Ok(make_plan(alloc, outline, own, query)?)
}
