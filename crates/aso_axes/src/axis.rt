// The tuples of a set, or why it has none.
ghost use Rattle.std.specs.Prelude.{◌≡◌, ◌<◌, ◌≤◌, length, None, Some, true, map, IfOk, IfErr, OnOk};
ghost use Rattle.std.specs.List.{list_all};
ghost use Rattle.std.specs.Option.{option_map};
ghost use Rattle.aso_axes.specs.declared.part.Purpose.{Purpose as Use};
ghost use Rattle.aso_axes.specs.declared.part.Purpose.TheVariants.{Axis};
ghost use Rattle.aso_axes.specs.Answers.{IsKnown, IsPlaced, IsSetRefusal, IsTaken, counted, tuples_of};
ghost use Rattle.aso_axes.specs.Members.{IsNumbered, may_have};
ghost use Rattle.aso_axes.specs.Sets.{first_unknown as first_unknown_of, paths_of, rows_of, said_of};

use crate::counts::count_rows;
use crate::fault::{AxisFault, AxisTuples};
use crate::names::first_unknown;
use crate::part::Purpose;
use crate::paths::push_paths;
use crate::rows::push_rows;
use crate::said::said_of_set;
use crate::wrong::wrong_in;
use aso_mdx::SetText;
use aso_memory::NoMemory;
use aso_num::{List, Text};
use aso_outline::{Extra, ExtraMember, Outline};
use std::alloc::Global;

/// At most so many tuples make an axis or a region.
pub const MOST_TUPLES: u64 = 100_000;

/// The text of a name.
pub fn copied(alloc: Global, name: &str) -> Result<Text, NoMemory>
    ensures { IfOk result (λ t. t ≡ name.now) }
{
    Ok(Text::of(String::from_str(alloc, name)?))
}

/// Whether each member, the query's own too, has a number of 32 bits. More members are past all memory.
pub fn are_numbered(outline: &Outline, own: &[ExtraMember]) -> bool
    ensures { result ≡ true → IsNumbered outline.now own.now }
{
    own.len() < (u32::MAX - outline.members()) as usize
}

/// The first name of a set that no member has.
fn unknown_name<'a>(
    alloc: Global,
    outline: &Outline,
    own: &[ExtraMember],
    set: &'a SetText,
) -> Result<Option<&'a Text>, NoMemory>
    requires { IsNumbered outline.now own.now }
    ensures { IfOk result (λ found. option_map (λ n. n.now) found ≡ first_unknown_of outline.now own.now (paths_of set.now)) }
{
    let mut paths = Vec::new(alloc);
    push_paths(set, &mut paths)?;
    Ok(first_unknown(outline, own, paths.as_slice()))
}

fn check_names(
    alloc: Global,
    outline: &Outline,
    own: &[ExtraMember],
    set: &SetText,
) -> Result<(), AxisFault>
    requires { IsNumbered outline.now own.now }
    ensures known { OnOk result (IsKnown outline.now own.now set.now) }
    ensures refused { (p : Use) → IfErr result (IsSetRefusal outline.now own.now p set.now) }
{
    match unknown_name(alloc, outline, own, set)? {
        Some(name) => Err(AxisFault::UnknownMember {
            name: copied(alloc, name.as_str())?,
        }),
        None => Ok(()),
    }
}

fn check_dims(
    alloc: Global,
    outline: &Outline,
    own: &[ExtraMember],
    purpose: Purpose,
    set: &SetText,
) -> Result<(), AxisFault>
    requires numbered { IsNumbered outline.now own.now }
    requires known { IsKnown outline.now own.now set.now }
    ensures placed { OnOk result (IsPlaced outline.now own.now purpose set.now) }
    ensures refused { IfErr result (IsSetRefusal outline.now own.now purpose set.now) }
{
    match wrong_in(alloc, outline, own, purpose, set, &[], None)? {
        Some(name) => Err(AxisFault::Dimension {
            name: copied(alloc, name)?,
        }),
        None => Ok(()),
    }
}

fn check_count(
    alloc: Global,
    outline: &Outline,
    own: &[ExtraMember],
    purpose: Purpose,
    set: &SetText,
) -> Result<(), AxisFault>
    requires numbered { IsNumbered outline.now own.now }
    requires placed { IsPlaced outline.now own.now purpose set.now }
    ensures taken { OnOk result (IsTaken outline.now own.now purpose set.now) }
    ensures refused { IfErr result (IsSetRefusal outline.now own.now purpose set.now) }
{
    let cells = count_rows(alloc, outline, own, set)?;
    if cells > MOST_TUPLES {
        return Err(AxisFault::TooLarge { cells });
    }
    Ok(())
}

/// The tuples of a set, however many there are: whether it may have them is judged before.
pub fn make_tuples(
    alloc: Global,
    outline: &Outline,
    own: &[ExtraMember],
    purpose: Purpose,
    set: &SetText,
) -> Result<AxisTuples, NoMemory>
    requires { IsNumbered outline.now own.now }
    ensures { IfOk result (λ t. t ≡ tuples_of outline.now own.now purpose set.now) }
{
    let mut dims = Vec::new(alloc);
    said_of_set(outline, own, purpose, set, &mut dims)?;
    let mut rows = Vec::new(alloc);
    push_rows(alloc, outline, own, set, &mut rows)?;
    Ok(AxisTuples {
        dims: List::of(dims),
        rows: List::of(rows),
    })
}

/// The tuples of a set whose names are known and in their places: each has only members that may be there.
#[tactic(auto, using(crate::proofs::StoredRows::made_may))]
fn placed_tuples(
    alloc: Global,
    outline: &Outline,
    own: &[ExtraMember],
    purpose: Purpose,
    set: &SetText,
) -> Result<AxisTuples, NoMemory>
    requires numbered { IsNumbered outline.now own.now }
    requires placed { IsPlaced outline.now own.now purpose set.now }
    ensures tuples { IfOk result (λ t. t ≡ tuples_of outline.now own.now purpose set.now) }
    ensures allowed { IfOk result (λ t. list_all (list_all (may_have outline.now purpose)) t.rows ≡ true) }
{
    let made = make_tuples(alloc, outline, own, purpose, set)?;
    Ok(made)
}

fn check(
    alloc: Global,
    outline: &Outline,
    own: &[ExtraMember],
    purpose: Purpose,
    set: &SetText,
) -> Result<(), AxisFault>
    requires { IsNumbered outline.now own.now }
    ensures taken { OnOk result (IsTaken outline.now own.now purpose set.now) }
    ensures refused { IfErr result (IsSetRefusal outline.now own.now purpose set.now) }
{
    check_names(alloc, outline, own, set)?;
    check_dims(alloc, outline, own, purpose, set)?;
    check_count(alloc, outline, own, purpose, set)?;
    Ok(())
}

/// The tuples of a set that is read for a purpose, each with one member for each of the set's dimensions, in the order of the
/// text; a crossing runs over its second set fastest. Else it tells the first unknown name, the first name that breaks a rule of
/// dimensions, or that there are more than 100,000 tuples. It takes time in proportion to the members that the functions of the
/// text go over and to the tuples; a member is looked up by a hash of its name.
pub fn tuples_for(
    alloc: Global,
    outline: &Outline,
    extra: &Extra,
    purpose: Purpose,
    set: &SetText,
) -> Result<AxisTuples, AxisFault>
    ensures tuples { IfOk result (λ t. t ≡ tuples_of outline.now extra.now.members.items purpose set.now) }
    ensures allowed { IfOk result (λ t. list_all (list_all (may_have outline.now purpose)) t.rows ≡ true) }
    ensures accepted { OnOk result (IsTaken outline.now extra.now.members.items purpose set.now) }
    ensures refused { IfErr result (IsSetRefusal outline.now extra.now.members.items purpose set.now) }
{
    let own = extra.members.as_slice();
    if !are_numbered(outline, own) {
        return Err(AxisFault::NoMemory(NoMemory));
    }
    check(alloc, outline, own, purpose, set)?;
    Ok(placed_tuples(alloc, outline, own, purpose, set)?)
}

/// The tuples of an axis, which may have any member of the outline or of the query's own.
pub fn tuples(
    alloc: Global,
    outline: &Outline,
    extra: &Extra,
    set: &SetText,
) -> Result<AxisTuples, AxisFault>
    ensures tuples { IfOk result (λ t. t ≡ tuples_of outline.now extra.now.members.items Axis set.now) }
    ensures accepted { OnOk result (IsTaken outline.now extra.now.members.items Axis set.now) }
    ensures refused { IfErr result (IsSetRefusal outline.now extra.now.members.items Axis set.now) }
{
    tuples_for(alloc, outline, extra, Purpose::Axis, set)
}
