// Reading the text of a region.
ghost use Rattle.std.specs.Prelude.{◌≡◌, ℕ, List, [], true, IfErr, IfOk};
ghost use Rattle.std.specs.List.{list_all};
ghost use Rattle.aso_outline.specs.declared.draft.Draft.{Draft as Plan};
ghost use Rattle.aso_axes.specs.declared.part.Purpose.TheVariants.{Region as Covers};
ghost use Rattle.aso_axes.specs.Members.{may_have};
ghost use Rattle.aso_axes.specs.Answers.{IsSetRefusal, IsTaken};
ghost use Rattle.aso_axes.specs.Sets.{rows_of as rows_of_set};
ghost use Rattle.aso_mdx.specs.declared.query.SetText.{SetText as Set};
ghost use Rattle.aso_mdx.specs.Answer.{HasFault};
ghost use Rattle.aso_mdx.specs.Grammar.{IsSetFault, SpellsSet};
ghost use Rattle.aso_region.specs.Answers.{IsRead, IsReadRefusal, IsRegion};

use crate::fault::RegionFault;
use crate::region::{Cover, Region};
use crate::rows::rows_of;
use crate::tables::tables_of;
use aso_axes::{AxisFault, AxisTuples, Purpose, tuples_for};
use aso_mdx::{SetText, SyntaxFault, read_set};
use aso_memory::NoMemory;
use aso_outline::{Extra, Outline};
use std::alloc::Global;

fn of_syntax(fault: SyntaxFault) -> RegionFault
    ensures { (o : Plan) (text : List ℕ) → HasFault (IsSetFault text) fault → IsReadRefusal o text result }
{
    match fault {
        SyntaxFault::Syntax { at } => RegionFault::Syntax { at },
        SyntaxFault::NoMemory(e) => RegionFault::NoMemory(e),
    }
}

fn of_axis(fault: AxisFault) -> RegionFault
    ensures { (o : Plan) (text : List ℕ) (set : Set) → SpellsSet text set → IsSetRefusal o [] Covers set fault → IsReadRefusal o text result }
{
    match fault {
        AxisFault::UnknownMember { name } => RegionFault::UnknownMember { name },
        AxisFault::Dimension { name } => RegionFault::Dimension { name },
        AxisFault::TooLarge { cells } => RegionFault::TooLarge { cells },
        AxisFault::NoMemory(e) => RegionFault::NoMemory(e),
    }
}

/// The tuples of a set of stored members.
fn tuples_of(alloc: Global, outline: &Outline, set: &SetText) -> Result<AxisTuples, AxisFault>
    ensures tuples { IfOk result (λ t. t.rows ≡ rows_of_set outline.now [] set.now) }
    ensures allowed { IfOk result (λ t. list_all (list_all (may_have outline.now Covers)) t.rows ≡ true) }
    ensures taken { IfOk result (λ t. IsTaken outline.now [] Covers set.now) }
    ensures refused { IfErr result (IsSetRefusal outline.now [] Covers set.now) }
{
    let extra = Extra::new(alloc);
    tuples_for(alloc, outline, &extra, Purpose::Region, set)
}

/// The region of the tuples of a set.
fn region_of(
    alloc: Global,
    outline: &Outline,
    set: &SetText,
    tuples: &AxisTuples,
) -> Result<Region, NoMemory>
    requires tuples { tuples.now.rows ≡ rows_of_set outline.now [] set.now }
    requires allowed { list_all (list_all (may_have outline.now Covers)) tuples.now.rows ≡ true }
    requires taken { IsTaken outline.now [] Covers set.now }
    ensures { IfOk result (IsRegion outline.now (rows_of_set outline.now [] set.now)) }
{
    let rows = rows_of(alloc, outline, tuples.rows.items())?;
    let tables = tables_of(alloc, outline, rows.items())?;
    Ok(Region::of(Cover { tables, rows }))
}

/// The region that a text spells: a set of stored members of base dimensions, as docs/FORMATS.md says. Else it tells the byte at
/// which the text is no set, the first unknown name, the first name that breaks a rule of dimensions or is that of a computed
/// member or of a member of an attribute dimension, or that there are more than 100,000 tuples. It takes time in proportion to
/// the text, to the members that its functions go over, to the tuples and to the outline's data leaves.
pub fn read(alloc: Global, outline: &Outline, text: &str) -> Result<Region, RegionFault>
    ensures accepted { IfOk result (IsRead outline.now text.now) }
    ensures refused { IfErr result (IsReadRefusal outline.now text.now) }
{
    let set = match read_set(alloc, text) {
        Ok(set) => set,
        Err(fault) => return Err(of_syntax(fault)),
    };
    let tuples = match tuples_of(alloc, outline, &set) {
        Ok(tuples) => tuples,
        Err(fault) => return Err(of_axis(fault)),
    };
    Ok(region_of(alloc, outline, &set, &tuples)?)
}
