// Both axes of a sheet, as those of a query.
ghost use Rattle.std.specs.Prelude.{◌≡◌, map, IfOk};
ghost use Rattle.aso_sheettext.specs.Texts.{names as the_names, sheet as the_sheet};
ghost use Rattle.aso_eval.specs.Sheets.{axes_query as axes_query_of, axis_of as axis_of_names, member_text as member_text_of};

use aso_axes::copied;
use aso_mdx::{Axis, Query, SetText};
use aso_memory::NoMemory;
use aso_num::List;
use aso_sheettext::SheetText;
use sqlite_items::Items;
use std::alloc::Global;

fn member_text(alloc: Global, name: &str) -> Result<SetText, NoMemory>
    ensures { IfOk result (λ s. s ≡ member_text_of name.now) }
{
    let mut path = Vec::new(alloc);
    path.push(copied(alloc, name)?)?;
    Ok(SetText::Member(List::of(path)))
}

fn axis_of(alloc: Global, names: &[&str]) -> Result<Axis, NoMemory>
    ensures { IfOk result (λ a. a ≡ axis_of_names (the_names names.now)) }
{
    let mut members = Vec::new(alloc);
    for name in names {
        members.push(member_text(alloc, name)?)?;
    }
    Ok(Axis {
        non_empty: false,
        set: SetText::Braced(Items::from_vec(members)),
    })
}

/// Both axes of a sheet as those of a query.
pub fn axes_query(alloc: Global, sheet: &SheetText) -> Result<Query, NoMemory>
    ensures { IfOk result (λ q. q ≡ axes_query_of (the_sheet sheet.now)) }
{
    let columns = axis_of(alloc, &sheet.columns)?;
    let rows = axis_of(alloc, &sheet.rows)?;
    Ok(Query {
        own: List::of(Vec::new(alloc)),
        columns,
        rows: Some(rows),
        app: copied(alloc, sheet.outline.app)?,
        db: copied(alloc, sheet.outline.db)?,
        slicer: List::of(Vec::new(alloc)),
    })
}
