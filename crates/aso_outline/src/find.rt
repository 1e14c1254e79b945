// Members by their names.
ghost use Rattle.std.specs.Prelude.{◌≡◌, ◌&&◌, ◌++◌, [], is_some, slice_get, IfOk, OnOk};
ghost use Rattle.std.specs.List.{cons_option};
ghost use Rattle.aso_outline.specs.Members.{seats};
ghost use Rattle.aso_outline.specs.Named.{Finds};
ghost use Rattle.aso_outline.specs.Ranks.{all_named, members_named, named};

use crate::draft::Draft;
use crate::seat::Seat;
use crate::table::NameTable;
use aso_num::{NoMemory, Text};

/// The member of a number.
pub fn seat_at(table: &[Seat], number: u32) -> Option<Seat>
    ensures { result ≡ slice_get table.now number }
{
    table.get(number as usize).copied()
}

/// The member of a name; a shared member has none of its own.
pub fn member_named(_draft: &Draft, table: &[Seat], names: &NameTable, name: &str) -> Option<Seat>
    requires is { table.now ≡ seats _draft.now }
    requires finds { Finds _draft.now names.now }
    ensures { result ≡ named _draft.now name.now }
{
    match names.find(name) {
        Some(number) => seat_at(table, number),
        None => None,
    }
}

/// A member that is found is added. Whether it is, and all before it were.
fn push_found(found: &mut Vec<Seat>, seat: Option<Seat>, all: bool) -> Result<bool, NoMemory>
    ensures known { IfOk result (λ b. b ≡ (is_some seat && all)) }
    ensures added { OnOk result (found.new.items ≡ found.old.items ++ cons_option seat []) }
{
    match seat {
        Some(seat) => {
            found.push(seat)?;
            Ok(all)
        }
        None => Ok(false),
    }
}

/// Puts the members of these names into `found`, in order. Whether each name is that of a member.
pub fn find_all(
    draft: &Draft,
    table: &[Seat],
    names: &NameTable,
    wanted: &[Text],
    found: &mut Vec<Seat>,
) -> Result<bool, NoMemory>
    requires is { table.now ≡ seats draft.now }
    requires finds { Finds draft.now names.now }
    ensures known { IfOk result (λ b. b ≡ all_named draft.now wanted.now) }
    ensures members { OnOk result (found.new.items ≡ members_named draft.now wanted.now) }
{
    found.clear();
    let mut all = true;
    for name in wanted {
        let seat = member_named(draft, table, names, name.as_str());
        let are_known = push_found(found, seat, all)?;
        all = are_known;
    }
    Ok(all)
}
