// Additions.
ghost use Rattle.std.specs.Prelude.{◌≡◌, option_map, Some, IfOk, IfSome, IfNone};
ghost use Rattle.aso_script.specs.Script.{Addition as Spelled, Spells};
ghost use Rattle.aso_script.specs.Reading.{read_list, read_behind, read_line};
ghost use Rattle.aso_script.specs.Read.{Gives, addition};

use crate::addition::Addition;
use crate::name::Name;
use crate::parts::{after, amount, before, behind, database, name};
use crate::stop::Stop;
use aso_memory::NoMemory;
use aso_num::List;
use std::alloc::Global;

const MOST_NAMES: u32 = 64;

// Names with commas between them.
fn list<'a>(alloc: Global, text: &'a [u8]) -> Result<(List<Name<'a>>, &'a [u8]), Stop>
    ensures { Gives (λ x. (x.0, x.1.now)) result (read_list text.now) }
{
    let (first, mut rest) = name(text)?;
    let mut names = Vec::new(alloc);
    names.push(first)?;
    for count in 1..MOST_NAMES {
        let Some(further) = after(rest, b",") else {
            return Ok((List::of(names), rest));
        };
        let (found, next) = name(further)?;
        names.push(found)?;
        rest = next;
    }
    Ok((List::of(names), rest))
}

// The addition whose text follows the first two words.
fn behind_words<'a>(alloc: Global, text: &'a [u8]) -> Result<Addition<'a>, Stop>
    ensures { Gives addition result (read_behind text.now) }
{
    let ((app, db), rest) = database(text)?;
    let rest = behind(rest, b" add cell (")?;
    let (names, rest) = list(alloc, rest)?;
    let rest = behind(rest, b") ")?;
    let amount = amount(rest)?;
    Ok(Addition {
        app,
        db,
        names,
        amount,
    })
}

fn spelled<'a>(alloc: Global, line: &'a [u8]) -> Result<Addition<'a>, Stop>
    ensures { Gives addition result (read_line line.now) }
{
    let Some(text) = before(line, b";\n") else {
        return Err(Stop::Faulty);
    };
    let rest = behind(text, b"alter database ")?;
    behind_words(alloc, rest)
}

/// The addition that a line spells, or `None` where it spells none. The line has its LF at its end. It takes time in
/// proportion to the line.
pub fn read_addition<'a>(alloc: Global, line: &'a [u8]) -> Result<Option<Addition<'a>>, NoMemory>
    ensures found { IfOk result (λ r. IfSome r (λ a. Spells line.now (addition a))) }
    ensures only { (a : Spelled) → Spells line.now a → IfOk result (λ r. option_map addition r ≡ Some a) }
    ensures none { IfOk result (λ r. IfNone r ((a : Spelled) → Spells line.now a → ⊥)) }
{
    match spelled(alloc, line) {
        Ok(read) => Ok(Some(read)),
        Err(Stop::Faulty) => Ok(None),
        Err(Stop::NoMemory) => Err(NoMemory),
    }
}
