ghost use Rattle.std.specs.Prelude.{◌≡◌, [], IfOk};
ghost use Rattle.aso_load.specs.Leaves.{StandAtLeaves};
ghost use Rattle.aso_load.specs.Records.{loaded};

use crate::gather::gather;
use crate::loaded::Loaded;
use crate::reader::{open, pass_over};
use aso_num::{List, NoMemory};
use aso_outline::Outline;
use aso_rules::Rules;
use csv::ByteRecord;
use std::alloc::Global;

fn nothing(alloc: Global) -> Loaded
    ensures { result ≡ record { amounts = []; rejects = []; skipped = 0 } }
{
    Loaded {
        amounts: List::of(Vec::new(alloc)),
        rejects: List::of(Vec::new(alloc)),
        skipped: 0,
    }
}

fn load_records(
    alloc: Global,
    outline: &Outline,
    rules: &Rules,
    csv: &[u8],
) -> Result<Loaded, NoMemory>
    ensures { IfOk result (λ l. l ≡ loaded outline.now rules.now csv.now) }
{
    let mut reader = open(alloc, rules.delimiter, csv);
    let mut fields = ByteRecord::new(alloc);
    if !pass_over(rules.header_records, &mut reader, &mut fields)? {
        return Ok(nothing(alloc));
    }
    let first = u64::from(rules.header_records) + 1;
    let gathered = gather(alloc, outline, rules, first, &mut reader, &mut fields)?;
    Ok(Loaded {
        amounts: List::of(gathered.amounts),
        rejects: List::of(gathered.rejects),
        skipped: gathered.skipped,
    })
}

/// What the records of a data file come to under the rules for an outline: the amounts of the records that are loaded, the records
/// that are rejected, each for the first reason that holds, and how many are skipped. docs/FORMATS.md has the reasons. Whatever the
/// rules are, each amount stands at a data leaf of each base dimension.
pub fn load(alloc: Global, outline: &Outline, rules: &Rules, csv: &[u8]) -> Result<Loaded, NoMemory>
    ensures loaded { IfOk result (λ l. l ≡ loaded outline.now rules.now csv.now) }
    ensures leaves { IfOk result (λ l. StandAtLeaves outline.now l.amounts) }
{
    outline.keeps_leaves();
    load_records(alloc, outline, rules, csv)
}
