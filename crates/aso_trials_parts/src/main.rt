//! Trials of the lowest parts: numbers in bytes, the outside in memory, amounts and values, words of keys, runs of cells, trees, and
//! tokens. What each case of a file gives is printed behind its title.
#![tactic(auto)]

mod bytes;
mod devices;
mod libraries;
mod numbers;
mod parts;
mod putting;
mod reading;
mod runs;
mod tokens;
mod trees;
mod words;

use aso_trials_cases::CaseFault;
use parts::Part;
use putting::put_all;

fn main(rt: HostRuntime) -> Result<(), CaseFault> {
    put_all(&rt, Part::Unsigned, "unsigned.json")?;
    put_all(&rt, Part::Front, "fronts.json")?;
    put_all(&rt, Part::Signed, "signed.json")?;
    put_all(&rt, Part::Fixed, "fixed.json")?;
    put_all(&rt, Part::Library, "libraries.json")?;
    put_all(&rt, Part::Sink, "sinks.json")?;
    put_all(&rt, Part::Device, "devices.json")?;
    put_all(&rt, Part::Amount, "amounts.json")?;
    put_all(&rt, Part::Value, "values.json")?;
    put_all(&rt, Part::Arithmetic, "sums.json")?;
    put_all(&rt, Part::Arithmetic, "products.json")?;
    put_all(&rt, Part::Arithmetic, "quotients.json")?;
    put_all(&rt, Part::Words, "fields.json")?;
    put_all(&rt, Part::Words, "pairs.json")?;
    put_all(&rt, Part::Words, "keys.json")?;
    put_all(&rt, Part::Width, "widths.json")?;
    put_all(&rt, Part::Fold, "folds.json")?;
    put_all(&rt, Part::Runs, "runs.json")?;
    put_all(&rt, Part::Tree, "trees.json")?;
    put_all(&rt, Part::Tokens, "tokens.json")?;
    put_all(&rt, Part::Number, "numbers.json")
}
