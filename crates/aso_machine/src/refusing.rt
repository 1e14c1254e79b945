// What a statement is refused for, whatever the cells are.
ghost use Rattle.std.specs.Prelude.{◌≡◌, ◌++◌, codes, IfOk};
ghost use Rattle.std.specs.Option.{option_map};
ghost use Rattle.aso_cellnames.specs.Names.{told, texts};
ghost use Rattle.aso_script.specs.Read.{addition as the_addition};
ghost use Rattle.aso_spec.specs.Grid.{shown};
ghost use Rattle.aso_machine.specs.Machine.{addition_refusal, names_refusal, other_database};
ghost use Rattle.aso_machine.specs.Texts.{text_of};

use aso_cellnames::{first_unknown, put_shown, wrong_in_cell};
use aso_memory::NoMemory;
use aso_outline::Outline;
use aso_script::{Addition, Name};
use std::alloc::Global;

const OTHER_DATABASE: &[u8] = b"202 database: ";

const UNKNOWN: &[u8] = b"203 unknown member: ";

const WRONG: &[u8] = b"216 wrong dimension: ";

// A text, and a name behind it.
fn named_text(alloc: Global, text: &[u8], name: &[u8]) -> Result<Vec<u8>, NoMemory>
    ensures { IfOk result (λ out. out.items ≡ text.now ++ shown name.now) }
{
    let mut out = Vec::from_slice(alloc, text)?;
    put_shown(&mut out, name)?;
    Ok(out)
}

// The same, where there is a name.
fn named_if(alloc: Global, text: &[u8], name: Option<&str>) -> Result<Option<Vec<u8>>, NoMemory>
    ensures { IfOk result (λ out. text_of out ≡ option_map (λ n. text.now ++ shown n) (told name.entry)) }
{
    match name {
        Some(name) => Ok(Some(named_text(alloc, text, name.as_bytes())?)),
        None => Ok(None),
    }
}

fn database_text(alloc: Global, app: &[u8], db: &[u8]) -> Result<Vec<u8>, NoMemory>
    ensures { IfOk result (λ out. out.items ≡ codes "202 database: " ++ (shown app.now ++ shown (codes ".") ++ shown db.now)) }
{
    let mut out = Vec::from_slice(alloc, OTHER_DATABASE)?;
    put_shown(&mut out, app)?;
    put_shown(&mut out, b".")?;
    put_shown(&mut out, db)?;
    Ok(out)
}

/// The refusal for a database that isn't the outline's.
pub fn other_database(
    alloc: Global,
    outline: &Outline,
    app: &str,
    db: &str,
) -> Result<Option<Vec<u8>>, NoMemory>
    ensures { IfOk result (λ out. text_of out ≡ other_database outline.now app.now db.now) }
{
    let own = outline.draft();
    if app == own.app.as_str() && db == own.db.as_str() {
        return Ok(None);
    }
    let text = database_text(alloc, app.as_bytes(), db.as_bytes())?;
    Ok(Some(text))
}

/// The names as texts.
pub fn texts_of<'a>(alloc: Global, names: &'a [Name<'a>]) -> Result<Vec<&'a str>, NoMemory>
    ensures { IfOk result (λ v. texts v.items ≡ names.now) }
{
    let mut texts = Vec::new(alloc);
    for name in names {
        texts.push(name.as_str())?;
    }
    Ok(texts)
}

// The refusal for the first name that is unknown, or else for the name that is wrong.
fn wrong_names(
    alloc: Global,
    outline: &Outline,
    names: &[&str],
) -> Result<Option<Vec<u8>>, NoMemory>
    ensures { IfOk result (λ out. text_of out ≡ names_refusal outline.now (texts names.now)) }
{
    if let Some(name) = first_unknown(outline, names) {
        return Ok(Some(named_text(alloc, UNKNOWN, name.as_bytes())?));
    }
    named_if(alloc, WRONG, wrong_in_cell(alloc, outline, names)?)
}

/// The first refusal of an addition: for its database, for a name that is unknown, for a name that is wrong.
pub fn addition_refusal(
    alloc: Global,
    outline: &Outline,
    addition: &Addition,
    names: &[&str],
) -> Result<Option<Vec<u8>>, NoMemory>
    requires { texts names.now ≡ addition.now.names }
    ensures { IfOk result (λ out. text_of out ≡ addition_refusal outline.now (the_addition addition.now)) }
{
    match other_database(alloc, outline, addition.app.as_str(), addition.db.as_str())? {
        Some(text) => Ok(Some(text)),
        None => wrong_names(alloc, outline, names),
    }
}
