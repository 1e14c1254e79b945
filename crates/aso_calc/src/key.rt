// The lists of numbers under which tuples are found.
ghost use Rattle.std.specs.Prelude.{◌≡◌, ◌++◌, ◌∷◌, map, IfOk, OnOk};
ghost use Rattle.aso_calc.specs.Keys.{attr_code, key_of};

use aso_memory::NoMemory;
use std::alloc::Global;

fn attr_code(attr: Option<u32>) -> u64
    ensures { result ≡ attr_code attr }
{
    match attr {
        Some(member) => u64::from(member) + 1,
        None => 0,
    }
}

/// Adds the members.
fn push_members(members: &[u32], key: &mut Vec<u64>) -> Result<(), NoMemory>
    ensures { OnOk result (key.new.items ≡ key.old.items ++ members.now) }
{
    for member in members {
        key.push(u64::from(*member))?;
    }
    Ok(())
}

fn push_attrs(attrs: &[Option<u32>], key: &mut Vec<u64>) -> Result<(), NoMemory>
    ensures { OnOk result (key.new.items ≡ key.old.items ++ map attr_code attrs.now) }
{
    for attr in attrs {
        key.push(attr_code(*attr))?;
    }
    Ok(())
}

/// Adds how many members there are, the members, and the attributes asked.
fn push_key(base: &[u32], attrs: &[Option<u32>], key: &mut Vec<u64>) -> Result<(), NoMemory>
    ensures { OnOk result (key.new.items ≡ key.old.items ++ key_of base.now attrs.now) }
{
    key.push(base.len() as u64)?;
    push_members(base, key)?;
    push_attrs(attrs, key)
}

/// The list of numbers of a tuple.
pub fn key_of(alloc: Global, base: &[u32], attrs: &[Option<u32>]) -> Result<Vec<u64>, NoMemory>
    ensures { IfOk result (λ k. k.items ≡ key_of base.now attrs.now) }
{
    let mut key = Vec::new(alloc);
    push_key(base, attrs, &mut key)?;
    Ok(key)
}

/// That of a tuple below a bound on ranks.
pub fn step_key(
    alloc: Global,
    ranks: u32,
    base: &[u32],
    attrs: &[Option<u32>],
) -> Result<Vec<u64>, NoMemory>
    ensures { IfOk result (λ k. k.items ≡ ranks ∷ key_of base.now attrs.now) }
{
    let mut key = Vec::new(alloc);
    key.push(u64::from(ranks))?;
    push_key(base, attrs, &mut key)?;
    Ok(key)
}
