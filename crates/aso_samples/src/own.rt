// Members of a query's own.
use aso_formula::read;
use aso_num::Text;
use aso_outline::{Extra, ExtraMember, Outline};
use aso_trials_cases::CaseFault;
use std::alloc::Global;

/// Takes a member with this name, in this dimension, with this formula.
pub fn extend(
    alloc: Global,
    outline: &Outline,
    extra: &mut Extra,
    name: &str,
    dim: u32,
    text: &str,
) -> Result<(), CaseFault> {
    if dim >= outline.dims() {
        return Err(CaseFault::Value);
    }
    let Ok(formula) = read(alloc, outline, dim, text) else {
        return Err(CaseFault::Value);
    };
    let member = ExtraMember {
        name: Text::of(String::from_str(alloc, name)?),
        dim,
        formula,
        solve: 20,
    };
    match outline.extend(alloc, extra, member) {
        Ok(()) => Ok(()),
        Err(_fault) => Err(CaseFault::Value),
    }
}
