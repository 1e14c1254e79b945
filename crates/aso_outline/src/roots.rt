// O5: the names of roots, the first hierarchy, a data leaf for each dimension.
ghost use Rattle.std.specs.Prelude.{◌≡◌};
ghost use Rattle.aso_outline.specs.Members.{same_name, dim_at};
ghost use Rattle.aso_outline.specs.Rules.{breaks_roots, is_alone, attr_name};
ghost use Rattle.aso_outline.specs.Small.{HasTrees};

use crate::draft::Draft;
use crate::labels::is_dynamic;
use crate::leaves::has_data_leaf;
use crate::look::{dim_name, name_at};
use crate::seat::Seat;

pub fn same_name(a: &str, b: &str) -> bool
    ensures { result ≡ same_name a.now b.now }
{
    a == b
}

fn is_alone(draft: &Draft, dim: u32) -> bool
    ensures { result ≡ is_alone (dim_at draft.now dim) }
{
    match draft.dims.items().get(dim as usize) {
        Some(dim) => dim.hiers.items().len() == 1,
        None => false,
    }
}

fn attr_name(draft: &Draft, attr: u32) -> &str
    ensures { result.now ≡ attr_name draft.now attr }
{
    match draft.attrs.items().get(attr as usize) {
        Some(attr) => attr.name.as_str(),
        None => "",
    }
}

/// The root of the first hierarchy breaks the rule.
fn breaks_first_root(draft: &Draft, dim: u32, seat: Seat) -> bool
    requires trees { HasTrees draft.now }
    requires is { seat ≡ Seat.Inner dim 0 0 }
    ensures { result ≡ breaks_roots draft.now seat }
{
    if is_alone(draft, dim) {
        !(same_name(name_at(draft, seat), dim_name(draft, dim)) && has_data_leaf(draft, dim))
    } else {
        is_dynamic(draft, seat)
    }
}

/// O5: a root of another name, a first hierarchy of several that isn't stored, a dimension without a data leaf.
pub fn breaks_roots(draft: &Draft, seat: Seat) -> bool
    requires { HasTrees draft.now }
    ensures { result ≡ breaks_roots draft.now seat }
{
    match seat {
        Seat::Whole { dim } => !has_data_leaf(draft, dim),
        Seat::Inner {
            dim,
            hier: 0,
            at: 0,
        } => breaks_first_root(draft, dim, seat),
        Seat::Inner { .. } => false,
        Seat::Carried { attr, at: 0 } => !same_name(name_at(draft, seat), attr_name(draft, attr)),
        Seat::Carried { .. } => false,
    }
}
