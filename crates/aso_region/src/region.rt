ghost use Rattle.std.specs.Prelude.{◌≡◌, ◌==◌, ◌<◌, ◌≤◌, length};
ghost use Rattle.std.specs.Option.{option_copied};
ghost use Rattle.std.specs.List.{find as first};
ghost use Rattle.aso_region.specs.declared.chosen.Chosen.{Chosen as Kept};
ghost use Rattle.aso_region.specs.Kept.{covers_kept, member_in as member_in_row, tuple_member};

use crate::chosen::Chosen;
use crate::cover::any_holds;
use crate::tables::Tables;
use aso_num::List;
use std::marker::Model;

/// The tuples of a region, each member with a range of the data leaves that it holds, and the classes of leaves for the members of
/// hierarchies behind the first.
#[derive(Debug, Drop)]
pub struct Cover {
    pub tables: Tables,
    pub rows: List<List<Chosen>>,
}

/// A region of an outline's cells: all that some tuple covers. It needs no outline to tell of a cell whether it holds it.
#[derive(Debug, Drop)]
pub struct Region {
    cover: Cover,
}

impl Model for Region {
    ghost use Rattle.std.specs.Prelude.{◌≤◌, length};
    ghost use Rattle.aso_region.specs.declared.region.Cover.{Cover};

    ghost Value = { Cover };

    ghost view = { λ r. r.cover };

    ghost invariant = { λ r. length r.cover.rows ≤ 100000 };
}

fn is_in_dim(chosen: &Chosen, dim: u32) -> bool
    ensures { result ≡ (chosen.now.dim == dim) }
{
    chosen.dim == dim
}

fn chosen_in(row: &[Chosen], dim: u32) -> Option<&Chosen>
    ensures { option_copied result ≡ first (λ (c : Kept). c.dim == dim) row.now }
{
    row.iter().find(|chosen| is_in_dim(chosen, dim))
}

/// The member that a tuple has in a base dimension, if it names one.
fn member_in(row: &[Chosen], dim: u32) -> Option<u32>
    ensures { result ≡ member_in_row row.now dim }
{
    match chosen_in(row, dim) {
        Some(chosen) => Some(chosen.member),
        None => None,
    }
}

impl Region {
    ghost use Rattle.std.specs.Prelude.{◌≡◌, ◌<◌, ◌≤◌, length};

    /// The region of at most 100,000 tuples.
    pub(crate) fn of(cover: Cover) -> Region
        requires { length cover.rows ≤ 100000 }
        ensures { result ≡ cover }
    {
        Region { cover }
    }

    /// Whether the cell of these data leaves, the ordinal of one of each base dimension in outline order, lies in some tuple. It takes
    /// at most a few steps for each member of each tuple, and no memory.
    pub fn holds(&self, leaves: &[u32]) -> bool
        ensures { result ≡ covers_kept self.now leaves.now }
    {
        any_holds(self.cover.tables.items(), leaves, self.cover.rows.items())
    }

    /// How many tuples there are, doubles counted.
    pub fn tuples(&self) -> u32
        ensures { result ≡ length self.now.rows }
    {
        self.cover.rows.items().len() as u32
    }

    /// The number of the member that a tuple has in a base dimension, if it names one.
    pub fn member(&self, tuple: u32, dim: u32) -> Option<u32>
        requires { tuple < length self.now.rows }
        ensures { result ≡ tuple_member self.now tuple dim }
    {
        member_in(self.cover.rows.items()[tuple as usize].items(), dim)
    }
}
