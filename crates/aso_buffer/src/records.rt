ghost use Rattle.std.specs.Prelude.{◌≡◌, ◌∷◌, [], ◌++◌, ◌<◌, ◌≤◌, ◌*◌, ◌^◌, length, IfOk, OnOk, OnErr};
ghost use Rattle.aso_keys.specs.Axes.{bits_of};
ghost use Rattle.aso_runs.specs.Runs.{greatest};
ghost use Rattle.aso_runs.specs.Cells.{entries_of};
ghost use Rattle.aso_buffer.specs.Buffers.{HaveKeys, keyed};
ghost use Rattle.aso_buffer.specs.Rows.{Extends, leaves_in, records_of};

use crate::combining::keyed_rows;
use crate::row::Row;
use aso_keys::Layout;
use aso_memory::NoMemory;
use aso_num::{Amount, List};
use aso_runs::Cell;
use std::alloc::Global;
use std::marker::Model;

/// The records of loads in order. To a contract it is the list of their leaves, each with its amount in units of 1/10000. The leaves of
/// all stand in one run of numbers.
#[derive(Debug, Drop)]
pub struct Records {
    leaves: Vec<u32>,
    rows: Vec<Row>,
}

impl Model for Records {
    ghost use Rattle.std.specs.Prelude.{◌≡◌, ℕ, ℤ, List, length};
    ghost use Rattle.aso_buffer.specs.Rows.{leaves_in, records_of};

    ghost Value = { List (List ℕ × ℤ) };

    ghost view = { λ r. records_of r.rows.items r.leaves.items };

    ghost invariant = { λ r. leaves_in r.rows.items ≡ length r.leaves.items };
}

// Adds a record. After want of memory its leaves may be there.
fn push(
    leaves: &mut Vec<u32>,
    rows: &mut Vec<Row>,
    own: &[u32],
    amount: Amount,
) -> Result<(), NoMemory>
    requires { leaves_in rows.old.items ≡ length leaves.old.items }
    ensures added { OnOk result (records_of rows.new.items leaves.new.items ≡ records_of rows.old.items leaves.old.items ++ (own.now, amount) ∷ []) }
    ensures whole { OnOk result (leaves_in rows.new.items ≡ length leaves.new.items) }
    ensures leaves { Extends leaves.old.items leaves.new.items }
    ensures rows { Extends rows.old.items rows.new.items }
{
    leaves.extend_from_slice(own)?;
    rows.push(Row {
        leaves: own.len(),
        amount,
    })?;
    Ok(())
}

// Adds records in order. After want of memory some may be there.
fn push_all(
    leaves: &mut Vec<u32>,
    rows: &mut Vec<Row>,
    amounts: &[(List<u32>, Amount)],
) -> Result<(), NoMemory>
    requires { leaves_in rows.old.items ≡ length leaves.old.items }
    ensures added { OnOk result (records_of rows.new.items leaves.new.items ≡ records_of rows.old.items leaves.old.items ++ amounts.now) }
    ensures whole { OnOk result (leaves_in rows.new.items ≡ length leaves.new.items) }
    ensures leaves { Extends leaves.old.items leaves.new.items }
    ensures rows { Extends rows.old.items rows.new.items }
{
    for amount in amounts {
        push(leaves, rows, amount.0.items(), amount.1)?;
    }
    Ok(())
}

impl Records {
    /// No records. It takes no memory.
    pub(crate) fn new(alloc: Global) -> Records
        ensures { result ≡ [] }
    {
        Records {
            leaves: Vec::new(alloc),
            rows: Vec::new(alloc),
        }
    }

    /// Adds all of them in order, or, for want of memory, none.
    pub(crate) fn put(&mut self, amounts: &[(List<u32>, Amount)]) -> Result<(), NoMemory>
        ensures put { OnOk result (self.new ≡ self.old ++ amounts.now) }
        ensures unchanged { OnErr result (self.new ≡ self.old) }
    {
        let leaves = self.leaves.len();
        let rows = self.rows.len();
        let put = push_all(&mut self.leaves, &mut self.rows, amounts);
        if put.is_err() {
            self.leaves.truncate(leaves);
            self.rows.truncate(rows);
        }
        put
    }

    /// The records in order, each at the key of its leaves.
    pub(crate) fn keyed<const W: usize>(
        &self,
        alloc: Global,
        layout: &Layout,
    ) -> Result<Vec<Cell<W>>, NoMemory>
        requires some { 1 ≤ W }
        requires few { W ≤ 4 }
        requires wide { bits_of layout.now ≤ 64 * W }
        requires keys { HaveKeys layout.now self.now }
        ensures keyed { IfOk result (λ cells. entries_of cells.items ≡ keyed layout.now self.now) }
        ensures small { IfOk result (λ cells. greatest (entries_of cells.items) < 10 ^ 18) }
    {
        keyed_rows(alloc, &self.rows, &self.leaves, layout)
    }
}
