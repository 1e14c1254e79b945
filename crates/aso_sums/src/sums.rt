ghost use Rattle.std.specs.Prelude.{◌≡◌, ◌<◌, ◌+◌, ◌^◌, false, length, slice_index_or};
ghost use Rattle.std.specs.List.{All, list_all};
ghost use Rattle.aso_num.specs.Amount.{IsAmount};
ghost use Rattle.aso_num.specs.Numbers.{sum_of};
ghost use Rattle.aso_sums.specs.Summing.{IsWithin, row_passes, values_with};

use crate::asked::Asked;
use crate::leaves::all_passes;
use crate::rows::rows_of;
use aso_memory::NoMemory;
use aso_num::{Amount, List, Val};
use aso_outline::{Outline, Tuple};
use std::alloc::Global;

/// The stored values of tuples over the cells that were added so far, of which it keeps none.
#[derive(Debug, Drop)]
pub struct Sums {
    pub(crate) asked: Vec<u32>,
    pub(crate) rows: Vec<Option<List<u32>>>,
    pub(crate) values: Vec<Val>,
    pub(crate) count: u64,
}

fn plus(value: Val, amount: Amount) -> Val
    requires { IsWithin (2 ^ 64) value }
    ensures value { result ≡ sum_of value (Val.Num amount) }
    ensures range { IsAmount amount }
{
    let units = i128::from(amount.units());
    match value {
        Val::Missing => Val::Num(units),
        Val::Num(sum) => Val::Num(sum + units),
    }
}

fn is_marked(marks: &[bool], place: u32) -> bool
    ensures { result ≡ slice_index_or marks.now place false }
{
    match marks.get(place as usize) {
        Some(mark) => *mark,
        None => false,
    }
}

fn are_marked(marks: &[bool], places: &[u32]) -> bool
    ensures { result ≡ list_all (λ k. slice_index_or marks.now k false) places.now }
{
    for place in places {
        if !is_marked(marks, *place) {
            return false;
        }
    }
    true
}

// The row's places all have the mark.
fn row_passes(marks: &[bool], row: &Option<List<u32>>) -> bool
    ensures { result ≡ row_passes marks.now row.now }
{
    match row {
        Some(places) => are_marked(marks, places.items()),
        None => false,
    }
}

// Adds an amount to the values whose rows pass.
fn add_where(
    marks: &[bool],
    amount: Amount,
    rows: &[Option<List<u32>>],
    values: &mut Vec<Val>,
    count: u64,
)
    requires each { length rows.now ≡ length values.old.items }
    requires within { All (IsWithin count) values.old.items }
    requires room { count + 1 < 2 ^ 64 }
    ensures value { values.new.items ≡ values_with marks.now amount rows.now values.old.items }
    ensures within { All (IsWithin (count + 1)) values.new.items }
{
    for at in 0..rows.len() {
        if row_passes(marks, &rows[at]) {
            values[at] = plus(values[at], amount);
        }
    }
}

impl Sums {
    ghost use Rattle.std.specs.Prelude.{◌≡◌, ◌++◌, ◌∷◌, [], map, List as Items, IfOk, OnOk, OnErr};
    ghost use Rattle.aso_outline.specs.declared.draft.Tuple.{Tuple as Coordinates};
    ghost use Rattle.aso_spec.specs.Cells.{Cells};
    ghost use Rattle.aso_sums.specs.Stored.{stored_value};
    ghost use Rattle.aso_sums.specs.Summing.{AreLeaves, AreSums, HasSums};

    /// The sums of these tuples over no cells.
    pub fn new(alloc: Global, outline: &Outline, tuples: &[Tuple]) -> Result<Sums, NoMemory>
        ensures { IfOk result (HasSums outline.now tuples.now []) }
    {
        let mut asked = Asked::new(alloc, outline)?;
        let rows = rows_of(alloc, outline, &mut asked, tuples)?;
        let mut values = Vec::new(alloc);
        for _tuple in tuples {
            values.push(Val::Missing)?;
        }
        Ok(Sums {
            asked: asked.members,
            rows,
            values,
            count: 0,
        })
    }

    /// Adds a cell's amount, in units of 1/10000, to each tuple that covers it. The leaves are one for each base dimension, in outline
    /// order, each by its ordinal. Where no memory is left the sums stay as they were. It takes time in proportion to the tuples.
    pub fn add(
        &mut self,
        alloc: Global,
        outline: &Outline,
        leaves: &[u32],
        amount: Amount,
    ) -> Result<(), NoMemory>
        requires sums { AreSums outline.now self.old }
        requires leaves { AreLeaves outline.now leaves.now }
        ensures added { OnOk result ((tuples : Items Coordinates) (cells : Cells) → HasSums outline.now tuples cells self.old → HasSums outline.now tuples (cells ++ (leaves.now, amount) ∷ []) self.new) }
        ensures keeps { OnOk result (AreSums outline.now self.new) }
        ensures unchanged { OnErr result (self.new ≡ self.old) }
    {
        if self.count == u64::MAX {
            return Err(NoMemory);
        }
        let marks = all_passes(alloc, outline, leaves, &self.asked)?;
        add_where(&marks, amount, &self.rows, &mut self.values, self.count);
        self.count += 1;
        Ok(())
    }

    /// The values, in the order of the tuples.
    pub fn into_values(self) -> Vec<Val>
        ensures { result ≡ self.values }
    {
        self.values
    }
}
