// Ranks: a member's follows once all that it needs have theirs, so needs are followed down first.
ghost use Rattle.std.specs.Prelude.{◌≡◌, ◌<◌, ◌+◌, ◌^◌, ℕ, suc, List, Option, None, Some, max, true, length, map, IfOk, IfSome, OnOk};
ghost use Rattle.aso_outline.specs.Graph.{AreKnown, AreRanks, AreRows, HasTurns, IsClosed, rank_after, rank_in};
ghost use Rattle.aso_outline.specs.Ranks.{greatest_rank, rank, rank_from};

use crate::draft::Draft;
use crate::row::{Row, Standing};
use crate::walk::{Step, Walk};
use aso_num::NoMemory;
use std::alloc::Global;

fn rank_in(ranks: &[Option<u32>], member: usize) -> Option<u32>
    ensures { result ≡ rank_in ranks.now member }
{
    match ranks.get(member) {
        Some(rank) => *rank,
        None => Some(0),
    }
}

fn larger(a: u32, b: u32) -> u32
    ensures { result ≡ max a b }
{
    if a < b { b } else { a }
}

/// The greatest rank of some members, where all have one.
fn greatest(ranks: &[Option<u32>], needs: &[usize]) -> Option<u32>
    ensures { result ≡ greatest_rank (map (rank_in ranks.now) needs.now) }
{
    let mut most = 0;
    for need in needs {
        match rank_in(ranks, *need) {
            Some(rank) => most = larger(most, rank),
            None => return None,
        }
    }
    Some(most)
}

fn rank_from(standing: Standing, below: Option<u32>) -> Option<u32>
    requires { IfSome (rank_from standing below) (λ r. r < 2 ^ 32) }
    ensures { result ≡ rank_from standing below }
{
    match standing {
        Standing::Stored => Some(0),
        Standing::Label => below,
        Standing::Computed => match below {
            Some(rank) => Some(rank + 1),
            None => None,
        },
    }
}

/// The rank of a member, where the table has those that it needs.
fn rank_after(_draft: &Draft, rows: &[Row], ranks: &[Option<u32>], number: usize) -> Option<u32>
    requires rows { AreRows _draft.now rows.now }
    requires known { AreKnown _draft.now ranks.now }
    requires short { length rows.now < 2 ^ 32 }
    requires within { number < length rows.now }
    ensures value { result ≡ rank_after _draft.now ranks.now number }
    ensures right { (r : ℕ) → result ≡ Some r → rank _draft.now number ≡ Some r }
{
    let row = &rows[number];
    rank_from(row.standing, greatest(ranks, row.needs.as_slice()))
}

/// Writes the rank of a member into the table, where it follows from the others.
fn settle(draft: &Draft, rows: &[Row], ranks: &mut Vec<Option<u32>>, number: usize)
    requires rows { AreRows draft.now rows.now }
    requires known { AreKnown draft.now ranks.old.items }
    requires short { length rows.now < 2 ^ 32 }
    requires within { number < length rows.now }
    ensures known { AreKnown draft.now ranks.new.items }
    ensures kept { (k r : ℕ) → rank_in ranks.old.items k ≡ Some r → rank_in ranks.new.items k ≡ Some r }
    ensures found { (r : ℕ) → rank_after draft.now ranks.old.items number ≡ Some r → rank_in ranks.new.items number ≡ Some r }
{
    let rank = rank_after(draft, rows, ranks.as_slice(), number);
    if rank.is_some() {
        ranks[number] = rank;
    }
}

/// Takes one step down the needs. A member whose needs were all gone down to is settled.
fn take_step(
    draft: &Draft,
    rows: &[Row],
    ranks: &mut Vec<Option<u32>>,
    walk: &mut Walk,
    step: Step,
) -> Result<(), NoMemory>
    requires rows { AreRows draft.now rows.now }
    requires known { AreKnown draft.now ranks.old.items }
    requires short { length rows.now < 2 ^ 32 }
    ensures known { OnOk result (AreKnown draft.now ranks.new.items) }
{
    if !walk.is_entered(step) {
        return Ok(());
    }
    if let Some(row) = rows.get(step.member) {
        match row.needs.get(step.next) {
            Some(need) => walk.go_down(step, *need)?,
            None => settle(draft, rows, ranks, step.member),
        }
    }
    Ok(())
}

/// Settles each member after those that it needs, so far as it leads to no circle.
fn settle_down(
    alloc: Global,
    draft: &Draft,
    rows: &[Row],
    ranks: &mut Vec<Option<u32>>,
) -> Result<(), NoMemory>
    requires rows { AreRows draft.now rows.now }
    requires known { AreKnown draft.now ranks.old.items }
    requires short { length rows.now < 2 ^ 32 }
    ensures known { OnOk result (AreKnown draft.now ranks.new.items) }
{
    let mut walk = Walk::new(alloc, rows.len())?;
    for _step in 0..Walk::steps(rows) {
        match walk.next() {
            Some(step) => take_step(draft, rows, ranks, &mut walk, step)?,
            None => return Ok(()),
        }
    }
    Ok(())
}

/// No further rank follows from the table.
fn is_closed(draft: &Draft, rows: &[Row], ranks: &[Option<u32>]) -> bool
    requires rows { AreRows draft.now rows.now }
    requires known { AreKnown draft.now ranks.now }
    requires short { length rows.now < 2 ^ 32 }
    ensures { result ≡ true → IsClosed draft.now ranks.now }
{
    for number in 0..rows.len() {
        if rank_in(ranks, number).is_none() && rank_after(draft, rows, ranks, number).is_some() {
            return false;
        }
    }
    true
}

/// One turn over all members.
fn settle_all(draft: &Draft, rows: &[Row], ranks: &mut Vec<Option<u32>>, _turn: usize)
    requires rows { AreRows draft.now rows.now }
    requires known { AreKnown draft.now ranks.old.items }
    requires short { length rows.now < 2 ^ 32 }
    requires turns { HasTurns draft.now _turn ranks.old.items }
    ensures known { AreKnown draft.now ranks.new.items }
    ensures turns { HasTurns draft.now (_turn + 1) ranks.new.items }
{
    for number in 0..rows.len() {
        settle(draft, rows, ranks, number);
    }
}

/// No rank is known yet.
fn unknown(alloc: Global, _draft: &Draft, rows: &[Row]) -> Result<Vec<Option<u32>>, NoMemory>
    requires rows { AreRows _draft.now rows.now }
    ensures { IfOk result (λ v. AreKnown _draft.now v.items) }
{
    let mut ranks = Vec::new(alloc);
    for _member in 0..rows.len() {
        ranks.push(None)?;
    }
    Ok(ranks)
}

/// The rank of each member, in the order of the numbers; none for a member that leads to a circle of needs. Needs are followed
/// down once, which finds all ranks; that none is lacking is seen by one more pass, and turns over all members would follow.
pub fn ranks(alloc: Global, draft: &Draft, rows: &[Row]) -> Result<Vec<Option<u32>>, NoMemory>
    requires rows { AreRows draft.now rows.now }
    requires short { length rows.now < 2 ^ 32 }
    ensures { IfOk result (λ v. AreRanks draft.now v.items) }
{
    let mut ranks = unknown(alloc, draft, rows)?;
    settle_down(alloc, draft, rows, &mut ranks)?;
    for turn in 0..rows.len() + 1 {
        let is_done = is_closed(draft, rows, ranks.as_slice());
        if is_done {
            return Ok(ranks);
        }
        settle_all(draft, rows, &mut ranks, turn);
    }
    Ok(ranks)
}
