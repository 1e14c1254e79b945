// Whether a member's rank needs itself, turn by turn: a member reaches a goal within a turn more than one that it needs. It takes
// turns over all members, and is asked only where neither a way back to the member nor the parts of the members tell it.
ghost use Rattle.std.specs.Prelude.{◌≡◌, ◌<◌, ◌||◌, ◌==◌, ◌^◌, ℕ, suc, Bool, true, false, length, map, slice_index_or, IfOk};
ghost use Rattle.std.specs.List.{list_any};
ghost use Rattle.aso_tree.specs.Trees.{places_of};
ghost use Rattle.aso_outline.specs.Graph.{AreRows, reach_in};
ghost use Rattle.aso_outline.specs.Members.{seats};
ghost use Rattle.aso_outline.specs.Ranks.{needs_itself, reaches};

use crate::draft::Draft;
use crate::row::Row;
use aso_num::NoMemory;
use std::alloc::Global;

fn reach_in(reach: &[bool], member: usize) -> bool
    ensures { result ≡ reach_in reach.now member }
{
    match reach.get(member) {
        Some(found) => *found,
        None => false,
    }
}

fn is_near(reach: &[bool], goal: usize, need: usize) -> bool
    ensures { result ≡ (need == goal || reach_in reach.now need) }
{
    need == goal || reach_in(reach, need)
}

fn any_near(reach: &[bool], goal: usize, needs: &[usize]) -> bool
    ensures { result ≡ list_any (λ k. k == goal || reach_in reach.now k) needs.now }
{
    needs.iter().any(|need| is_near(reach, goal, *need))
}

/// The member reaches the goal within one turn more than the table says.
fn next_reach(
    _draft: &Draft,
    rows: &[Row],
    reach: &[bool],
    _turn: u32,
    goal: usize,
    number: u32,
) -> bool
    requires rows { AreRows _draft.now rows.now }
    requires reach { reach.now ≡ map (reaches _turn _draft.now goal) (places_of (seats _draft.now)) }
    requires within { number < length rows.now }
    ensures { result ≡ reaches (suc _turn) _draft.now goal number }
{
    let row = &rows[number as usize];
    any_near(reach, goal, row.needs.as_slice())
}

fn next_table(
    alloc: Global,
    draft: &Draft,
    rows: &[Row],
    reach: &[bool],
    turn: u32,
    goal: usize,
) -> Result<Vec<bool>, NoMemory>
    requires rows { AreRows draft.now rows.now }
    requires reach { reach.now ≡ map (reaches turn draft.now goal) (places_of (seats draft.now)) }
    requires short { length rows.now < 2 ^ 32 }
    ensures { IfOk result (λ v. v.items ≡ map (reaches (suc turn) draft.now goal) (places_of (seats draft.now))) }
{
    let mut next = Vec::new(alloc);
    for number in 0..rows.len() as u32 {
        next.push(next_reach(draft, rows, reach, turn, goal, number))?;
    }
    Ok(next)
}

/// Within no turn nothing is reached.
fn first_table(
    alloc: Global,
    _draft: &Draft,
    rows: &[Row],
    _goal: usize,
) -> Result<Vec<bool>, NoMemory>
    requires rows { AreRows _draft.now rows.now }
    requires short { length rows.now < 2 ^ 32 }
    ensures { IfOk result (λ v. v.items ≡ map (reaches 0 _draft.now _goal) (places_of (seats _draft.now))) }
{
    let reach = vec![in alloc; false; rows.len()]?;
    Ok(reach)
}

fn are_same(a: &[bool], b: &[bool]) -> bool
    requires { length a.now ≡ length b.now }
    ensures { result ≡ true → (k : ℕ) → k < length a.now → slice_index_or a.now k false ≡ slice_index_or b.now k false }
{
    for at in 0..a.len() {
        if a[at] != b[at] {
            return false;
        }
    }
    true
}

/// Which members reach the goal over their needs.
fn reach_table(
    alloc: Global,
    draft: &Draft,
    rows: &[Row],
    goal: usize,
) -> Result<Vec<bool>, NoMemory>
    requires rows { AreRows draft.now rows.now }
    requires short { length rows.now < 2 ^ 32 }
    ensures { IfOk result (λ v. v.items ≡ map (reaches (length (seats draft.now)) draft.now goal) (places_of (seats draft.now))) }
{
    let mut reach = first_table(alloc, draft, rows, goal)?;
    for turn in 0..rows.len() as u32 {
        let next = next_table(alloc, draft, rows, reach.as_slice(), turn, goal)?;
        let is_done = are_same(next.as_slice(), reach.as_slice());
        if is_done {
            return Ok(reach);
        }
        reach = next;
    }
    Ok(reach)
}

/// The rank of the member needs itself.
pub fn is_reached(alloc: Global, draft: &Draft, rows: &[Row], number: u32) -> Result<bool, NoMemory>
    requires rows { AreRows draft.now rows.now }
    requires short { length rows.now < 2 ^ 32 }
    ensures { IfOk result (λ b. b ≡ needs_itself draft.now number) }
{
    let reach = reach_table(alloc, draft, rows, number as usize)?;
    Ok(reach_in(reach.as_slice(), number as usize))
}
