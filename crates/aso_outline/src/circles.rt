// Members whose rank needs itself. A way from a member back to itself shows that it does, and parts in which all that it needs stands
// in earlier ones that it doesn't.
ghost use Rattle.std.specs.Prelude.{◌≡◌, ◌==◌, ◌<◌, ◌^◌, true, length, IfOk};
ghost use Rattle.std.specs.List.{list_any};
ghost use Rattle.aso_outline.specs.Graph.{AreRows};
ghost use Rattle.aso_outline.specs.Parts.{AreInOrder};
ghost use Rattle.aso_outline.specs.Ranks.{needs, needs_itself};

use crate::draft::Draft;
use crate::parts::is_after_needs;
use crate::reaching::is_reached;
use crate::row::{Row, needs_in};
use aso_num::NoMemory;
use std::alloc::Global;

/// The members that a goal leads to, each with one before it on a way from the goal.
#[derive(Debug, Drop)]
struct Ways {
    before: Vec<Option<usize>>,
    open: Vec<usize>,
}

impl Ways {
    fn new(alloc: Global, members: usize, goal: usize) -> Result<Ways, NoMemory> {
        let before = vec![in alloc; None; members]?;
        let open = vec![in alloc; goal]?;
        Ok(Ways { before, open })
    }

    fn before(&self, member: usize) -> Option<usize> {
        match self.before.get(member) {
            Some(before) => *before,
            None => None,
        }
    }

    /// Opens a member that is needed by one on a way, unless it was.
    fn meet(&mut self, member: usize, need: usize) -> Result<(), NoMemory> {
        if let Some(before) = self.before.get_mut(need) {
            if before.is_none() {
                *before = Some(member);
                self.open.push(need)?;
            }
        }
        Ok(())
    }

    /// Goes on from a member. Whether it needs the goal.
    fn go_on(&mut self, row: &Row, goal: usize, member: usize) -> Result<bool, NoMemory> {
        for need in row.needs.as_slice() {
            if *need == goal {
                return Ok(true);
            }
            self.meet(member, *need)?;
        }
        Ok(false)
    }

    /// The first member found that needs the goal.
    fn last(&mut self, rows: &[Row], goal: usize) -> Result<Option<usize>, NoMemory> {
        for _member in 0..rows.len().saturating_add(1) {
            let Some(member) = self.open.pop() else {
                return Ok(None);
            };
            if let Some(row) = rows.get(member) {
                if self.go_on(row, goal, member)? {
                    return Ok(Some(member));
                }
            }
        }
        Ok(None)
    }
}

/// A way from the goal over needs back to it, from its end: the first needs the goal, each later one the one before it, and the
/// last is the goal. It is empty where there is none.
fn way_back(alloc: Global, rows: &[Row], goal: usize) -> Result<Vec<usize>, NoMemory> {
    let mut ways = Ways::new(alloc, rows.len(), goal)?;
    let mut way = Vec::new(alloc);
    let mut next = ways.last(rows, goal)?;
    for _member in 0..rows.len() {
        let Some(member) = next else {
            return Ok(way);
        };
        way.push(member)?;
        next = ways.before(member);
    }
    Ok(way)
}

fn is_in(needs: &[usize], need: usize) -> bool
    ensures { result ≡ list_any (λ k. k == need) needs.now }
{
    needs.iter().any(|other| *other == need)
}

fn does_need(draft: &Draft, rows: &[Row], member: usize, need: usize) -> bool
    requires { AreRows draft.now rows.now }
    ensures { result ≡ list_any (λ k. k == need) (needs draft.now member) }
{
    is_in(needs_in(draft, rows, member), need)
}

/// The way leads from the goal back to it.
fn is_circle(draft: &Draft, rows: &[Row], goal: usize, way: &[usize]) -> bool
    requires { AreRows draft.now rows.now }
    ensures { result ≡ true → needs_itself draft.now goal ≡ true }
{
    let mut next = goal;
    for member in way {
        if !does_need(draft, rows, *member, next) {
            return false;
        }
        if *member == goal {
            return true;
        }
        next = *member;
    }
    false
}

/// The rank of the member needs itself.
pub fn needs_itself(
    alloc: Global,
    draft: &Draft,
    rows: &[Row],
    parts: &[usize],
    number: u32,
) -> Result<bool, NoMemory>
    requires rows { AreRows draft.now rows.now }
    requires short { length rows.now < 2 ^ 32 }
    requires order { AreInOrder draft.now parts.now }
    ensures { IfOk result (λ b. b ≡ needs_itself draft.now number) }
{
    if is_after_needs(draft, rows, parts, number as usize) {
        return Ok(false);
    }
    let way = way_back(alloc, rows, number as usize)?;
    if is_circle(draft, rows, number as usize, way.as_slice()) {
        return Ok(true);
    }
    is_reached(alloc, draft, rows, number)
}
