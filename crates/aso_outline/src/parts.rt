// The members in parts by their needs, after Tarjan 1972: members of one circle are in one part, and what a member needs is in no
// later part. One walk down the needs finds them. No proof rests on that walk: one more pass sees that the parts are in order.
ghost use Rattle.std.specs.Prelude.{◌≡◌, true, nat_le, nat_lt, IfOk};
ghost use Rattle.std.specs.List.{list_all};
ghost use Rattle.aso_outline.specs.Graph.{AreRows};
ghost use Rattle.aso_outline.specs.Parts.{AreInOrder, is_after_needs, is_in_order, part_in};

use crate::draft::Draft;
use crate::row::{Row, needs_in};
use crate::walk::{Step, Walk};
use aso_num::NoMemory;
use std::alloc::Global;

/// The parts that are found so far.
#[derive(Debug, Drop)]
struct Found {
    /// In which turn a member was entered, from 1; 0 before it is.
    turns: Vec<usize>,
    /// The earliest turn of a member of its part that it is known to lead to.
    earliest: Vec<usize>,
    /// The members that were entered and whose part isn't whole, in the order of their turns.
    open: Vec<usize>,
    /// The part of a member, from 1; 0 before it is whole.
    parts: Vec<usize>,
    turn: usize,
    part: usize,
}

fn number_at(numbers: &[usize], member: usize) -> usize {
    match numbers.get(member) {
        Some(number) => *number,
        None => 0,
    }
}

fn put(numbers: &mut Vec<usize>, member: usize, number: usize) {
    if let Some(place) = numbers.get_mut(member) {
        *place = number;
    }
}

impl Found {
    fn new(alloc: Global, members: usize) -> Result<Found, NoMemory> {
        Ok(Found {
            turns: vec![in alloc; 0; members]?,
            earliest: vec![in alloc; 0; members]?,
            open: Vec::new(alloc),
            parts: vec![in alloc; 0; members]?,
            turn: 0,
            part: 0,
        })
    }

    fn enter(&mut self, member: usize) -> Result<(), NoMemory> {
        self.turn = self.turn.saturating_add(1);
        put(&mut self.turns, member, self.turn);
        put(&mut self.earliest, member, self.turn);
        self.open.push(member)?;
        Ok(())
    }

    /// Back from a member that it needs: it leads wherever that one leads.
    fn come_back(&mut self, member: usize, need: usize) {
        let own = number_at(self.earliest.as_slice(), member);
        let reached = number_at(self.earliest.as_slice(), need);
        if number_at(self.parts.as_slice(), need) == 0 && reached < own {
            put(&mut self.earliest, member, reached);
        }
    }

    /// After all that it needs: where it leads to none before it, all that was entered since and is open makes a part with it.
    fn close(&mut self, member: usize) {
        let turn = number_at(self.turns.as_slice(), member);
        if number_at(self.earliest.as_slice(), member) < turn {
            return;
        }
        self.part = self.part.saturating_add(1);
        for _open in 0..self.open.len() {
            match self.open.pop() {
                Some(last) => {
                    put(&mut self.parts, last, self.part);
                    if last == member {
                        return;
                    }
                }
                None => return,
            }
        }
    }

    fn take_step(&mut self, rows: &[Row], walk: &mut Walk, step: Step) -> Result<(), NoMemory> {
        if !walk.is_entered(step) {
            return Ok(());
        }
        let Some(row) = rows.get(step.member) else {
            return Ok(());
        };
        if step.next == 0 {
            self.enter(step.member)?;
        } else if let Some(need) = row.needs.get(step.next - 1) {
            self.come_back(step.member, *need);
        }
        match row.needs.get(step.next) {
            Some(need) => walk.go_down(step, *need)?,
            None => self.close(step.member),
        }
        Ok(())
    }
}

fn find_parts(alloc: Global, rows: &[Row]) -> Result<Vec<usize>, NoMemory> {
    let mut walk = Walk::new(alloc, rows.len())?;
    let mut found = Found::new(alloc, rows.len())?;
    for _step in 0..Walk::steps(rows) {
        match walk.next() {
            Some(step) => found.take_step(rows, &mut walk, step)?,
            None => return Ok(found.parts),
        }
    }
    Ok(found.parts)
}

fn part_in(parts: &[usize], member: usize) -> usize
    ensures { result ≡ part_in parts.now member }
{
    match parts.get(member) {
        Some(part) => *part,
        None => 0,
    }
}

fn is_within(parts: &[usize], part: usize, need: usize) -> bool
    ensures { result ≡ nat_le (part_in parts.now need) part }
{
    part_in(parts, need) <= part
}

fn are_within(parts: &[usize], part: usize, needs: &[usize]) -> bool
    ensures { result ≡ list_all (λ m. nat_le (part_in parts.now m) part) needs.now }
{
    needs.iter().all(|need| is_within(parts, part, *need))
}

fn is_before(parts: &[usize], part: usize, need: usize) -> bool
    ensures { result ≡ nat_lt (part_in parts.now need) part }
{
    part_in(parts, need) < part
}

fn are_before(parts: &[usize], part: usize, needs: &[usize]) -> bool
    ensures { result ≡ list_all (λ m. nat_lt (part_in parts.now m) part) needs.now }
{
    needs.iter().all(|need| is_before(parts, part, *need))
}

fn is_in_order(draft: &Draft, rows: &[Row], parts: &[usize], number: usize) -> bool
    requires { AreRows draft.now rows.now }
    ensures { result ≡ is_in_order draft.now parts.now number }
{
    are_within(parts, part_in(parts, number), needs_in(draft, rows, number))
}

/// Each member that it needs is in an earlier part, so it is in no circle.
pub fn is_after_needs(draft: &Draft, rows: &[Row], parts: &[usize], number: usize) -> bool
    requires { AreRows draft.now rows.now }
    ensures { result ≡ is_after_needs draft.now parts.now number }
{
    are_before(parts, part_in(parts, number), needs_in(draft, rows, number))
}

fn are_in_order(draft: &Draft, rows: &[Row], parts: &[usize]) -> bool
    requires { AreRows draft.now rows.now }
    ensures { result ≡ true → AreInOrder draft.now parts.now }
{
    for number in 0..rows.len() {
        if !is_in_order(draft, rows, parts, number) {
            return false;
        }
    }
    true
}

fn no_parts(alloc: Global, _draft: &Draft) -> Vec<usize>
    ensures { AreInOrder _draft.now result.items }
{
    Vec::new(alloc)
}

/// The part of each member, in the order of the numbers; none is given where each member has a rank.
pub fn parts(
    alloc: Global,
    draft: &Draft,
    rows: &[Row],
    ranks: &[Option<u32>],
) -> Result<Vec<usize>, NoMemory>
    requires { AreRows draft.now rows.now }
    ensures { IfOk result (λ v. AreInOrder draft.now v.items) }
{
    if ranks.iter().all(|rank| rank.is_some()) {
        return Ok(no_parts(alloc, draft));
    }
    let found = find_parts(alloc, rows)?;
    if are_in_order(draft, rows, found.as_slice()) {
        return Ok(found);
    }
    Ok(no_parts(alloc, draft))
}
