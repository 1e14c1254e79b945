// A walk down the needs of members. It says in which order members are best looked at, and nothing rests on that order.
use crate::row::Row;
use aso_num::NoMemory;
use std::alloc::Global;

/// A member on the way down, and which of its needs is next.
#[derive(Clone, Copy, Debug, PartialEq, Eq)]
pub struct Step {
    pub member: usize,
    pub next: usize,
}

/// The steps that are still to be taken, the last first, and which members were entered.
#[derive(Debug, Drop)]
pub struct Walk {
    steps: Vec<Step>,
    entered: Vec<bool>,
}

impl Walk {
    /// A walk that is to enter each of so many members.
    pub fn new(alloc: Global, members: usize) -> Result<Walk, NoMemory> {
        let mut steps = Vec::new(alloc);
        for member in 0..members {
            steps.push(Step { member, next: 0 })?;
        }
        let entered = vec![in alloc; false; members]?;
        Ok(Walk { steps, entered })
    }

    /// At most so many steps are taken: two for each member and two for each need.
    pub fn steps(rows: &[Row]) -> usize {
        let mut steps: usize = 0;
        for row in rows {
            steps = steps.saturating_add(row.needs.len().saturating_add(1).saturating_mul(2));
        }
        steps
    }

    pub fn next(&mut self) -> Option<Step> {
        self.steps.pop()
    }

    /// Whether the member of the step is entered now, or was and goes on.
    pub fn is_entered(&mut self, step: Step) -> bool {
        if step.next > 0 {
            return true;
        }
        match self.entered.get_mut(step.member) {
            Some(entered) => {
                let is_new = !*entered;
                *entered = true;
                is_new
            }
            None => false,
        }
    }

    /// Goes down to a need, and then on to the next.
    pub fn go_down(&mut self, step: Step, need: usize) -> Result<(), NoMemory> {
        self.steps.push(Step {
            member: step.member,
            next: step.next.saturating_add(1),
        })?;
        self.steps.push(Step {
            member: need,
            next: 0,
        })?;
        Ok(())
    }
}
