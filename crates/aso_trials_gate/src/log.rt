// A state that stands behind a gate: a log of its turns.
use aso_gate::Stands;

/// An entry: whose it is, and how many the pass had left before.
#[derive(Drop)]
pub struct Step {
    pub number: u32,
    pub before: u32,
}

/// The entries, and the floors that turns raised, in order.
#[derive(Drop)]
pub struct Log {
    pub steps: Vec<Step>,
    pub floors: Vec<u64>,
    pub layout: u64,
    pub swept: u64,
}

impl Stands for Log {
    type Entry = Step;

    type Start = ();

    ghost start = { λ _. tt };

    ghost history = { λ s. s.steps.items };

    ghost number = { λ e. e.number };

    ghost layout = { λ s. s.layout };

    ghost swept_floor = { λ s. s.swept };

    fn entries(&self) -> u64 {
        self.steps.len() as u64
    }
}
