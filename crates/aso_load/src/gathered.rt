// What is gathered of the records.
use crate::loaded::Reject;
use crate::told::Told;
use aso_num::{Amount, List};

#[derive(Drop)]
pub struct Gathered {
    pub amounts: Vec<(List<u32>, Amount)>,
    pub rejects: Vec<Reject>,
    pub skipped: u64,
}

/// Memory that each record uses anew: a name that is put together, what the fields come to, and the leaves that they name.
#[derive(Drop)]
pub struct Scratch {
    pub joined: String,
    pub told: Vec<Told>,
    pub leaves: Vec<u32>,
}
