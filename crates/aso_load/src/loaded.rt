use aso_num::{Amount, List};

/// A record that isn't loaded.
#[derive(Clone, Copy, Debug, PartialEq, Eq)]
pub struct Reject {
    /// The number of the record, from 1; header records count.
    pub row: u64,
    /// The first reason that holds, 1 to 6.
    pub reason: u8,
}

/// What a data file gives.
#[derive(Debug, Drop)]
pub struct Loaded {
    /// The amounts in the order of records and fields, each with the ordinals of its data leaves: one entry for each base dimension, in
    /// outline order.
    pub amounts: List<(List<u32>, Amount)>,
    /// The records that are rejected, in order.
    pub rejects: List<Reject>,
    /// How many records aren't rejected and give no amount.
    pub skipped: u64,
}
