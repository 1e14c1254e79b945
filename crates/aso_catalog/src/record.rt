use aso_num::List;

/// A stored amount, in units of 1/10000, at one leaf of each dimension.
#[derive(Debug, Drop)]
pub struct LeafCell {
    /// One leaf ordinal per dimension, in outline order.
    pub leaves: List<u32>,
    pub amount: i128,
}

/// All that a store holds, as one body of the catalog.
#[derive(Debug, Drop)]
pub struct Record {
    /// Raised by one with each publish, and at least 1.
    pub layout: u64,
    /// Raised by one with each commit, and below the layout.
    pub commit: u64,
    /// The outline's text.
    pub outline: List<u8>,
    /// From 1 to 16.
    pub dimensions: u8,
    /// The cells, in rising order of their lists of leaves.
    pub cells: List<LeafCell>,
}
