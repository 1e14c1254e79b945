// What an outline keeps beside its draft, so that a look-up is a few operations.
use crate::seat::Seat;
use aso_tree::Forest;

/// A hierarchy of a base dimension.
#[derive(Debug, Drop)]
pub struct TreeTable {
    /// The number of its root.
    pub first: u32,
    pub forest: Forest,
    /// The height of its highest member without a label-only mark.
    pub top: u32,
    /// Of each data leaf, by ordinal, the place of the first member that shares it; and of each place the data leaf that is
    /// shared there.
    pub sharers: Vec<Option<u32>>,
    pub shared: Vec<Option<u32>>,
}

/// A base dimension.
#[derive(Debug, Drop)]
pub struct DimTable {
    /// The number of its first member, and the one behind its last.
    pub first: u32,
    pub end: u32,
    /// The places of its data leaves in the first hierarchy, by ordinal; and of each place the ordinal of the data leaf there.
    pub leaves: Vec<u32>,
    pub ordinals: Vec<Option<u32>>,
    /// How many data leaves stand before each place of the first hierarchy, and before its end.
    pub counts: Vec<u32>,
    pub trees: Vec<TreeTable>,
}

/// An attribute dimension.
#[derive(Debug, Drop)]
pub struct AttrTable {
    /// The number of its root.
    pub first: u32,
    pub forest: Forest,
}

#[derive(Debug, Drop)]
pub struct Tables {
    /// What each member number stands for.
    pub seats: Vec<Seat>,
    pub dims: Vec<DimTable>,
    pub attrs: Vec<AttrTable>,
    /// The rank of each member number.
    pub ranks: Vec<Option<u32>>,
}
