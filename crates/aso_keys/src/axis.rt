use aso_num::List;

/// The classes that members hold, for the members of one dimension from the first of them on: the number of the first class and
/// the one behind the last, where the member has a range.
#[derive(Debug, Drop)]
pub struct Ranges {
    pub first: u32,
    pub each: List<Option<(u32, u32)>>,
}

/// A dimension at a view: how many classes it has, where they stand in a key, the class of each data leaf, a leaf of
/// each class, where there is one, and the range of classes of each member that has one.
#[derive(Debug, Drop)]
pub struct Axis {
    pub count: u32,
    pub shift: u32,
    pub width: u32,
    pub classes: List<Option<u32>>,
    pub leaves: List<Option<u32>>,
    pub ranges: Ranges,
}
